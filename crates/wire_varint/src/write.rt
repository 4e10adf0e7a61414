//! Writing numbers and tags in the shortest form.
ghost use Rattle.std.specs.Prelude.{◌≡◌, ◌+◌, ◌*◌, ◌≤◌, ◌++◌, length, take, drop};
ghost use Rattle.wire_varint.specs.Varint.{varint, tag};

use arrayvec::ArrayVec;
use trace_base::limits::MAX_FIELD;

/// Writes the shortest varint of `value` into the first bytes of `out`, and answers its length.
#[tactic(auto, using(crate::proofs::Lengths::varint_lengths))]
pub fn put_varint(value: u64, out: &mut [u8; 10]) -> usize
    ensures written { take result out.new ≡ varint value }
    ensures len { result ≡ length (varint value) }
    ensures within { (1 ≤ result) × (result ≤ 10) }
    ensures behind { drop result out.new ≡ drop result out.old }
{
    put_varint_at(out, 0, value)
}

/// The number of which a tag is the varint.
fn tag_number(field: u32, wire: u8) -> u64
    ensures { result ≡ 8 * field + wire }
{
    8 * u64::from(field) + u64::from(wire)
}

/// Writes what stands in front of a field into the first bytes of `out`, and answers its length.
/// `wire` says how the value is written: 0 as a varint, 1 in eight bytes, 2 with its length in
/// front, 5 in four bytes; 3 and 4 enclose a group.
#[tactic(auto, using(crate::proofs::Lengths::varint_lengths), unfolding(crate::specs::Varint::tag))]
pub fn put_tag(field: u32, wire: u8, out: &mut [u8; 5]) -> usize
    requires field { (1 ≤ field) × (field ≤ MAX_FIELD) }
    requires wire { wire ≤ 5 }
    ensures written { take result out.new ≡ tag field wire }
    ensures len { result ≡ length (tag field wire) }
    ensures within { (1 ≤ result) × (result ≤ 5) }
    ensures behind { drop result out.new ≡ drop result out.old }
{
    put_varint_at(out, 0, tag_number(field, wire))
}

/// Appends the shortest varint of `value`.
#[inline(always)]
#[tactic(auto, unfolding(crate::specs::Varint::varint, crate::specs::Varint::groups))]
pub fn push_varint<const CAP: usize>(out: &mut ArrayVec<u8, CAP>, value: u64)
    requires room { length out.old.items + length (varint value) ≤ CAP }
    ensures { out.new.items ≡ out.old.items ++ varint value }
{
    // Most numbers have one byte, for which a call takes longer than the byte.
    if value < 128 {
        out.push(value as u8);
        return;
    }
    let mut bytes = [0; 10];
    let len = put_varint(value, &mut bytes);
    let _ = out.try_extend_from_slice(&bytes[..len]);
}

/// Appends what stands in front of a field, as `put_tag` writes it.
#[inline(always)]
#[tactic(auto, unfolding(crate::specs::Varint::tag))]
pub fn push_tag<const CAP: usize>(out: &mut ArrayVec<u8, CAP>, field: u32, wire: u8)
    requires field { (1 ≤ field) × (field ≤ MAX_FIELD) }
    requires wire { wire ≤ 5 }
    requires room { length out.old.items + length (tag field wire) ≤ CAP }
    ensures { out.new.items ≡ out.old.items ++ tag field wire }
{
    push_varint(out, tag_number(field, wire));
}

/// Writes the shortest varint of `value` at a place, and answers the place behind it.
#[inline(always)]
pub fn put_varint_at(out: &mut [u8], at: usize, value: u64) -> usize
    requires { at + length (varint value) ≤ length out.old }
    ensures bytes { out.new ≡ take at out.old ++ varint value ++ drop (at + length (varint value)) out.old }
    ensures behind { result ≡ at + length (varint value) }
{
    let mut rest = value;
    let mut here = at;
    while rest >= 128 {
        out[here] = 128 + (rest % 128) as u8;
        rest /= 128;
        here += 1;
    }
    out[here] = rest as u8;
    here + 1
}

/// How many bytes the shortest varint of `value` has.
#[inline(always)]
pub fn varint_len(value: u64) -> u32
    ensures is { result ≡ length (varint value) }
    ensures most { result ≤ 10 }
{
    // Most numbers have few bytes, for which a loop takes longer than the tests.
    if value < 128 {
        return 1;
    }
    if value < 16_384 {
        return 2;
    }
    if value < 2_097_152 {
        return 3;
    }
    let mut rest = value / 128 / 128 / 128;
    let mut len = 3;
    while rest >= 128 {
        rest /= 128;
        len += 1;
    }
    len + 1
}
