//! Bytes of a chunk's payload, by a cursor that is lent it.
ghost use Rattle.std.specs.Prelude.{◌≡◌, ℕ, ◌+◌, ◌-◌, ◌<◌, ◌≤◌, [], ◌∷◌, ◌++◌, length, min, take, nat_le, if◌then◌else◌};
ghost use Rattle.std.specs.List.{repeat};
ghost use Rattle.wire_varint.specs.Varint.{varint};
ghost use Rattle.trace_base.specs.declared.limits.TheConstants.{MAX_INPUT};
ghost use Rattle.trace_model.specs.Encoding.{bytes_head, nested_tag, number_field};
ghost use Rattle.trace_model.specs.Packets.{open_length};
ghost use Rattle.trace_model.specs.Images.{with_bytes};

use proto_stream::ChunkCursor;
use wire_varint::put_varint_at;

/// Pieces up to so many bytes are short.
const SHORT: usize = 16;

/// Writes the first bytes of the piece at a place, as many as fit, and says how many.
pub fn put_at(payload: &mut [u8], at: u32, piece: &[u8]) -> usize
    requires within { at ≤ length payload.old }
    requires small { length payload.old ≤ MAX_INPUT }
    ensures count { result ≡ min (length piece.now) (length payload.old - at) }
    ensures bytes { payload.new ≡ with_bytes payload.old at (take result piece.now) }
{
    if piece.len() <= SHORT && piece.len() <= payload.len() - at as usize {
        put_short(payload, at as usize, piece);
        return piece.len();
    }
    let mut cursor = ChunkCursor::new(payload, at);
    cursor.put(piece)
}

/// Writes a short piece at a place, where it fits: byte by byte, which takes less time than a call,
/// and than wider steps over bytes that were just stored one by one.
fn put_short(payload: &mut [u8], at: usize, piece: &[u8])
    requires { at + length piece.now ≤ length payload.old }
    ensures { payload.new ≡ with_bytes payload.old at piece.now }
{
    for i in 0..piece.len() {
        payload[at + i] = piece[i];
    }
}

/// Writes two varints at a place, one behind the other, where they fit.
#[inline(always)]
fn put_two_at(payload: &mut [u8], at: u32, first: u64, second: u64)
    requires { at + length (varint first ++ varint second) ≤ length payload.old }
    ensures { payload.new ≡ with_bytes payload.old at (varint first ++ varint second) }
{
    let behind = put_varint_at(payload, at as usize, first);
    put_varint_at(payload, behind, second);
}

/// Writes a number's field at a place, where it fits.
#[inline(always)]
pub fn put_number_at(payload: &mut [u8], at: u32, field: u32, value: u64)
    requires { at + length (number_field field value) ≤ length payload.old }
    ensures { payload.new ≡ with_bytes payload.old at (number_field field value) }
{
    put_two_at(payload, at, 8 * u64::from(field), value);
}

/// Writes what stands before the `len` bytes of a text at a place, where it fits.
#[inline(always)]
pub fn put_head_at(payload: &mut [u8], at: u32, field: u32, len: u32)
    requires { at + length (bytes_head field len) ≤ length payload.old }
    ensures { payload.new ≡ with_bytes payload.old at (bytes_head field len) }
{
    put_two_at(payload, at, 8 * u64::from(field) + 2, u64::from(len));
}

/// Writes a nested message's tag at a place, where it fits.
#[inline(always)]
pub fn put_tag_at(payload: &mut [u8], at: u32, field: u32)
    requires { at + length (nested_tag field) ≤ length payload.old }
    ensures { payload.new ≡ with_bytes payload.old at (nested_tag field) }
{
    put_varint_at(payload, at as usize, 8 * u64::from(field) + 2);
}

/// Writes one byte so many times at a place, where they fit.
pub fn put_run(payload: &mut [u8], at: u32, byte: u8, times: u32)
    requires { at + times ≤ length payload.old }
    ensures { payload.new ≡ with_bytes payload.old at (repeat times (byte ∷ [])) }
{
    for turn in 0..times {
        payload[at as usize + turn as usize] = byte;
    }
}

/// Sets aside the four bytes of a nested length at a place; false where they don't fit.
pub fn put_hole_at(payload: &mut [u8], at: u32) -> bool
    requires within { at ≤ length payload.old }
    requires small { length payload.old ≤ MAX_INPUT }
    ensures fits { result ≡ nat_le (at + 4) (length payload.old) }
    ensures bytes { payload.new ≡ (if result then with_bytes payload.old at open_length else payload.old) }
{
    let mut cursor = ChunkCursor::new(payload, at);
    cursor.put_hole().is_some()
}

/// Puts four bytes in place of those at a place.
pub fn set_four_at(payload: &mut [u8], at: u32, four: [u8; 4])
    requires within { at + 4 ≤ length payload.old }
    requires small { length payload.old ≤ MAX_INPUT }
    ensures { payload.new ≡ with_bytes payload.old at four }
{
    let mut cursor = ChunkCursor::new(payload, at + 4);
    cursor.set_four(at, four);
}
