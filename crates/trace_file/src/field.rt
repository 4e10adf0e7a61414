//! One field of a protobuf message, as any writer may have spelled it.
ghost use Rattle.std.specs.Prelude.{◌≡◌, ◌≢◌, ℕ, ◌+◌, ◌/◌, ◌%◌, ◌<◌, ◌≤◌, length, take, drop, IfOk, IfErr};
ghost use Rattle.wire_varint.specs.Reading.{IsVarint};
ghost use Rattle.trace_model.specs.Fields.{FieldValue, Content, IsValue, Spells, wire_of};
ghost use Rattle.trace_file.specs.Faults.{IsGroup, Lacks, LacksTag, LacksValue};
ghost use Rattle.trace_file.specs.Values.{field_of, value_of};

use trace_base::limits::MAX_FIELD;
use wire_varint::{VarintFault, get_varint};

/// What stands behind a field's tag.
#[derive(Clone, Copy)]
pub(crate) enum Value<'a> {
    Number(u64),
    EightBytes,
    /// The bytes of a text or of a message.
    Content(&'a [u8]),
    FourBytes,
}

#[derive(Clone, Copy)]
pub(crate) struct Field<'a> {
    pub number: u64,
    pub value: Value<'a>,
    /// How many bytes it has, with its tag.
    pub len: usize,
}

/// Why no field stands in front of some bytes. The first of these that holds counts.
#[derive(Clone, Copy)]
pub(crate) enum FieldFault {
    /// It begins or ends a group.
    Group,
    /// A varint passes 64 bits, or there is no such field number or wire type.
    Malformed,
    /// The bytes end inside it.
    CutShort,
}

/// The varint of any length in front, and how many bytes it has.
#[inline(never)]
fn read_any(bytes: &[u8]) -> Result<(u64, usize), FieldFault>
    ensures varint { IfOk result (λ found. IsVarint (take found.1 bytes.now) found.0) }
    ensures within { IfOk result (λ found. found.1 ≤ length bytes.now) }
    ensures some { IfOk result (λ found. 1 ≤ found.1) }
    ensures lacks { IfErr result (λ fault. LacksTag fault bytes.now) }
{
    match get_varint(bytes) {
        Ok(found) => Ok(found),
        Err(VarintFault::Short) => Err(FieldFault::CutShort),
        Err(VarintFault::Over64) => Err(FieldFault::Malformed),
    }
}

/// The varint in front, and how many bytes it has. One of three bytes or four is read without a loop:
/// writers that set a length aside take four.
#[inline(never)]
fn read_long(bytes: &[u8]) -> Result<(u64, usize), FieldFault>
    ensures varint { IfOk result (λ found. IsVarint (take found.1 bytes.now) found.0) }
    ensures within { IfOk result (λ found. found.1 ≤ length bytes.now) }
    ensures some { IfOk result (λ found. 1 ≤ found.1) }
    ensures lacks { IfErr result (λ fault. LacksTag fault bytes.now) }
{
    match bytes {
        [first, second, last, ..] if *first >= 128 && *second >= 128 && *last < 128 => {
            let low = u64::from(*first % 128) + 128 * u64::from(*second % 128);
            Ok((low + 16_384 * u64::from(*last), 3))
        }
        [first, second, third, last, ..]
            if *first >= 128 && *second >= 128 && *third >= 128 && *last < 128 => {
            let low = u64::from(*first % 128) + 128 * u64::from(*second % 128);
            let high = u64::from(*third % 128) + 128 * u64::from(*last);
            Ok((low + 16_384 * high, 4))
        }
        _ => read_any(bytes),
    }
}

/// The varint in front, and how many bytes it has. Most have one byte or two.
#[inline(always)]
fn read_varint(bytes: &[u8]) -> Result<(u64, usize), FieldFault>
    ensures varint { IfOk result (λ found. IsVarint (take found.1 bytes.now) found.0) }
    ensures within { IfOk result (λ found. found.1 ≤ length bytes.now) }
    ensures some { IfOk result (λ found. 1 ≤ found.1) }
    ensures lacks { IfErr result (λ fault. LacksTag fault bytes.now) }
{
    match bytes {
        [only, ..] if *only < 128 => Ok((u64::from(*only), 1)),
        [first, last, ..] if *last < 128 => {
            Ok((u64::from(*first % 128) + 128 * u64::from(*last), 2))
        }
        _ => read_long(bytes),
    }
}

/// The content in front, with its length before it, and how many bytes both have.
#[tactic(auto, using(crate::proofs::FieldLemmas::too_little))]
#[inline(always)]
fn read_content(bytes: &[u8]) -> Result<(&[u8], usize), FieldFault>
    ensures value { IfOk result (λ found. IsValue (Content found.0.now) (take found.1 bytes.now)) }
    ensures within { IfOk result (λ found. found.1 ≤ length bytes.now) }
    ensures lacks { IfErr result (λ fault. LacksValue fault 2 bytes.now) }
{
    let (size, width) = read_varint(bytes)?;
    let behind = &bytes[width..];
    if size > behind.len() as u64 {
        return Err(FieldFault::CutShort);
    }
    let size = size as usize;
    Ok((&behind[..size], width + size))
}

/// A value of this wire type in front, and how many bytes it has.
#[inline(always)]
fn read_value(wire: u64, bytes: &[u8]) -> Result<(Value<'_>, usize), FieldFault>
    requires most { wire ≤ 5 }
    requires no_group { ¬ IsGroup wire }
    ensures value { IfOk result (λ found. IsValue (value_of found.0) (take found.1 bytes.now)) }
    ensures wire { IfOk result (λ found. wire_of (value_of found.0) ≡ wire) }
    ensures within { IfOk result (λ found. found.1 ≤ length bytes.now) }
    ensures lacks { IfErr result (λ fault. LacksValue fault wire bytes.now) }
{
    match wire {
        0 => {
            let (number, len) = read_varint(bytes)?;
            Ok((Value::Number(number), len))
        }
        1 => {
            if bytes.len() < 8 {
                return Err(FieldFault::CutShort);
            }
            Ok((Value::EightBytes, 8))
        }
        2 => {
            let (content, len) = read_content(bytes)?;
            Ok((Value::Content(content), len))
        }
        _ => {
            if bytes.len() < 4 {
                return Err(FieldFault::CutShort);
            }
            Ok((Value::FourBytes, 4))
        }
    }
}

/// The field in front.
#[inline(always)]
fn first_field(bytes: &[u8]) -> Result<Field<'_>, FieldFault>
    ensures field { IfOk result (λ field. Spells (field_of field) (take field.len bytes.now)) }
    ensures some { IfOk result (λ field. 1 ≤ field.len) }
    ensures within { IfOk result (λ field. field.len ≤ length bytes.now) }
    ensures lacks { IfErr result (λ fault. Lacks fault bytes.now) }
{
    let (tag, width) = read_varint(bytes)?;
    let (number, wire) = (tag / 8, tag % 8);
    if wire == 3 || wire == 4 {
        return Err(FieldFault::Group);
    }
    if number == 0 || number > u64::from(MAX_FIELD) || wire > 5 {
        return Err(FieldFault::Malformed);
    }
    match read_value(wire, &bytes[width..]) {
        Ok((value, len)) => Ok(Field {
            number,
            value,
            len: width + len,
        }),
        Err(fault) => Err(fault),
    }
}

/// The field at a place.
#[inline(always)]
pub(crate) fn field_at(bytes: &[u8], at: usize) -> Result<Field<'_>, FieldFault>
    requires { at ≤ length bytes.now }
    ensures field { IfOk result (λ field. Spells (field_of field) (take field.len (drop at bytes.now))) }
    ensures some { IfOk result (λ field. 1 ≤ field.len) }
    ensures within { IfOk result (λ field. at + field.len ≤ length bytes.now) }
    ensures lacks { IfErr result (λ fault. Lacks fault (drop at bytes.now)) }
{
    first_field(&bytes[at..])
}
