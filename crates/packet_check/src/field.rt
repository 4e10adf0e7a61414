//! A field that stands whole in front of some bytes. Each reader here may give up where it likes: a
//! field that it doesn't find is walked over byte by byte.
ghost use Rattle.std.specs.Prelude.{◌+◌, ◌^◌, ◌<◌, ◌≤◌, length, take, drop, IfSome};
ghost use Rattle.packet_check.specs.Messages.{HasField, HasFreeField, HasHead};
ghost use Rattle.packet_check.specs.Values.{HasValue};
ghost use Rattle.wire_varint.specs.Reading.{IsVarint, IsWhole};

use crate::walk::is_refused;

/// A field's number, and how many bytes it has with its tag.
#[derive(Clone, Copy)]
pub(crate) struct Field {
    pub number: u32,
    pub len: usize,
}

/// What a content begins with: the number of its field, how many bytes its tag and its length have, and how
/// long it is.
#[derive(Clone, Copy)]
pub(crate) struct Head {
    pub number: u32,
    pub width: usize,
    pub size: u64,
}

/// A tag of one byte or two in front, and how many it has.
#[inline(always)]
fn short_tag(bytes: &[u8]) -> Option<(u64, usize)>
    ensures varint { IfSome result (λ found. IsVarint (take found.1 bytes.now) found.0) }
    ensures small { IfSome result (λ found. found.0 < 2 ^ 14) }
    ensures within { IfSome result (λ found. found.1 ≤ length bytes.now) }
    ensures some { IfSome result (λ found. 1 ≤ found.1) }
{
    match bytes {
        [only, ..] if *only < 128 => Some((u64::from(*only), 1)),
        [first, last, ..] if *first >= 128 && *last < 128 => {
            Some((u64::from(*first % 128) + 128 * u64::from(*last), 2))
        }
        _ => None,
    }
}

/// A length of one byte, two or four in front, and how many it has. Four are what a writer sets aside
/// for a length that it doesn't know yet.
#[inline(always)]
fn short_size(bytes: &[u8]) -> Option<(u64, usize)>
    ensures varint { IfSome result (λ found. IsVarint (take found.1 bytes.now) found.0) }
    ensures within { IfSome result (λ found. found.1 ≤ length bytes.now) }
{
    match bytes {
        [only, ..] if *only < 128 => Some((u64::from(*only), 1)),
        [first, last, ..] if *first >= 128 && *last < 128 => {
            Some((u64::from(*first % 128) + 128 * u64::from(*last), 2))
        }
        [first, second, third, last, ..]
            if *first >= 128 && *second >= 128 && *third >= 128 && *last < 128 => {
            let low = u64::from(*first % 128) + 128 * u64::from(*second % 128);
            let high = u64::from(*third % 128) + 128 * u64::from(*last);
            Some((low + 16_384 * high, 4))
        }
        _ => None,
    }
}

/// How many bytes a number in front has, if it has nine at most. Each case is written out: they are no calls,
/// and no loop.
#[inline(always)]
fn number_len(bytes: &[u8]) -> Option<usize>
    ensures whole { IfSome result (λ len. IsWhole (take len bytes.now)) }
    ensures few { IfSome result (λ len. len ≤ 9) }
    ensures within { IfSome result (λ len. len ≤ length bytes.now) }
{
    match bytes {
        [a, ..] if *a < 128 => Some(1),
        [a, b, ..] if *a >= 128 && *b < 128 => Some(2),
        [a, b, c, ..] if *a >= 128 && *b >= 128 && *c < 128 => Some(3),
        [a, b, c, d, ..] if *a >= 128 && *b >= 128 && *c >= 128 && *d < 128 => Some(4),
        _ => long_len(bytes),
    }
}

/// How many bytes a number in front has, if it has from five to nine.
#[inline(always)]
fn long_len(bytes: &[u8]) -> Option<usize>
    ensures whole { IfSome result (λ len. IsWhole (take len bytes.now)) }
    ensures few { IfSome result (λ len. len ≤ 9) }
    ensures within { IfSome result (λ len. len ≤ length bytes.now) }
{
    match bytes {
        [a, b, c, d, e, ..] if *a >= 128 && *b >= 128 && *c >= 128 && *d >= 128 && *e < 128 => Some(
            5,
        ),
        [a, b, c, d, e, f, ..]
            if *a >= 128 && *b >= 128 && *c >= 128 && *d >= 128 && *e >= 128 && *f < 128 => Some(6),
        [a, b, c, d, e, f, g, ..]
            if *a >= 128
                && *b >= 128
                && *c >= 128
                && *d >= 128
                && *e >= 128
                && *f >= 128
                && *g < 128 => Some(7),
        [a, b, c, d, e, f, g, h, ..]
            if *a >= 128
                && *b >= 128
                && *c >= 128
                && *d >= 128
                && *e >= 128
                && *f >= 128
                && *g >= 128
                && *h < 128 => Some(8),
        [a, b, c, d, e, f, g, h, i, ..]
            if *a >= 128
                && *b >= 128
                && *c >= 128
                && *d >= 128
                && *e >= 128
                && *f >= 128
                && *g >= 128
                && *h >= 128
                && *i < 128 => Some(9),
        _ => None,
    }
}

/// How many bytes a content in front has, with its length.
#[tactic(auto, using(crate::proofs::FieldLemmas::value_steps))]
#[inline(always)]
fn content_len(bytes: &[u8]) -> Option<usize>
    ensures value { IfSome result (λ len. HasValue 2 bytes.now len) }
    ensures within { IfSome result (λ len. len ≤ length bytes.now) }
{
    match bytes {
        [only, ..] if *only < 128 && usize::from(*only) < bytes.len() => {
            Some(1 + usize::from(*only))
        }
        _ => long_content_len(bytes),
    }
}

/// The same of a content of any length.
#[tactic(auto, using(crate::proofs::FieldLemmas::value_steps))]
#[inline(always)]
fn long_content_len(bytes: &[u8]) -> Option<usize>
    ensures value { IfSome result (λ len. HasValue 2 bytes.now len) }
    ensures within { IfSome result (λ len. len ≤ length bytes.now) }
{
    let (size, width) = short_size(bytes)?;
    if size > (bytes.len() - width) as u64 {
        return None;
    }
    Some(width + size as usize)
}

/// How many bytes a value of this wire type in front has, where that is a number or a content: most are.
#[tactic(auto, using(crate::proofs::FieldLemmas::value_steps))]
#[inline(always)]
fn common_len(wire: u64, bytes: &[u8]) -> Option<usize>
    ensures value { IfSome result (λ len. HasValue wire bytes.now len) }
    ensures within { IfSome result (λ len. len ≤ length bytes.now) }
{
    if wire == 2 {
        return content_len(bytes);
    }
    if wire == 0 {
        return number_len(bytes);
    }
    None
}

/// How many bytes a value of this wire type in front has.
#[inline(always)]
fn value_len(wire: u64, bytes: &[u8]) -> Option<usize>
    ensures value { IfSome result (λ len. HasValue wire bytes.now len) }
    ensures within { IfSome result (λ len. len ≤ length bytes.now) }
{
    match common_len(wire, bytes) {
        Some(len) => Some(len),
        None => fixed_len(wire, bytes),
    }
}

/// How many bytes a value of fixed length in front has.
#[tactic(auto, using(crate::proofs::FieldLemmas::value_steps))]
#[inline(never)]
fn fixed_len(wire: u64, bytes: &[u8]) -> Option<usize>
    ensures value { IfSome result (λ len. HasValue wire bytes.now len) }
    ensures within { IfSome result (λ len. len ≤ length bytes.now) }
{
    if wire == 1 && bytes.len() >= 8 {
        return Some(8);
    }
    if wire == 5 && bytes.len() >= 4 {
        return Some(4);
    }
    None
}

/// The field in front.
#[inline(always)]
fn field_in_front(bytes: &[u8]) -> Option<Field>
    ensures field { IfSome result (λ field. HasField bytes.now field.number field.len) }
    ensures some { IfSome result (λ field. 1 ≤ field.len) }
    ensures within { IfSome result (λ field. field.len ≤ length bytes.now) }
{
    let (tag, width) = short_tag(bytes)?;
    let number = tag / 8;
    if number == 0 {
        return None;
    }
    let len = value_len(tag % 8, &bytes[width..])?;
    Some(Field {
        number: number as u32,
        len: width + len,
    })
}

/// How many bytes the field with this tag has, if it is a number or a content that writers may write. The
/// others are left to the walk.
#[inline(always)]
fn free_behind(bytes: &[u8], tag: u64, width: usize) -> Option<usize>
    requires varint { IsVarint (take width bytes.now) tag }
    requires small { tag < 2 ^ 14 }
    requires some { 1 ≤ width }
    requires within { width ≤ length bytes.now }
    ensures field { IfSome result (λ len. HasFreeField bytes.now len) }
    ensures some { IfSome result (λ len. 1 ≤ len) }
    ensures within { IfSome result (λ len. len ≤ length bytes.now) }
{
    let number = tag / 8;
    if number == 0 {
        return None;
    }
    if is_refused(number as u32) {
        return None;
    }
    let len = common_len(tag % 8, &bytes[width..])?;
    Some(width + len)
}

/// How many bytes the field in front has, if it is a number or a content that writers may write. A tag of
/// one byte and one of two are told apart before all else, so that each has code of its own behind it.
#[inline(always)]
fn free_in_front(bytes: &[u8]) -> Option<usize>
    ensures field { IfSome result (λ len. HasFreeField bytes.now len) }
    ensures some { IfSome result (λ len. 1 ≤ len) }
    ensures within { IfSome result (λ len. len ≤ length bytes.now) }
{
    match bytes {
        [only, ..] if *only < 128 => free_behind(bytes, u64::from(*only), 1),
        [first, last, ..] if *first >= 128 && *last < 128 => {
            free_behind(bytes, u64::from(*first % 128) + 128 * u64::from(*last), 2)
        }
        _ => None,
    }
}

/// The same of the field at a place.
#[inline(always)]
pub(crate) fn free_at(bytes: &[u8], at: usize) -> Option<usize>
    requires { at ≤ length bytes.now }
    ensures field { IfSome result (λ len. HasFreeField (drop at bytes.now) len) }
    ensures some { IfSome result (λ len. 1 ≤ len) }
    ensures within { IfSome result (λ len. at + len ≤ length bytes.now) }
{
    free_in_front(&bytes[at..])
}

/// The field at a place.
#[inline(always)]
pub(crate) fn field_at(bytes: &[u8], at: usize) -> Option<Field>
    requires { at ≤ length bytes.now }
    ensures field { IfSome result (λ field. HasField (drop at bytes.now) field.number field.len) }
    ensures some { IfSome result (λ field. 1 ≤ field.len) }
    ensures within { IfSome result (λ field. at + field.len ≤ length bytes.now) }
{
    field_in_front(&bytes[at..])
}

/// The tag and the length of a content in front, of which the rest may still come.
fn head_in_front(bytes: &[u8]) -> Option<Head>
    ensures head { IfSome result (λ head. HasHead bytes.now head.number head.width head.size) }
    ensures some { IfSome result (λ head. 1 ≤ head.width) }
    ensures within { IfSome result (λ head. head.width ≤ length bytes.now) }
{
    let (tag, wide) = short_tag(bytes)?;
    if tag < 8 || tag % 8 != 2 {
        return None;
    }
    let (size, width) = short_size(&bytes[wide..])?;
    Some(Head {
        number: (tag / 8) as u32,
        width: wide + width,
        size,
    })
}

/// The tag and the length of a content at a place.
#[inline(always)]
pub(crate) fn head_at(bytes: &[u8], at: usize) -> Option<Head>
    requires { at ≤ length bytes.now }
    ensures head { IfSome result (λ head. HasHead (drop at bytes.now) head.number head.width head.size) }
    ensures some { IfSome result (λ head. 1 ≤ head.width) }
    ensures within { IfSome result (λ head. at + head.width ≤ length bytes.now) }
{
    head_in_front(&bytes[at..])
}
