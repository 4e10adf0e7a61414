//! What the reading does at a byte, by where it stands.
ghost use Rattle.std.specs.Prelude.{◌≡◌, ℕ, ◌+◌, ◌*◌, ◌==◌, ◌&&◌, if◌then◌else◌, ◌≤◌, ◌<◌, IfSome, length};
ghost use Rattle.field_tree.specs.Machine as machine;
ghost use Rattle.field_tree.specs.Machine.{HalfFits};
ghost use Rattle.field_tree.specs.Grammar as grammar;

use crate::mode::{Action, Mode};
use trace_base::limits::{MAX_FIELD, MAX_PACKET_LEN};

#[inline(always)]
fn is_digit(byte: u8) -> bool
    ensures { result ≡ grammar.is_digit byte }
{
    b'0' <= byte && byte <= b'9'
}

#[inline(always)]
pub(crate) fn is_first_digit(byte: u8) -> bool
    ensures { result ≡ machine.is_first_digit byte }
{
    b'1' <= byte && byte <= b'9'
}

#[inline(always)]
pub(crate) fn is_text_byte(byte: u8) -> bool
    ensures { result ≡ machine.is_text_byte byte }
{
    b' ' <= byte && byte <= b'~' && byte != b'"' && byte != b'\\'
}

/// The number with one digit more, where it stays within its range.
#[tactic(auto, unfolding(crate::specs::Machine::grown))]
#[inline(always)]
pub(crate) fn grown(most: u64, value: u64, byte: u8) -> Option<u64>
    ensures value { result ≡ machine.grown most value byte }
    ensures within { IfSome result (λ more. more ≤ most) }
{
    if !is_digit(byte) {
        return None;
    }
    let digit = u64::from(byte - b'0');
    if value < most / 10 {
        return Some(value * 10 + digit);
    }
    if value > most / 10 || digit > most - value * 10 {
        return None;
    }
    Some(value * 10 + digit)
}

/// The value of each byte as a lower-case hexadecimal digit. Which digits and which letters stand in a
/// text can't be foreseen, so no branch tells them apart. Any other byte has 256, which is more than any
/// pair of digits says.
const HEX_VALUES: [u16; 256] = [
    256, 256, 256, 256, 256, 256, 256, 256, 256, 256, 256, 256, 256, 256, 256, 256, 256, 256, 256,
    256, 256, 256, 256, 256, 256, 256, 256, 256, 256, 256, 256, 256, 256, 256, 256, 256, 256, 256,
    256, 256, 256, 256, 256, 256, 256, 256, 256, 256, 0, 1, 2, 3, 4, 5, 6, 7, 8, 9, 256, 256, 256,
    256, 256, 256, 256, 256, 256, 256, 256, 256, 256, 256, 256, 256, 256, 256, 256, 256, 256, 256,
    256, 256, 256, 256, 256, 256, 256, 256, 256, 256, 256, 256, 256, 256, 256, 256, 256, 10, 11,
    12, 13, 14, 15, 256, 256, 256, 256, 256, 256, 256, 256, 256, 256, 256, 256, 256, 256, 256, 256,
    256, 256, 256, 256, 256, 256, 256, 256, 256, 256, 256, 256, 256, 256, 256, 256, 256, 256, 256,
    256, 256, 256, 256, 256, 256, 256, 256, 256, 256, 256, 256, 256, 256, 256, 256, 256, 256, 256,
    256, 256, 256, 256, 256, 256, 256, 256, 256, 256, 256, 256, 256, 256, 256, 256, 256, 256, 256,
    256, 256, 256, 256, 256, 256, 256, 256, 256, 256, 256, 256, 256, 256, 256, 256, 256, 256, 256,
    256, 256, 256, 256, 256, 256, 256, 256, 256, 256, 256, 256, 256, 256, 256, 256, 256, 256, 256,
    256, 256, 256, 256, 256, 256, 256, 256, 256, 256, 256, 256, 256, 256, 256, 256, 256, 256, 256,
    256, 256, 256, 256, 256, 256, 256, 256, 256, 256, 256, 256, 256, 256, 256, 256, 256, 256, 256,
    256, 256, 256, 256,
];

/// The value of a lower-case hexadecimal digit, and more than any pair of digits says for another byte.
#[inline(always)]
fn digit_or_more(byte: u8) -> u16
    ensures value { result ≡ machine.digit_or_more byte }
    ensures within { result ≤ 256 }
{
    HEX_VALUES[byte as usize]
}

/// What two hexadecimal digits say, and more than any pair of digits says where one isn't a digit.
#[inline(always)]
pub(crate) fn pair_or_more(high: u8, low: u8) -> u16
    ensures { result ≡ 16 * machine.digit_or_more high + machine.digit_or_more low }
{
    16 * digit_or_more(high) + digit_or_more(low)
}

/// The value of a lower-case hexadecimal digit.
#[inline(always)]
pub(crate) fn hex_value(byte: u8) -> Option<u8>
    ensures value { result ≡ machine.hex_value byte }
    ensures within { IfSome result (λ digit. digit < 16) }
{
    let value = digit_or_more(byte);
    if value < 16 { Some(value as u8) } else { None }
}

/// What is done at a byte, inside a nested message or not.
#[tactic(auto, unfolding(crate::specs::Machine::act))]
#[inline(always)]
pub(crate) fn act(mode: Mode, inner: bool, byte: u8) -> Action
    requires { HalfFits mode }
    ensures { result ≡ machine.act mode inner byte }
{
    match mode {
        Mode::Start { opened } => at_start(opened, inner, byte),
        Mode::Field { field } => in_field(field, inner, byte),
        Mode::Value { field } => at_value(field, inner, byte),
        Mode::Zero { field: _ } => Action::Refuse,
        Mode::Digits { field, value } => in_digits(field, value, inner, byte),
        Mode::Text { field } => in_text(field, inner, byte),
        Mode::Quoted { field } => only(byte, b'*', Mode::Star { field }),
        Mode::Star { field } => at_times(field, inner, byte),
        Mode::Times { field, times } => in_times(field, times, inner, byte),
        Mode::Tick { field } => only(byte, b'\'', Mode::Pairs { field }),
        Mode::Pairs { field } => in_pairs(field, inner, byte),
        Mode::Half { field, high } => in_half(field, high, inner, byte),
        Mode::Packed { field: _ } => Action::Refuse,
        Mode::After => behind_field(inner, byte),
    }
}

/// Goes on at one byte, and refuses each other one.
#[inline(always)]
fn only(byte: u8, wanted: u8, mode: Mode) -> Action
    ensures { result ≡ (if byte == wanted then Action.Go mode else Action.Refuse) }
{
    if byte == wanted {
        Action::Go(mode)
    } else {
        Action::Refuse
    }
}

#[tactic(auto, unfolding(crate::specs::Machine::act))]
#[inline(always)]
fn at_start(opened: bool, inner: bool, byte: u8) -> Action
    ensures { result ≡ machine.act (Mode.Start opened) inner byte }
{
    if is_first_digit(byte) {
        Action::Go(Mode::Field {
            field: u32::from(byte - b'0'),
        })
    } else if opened && inner && byte == b'}' {
        Action::Close
    } else {
        Action::Refuse
    }
}

#[tactic(auto, unfolding(crate::specs::Machine::act))]
#[inline(always)]
fn in_field(field: u32, inner: bool, byte: u8) -> Action
    ensures { result ≡ machine.act (Mode.Field field) inner byte }
{
    if byte == b':' {
        Action::Go(Mode::Value { field })
    } else if byte == b'{' {
        Action::Open(field)
    } else {
        match grown(u64::from(MAX_FIELD), u64::from(field), byte) {
            Some(more) => Action::Go(Mode::Field { field: more as u32 }),
            None => Action::Refuse,
        }
    }
}

#[tactic(auto, unfolding(crate::specs::Machine::act))]
#[inline(always)]
fn at_value(field: u32, inner: bool, byte: u8) -> Action
    ensures { result ≡ machine.act (Mode.Value field) inner byte }
{
    if byte == b'"' {
        Action::Go(Mode::Text { field })
    } else if byte == b'x' {
        Action::Go(Mode::Tick { field })
    } else if byte == b'0' {
        Action::Go(Mode::Zero { field })
    } else if is_first_digit(byte) {
        Action::Go(Mode::Digits {
            field,
            value: u64::from(byte - b'0'),
        })
    } else {
        Action::Refuse
    }
}

#[tactic(auto, unfolding(crate::specs::Machine::act))]
#[inline(always)]
fn in_digits(field: u32, value: u64, inner: bool, byte: u8) -> Action
    ensures { result ≡ machine.act (Mode.Digits field value) inner byte }
{
    match grown(u64::MAX, value, byte) {
        Some(more) => Action::Go(Mode::Digits { field, value: more }),
        None => Action::Refuse,
    }
}

#[tactic(auto, unfolding(crate::specs::Machine::act))]
#[inline(always)]
fn in_text(field: u32, inner: bool, byte: u8) -> Action
    ensures { result ≡ machine.act (Mode.Text field) inner byte }
{
    if byte == b'"' {
        Action::Go(Mode::Quoted { field })
    } else if is_text_byte(byte) {
        Action::Keep(Mode::Text { field }, byte)
    } else {
        Action::Refuse
    }
}

#[tactic(auto, unfolding(crate::specs::Machine::act))]
#[inline(always)]
fn at_times(field: u32, inner: bool, byte: u8) -> Action
    ensures { result ≡ machine.act (Mode.Star field) inner byte }
{
    if is_first_digit(byte) {
        Action::Go(Mode::Times {
            field,
            times: u32::from(byte - b'0'),
        })
    } else {
        Action::Refuse
    }
}

#[tactic(auto, unfolding(crate::specs::Machine::act))]
#[inline(always)]
fn in_times(field: u32, times: u32, inner: bool, byte: u8) -> Action
    ensures { result ≡ machine.act (Mode.Times field times) inner byte }
{
    match grown(u64::from(MAX_PACKET_LEN), u64::from(times), byte) {
        Some(more) => Action::Go(Mode::Times {
            field,
            times: more as u32,
        }),
        None => Action::Refuse,
    }
}

#[tactic(auto, unfolding(crate::specs::Machine::act))]
#[inline(always)]
fn in_pairs(field: u32, inner: bool, byte: u8) -> Action
    ensures { result ≡ machine.act (Mode.Pairs field) inner byte }
{
    if byte == b'\'' {
        Action::Go(Mode::Packed { field })
    } else {
        match hex_value(byte) {
            Some(high) => Action::Go(Mode::Half { field, high }),
            None => Action::Refuse,
        }
    }
}

#[tactic(auto, unfolding(crate::specs::Machine::act))]
#[inline(always)]
fn in_half(field: u32, high: u8, inner: bool, byte: u8) -> Action
    requires { high < 16 }
    ensures { result ≡ machine.act (Mode.Half field high) inner byte }
{
    match hex_value(byte) {
        Some(low) => Action::Keep(Mode::Pairs { field }, 16 * high + low),
        None => Action::Refuse,
    }
}

#[tactic(auto, unfolding(crate::specs::Machine::act))]
#[inline(always)]
fn behind_field(inner: bool, byte: u8) -> Action
    ensures { result ≡ machine.act Mode.After inner byte }
{
    if byte == b' ' {
        Action::Go(Mode::Start { opened: false })
    } else if inner && byte == b'}' {
        Action::Close
    } else {
        Action::Refuse
    }
}

/// Whether the text may end where the reading stands.
pub(crate) fn may_end(mode: Mode, depth: usize) -> bool
    ensures { result ≡ (machine.is_after mode && depth == 0) }
{
    let behind = match mode {
        Mode::After => true,
        _ => false,
    };
    behind && depth == 0
}

/// How many digits a refused byte takes back: those of the number for whose range it is one digit
/// too many.
pub(crate) fn taken_back(mode: Mode, byte: u8) -> usize
    ensures { result ≡ length (machine.taken_back mode byte) }
{
    if is_digit(byte) { open_digits(mode) } else { 0 }
}

/// How many digits the number has that is being read.
fn open_digits(mode: Mode) -> usize
    ensures { result ≡ length (machine.open_digits mode) }
{
    match mode {
        Mode::Field { field } => digit_count(u64::from(field)),
        Mode::Digits { field: _, value } => digit_count(value),
        Mode::Times { field: _, times } => digit_count(u64::from(times)),
        _ => 0,
    }
}

#[tactic(auto, using(crate::proofs::NumberLemmas::length_number_digit, crate::proofs::NumberLemmas::length_number_more, crate::proofs::NumberLemmas::length_number_most))]
fn digit_count(number: u64) -> usize
    ensures { result ≡ length (grammar.number number) }
{
    let mut count = 1;
    let mut rest = number;
    'digits: while rest >= 10 {
        rest /= 10;
        count += 1;
    }
    count
}
