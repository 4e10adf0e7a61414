//! The bytes in front of a field, which are read at once: its number, and behind a colon a number, or a
//! text and how often it stands. What isn't read so is read byte by byte.
ghost use Rattle.std.specs.Prelude.{◌≡◌, ℕ, ◌≤◌, List, [], ◌∷◌, ◌++◌, Bool, true, take, length, IfSome, MatchOption};
ghost use Rattle.std.specs.List.{AllByRecursion};
ghost use Rattle.field_tree.specs.Nodes.{Shown};
ghost use Rattle.field_tree.specs.Grammar.{IsTextByte};
ghost use Rattle.field_tree.specs.Machine.{TextReading};
ghost use Rattle.field_tree.specs.Machine as machine;
ghost use Rattle.field_tree.specs.declared.mode.Mode.TheVariants.{Start, Value, Text, Quoted, Tick};
ghost use Rattle.field_tree.specs.Scanning.{reading_with, RunsOver, IsPair, ArePairs, TakesDigits, ScansFrom};

use crate::act::{grown, is_first_digit, is_text_byte, pair_or_more};
use crate::mode::Mode;
use trace_base::limits::{MAX_FIELD, MAX_PACKET_LEN};

/// Where the reading stands behind some bytes.
#[derive(Clone, Copy)]
pub(crate) struct Scanned<'t> {
    pub mode: Mode,
    /// What these bytes add to the text that is being read.
    pub text: &'t [u8],
    /// The bytes that are still to come.
    pub behind: &'t [u8],
}

/// A number, and the bytes behind it.
#[derive(Clone, Copy)]
struct Digits<'t> {
    value: u64,
    behind: &'t [u8],
}

/// The first byte, and those behind it.
#[inline(always)]
pub(crate) fn first_byte(bytes: &[u8]) -> Option<(u8, &[u8])>
    ensures { MatchOption result (bytes.now ≡ []) (λ found. bytes.now ≡ found.0 ∷ found.1.now) }
{
    match bytes {
        [] => None,
        [first, behind @ ..] => Some((*first, behind)),
    }
}

/// Goes on with a number over the digits in front, as long as it stays within its range.
#[inline(always)]
fn take_digits(most: u64, start: u64, bytes: &[u8]) -> Digits<'_>
    requires { start ≤ most }
    ensures digits { (to : ℕ → TextReading) → TakesDigits most to → RunsOver (to start) bytes.now (to result.value) result.behind.now }
    ensures within { result.value ≤ most }
{
    let mut value = start;
    let mut rest = bytes;
    'digits: while let Some((digit, behind)) = first_byte(rest) {
        let Some(more) = grown(most, value, digit) else {
            return Digits {
                value,
                behind: rest,
            };
        };
        value = more;
        rest = behind;
    }
    Digits {
        value,
        behind: rest,
    }
}

/// The byte that the two hexadecimal digits in front say, and what stands behind them. One branch tells
/// whether both are digits.
#[inline(always)]
pub(crate) fn first_pair(bytes: &[u8]) -> Option<(u8, &[u8])>
    ensures { IfSome result (λ found. IsPair bytes.now found.0 found.1.now) }
{
    match bytes {
        [high, low, behind @ ..] => {
            let value = pair_or_more(*high, *low);
            if value < 256 {
                Some((value as u8, behind))
            } else {
                None
            }
        }
        _ => None,
    }
}

/// Four bytes that are written in pairs of digits, and what stands behind these.
#[derive(Clone, Copy)]
pub(crate) struct FourPairs<'t> {
    pub first: u8,
    pub second: u8,
    pub third: u8,
    pub fourth: u8,
    pub behind: &'t [u8],
}

/// The bytes that the eight hexadecimal digits in front say. One branch tells whether all are digits:
/// each sum is below 256 then, and so is what has the bits of all four.
#[tactic(auto, using(crate::proofs::HexLemmas::four_small))]
#[inline(always)]
pub(crate) fn first_four_pairs(bytes: &[u8]) -> Option<FourPairs<'_>>
    ensures { IfSome result (λ found. ArePairs bytes.now (found.first ∷ found.second ∷ found.third ∷ found.fourth ∷ []) found.behind.now) }
{
    match bytes {
        [a, b, c, d, e, f, g, h, behind @ ..] => {
            let first = pair_or_more(*a, *b);
            let second = pair_or_more(*c, *d);
            let third = pair_or_more(*e, *f);
            let fourth = pair_or_more(*g, *h);
            if first | second | third | fourth < 256 {
                Some(FourPairs {
                    first: first as u8,
                    second: second as u8,
                    third: third as u8,
                    fourth: fourth as u8,
                    behind,
                })
            } else {
                None
            }
        }
        _ => None,
    }
}

/// How many bytes of a text stand in front.
fn text_len(bytes: &[u8]) -> usize
    ensures within { result ≤ length bytes.now }
    ensures text { AllByRecursion IsTextByte (take result bytes.now) }
{
    for (at, byte) in bytes.iter().enumerate() {
        if !is_text_byte(*byte) {
            return at;
        }
    }
    bytes.len()
}

/// Reads how often a text stands, behind the quote that ends it.
#[tactic(auto, using(crate::proofs::ScanLemmas::stays_here))]
#[inline(always)]
fn scan_times(field: u32, bytes: &[u8]) -> Scanned<'_>
    ensures { (nodes : List Shown) (depth : ℕ) (text : List ℕ)
        → RunsOver (reading_with nodes depth text (Quoted field)) bytes.now (reading_with nodes depth text result.mode) result.behind.now }
{
    let quoted = Scanned {
        mode: Mode::Quoted { field },
        text: &[],
        behind: bytes,
    };
    let Some((b'*', rest)) = first_byte(bytes) else {
        return quoted;
    };
    match first_byte(rest) {
        Some((first, rest)) if is_first_digit(first) => {
            let digits = take_digits(MAX_PACKET_LEN as u64, (first - b'0') as u64, rest);
            Scanned {
                mode: Mode::Times {
                    field,
                    times: digits.value as u32,
                },
                text: &[],
                behind: digits.behind,
            }
        }
        _ => quoted,
    }
}

/// Reads on in a text.
#[inline(always)]
fn scan_text(field: u32, bytes: &[u8]) -> Scanned<'_>
    ensures { ScansFrom (Text field) bytes.now result }
{
    let (text, behind) = bytes.split_at(text_len(bytes));
    match first_byte(behind) {
        Some((b'"', rest)) => {
            let times = scan_times(field, rest);
            Scanned {
                mode: times.mode,
                text,
                behind: times.behind,
            }
        }
        _ => Scanned {
            mode: Mode::Text { field },
            text,
            behind,
        },
    }
}

/// Reads on behind the `x` of a text that is written in pairs of hexadecimal digits.
#[inline(always)]
fn scan_packed(field: u32, bytes: &[u8]) -> Scanned<'_>
    ensures { ScansFrom (Tick field) bytes.now result }
{
    match first_byte(bytes) {
        Some((b'\'', behind)) => Scanned {
            mode: Mode::Pairs { field },
            text: &[],
            behind,
        },
        _ => Scanned {
            mode: Mode::Tick { field },
            text: &[],
            behind: bytes,
        },
    }
}

/// Reads on behind a field's colon.
#[inline(always)]
fn scan_value(field: u32, bytes: &[u8]) -> Scanned<'_>
    ensures { ScansFrom (Value field) bytes.now result }
{
    match first_byte(bytes) {
        Some((b'"', rest)) => scan_text(field, rest),
        Some((b'x', rest)) => scan_packed(field, rest),
        Some((first, rest)) if is_first_digit(first) => {
            let digits = take_digits(u64::MAX, (first - b'0') as u64, rest);
            Scanned {
                mode: Mode::Digits {
                    field,
                    value: digits.value,
                },
                text: &[],
                behind: digits.behind,
            }
        }
        _ => Scanned {
            mode: Mode::Value { field },
            text: &[],
            behind: bytes,
        },
    }
}

/// Reads the field that begins with these bytes, as far as it is read here.
#[inline(always)]
fn scan_field(first: u8, rest: &[u8]) -> Scanned<'_>
    requires { machine.is_first_digit first ≡ true }
    ensures { (opened : Bool) → ScansFrom (Start opened) (first ∷ rest.now) result }
{
    let digits = take_digits(MAX_FIELD as u64, (first - b'0') as u64, rest);
    let field = digits.value as u32;
    match first_byte(digits.behind) {
        Some((b':', behind)) => scan_value(field, behind),
        _ => Scanned {
            mode: Mode::Field { field },
            text: &[],
            behind: digits.behind,
        },
    }
}

/// Reads on where a field may begin.
#[inline(always)]
pub(crate) fn scan(opened: bool, bytes: &[u8]) -> Scanned<'_>
    ensures { ScansFrom (Start opened) bytes.now result }
{
    match first_byte(bytes) {
        Some((first, rest)) if is_first_digit(first) => scan_field(first, rest),
        _ => Scanned {
            mode: Mode::Start { opened },
            text: &[],
            behind: bytes,
        },
    }
}
