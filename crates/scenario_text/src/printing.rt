//! How a refusal is printed.
ghost use Rattle.std.specs.Prelude.{◌≡◌, ◌≤◌, length};
ghost use Rattle.arrayvec.specs.ArrayVec.{array_vec_len};
ghost use Rattle.scenario_text.specs.Texts as texts;

use crate::reason::Reason;
use arrayvec::ArrayVec;

#[tactic(auto, unfolding(crate::specs::Texts::reason_words))]
fn reason_words(reason: Reason) -> &'static [u8]
    ensures words { result.now ≡ texts.reason_words reason }
    ensures short { length result.now ≤ 24 }
{
    match reason {
        Reason::UnfinishedLine => b"unfinished line",
        Reason::BadLine => b"bad line",
        Reason::NumberOutOfRange => b"number out of range",
        Reason::LateSetUp => b"late set-up",
        Reason::TooMany => b"too many",
        Reason::NoSuchProducer => b"no such producer",
        Reason::NoSuchBuffer => b"no such buffer",
        Reason::NoSuchWriter => b"no such writer",
        Reason::ChunkLargerThanBuffer => b"chunk larger than buffer",
        Reason::ProducerClosed => b"producer closed",
        Reason::RawTooLong => b"raw too long",
        Reason::PacketBegun => b"packet begun",
        Reason::NoPacket => b"no packet",
        Reason::NoNesting => b"no nesting",
        Reason::NestingLeft => b"nesting left",
        Reason::BadField { column: _ } => b"bad field at column ",
        Reason::ReservedField { field: _ } => b"reserved field ",
        Reason::TooDeep => b"too deep",
        Reason::PacketTooLong => b"packet too long",
        Reason::TooManyBytes => b"too many bytes",
        Reason::PacketLeft => b"packet left",
    }
}

#[tactic(auto, unfolding(crate::specs::Texts::reason_number))]
fn reason_number(reason: Reason) -> Option<u32>
    ensures { result ≡ texts.reason_number reason }
{
    match reason {
        Reason::BadField { column } => Some(column),
        Reason::ReservedField { field } => Some(field),
        _ => None,
    }
}

#[tactic(auto, unfolding(crate::specs::Texts::number_text))]
fn number_text(number: Option<u32>) -> ArrayVec<u8, 10>
    ensures { result.items ≡ texts.number_text number }
{
    let mut bytes = ArrayVec::new();
    if let Some(n) = number {
        let mut digits = itoa::Buffer::new();
        let _ = bytes.try_extend_from_slice(digits.format(n).as_bytes());
    }
    bytes
}

/// `line L: REASON`, with its line feed.
#[tactic(auto, unfolding(crate::specs::Texts::refusal_line))]
pub fn refusal_line(line: u32, reason: Reason) -> ArrayVec<u8, 64>
    ensures { result.items ≡ texts.refusal_line line reason }
{
    let mut digits = itoa::Buffer::new();
    let mut bytes = ArrayVec::new();
    let _ = bytes.try_extend_from_slice(b"line ");
    let _ = bytes.try_extend_from_slice(digits.format(line).as_bytes());
    let _ = bytes.try_extend_from_slice(b": ");
    let _ = bytes.try_extend_from_slice(reason_words(reason));
    let _ = bytes.try_extend_from_slice(&number_text(reason_number(reason)));
    let _ = bytes.try_extend_from_slice(b"\n");
    bytes
}
