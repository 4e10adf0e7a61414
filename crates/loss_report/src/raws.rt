//! The lines of the report on lines `raw`.
ghost use Rattle.std.specs.Prelude.{◌≡◌, ◌++◌, ◌≤◌, codes, decimal, length, OnOk, OnErr};
ghost use Rattle.byte_io.specs.Bytes.{after_told, CountsFaults, TakesPart};
ghost use Rattle.trace_buffer.specs.Answers.{arrived_value};
ghost use Rattle.loss_report.specs.Raws.{answer_of, answer_words, raw_line, raw_text};

use arrayvec::ArrayVec;
use byte_io::put::{WriteFault, put_all};
use byte_io::traits::Sink;
use trace_buffer::Arrived;

/// The most bytes of an answer's words.
const ANSWER_ROOM: usize = 32;

/// What became of a chunk that a line committed.
#[derive(Clone, Copy, Debug, PartialEq, Eq)]
pub enum RawAnswer {
    Kept,
    Rewritten,
    Duplicate,
    Discarded,
    TooFar,
    /// The fragment with this number, counted from 0, isn't one.
    BadChunk { fragment: u16 },
    /// The sequence has its records in this buffer.
    WrongTarget { buffer: u8 },
}

/// A line `raw` by its number in the text, and its answer.
#[derive(Clone, Copy, Debug, PartialEq, Eq)]
pub struct RawLine {
    pub line: u64,
    pub answer: RawAnswer,
}

impl From<Arrived> for RawAnswer {
    ghost from_gives = { λ arrived answer. answer_of (arrived_value arrived) ≡ answer };

    fn from(arrived: Arrived) -> RawAnswer {
        match arrived {
            Arrived::Kept => RawAnswer::Kept,
            Arrived::Rewritten => RawAnswer::Rewritten,
            Arrived::Duplicate => RawAnswer::Duplicate,
            Arrived::Discarded => RawAnswer::Discarded,
            Arrived::TooFar => RawAnswer::TooFar,
            Arrived::BadChunk { fragment } => RawAnswer::BadChunk { fragment },
        }
    }
}

/// The words of an answer.
#[tactic(auto, unfolding(crate::specs::Raws::answer_words))]
fn answer_bytes(answer: RawAnswer) -> ArrayVec<u8, ANSWER_ROOM>
    ensures { result.items ≡ answer_words answer }
{
    let mut digits = itoa::Buffer::new();
    let mut bytes = ArrayVec::new();
    match answer {
        RawAnswer::Kept => {
            let _ = bytes.try_extend_from_slice(b"kept");
        }
        RawAnswer::Rewritten => {
            let _ = bytes.try_extend_from_slice(b"rewritten");
        }
        RawAnswer::Duplicate => {
            let _ = bytes.try_extend_from_slice(b"duplicate");
        }
        RawAnswer::Discarded => {
            let _ = bytes.try_extend_from_slice(b"discarded");
        }
        RawAnswer::TooFar => {
            let _ = bytes.try_extend_from_slice(b"too far");
        }
        RawAnswer::BadChunk { fragment } => {
            let _ = bytes.try_extend_from_slice(b"bad chunk ");
            let _ = bytes.try_extend_from_slice(digits.format(fragment).as_bytes());
        }
        RawAnswer::WrongTarget { buffer } => {
            let _ = bytes.try_extend_from_slice(b"wrong target ");
            let _ = bytes.try_extend_from_slice(digits.format(buffer).as_bytes());
        }
    }
    bytes
}

/// The line of an answer.
#[tactic(auto, unfolding(crate::specs::Raws::raw_line))]
fn raw_bytes(raw: &RawLine) -> ArrayVec<u8, 64>
    ensures { result.items ≡ raw_line raw.now }
{
    let mut digits = itoa::Buffer::new();
    let mut bytes = ArrayVec::new();
    let _ = bytes.try_extend_from_slice(b"raw ");
    let _ = bytes.try_extend_from_slice(digits.format(raw.line).as_bytes());
    let _ = bytes.try_extend_from_slice(b" ");
    let _ = bytes.try_extend_from_slice(&answer_bytes(raw.answer));
    let _ = bytes.try_extend_from_slice(b"\n");
    bytes
}

/// Writes the lines of the report on lines `raw`, each with its number and its answer.
pub fn put_raw<O: Sink>(out: &mut O, raws: &[RawLine]) -> Result<(), WriteFault>
    requires { O.may_write out.old }
    ensures all { OnOk result (O.taken out.new ≡ after_told (O.taken out.old) (raw_text raws.now)) }
    ensures part { OnErr result (TakesPart (O.taken out.old) (O.taken out.new) (raw_text raws.now)) }
    ensures count { CountsFaults (O.faults out.old) (O.faults out.new) result }
    ensures goes_on { OnOk result (O.may_write out.new) }
{
    for raw in raws {
        let bytes = raw_bytes(raw);
        put_all(out, &bytes)?;
    }
    Ok(())
}
