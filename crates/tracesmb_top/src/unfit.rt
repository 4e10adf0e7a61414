//! Which scenarios aren't for a command.
ghost use Rattle.std.specs.Prelude.{◌≡◌, ◌≤◌, Some, None, IfSome, IfNone, length};
ghost use Rattle.tracesmb_top.specs.Refusals as refusals;
ghost use Rattle.tracesmb_top.specs.Refusals.{unfit_in};

use arrayvec::ArrayVec;
use command_words::Command;
use scenario_text::{LineKind, LineList};

/// `line L: REASON`, with its line feed.
#[tactic(auto, unfolding(crate::specs::Refusals::reason_line))]
pub(crate) fn reason_line(line: u32, words: &[u8]) -> ArrayVec<u8, 64>
    requires { length words.now ≤ 24 }
    ensures { result.items ≡ refusals.reason_line line words.now }
{
    let mut digits = itoa::Buffer::new();
    let mut bytes = ArrayVec::new();
    let _ = bytes.try_extend_from_slice(b"line ");
    let _ = bytes.try_extend_from_slice(digits.format(line).as_bytes());
    let _ = bytes.try_extend_from_slice(b": ");
    let _ = bytes.try_extend_from_slice(words);
    let _ = bytes.try_extend_from_slice(b"\n");
    bytes
}

/// What is said of a line, where it isn't one for the command.
#[tactic(auto, unfolding(crate::specs::Refusals::unfit_words))]
fn line_unfit(command: Command, line: u32, what: &LineKind<'_>) -> Option<ArrayVec<u8, 64>>
    ensures some { IfSome result (λ said. refusals.unfit_or (refusals.unfit_words command what.now) line None ≡ Some said.items) }
    ensures none { IfNone result (refusals.unfit_words command what.now ≡ None) }
{
    match what {
        LineKind::Close { producer: _ } => match command {
            Command::Run => Some(reason_line(line, b"not under run")),
            _ => None,
        },
        LineKind::CloneBuffer { buffer: _ } => match command {
            Command::Replay => Some(reason_line(line, b"not under replay")),
            Command::Run => Some(reason_line(line, b"not under run")),
            Command::Check => Some(reason_line(line, b"not under check")),
            _ => None,
        },
        LineKind::Raw { .. } => match command {
            Command::Run => Some(reason_line(line, b"not under run")),
            Command::Check => Some(reason_line(line, b"not under check")),
            _ => None,
        },
        _ => None,
    }
}

/// The line that says why the lines aren't played under the command: the first one that isn't for it.
pub fn find_unfit(command: Command, lines: &LineList) -> Option<ArrayVec<u8, 64>>
    ensures some { IfSome result (λ said. unfit_in command lines.now ≡ Some said.items) }
    ensures none { IfNone result (unfit_in command lines.now ≡ None) }
{
    let mut walk = lines.walk();
    'lines: while let Some(line) = walk.next() {
        if let Some(said) = line_unfit(command, line.line, &line.what) {
            return Some(said);
        }
    }
    None
}
