//! A scenario that is read as its text comes: no more of the text is kept than the line that has begun.

use crate::lines_reader::LinesReader;
use crate::reason::ScenarioFault;
use crate::scenario::Scenario;
use memchr::memchr;
use std::alloc::{AllocError, Global};
use trace_base::limits::MAX_INPUT;

/// What a text has said so far.
#[derive(Drop)]
pub struct ScenarioReader {
    lines: LinesReader,
    /// The line that has begun, as far as it came.
    pending: Vec<u8>,
}

impl ScenarioReader {
    ghost use Rattle.std.specs.Prelude.{◌≡◌, ℕ, ◌+◌, ◌≤◌, List, ◌++◌, [], length, drop, vec_len, IfErr, OnOk};
    ghost use Rattle.scenario_text.specs.Scenario.{scenario_of, GivesScenario};
    ghost use Rattle.scenario_text.specs.Behind.{line_bound, next_line, says_behind, waiting, IsOneLine, RefusedBy};

    /// At the start of a text.
    #[tactic(auto, unfolding(crate::specs::Behind::says_behind, crate::specs::Behind::line_bound, crate::specs::Behind::waiting))]
    pub fn new(alloc: Global) -> Self
        ensures starts { (text : List ℕ) → says_behind result text ≡ scenario_of text }
        ensures bound { line_bound result ≡ 1 }
        ensures waits { waiting result ≡ [] }
    {
        ScenarioReader {
            lines: LinesReader::new(alloc),
            pending: Vec::new(alloc),
        }
    }

    /// Lets the first bytes go of those that wait.
    fn pass(&mut self, count: usize)
        requires { count ≤ vec_len self.old.pending }
        ensures pending { self.new.pending.items ≡ drop count self.old.pending.items }
        ensures lines { self.new.lines ≡ self.old.lines }
    {
        let len = self.pending.len();
        self.pending.as_mut_slice().copy_within(count..len, 0);
        self.pending.truncate(len - count);
    }

    /// Reads the bytes that come next. After a fault the reader is of no more use. A line is looked at
    /// once its line feed has come, so that a long one isn't looked at again with each part of it; and
    /// no line waits whose line feed has come.
    pub fn take(&mut self, piece: &[u8]) -> Result<(), ScenarioFault>
        requires bound { line_bound self.old + length piece.now ≤ MAX_INPUT + 1 }
        ensures goes_on { OnOk result ((more : List ℕ) → says_behind self.old (piece.now ++ more) ≡ says_behind self.new more) }
        ensures refuses { IfErr result (λ fault. (more : List ℕ) → RefusedBy fault (says_behind self.old (piece.now ++ more))) }
        ensures bound { OnOk result (line_bound self.new ≤ line_bound self.old + length piece.now) }
        ensures waits { OnOk result (IsOneLine (waiting self.old) → IsOneLine (waiting self.new)) }
    {
        match self.pending.extend_from_slice(piece) {
            Ok(()) => {}
            Err(AllocError) => return Err(ScenarioFault::OutOfMemory),
        }
        if memchr(b'\n', piece).is_none() {
            return Ok(());
        }
        let count = match self.lines.read_lines(&self.pending) {
            Ok(count) => count,
            Err(fault) => return Err(fault),
        };
        self.pass(count);
        Ok(())
    }

    /// The scenario of the text, which is at its end.
    pub fn finish(self) -> Result<Scenario, ScenarioFault>
        requires { line_bound self ≤ MAX_INPUT + 1 }
        ensures { GivesScenario result (says_behind self []) }
    {
        let ScenarioReader { lines, pending } = self;
        lines.finish(&pending)
    }
}
