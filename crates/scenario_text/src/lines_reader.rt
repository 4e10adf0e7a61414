//! The lines of a text that comes in parts, of which each may end inside a line.
ghost use Rattle.std.specs.Prelude.{◌≡◌, ℕ, ◌+◌, ◌≤◌, List, ◌∷◌, ◌++◌, [], length, drop, IfNone, IfSome};
ghost use Rattle.scenario_text.specs.Pieces.{pieces};

use crate::line_fault::LineFault;
use crate::reader::Reader;
use crate::reason::{Reason, ScenarioFault};
use crate::scenario::Scenario;
use field_tree::FieldParser;
use memchr::memchr;
use std::alloc::Global;
use trace_base::limits::MAX_INPUT;

/// The first line, and what stands behind its line feed. None where no line feed came.
#[inline(always)]
#[tactic(auto, using(crate::proofs::BehindLemmas::no_line, crate::proofs::BehindLemmas::one_line, crate::proofs::BehindLemmas::behind_line))]
fn first_line(bytes: &[u8]) -> Option<(&[u8], &[u8])>
    ensures cut { IfSome result (λ found. (more : List ℕ) → pieces 10 (bytes.now ++ more) ≡ found.0.now ∷ pieces 10 (found.1.now ++ more)) }
    ensures behind { IfSome result (λ found. found.1.now ≡ drop (length found.0.now + 1) bytes.now) }
    ensures length { IfSome result (λ found. length found.0.now + 1 + length found.1.now ≡ length bytes.now) }
    ensures none { IfNone result (pieces 10 bytes.now ≡ bytes.now ∷ []) }
{
    let at = memchr(b'\n', bytes)?;
    Some((&bytes[..at], &bytes[at + 1..]))
}

/// What the whole lines of a text have said that came so far.
#[derive(Drop)]
pub(crate) struct LinesReader {
    reader: Reader,
    parser: FieldParser,
    /// The line that comes next, counted from 1.
    number: u32,
    ghost counted: { 1 ≤ number },
}

impl LinesReader {
    ghost use Rattle.std.specs.Prelude.{◌≡◌, ℕ, ◌+◌, ◌≤◌, List, ◌∷◌, ◌++◌, [], length, drop, IfErr, IfOk};
    ghost use Rattle.scenario_text.specs.Pieces.{pieces};
    ghost use Rattle.scenario_text.specs.Scenario.{scenario_of, GivesScenario};
    ghost use Rattle.scenario_text.specs.Behind.{next_line, says_after, RefusedBy};

    /// At the start of a text.
    #[tactic(auto, unfolding(crate::specs::Behind::says_after, crate::specs::Behind::next_line), using(crate::proofs::ReadLemmas::scenario_starts))]
    pub fn new(alloc: Global) -> Self
        ensures starts { (text : List ℕ) → says_after result text ≡ scenario_of text }
        ensures first { next_line result ≡ 1 }
    {
        LinesReader {
            reader: Reader::new(alloc),
            parser: FieldParser::new(alloc),
            number: 1,
        }
    }

    /// Reads the whole lines in front of these bytes, and answers how many bytes they have. What
    /// stands behind them is the beginning of a line whose rest is still to come.
    #[tactic(auto, unfolding(crate::specs::Behind::says_after, crate::specs::Behind::next_line))]
    pub fn read_lines(&mut self, bytes: &[u8]) -> Result<usize, ScenarioFault>
        requires room { next_line self.old + length bytes.now ≤ MAX_INPUT + 1 }
        ensures inside { IfOk result (λ count. count ≤ length bytes.now) }
        ensures goes_on { IfOk result (λ count. (more : List ℕ)
            → says_after self.old (bytes.now ++ more) ≡ says_after self.new (drop count bytes.now ++ more)) }
        ensures whole { IfOk result (λ count. pieces 10 (drop count bytes.now) ≡ drop count bytes.now ∷ []) }
        ensures numbers { IfOk result (λ count. next_line self.new ≤ next_line self.old + count) }
        ensures refuses { IfErr result (λ fault. (more : List ℕ) → RefusedBy fault (says_after self.old (bytes.now ++ more))) }
    {
        let mut rest = bytes;
        let mut count = 0;
        'lines: while let Some((line, behind)) = first_line(rest) {
            match self.reader.read_line(&mut self.parser, self.number, line) {
                Ok(()) => {}
                Err(LineFault::OutOfMemory) => return Err(ScenarioFault::OutOfMemory),
                Err(LineFault::Refused(reason)) => {
                    return Err(ScenarioFault::Bad {
                        line: self.number,
                        reason,
                    });
                }
            }
            self.number += 1;
            count += line.len() + 1;
            rest = behind;
        }
        Ok(count)
    }

    /// What the lines have said, once all were read.
    fn end(self) -> Result<Scenario, ScenarioFault>
        ensures { GivesScenario result (says_after self []) }
    {
        let LinesReader {
            reader,
            parser: _,
            number: _,
        } = self;
        reader.finish()
    }

    /// The scenario of a text that ends with these bytes.
    pub fn finish(self, bytes: &[u8]) -> Result<Scenario, ScenarioFault>
        requires room { next_line self + length bytes.now ≤ MAX_INPUT + 1 }
        ensures exact { GivesScenario result (says_after self bytes.now) }
    {
        let mut reader = self;
        let count = match reader.read_lines(bytes) {
            Ok(count) => count,
            Err(fault) => return Err(fault),
        };
        if count < bytes.len() {
            return Err(ScenarioFault::Bad {
                line: reader.number,
                reason: Reason::UnfinishedLine,
            });
        }
        reader.end()
    }
}
