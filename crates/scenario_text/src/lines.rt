//! The lines of a text, one after another.
ghost use Rattle.std.specs.Prelude.{◌≡◌, ◌≤◌, length, IfOk};
ghost use Rattle.scenario_text.specs.Scenario.{scenario_of, GivesScenario, IsScenario};
ghost use Rattle.scenario_text.specs.Grammar.{earlier, says_nothing};

use crate::line_fault::LineFault;
use crate::lines_reader::LinesReader;
use crate::open_packet::OpenPacket;
use crate::packet_line::packet_line;
use crate::reader::Reader;
use crate::reading::form;
use crate::reason::{Reason, ScenarioFault};
use crate::scenario::Scenario;
use field_tree::FieldParser;
use std::alloc::Global;
use trace_base::limits::MAX_INPUT;
use trace_base::numeral::Numeral;
use trace_base::policy::WriterSpec;

/// Whether a line is empty or begins with '#'.
#[tactic(auto, unfolding(crate::specs::Grammar::says_nothing))]
pub fn says_nothing(line: &[u8]) -> bool
    ensures { result ≡ says_nothing line.now }
{
    match line {
        [] => true,
        [first, ..] => *first == b'#',
    }
}

/// The lesser of two lines, of which one or both may be missing.
#[tactic(auto, unfolding(crate::specs::Grammar::earlier))]
fn earlier(line: Option<u32>, other: Option<u32>) -> Option<u32>
    ensures { result ≡ earlier line other }
{
    let Some(first) = line else {
        return other;
    };
    match other {
        None => Some(first),
        Some(second) => {
            if second < first {
                Some(second)
            } else {
                Some(first)
            }
        }
    }
}

impl Reader {
    ghost use Rattle.std.specs.Prelude.{◌≡◌, ◌≤◌, None, length};
    ghost use Rattle.scenario_text.specs.Grammar.{after_line, at_end, first_left, line_left};
    ghost use Rattle.scenario_text.specs.Answers.{LeadsTo};
    ghost use Rattle.scenario_text.specs.Scenario.{said, GivesScenario};
    ghost use Rattle.scenario_text.specs.View.{state_of};

    /// A line that has its line feed.
    #[inline(always)]
    #[tactic(auto, using(crate::proofs::PacketLemmas::packet_form))]
    pub fn read_line(
        &mut self,
        parser: &mut FieldParser,
        number: u32,
        line: &[u8],
    ) -> Result<(), LineFault>
        requires { length line.now ≤ MAX_INPUT }
        ensures { LeadsTo (state_of self.new) result (after_line (state_of self.old) number line.now) }
    {
        if let Some(found) = packet_line(line) {
            return self.play_packet(parser, number, line, found);
        }
        self.read_other(parser, number, line)
    }

    /// A line of any form.
    #[inline(never)]
    #[tactic(auto, unfolding(crate::specs::Grammar::after_line, crate::specs::Grammar::after_form))]
    fn read_other(
        &mut self,
        parser: &mut FieldParser,
        number: u32,
        line: &[u8],
    ) -> Result<(), LineFault>
        requires { length line.now ≤ MAX_INPUT }
        ensures { LeadsTo (state_of self.new) result (after_line (state_of self.old) number line.now) }
    {
        if says_nothing(line) {
            return Ok(());
        }
        let (form, fields) = form(line);
        match form {
            None => Err(LineFault::Refused(Reason::BadLine)),
            Some(form) => self.play(parser, number, line, fields, form),
        }
    }

    #[tactic(auto, unfolding(crate::specs::Grammar::line_left))]
    fn line_left(&self, writer: WriterSpec, packet: Option<OpenPacket>) -> Option<u32>
        ensures { result ≡ line_left (state_of self.now) writer packet }
    {
        let packet = packet?;
        if self.is_closed(Numeral::Fits(u64::from(writer.producer))) {
            None
        } else {
            Some(packet.line)
        }
    }

    /// The line of the first packet that isn't ended.
    #[tactic(auto, using(crate::proofs::LineLemmas::left_more, crate::proofs::LineLemmas::left_all))]
    fn first_left(&self) -> Option<u32>
        ensures { result ≡ first_left (state_of self.now) None 1 self.now.scenario.writers.items }
    {
        let mut line = None;
        for (i, writer) in self.scenario.writers.iter().enumerate() {
            let packet = self.packet(Numeral::Fits(i as u64 + 1));
            line = earlier(line, self.line_left(*writer, packet));
        }
        line
    }

    /// What the lines have said, once all were read.
    #[tactic(auto, unfolding(crate::specs::Grammar::at_end, crate::specs::Grammar::unless_left, crate::specs::Scenario::said))]
    pub fn finish(self) -> Result<Scenario, ScenarioFault>
        ensures { GivesScenario result (said (at_end (state_of self))) }
    {
        match self.first_left() {
            None => Ok(self.into_scenario()),
            Some(line) => Err(ScenarioFault::Bad {
                line,
                reason: Reason::PacketLeft,
            }),
        }
    }
}

/// The scenario that a text says; or its first faulty line, and the first reason that holds there.
#[tactic(auto, using(crate::proofs::ReadLemmas::is_scenario))]
pub fn read_scenario(alloc: Global, text: &[u8]) -> Result<Scenario, ScenarioFault>
    requires { length text.now ≤ MAX_INPUT }
    ensures exact { GivesScenario result (scenario_of text.now) }
    ensures scenario { IfOk result IsScenario }
{
    LinesReader::new(alloc).finish(text)
}
