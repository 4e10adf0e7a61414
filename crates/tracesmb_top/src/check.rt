//! The command `check`: a scenario and a trace in one input, and whether the trace tells of the scenario.
ghost use Rattle.std.specs.Prelude.{◌≡◌, ◌+◌, ◌≤◌, ◌<◌, ◌^◌, ◌==◌, None, Some, length, count_by, IfOk, IfErr, IfSome};
ghost use Rattle.scenario_text.specs.Scenario.{IsScenario, parts_of};
ghost use Rattle.tracesmb_top.specs.Refusals.{refusal_of, IsFor};
ghost use Rattle.tracesmb_top.specs.Checked as checked;
ghost use Rattle.tracesmb_top.specs.Checked.{GivesRefusal, IsCheckRefusal, IsVerdictFor, IsVerdictFrom, RefusesDivided, RefusesUndivided, divider_of, line_behind};

use crate::say::trace_fault_line;
use crate::unfit::find_unfit;
use arrayvec::ArrayVec;
use command_words::Command;
use gap_check::{CheckFault, Verdict};
use memchr::memmem;
use scenario_check::check_run;
use scenario_text::{Scenario, ScenarioFault, read_scenario, refusal_line};
use std::alloc::Global;
use trace_base::limits::MAX_INPUT;

/// Why an input isn't checked.
#[derive(Drop)]
pub enum CheckingFault {
    OutOfMemory,
    /// It isn't in its grammar, as this line says.
    Refused { refusal: ArrayVec<u8, 64> },
}

/// Where the first line `==` begins. One without its line feed divides nothing. All but the first line
/// have a line feed before them, so that one search in wide steps finds it, and no line is cut out.
pub fn find_divider(input: &[u8]) -> Option<usize>
    ensures place { result ≡ divider_of input.now }
    ensures inside { IfSome result (λ at. at + 3 ≤ length input.now) }
{
    if input.starts_with(b"==\n") {
        return Some(0);
    }
    match memmem::find(input, b"\n==\n") {
        None => None,
        Some(at) => Some(at + 1),
    }
}

/// `line L: no trace`, with its line feed.
#[tactic(auto, unfolding(crate::specs::Checked::no_trace_line))]
fn no_trace_line(line: u32) -> ArrayVec<u8, 64>
    ensures { result.items ≡ checked.no_trace_line line }
{
    let mut digits = itoa::Buffer::new();
    let mut bytes = ArrayVec::new();
    let _ = bytes.try_extend_from_slice(b"line ");
    let _ = bytes.try_extend_from_slice(digits.format(line).as_bytes());
    let _ = bytes.try_extend_from_slice(b": no trace\n");
    bytes
}

/// The line that stands behind those of a text.
fn line_behind(text: &[u8]) -> u32
    requires { length text.now ≤ MAX_INPUT }
    ensures { result ≡ checked.line_behind text.now }
{
    text.iter().filter(|byte| **byte == b'\n').count() as u32 + 1
}

/// `agrees N`, `differs packet K sequence Q`, with its line feed.
#[tactic(auto, unfolding(crate::specs::Checked::verdict_line))]
pub fn verdict_line(verdict: Verdict) -> ArrayVec<u8, 128>
    ensures { result.items ≡ checked.verdict_line verdict }
{
    let mut digits = itoa::Buffer::new();
    let mut bytes = ArrayVec::new();
    match verdict {
        Verdict::Agrees { packets } => {
            let _ = bytes.try_extend_from_slice(b"agrees ");
            let _ = bytes.try_extend_from_slice(digits.format(packets).as_bytes());
        }
        Verdict::Differs { packet, sequence } => {
            let _ = bytes.try_extend_from_slice(b"differs packet ");
            let _ = bytes.try_extend_from_slice(digits.format(packet).as_bytes());
            let _ = bytes.try_extend_from_slice(b" sequence ");
            let _ = bytes.try_extend_from_slice(digits.format(sequence).as_bytes());
        }
    }
    let _ = bytes.try_extend_from_slice(b"\n");
    bytes
}

/// The scenario of a text, where it is one for `check`.
#[tactic(auto, unfolding(crate::specs::Refusals::refusal_of, crate::specs::Refusals::refusal_by))]
fn checked_scenario(alloc: Global, text: &[u8]) -> Result<Scenario, CheckingFault>
    requires { length text.now ≤ MAX_INPUT }
    ensures ok { IfOk result (λ scenario. IsScenario scenario × IsFor Command.Check text.now (parts_of scenario)) }
    ensures refused { IfOk result (λ _. refusal_of Command.Check text.now ≡ None) }
    ensures fault { IfErr result (GivesRefusal (λ line. refusal_of Command.Check text.now ≡ Some line)) }
{
    let scenario = match read_scenario(alloc, text) {
        Ok(scenario) => scenario,
        Err(ScenarioFault::OutOfMemory) => return Err(CheckingFault::OutOfMemory),
        Err(ScenarioFault::Bad { line, reason }) => {
            return Err(CheckingFault::Refused {
                refusal: refusal_line(line, reason),
            });
        }
    };
    match find_unfit(Command::Check, &scenario.lines) {
        Some(refusal) => Err(CheckingFault::Refused { refusal }),
        None => Ok(scenario),
    }
}

/// Why an input that no line divides isn't checked.
fn undivided_fault(alloc: Global, input: &[u8]) -> CheckingFault
    requires { length input.now ≤ MAX_INPUT }
    ensures { GivesRefusal (RefusesUndivided input.now) result }
{
    match checked_scenario(alloc, input) {
        Ok(_scenario) => CheckingFault::Refused {
            refusal: no_trace_line(line_behind(input)),
        },
        Err(fault) => fault,
    }
}

/// The verdict on a trace, by the scenario of a text.
fn divided_verdict(alloc: Global, text: &[u8], trace: &[u8]) -> Result<Verdict, CheckingFault>
    requires { length text.now ≤ MAX_INPUT }
    ensures verdict { IfOk result (IsVerdictFrom text.now trace.now) }
    ensures fault { IfErr result (GivesRefusal (RefusesDivided text.now trace.now)) }
{
    let scenario = match checked_scenario(alloc, text) {
        Ok(scenario) => scenario,
        Err(fault) => return Err(fault),
    };
    match check_run(alloc, &scenario, trace) {
        Ok(verdict) => Ok(verdict),
        Err(CheckFault::OutOfMemory) => Err(CheckingFault::OutOfMemory),
        Err(CheckFault::Trace(fault)) => Err(CheckingFault::Refused {
            refusal: trace_fault_line(fault),
        }),
    }
}

/// The verdict on an input: a scenario, a line `==`, and a trace.
pub fn verdict_for(alloc: Global, input: &[u8]) -> Result<Verdict, CheckingFault>
    requires { length input.now ≤ MAX_INPUT }
    ensures verdict { IfOk result (IsVerdictFor input.now) }
    ensures fault { IfErr result (GivesRefusal (IsCheckRefusal input.now)) }
{
    match find_divider(input) {
        None => Err(undivided_fault(alloc, input)),
        Some(at) => divided_verdict(alloc, &input[..at], &input[at + 3..]),
    }
}
