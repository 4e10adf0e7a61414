//! The commands, each over what it was given of the input.
ghost use Rattle.std.specs.Prelude.{◌≡◌, ℕ, ◌≤◌, List, length, IfErr, IfOk};
ghost use Rattle.command_words.specs.Commands.{IsWithinLimits};
ghost use Rattle.scenario_text.specs.Scenario.{scenario_of, GivesScenario, IsScenario};
ghost use Rattle.tracesmb_top.specs.Commands.{CountsWrites, Ended};
ghost use Rattle.tracesmb_top.specs.Given.{Suits, Tells};

use crate::check::{CheckingFault, verdict_for, verdict_line};
use crate::cloning::play_cloning;
use crate::gather;
use crate::input::Given;
use crate::report::Report;
use crate::say::trace_fault_line;
use crate::streaming::stream;
use crate::unfit::find_unfit;
use arrayvec::ArrayVec;
use byte_io::put::{WriteFault, put_all};
use byte_io::traits::{Gate, Sink};
use command_words::Command;
use replay_host::HostFault;
use scenario_text::{Scenario, ScenarioFault, refusal_line};
use std::alloc::{AllocError, Global};
use std::sync::Wait;
use std::thread::Threads;
use trace_base::limits::MAX_INPUT;
use trace_summary::{SummaryFault, put_summary, summarize};
use tune_lines::put_lines;
use tune_run::run_tune;

/// Why a command isn't done.
#[derive(Drop)]
pub enum CommandFault {
    OutOfMemory,
    /// What it was given isn't in its grammar, as this line says.
    Refused { refusal: ArrayVec<u8, 64> },
    WriteFault,
    /// A writer of the replay stalled. Writers count from 1.
    Stalled { writer: u16 },
}

/// Plays a scenario, and writes its trace; its report is left to be written.
#[tactic(auto, unfolding(crate::specs::Refusals::refusal_of, crate::specs::Refusals::refusal_by), using(crate::proofs::UnfitLemmas::fit_clones_none))]
pub fn replay<T: Sink>(
    alloc: Global,
    said: Result<Scenario, ScenarioFault>,
    trace: &mut T,
) -> Result<Option<Report>, CommandFault>
    requires said { IfOk said IsScenario }
    requires may { T.may_write trace.old }
    ensures ends { (text : List ℕ) → GivesScenario said (scenario_of text)
        → Ended Command.Replay text result (T.taken trace.old) (T.taken trace.new) }
    ensures count { CountsWrites result (T.faults trace.old) (T.faults trace.new) }
{
    let scenario = match said {
        Ok(scenario) => scenario,
        Err(ScenarioFault::OutOfMemory) => return Err(CommandFault::OutOfMemory),
        Err(ScenarioFault::Bad { line, reason }) => {
            return Err(CommandFault::Refused {
                refusal: refusal_line(line, reason),
            });
        }
    };
    if let Some(refusal) = find_unfit(Command::Replay, &scenario.lines) {
        return Err(CommandFault::Refused { refusal });
    }
    match gather::play(alloc, &scenario, trace) {
        Ok(done) => Ok(Some(Report::Played(done))),
        Err(HostFault::OutOfMemory) => Err(CommandFault::OutOfMemory),
        Err(HostFault::WriteFault) => Err(CommandFault::WriteFault),
        Err(HostFault::Stalled { writer }) => Err(CommandFault::Stalled { writer }),
    }
}

/// Runs a scenario on threads, and writes its trace; its report is left to be written.
#[tactic(auto, unfolding(crate::specs::Refusals::refusal_of, crate::specs::Refusals::refusal_by), using(crate::proofs::UnfitLemmas::fit_closes_none, crate::proofs::UnfitLemmas::fit_raws_none))]
pub fn run<R: Threads + Wait + Sync, T: Sink + Send, G: Gate + Sync>(
    rt: &R,
    alloc: Global,
    said: Result<Scenario, ScenarioFault>,
    trace: &mut T,
    gate: &G,
) -> Result<Option<Report>, CommandFault>
    requires said { IfOk said IsScenario }
    requires may { T.may_write trace.old }
    ensures ends { (text : List ℕ) → GivesScenario said (scenario_of text)
        → Ended Command.Run text result (T.taken trace.old) (T.taken trace.new) }
    ensures count { CountsWrites result (T.faults trace.old) (T.faults trace.new) }
{
    let scenario = match said {
        Ok(scenario) => scenario,
        Err(ScenarioFault::OutOfMemory) => return Err(CommandFault::OutOfMemory),
        Err(ScenarioFault::Bad { line, reason }) => {
            return Err(CommandFault::Refused {
                refusal: refusal_line(line, reason),
            });
        }
    };
    if let Some(refusal) = find_unfit(Command::Run, &scenario.lines) {
        return Err(CommandFault::Refused { refusal });
    }
    match gather::run(rt, alloc, &scenario, trace, gate) {
        Ok(done) => Ok(Some(Report::Played(done))),
        Err(HostFault::OutOfMemory) => Err(CommandFault::OutOfMemory),
        Err(HostFault::WriteFault) => Err(CommandFault::WriteFault),
        Err(HostFault::Stalled { writer: _ }) => unreachable!(),
    }
}

/// Plays a scenario, and writes the clones that its lines make of buffers; its report is left to be
/// written.
#[tactic(auto, unfolding(crate::specs::Refusals::refusal_of, crate::specs::Refusals::refusal_by), using(crate::proofs::UnfitLemmas::all_fit_clone))]
pub fn clone<T: Sink>(
    alloc: Global,
    said: Result<Scenario, ScenarioFault>,
    trace: &mut T,
) -> Result<Option<Report>, CommandFault>
    requires said { IfOk said IsScenario }
    requires may { T.may_write trace.old }
    ensures ends { (text : List ℕ) → GivesScenario said (scenario_of text)
        → Ended Command.Clone text result (T.taken trace.old) (T.taken trace.new) }
    ensures count { CountsWrites result (T.faults trace.old) (T.faults trace.new) }
{
    let scenario = match said {
        Ok(scenario) => scenario,
        Err(ScenarioFault::OutOfMemory) => return Err(CommandFault::OutOfMemory),
        Err(ScenarioFault::Bad { line, reason }) => {
            return Err(CommandFault::Refused {
                refusal: refusal_line(line, reason),
            });
        }
    };
    match play_cloning(alloc, &scenario, trace) {
        Ok(report) => Ok(Some(report)),
        Err(HostFault::OutOfMemory) => Err(CommandFault::OutOfMemory),
        Err(HostFault::WriteFault) => Err(CommandFault::WriteFault),
        Err(HostFault::Stalled { writer }) => Err(CommandFault::Stalled { writer }),
    }
}

/// Reads a trace, and writes what it has of each sequence.
pub fn read<T: Sink>(
    alloc: Global,
    records: &[u8],
    out: &mut T,
) -> Result<Option<Report>, CommandFault>
    requires { T.may_write out.old }
    ensures ends { Ended Command.Read records.now result (T.taken out.old) (T.taken out.new) }
    ensures count { CountsWrites result (T.faults out.old) (T.faults out.new) }
{
    let summary = match summarize(alloc, records) {
        Ok(summary) => summary,
        Err(SummaryFault::OutOfMemory) => return Err(CommandFault::OutOfMemory),
        Err(SummaryFault::Trace(fault)) => {
            return Err(CommandFault::Refused {
                refusal: trace_fault_line(fault),
            });
        }
    };
    match put_summary(out, &summary) {
        Ok(()) => Ok(None),
        Err(WriteFault) => Err(CommandFault::WriteFault),
    }
}

/// Checks a trace against a scenario, and writes the verdict.
pub fn check<T: Sink>(
    alloc: Global,
    input: &[u8],
    out: &mut T,
) -> Result<Option<Report>, CommandFault>
    requires short { length input.now ≤ MAX_INPUT }
    requires may { T.may_write out.old }
    ensures ends { Ended Command.Check input.now result (T.taken out.old) (T.taken out.new) }
    ensures count { CountsWrites result (T.faults out.old) (T.faults out.new) }
{
    let verdict = match verdict_for(alloc, input) {
        Ok(verdict) => verdict,
        Err(CheckingFault::OutOfMemory) => return Err(CommandFault::OutOfMemory),
        Err(CheckingFault::Refused { refusal }) => {
            return Err(CommandFault::Refused { refusal });
        },
    };
    match put_all(out, &verdict_line(verdict)) {
        Ok(()) => Ok(None),
        Err(WriteFault) => Err(CommandFault::WriteFault),
    }
}

/// Writes the workload of a number, whatever it is given. It takes no memory.
pub fn generate<T: Sink>(
    number: u64,
    writers: u8,
    packets: u32,
    out: &mut T,
) -> Result<Option<Report>, CommandFault>
    requires limits { IsWithinLimits (Command.Gen number writers packets) }
    requires may { T.may_write out.old }
    ensures ends { (given : List ℕ) → Ended (Command.Gen number writers packets) given result (T.taken out.old) (T.taken out.new) }
    ensures count { CountsWrites result (T.faults out.old) (T.faults out.new) }
    ensures memory { IfErr result (λ fault. fault ≡ CommandFault.WriteFault) }
{
    match workload_gen::generate(number, writers, packets, out) {
        Ok(()) => Ok(None),
        Err(WriteFault) => Err(CommandFault::WriteFault),
    }
}

/// Has users partition pages anew on threads, and writes what that came to. All memory is taken before
/// the threads begin.
#[tactic(auto, using(crate::proofs::TuneLemmas::report_layouts))]
pub fn tune<R: Threads + Sync, T: Sink, G: Gate + Sync>(
    rt: &R,
    alloc: Global,
    users: u8,
    turns: u32,
    trace: &mut T,
    gate: &G,
) -> Result<Option<Report>, CommandFault>
    requires limits { IsWithinLimits (Command.Tune users turns) }
    requires may { T.may_write trace.old }
    ensures ends { (given : List ℕ) → Ended (Command.Tune users turns) given result (T.taken trace.old) (T.taken trace.new) }
    ensures count { CountsWrites result (T.faults trace.old) (T.faults trace.new) }
{
    let report = match run_tune(rt, gate, alloc, users, turns) {
        Ok(report) => report,
        Err(AllocError) => return Err(CommandFault::OutOfMemory),
    };
    match put_lines(trace, &report) {
        Ok(()) => Ok(None),
        Err(WriteFault) => Err(CommandFault::WriteFault),
    }
}

/// Does a command with what it was given, and writes on the trace; `replay`, `run`, `stream` and `clone` leave their report. All memory is taken before
/// the first byte.
pub fn perform<R: Threads + Wait + Sync, T: Sink + Send, G: Gate + Sync>(
    rt: &R,
    alloc: Global,
    command: Command,
    given: Given,
    trace: &mut T,
    gate: &G,
) -> Result<Option<Report>, CommandFault>
    requires limits { IsWithinLimits command }
    requires suits { Suits command given }
    requires may { T.may_write trace.old }
    ensures ends { (text : List ℕ) → Tells given text → Ended command text result (T.taken trace.old) (T.taken trace.new) }
    ensures count { CountsWrites result (T.faults trace.old) (T.faults trace.new) }
{
    match given {
        Given::Scenario(said) => match command {
            Command::Replay => replay(alloc, said, trace),
            Command::Run => run(rt, alloc, said, trace, gate),
            Command::Clone => clone(alloc, said, trace),
            _ => unreachable!(),
        },
        Given::Bytes(bytes) => match command {
            Command::Read => read(alloc, &bytes, trace),
            Command::Check => check(alloc, &bytes, trace),
            Command::Stream => stream(alloc, &bytes, trace),
            Command::Gen {
                number,
                writers,
                packets,
            } => generate(number, writers, packets, trace),
            Command::Tune { users, turns } => tune(rt, alloc, users, turns, trace, gate),
            _ => unreachable!(),
        },
    }
}
