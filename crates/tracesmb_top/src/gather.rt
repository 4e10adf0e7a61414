//! Playing a scenario, or running it on threads, onto a trace that gathers many short writes into few
//! long ones.
ghost use Rattle.std.specs.Prelude.{◌≡◌, ◌≤◌, [], OnOk, IfErr, MatchResult};
ghost use Rattle.byte_io.specs.Buffered.{pending_bytes};
ghost use Rattle.scenario_text.specs.Clones.{ClonesNone};
ghost use Rattle.scenario_text.specs.Scenario.{IsScenario, parts_of};
ghost use Rattle.replay_host.specs.Replaying.{CountsOne, CountsStop, IsStall};
ghost use Rattle.scenario_text.specs.Raws.{RawsNone};
ghost use Rattle.thread_host.specs.Hosts.{ClosesNone};
ghost use Rattle.tracesmb_top.specs.Ran.{GathersRun, HandsRun};
ghost use Rattle.tracesmb_top.specs.Replayed.{Gathers, HasPlayed};

use byte_io::buffered::{BufferedSink, PendingBytes};
use byte_io::put::WriteFault;
use byte_io::traits::{Gate, Sink};
use loss_report::Done;
use replay_host::HostFault;
use scenario_text::Scenario;
use std::alloc::Global;
use std::sync::Wait;
use std::thread::Threads;

/// Plays a scenario, and leaves the last pieces of its trace waiting.
fn play_gathered<T: Sink>(
    alloc: Global,
    scenario: &Scenario,
    pending: &mut PendingBytes,
    trace: &mut T,
) -> Result<Done, HostFault>
    requires scenario { IsScenario scenario.now }
    requires clones { ClonesNone scenario.now.lines }
    requires empty { pending_bytes pending.old ≡ [] }
    requires may { T.may_write trace.old }
    ensures gathers { Gathers (parts_of scenario.now) result (T.taken trace.old) (T.taken trace.new) (pending_bytes pending.new) }
    ensures count { MatchResult result (λ _. T.faults trace.new ≡ T.faults trace.old) (λ fault. (T.faults trace.old ≤ T.faults trace.new)
        × CountsOne fault (T.faults trace.old) (T.faults trace.new)) }
    ensures goes_on { OnOk result (T.may_write trace.new) }
    ensures stalled { IfErr result (λ fault. IsStall fault → T.may_write trace.new) }
{
    let mut gathered = BufferedSink::new(trace, pending);
    replay_host::replay(alloc, scenario, &mut gathered)
}

/// Plays a scenario, and writes its trace in long pieces. All memory is taken before the first line is played.
pub fn play<T: Sink>(alloc: Global, scenario: &Scenario, trace: &mut T) -> Result<Done, HostFault>
    requires scenario { IsScenario scenario.now }
    requires clones { ClonesNone scenario.now.lines }
    requires may { T.may_write trace.old }
    ensures plays { HasPlayed (parts_of scenario.now) result (T.taken trace.old) (T.taken trace.new) }
    ensures count { MatchResult result (λ _. T.faults trace.new ≡ T.faults trace.old) (λ fault. (T.faults trace.old ≤ T.faults trace.new)
        × CountsOne fault (T.faults trace.old) (T.faults trace.new)) }
{
    let mut pending = match PendingBytes::new(alloc) {
        Ok(pending) => pending,
        Err(_) => return Err(HostFault::OutOfMemory),
    };
    match play_gathered(alloc, scenario, &mut pending, trace) {
        Ok(done) => match pending.pass_on(trace) {
            Ok(()) => Ok(done),
            Err(WriteFault) => Err(HostFault::WriteFault),
        },
        Err(HostFault::Stalled { writer }) => match pending.pass_on(trace) {
            Ok(()) => Err(HostFault::Stalled { writer }),
            Err(WriteFault) => Err(HostFault::WriteFault),
        },
        Err(HostFault::OutOfMemory) => Err(HostFault::OutOfMemory),
        Err(HostFault::WriteFault) => Err(HostFault::WriteFault),
    }
}

/// Runs a scenario on threads, and leaves the last pieces of its trace waiting.
fn run_gathered<R: Threads + Wait + Sync, T: Sink + Send, G: Gate + Sync>(
    rt: &R,
    alloc: Global,
    scenario: &Scenario,
    pending: &mut PendingBytes,
    trace: &mut T,
    gate: &G,
) -> Result<Done, HostFault>
    requires scenario { IsScenario scenario.now }
    requires closes { ClosesNone scenario.now.lines }
    requires raws { RawsNone scenario.now.lines }
    requires empty { pending_bytes pending.old ≡ [] }
    requires may { T.may_write trace.old }
    ensures gathers { GathersRun (parts_of scenario.now) result (T.taken trace.old) (T.taken trace.new) (pending_bytes pending.new) }
    ensures count { CountsStop (T.faults trace.old) (T.faults trace.new) result }
    ensures goes_on { OnOk result (T.may_write trace.new) }
{
    let mut gathered = BufferedSink::new(trace, pending);
    thread_host::run(rt, alloc, scenario, &mut gathered, gate)
}

/// Runs a scenario on threads, and writes its trace in long pieces. All memory is taken before the
/// threads begin.
pub fn run<R: Threads + Wait + Sync, T: Sink + Send, G: Gate + Sync>(
    rt: &R,
    alloc: Global,
    scenario: &Scenario,
    trace: &mut T,
    gate: &G,
) -> Result<Done, HostFault>
    requires scenario { IsScenario scenario.now }
    requires closes { ClosesNone scenario.now.lines }
    requires raws { RawsNone scenario.now.lines }
    requires may { T.may_write trace.old }
    ensures ends { HandsRun (parts_of scenario.now) result (T.taken trace.old) (T.taken trace.new) }
    ensures count { CountsStop (T.faults trace.old) (T.faults trace.new) result }
{
    let mut pending = match PendingBytes::new(alloc) {
        Ok(pending) => pending,
        Err(_) => return Err(HostFault::OutOfMemory),
    };
    match run_gathered(rt, alloc, scenario, &mut pending, trace, gate) {
        Ok(done) => match pending.pass_on(trace) {
            Ok(()) => Ok(done),
            Err(WriteFault) => Err(HostFault::WriteFault),
        },
        Err(fault) => Err(fault),
    }
}
