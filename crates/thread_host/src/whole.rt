//! Running a scenario whole.
ghost use Rattle.std.specs.Prelude.{OnOk};
ghost use Rattle.replay_host.specs.Replaying.{CountsStop};
ghost use Rattle.scenario_text.specs.Raws.{RawsNone};
ghost use Rattle.scenario_text.specs.Scenario.{IsScenario, parts_of};
ghost use Rattle.thread_host.specs.Finishing.{EndsRun};
ghost use Rattle.thread_host.specs.Hosts.{ClosesNone};
ghost use Rattle.thread_host.specs.Jobs.{KeepsLoans};

use crate::host::Host;
use byte_io::put::WriteFault;
use byte_io::traits::{Gate, Sink};
use loss_report::Done;
use replay_host::HostFault;
use run_model::{
    every_enough_run_is_complete, every_run_counts_packets, every_run_is_balanced,
    every_run_is_faithful, every_stopped_run_is_faithful,
};
use scenario_text::Scenario;
use std::alloc::Global;
use std::sync::Wait;
use std::thread::Threads;

/// Runs a scenario, each writer on a thread of its own, into a sink, and answers what became of its
/// packets and chunks. No writer ends stalled: one that waits for a chunk has the service take some
/// until it gets one. Also after a write fault the sink still hands its bytes on as before.
pub fn run<R: Threads + Wait + Sync, T: Sink + Send, G: Gate + Sync>(
    rt: &R,
    alloc: Global,
    scenario: &Scenario,
    out: &mut T,
    gate: &G,
) -> Result<Done, HostFault>
    requires scenario { IsScenario scenario.now }
    requires closes { ClosesNone scenario.now.lines }
    requires raws { RawsNone scenario.now.lines }
    requires may { T.may_write out.old }
    ensures ends { EndsRun (parts_of scenario.now) result (T.taken out.old) (T.taken out.new) }
    ensures stands { KeepsLoans (T.taken out.old) (T.taken out.new) }
    ensures count { CountsStop (T.faults out.old) (T.faults out.new) result }
    ensures goes_on { OnOk result (T.may_write out.new) }
{
    every_run_is_faithful();
    every_stopped_run_is_faithful();
    every_run_is_balanced();
    every_run_counts_packets();
    every_enough_run_is_complete();
    let Ok((mut host, mut writers)) = Host::make(alloc, scenario) else {
        return Err(HostFault::OutOfMemory);
    };
    let ran = host.run(rt, scenario, &mut writers, out, gate);
    let settled = host.settle(writers);
    match ran {
        Ok(()) => match settled.finish(out) {
            Ok(done) => Ok(done),
            Err(WriteFault) => Err(HostFault::WriteFault),
        },
        Err(WriteFault) => {
            settled.let_go();
            Err(HostFault::WriteFault)
        }
    }
}
