//! The replay of a whole scenario.
ghost use Rattle.std.specs.Prelude.{◌≡◌, ◌<◌, ◌≤◌, [], ◌++◌, length, IfOk, OnOk, IfErr, vec_len, vec_capacity};
ghost use Rattle.loss_report.specs.Raws.{raw_text};
ghost use Rattle.loss_report.specs.Report.{report_text};
ghost use Rattle.replay_model.specs.Clones.{ReplaysCloning, AreMadeFor};
ghost use Rattle.scenario_text.specs.Clones.{ClonesNone, without_clones};
ghost use Rattle.scenario_text.specs.Scenario.{IsScenario, parts_of};
ghost use Rattle.replay_host.specs.Cloning.{HasReplayedCloning};
ghost use Rattle.replay_host.specs.Raws.{raws_in};
ghost use Rattle.replay_host.specs.Ready.{IsReady};
ghost use Rattle.replay_host.specs.Replaying.{HasReplayed, EndsEarly, CountsStop, IsStall};

use crate::counting::make_done;
use crate::fault::HostFault;
use crate::flushes::Flushes;
use crate::host::Host;
use crate::making::make_host;
use crate::raws::{PayloadRoom, count_raws, fill_raws, make_room, mark_raws};
use buffer_clone::BufferClone;
use byte_io::traits::Sink;
use chunk_plain::{PlainService, PlainTable, PlainWriter, Words};
use loss_report::Done;
use scenario_text::Scenario;
use std::alloc::{AllocError, Global};
use std::marker::Brand;
use std::sync::ledger::{Blank, Ledger};
use trace_base::steps::Steps;

impl<W: Words> Host<W, W::Writer, W::Service> {
    /// Plays the lines and the end, counts what became of packets and chunks, and puts with each line `raw`
    /// what it was answered. The clones that lines ask for are filled on the way. Writers are marked in whose
    /// names lines commit chunks.
    fn play<O: Sink, L: Ledger>(
        &mut self,
        steps: &mut Steps<L>,
        scenario: &Scenario,
        marks: &[bool],
        payloads: &mut PayloadRoom,
        done: &mut Done,
        clones: &mut [BufferClone],
        out: &mut O,
    ) -> Result<(), HostFault>
        requires ready { IsReady W.means scenario.now self.old marks.now payloads.old clones.old done.old }
        requires may { O.may_write out.old }
        ensures played { OnOk result (ReplaysCloning (parts_of scenario.now) (O.taken out.old) (O.taken out.new)
            (report_text done.new.buffers.items done.new.sequences.items self.new.flushes.chunks.items ++ raw_text done.new.raws.items)
            clones.new) }
        ensures stops { IfErr result (λ fault. EndsEarly (without_clones (parts_of scenario.now)) fault (O.taken out.old) (O.taken out.new)) }
        ensures count { CountsStop (O.faults out.old) (O.faults out.new) result }
        ensures goes_on { OnOk result (O.may_write out.new) }
        ensures stalled { IfErr result (λ fault. IsStall fault → O.may_write out.new) }
    {
        self.play_lines(steps, &scenario.lines, payloads, clones, out)?;
        self.play_end(scenario.buffers.len(), out)?;
        self.count(marks, done);
        fill_raws(&scenario.lines, &self.flushes.answers, &mut done.raws);
        Ok(())
    }
}

impl Host<PlainTable, PlainWriter, PlainService> {
    /// Lets the writers go, with what they still hold.
    fn dismiss(self) -> Flushes
        ensures { result ≡ self.flushes }
    {
        let Host {
            table: _,
            mut writers,
            helper: _,
            flushes,
            specs: _,
            open_producers: _,
        } = self;
        while let Some(writer) = writers.pop() {
            let _ = writer.give_up();
        }
        writers.destroy_empty();
        flushes
    }
}

/// Room for the counts of a scenario, and for the answers to its lines `raw`.
fn make_report(alloc: Global, scenario: &Scenario) -> Result<Done, AllocError>
    ensures buffers { IfOk result (λ done. vec_len done.buffers ≡ vec_len scenario.now.buffers) }
    ensures sequences { IfOk result (λ done. vec_len done.sequences ≡ vec_len scenario.now.writers) }
    ensures raws { IfOk result (λ done. done.raws.items ≡ []) }
    ensures raw_room { IfOk result (λ done. raws_in scenario.now.lines ≤ vec_capacity done.raws) }
{
    let mut done = make_done(alloc, scenario.buffers.len(), scenario.writers.len())?;
    done.raws = Vec::with_capacity(alloc, count_raws(&scenario.lines))?;
    Ok(done)
}

/// Plays a scenario with what was made for it, on a ledger of its own.
fn play_made<T: Sink, L: Ledger>(
    made: Host<PlainTable, PlainWriter, PlainService>,
    marks: &[bool],
    payloads: &mut PayloadRoom,
    room: Done,
    scenario: &Scenario,
    blank: Blank,
    clones: &mut [BufferClone],
    out: &mut T,
) -> Result<Done, HostFault>
    requires ready { IsReady ⟦<PlainTable as Words>⟧.means scenario.now made marks.now payloads.old clones.old room }
    requires blank { (blank.name ≡ L.name) × (blank.parts ≡ L.parts) × (0 < L.parts) }
    requires may { T.may_write out.old }
    ensures done { IfOk result (λ done. HasReplayedCloning (parts_of scenario.now) (T.taken out.old) (T.taken out.new) done clones.new) }
    ensures stops { IfErr result (λ fault. EndsEarly (without_clones (parts_of scenario.now)) fault (T.taken out.old) (T.taken out.new)) }
    ensures count { CountsStop (T.faults out.old) (T.faults out.new) result }
    ensures goes_on { OnOk result (T.may_write out.new) }
    ensures stalled { IfErr result (λ fault. IsStall fault → T.may_write out.new) }
{
    let mut host = made;
    let mut done = room;
    let mut steps = Steps::<L>::new(blank);
    let played = host.play(
        &mut steps, scenario, marks, payloads, &mut done, clones, out,
    );
    done.flushes = host.dismiss().chunks;
    match played {
        Ok(()) => Ok(done),
        Err(fault) => Err(fault),
    }
}

/// Plays a scenario into a sink, fills the clones that its lines ask for, and answers what became of
/// its packets, its chunks, its flush requests and what it commits. The clones are made for the lines, in their order.
/// Where it stops early, the sink has taken a front part of the trace.
pub fn replay_cloning<T: Sink>(
    alloc: Global,
    scenario: &Scenario,
    out: &mut T,
    clones: &mut Vec<BufferClone>,
) -> Result<Done, HostFault>
    requires scenario { IsScenario scenario.now }
    requires clones { AreMadeFor (parts_of scenario.now) clones.old.items }
    requires may { T.may_write out.old }
    ensures done { IfOk result (λ done. HasReplayedCloning (parts_of scenario.now) (T.taken out.old) (T.taken out.new) done clones.new.items) }
    ensures stops { IfErr result (λ fault. EndsEarly (without_clones (parts_of scenario.now)) fault (T.taken out.old) (T.taken out.new)) }
    ensures count { CountsStop (T.faults out.old) (T.faults out.new) result }
    ensures goes_on { OnOk result (T.may_write out.new) }
    ensures stalled { IfErr result (λ fault. IsStall fault → T.may_write out.new) }
{
    let Ok(room) = make_report(alloc, scenario) else {
        return Err(HostFault::OutOfMemory);
    };
    let Ok(marks) = mark_raws(alloc, scenario) else {
        return Err(HostFault::OutOfMemory);
    };
    let Ok(mut payloads) = make_room(alloc, scenario) else {
        return Err(HostFault::OutOfMemory);
    };
    let Ok(made) = make_host(alloc, scenario) else {
        return Err(HostFault::OutOfMemory);
    };
    play_made::<T, Brand>(
        made,
        &marks,
        &mut payloads,
        room,
        scenario,
        Blank::new(1),
        clones,
        out,
    )
}

/// The same of a scenario whose lines ask for no clone.
#[tactic(auto, using(crate::proofs::CloningLemmas::made_for_none, crate::proofs::CloningLemmas::replayed_alone, crate::proofs::CloningLemmas::stopped_alone))]
pub fn replay<T: Sink>(alloc: Global, scenario: &Scenario, out: &mut T) -> Result<Done, HostFault>
    requires scenario { IsScenario scenario.now }
    requires clones { ClonesNone scenario.now.lines }
    requires may { T.may_write out.old }
    ensures done { IfOk result (λ done. HasReplayed (parts_of scenario.now) (T.taken out.old) (T.taken out.new) done) }
    ensures stops { IfErr result (λ fault. EndsEarly (parts_of scenario.now) fault (T.taken out.old) (T.taken out.new)) }
    ensures count { CountsStop (T.faults out.old) (T.faults out.new) result }
    ensures goes_on { OnOk result (T.may_write out.new) }
    ensures stalled { IfErr result (λ fault. IsStall fault → T.may_write out.new) }
{
    replay_cloning(alloc, scenario, out, &mut Vec::new(alloc))
}
