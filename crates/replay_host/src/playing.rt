//! A scenario, played whole.
ghost use Rattle.std.specs.Prelude.{◌≡◌, ◌+◌, ◌<◌, ◌≤◌, [], length, OnOk, IfErr, slice_index_or, slice_set};
ghost use Rattle.trace_model.specs.Buffers.{Buffer};
ghost use Rattle.scenario_text.specs.Scenario.{Parts};
ghost use Rattle.replay_model.specs.Schedule.{acts_from};
ghost use Rattle.replay_host.specs.Replaying.{CountsStop, IsStall};

use crate::fault::HostFault;
use crate::host::Host;
use crate::raws::PayloadRoom;
use buffer_clone::BufferClone;
use byte_io::traits::Sink;
use chunk_plain::Words;
use scenario_text::{LineKind, LineList};
use std::sync::ledger::Ledger;
use trace_base::steps::Steps;

impl<W: Words> Host<W, W::Writer, W::Service> {
    ghost use Rattle.replay_host.specs.Cloning.{AreAsMade, FitsClone, HaveCloned, clone_now};
    ghost use Rattle.replay_host.specs.Playing.{IsHost};
    ghost use Rattle.replay_host.specs.Raws.{HasRoom};
    ghost use Rattle.replay_host.specs.Stopping.{StopsIn};
    ghost use Rattle.replay_host.specs.Whole.{Begins, HavePlayed};

    /// The clone behind so many becomes that of the buffer with this number, as it stands. Answers how many
    /// are filled then.
    fn fill_next(&self, clones: &mut [BufferClone], filled: usize, buffer: u8) -> usize
        requires host { IsHost W.means self.now }
        requires least { 1 ≤ buffer }
        requires most { buffer ≤ length self.now.helper.service.specs.items }
        requires inside { filled < length clones.old }
        requires fits { (any : Buffer) → FitsClone self.now buffer (slice_index_or clones.old filled any) }
        ensures next { result ≡ filled + 1 }
        ensures filled { clones.new ≡ slice_set clones.old filled (clone_now W.means self.now buffer) }
    {
        clones[filled].fill(self.helper.service.lend(buffer));
        filled + 1
    }

    /// Plays all lines of a scenario, and fills a clone behind each line that asks for one, in their
    /// order.
    pub(crate) fn play_lines<O: Sink, L: Ledger>(
        &mut self,
        steps: &mut Steps<L>,
        lines: &LineList,
        payloads: &mut PayloadRoom,
        clones: &mut [BufferClone],
        out: &mut O,
    ) -> Result<(), HostFault>
        requires begins { (scenario : Parts) × (scenario.lines ≡ lines.now) × Begins W.means scenario self.old }
        requires room { HasRoom (W.means.setup self.old.table).sizes payloads.old }
        requires clones { AreAsMade W.means self.old lines.now clones.old }
        requires may { O.may_write out.old }
        ensures played { OnOk result ((scenario : Parts) → scenario.lines ≡ lines.now → Begins W.means scenario self.old
            → HavePlayed W.means scenario self.old (O.taken out.old) self.new (O.taken out.new)) }
        ensures cloned { OnOk result ((scenario : Parts) → scenario.lines ≡ lines.now → Begins W.means scenario self.old
            → HaveCloned W.means scenario [] scenario.lines self.old self.new clones.new) }
        ensures stops { IfErr result (λ fault. (scenario : Parts) → scenario.lines ≡ lines.now → Begins W.means scenario self.old
            → StopsIn W.means (acts_from scenario [] scenario.lines) self.old (O.taken out.old) fault (O.taken out.new)) }
        ensures count { CountsStop (O.faults out.old) (O.faults out.new) result }
        ensures goes_on { OnOk result (O.may_write out.new) }
        ensures stalled { IfErr result (λ fault. IsStall fault → O.may_write out.new) }
    {
        let mut walk = lines.walk();
        let mut filled = 0;
        'lines: while let Some(line) = walk.next() {
            self.play_line(steps, &line.what, payloads, out)?;
            if let LineKind::CloneBuffer { buffer } = line.what {
                filled = self.fill_next(clones, filled, buffer);
            }
        }
        Ok(())
    }
}
