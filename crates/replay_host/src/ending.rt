//! The end, behind the last line.
ghost use Rattle.std.specs.Prelude.{◌≡◌, ◌≤◌, length, map, OnOk, IfErr};
ghost use Rattle.trace_model.specs.Calls.{Flushed};
ghost use Rattle.trace_base.specs.declared.limits.TheConstants.{MAX_BUFFERS};
ghost use Rattle.replay_model.specs.Acts.{Ask, CloseProducer};
ghost use Rattle.replay_model.specs.Schedule.{open_places, open_producers, last_acts};
ghost use Rattle.replay_host.specs.Replaying.{CountsStop, IsStall};

use crate::fault::HostFault;
use crate::host::Host;
use byte_io::traits::Sink;
use chunk_plain::Words;

impl<W: Words> Host<W, W::Writer, W::Service> {
    ghost use Rattle.replay_host.specs.Ending.{IsOver, HaveFlushed, HasEnded, reads_to};
    ghost use Rattle.replay_host.specs.Playing.{IsHost};
    ghost use Rattle.replay_host.specs.Serving.{HasFlags, HaveClosed};
    ghost use Rattle.replay_host.specs.Stopping.{StopsIn};

    /// Each writer of an open producer flushes.
    fn flush_all(&mut self)
        requires over { IsOver W.means self.old }
        ensures flushed { (over : IsOver W.means self.old)
            → HaveFlushed W.means (map (λ place. Ask place Flushed) (open_places over.scenario.lines 0 over.scenario.writers)) self.old
            self.new }
    {
        for place in 0..self.writers.len() {
            if self.is_open(place) {
                self.flush(place);
            }
        }
    }

    /// The session ends, and all producers that are open are closed.
    fn close_all(&mut self)
        requires flags { HasFlags W.means self.old }
        ensures closed { (flags : HasFlags W.means self.old)
            → HaveClosed W.means (map CloseProducer (open_producers flags.before 1 flags.scenario.producers)) self.old self.new }
    {
        for index in 0..self.open_producers.len() {
            if self.open_producers[index] {
                self.close(index as u16 + 1);
            }
        }
    }

    /// Each of so many buffers is read without limit.
    fn read_all<O: Sink>(&mut self, buffers: usize, out: &mut O) -> Result<(), HostFault>
        requires host { IsHost W.means self.old }
        requires few { buffers ≤ MAX_BUFFERS }
        requires may { O.may_write out.old }
        ensures read { OnOk result (HasEnded W.means (reads_to buffers) self.old (O.taken out.old) self.new (O.taken out.new)) }
        ensures stops { IfErr result (λ fault. StopsIn W.means (reads_to buffers) self.old (O.taken out.old) fault (O.taken out.new)) }
        ensures count { CountsStop (O.faults out.old) (O.faults out.new) result }
        ensures goes_on { OnOk result (O.may_write out.new) }
        ensures stalled { IfErr result (λ fault. IsStall fault → O.may_write out.new) }
    {
        for index in 0..buffers {
            self.read(index as u8 + 1, u64::MAX, out)?;
        }
        Ok(())
    }

    /// Plays the end: each writer of an open producer flushes, each open producer's chunks are taken,
    /// all sequences are closed, and each buffer is read without limit.
    pub(crate) fn play_end<O: Sink>(&mut self, buffers: usize, out: &mut O) -> Result<(), HostFault>
        requires over { (over : IsOver W.means self.old) × (length over.scenario.buffers ≡ buffers) }
        requires few { buffers ≤ MAX_BUFFERS }
        requires may { O.may_write out.old }
        ensures ended { OnOk result ((over : IsOver W.means self.old) → length over.scenario.buffers ≡ buffers
            → HasEnded W.means (last_acts over.scenario) self.old (O.taken out.old) self.new (O.taken out.new)) }
        ensures stops { IfErr result (λ fault. (over : IsOver W.means self.old) → length over.scenario.buffers ≡ buffers
            → StopsIn W.means (last_acts over.scenario) self.old (O.taken out.old) fault (O.taken out.new)) }
        ensures count { CountsStop (O.faults out.old) (O.faults out.new) result }
        ensures goes_on { OnOk result (O.may_write out.new) }
        ensures stalled { IfErr result (λ fault. IsStall fault → O.may_write out.new) }
    {
        self.flush_all();
        self.collect_all();
        let _ = self.helper.service.stop();
        self.close_all();
        self.read_all(buffers, out)
    }
}
