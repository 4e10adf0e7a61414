//! The end of a stream: its sequences are closed, and its buffers read.
ghost use Rattle.std.specs.Prelude.{◌≡◌, ◌≤◌, length, OnOk, OnErr};
ghost use Rattle.trace_base.specs.declared.limits.TheConstants.{MAX_BUFFERS};
ghost use Rattle.byte_io.specs.Bytes.{CountsFaults, TakesPart};

use crate::player::Player;
use byte_io::put::WriteFault;
use byte_io::traits::Sink;
use chunk_plain::Words;

impl<W: Words> Player<W, W::Service> {
    ghost use Rattle.stream_producer.specs.Standing.{Stands, Serves};
    ghost use Rattle.stream_producer.specs.Ending.{Closes, ReadsOut, due_of_reads};

    /// Closes all sequences, in rising number. Nothing is taken for it: no chunk of the table is used.
    pub(crate) fn close_all(&mut self, sources: usize)
        requires stands { Stands W.means self.old }
        requires sources { sources ≡ length (W.means.setup self.old.table).writers }
        ensures closes { Closes W.means self.old self.new }
    {
        for place in 0..sources {
            self.service.close_writer(&mut self.table, place);
        }
    }

    /// Reads all buffers without limit, in rising number.
    pub(crate) fn read_all<O: Sink>(
        &mut self,
        buffers: usize,
        out: &mut O,
    ) -> Result<(), WriteFault>
        requires serves { Serves W.means self.old }
        requires buffers { buffers ≡ length self.old.service.specs.items }
        requires few { buffers ≤ MAX_BUFFERS }
        requires may { O.may_write out.old }
        ensures reads { OnOk result (ReadsOut W.means self.old self.new (O.taken out.old) (O.taken out.new)) }
        ensures part { OnErr result (TakesPart (O.taken out.old) (O.taken out.new) (due_of_reads W.means self.old)) }
        ensures count { CountsFaults (O.faults out.old) (O.faults out.new) result }
        ensures goes_on { OnOk result (O.may_write out.new) }
    {
        for index in 0..buffers {
            self.service
                .read_buffer(&mut self.table, index as u8 + 1, u64::MAX, out)?;
        }
        Ok(())
    }
}
