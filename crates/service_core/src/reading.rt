//! Reading a buffer.
ghost use Rattle.std.specs.Prelude.{◌<◌, length, IfOk, OnErr, OnOk};
ghost use Rattle.byte_io.specs.Bytes.{CountsFaults};
ghost use Rattle.chunk_plain.specs.Setup.{sequence_of};
ghost use Rattle.service_core.specs.Reading.{ReadsAll, FailsAmong, ReadsOne, FailsOne, read_moment};
ghost use Rattle.service_core.specs.Calls.{ServesReads, NotesOn};

use crate::service::ServiceCore;
use byte_io::put::WriteFault;
use byte_io::traits::Sink;
use chunk_plain::{ServiceEvent, Words};
use sequence_reader::{ReadCount, read_counted};
use trace_base::limits::FIRST_SEQUENCE;

impl<S> ServiceCore<S> {
    /// Reads the sequence of the writer at this place, and notes that. Answers how many packets were
    /// delivered; a read in which a write failed is noted with that number as its limit.
    fn read_writer<W: Words<Service = S>, O: Sink>(
        &mut self,
        table: &mut W,
        place: usize,
        limit: u64,
        out: &mut O,
    ) -> Result<u64, WriteFault>
        requires asks { ServesReads W.means table.old self.old }
        requires place { place < length (W.means.setup table.old).writers }
        requires may { O.may_write out.old }
        ensures leaves { NotesOn W.means table.old self.old table.new self.new }
        ensures reads { IfOk result (λ delivered. ReadsOne self.old self.new (sequence_of place) limit delivered
            (read_moment (W.means.service_view table.old self.old.seat) (O.taken out.old))
            (read_moment (W.means.service_view table.new self.new.seat) (O.taken out.new))) }
        ensures fails { OnErr result (FailsOne self.old (sequence_of place) limit
            (read_moment (W.means.service_view table.old self.old.seat) (O.taken out.old))
            (read_moment (W.means.service_view table.new self.new.seat) (O.taken out.new))) }
        ensures count { CountsFaults (O.faults out.old) (O.faults out.new) result }
        ensures goes_on { OnOk result (O.may_write out.new) }
    {
        let sequence = place as u32 + FIRST_SEQUENCE;
        let index = usize::from(self.writers[place].buffer) - 1;
        let buffer = &mut self.buffers[index];
        let ReadCount { delivered, end } = read_counted(buffer, sequence, limit, out);
        match end {
            Ok(_) => {
                table.note(&mut self.seat, ServiceEvent::Read { sequence, limit });
                Ok(delivered)
            }
            Err(WriteFault) => {
                let limit = delivered;
                table.note(&mut self.seat, ServiceEvent::Read { sequence, limit });
                Err(WriteFault)
            }
        }
    }

    /// Reads the sequences of a buffer in rising id, each with what is left of the limit, 0 included,
    /// and answers how many packets were delivered. Buffers count from 1. A write that fails ends the
    /// read before the packet whose record was being written, and no further sequence is read.
    pub fn read_buffer<W: Words<Service = S>, O: Sink>(
        &mut self,
        table: &mut W,
        buffer: u8,
        limit: u64,
        out: &mut O,
    ) -> Result<u64, WriteFault>
        requires asks { ServesReads W.means table.old self.old }
        requires may { O.may_write out.old }
        ensures leaves { NotesOn W.means table.old self.old table.new self.new }
        ensures reads { IfOk result (λ delivered. ReadsAll (W.means.setup table.old) self.old buffer limit delivered
            (read_moment (W.means.service_view table.old self.old.seat) (O.taken out.old))
            (read_moment (W.means.service_view table.new self.new.seat) (O.taken out.new))) }
        ensures fails { OnErr result (FailsAmong (W.means.setup table.old) self.old buffer limit
            (read_moment (W.means.service_view table.old self.old.seat) (O.taken out.old))
            (read_moment (W.means.service_view table.new self.new.seat) (O.taken out.new))) }
        ensures count { CountsFaults (O.faults out.old) (O.faults out.new) result }
        ensures goes_on { OnOk result (O.may_write out.new) }
    {
        let mut left = limit;
        for place in 0..self.writers.len() {
            if self.writers[place].buffer != buffer {
                continue;
            }
            left -= self.read_writer(table, place, left, out)?;
        }
        Ok(limit - left)
    }
}
