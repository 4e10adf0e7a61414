//! What the service does for a line: it takes chunks, scrapes, closes and reads.
ghost use Rattle.std.specs.Prelude.{◌≡◌, ◌-◌, true, false, [], ◌∷◌, slice_index_or, slice_set, OnOk, IfErr};
ghost use Rattle.byte_io.specs.Bytes.{Intake, CountsFaults};
ghost use Rattle.chunk_plain.specs.Setup.{HasProducer};
ghost use Rattle.replay_model.specs.Acts.{Collect, Scrape, CloseProducer, ReadAll};

use crate::fault::HostFault;
use crate::host::Host;
use byte_io::put::WriteFault;
use byte_io::traits::Sink;
use chunk_plain::Words;

impl<W: Words> Host<W, W::Writer, W::Service> {
    ghost use Rattle.replay_host.specs.Playing.{IsHost, HasDone, LeavesHost, LeavesWriters};
    ghost use Rattle.replay_host.specs.Stopping.{FailsReading};

    /// The complete chunks of an open producer are taken. Producers count from 1.
    pub fn collect(&mut self, producer: u16)
        requires host { IsHost W.means self.old }
        requires producer { HasProducer (W.means.setup self.old.table) producer }
        requires open { slice_index_or self.old.open_producers.items (producer - 1) false ≡ true }
        ensures leaves { LeavesHost W.means self.old self.new }
        ensures done { (taken : Intake) → HasDone W.means (Collect producer ∷ []) [] self.old taken self.new taken }
    {
        self.helper.service.collect(&mut self.table, producer);
    }

    /// The complete chunks of an open producer are taken, and its sequences closed. Producers count
    /// from 1.
    pub fn close(&mut self, producer: u16)
        requires host { IsHost W.means self.old }
        requires producer { HasProducer (W.means.setup self.old.table) producer }
        requires open { slice_index_or self.old.open_producers.items (producer - 1) false ≡ true }
        ensures host { IsHost W.means self.new }
        ensures writers { LeavesWriters W.means self.old self.new }
        ensures flags { self.new.open_producers.items ≡ slice_set self.old.open_producers.items (producer - 1) false }
        ensures session { self.new.helper.service.session ≡ self.old.helper.service.session }
        ensures done { (taken : Intake) → HasDone W.means (CloseProducer producer ∷ []) [] self.old taken self.new taken }
    {
        self.helper
            .service
            .close_producer(&mut self.table, producer);
        self.open_producers[usize::from(producer) - 1] = false;
    }

    /// The complete chunks of an open producer are taken, and then the finished fragments of those that
    /// its writers hold. Producers count from 1.
    pub fn scrape(&mut self, producer: u16)
        requires host { IsHost W.means self.old }
        requires producer { HasProducer (W.means.setup self.old.table) producer }
        requires open { slice_index_or self.old.open_producers.items (producer - 1) false ≡ true }
        ensures leaves { LeavesHost W.means self.old self.new }
        ensures done { (taken : Intake) → HasDone W.means (Scrape producer ∷ []) [] self.old taken self.new taken }
    {
        self.helper.service.scrape(&mut self.table, producer);
    }

    /// The sequences of a buffer are read in rising id, each with what is left of the limit. Buffers
    /// count from 1. Where a write fails, the sink has taken a front part of what was to be written, and the
    /// packets that it took whole are noted as read, no others.
    pub fn read<O: Sink>(&mut self, buffer: u8, limit: u64, out: &mut O) -> Result<(), HostFault>
        requires host { IsHost W.means self.old }
        requires may { O.may_write out.old }
        ensures leaves { LeavesHost W.means self.old self.new }
        ensures done { OnOk result
            (HasDone W.means (ReadAll buffer limit ∷ []) [] self.old (O.taken out.old) self.new (O.taken out.new)) }
        ensures fails { IfErr result (λ fault. FailsReading W.means buffer limit self.old (O.taken out.old) self.new (O.taken out.new) fault) }
        ensures count { CountsFaults (O.faults out.old) (O.faults out.new) result }
        ensures goes_on { OnOk result (O.may_write out.new) }
    {
        match self
            .helper
            .service
            .read_buffer(&mut self.table, buffer, limit, out)
        {
            Ok(_) => Ok(()),
            Err(WriteFault) => Err(HostFault::WriteFault),
        }
    }
}
