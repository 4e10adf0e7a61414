//! Reading a buffer with the reading pass.
ghost use Rattle.std.specs.Prelude.{List, IfOk, OnErr, OnOk};
ghost use Rattle.byte_io.specs.Bytes.{CountsFaults};
ghost use Rattle.trace_model.specs.History as model;
ghost use Rattle.chunk_words.specs.Sits.{setup_in, known_by_pass};
ghost use Rattle.service_core.specs.Reading.{NotesReads, ReadsAll, FailsAmong, read_moment};
ghost use Rattle.thread_service.specs.Reading.{PassReads, ServesPassing, StartsFrom, LeavesPassing};
ghost use Rattle.thread_service.specs.Serving.{core_of, view_in};

use crate::passing::{Passing, Start};
use crate::service::Service;
use byte_io::put::WriteFault;
use byte_io::traits::Sink;
use chunk_words::{HostTable, ReadPass};
use std::marker::{Brand, PhantomData};

impl Service {
    /// Reads the sequences of a buffer in rising id, each with what is left of the limit, 0 included,
    /// and notes each read with the reading pass. Answers how many packets were delivered. A write
    /// that fails ends the read before the packet whose record was being written. What the seat has of
    /// the other seats stays, but for where the pass is.
    pub fn read_passing<O: Sink>(
        &mut self,
        table: &HostTable,
        pass: &mut ReadPass,
        buffer: u8,
        limit: u64,
        out: &mut O,
    ) -> Result<u64, WriteFault>
        requires serves { ServesPassing table.now self.old pass.old }
        requires may { O.may_write out.old }
        ensures leaves { LeavesPassing table.now self.old pass.old self.new pass.new }
        ensures reads { IfOk result (λ delivered. ReadsAll (setup_in table.now) (core_of self.old) buffer limit delivered
            (read_moment (view_in self.old) (O.taken out.old))
            (read_moment (view_in self.new) (O.taken out.new))) }
        ensures fails { OnErr result (FailsAmong (setup_in table.now) (core_of self.old) buffer limit
            (read_moment (view_in self.old) (O.taken out.old))
            (read_moment (view_in self.new) (O.taken out.new))) }
        ensures passes { (events : List model.Event)
            → NotesReads (setup_in table.now) (core_of self.old) events (view_in self.old) (view_in self.new)
            → PassReads (setup_in table.now) (core_of self.old) events (known_by_pass pass.old) (known_by_pass pass.new) }
        ensures count { CountsFaults (O.faults out.old) (O.faults out.new) result }
        ensures goes_on { OnOk result (O.may_write out.new) }
    {
        self.read_at::<Brand, O>(table, pass, buffer, limit, out)
    }

    /// The same from a start that its type names.
    fn read_at<N: Start, O: Sink>(
        &mut self,
        table: &HostTable,
        pass: &mut ReadPass,
        buffer: u8,
        limit: u64,
        out: &mut O,
    ) -> Result<u64, WriteFault>
        requires starts { StartsFrom N.table N.passed N.view N.desk table.now self.old pass.old }
        requires may { O.may_write out.old }
        ensures leaves { LeavesPassing table.now self.old pass.old self.new pass.new }
        ensures reads { IfOk result (λ delivered. ReadsAll (setup_in table.now) (core_of self.old) buffer limit delivered
            (read_moment (view_in self.old) (O.taken out.old))
            (read_moment (view_in self.new) (O.taken out.new))) }
        ensures fails { OnErr result (FailsAmong (setup_in table.now) (core_of self.old) buffer limit
            (read_moment (view_in self.old) (O.taken out.old))
            (read_moment (view_in self.new) (O.taken out.new))) }
        ensures passes { (events : List model.Event)
            → NotesReads (setup_in table.now) (core_of self.old) events (view_in self.old) (view_in self.new)
            → PassReads (setup_in table.now) (core_of self.old) events (known_by_pass pass.old) (known_by_pass pass.new) }
        ensures count { CountsFaults (O.faults out.old) (O.faults out.new) result }
        ensures goes_on { OnOk result (O.may_write out.new) }
    {
        let mut passing = Passing::<N> {
            table,
            pass: table.hand_on(pass),
            of: PhantomData,
        };
        let read = self.core.read_buffer(&mut passing, buffer, limit, out);
        *pass = passing.pass;
        read
    }
}
