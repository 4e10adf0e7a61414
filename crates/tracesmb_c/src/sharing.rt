//! Lending writers to a program, and taking them back.
ghost use Rattle.std.specs.Prelude.{◌≡◌, ◌-◌, ◌<◌, ◌≤◌, IfOk, IfErr, OnErr, Some, None, length, slice_get, slice_set};
ghost use Rattle.tracesmb_c.specs.declared.codes.TheConstants.{OK, NO_MEMORY};
ghost use Rattle.tracesmb_c.specs.Lending.{table_of, IsReady};
ghost use Rattle.tracesmb_c.specs.Served.{MayLend, IsAwayFrom};
ghost use Rattle.tracesmb_c.specs.Sessions.{session_table, IsSession, IsLent, IsBack, KeepsOthers};

use crate::codes::{BAD_HANDLE, BAD_NUMBER, BUSY, NO_MEMORY, OK, WRONG_STATE};
use crate::session::OwnedSession;
use crate::writer::OwnedWriter;
use std::alloc::Global;
use std::sync::Arc;
use thread_writer::TraceWriter;

impl OwnedSession {
    /// Lends the writer with this number, from 1; an `Err` has the code to answer.
    pub fn lend(&mut self, alloc: Global, number: u32) -> Result<Box<OwnedWriter>, u32>
        requires session { IsSession self.old }
        ensures session { IsSession self.new }
        ensures lent { IfOk result (λ box. IsLent number self.old self.new box.value) }
        ensures kept { OnErr result (self.new.homes.items ≡ self.old.homes.items) }
        ensures others { OnErr result (KeepsOthers self.old self.new) }
        ensures code { IfErr result (λ code. 1 ≤ code) }
        ensures when { MayLend number self.old → IfErr result (λ code. code ≡ NO_MEMORY) }
    {
        if self.stopped {
            return Err(WRONG_STATE);
        }
        if number < 1 || number as usize > self.homes.len() {
            return Err(BAD_NUMBER);
        }
        let place = number as usize - 1;
        let Ok(table) = Arc::try_clone(&self.table) else {
            return Err(NO_MEMORY);
        };
        let Some(writer) = self.take_home(place) else {
            return Err(BUSY);
        };
        let owned = OwnedWriter {
            table,
            writer,
            number,
        };
        match Box::new(alloc, owned) {
            Ok(lent) => Ok(lent),
            Err(failed) => {
                self.put_home(place, failed.value);
                Err(NO_MEMORY)
            }
        }
    }

    /// Why a writer can't be taken back, if it can't; 0 says that it can.
    pub fn take_back_code(&self, owned: &OwnedWriter) -> u32
        requires session { IsSession self.now }
        requires ready { IsReady owned.now }
        ensures away { result ≡ OK → IsAwayFrom self.now owned.now }
        ensures when { IsAwayFrom self.now owned.now → result ≡ OK }
    {
        if self.stopped || owned.number < 1 || owned.number as usize > self.homes.len() {
            return BAD_HANDLE;
        }
        if self.homes[owned.number as usize - 1].is_some() {
            return BAD_HANDLE;
        }
        if owned.writer.in_packet() {
            return WRONG_STATE;
        }
        OK
    }

    /// Takes a writer back that stands between two packets, flushed.
    pub fn take_back(&mut self, owned: OwnedWriter)
        requires session { IsSession self.old }
        requires ready { IsReady owned }
        requires table { session_table self.old ≡ table_of owned }
        requires away { IsAwayFrom self.old owned }
        ensures session { IsSession self.new }
        ensures back { IsBack owned self.old self.new }
    {
        let mut owned = owned;
        owned.flush();
        let place = owned.number as usize - 1;
        self.put_home(place, owned);
    }

    /// Takes the writer from its place, where it is home.
    fn take_home(&mut self, place: usize) -> Option<TraceWriter>
        requires place { place < length self.old.homes.items }
        ensures was { slice_get self.old.homes.items place ≡ Some result }
        ensures homes { self.new.homes.items ≡ slice_set self.old.homes.items place None }
        ensures rest { KeepsOthers self.old self.new }
    {
        self.homes[place].take()
    }

    /// Puts a writer at its place.
    fn put_home(&mut self, place: usize, owned: OwnedWriter)
        requires place { place < length self.old.homes.items }
        ensures homes { self.new.homes.items ≡ slice_set self.old.homes.items place (Some owned.writer) }
        ensures rest { KeepsOthers self.old self.new }
    {
        let (table, writer) = owned.into_parts();
        drop(table);
        if let Some(other) = self.homes[place].replace(writer) {
            let _ = other.give_up();
        }
    }
}
