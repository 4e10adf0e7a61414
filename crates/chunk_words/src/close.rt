//! A table that threads shared, once all its seats are back.
ghost use Rattle.std.specs.Prelude.{◌≡◌, ℕ, ◌+◌, ◌<◌, [], length};
ghost use Rattle.std.specs.Mem.Slots.{slots_items, IsFull};
ghost use Rattle.chunk_words.specs.Closed.{HasAllSeats, IsUnused, IsAccount, AllTaken, views_of};
ghost use Rattle.chunk_plain.specs.Views.{ServiceView};
ghost use Rattle.chunk_words.specs.GoesOn.{GoesOn};
ghost use Rattle.chunk_words.specs.Knows.{Here, Service, made_of, desk_of, joined_of, stage_of, watch_of, service_of, view_of, passed_of, with_view, with_views};
ghost use Rattle.chunk_words.specs.Seats.{IsIdle};
ghost use Rattle.chunk_words.specs.Sits.{Attends, Passes, CanServe};

use crate::host::HostTable;
use crate::seats::{ReadPass, ServiceSeat, WriterSeat};
use crate::steps::Knowledge;
use atomic_table::{Closed, Join};
use commit_body::CommitBody;
use std::alloc::Global;

/// The service takes in the seat of a writer.
pub struct TakesSeat {}

impl Join<Knowledge> for TakesSeat {
    ghost use Rattle.chunk_words.specs.Knows.{Spent, takes_seat};

    ghost both = { takes_seat };

    ghost spent = { Spent };
}

/// The words and slots of a table that no thread shares any more.
pub struct ClosedTable {
    closed: Closed<Option<CommitBody>, Global>,
    ghost full: { IsFull closed.words × IsFull closed.slots },
}

impl HostTable {
    /// Takes all seats back. No chunk is used then, and the views that the seats had are the account
    /// of all that was done, to which a schedule of steps leads by way of what the service marked.
    pub fn close(self, seats: Vec<WriterSeat>, service: ServiceSeat) -> ClosedTable
        requires seats { HasAllSeats self (service_of service.seat.me.0) seats.items }
        requires service { Attends self service }
        requires none_out { (service_of service.seat.me.0).reading ≡ [] }
        ensures unused { (chunk : ℕ) → chunk < length self.layout.spots → IsUnused self.layout (slots_items result.closed.words) chunk }
        ensures account { IsAccount self.layout (desk_of service.seat.me.0).marks (views_of seats.items) (service_of service.seat.me.0) }
        ensures taken { AllTaken (service_of service.seat.me.0) (views_of seats.items) }
    {
        self.close_all(seats, service)
    }

    /// Takes all seats back, and the reading pass. Since the last read that was noted with it no
    /// read was noted.
    pub fn close_with(
        self,
        seats: Vec<WriterSeat>,
        service: ServiceSeat,
        pass: ReadPass,
    ) -> ClosedTable
        requires seats { HasAllSeats self (service_of service.seat.me.0) seats.items }
        requires service { Attends self service }
        requires none_out { (service_of service.seat.me.0).reading ≡ [] }
        requires pass { Passes self pass }
        ensures unused { (chunk : ℕ) → chunk < length self.layout.spots → IsUnused self.layout (slots_items result.closed.words) chunk }
        ensures account { IsAccount self.layout (desk_of service.seat.me.0).marks (views_of seats.items) (service_of service.seat.me.0) }
        ensures taken { AllTaken (service_of service.seat.me.0) (views_of seats.items) }
        ensures goes_on { GoesOn (passed_of pass.seat.me.0) (service_of service.seat.me.0) }
    {
        let mut service = service;
        self.take_pass(&mut service, pass.seat);
        self.close_all(seats, service)
    }

    /// Takes all seats back. Where the service has the reading pass, it learns what that knows.
    fn close_all(self, seats: Vec<WriterSeat>, service: ServiceSeat) -> ClosedTable
        requires seats { HasAllSeats self (service_of service.seat.me.0) seats.items }
        requires service { Attends self service }
        requires none_out { (service_of service.seat.me.0).reading ≡ [] }
        ensures unused { (chunk : ℕ) → chunk < length self.layout.spots → IsUnused self.layout (slots_items result.closed.words) chunk }
        ensures account { IsAccount self.layout (desk_of service.seat.me.0).marks (views_of seats.items) (service_of service.seat.me.0) }
        ensures taken { AllTaken (service_of service.seat.me.0) (views_of seats.items) }
        ensures goes_on { (known : ServiceView) → stage_of service.seat.me.0 ≡ Here known → GoesOn known (service_of service.seat.me.0) }
    {
        let mut service = service;
        self.join_all(&mut service, seats);
        let HostTable {
            layout: _,
            starts: _,
            requests: _,
            spare: _,
            table,
        } = self;
        ClosedTable {
            closed: table.close_with(service.seat),
        }
    }

    /// The service takes in the seats of all writers, one behind another.
    fn join_all(&self, service: &mut ServiceSeat, seats: Vec<WriterSeat>)
        requires seats { HasAllSeats self.now (service_of service.old.seat.me.0) seats.items }
        requires service { Attends self.now service.old }
        ensures seat { service.new.seat.table_id ≡ service.old.seat.table_id }
        ensures me { service.new.seat.me
            ≡ (
              Service 0 (made_of service.old.seat.me.0) (with_views (desk_of service.old.seat.me.0) (views_of seats.items))
                  (watch_of service.old.seat.me.0) (service_of service.old.seat.me.0),
              [],
            ) }
    {
        for mine in seats {
            self.join_one(service, mine);
        }
    }

    /// The service takes in the seat of the next writer.
    fn join_one(&self, service: &mut ServiceSeat, mine: WriterSeat)
        requires seat { CanServe self.now service.old }
        requires joined { mine.seat.table_id ≡ self.now.table.shared.table_id }
        requires rests { IsIdle mine.place mine.seat.me }
        requires next { mine.place ≡ length (joined_of service.old.seat.me.0) }
        ensures seat { service.new.seat.table_id ≡ service.old.seat.table_id }
        ensures me { service.new.seat.me
            ≡ (
              Service 0 (made_of service.old.seat.me.0) (with_view (desk_of service.old.seat.me.0) (view_of mine.seat.me.0))
                  (watch_of service.old.seat.me.0) (service_of service.old.seat.me.0),
              [],
            ) }
    {
        let table = &self.table;
        let shared = &table.shared;
        shared.join_seat::<TakesSeat>(&mut service.seat, mine.seat);
    }
}

impl Drop for ClosedTable {
    fn drop(self) {
        let ClosedTable { mut closed } = self;
        let mut i = 0;
        while i < closed.slot_count() {
            drop(closed.take(i));
            i += 1;
        }
        closed.free();
    }
}
