//! What writers tell the service: what they have completed by now, and the last answer to a flush
//! request. Later looks show it, so a service
//! that has looked at each chunk since knows that it took all of it. And the service marks worlds, by
//! which the schedule of all steps came.
ghost use Rattle.std.specs.Prelude.{◌≡◌, ◌<◌};
ghost use Rattle.chunk_plain.specs.Letters.{last_flush};
ghost use Rattle.chunk_words.specs.Knows.{desk_of, service_of, view_of, with_tale};
ghost use Rattle.chunk_words.specs.Moves.{Recalls, Marks};
ghost use Rattle.chunk_words.specs.Sits.{Sits, Attends, CanServe, ServiceLeaves};
ghost use Rattle.chunk_words.specs.Told.{ShowsAllTold, IsMarked};

use crate::host::HostTable;
use crate::moves::Move;
use crate::seats::{ServiceSeat, WriterSeat};
use crate::steps::{Knowledge, make_load};
use atomic_table::{Join, Split};

/// A writer tells what it has begun.
pub struct Reports {}

impl Split<Knowledge> for Reports {
    ghost use Rattle.chunk_words.specs.Knows.{handed_on, tells};

    ghost left = { handed_on };

    ghost right = { tells };
}

/// The service hears it.
pub struct Hears {}

impl Join<Knowledge> for Hears {
    ghost use Rattle.chunk_words.specs.Knows.{Spent, hears};

    ghost both = { hears };

    ghost spent = { Spent };
}

impl HostTable {
    /// The writer tells the service what it has begun and completed, and which answer was its last.
    pub fn tell(&self, from: &mut WriterSeat, service: &mut ServiceSeat)
        requires from { Sits self.now from.old }
        requires service { Attends self.now service.old }
        ensures told { desk_of service.new.seat.me.0
            ≡ with_tale (desk_of service.old.seat.me.0) (service_of service.old.seat.me.0) from.old.place
            (view_of from.old.seat.me.0).begun (last_flush (view_of from.old.seat.me.0).letters.answers) }
        ensures service_view { service_of service.new.seat.me.0 ≡ service_of service.old.seat.me.0 }
        ensures view { view_of from.new.seat.me.0 ≡ view_of from.old.seat.me.0 }
        ensures place { from.new.place ≡ from.old.place }
        ensures from { Sits self.now from.new }
        ensures service { Attends self.now service.new }
    {
        let table = &self.table;
        let report = table.shared.split_seat::<Reports>(&mut from.seat);
        table.shared.join_seat::<Hears>(&mut service.seat, report);
    }

    /// Compares the looks so far with what writers told: each look since at a chunk that was told to
    /// be complete shows it so, as long as it isn't taken.
    pub fn recall(&self, seat: &mut ServiceSeat)
        requires seat { Attends self.now seat.old }
        ensures shown { ShowsAllTold self.now.layout (service_of seat.new.seat.me.0) (desk_of seat.new.seat.me.0) }
        ensures view { service_of seat.new.seat.me.0 ≡ service_of seat.old.seat.me.0 }
        ensures desk { desk_of seat.new.seat.me.0 ≡ desk_of seat.old.seat.me.0 }
        ensures seat { Attends self.now seat.new }
    {
        self.step_recall(seat);
    }

    /// Marks the world of the table as it is between two steps: a schedule of steps leads there, and
    /// what writers told that they completed they have completed there. Where the table is closed, the
    /// schedule that leads to its account came by way of each marked world.
    pub fn mark(&self, seat: &mut ServiceSeat)
        requires seat { Attends self.now seat.old }
        ensures marked { IsMarked self.now.layout (service_of seat.old.seat.me.0) (desk_of seat.old.seat.me.0) (desk_of seat.new.seat.me.0) }
        ensures view { service_of seat.new.seat.me.0 ≡ service_of seat.old.seat.me.0 }
        ensures seat { Attends self.now seat.new }
    {
        self.step_mark(seat);
    }

    fn step_recall(&self, seat: &mut ServiceSeat)
        requires seat { CanServe self.now seat.old }
        ensures { ServiceLeaves seat.old seat.new (Recalls self.now.layout) }
    {
        let step = Move::Recall {
            layout: &self.layout,
        };
        let table = &self.table;
        make_load(&table.shared, &mut seat.seat, self.spare, &step);
    }

    fn step_mark(&self, seat: &mut ServiceSeat)
        requires seat { CanServe self.now seat.old }
        ensures { ServiceLeaves seat.old seat.new (Marks self.now.layout) }
    {
        let step = Move::Mark {
            layout: &self.layout,
        };
        let table = &self.table;
        make_load(&table.shared, &mut seat.seat, self.spare, &step);
    }
}
