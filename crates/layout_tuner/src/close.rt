//! A table whose seats are all back is closed.
ghost use Rattle.std.specs.Prelude.{◌≡◌, ◌*◌, [], length, slice_index_or};
ghost use Rattle.layout_tuner.specs.Knows.{Collector, made_of, joined_of, watch_of, collector_of};
ghost use Rattle.layout_tuner.specs.Collecting.{IsCaughtUp};
ghost use Rattle.layout_tuner.specs.Closed.{HasAllSeats, IsClosed, views_of, with_view};
ghost use Rattle.layout_tuner.specs.Sits.{Sits, Attends, IsCollector, known_by, known_by_collector};

use crate::seats::{CollectSeat, TuneSeat};
use crate::steps::Knowledge;
use crate::table::{LINE_WORDS, TuneTable};
use atomic_table::Join;

/// The collector takes in the seat of a user.
pub struct TakesSeat {}

impl Join<Knowledge> for TakesSeat {
    ghost use Rattle.layout_tuner.specs.Knows.{Spent, takes_seat};

    ghost both = { takes_seat };

    ghost spent = { Spent };
}

impl TuneTable {
    /// Takes all seats back, of users that have told the collector all that they completed, once it
    /// has caught up with what they told: the words of the pages.
    pub fn close(self, seats: Vec<TuneSeat>, collect: CollectSeat) -> Vec<u64>
        requires seats { HasAllSeats self (known_by_collector collect) seats.items }
        requires collect { Attends self collect }
        requires caught_up { IsCaughtUp self.shape.users (14 * self.shape.pages) (known_by_collector collect) }
        ensures pages { length result.items ≡ self.shape.pages }
        ensures closed { IsClosed self.shape seats.items (known_by_collector collect) (λ page. slice_index_or result.items page 0) }
    {
        let mut collect = collect;
        self.join_all(&mut collect, seats);
        let TuneTable {
            shape,
            table,
            mut last,
        } = self;
        let closed = table.close_with(collect.seat);
        for page in 0..shape.pages as usize {
            last[page] = closed.word(LINE_WORDS * page);
        }
        closed.free();
        last
    }

    /// The collector takes in the seats of all users, one behind another.
    fn join_all(&self, collect: &mut CollectSeat, seats: Vec<TuneSeat>)
        requires seats { HasAllSeats self.now (known_by_collector collect.old) seats.items }
        requires collect { Attends self.now collect.old }
        ensures seat { collect.new.seat.table_id ≡ collect.old.seat.table_id }
        ensures me { collect.new.seat.me ≡ (
          Collector (made_of collect.old.seat.me.0) (views_of seats.items) (watch_of collect.old.seat.me.0) (collector_of collect.old.seat.me.0),
          [],
        ) }
    {
        for mine in seats {
            self.join_one(collect, mine);
        }
    }

    /// The collector takes in the seat of the next user.
    fn join_one(&self, collect: &mut CollectSeat, mine: TuneSeat)
        requires seat { collect.old.seat.table_id ≡ self.now.table.shared.table_id }
        requires idle { IsCollector collect.old.seat.me }
        requires mine { Sits self.now mine }
        requires next { mine.number ≡ length (joined_of collect.old.seat.me.0) }
        ensures seat { collect.new.seat.table_id ≡ collect.old.seat.table_id }
        ensures me { collect.new.seat.me ≡ (
          Collector (made_of collect.old.seat.me.0) (with_view (joined_of collect.old.seat.me.0) (known_by mine))
              (watch_of collect.old.seat.me.0) (collector_of collect.old.seat.me.0),
          [],
        ) }
    {
        let table = &self.table;
        let shared = &table.shared;
        shared.join_seat::<TakesSeat>(&mut collect.seat, mine.seat);
    }
}
