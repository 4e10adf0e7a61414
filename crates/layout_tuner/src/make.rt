//! A table is made with the seats of all users and of the collector.
ghost use Rattle.std.specs.Prelude.{◌≡◌, ℕ, ◌+◌, ◌<◌, ◌≤◌, [], IfOk, OnOk};
ghost use Rattle.layout_tuner.specs.declared.table.Shape.{Shape};
ghost use Rattle.layout_tuner.specs.Knows.{User, Collector, Nothing, newcomer, new_collector, made_of, joined_of, watch_of, collector_of};
ghost use Rattle.layout_tuner.specs.Closed.{HasNewSeats, IsNew};
ghost use Rattle.layout_tuner.specs.Sits.{IsCollector};

use crate::seats::{CollectSeat, TuneSeat};
use crate::steps::{Knowledge, PageSeat};
use crate::table::{FIRST_WORD, LINE_WORDS, MAX_TUNE_PAGES, MAX_USERS, Shape, TuneTable};
use atomic_table::{Split, Table};
use std::alloc::{AllocError, Global};

/// The collector makes the seat of the next user.
pub struct NextUser {}

impl Split<Knowledge> for NextUser {
    ghost use Rattle.layout_tuner.specs.Knows.{one_more, next_user};

    ghost left = { one_more };

    ghost right = { next_user };
}

impl TuneTable {
    /// A table of so many pages, with the seats of the users in their order and the collector's. Each
    /// page has 14 chunks, all free.
    pub fn make(
        alloc: Global,
        pages: u8,
        users: u8,
    ) -> Result<(TuneTable, Vec<TuneSeat>, CollectSeat), AllocError>
        requires some_page { 1 ≤ pages }
        requires most_pages { pages ≤ MAX_TUNE_PAGES }
        requires some_user { 1 ≤ users }
        requires most_users { users ≤ MAX_USERS }
        ensures { IfOk result (λ made. IsNew pages users made.0 made.1.items made.2) }
    {
        let shape = Shape { pages, users };
        let words = vec![in alloc; FIRST_WORD; pages as usize * LINE_WORDS]?;
        let last = vec![in alloc; 0; pages as usize]?;
        let (table, seat) = Table::of_words(alloc, &words, &shape)?;
        let table = TuneTable { shape, table, last };
        let mut collect = CollectSeat { seat };
        let seats = table.make_seats(alloc, &mut collect)?;
        Ok((table, seats, collect))
    }

    fn make_seats(
        &self,
        alloc: Global,
        collect: &mut CollectSeat,
    ) -> Result<Vec<TuneSeat>, AllocError>
        requires seat { collect.old.seat.table_id ≡ self.now.table.shared.table_id }
        requires me { collect.old.seat.me ≡ (Collector 0 [] Nothing new_collector, []) }
        ensures seats { IfOk result (λ seats. HasNewSeats self.now self.now.shape.users seats.items) }
        ensures seat { OnOk result (collect.new.seat.table_id ≡ collect.old.seat.table_id) }
        ensures me { OnOk result (collect.new.seat.me ≡ (Collector self.now.shape.users [] Nothing new_collector, [])) }
    {
        let mut seats = Vec::new(alloc);
        for number in 0..self.shape.users {
            let seat = self.next_seat(collect);
            seats.push(TuneSeat { number, seat })?;
        }
        Ok(seats)
    }

    /// The collector makes the next user's seat.
    fn next_seat(&self, collect: &mut CollectSeat) -> PageSeat
        requires seat { collect.old.seat.table_id ≡ self.now.table.shared.table_id }
        requires idle { IsCollector collect.old.seat.me }
        requires inside { made_of collect.old.seat.me.0 < self.now.shape.users }
        ensures seat { collect.new.seat.table_id ≡ collect.old.seat.table_id }
        ensures me { collect.new.seat.me ≡ (
          Collector (made_of collect.old.seat.me.0 + 1) (joined_of collect.old.seat.me.0)
              (watch_of collect.old.seat.me.0) (collector_of collect.old.seat.me.0),
          [],
        ) }
        ensures joined { result.table_id ≡ collect.old.seat.table_id }
        ensures made { result.me ≡ (User (made_of collect.old.seat.me.0) newcomer, []) }
    {
        let table = &self.table;
        table.shared.split_seat::<NextUser>(&mut collect.seat)
    }
}
