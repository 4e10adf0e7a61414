//! The steps of the collector's seat: each is one atomic step on the word of a page.
ghost use Rattle.std.specs.Prelude.{◌≡◌, ℕ, ◌+◌, ◌<◌, []};
ghost use Rattle.chunk_plain.specs.Owned.{times};
ghost use Rattle.layout_tuner.specs.PageWords.{spot, is_full};
ghost use Rattle.layout_tuner.specs.Knows.{Full, made_of, joined_of, takes_in, lets_go};
ghost use Rattle.layout_tuner.specs.Plays.{Looks, watch_for};
ghost use Rattle.layout_tuner.specs.Sits.{Serving, known_by_collector, watched_by};

use crate::moves::Move;
use crate::seats::CollectSeat;
use crate::steps::{make_and, make_load};
use crate::table::TuneTable;
use page_geometry::masks::{release_mask, take_mask};
use trace_base::limits::MAX_CHUNKS_PER_PAGE;

impl TuneTable {
    /// Reads the word of a place, and watches its chunk where it is complete.
    pub(crate) fn step_look(&self, seat: &mut CollectSeat, page: u8, place: u8) -> u64
        requires seat { Serving self.now seat.old }
        requires page { page < self.now.shape.pages }
        requires place { place < MAX_CHUNKS_PER_PAGE }
        ensures seat { Serving self.now seat.new }
        ensures looks { Looks self.now.shape.users page place (known_by_collector seat.old) result (known_by_collector seat.new) }
        ensures watch { watched_by seat.new ≡ watch_for page place result }
    {
        let step = Move::Look {
            users: self.shape.users,
            page,
            place,
        };
        let table = &self.table;
        make_load(&table.shared, &mut seat.seat, self.page_index(page), &step)
    }

    /// Takes a chunk that is watched.
    pub(crate) fn step_take(&self, seat: &mut CollectSeat, page: u8, place: u8)
        requires seat { Serving self.now seat.old }
        requires page { page < self.now.shape.pages }
        requires place { place < MAX_CHUNKS_PER_PAGE }
        requires watch { watched_by seat.old ≡ Full page place }
        ensures seat { Serving self.now seat.new }
        ensures view { known_by_collector seat.new ≡ takes_in (known_by_collector seat.old) (spot page place) }
    {
        let table = &self.table;
        make_and(
            &table.shared,
            &mut seat.seat,
            self.page_index(page),
            take_mask(place),
            &Move::Take { page, place },
        );
    }

    /// Gives a chunk back that was taken.
    pub(crate) fn step_release(&self, seat: &mut CollectSeat, page: u8, place: u8)
        requires seat { Serving self.now seat.old }
        requires page { page < self.now.shape.pages }
        requires place { place < MAX_CHUNKS_PER_PAGE }
        requires reading { 0 < times (spot page place) (known_by_collector seat.old).reading }
        ensures seat { Serving self.now seat.new }
        ensures view { known_by_collector seat.new ≡ lets_go (known_by_collector seat.old) (spot page place) }
    {
        let table = &self.table;
        make_and(
            &table.shared,
            &mut seat.seat,
            self.page_index(page),
            release_mask(place),
            &Move::Release { page, place },
        );
    }
}
