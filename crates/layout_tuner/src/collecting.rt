//! The calls of the collector's seat.
ghost use Rattle.std.specs.Prelude.{◌≡◌, ℕ, ◌+◌, ◌*◌, ◌<◌, ◌≤◌, length};
ghost use Rattle.layout_tuner.specs.Knows.{hears};
ghost use Rattle.layout_tuner.specs.Collecting.{Collects, CollectsOne, IsCaughtUp};
ghost use Rattle.layout_tuner.specs.Sits.{Sits, Attends, known_by, known_by_collector};

use crate::seats::{CollectSeat, TuneSeat};
use crate::steps::Knowledge;
use crate::table::TuneTable;
use atomic_table::{Join, Split};
use page_geometry::{ChunkState, PageWord};
use trace_base::limits::MAX_CHUNKS_PER_PAGE;

/// A user tells what it has completed.
pub struct Tells {}

impl Split<Knowledge> for Tells {
    ghost use Rattle.layout_tuner.specs.Knows.{same, tells};

    ghost left = { same };

    ghost right = { tells };
}

/// The collector hears it.
pub struct Hears {}

impl Join<Knowledge> for Hears {
    ghost use Rattle.layout_tuner.specs.Knows.{Spent, heard};

    ghost both = { heard };

    ghost spent = { Spent };
}

impl TuneTable {
    /// Looks at each place once, and takes and gives back each chunk that is complete; answers how
    /// many. All that users have told is taken then.
    pub fn collect(&self, seat: &mut CollectSeat) -> u32
        requires seat { Attends self.now seat.old }
        ensures collects { Collects (14 * self.now.shape.pages) (known_by_collector seat.old) (known_by_collector seat.new) }
        ensures count { length (known_by_collector seat.new).taken ≡ length (known_by_collector seat.old).taken + result }
        ensures most { result ≤ 14 * self.now.shape.pages }
        ensures caught_up { IsCaughtUp self.now.shape.users (14 * self.now.shape.pages) (known_by_collector seat.new) }
        ensures seat { Attends self.now seat.new }
    {
        let mut count = 0;
        for page in 0..self.shape.pages {
            for place in 0..MAX_CHUNKS_PER_PAGE {
                count += self.collect_one(seat, page, place);
            }
        }
        count
    }

    /// Looks at one place, and takes its chunk and gives it back where it is complete: 1, else 0.
    fn collect_one(&self, seat: &mut CollectSeat, page: u8, place: u8) -> u32
        requires seat { Attends self.now seat.old }
        requires page { page < self.now.shape.pages }
        requires place { place < MAX_CHUNKS_PER_PAGE }
        ensures collects { CollectsOne self.now.shape.users page place (known_by_collector seat.old) (known_by_collector seat.new) result }
        ensures seat { Attends self.now seat.new }
    {
        let found = self.step_look(seat, page, place);
        if PageWord(found).state(place) == ChunkState::Complete {
            self.step_take(seat, page, place);
            self.step_release(seat, page, place);
            1
        } else {
            0
        }
    }

    /// The user tells the collector what it has completed. Later looks find it.
    pub fn tell(&self, seat: &mut TuneSeat, collect: &mut CollectSeat)
        requires seat { Sits self.now seat.old }
        requires collect { Attends self.now collect.old }
        ensures told { known_by_collector collect.new
            ≡ hears (known_by_collector collect.old) seat.old.number (known_by seat.old).completed }
        ensures view { known_by seat.new ≡ known_by seat.old }
        ensures number { seat.new.number ≡ seat.old.number }
        ensures seat { Sits self.now seat.new }
        ensures collect { Attends self.now collect.new }
    {
        let table = &self.table;
        let report = table.shared.split_seat::<Tells>(&mut seat.seat);
        table.shared.join_seat::<Hears>(&mut collect.seat, report);
    }
}
