//! The steps of a user's seat: each is one atomic step on the word of a page, but for a claim, which
//! reads the word before it changes it.
ghost use Rattle.std.specs.Prelude.{◌≡◌, ℕ, ◌+◌, ◌<◌};
ghost use Rattle.layout_tuner.specs.PageWords.{spot, chunks_of};
ghost use Rattle.layout_tuner.specs.Knows.{begins, completes, gives, retiles};
ghost use Rattle.layout_tuner.specs.Plays.{Claims, Tests, HasPage};
ghost use Rattle.layout_tuner.specs.Retiling.{CanBePartitioned};
ghost use Rattle.layout_tuner.specs.Sits.{Sits, HasClaimed, HasHeld, known_by};

use crate::moves::Move;
use crate::seats::TuneSeat;
use crate::steps::{make_and, make_load, make_or, make_store};
use crate::table::{LAST_GENERATION, TuneTable, chunk_count, tiled_word};
use page_geometry::PageWord;
use page_geometry::masks::{begin_mask, claim_bit, complete_mask};
use trace_base::limits::MAX_CHUNKS_PER_PAGE;

impl TuneTable {
    /// Claims a place. A claim whose bit is set already changes nothing, so a load that finds it set is
    /// all of it: it leaves the word's cache line with all cores that read it, where an or would take
    /// the line away from them. Else the or decides, whatever the load found.
    pub(crate) fn step_claim(&self, seat: &mut TuneSeat, page: u8, place: u8) -> u64
        requires seat { Sits self.now seat.old }
        requires page { page < self.now.shape.pages }
        requires place { place < MAX_CHUNKS_PER_PAGE }
        ensures seat { Sits self.now seat.new }
        ensures number { seat.new.number ≡ seat.old.number }
        ensures claims { Claims page place (known_by seat.old) result (known_by seat.new) }
    {
        let found = self.step_test(seat, page, place);
        if PageWord(found).claimed(place) {
            return found;
        }
        self.step_set(seat, page, place)
    }

    /// Reads the word of a place before a claim.
    fn step_test(&self, seat: &mut TuneSeat, page: u8, place: u8) -> u64
        requires seat { Sits self.now seat.old }
        requires page { page < self.now.shape.pages }
        requires place { place < MAX_CHUNKS_PER_PAGE }
        ensures seat { Sits self.now seat.new }
        ensures number { seat.new.number ≡ seat.old.number }
        ensures tests { Tests page place (known_by seat.old) result (known_by seat.new) }
    {
        let step = Move::Test { page, place };
        let table = &self.table;
        make_load(&table.shared, &mut seat.seat, self.page_index(page), &step)
    }

    /// Sets the claim bit of a place.
    fn step_set(&self, seat: &mut TuneSeat, page: u8, place: u8) -> u64
        requires seat { Sits self.now seat.old }
        requires page { page < self.now.shape.pages }
        requires place { place < MAX_CHUNKS_PER_PAGE }
        ensures seat { Sits self.now seat.new }
        ensures number { seat.new.number ≡ seat.old.number }
        ensures claims { Claims page place (known_by seat.old) result (known_by seat.new) }
    {
        let table = &self.table;
        make_or(
            &table.shared,
            &mut seat.seat,
            self.page_index(page),
            claim_bit(place),
            &Move::Claim { page, place },
        )
    }

    /// Begins a chunk that is claimed.
    pub(crate) fn step_begin(&self, seat: &mut TuneSeat, page: u8, place: u8)
        requires seat { Sits self.now seat.old }
        requires claimed { HasClaimed self.now (known_by seat.old) page place }
        ensures seat { Sits self.now seat.new }
        ensures number { seat.new.number ≡ seat.old.number }
        ensures view { known_by seat.new ≡ begins (known_by seat.old) (spot page place) }
    {
        let table = &self.table;
        make_or(
            &table.shared,
            &mut seat.seat,
            self.page_index(page),
            begin_mask(place),
            &Move::Begin { page, place },
        );
    }

    /// Completes a chunk that is held.
    pub(crate) fn step_complete(&self, seat: &mut TuneSeat, page: u8, place: u8)
        requires seat { Sits self.now seat.old }
        requires held { HasHeld self.now (known_by seat.old) page place }
        ensures seat { Sits self.now seat.new }
        ensures number { seat.new.number ≡ seat.old.number }
        ensures view { known_by seat.new ≡ completes (known_by seat.old) (spot page place) }
    {
        let table = &self.table;
        make_or(
            &table.shared,
            &mut seat.seat,
            self.page_index(page),
            complete_mask(place),
            &Move::Complete { page, place },
        );
    }

    /// Clears the claim bit of a chunk that is claimed.
    pub(crate) fn step_give(&self, seat: &mut TuneSeat, page: u8, place: u8)
        requires seat { Sits self.now seat.old }
        requires claimed { HasClaimed self.now (known_by seat.old) page place }
        ensures seat { Sits self.now seat.new }
        ensures number { seat.new.number ≡ seat.old.number }
        ensures view { known_by seat.new ≡ gives (known_by seat.old) (spot page place) }
    {
        let mask = !claim_bit(place);
        let table = &self.table;
        make_and(
            &table.shared,
            &mut seat.seat,
            self.page_index(page),
            mask,
            &Move::Give { page, place },
        );
    }

    /// Stores the word of another layout. The user has claimed all chunks of the page, so nobody else
    /// has a chunk of it, and no other store or change of its word that matters can come between.
    pub(crate) fn step_retile(
        &self,
        seat: &mut TuneSeat,
        page: u8,
        old_layout: u8,
        old_generation: u32,
        layout: u8,
    )
        requires seat { Sits self.now seat.old }
        requires page { CanBePartitioned self.now.shape page layout }
        requires has { HasPage (known_by seat.old) page old_layout old_generation }
        requires unworn { old_generation < LAST_GENERATION }
        ensures seat { Sits self.now seat.new }
        ensures number { seat.new.number ≡ seat.old.number }
        ensures view { known_by seat.new
            ≡ retiles (known_by seat.old) page layout (chunks_of layout) (old_generation + 1) }
    {
        // The layout so far is named for the proof alone.
        let _ = old_layout;
        let generation = old_generation + 1;
        let step = Move::Retile {
            page,
            layout,
            chunks: chunk_count(layout),
            generation,
        };
        let table = &self.table;
        make_store(
            &table.shared,
            &mut seat.seat,
            self.page_index(page),
            tiled_word(layout, generation),
            &step,
        );
    }
}
