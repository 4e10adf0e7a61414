//! A page is partitioned anew.
ghost use Rattle.std.specs.Prelude.{◌≡◌, ℕ, ◌+◌, ◌<◌, ◌≤◌, length, IfOk, IfErr};
ghost use Rattle.chunk_plain.specs.Owned.{times};
ghost use Rattle.layout_tuner.specs.PageWords.{spot};
ghost use Rattle.layout_tuner.specs.Retiling.{CanBePartitioned, Retiles, Refuses, GivesFirst, most_steps};
ghost use Rattle.layout_tuner.specs.Sits.{Sits, known_by};

use crate::seats::TuneSeat;
use crate::table::{LAST_GENERATION, TuneTable, chunk_count, generation_of, layout_of};
use crate::tokens::{TuneFault, TunePage};
use page_geometry::PageWord;
use std::sync::ledger::Ledger;
use trace_base::limits::MAX_CHUNKS_PER_PAGE;
use trace_base::steps::Steps;

impl TuneTable {
    /// Claims all chunks of a page, and gives the page another layout. Its chunks are then claimed by
    /// this user. `steps` counts the claims, the store, and what a refusal gives back.
    pub fn retile<L: Ledger>(
        &self,
        seat: &mut TuneSeat,
        page: u8,
        layout: u8,
        steps: &mut Steps<L>,
    ) -> Result<TunePage, TuneFault>
        requires seat { Sits self.now seat.old }
        requires page { CanBePartitioned self.now.shape page layout }
        ensures ok { IfOk result (λ tile. Retiles page layout tile (known_by seat.old) (known_by seat.new)) }
        ensures steps_ok { IfOk result (λ _. steps.new + length (known_by seat.old).asked
            ≡ steps.old + length (known_by seat.new).asked + 1) }
        ensures refused { IfErr result (λ fault. Refuses page fault (known_by seat.old) (known_by seat.new)) }
        ensures steps_refused { IfErr result (λ fault. steps.new ≤ steps.old + most_steps fault (known_by seat.old) (known_by seat.new)) }
        ensures seat { Sits self.now seat.new }
        ensures number { seat.new.number ≡ seat.old.number }
    {
        steps.tick();
        let first = self.step_claim(seat, page, 0);
        if PageWord(first).claimed(0) {
            return Err(TuneFault::Busy { word: first });
        }
        let old_layout = layout_of(first);
        let old_chunks = chunk_count(old_layout);
        for place in 1..old_chunks {
            steps.tick();
            let found = self.step_claim(seat, page, place);
            if PageWord(found).claimed(place) {
                self.give_first(seat, page, place, steps);
                return Err(TuneFault::Busy { word: found });
            }
        }
        let generation = generation_of(first);
        if generation == LAST_GENERATION {
            self.give_first(seat, page, old_chunks, steps);
            return Err(TuneFault::Worn);
        }
        steps.tick();
        self.step_retile(seat, page, old_layout, generation, layout);
        Ok(TunePage {
            page,
            handed: 0,
            chunks: chunk_count(layout),
        })
    }

    /// Gives back the first so many chunks of a page, which the user claimed last, the last one first.
    fn give_first<L: Ledger>(&self, seat: &mut TuneSeat, page: u8, count: u8, steps: &mut Steps<L>)
        requires seat { Sits self.now seat.old }
        requires page { page < self.now.shape.pages }
        requires count { count ≤ MAX_CHUNKS_PER_PAGE }
        requires has { (place : ℕ) → place < count → 0 < times (spot page place) (known_by seat.old).claimed }
        ensures given { GivesFirst page count (known_by seat.old) (known_by seat.new) }
        ensures steps { steps.new ≡ steps.old + count }
        ensures seat { Sits self.now seat.new }
        ensures number { seat.new.number ≡ seat.old.number }
    {
        let mut left = count;
        while left > 0 {
            left -= 1;
            steps.tick();
            self.step_give(seat, page, left);
        }
    }
}
