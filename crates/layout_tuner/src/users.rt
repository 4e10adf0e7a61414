//! The calls of a user's seat on single chunks. None tries again, waits or takes memory.
ghost use Rattle.std.specs.Prelude.{◌≡◌, ℕ, ◌+◌, ◌*◌, IfSome, IfNone};
ghost use Rattle.layout_tuner.specs.PageWords.{spot};
ghost use Rattle.layout_tuner.specs.Knows.{begins, completes, gives};
ghost use Rattle.layout_tuner.specs.Claiming.{AsksInVain, ClaimsFirst};
ghost use Rattle.layout_tuner.specs.Sits.{Sits, HasClaimed, HasHeld, known_by};

use crate::seats::TuneSeat;
use crate::table::TuneTable;
use crate::tokens::{TuneClaimed, TuneHeld};
use page_geometry::PageWord;
use std::sync::ledger::Ledger;
use trace_base::limits::MAX_CHUNKS_PER_PAGE;
use trace_base::steps::Steps;

impl TuneTable {
    /// Claims the first chunk that is free when its turn comes. `steps` counts the claims.
    pub fn claim<L: Ledger>(&self, seat: &mut TuneSeat, steps: &mut Steps<L>) -> Option<TuneClaimed>
        requires seat { Sits self.now seat.old }
        ensures won { IfSome result (λ claimed. ClaimsFirst claimed.page claimed.place (known_by seat.old) (known_by seat.new)) }
        ensures has { IfSome result (λ claimed. HasClaimed self.now (known_by seat.new) claimed.page claimed.place) }
        ensures lost { IfNone result (AsksInVain (14 * self.now.shape.pages) (known_by seat.old) (known_by seat.new)) }
        ensures steps_won { IfSome result (λ claimed. steps.new ≡ steps.old + spot claimed.page claimed.place + 1) }
        ensures steps_lost { IfNone result (steps.new ≡ steps.old + 14 * self.now.shape.pages) }
        ensures seat { Sits self.now seat.new }
        ensures number { seat.new.number ≡ seat.old.number }
    {
        for page in 0..self.shape.pages {
            for place in 0..MAX_CHUNKS_PER_PAGE {
                steps.tick();
                let found = self.step_claim(seat, page, place);
                if !PageWord(found).claimed(place) {
                    return Some(TuneClaimed { page, place });
                }
            }
        }
        None
    }

    /// Begins a chunk that was claimed: the user holds it then.
    pub fn begin(&self, seat: &mut TuneSeat, claimed: TuneClaimed) -> TuneHeld
        requires seat { Sits self.now seat.old }
        requires claimed { HasClaimed self.now (known_by seat.old) claimed.page claimed.place }
        ensures page { result.page ≡ claimed.page }
        ensures place { result.place ≡ claimed.place }
        ensures view { known_by seat.new ≡ begins (known_by seat.old) (spot claimed.page claimed.place) }
        ensures held { HasHeld self.now (known_by seat.new) result.page result.place }
        ensures seat { Sits self.now seat.new }
        ensures number { seat.new.number ≡ seat.old.number }
    {
        let TuneClaimed { page, place } = claimed;
        self.step_begin(seat, page, place);
        TuneHeld { page, place }
    }

    /// Completes a chunk that is held. It waits for the collector then.
    pub fn complete(&self, seat: &mut TuneSeat, held: TuneHeld)
        requires seat { Sits self.now seat.old }
        requires held { HasHeld self.now (known_by seat.old) held.page held.place }
        ensures view { known_by seat.new ≡ completes (known_by seat.old) (spot held.page held.place) }
        ensures seat { Sits self.now seat.new }
        ensures number { seat.new.number ≡ seat.old.number }
    {
        let TuneHeld { page, place } = held;
        self.step_complete(seat, page, place);
    }

    /// Gives back a chunk that was claimed: it is free then.
    pub fn give(&self, seat: &mut TuneSeat, claimed: TuneClaimed)
        requires seat { Sits self.now seat.old }
        requires claimed { HasClaimed self.now (known_by seat.old) claimed.page claimed.place }
        ensures view { known_by seat.new ≡ gives (known_by seat.old) (spot claimed.page claimed.place) }
        ensures seat { Sits self.now seat.new }
        ensures number { seat.new.number ≡ seat.old.number }
    {
        let TuneClaimed { page, place } = claimed;
        self.step_give(seat, page, place);
    }
}
