//! The turns of one user.
ghost use Rattle.std.specs.Prelude.{◌≡◌, ℕ, ◌+◌, ◌*◌, ◌%◌, ◌<◌, ◌≤◌, []};
ghost use Rattle.layout_tuner.specs.Knows.{first_spots};
ghost use Rattle.layout_tuner.specs.Retiling.{CanBePartitioned};
ghost use Rattle.layout_tuner.specs.Sits.{Sits, known_by};
ghost use Rattle.tune_run.specs.declared.turns.TheConstants.{MAX_TURNS};
ghost use Rattle.tune_run.specs.Turns.{MayTurn, IsFree, DoesClaim, DoesRetile, DoesTurn, TakesTurns, AddsUp};

use crate::counts::{Deed, UserCounts};
use layout_tuner::{TunePage, TuneSeat, TuneTable};
use std::sync::ledger::Ledger;
use trace_base::steps::Steps;

/// The turns of a user, of which there is at least one.
pub const MAX_TURNS: u32 = 10_000;

/// Claims a chunk, and begins and completes it where one was free.
fn claim_turn<L: Ledger>(table: &TuneTable, seat: &mut TuneSeat, steps: &mut Steps<L>) -> Deed
    requires seat { Sits table.now seat.old }
    ensures deed { DoesClaim table.now.shape.pages result (known_by seat.old) (known_by seat.new) }
    ensures seat { Sits table.now seat.new }
    ensures number { seat.new.number ≡ seat.old.number }
{
    let Some(claimed) = table.claim(seat, steps) else {
        return Deed::FoundNone;
    };
    steps.tick();
    let held = table.begin(seat, claimed);
    steps.tick();
    table.complete(seat, held);
    Deed::Completed
}

/// Gives back all chunks of a page that was partitioned anew, none of which was handed out.
pub fn give_all<L: Ledger>(
    table: &TuneTable,
    seat: &mut TuneSeat,
    tile: TunePage,
    steps: &mut Steps<L>,
)
    requires seat { Sits table.now seat.old }
    requires page { tile.page < table.now.shape.pages }
    requires none { tile.handed ≡ 0 }
    requires few { tile.chunks ≤ 14 }
    requires claimed { (known_by seat.old).claimed ≡ first_spots tile.page tile.chunks }
    ensures view { known_by seat.new ≡ record (known_by seat.old) { claimed = [] } }
    ensures seat { Sits table.now seat.new }
    ensures number { seat.new.number ≡ seat.old.number }
{
    let mut tile = tile;
    while let Some(claimed) = tile.next() {
        steps.tick();
        table.give(seat, claimed);
    }
    tile.done();
}

/// Partitions a page anew, and gives its chunks back.
fn retile_turn<L: Ledger>(
    table: &TuneTable,
    seat: &mut TuneSeat,
    page: u8,
    layout: u8,
    steps: &mut Steps<L>,
) -> Deed
    requires seat { Sits table.now seat.old }
    requires free { IsFree (known_by seat.old) }
    requires page { CanBePartitioned table.now.shape page layout }
    ensures deed { DoesRetile page layout result (known_by seat.old) (known_by seat.new) }
    ensures seat { Sits table.now seat.new }
    ensures number { seat.new.number ≡ seat.old.number }
{
    match table.retile(seat, page, layout, steps) {
        Ok(tile) => {
            give_all(table, seat, tile, steps);
            Deed::Partitioned
        }
        Err(_) => Deed::Refused,
    }
}

/// One turn of a user. Users and turns count from 1.
fn one_turn<L: Ledger>(
    table: &TuneTable,
    seat: &mut TuneSeat,
    user: u8,
    turn: u32,
    steps: &mut Steps<L>,
) -> Deed
    requires table { table.now.shape.pages ≡ 4 }
    requires seat { Sits table.now seat.old }
    requires free { IsFree (known_by seat.old) }
    requires turn { turn ≤ MAX_TURNS }
    ensures turn { DoesTurn table.now.shape.pages user turn result (known_by seat.old) (known_by seat.new) }
    ensures seat { Sits table.now seat.new }
    ensures number { seat.new.number ≡ seat.old.number }
{
    let both = u32::from(user) + turn;
    if both % 3 == 0 {
        let page = (turn % 4) as u8;
        let layout = (both % 5 + 1) as u8;
        retile_turn(table, seat, page, layout, steps)
    } else {
        claim_turn(table, seat, steps)
    }
}

/// The turns of the user with this number, which counts from 1 and isn't that of its seat. `steps`
/// counts the atomic steps.
pub fn tune_turns<L: Ledger>(
    table: &TuneTable,
    seat: &mut TuneSeat,
    user: u8,
    turns: u32,
    steps: &mut Steps<L>,
) -> UserCounts
    requires turns { MayTurn table.now turns }
    requires user { (1 ≤ user) × (user ≤ 8) }
    requires seat { Sits table.now seat.old }
    requires free { IsFree (known_by seat.old) }
    ensures turns { TakesTurns table.now.shape.pages user turns (known_by seat.old) (known_by seat.new) result }
    ensures sums { AddsUp user turns result (known_by seat.old) (known_by seat.new) }
    ensures seat { Sits table.now seat.new }
    ensures number { seat.new.number ≡ seat.old.number }
{
    let mut counts = UserCounts::new();
    for turn in 0..turns {
        let deed = one_turn(table, seat, user, turn + 1, steps);
        counts.count(deed);
    }
    counts
}
