//! The words of pages, as users claim their chunks and partition them anew.
ghost use Rattle.std.specs.Prelude.{◌≡◌, ℕ, ◌<◌, ◌≤◌, IfOk, IfSome};
ghost use Rattle.layout_tuner.specs.Closed.{HasNewSeats};
ghost use Rattle.layout_tuner.specs.Sits.{known_by};
ghost use Rattle.tune_rows.specs.Hands.{HasNone};

use layout_tuner::{LAST_GENERATION, TuneFault, TuneSeat, TuneTable};
use std::alloc::Global;
use std::marker::Brand;
use std::sync::ledger::{Blank, Ledger};
use std::test::Fail;
use trace_base::steps::Steps;
use tune_run::give_all;

/// Partitions a page anew and gives its chunks back: the fault, where there was one.
fn retile_back<L: Ledger>(
    table: &TuneTable,
    seat: &mut TuneSeat,
    page: u8,
    layout: u8,
    steps: &mut Steps<L>,
) -> Option<TuneFault>
    requires seat { HasNone table.now seat.old }
    requires page { page < 4 }
    requires least { 1 ≤ layout }
    requires most { layout ≤ 5 }
    ensures seat { HasNone table.now seat.new }
    ensures held { (known_by seat.new).held ≡ (known_by seat.old).held }
{
    match table.retile(seat, page, layout, steps) {
        Ok(tile) => {
            give_all(table, seat, tile, steps);
            None
        }
        Err(fault) => Some(fault),
    }
}

/// A page that one user has partitioned anew, as another user finds it.
fn tiled<L: Ledger>(
    table: &TuneTable,
    first: &mut TuneSeat,
    second: &mut TuneSeat,
    steps: &mut Steps<L>,
) -> Option<TuneFault>
    requires first { HasNone table.now first.old }
    requires second { HasNone table.now second.old }
    ensures first { HasNone table.now first.new }
    ensures second { HasNone table.now second.new }
{
    let Ok(tile) = table.retile(first, 3, 4, steps) else {
        return None;
    };
    let found = retile_back(table, second, 3, 1, steps);
    give_all(table, first, tile, steps);
    found
}

/// A page of which a chunk is held, as its user finds it twice.
fn held<L: Ledger>(
    table: &TuneTable,
    seat: &mut TuneSeat,
    steps: &mut Steps<L>,
) -> (Option<TuneFault>, Option<TuneFault>)
    requires seat { HasNone table.now seat.old }
    ensures seat { HasNone table.now seat.new }
{
    let Some(claimed) = table.claim(seat, steps) else {
        return (None, None);
    };
    let held = table.begin(seat, claimed);
    let once = retile_back(table, seat, 0, 4, steps);
    let again = retile_back(table, seat, 0, 2, steps);
    table.complete(seat, held);
    (once, again)
}

/// Partitions a page so often as its word can count, and once more: how often it went well, and the
/// last answer.
fn worn<L: Ledger>(
    table: &TuneTable,
    seat: &mut TuneSeat,
    steps: &mut Steps<L>,
) -> (u32, Option<TuneFault>)
    requires seat { HasNone table.now seat.old }
{
    let mut well = 0;
    for _round in 0..LAST_GENERATION {
        if retile_back(table, seat, 1, 1, steps).is_none() {
            well += 1;
        }
    }
    (well, retile_back(table, seat, 1, 2, steps))
}

/// The seats of the two users, out of their list.
fn both(table: &TuneTable, mut seats: Vec<TuneSeat>) -> Option<(TuneSeat, TuneSeat)>
    requires four { table.now.shape.pages ≡ 4 }
    requires seats { HasNewSeats table.now 2 seats.items }
    ensures first { IfSome result (λ pair. HasNone table.now pair.0) }
    ensures second { IfSome result (λ pair. HasNone table.now pair.1) }
{
    let (Some(second), Some(first)) = (seats.pop(), seats.pop()) else {
        return None;
    };
    Some((first, second))
}

/// What is found on a new table, in turn.
fn found<L: Ledger>(alloc: Global, blank: Blank) -> Result<[Option<TuneFault>; 4], Fail>
    requires name { blank.name ≡ L.name }
    requires parts { blank.parts ≡ L.parts }
    requires some_part { 0 < L.parts }
{
    let (table, seats, _collect) = TuneTable::make(alloc, 4, 2)?;
    let Some((mut first, mut second)) = both(&table, seats) else {
        return Err(Fail::new("a user has no seat"));
    };
    let mut steps = Steps::<L>::new(blank);
    let tiled = tiled(&table, &mut first, &mut second, &mut steps);
    let (once, again) = held(&table, &mut second, &mut steps);
    let (well, last) = worn(&table, &mut first, &mut steps);
    if well < LAST_GENERATION {
        return Err(Fail::new("a page wore out too early"));
    }
    Ok([tiled, once, again, last])
}

#[test]
fn page_words_say_who_has_a_page(rt: HostRuntime) -> Result<(), Fail> {
    let found = found::<Brand>(rt.alloc(), Blank::new(1))?;
    let tiled = TuneFault::Busy {
        word: 0x0000_7fff_4000_0000,
    };
    let held = TuneFault::Busy {
        word: 0x0000_0001_5000_0001,
    };
    let want = [Some(tiled), Some(held), Some(held), Some(TuneFault::Worn)];
    assert_eq!(rt; found, want);
    Ok(())
}
