//! Rounds of one user and the collector on a table of four pages, on one thread.
ghost use Rattle.std.specs.Prelude.{◌≡◌, ◌+◌, ◌*◌, ◌<◌, ◌≤◌, length, IfSome};
ghost use Rattle.layout_tuner.specs.Closed.{HasNewSeats};
ghost use Rattle.layout_tuner.specs.Sits.{Sits, Attends, known_by, known_by_collector};
ghost use Rattle.tune_speed.specs.declared.rounds.TheConstants.{PLACES};
ghost use Rattle.tune_speed.specs.Ready.{IsReady};

use layout_tuner::{CollectSeat, TuneSeat, TuneTable};
use std::alloc::Global;
use std::marker::Brand;
use std::sync::ledger::{Blank, Ledger};
use trace_base::steps::Steps;
use tune_run::give_all;

/// What is timed.
#[derive(Clone, Copy)]
pub enum Kind {
    Claim,
    Vain,
    Retile,
    Collect,
}

/// The places of all pages.
const PLACES: u64 = 56;

/// A chunk is claimed and given back, so many times: how often one was won.
fn claim_rounds<L: Ledger>(
    table: &TuneTable,
    seat: &mut TuneSeat,
    rounds: u32,
    steps: &mut Steps<L>,
) -> u64
    requires seat { Sits table.now seat.old }
    ensures won { length (known_by seat.new).sights ≡ length (known_by seat.old).sights + result }
    ensures seat { Sits table.now seat.new }
{
    let mut won = 0;
    for _round in 0..rounds {
        if let Some(claimed) = table.claim(seat, steps) {
            table.give(seat, claimed);
            won += 1;
        }
    }
    won
}

/// Chunks are claimed, begun and completed until none is free, which nobody collects, and then asked
/// for so many times: how often none was free.
fn vain_rounds<L: Ledger>(
    table: &TuneTable,
    seat: &mut TuneSeat,
    rounds: u32,
    steps: &mut Steps<L>,
) -> u64
    requires seat { Sits table.now seat.old }
    ensures vain { length (known_by seat.new).sights + result ≡ length (known_by seat.old).sights + PLACES + rounds }
    ensures seat { Sits table.now seat.new }
{
    let mut vain = 0;
    for _round in 0..PLACES + u64::from(rounds) {
        match table.claim(seat, steps) {
            Some(claimed) => {
                let held = table.begin(seat, claimed);
                table.complete(seat, held);
            }
            None => vain += 1,
        }
    }
    vain
}

/// A page is partitioned anew, and its chunks are given back: 1, or 0 where it wasn't.
fn retile_back<L: Ledger>(
    table: &TuneTable,
    seat: &mut TuneSeat,
    page: u8,
    layout: u8,
    steps: &mut Steps<L>,
) -> u64
    requires seat { IsReady table.now seat.old }
    requires page { page < 4 }
    requires least { 1 ≤ layout }
    requires most { layout ≤ 5 }
    ensures done { length (known_by seat.new).retiled ≡ length (known_by seat.old).retiled + result }
    ensures most { result ≤ 1 }
    ensures seat { IsReady table.now seat.new }
{
    match table.retile(seat, page, layout, steps) {
        Ok(tile) => {
            give_all(table, seat, tile, steps);
            1
        }
        Err(_) => 0,
    }
}

/// Through all pages and layouts: how often a page was partitioned anew.
fn retile_rounds<L: Ledger>(
    table: &TuneTable,
    seat: &mut TuneSeat,
    rounds: u32,
    steps: &mut Steps<L>,
) -> u64
    requires seat { IsReady table.now seat.old }
    ensures done { length (known_by seat.new).retiled ≡ length (known_by seat.old).retiled + result }
    ensures seat { IsReady table.now seat.new }
{
    let mut done = 0;
    for round in 0..rounds {
        let page = (round % 4) as u8;
        let layout = (round % 5) as u8 + 1;
        done += retile_back(table, seat, page, layout, steps);
    }
    done
}

/// A chunk is claimed, begun and completed, and the collector goes over all places: how many it took.
fn collect_rounds<L: Ledger>(
    table: &TuneTable,
    seat: &mut TuneSeat,
    collect: &mut CollectSeat,
    rounds: u32,
    steps: &mut Steps<L>,
) -> u64
    requires table { table.now.shape.pages ≡ 4 }
    requires seat { Sits table.now seat.old }
    requires collect { Attends table.now collect.old }
    ensures taken { length (known_by_collector collect.new).taken ≡ length (known_by_collector collect.old).taken + result }
{
    let mut taken = 0;
    for _round in 0..rounds {
        if let Some(claimed) = table.claim(seat, steps) {
            let held = table.begin(seat, claimed);
            table.complete(seat, held);
        }
        taken += u64::from(table.collect(collect));
    }
    taken
}

/// The user's seat, out of its list.
fn only_seat(table: &TuneTable, seats: Vec<TuneSeat>) -> Option<TuneSeat>
    requires four { table.now.shape.pages ≡ 4 }
    requires seats { HasNewSeats table.now 1 seats.items }
    ensures { IfSome result (IsReady table.now) }
{
    // The table is named for the proof alone.
    let _ = table;
    let mut seats = seats;
    match seats.pop() {
        Some(seat) => Some(seat),
        None => None,
    }
}

/// The rounds on a table of their own. None where no memory is left.
fn go<L: Ledger>(alloc: Global, kind: Kind, rounds: u32, blank: Blank) -> Option<u64>
    requires name { blank.name ≡ L.name }
    requires parts { blank.parts ≡ L.parts }
    requires some_part { 0 < L.parts }
{
    let Ok((table, seats, mut collect)) = TuneTable::make(alloc, 4, 1) else {
        return None;
    };
    let mut seat = only_seat(&table, seats)?;
    let mut steps = Steps::<L>::new(blank);
    let done = match kind {
        Kind::Claim => claim_rounds(&table, &mut seat, rounds, &mut steps),
        Kind::Vain => vain_rounds(&table, &mut seat, rounds, &mut steps),
        Kind::Retile => retile_rounds(&table, &mut seat, rounds, &mut steps),
        Kind::Collect => collect_rounds(&table, &mut seat, &mut collect, rounds, &mut steps),
    };
    Some(done)
}

/// So many rounds, on a table of their own. None where no memory is left.
pub fn go_rounds(alloc: Global, kind: Kind, rounds: u32) -> Option<u64> {
    go::<Brand>(alloc, kind, rounds, Blank::new(1))
}
