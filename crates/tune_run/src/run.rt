//! A whole run: a table is made, users and the collector run beside each other on threads, and the
//! table is closed.
ghost use Rattle.std.specs.Prelude.{◌≡◌, ◌*◌, ◌≤◌, length, IfOk};
ghost use Rattle.layout_tuner.specs.Closed.{HasNewSeats};
ghost use Rattle.layout_tuner.specs.Sits.{Attends, known_by_collector};
ghost use Rattle.tune_run.specs.declared.turns.TheConstants.{MAX_TURNS};
ghost use Rattle.tune_run.specs.Jobs.{AreReady, ArePlayed};
ghost use Rattle.tune_run.specs.Told.{HasRoom, HaveTold, IsReport};

use crate::counts::UserCounts;
use crate::jobs::{UserJob, run_beside};
use byte_io::traits::Gate;
use layout_tuner::{CollectSeat, MAX_USERS, TuneSeat, TuneTable};
use std::alloc::{AllocError, Global};
use std::thread::Threads;

/// The pages of a run.
pub const PAGES: u8 = 4;

/// What came of a run: the counts of each user, how many chunks were collected, and the words of the
/// pages at the end.
#[derive(Debug, Drop)]
pub struct TuneReport {
    pub users: Vec<UserCounts>,
    pub taken: u64,
    pub words: Vec<u64>,
}

/// So many users take so many turns each, on threads of their own, beside as many rounds of the
/// collector, which collects once more when all are done. Each job passes the gate before it begins,
/// users by their numbers from 1 and the collector by 0. All that takes memory is made before the
/// threads.
pub fn run_tune<R: Threads + Sync, G: Gate + Sync>(
    rt: &R,
    gate: &G,
    alloc: Global,
    users: u8,
    turns: u32,
) -> Result<TuneReport, AllocError>
    requires some_user { 1 ≤ users }
    requires most_users { users ≤ MAX_USERS }
    requires some_turn { 1 ≤ turns }
    requires most_turns { turns ≤ MAX_TURNS }
    ensures { IfOk result (IsReport users turns) }
{
    let (table, seats, collect) = TuneTable::make(alloc, PAGES, users)?;
    let mut collect = collect;
    let room = Room {
        counts: Vec::with_capacity(alloc, users as usize)?,
        seats: Vec::with_capacity(alloc, users as usize)?,
    };
    let mut jobs = new_jobs(alloc, &table, seats)?;
    let taken = run_beside(rt, gate, &table, &mut collect, jobs.as_mut_slice(), turns);
    Ok(report(table, collect, jobs, turns, taken, room))
}

/// What the end of a run fills.
#[derive(Drop)]
struct Room {
    counts: Vec<UserCounts>,
    seats: Vec<TuneSeat>,
}

/// The jobs of users that have done nothing.
fn new_jobs(
    alloc: Global,
    table: &TuneTable,
    seats: Vec<TuneSeat>,
) -> Result<Vec<UserJob>, AllocError>
    requires users { table.now.shape.users ≤ MAX_USERS }
    requires seats { HasNewSeats table.now table.now.shape.users seats.items }
    ensures ready { IfOk result (λ jobs. AreReady table.now jobs.items) }
    ensures many { IfOk result (λ jobs. length jobs.items ≡ table.now.shape.users) }
{
    // The table is named for the proof alone.
    let _ = table;
    let mut jobs = Vec::with_capacity(alloc, seats.len())?;
    for seat in seats {
        jobs.push(UserJob {
            seat,
            counts: UserCounts::new(),
        })?;
    }
    Ok(jobs)
}

/// The users tell what they completed, the collector takes it, and the table is closed.
fn report(
    table: TuneTable,
    collect: CollectSeat,
    jobs: Vec<UserJob>,
    turns: u32,
    early: u64,
    room: Room,
) -> TuneReport
    requires pages { table.shape.pages ≡ 4 }
    requires collect { Attends table collect }
    requires taken { length (known_by_collector collect).taken ≡ early }
    requires early { early ≤ 56 * MAX_TURNS }
    requires played { ArePlayed table turns jobs.items }
    requires many { length jobs.items ≡ table.shape.users }
    requires room { HasRoom table.shape.users room }
    ensures { IsReport table.shape.users turns result }
{
    let mut collect = collect;
    let (counts, seats) = tell_all(&table, &mut collect, jobs, turns, room);
    let late = table.collect(&mut collect);
    let words = table.close(seats, collect);
    TuneReport {
        users: counts,
        taken: early + u64::from(late),
        words,
    }
}

/// Each user tells what it completed: the counts and the seats of all of them.
fn tell_all(
    table: &TuneTable,
    collect: &mut CollectSeat,
    jobs: Vec<UserJob>,
    turns: u32,
    room: Room,
) -> (Vec<UserCounts>, Vec<TuneSeat>)
    requires collect { Attends table.now collect.old }
    requires played { ArePlayed table.now turns jobs.items }
    requires room { HasRoom (length jobs.items) room }
    ensures told { HaveTold table.now turns (length jobs.items) (known_by_collector collect.new) result.0.items result.1.items }
    ensures taken { (known_by_collector collect.new).taken ≡ (known_by_collector collect.old).taken }
    ensures collect { Attends table.now collect.new }
{
    // The turns are named for the proof alone.
    let _ = turns;
    let Room {
        mut counts,
        mut seats,
    } = room;
    for job in jobs {
        let UserJob {
            mut seat,
            counts: done,
        } = job;
        table.tell(&mut seat, collect);
        counts.push_reserved(done);
        seats.push_reserved(seat);
    }
    (counts, seats)
}
