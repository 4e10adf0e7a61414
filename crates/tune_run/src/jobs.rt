//! Users take their turns on threads of their own, beside the collector.
ghost use Rattle.std.specs.Prelude.{◌≡◌, ◌<◌, ◌≤◌, length};
ghost use Rattle.layout_tuner.specs.Sits.{Attends, known_by_collector};
ghost use Rattle.tune_run.specs.declared.turns.TheConstants.{MAX_TURNS};
ghost use Rattle.tune_run.specs.Jobs.{IsReady, IsPlayed, AreReady, ArePlayed, CollectsRounds};
ghost use Rattle.tune_run.specs.Turns.{MayTurn};

use crate::counts::UserCounts;
use crate::turns::tune_turns;
use byte_io::traits::Gate;
use layout_tuner::{CollectSeat, TuneSeat, TuneTable};
use std::marker::Brand;
use std::sync::ledger::{Blank, Ledger};
use std::thread::{Threads, for_each_mut, join_mut};
use trace_base::steps::Steps;

/// A user, and what it did.
#[derive(Drop)]
pub(crate) struct UserJob {
    pub(crate) seat: TuneSeat,
    pub(crate) counts: UserCounts,
}

/// The turns of a user with a counter of its own.
fn counted_turns<L: Ledger>(table: &TuneTable, job: &mut UserJob, turns: u32, blank: Blank)
    requires turns { MayTurn table.now turns }
    requires ready { IsReady table.now job.old.seat.number job.old }
    requires name { blank.name ≡ L.name }
    requires parts { blank.parts ≡ L.parts }
    requires some_part { 0 < L.parts }
    ensures { IsPlayed table.now turns job.old.seat.number job.new }
{
    let mut steps = Steps::<L>::new(blank);
    let user = job.seat.number + 1;
    job.counts = tune_turns(table, &mut job.seat, user, turns, &mut steps);
}

/// The job of one user. It passes the gate before its first turn.
fn play_user<G: Gate>(gate: &G, table: &TuneTable, job: &mut UserJob, turns: u32)
    requires turns { MayTurn table.now turns }
    requires ready { IsReady table.now job.old.seat.number job.old }
    ensures { IsPlayed table.now turns job.old.seat.number job.new }
{
    gate.pass(u16::from(job.seat.number) + 1, 1);
    counted_turns::<Brand>(table, job, turns, Blank::new(1));
}

/// The jobs of all users, each on a thread of its own.
fn play_users<R: Threads + Sync, G: Gate + Sync>(
    rt: &R,
    gate: &G,
    table: &TuneTable,
    jobs: &mut [UserJob],
    turns: u32,
)
    requires turns { MayTurn table.now turns }
    requires some { 0 < length jobs.old }
    requires ready { AreReady table.now jobs.old }
    ensures { ArePlayed table.now turns jobs.new }
{
    let threads = jobs.len();
    for_each_mut(
        rt,
        jobs,
        threads,
        &|user: usize, job: &mut UserJob|
            requires { MayTurn table.now turns × IsReady table.now user job.now }
            ensures { IsPlayed table.entry.now turns user job.exit.now }
        {
            // The place is the number of the job's seat.
            let _ = user;
            play_user(gate, table, job, turns)
        },
    );
}

/// Rounds of the collector, which passes the gate before each; answers how many chunks it took.
fn collect_rounds<G: Gate>(
    gate: &G,
    table: &TuneTable,
    collect: &mut CollectSeat,
    rounds: u32,
) -> u64
    requires table { table.now.shape.pages ≡ 4 }
    requires collect { Attends table.now collect.old }
    requires rounds { rounds ≤ MAX_TURNS }
    ensures rounds { CollectsRounds rounds (known_by_collector collect.old) (known_by_collector collect.new) result }
    ensures collect { Attends table.now collect.new }
{
    let mut taken = 0;
    for round in 0..rounds {
        gate.pass(0, u64::from(round) + 1);
        taken += u64::from(table.collect(collect));
    }
    taken
}

/// The users' jobs beside the collector's; answers how many chunks it took.
pub(crate) fn run_beside<R: Threads + Sync, G: Gate + Sync>(
    rt: &R,
    gate: &G,
    table: &TuneTable,
    collect: &mut CollectSeat,
    jobs: &mut [UserJob],
    turns: u32,
) -> u64
    requires turns { MayTurn table.now turns }
    requires collect { Attends table.now collect.old }
    requires some { 0 < length jobs.old }
    requires ready { AreReady table.now jobs.old }
    ensures rounds { CollectsRounds turns (known_by_collector collect.old) (known_by_collector collect.new) result }
    ensures collect { Attends table.now collect.new }
    ensures played { ArePlayed table.now turns jobs.new }
{
    let (taken, ()) = join_mut(
        rt,
        &mut || collect_rounds(gate, table, collect, turns),
        &mut ||
            requires { MayTurn table.now turns × (0 < length jobs.now) × AreReady table.now jobs.now }
        { play_users(rt, gate, table, jobs, turns) },
    );
    taken
}
