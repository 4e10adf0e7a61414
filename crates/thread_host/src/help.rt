//! The helpers of writers that stall, for ever or so often: one takes the service's lock and has the writer's producer collected. That of
//! a writer which begins no packet is never asked.
ghost use Rattle.std.specs.Prelude.{◌≡◌, true};
ghost use Rattle.run_model.specs.Collected.{has_asker};
ghost use Rattle.thread_host.specs.Keeping.{IsNamed, named_prop};

use crate::locked::{Locked, Takings};
use crate::name::{HostName, TakingsName};
use chunk_words::HostTable;
use crossbeam_utils::Backoff;
use std::sync::{Mutex, Wait};
use thread_writer::Helper;

/// Helps by the lock, as often as a `u64` counts, and then waits for ever. It counts how often it had
/// chunks of its producer taken.
#[derive(Drop)]
pub struct LockHelp<'a, N: HostName, R: Wait, L: TakingsName> {
    rt: &'a R,
    table: &'a HostTable,
    service: &'a Mutex<Locked<N>>,
    producer: u16,
    left: u64,
    takings: Takings<L>,
    /// How long it pauses where nothing was taken.
    backoff: Backoff,
    ghost named: { IsNamed N.table N.setup table.now } by { named_prop N.table N.setup table.now },
    ghost wanted: { has_asker N.setup N.lines L.producer ≡ true },
    ghost own: { producer ≡ L.producer },
}

impl<'a, N: HostName, R: Wait, L: TakingsName> LockHelp<'a, N, R, L> {
    /// Of a writer of this producer.
    pub fn new(
        rt: &'a R,
        table: &'a HostTable,
        service: &'a Mutex<Locked<N>>,
        producer: u16,
        takings: Takings<L>,
    ) -> LockHelp<'a, N, R, L>
        requires table { IsNamed N.table N.setup table.now }
        requires asked { has_asker N.setup N.lines L.producer ≡ true }
        requires own { producer ≡ L.producer }
        ensures turns { result.left ≡ u64.MAX }
        ensures takings { result.takings ≡ takings }
    {
        LockHelp {
            rt,
            table,
            service,
            producer,
            left: u64::MAX,
            takings,
            backoff: Backoff::new(),
        }
    }

    /// How often it has had chunks taken, with what was counted before it.
    pub fn into_takings(self) -> Takings<L>
        ensures { result ≡ self.entry.takings }
    {
        let LockHelp {
            rt: _,
            table: _,
            service: _,
            producer: _,
            left: _,
            takings,
            backoff: _,
        } = self;
        takings
    }
}

impl<'a, N: HostName, R: Wait, L: TakingsName> Helper for LockHelp<'a, N, R, L> {
    ghost use Rattle.std.specs.Prelude.{◌≡◌, ◌-◌, true, suc};
    ghost use Rattle.trace_model.specs.Counts.{raised, last_count};

    ghost turns = { λ help. help.left };

    ghost of_table = { λ _ id. id ≡ N.table };

    // The service was asked once to take chunks, and one turn fewer is left.
    ghost helps = { λ help _ answer after. (answer ≡ true) × (help.left ≡ suc after.left) × (after.takings ≡ suc help.takings)
        × (last_count - after.left ≡ raised (last_count - help.left) 1) };

    // the turns that it had, less those that are left
    ghost asked = { λ help. last_count - help.left };

    ghost asked_more = { λ _ _ _ _ helped. helped.3 };

    // The writer asks for no producer but its own.
    #[tactic(auto, using(crate::proofs::Counted::raised_once))]
    fn help(&mut self, _table: &HostTable, _producer: u16) -> bool {
        if self.left == 0 {
            for _ in self.rt.forever() {}
            unreachable!()
        }
        self.left -= 1;
        let taken = self
            .service
            .lock(self.rt)
            .collect(self.table, self.producer, &mut self.takings);
        pause(&self.backoff, taken);
        true
    }
}

/// A pause where the service found no chunk to take, longer each time, so that those get on who hold them.
fn pause(backoff: &Backoff, taken: u64) {
    if taken == 0 {
        backoff.snooze();
    } else {
        backoff.reset();
    }
}

/// The helper of a writer that begins no packet, and so needs no chunk. It takes no lock: if it were asked,
/// it would wait for ever.
#[derive(Drop)]
pub struct IdleHelp<'a, R: Wait> {
    pub rt: &'a R,
}

impl<'a, R: Wait> Helper for IdleHelp<'a, R> {
    ghost use Rattle.trace_model.specs.Counts.{last_count};

    ghost turns = { λ _. 0 };

    ghost of_table = { λ _ _. Unit {0} };

    // It never answers.
    ghost helps = { λ _ _ _ _. ⊥ };

    // it counts nothing, so its count stands at its last value
    ghost asked = { λ _. last_count };

    ghost asked_more = { λ _ _ _ _ helped. absurd helped };

    fn help(&mut self, _table: &HostTable, _producer: u16) -> bool {
        for _ in self.rt.forever() {}
        unreachable!()
    }
}
