//! Claims in rising order.
ghost use Rattle.std.specs.Prelude.{◌≡◌, ℕ, ◌+◌, ◌-◌, ◌<◌, ◌≤◌, Some, None, length, IfSome, IfNone};
ghost use Rattle.chunk_plain.specs.declared.tokens.TheConstants.{MAX_HELD, POSITION_LIMIT};
ghost use Rattle.chunk_plain.specs.Setup.{range_of, producer_of, id_at};
ghost use Rattle.chunk_plain.specs.World.{World, Unclaimed, Writing, status};
ghost use Rattle.chunk_plain.specs.Steps.{moved, with_writer_view};
ghost use Rattle.chunk_plain.specs.Owned.{held_count};
ghost use Rattle.chunk_plain.specs.Drafts.{draft_at, IsHolding};
ghost use Rattle.chunk_plain.specs.Meaning.{IsWriterStep};
ghost use Rattle.chunk_plain.specs.Words.{IsBegun};
ghost use Rattle.claim_arbiter.specs.Claiming.{range_in, AsksInVain, ClaimsInTurn, NoneFree};

use chunk_plain::{Held, Words};
use std::sync::ledger::Ledger;
use trace_base::steps::Steps;

/// The chunks of one producer: so many, with the numbers from `first` on.
#[derive(Clone, Copy, Debug, PartialEq, Eq)]
pub struct Arbiter {
    pub first: u32,
    pub chunks: u32,
}

impl Arbiter {
    pub fn new(first: u32, chunks: u32) -> Arbiter
        ensures first { result.first ≡ first }
        ensures chunks { result.chunks ≡ chunks }
    {
        Arbiter { first, chunks }
    }
}

/// Claims the first chunk that is free when its turn comes, and begins it with this id, that of the
/// writer's next position.
pub fn claim_over<W: Words, L: Ledger>(
    arbiter: &Arbiter,
    table: &mut W,
    seat: &mut W::Writer,
    id: u32,
    steps: &mut Steps<L>,
) -> Option<Held>
    requires seat { W.means.sits table.old seat.old }
    requires range { range_of (W.means.setup table.old) (producer_of (W.means.setup table.old) (W.means.place seat.old))
        ≡ range_in arbiter.now }
    requires few { held_count (W.means.view table.old seat.old).begun < MAX_HELD }
    requires id { id ≡ id_at (W.means.setup table.old) (W.means.place seat.old) (length (W.means.view table.old seat.old).begun) }
    requires few_begun { length (W.means.view table.old seat.old).begun < POSITION_LIMIT }
    ensures lost { IfNone result (AsksInVain (W.means.setup table.old) arbiter.now.first arbiter.now.chunks
        (W.means.view table.old seat.old) (W.means.view table.new seat.new)) }
    ensures won { IfSome result (λ held. ClaimsInTurn (W.means.setup table.old) arbiter.now.first arbiter.now.chunks held.chunk
        (W.means.view table.old seat.old) (W.means.view table.new seat.new)) }
    ensures begun { IfSome result (λ held. IsBegun (W.means.setup table.old) held.chunk
        (length (W.means.view table.old seat.old).begun) held) }
    ensures holding { IfSome result (λ held. IsHolding (W.means.view table.new seat.new) held.chunk
        (length (W.means.view table.old seat.old).begun)) }
    ensures step { IsWriterStep W.means table.old seat.old table.new seat.new }
    ensures steps_lost { IfNone result (steps.new ≡ steps.old + arbiter.now.chunks) }
    ensures steps_won { IfSome result (λ held. steps.new ≡ steps.old + (held.chunk - arbiter.now.first) + 2) }
    ensures few_steps { steps.new ≤ steps.old + arbiter.now.chunks + 1 }
    ensures told_lost { IfNone result ((world : World) → W.means.told table.old ≡ Some world
        → NoneFree world arbiter.now.first (arbiter.now.first + arbiter.now.chunks)
        × (W.means.told table.new ≡ Some (with_writer_view world (W.means.place seat.old) (W.means.view table.new seat.new)))) }
    ensures told_won { IfSome result (λ held. (world : World) → W.means.told table.old ≡ Some world
        → NoneFree world arbiter.now.first held.chunk × ∥ status world held.chunk ≡ Unclaimed ∥₁
        × (W.means.told table.new ≡ Some (moved world (W.means.place seat.old) (W.means.view table.new seat.new) held.chunk
        (Writing (W.means.place seat.old) (length (W.means.view table.old seat.old).begun)
        (draft_at (W.means.view table.new seat.new) (length (W.means.view table.old seat.old).begun)))))) }
{
    for chunk in arbiter.first..arbiter.first + arbiter.chunks {
        steps.tick();
        if let Some(claimed) = table.claim_try(seat, chunk) {
            steps.tick();
            return Some(table.begin(seat, claimed, id));
        }
    }
    None
}
