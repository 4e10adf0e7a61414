//! A claim on the table that threads share.
ghost use Rattle.std.specs.Prelude.{◌≡◌, ◌+◌, ◌-◌, IfSome, IfNone};
ghost use Rattle.chunk_words.specs.Sits.{Sits, setup_in, known_by};
ghost use Rattle.claim_arbiter.specs.Claiming.{AsksInVain};
ghost use Rattle.thread_writer.specs.Claiming.{MayClaimOn, ClaimsAs};

use chunk_plain::Held;
use chunk_words::{HostTable, Shared, WriterSeat};
use claim_arbiter::{Arbiter, claim_over};
use std::sync::ledger::Ledger;
use trace_base::steps::Steps;

/// Claims the first chunk that is free when its turn comes, and begins it with this id, that of the
/// writer's next position. None exactly where each chunk of the range had its claim bit found set, at
/// a step of its own in this call.
pub fn claim_shared<L: Ledger>(
    arbiter: &Arbiter,
    table: &HostTable,
    seat: &mut WriterSeat,
    id: u32,
    steps: &mut Steps<L>,
) -> Option<Held>
    requires may_claim { MayClaimOn table.now arbiter.now seat.old id }
    ensures lost { IfNone result (AsksInVain (setup_in table.now) arbiter.now.first arbiter.now.chunks
        (known_by seat.old) (known_by seat.new)) }
    ensures won { IfSome result (λ held. ClaimsAs (setup_in table.now) arbiter.now (known_by seat.old) (known_by seat.new) held) }
    ensures seat { Sits table.now seat.new }
    ensures place { seat.new.place ≡ seat.old.place }
    ensures steps_lost { IfNone result (steps.new ≡ steps.old + arbiter.now.chunks) }
    ensures steps_won { IfSome result (λ held. steps.new ≡ steps.old + (held.chunk - arbiter.now.first) + 2) }
{
    let mut shared = Shared { table };
    claim_over(arbiter, &mut shared, seat, id, steps)
}
