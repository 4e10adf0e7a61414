//! How a writer gets its next chunk.
ghost use Rattle.std.specs.Prelude.{◌≡◌, ◌+◌, ◌<◌, ◌≤◌, true, false, not, is_some, IfSome, IfNone};
ghost use Rattle.chunk_plain.specs.declared.tokens.TheConstants.{MAX_HELD};
ghost use Rattle.trace_base.specs.declared.policy.WriterPolicy.TheVariants.{Drops, Stalls, StallsThenDrops};
ghost use Rattle.chunk_plain.specs.Owned.{held_count};
ghost use Rattle.chunk_plain.specs.Words.{IsBegun};
ghost use Rattle.trace_writer.specs.AtWork.{MayClaim};
ghost use Rattle.trace_writer.specs.Claims.{Wins, FindsNone};
ghost use Rattle.trace_writer.specs.Helping.{IsWork};
ghost use Rattle.trace_writer.specs.Moments.{at_step};
ghost use Rattle.trace_writer.specs.OwnSteps.{NoneHeld};

use crate::helper::HelperOn;
use crate::route::Route;
use chunk_plain::{Held, Words};
use claim_arbiter::claim_over;
use std::sync::ledger::Ledger;
use trace_base::ids::id_of;
use trace_base::policy::WriterPolicy;
use trace_base::steps::Steps;

/// Claims a chunk for a writer that stalls: where none is free it asks the helper, and claims again
/// as long as that frees one.
pub(crate) fn claim_asking<W: Words, L: Ledger, H: HelperOn<W>>(
    route: &Route,
    table: &mut W,
    seat: &mut W::Writer,
    help: &mut H,
    next_position: u32,
    steps: &mut Steps<L>,
) -> Option<Held>
    requires may_claim { MayClaim W.means H.needs route.now help.old table.old seat.old next_position }
    requires stalls { route.now.spec.policy ≡ Stalls }
    requires none_held { NoneHeld (W.means.view table.old seat.old).begun }
    ensures won { IfSome result (λ held. Wins route.now held.chunk (W.means.view table.old seat.old) (W.means.view table.new seat.new)) }
    ensures begun { IfSome result (λ held. IsBegun (W.means.setup table.old) held.chunk next_position held) }
    ensures none { IfNone result (FindsNone (W.means.view table.old seat.old) (W.means.view table.new seat.new)) }
    ensures work { IsWork W.means H.needs H.helps false
        route.now (at_step help.old table.old seat.old steps.old) (not (is_some result)) (at_step help.new table.new seat.new steps.new) }
    ensures begins { IsWork W.means H.needs H.helps true
        route.now (at_step help.old table.old seat.old steps.old) (not (is_some result)) (at_step help.new table.new seat.new steps.new) }
{
    let id = id_of(route.spec.from, next_position);
    'claims: loop {
        if let Some(held) = claim_over(&route.arbiter, table, seat, id, steps) {
            return Some(held);
        }
        if !help.help(table, route.spec.producer) {
            return None;
        }
    }
}

/// Claims a chunk for a writer that tries so often and then drops: behind each round of claims in
/// vain but the last it asks the helper, and claims again whatever that answers.
pub(crate) fn claim_trying<W: Words, L: Ledger, H: HelperOn<W>>(
    route: &Route,
    table: &mut W,
    seat: &mut W::Writer,
    help: &mut H,
    tries: u32,
    next_position: u32,
    steps: &mut Steps<L>,
) -> Option<Held>
    requires may_claim { MayClaim W.means H.needs route.now help.old table.old seat.old next_position }
    requires trying { route.now.spec.policy ≡ StallsThenDrops tries }
    requires few { held_count (W.means.view table.old seat.old).begun < MAX_HELD }
    ensures won { IfSome result (λ held. Wins route.now held.chunk (W.means.view table.old seat.old) (W.means.view table.new seat.new)) }
    ensures begun { IfSome result (λ held. IsBegun (W.means.setup table.old) held.chunk next_position held) }
    ensures none { IfNone result (FindsNone (W.means.view table.old seat.old) (W.means.view table.new seat.new)) }
    ensures work { IsWork W.means H.needs H.helps false
        route.now (at_step help.old table.old seat.old steps.old) (not (is_some result)) (at_step help.new table.new seat.new steps.new) }
    ensures begins { NoneHeld (W.means.view table.old seat.old).begun → IsWork W.means H.needs H.helps true
        route.now (at_step help.old table.old seat.old steps.old) (not (is_some result)) (at_step help.new table.new seat.new steps.new) }
{
    let id = id_of(route.spec.from, next_position);
    let mut left = tries;
    'tries: while left > 0 {
        if let Some(held) = claim_over(&route.arbiter, table, seat, id, steps) {
            return Some(held);
        }
        let _worth = help.help(table, route.spec.producer);
        left -= 1;
    }
    claim_over(&route.arbiter, table, seat, id, steps)
}

/// Claims the next chunk.
pub(crate) fn claim_next<W: Words, L: Ledger, H: HelperOn<W>>(
    route: &Route,
    table: &mut W,
    seat: &mut W::Writer,
    help: &mut H,
    next_position: u32,
    steps: &mut Steps<L>,
) -> Option<Held>
    requires may_claim { MayClaim W.means H.needs route.now help.old table.old seat.old next_position }
    requires none_held { NoneHeld (W.means.view table.old seat.old).begun }
    ensures won { IfSome result (λ held. Wins route.now held.chunk (W.means.view table.old seat.old) (W.means.view table.new seat.new)) }
    ensures begun { IfSome result (λ held. IsBegun (W.means.setup table.old) held.chunk next_position held) }
    ensures none { IfNone result (FindsNone (W.means.view table.old seat.old) (W.means.view table.new seat.new)) }
    ensures work { IsWork W.means H.needs H.helps true
        route.now (at_step help.old table.old seat.old steps.old) (not (is_some result)) (at_step help.new table.new seat.new steps.new) }
    ensures few_steps { route.now.spec.policy ≡ Drops → steps.new ≤ steps.old + route.now.arbiter.chunks + 1 }
{
    match route.spec.policy {
        WriterPolicy::Drops => {
            let id = id_of(route.spec.from, next_position);
            claim_over(&route.arbiter, table, seat, id, steps)
        }
        WriterPolicy::Stalls => claim_asking(route, table, seat, help, next_position, steps),
        WriterPolicy::StallsThenDrops { tries } => {
            claim_trying(route, table, seat, help, tries, next_position, steps)
        }
    }
}
