//! The bytes of a packet, streamed into chunks: where a chunk ends the packet runs on in the next
//! one, or stops where none is free.
ghost use Rattle.std.specs.Prelude.{◌≡◌, ◌+◌, ◌*◌, ◌<◌, true, false, ◌++◌, length, vec_len};
ghost use Rattle.std.specs.List.{repeat};
ghost use Rattle.trace_base.specs.declared.limits.TheConstants.{MAX_OPEN_HOLES};
ghost use Rattle.trace_writer.specs.AtWork.{MayAsk};
ghost use Rattle.trace_writer.specs.Site.{IsRoute, site_of};
ghost use Rattle.trace_writer.specs.Ids.{HasIds};
ghost use Rattle.trace_model.specs.Packets.{Packet, with_more};
ghost use Rattle.cut_steps.specs.Writing.{with_open};
ghost use Rattle.trace_base.specs.declared.policy.WriterPolicy.TheVariants.{Drops, Stalls, StallsThenDrops};
ghost use Rattle.trace_writer.specs.Helping.{IsWork, loses};
ghost use Rattle.trace_writer.specs.Moments.{at_step};
ghost use Rattle.trace_writer.specs.OwnSteps.{IsQuiet, MakesRound};
ghost use Rattle.trace_writer.specs.Flows.{Flows, Continues, SetsLength, StopsHere, IsInPacket, HasToRunOn, Writes, is_stopped};

use crate::chunk::HeldChunk;
use crate::claim::{claim_asking, claim_trying};
use crate::flow::Flow;
use crate::fragment::OpenFragment;
use crate::helper::HelperOn;
use crate::route::Route;
use chunk_plain::Words;
use claim_arbiter::claim_over;
use commit_body::PatchList;
use std::sync::ledger::Ledger;
use trace_base::ids::id_of;
use trace_base::policy::WriterPolicy;
use trace_base::steps::Steps;

/// Goes on in a new chunk, where all of the fragment's chunk is filled or a nested length comes next
/// that doesn't fit.
pub(crate) fn run_on<W: Words, L: Ledger, H: HelperOn<W>>(
    route: &Route,
    table: &mut W,
    seat: &mut W::Writer,
    help: &mut H,
    pending: &mut PatchList,
    fragment: OpenFragment,
    steps: &mut Steps<L>,
) -> Flow
    requires may_ask { MayAsk W.means H.needs route.now help.old table.old seat.old }
    requires inside { IsInPacket (site_of (W.means.setup table.old) (W.means.place seat.old) route.now) (W.means.view table.old seat.old)
        pending.old fragment }
    requires filled { vec_len fragment.held.body.payload < fragment.at + 4 }
    requires ids { HasIds fragment 1 }
    ensures flow { Continues (W.means.setup table.old) (W.means.place seat.old) route.now (W.means.view table.old seat.old)
        (W.means.view table.new seat.new) pending.old pending.new fragment result }
    ensures work { IsWork W.means H.needs H.helps false
        route.now (at_step help.old table.old seat.old steps.old) (is_stopped result) (at_step help.new table.new seat.new steps.new) }
{
    match route.spec.policy {
        WriterPolicy::Drops => run_on_or_drop(route, table, seat, pending, fragment, steps),
        WriterPolicy::Stalls => run_on_or_stall(route, table, seat, help, pending, fragment, steps),
        WriterPolicy::StallsThenDrops { tries } => {
            run_on_or_try(route, table, seat, help, pending, fragment, tries, steps)
        }
    }
}

/// Claims first, and gives the packet up where no chunk is free.
fn run_on_or_drop<W: Words, L: Ledger>(
    route: &Route,
    table: &mut W,
    seat: &mut W::Writer,
    pending: &mut PatchList,
    fragment: OpenFragment,
    steps: &mut Steps<L>,
) -> Flow
    requires seat { W.means.sits table.old seat.old }
    requires drops { route.now.spec.policy ≡ Drops }
    requires route { IsRoute (W.means.setup table.old) (W.means.place seat.old) route.now }
    requires inside { IsInPacket (site_of (W.means.setup table.old) (W.means.place seat.old) route.now) (W.means.view table.old seat.old)
        pending.old fragment }
    requires ends { HasToRunOn fragment }
    ensures flow { Continues (W.means.setup table.old) (W.means.place seat.old) route.now (W.means.view table.old seat.old)
        (W.means.view table.new seat.new) pending.old pending.new fragment result }
    ensures round { MakesRound W.means route.now (is_stopped result) table.old seat.old table.new seat.new }
    ensures counts { steps.new + (length (W.means.view table.old seat.old).asked + length (W.means.view table.old seat.old).begun)
        ≡ steps.old + (length (W.means.view table.new seat.new).asked + length (W.means.view table.new seat.new).begun) }
{
    let next_position = fragment.held.position + 1;
    let id = id_of(route.spec.from, next_position);
    let Some(next) = claim_over(&route.arbiter, table, seat, id, steps) else {
        give_up(route, table, seat, pending, fragment);
        return Flow::Stopped { next_position };
    };
    fragment
        .end()
        .complete(table, seat, pending, route.spec, true);
    Flow::Going(HeldChunk::new(next, true).start_fragment(table, seat))
}

/// Tries for a chunk first, asking the helper while it holds its own, and gives the packet up where
/// all its tries were in vain.
fn run_on_or_try<W: Words, L: Ledger, H: HelperOn<W>>(
    route: &Route,
    table: &mut W,
    seat: &mut W::Writer,
    help: &mut H,
    pending: &mut PatchList,
    fragment: OpenFragment,
    tries: u32,
    steps: &mut Steps<L>,
) -> Flow
    requires may_ask { MayAsk W.means H.needs route.now help.old table.old seat.old }
    requires trying { route.now.spec.policy ≡ StallsThenDrops tries }
    requires inside { IsInPacket (site_of (W.means.setup table.old) (W.means.place seat.old) route.now) (W.means.view table.old seat.old)
        pending.old fragment }
    requires ends { HasToRunOn fragment }
    ensures flow { Continues (W.means.setup table.old) (W.means.place seat.old) route.now (W.means.view table.old seat.old)
        (W.means.view table.new seat.new) pending.old pending.new fragment result }
    ensures work { IsWork W.means H.needs H.helps false
        route.now (at_step help.old table.old seat.old steps.old) (is_stopped result) (at_step help.new table.new seat.new steps.new) }
{
    let next_position = fragment.held.position + 1;
    let Some(next) = claim_trying(route, table, seat, help, tries, next_position, steps) else {
        give_up(route, table, seat, pending, fragment);
        return Flow::Stopped { next_position };
    };
    fragment
        .end()
        .complete(table, seat, pending, route.spec, true);
    Flow::Going(HeldChunk::new(next, true).start_fragment(table, seat))
}

/// Completes the chunk first, so that the helper may take it where no other is free.
fn run_on_or_stall<W: Words, L: Ledger, H: HelperOn<W>>(
    route: &Route,
    table: &mut W,
    seat: &mut W::Writer,
    help: &mut H,
    pending: &mut PatchList,
    fragment: OpenFragment,
    steps: &mut Steps<L>,
) -> Flow
    requires may_ask { MayAsk W.means H.needs route.now help.old table.old seat.old }
    requires stalls { route.now.spec.policy ≡ Stalls }
    requires inside { IsInPacket (site_of (W.means.setup table.old) (W.means.place seat.old) route.now) (W.means.view table.old seat.old)
        pending.old fragment }
    requires ends { HasToRunOn fragment }
    ensures flow { Continues (W.means.setup table.old) (W.means.place seat.old) route.now (W.means.view table.old seat.old)
        (W.means.view table.new seat.new) pending.old pending.new fragment result }
    ensures work { IsWork W.means H.needs H.helps false
        route.now (at_step help.old table.old seat.old steps.old) (is_stopped result) (at_step help.new table.new seat.new steps.new) }
{
    let next_position = fragment.held.position + 1;
    let chunk = fragment.end();
    chunk.complete(table, seat, pending, route.spec, true);
    match claim_asking(route, table, seat, help, next_position, steps) {
        Some(next) => Flow::Going(HeldChunk::new(next, true).start_fragment(table, seat)),
        None => Flow::Stopped { next_position },
    }
}

/// Gives the packet up: the holes are closed with 0, and the chunk is completed with the drop mark.
fn give_up<W: Words>(
    route: &Route,
    table: &mut W,
    seat: &mut W::Writer,
    pending: &mut PatchList,
    fragment: OpenFragment,
)
    requires seat { W.means.sits table.old seat.old }
    requires drops { loses route.now.spec.policy ≡ true }
    requires route { IsRoute (W.means.setup table.old) (W.means.place seat.old) route.now }
    requires filled { vec_len fragment.held.body.payload < fragment.at + 4 }
    requires inside { IsInPacket (site_of (W.means.setup table.old) (W.means.place seat.old) route.now) (W.means.view table.old seat.old)
        pending.old fragment }
    ensures stops { StopsHere (site_of (W.means.setup table.old) (W.means.place seat.old) route.now) (W.means.view table.old seat.old)
        (W.means.view table.new seat.new) pending.old pending.new fragment }
    ensures quiet { IsQuiet W.means table.old seat.old table.new seat.new }
{
    let mut fragment = fragment;
    'holes: while pending.open_count() > 0 {
        fragment.close_hole(pending, 0);
    }
    fragment
        .end_dropped()
        .complete(table, seat, pending, route.spec, false);
}

/// Writes a piece of the packet, over as many chunks as it takes.
pub(crate) fn put_piece<W: Words, L: Ledger, H: HelperOn<W>>(
    route: &Route,
    table: &mut W,
    seat: &mut W::Writer,
    help: &mut H,
    pending: &mut PatchList,
    fragment: OpenFragment,
    piece: &[u8],
    steps: &mut Steps<L>,
) -> Flow
    requires may_ask { MayAsk W.means H.needs route.now help.old table.old seat.old }
    requires inside { IsInPacket (site_of (W.means.setup table.old) (W.means.place seat.old) route.now) (W.means.view table.old seat.old)
        pending.old fragment }
    requires ids { HasIds fragment (length piece.now) }
    ensures flow { Flows (W.means.setup table.old) (W.means.place seat.old) route.now (W.means.view table.old seat.old)
        (W.means.view table.new seat.new) pending.old pending.new fragment piece.now result }
    ensures work { IsWork W.means H.needs H.helps false
        route.now (at_step help.old table.old seat.old steps.old) (is_stopped result) (at_step help.new table.new seat.new steps.new) }
{
    let mut fragment = fragment;
    let mut rest = piece;
    'chunks: loop {
        let count = fragment.put(rest);
        rest = &rest[count..];
        if rest.is_empty() {
            return Flow::Going(fragment);
        }
        match run_on(route, table, seat, help, pending, fragment, steps) {
            Flow::Going(next) => fragment = next,
            Flow::Stopped { next_position } => return Flow::Stopped { next_position },
        }
    }
}

/// Writes a piece so many times over.
pub(crate) fn put_times<W: Words, L: Ledger, H: HelperOn<W>>(
    route: &Route,
    table: &mut W,
    seat: &mut W::Writer,
    help: &mut H,
    pending: &mut PatchList,
    fragment: OpenFragment,
    piece: &[u8],
    times: u32,
    steps: &mut Steps<L>,
) -> Flow
    requires may_ask { MayAsk W.means H.needs route.now help.old table.old seat.old }
    requires inside { IsInPacket (site_of (W.means.setup table.old) (W.means.place seat.old) route.now) (W.means.view table.old seat.old)
        pending.old fragment }
    requires ids { HasIds fragment (times * length piece.now) }
    ensures flow { Flows (W.means.setup table.old) (W.means.place seat.old) route.now (W.means.view table.old seat.old)
        (W.means.view table.new seat.new) pending.old pending.new fragment (repeat times piece.now) result }
    ensures work { IsWork W.means H.needs H.helps false
        route.now (at_step help.old table.old seat.old steps.old) (is_stopped result) (at_step help.new table.new seat.new steps.new) }
{
    let mut fragment = fragment;
    for _turn in 0..times {
        // While it fits the fragment stays where it is: it is large, and is handed on and back else.
        if fragment.has_left(piece.len()) {
            fragment.put(piece);
            continue;
        }
        match put_piece(route, table, seat, help, pending, fragment, piece, steps) {
            Flow::Going(next) => fragment = next,
            Flow::Stopped { next_position } => return Flow::Stopped { next_position },
        }
    }
    Flow::Going(fragment)
}

/// Sets a nested length aside, which is never cut.
pub(crate) fn put_length<W: Words, L: Ledger, H: HelperOn<W>>(
    route: &Route,
    table: &mut W,
    seat: &mut W::Writer,
    help: &mut H,
    pending: &mut PatchList,
    fragment: OpenFragment,
    steps: &mut Steps<L>,
) -> Flow
    requires may_ask { MayAsk W.means H.needs route.now help.old table.old seat.old }
    requires inside { IsInPacket (site_of (W.means.setup table.old) (W.means.place seat.old) route.now) (W.means.view table.old seat.old)
        pending.old fragment }
    requires ids { HasIds fragment 4 }
    requires few { length pending.old.holes < MAX_OPEN_HOLES }
    ensures flow { SetsLength (W.means.setup table.old) (W.means.place seat.old) route.now (W.means.view table.old seat.old)
        (W.means.view table.new seat.new) pending.old pending.new fragment result }
    ensures work { IsWork W.means H.needs H.helps false
        route.now (at_step help.old table.old seat.old steps.old) (is_stopped result) (at_step help.new table.new seat.new steps.new) }
{
    let mut fragment = fragment;
    if fragment.put_hole(pending) {
        return Flow::Going(fragment);
    }
    match run_on(route, table, seat, help, pending, fragment, steps) {
        Flow::Going(mut next) => {
            next.put_hole(pending);
            Flow::Going(next)
        }
        Flow::Stopped { next_position } => Flow::Stopped { next_position },
    }
}

/// Writes what stands in front of a field's content, and behind it the field's text so many times
/// over.
pub(crate) fn put_field<W: Words, L: Ledger, H: HelperOn<W>>(
    route: &Route,
    table: &mut W,
    seat: &mut W::Writer,
    help: &mut H,
    pending: &mut PatchList,
    fragment: OpenFragment,
    head: &[u8],
    text: &[u8],
    times: u32,
    steps: &mut Steps<L>,
) -> Flow
    requires may_ask { MayAsk W.means H.needs route.now help.old table.old seat.old }
    requires inside { IsInPacket (site_of (W.means.setup table.old) (W.means.place seat.old) route.now) (W.means.view table.old seat.old)
        pending.old fragment }
    requires ids { HasIds fragment (length head.now + times * length text.now) }
    ensures flow { Writes (W.means.setup table.old) (W.means.place seat.old) route.now (W.means.view table.old seat.old)
        (W.means.view table.new seat.new) pending.old pending.new fragment (length head.now + times * length text.now)
        (with_more (head.now ++ repeat times text.now)) result }
    ensures work { IsWork W.means H.needs H.helps false
        route.now (at_step help.old table.old seat.old steps.old) (is_stopped result) (at_step help.new table.new seat.new steps.new) }
{
    match put_piece(route, table, seat, help, pending, fragment, head, steps) {
        Flow::Going(next) => put_times(route, table, seat, help, pending, next, text, times, steps),
        Flow::Stopped { next_position } => Flow::Stopped { next_position },
    }
}

/// Writes a nested message's tag, and sets its length aside.
pub(crate) fn put_nested<W: Words, L: Ledger, H: HelperOn<W>>(
    route: &Route,
    table: &mut W,
    seat: &mut W::Writer,
    help: &mut H,
    pending: &mut PatchList,
    fragment: OpenFragment,
    tag: &[u8],
    steps: &mut Steps<L>,
) -> Flow
    requires may_ask { MayAsk W.means H.needs route.now help.old table.old seat.old }
    requires inside { IsInPacket (site_of (W.means.setup table.old) (W.means.place seat.old) route.now) (W.means.view table.old seat.old)
        pending.old fragment }
    requires ids { HasIds fragment (length tag.now + 4) }
    requires few { length pending.old.holes < MAX_OPEN_HOLES }
    ensures flow { Writes (W.means.setup table.old) (W.means.place seat.old) route.now (W.means.view table.old seat.old)
        (W.means.view table.new seat.new) pending.old pending.new fragment (length tag.now + 4)
        (λ (packet : Packet). with_open (with_more tag.now packet)) result }
    ensures work { IsWork W.means H.needs H.helps false
        route.now (at_step help.old table.old seat.old steps.old) (is_stopped result) (at_step help.new table.new seat.new steps.new) }
{
    match put_piece(route, table, seat, help, pending, fragment, tag, steps) {
        Flow::Going(next) => put_length(route, table, seat, help, pending, next, steps),
        Flow::Stopped { next_position } => Flow::Stopped { next_position },
    }
}
