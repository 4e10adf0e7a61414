//! Where a packet begins.
ghost use Rattle.std.specs.Prelude.{◌≡◌, ◌+◌, ◌≤◌, true, false, length, not, vec_len};
ghost use Rattle.chunk_plain.specs.declared.tokens.TheConstants.{POSITION_LIMIT};
ghost use Rattle.trace_writer.specs.declared.ids.TheConstants.{PACKET_IDS};
ghost use Rattle.trace_model.specs.Packets.{Account, account_of};
ghost use Rattle.commit_body.specs.Pending.{Pending};
ghost use Rattle.trace_base.specs.declared.policy.WriterPolicy.TheVariants.{Drops};
ghost use Rattle.trace_writer.specs.Empty.{is_empty, is_stalled as is_stalled_state};
ghost use Rattle.trace_writer.specs.AtWork.{IsAtWork, IsReady, MayAsk, MayClaim, Notes};
ghost use Rattle.trace_writer.specs.Helping.{IsWork};
ghost use Rattle.trace_writer.specs.Moments.{at_step, moment};
ghost use Rattle.trace_writer.specs.OwnSteps.{IsQuiet, NoneHeld};
ghost use Rattle.trace_model.specs.Calls as call;
ghost use Rattle.trace_writer.specs.Site.{site_of};
ghost use Rattle.trace_writer.specs.Agreement.{Agrees, AgreesBetween, is_begun};
ghost use Rattle.trace_writer.specs.States.{IsIdle, IsBehind, has_room};
ghost use Rattle.trace_writer.specs.Placing.{BeginsHere, IsPlace, IsRoomy, BeginsAt, is_behind, is_roomy};
ghost use Rattle.trace_writer.specs.Written.{TriesToBegin};

use crate::chunk::HeldChunk;
use crate::claim::claim_next;
use crate::fault::{Begun, CallFault};
use crate::helper::HelperOn;
use crate::packet::OpenPacket;
use crate::route::Route;
use crate::state::{State, Writer, is_stalled, put_state, take_state};
use chunk_plain::{Words, WriterCall};
use commit_body::PatchList;
use std::sync::ledger::Ledger;
use trace_base::policy::WriterPolicy;
use trace_base::steps::Steps;

/// The mark in front of a packet whose predecessor was dropped.
const FRONT_MARK: [u8; 3] = [0xD0, 0x02, 0x01];

/// Where a packet can begin.
#[derive(Debug)]
pub(crate) enum Place {
    Behind(HeldChunk),
    /// No chunk was free. The next one gets this position.
    Nowhere { next_position: u32 },
}

/// A place in a new chunk.
fn new_place<W: Words, L: Ledger, H: HelperOn<W>>(
    route: &Route,
    table: &mut W,
    seat: &mut W::Writer,
    help: &mut H,
    next_position: u32,
    steps: &mut Steps<L>,
) -> Place
    requires may_claim { MayClaim W.means H.needs route.now help.old table.old seat.old next_position }
    requires ids { next_position + PACKET_IDS ≤ POSITION_LIMIT }
    requires none_held { NoneHeld (W.means.view table.old seat.old).begun }
    ensures calls { (W.means.view table.new seat.new).calls ≡ (W.means.view table.old seat.old).calls }
    ensures place { (account : Account) (pending : Pending)
        → IsIdle (site_of (W.means.setup table.old) (W.means.place seat.old) route.now) account (W.means.view table.old seat.old) pending
        → IsPlace (site_of (W.means.setup table.old) (W.means.place seat.old) route.now) account (W.means.view table.new seat.new) pending
        result }
    ensures work { IsWork W.means H.needs H.helps true
        route.now (at_step help.old table.old seat.old steps.old) (not (is_behind result)) (at_step help.new table.new seat.new steps.new) }
    ensures few_steps { route.now.spec.policy ≡ Drops → steps.new ≤ steps.old + route.now.arbiter.chunks + 1 }
{
    match claim_next(route, table, seat, help, next_position, steps) {
        Some(held) => Place::Behind(HeldChunk::new(held, false)),
        None => Place::Nowhere { next_position },
    }
}

/// A place in the held chunk where room is left there, and else in a new one.
fn held_or_new_place<W: Words, L: Ledger, H: HelperOn<W>>(
    route: &Route,
    table: &mut W,
    seat: &mut W::Writer,
    help: &mut H,
    pending: &mut PatchList,
    chunk: HeldChunk,
    steps: &mut Steps<L>,
) -> Place
    requires may_ask { MayAsk W.means H.needs route.now help.old table.old seat.old }
    requires behind { (account : Account)
        × IsBehind (site_of (W.means.setup table.old) (W.means.place seat.old) route.now) account (W.means.view table.old seat.old)
        pending.old chunk }
    requires ids { chunk.held.position + 1 + PACKET_IDS ≤ POSITION_LIMIT }
    ensures calls { (W.means.view table.new seat.new).calls ≡ (W.means.view table.old seat.old).calls }
    ensures place { (account : Account)
        → IsBehind (site_of (W.means.setup table.old) (W.means.place seat.old) route.now) account (W.means.view table.old seat.old)
        pending.old chunk
        → IsPlace (site_of (W.means.setup table.old) (W.means.place seat.old) route.now) account (W.means.view table.new seat.new)
        pending.new result }
    ensures asked { has_room (vec_len chunk.held.body.payload) chunk ≡ true
        → (W.means.view table.new seat.new).asked ≡ (W.means.view table.old seat.old).asked }
    ensures work { IsWork W.means H.needs H.helps true
        route.now (at_step help.old table.old seat.old steps.old) (not (is_behind result)) (at_step help.new table.new seat.new steps.new) }
    ensures few_steps { route.now.spec.policy ≡ Drops → steps.new ≤ steps.old + route.now.arbiter.chunks + 1 }
{
    if chunk.has_room() {
        return Place::Behind(chunk);
    }
    let next_position = chunk.held.position + 1;
    chunk.complete(table, seat, pending, route.spec, false);
    new_place(route, table, seat, help, next_position, steps)
}

/// Begins a packet in a chunk that has room for it.
#[inline(always)]
fn begin_kept<W: Words>(writer: &mut Writer, table: &mut W, seat: &mut W::Writer, chunk: HeldChunk)
    requires seat { W.means.sits table.old seat.old }
    requires roomy { IsRoomy (site_of (W.means.setup table.old) (W.means.place seat.old) writer.old.route)
        (account_of (W.means.view table.old seat.old).calls) (W.means.view table.old seat.old) writer.old.pending chunk }
    requires empty { is_empty writer.old.state ≡ true }
    requires agrees { AgreesBetween (W.means.setup table.old) (W.means.place seat.old) (W.means.view table.old seat.old) writer.old }
    ensures notes { Notes W.means (call.Begun true) writer.old.route table.old seat.old table.new seat.new writer.new }
    ensures going { is_stalled_state writer.new.state ≡ false }
{
    writer.begun = writer.begun.saturating_add(1);
    writer.packet = Some(OpenPacket::new());
    let mut fragment = chunk.start_fragment(table, seat);
    if writer.follows_loss {
        fragment.put(&FRONT_MARK);
    }
    put_state(&mut writer.state, State::Writing(fragment));
    table.note_call(seat, WriterCall::Begun { kept: true });
}

/// Begins a packet that is dropped as a whole.
fn begin_dropped<W: Words>(
    writer: &mut Writer,
    table: &mut W,
    seat: &mut W::Writer,
    next_position: u32,
)
    requires seat { W.means.sits table.old seat.old }
    requires next { next_position ≡ length (W.means.view table.old seat.old).begun }
    requires idle { IsIdle (site_of (W.means.setup table.old) (W.means.place seat.old) writer.old.route)
        (account_of (W.means.view table.old seat.old).calls) (W.means.view table.old seat.old) writer.old.pending }
    requires empty { is_empty writer.old.state ≡ true }
    requires agrees { AgreesBetween (W.means.setup table.old) (W.means.place seat.old) (W.means.view table.old seat.old) writer.old }
    ensures notes { Notes W.means (call.Begun false) writer.old.route table.old seat.old table.new seat.new writer.new }
    ensures going { is_stalled_state writer.new.state ≡ false }
{
    writer.begun = writer.begun.saturating_add(1);
    writer.packet = Some(OpenPacket::new());
    put_state(&mut writer.state, State::Dropping { next_position });
    writer.dropped = writer.dropped.saturating_add(1);
    table.note_call(seat, WriterCall::Begun { kept: false });
}

/// Begins a packet at a place that was found. Where none was it is dropped, or the writer stalls.
fn begin_at<W: Words>(
    writer: &mut Writer,
    table: &mut W,
    seat: &mut W::Writer,
    place: Place,
) -> Result<Begun, CallFault>
    requires seat { W.means.sits table.old seat.old }
    requires place { IsPlace (site_of (W.means.setup table.old) (W.means.place seat.old) writer.old.route)
        (account_of (W.means.view table.old seat.old).calls) (W.means.view table.old seat.old) writer.old.pending place }
    requires empty { is_empty writer.old.state ≡ true }
    requires agrees { AgreesBetween (W.means.setup table.old) (W.means.place seat.old) (W.means.view table.old seat.old) writer.old }
    ensures agrees { Agrees (W.means.setup table.old) (W.means.place seat.old) (W.means.view table.new seat.new) writer.new }
    ensures route { writer.new.route ≡ writer.old.route }
    ensures begins { BeginsAt writer.old.route.spec.policy place result (W.means.view table.old seat.old).calls
        (W.means.view table.new seat.new).calls writer.new.state }
    ensures quiet { IsQuiet W.means table.old seat.old table.new seat.new }
{
    match place {
        Place::Behind(chunk) => {
            begin_kept(writer, table, seat, chunk);
            Ok(Begun::Kept)
        }
        Place::Nowhere { next_position } => match writer.route.spec.policy {
            WriterPolicy::Drops => {
                begin_dropped(writer, table, seat, next_position);
                Ok(Begun::Dropping)
            }
            WriterPolicy::Stalls => {
                put_state(&mut writer.state, State::Stalled { next_position });
                Err(CallFault::Stalled)
            }
            WriterPolicy::StallsThenDrops { tries: _ } => {
                begin_dropped(writer, table, seat, next_position);
                Ok(Begun::Dropping)
            }
        },
    }
}

/// Begins a packet.
pub(crate) fn begin<W: Words, L: Ledger, H: HelperOn<W>>(
    writer: &mut Writer,
    table: &mut W,
    seat: &mut W::Writer,
    help: &mut H,
    steps: &mut Steps<L>,
) -> Result<Begun, CallFault>
    requires ready { IsReady W.means H.needs (moment writer.old help.old table.old seat.old steps.old) }
    requires none_begun { is_begun writer.old.packet ≡ false }
    requires ids { length (W.means.view table.old seat.old).begun + PACKET_IDS ≤ POSITION_LIMIT }
    ensures begins { TriesToBegin W.means H.needs H.helps (moment writer.old help.old table.old seat.old steps.old)
        result (moment writer.new help.new table.new seat.new steps.new) }
    ensures asked { BeginsHere writer.old.state → (W.means.view table.new seat.new).asked ≡ (W.means.view table.old seat.old).asked }
    ensures few_steps { writer.old.route.spec.policy ≡ Drops → steps.new ≤ steps.old + writer.old.route.arbiter.chunks + 1 }
{
    if has_room_here(&writer.state) {
        begin_here(writer, table, seat);
        return Ok(Begun::Kept);
    }
    begin_elsewhere(writer, table, seat, help, steps)
}

/// Whether a chunk is held in which a packet can begin.
#[inline(always)]
fn has_room_here(state: &State) -> bool
    ensures { result ≡ is_roomy state.now }
{
    match state {
        State::Between(chunk) => chunk.has_room(),
        State::Idle { next_position: _ } => false,
        State::Writing(_fragment) => false,
        State::Dropping { next_position: _ } => false,
        State::Stalled { next_position: _ } => false,
    }
}

/// Begins a packet in the held chunk, which has room for it. The chunk goes straight from one state
/// into the next: by way of a place it would be copied twice.
#[inline(always)]
fn begin_here<W: Words>(writer: &mut Writer, table: &mut W, seat: &mut W::Writer)
    requires at_work { IsAtWork W.means table.old seat.old writer.old }
    requires none_begun { is_begun writer.old.packet ≡ false }
    requires ids { length (W.means.view table.old seat.old).begun + PACKET_IDS ≤ POSITION_LIMIT }
    requires roomy { is_roomy writer.old.state ≡ true }
    ensures notes { Notes W.means (call.Begun true) writer.old.route table.old seat.old table.new seat.new writer.new }
    ensures going { is_stalled_state writer.new.state ≡ false }
{
    match take_state(&mut writer.state) {
        State::Between(chunk) => begin_kept(writer, table, seat, chunk),
        State::Idle { next_position: _ } => unreachable!(),
        State::Writing(_fragment) => unreachable!(),
        State::Dropping { next_position: _ } => unreachable!(),
        State::Stalled { next_position: _ } => unreachable!(),
    }
}

/// Begins a packet, in a new chunk where there is no room in the held one.
#[inline(never)]
fn begin_elsewhere<W: Words, L: Ledger, H: HelperOn<W>>(
    writer: &mut Writer,
    table: &mut W,
    seat: &mut W::Writer,
    help: &mut H,
    steps: &mut Steps<L>,
) -> Result<Begun, CallFault>
    requires ready { IsReady W.means H.needs (moment writer.old help.old table.old seat.old steps.old) }
    requires none_begun { is_begun writer.old.packet ≡ false }
    requires ids { length (W.means.view table.old seat.old).begun + PACKET_IDS ≤ POSITION_LIMIT }
    ensures begins { TriesToBegin W.means H.needs H.helps (moment writer.old help.old table.old seat.old steps.old)
        result (moment writer.new help.new table.new seat.new steps.new) }
    ensures asked { BeginsHere writer.old.state → (W.means.view table.new seat.new).asked ≡ (W.means.view table.old seat.old).asked }
    ensures few_steps { writer.old.route.spec.policy ≡ Drops → steps.new ≤ steps.old + writer.old.route.arbiter.chunks + 1 }
{
    if is_stalled(&writer.state) {
        return Err(CallFault::Stalled);
    }
    let route = writer.route;
    let place = match take_state(&mut writer.state) {
        State::Idle { next_position } => new_place(&route, table, seat, help, next_position, steps),
        State::Between(chunk) => {
            held_or_new_place(&route, table, seat, help, &mut writer.pending, chunk, steps)
        }
        State::Writing(_fragment) => unreachable!(),
        State::Dropping { next_position: _ } => unreachable!(),
        State::Stalled { next_position: _ } => unreachable!(),
    };
    begin_at(writer, table, seat, place)
}
