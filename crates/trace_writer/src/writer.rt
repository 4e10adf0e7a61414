//! A writer with its seat: what its callers have.
ghost use Rattle.std.specs.Prelude.{◌≡◌, ℕ, ◌+◌, ◌-◌, ◌*◌, ◌<◌, ◌≤◌, Bool, true, false, Some, None, length, slice_get, IfOk, IfErr};
ghost use Rattle.chunk_plain.specs.declared.tokens.TheConstants.{POSITION_LIMIT};
ghost use Rattle.trace_writer.specs.declared.ids.TheConstants.{PACKET_IDS};
ghost use Rattle.trace_base.specs.declared.limits.TheConstants.{MAX_FIELD, MAX_INPUT, MAX_OPEN_HOLES};
ghost use Rattle.trace_base.specs.declared.policy.WriterPolicy.TheVariants.{Drops};
ghost use Rattle.page_geometry.specs.Sizes.{payload_size};
ghost use Rattle.trace_model.specs.Calls as call;
ghost use Rattle.trace_model.specs.Encoding.{number_field, nested_tag};
ghost use Rattle.trace_model.specs.Packets.{begun_count, dropped_at_begin};
ghost use Rattle.chunk_plain.specs.Setup.{Setup, spot, range_of, producer_of, HasProducer, IsChunkOf};
ghost use Rattle.chunk_plain.specs.Views.{WriterView, newcomer};
ghost use Rattle.claim_arbiter.specs.Claiming.{range_in};
ghost use Rattle.trace_writer.specs.Agreement.{is_begun, len_of, open_message_count, counted};
ghost use Rattle.trace_writer.specs.Asked.{stops_with};
ghost use Rattle.trace_writer.specs.Calling.{Stands, MayCall, MakesCall, NotesCall};
ghost use Rattle.chunk_plain.specs.Histories.{completed_images};
ghost use Rattle.trace_writer.specs.Moments.{at_call};
ghost use Rattle.trace_writer.specs.Refusals.{field_refusal, nested_refusal};
ghost use Rattle.trace_writer.specs.Core.{CoreAgrees, in_packet, open_depth, bytes_size, holds_chunk};
ghost use Rattle.trace_writer.specs.Core.{is_stalled, route_of, begins_here, FitsHere};

use crate::begin::begin;
use crate::fault::{Begun, CallFault};
use crate::field::{end_message, write_nested, write_number, write_text};
use crate::finish::{finish, flush};
use crate::helper::HelperOn;
use crate::packet::OpenPacket;
use crate::route::Route;
use crate::state::{State, Writer};
use chunk_plain::Words;
use claim_arbiter::Arbiter;
use commit_body::PatchList;
use page_geometry::Geometry;
use proto_stream::{bytes_head_size, nested_tag_size, number_size};
use std::sync::ledger::Ledger;
use trace_base::limits::MAX_PACKET_LEN;
use trace_base::policy::WriterSpec;
use trace_base::steps::Steps;

/// A writer: where no chunk is free it drops the packet, or asks its helper and stalls where that
/// frees none, or asks so often and then drops the packet. It is made with its seat, and may hold a
/// chunk, so it has to be ended by `into_seat`.
#[derive(Debug)]
pub struct WriterCore<S> {
    /// For a layer whose table offers a seat more than `Words` does.
    pub seat: S,
    pub(crate) writer: Writer,
}

impl<S> WriterCore<S> {
    /// A writer for a seat with which nothing was begun or noted.
    pub fn make(seat: S, spec: WriterSpec, arbiter: Arbiter, geometry: Geometry) -> WriterCore<S>
        ensures seat { result.seat ≡ seat }
        ensures spec { (route_of result).spec ≡ spec }
        ensures arbiter { (route_of result).arbiter ≡ arbiter }
        ensures none_held { holds_chunk result ≡ false }
        ensures going { is_stalled result ≡ false }
        ensures agrees { (setup : Setup) (place : ℕ) → slice_get setup.writers place ≡ Some spec
            → HasProducer setup spec.producer → range_of setup (producer_of setup place) ≡ range_in arbiter
            → ((chunk : ℕ) → IsChunkOf setup (producer_of setup place) chunk
            → (spot setup chunk).payload_size ≡ payload_size geometry.page_size geometry.chunks)
            → CoreAgrees setup place newcomer result }
    {
        let payload_size = geometry.payload_size();
        let writer = Writer {
            route: Route {
                spec,
                arbiter,
                payload_size,
            },
            state: State::Idle { next_position: 0 },
            packet: None,
            pending: PatchList::new(),
            follows_loss: false,
            begun: 0,
            dropped: 0,
        };
        WriterCore { seat, writer }
    }

    /// Begins a packet. It claims only where the packet is to begin in a new chunk.
    pub fn begin<W: Words<Writer = S>, L: Ledger, H: HelperOn<W>>(
        &mut self,
        table: &mut W,
        help: &mut H,
        steps: &mut Steps<L>,
    ) -> Result<Begun, CallFault>
        requires may_call { MayCall W.means H.needs (at_call self.old help.old table.old steps.old) }
        requires none_begun { in_packet (W.means.view table.old self.old.seat) ≡ false }
        requires ids { length (W.means.view table.old self.old.seat).begun + PACKET_IDS ≤ POSITION_LIMIT }
        ensures call { MakesCall W.means H.needs H.helps (call.Begun true) (stops_with result)
            (at_call self.old help.old table.old steps.old) result (at_call self.new help.new table.new steps.new) }
        ensures asked { begins_here self.old → (W.means.view table.new self.new.seat).asked ≡ (W.means.view table.old self.old.seat).asked }
        ensures in_packet { IfOk result (λ _. in_packet (W.means.view table.new self.new.seat) ≡ true) }
        ensures depth { IfOk result (λ _. open_depth (W.means.view table.new self.new.seat) ≡ 0) }
        ensures few_steps { (route_of self.old).spec.policy ≡ Drops → steps.new ≤ steps.old + (route_of self.old).arbiter.chunks + 1 }
    {
        begin(&mut self.writer, table, &mut self.seat, help, steps)
    }

    /// Writes a number.
    pub fn varint<W: Words<Writer = S>, L: Ledger, H: HelperOn<W>>(
        &mut self,
        table: &mut W,
        help: &mut H,
        field: u32,
        value: u64,
        steps: &mut Steps<L>,
    ) -> Result<(), CallFault>
        requires may_call { MayCall W.means H.needs (at_call self.old help.old table.old steps.old) }
        requires begun { in_packet (W.means.view table.old self.old.seat) ≡ true }
        requires field { (1 ≤ field) × (field ≤ MAX_FIELD) }
        ensures call { (stopped : Bool) × MakesCall W.means H.needs H.helps (call.Number field value) stopped
            (at_call self.old help.old table.old steps.old) result (at_call self.new help.new table.new steps.new) }
        ensures asked { FitsHere self.old (length (number_field field value))
            → (W.means.view table.new self.new.seat).asked ≡ (W.means.view table.old self.old.seat).asked }
        ensures in_packet { in_packet (W.means.view table.new self.new.seat) ≡ true }
        ensures depth { open_depth (W.means.view table.new self.new.seat) ≡ open_depth (W.means.view table.old self.old.seat) }
    {
        let size = number_size(field, value);
        check_field(&self.writer.packet, field, u64::from(size))?;
        write_number(
            &mut self.writer,
            table,
            &mut self.seat,
            help,
            field,
            value,
            size,
            steps,
        )
    }

    /// Writes a text, so many times over.
    pub fn bytes<W: Words<Writer = S>, L: Ledger, H: HelperOn<W>>(
        &mut self,
        table: &mut W,
        help: &mut H,
        field: u32,
        value: &[u8],
        times: u32,
        steps: &mut Steps<L>,
    ) -> Result<(), CallFault>
        requires may_call { MayCall W.means H.needs (at_call self.old help.old table.old steps.old) }
        requires begun { in_packet (W.means.view table.old self.old.seat) ≡ true }
        requires field { (1 ≤ field) × (field ≤ MAX_FIELD) }
        requires text { length value.now ≤ MAX_INPUT }
        ensures call { (stopped : Bool) × MakesCall W.means H.needs H.helps (call.Bytes field value.now times) stopped
            (at_call self.old help.old table.old steps.old) result (at_call self.new help.new table.new steps.new) }
        ensures asked { FitsHere self.old (bytes_size field times value.now)
            → (W.means.view table.new self.new.seat).asked ≡ (W.means.view table.old self.old.seat).asked }
        ensures in_packet { in_packet (W.means.view table.new self.new.seat) ≡ true }
        ensures depth { open_depth (W.means.view table.new self.new.seat) ≡ open_depth (W.means.view table.old self.old.seat) }
    {
        let len = u64::from(times) * value.len() as u64;
        // A longer one is refused, whatever stands before it.
        let counted = len.min(u64::from(MAX_PACKET_LEN)) as u32;
        let size = bytes_head_size(field, counted);
        check_field(&self.writer.packet, field, u64::from(size) + len)?;
        write_text(
            &mut self.writer,
            table,
            &mut self.seat,
            help,
            field,
            counted,
            size,
            value,
            times,
            steps,
        )
    }

    /// Begins a nested message.
    pub fn begin_nested<W: Words<Writer = S>, L: Ledger, H: HelperOn<W>>(
        &mut self,
        table: &mut W,
        help: &mut H,
        field: u32,
        steps: &mut Steps<L>,
    ) -> Result<(), CallFault>
        requires may_call { MayCall W.means H.needs (at_call self.old help.old table.old steps.old) }
        requires begun { in_packet (W.means.view table.old self.old.seat) ≡ true }
        requires field { (1 ≤ field) × (field ≤ MAX_FIELD) }
        ensures call { (stopped : Bool) × MakesCall W.means H.needs H.helps (call.Nested field) stopped
            (at_call self.old help.old table.old steps.old) result (at_call self.new help.new table.new steps.new) }
        ensures asked { FitsHere self.old (length (nested_tag field) + 4)
            → (W.means.view table.new self.new.seat).asked ≡ (W.means.view table.old self.old.seat).asked }
        ensures in_packet { in_packet (W.means.view table.new self.new.seat) ≡ true }
    {
        let size = nested_tag_size(field);
        check_nested(&self.writer.packet, field, size)?;
        write_nested(
            &mut self.writer,
            table,
            &mut self.seat,
            help,
            field,
            size,
            steps,
        )
    }

    /// Ends the innermost nested message. Where the writer stalls nothing changes.
    pub fn end_nested<W: Words<Writer = S>>(&mut self, table: &mut W)
        requires stands { Stands W.means table.old self.old }
        requires depth { 0 < open_depth (W.means.view table.old self.old.seat) }
        ensures call { NotesCall W.means call.Ended table.old self.old table.new self.new }
        ensures others { record (W.means.view table.new self.new.seat) { calls = (W.means.view table.old self.old.seat).calls }
            ≡ W.means.view table.old self.old.seat }
        ensures in_packet { in_packet (W.means.view table.new self.new.seat) ≡ true }
        ensures depth_falls { is_stalled self.old ≡ false
            → open_depth (W.means.view table.new self.new.seat) + 1 ≡ open_depth (W.means.view table.old self.old.seat) }
    {
        end_message(&mut self.writer, table, &mut self.seat);
    }

    /// Ends the packet. Where the writer stalls nothing changes.
    pub fn finish<W: Words<Writer = S>>(&mut self, table: &mut W)
        requires stands { Stands W.means table.old self.old }
        requires begun { in_packet (W.means.view table.old self.old.seat) ≡ true }
        requires depth { open_depth (W.means.view table.old self.old.seat) ≡ 0 }
        ensures call { NotesCall W.means call.Finished table.old self.old table.new self.new }
        ensures others { record (W.means.view table.new self.new.seat) { calls = (W.means.view table.old self.old.seat).calls }
            ≡ W.means.view table.old self.old.seat }
        ensures in_packet { is_stalled self.old ≡ false → in_packet (W.means.view table.new self.new.seat) ≡ false }
    {
        finish(&mut self.writer, table, &mut self.seat);
    }

    /// Completes the held chunk, where there is one. Where the writer stalls nothing changes.
    pub fn flush<W: Words<Writer = S>>(&mut self, table: &mut W)
        requires stands { Stands W.means table.old self.old }
        requires none_begun { in_packet (W.means.view table.old self.old.seat) ≡ false }
        ensures call { NotesCall W.means call.Flushed table.old self.old table.new self.new }
        ensures none_held { holds_chunk self.new ≡ false }
        ensures in_packet { in_packet (W.means.view table.new self.new.seat) ≡ false }
    {
        flush(&mut self.writer, table, &mut self.seat);
    }

    /// Chunk ids that are left: the writer can begin so many chunks more.
    pub fn ids_left(&self) -> u64
        ensures { (setup : Setup) (place : ℕ) (view : WriterView) → CoreAgrees setup place view self.now
            → result ≡ POSITION_LIMIT - length view.begun }
    {
        let next_position = match &self.writer.state {
            State::Between(chunk) => chunk.held.position + 1,
            State::Writing(fragment) => fragment.held.position + 1,
            State::Idle { next_position } => *next_position,
            State::Dropping { next_position } => *next_position,
            State::Stalled { next_position } => *next_position,
        };
        u64::from(u32::MAX - next_position)
    }

    /// Packets that were begun.
    pub fn begun(&self) -> u64
        ensures { (setup : Setup) (place : ℕ) (view : WriterView) → CoreAgrees setup place view self.now
            → result ≡ counted (begun_count view.calls) }
    {
        self.writer.begun
    }

    /// Those of them that were dropped at their begin.
    pub fn dropped_at_begin(&self) -> u64
        ensures { (setup : Setup) (place : ℕ) (view : WriterView) → CoreAgrees setup place view self.now
            → result ≡ counted (dropped_at_begin view.calls) }
    {
        self.writer.dropped
    }

    /// Chunks that were completed.
    pub fn completed(&self) -> u32
        ensures { (setup : Setup) (place : ℕ) (view : WriterView) → CoreAgrees setup place view self.now
            → result ≡ length (completed_images view.begun) }
    {
        match &self.writer.state {
            State::Between(chunk) => chunk.held.position,
            State::Writing(fragment) => fragment.held.position,
            State::Idle { next_position } => *next_position,
            State::Dropping { next_position } => *next_position,
            State::Stalled { next_position } => *next_position,
        }
    }

    /// Open nested messages.
    pub fn depth(&self) -> u8
        ensures { (setup : Setup) (place : ℕ) (view : WriterView) → CoreAgrees setup place view self.now → result ≡ open_depth view }
    {
        match &self.writer.packet {
            Some(packet) => packet.depth() as u8,
            None => 0,
        }
    }

    /// Whether the writer has stalled.
    pub fn is_stalled(&self) -> bool
        ensures { result ≡ is_stalled self.now }
    {
        crate::state::is_stalled(&self.writer.state)
    }

    pub fn in_packet(&self) -> bool
        ensures { (setup : Setup) (place : ℕ) (view : WriterView) → CoreAgrees setup place view self.now → result ≡ in_packet view }
    {
        self.writer.packet.is_some()
    }

    /// The seat, where no chunk is held.
    pub fn into_seat(self) -> S
        requires { holds_chunk self ≡ false }
        ensures { result ≡ self.seat }
    {
        self.give_up()
    }

    /// The seat, and nothing of what the writer still holds: for the way out after a fault. The chunk
    /// that is held is never completed then.
    pub fn give_up(self) -> S
        ensures { result ≡ self.seat }
    {
        let WriterCore { seat, writer } = self;
        let Writer {
            route: _,
            state,
            packet: _,
            pending: _,
            follows_loss: _,
            begun: _,
            dropped: _,
        } = writer;
        drop_state(state);
        seat
    }
}

/// Lets go of a state, and of its chunk.
fn drop_state(state: State) {
    match state {
        State::Idle { next_position: _ } | State::Dropping { next_position: _ } => {}
        State::Stalled { next_position: _ } => {}
        State::Between(chunk) => chunk.drop_chunk(),
        State::Writing(fragment) => fragment.drop_chunk(),
    }
}

/// Whether a field of so many bytes may come next in the packet that is begun.
#[inline(always)]
fn check_field(packet: &Option<OpenPacket>, field: u32, more: u64) -> Result<(), CallFault>
    requires { is_begun packet.now ≡ true }
    ensures refused { IfErr result (λ fault. field_refusal (open_message_count packet.now) (len_of packet.now) field more ≡ Some fault) }
    ensures accepted { IfOk result (λ _. field_refusal (open_message_count packet.now) (len_of packet.now) field more ≡ None) }
{
    let Some(packet) = packet else { unreachable!() };
    packet.check_field(field, more)
}

/// Whether a nested message may, whose tag has so many bytes.
#[inline(always)]
fn check_nested(packet: &Option<OpenPacket>, field: u32, tag_len: u32) -> Result<(), CallFault>
    requires begun { is_begun packet.now ≡ true }
    requires tag { tag_len ≤ 10 }
    ensures refused { IfErr result (λ fault. nested_refusal (open_message_count packet.now) (len_of packet.now) field tag_len
        ≡ Some fault) }
    ensures accepted { IfOk result (λ _. nested_refusal (open_message_count packet.now) (len_of packet.now) field tag_len ≡ None) }
    ensures shallow { IfOk result (λ _. open_message_count packet.now < MAX_OPEN_HOLES) }
{
    let Some(packet) = packet else { unreachable!() };
    packet.check_nested(field, tag_len)
}
