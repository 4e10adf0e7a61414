//! The writer of a thread, over the table that threads share.
ghost use Rattle.std.specs.Prelude.{◌≡◌, ℕ, ◌+◌, ◌-◌, ◌<◌, ◌≤◌, Bool, true, false, Some, None, [], ◌∷◌, length, slice_get, IfOk};
ghost use Rattle.chunk_plain.specs.declared.tokens.TheConstants.{POSITION_LIMIT};
ghost use Rattle.trace_base.specs.declared.limits.TheConstants.{MAX_FIELD, MAX_INPUT};
ghost use Rattle.page_geometry.specs.Sizes.{payload_size};
ghost use Rattle.trace_model.specs.Calls as call;
ghost use Rattle.trace_model.specs.Encoding.{number_field, nested_tag};
ghost use Rattle.trace_model.specs.Packets.{begun_count, dropped_at_begin};
ghost use Rattle.chunk_plain.specs.Histories.{completed_images};
ghost use Rattle.chunk_plain.specs.Letters.{NoClaimSince};
ghost use Rattle.chunk_plain.specs.Setup.{spot, range_of, producer_of, HasProducer, IsChunkOf};
ghost use Rattle.chunk_plain.specs.Views.{newcomer, asked_in};
ghost use Rattle.chunk_words.specs.declared.host.HostTable.{HostTable};
ghost use Rattle.chunk_words.specs.Knows.{later};
ghost use Rattle.chunk_words.specs.Sits.{Sits, Passes, setup_in, known_by, known_by_pass};
ghost use Rattle.claim_arbiter.specs.Claiming.{range_in};
ghost use Rattle.trace_writer.specs.declared.ids.TheConstants.{PACKET_IDS};
ghost use Rattle.trace_writer.specs.Agreement.{counted};
ghost use Rattle.trace_writer.specs.Asked.{stops_with};
ghost use Rattle.trace_writer.specs.Core.{in_packet, open_depth, bytes_size};
ghost use Rattle.trace_writer.specs.Core.{holds_chunk, is_stalled, route_of, begins_here, FitsHere};
ghost use Rattle.thread_writer.specs.Lent.{lent};
ghost use Rattle.thread_writer.specs.Polling.{HearsAlone, IsFlushed, IsNewRequest, AnswersAlone, Polls};
ghost use Rattle.thread_writer.specs.Writing.{core_of, view_in, Writes, MayCallOn, IsCall, IsQuietCall, caller};

use crate::helper::{Asks, Helper};
use chunk_words::{HostTable, ReadPass, Shared, WriterSeat};
use claim_arbiter::Arbiter;
use crossbeam_utils::CachePadded;
use page_geometry::Geometry;
use std::sync::ledger::Ledger;
use trace_base::policy::{WriterPolicy, WriterSpec};
use trace_base::steps::Steps;
use trace_writer::{Begun, CallFault, WriterCore};

/// The writer of a thread, alone on its cache lines. It may hold a chunk, so it has to be ended by
/// `into_seat`.
pub struct TraceWriter {
    /// For a layer that asks writers over any table, and lends this one the table of its seat.
    pub core: CachePadded<WriterCore<WriterSeat>>,
    policy: WriterPolicy,
    /// The flush request that it answered last, 0 before the first one.
    answered: u32,
}

impl TraceWriter {
    /// A writer for a seat with which nothing was begun or noted.
    pub fn make(
        seat: WriterSeat,
        spec: WriterSpec,
        arbiter: Arbiter,
        geometry: Geometry,
    ) -> TraceWriter
        ensures seat { (core_of result).seat ≡ seat }
        ensures spec { (route_of (core_of result)).spec ≡ spec }
        ensures none_held { holds_chunk (core_of result) ≡ false }
        ensures going { is_stalled (core_of result) ≡ false }
        ensures writes { (table : HostTable) → Sits table seat → known_by seat ≡ newcomer
            → slice_get (setup_in table).writers seat.place ≡ Some spec → HasProducer (setup_in table) spec.producer
            → range_of (setup_in table) (producer_of (setup_in table) seat.place) ≡ range_in arbiter
            → ((chunk : ℕ) → IsChunkOf (setup_in table) (producer_of (setup_in table) seat.place) chunk
            → (spot (setup_in table) chunk).payload_size ≡ payload_size geometry.page_size geometry.chunks)
            → Writes table result }
    {
        let policy = spec.policy;
        TraceWriter {
            core: CachePadded::new(WriterCore::make(seat, spec, arbiter, geometry)),
            policy,
            answered: 0,
        }
    }

    /// What it does where each chunk of its producer is claimed.
    pub fn policy(&self) -> WriterPolicy
        ensures { (table : HostTable) → Writes table self.now → result ≡ (route_of (core_of self.now)).spec.policy }
    {
        self.policy
    }

    /// Begins a packet. It claims only where the packet is to begin in a new chunk.
    pub fn begin<L: Ledger, H: Helper>(
        &mut self,
        table: &HostTable,
        help: &mut Asks<H>,
        steps: &mut Steps<L>,
    ) -> Result<Begun, CallFault>
        requires may_call { MayCallOn H.of_table table.now (caller self.old help.old steps.old) }
        requires none_begun { in_packet (view_in self.old) ≡ false }
        requires ids { length (view_in self.old).begun + PACKET_IDS ≤ POSITION_LIMIT }
        ensures call { IsCall H.helps H.of_table (call.Begun true) (stops_with result)
            (lent table.entry) (caller self.old help.old steps.old) result (caller self.new help.new steps.new) }
        ensures asked { begins_here (core_of self.old) → (view_in self.new).asked ≡ (view_in self.old).asked }
        ensures in_packet { IfOk result (λ _. in_packet (view_in self.new) ≡ true) }
        ensures depth { IfOk result (λ _. open_depth (view_in self.new) ≡ 0) }
    {
        let mut shared = Shared { table };
        self.core.begin(&mut shared, help, steps)
    }

    /// Writes a number.
    pub fn varint<L: Ledger, H: Helper>(
        &mut self,
        table: &HostTable,
        help: &mut Asks<H>,
        field: u32,
        value: u64,
        steps: &mut Steps<L>,
    ) -> Result<(), CallFault>
        requires may_call { MayCallOn H.of_table table.now (caller self.old help.old steps.old) }
        requires begun { in_packet (view_in self.old) ≡ true }
        requires field { (1 ≤ field) × (field ≤ MAX_FIELD) }
        ensures call { (stopped : Bool) × IsCall H.helps H.of_table (call.Number field value) stopped
            (lent table.entry) (caller self.old help.old steps.old) result (caller self.new help.new steps.new) }
        ensures asked { FitsHere (core_of self.old) (length (number_field field value))
            → (view_in self.new).asked ≡ (view_in self.old).asked }
        ensures in_packet { in_packet (view_in self.new) ≡ true }
        ensures depth { open_depth (view_in self.new) ≡ open_depth (view_in self.old) }
    {
        let mut shared = Shared { table };
        self.core.varint(&mut shared, help, field, value, steps)
    }

    /// Writes a text, so many times over.
    pub fn bytes<L: Ledger, H: Helper>(
        &mut self,
        table: &HostTable,
        help: &mut Asks<H>,
        field: u32,
        value: &[u8],
        times: u32,
        steps: &mut Steps<L>,
    ) -> Result<(), CallFault>
        requires may_call { MayCallOn H.of_table table.now (caller self.old help.old steps.old) }
        requires begun { in_packet (view_in self.old) ≡ true }
        requires field { (1 ≤ field) × (field ≤ MAX_FIELD) }
        requires text { length value.now ≤ MAX_INPUT }
        ensures call { (stopped : Bool) × IsCall H.helps H.of_table (call.Bytes field value.now times) stopped
            (lent table.entry) (caller self.old help.old steps.old) result (caller self.new help.new steps.new) }
        ensures asked { FitsHere (core_of self.old) (bytes_size field times value.now)
            → (view_in self.new).asked ≡ (view_in self.old).asked }
        ensures in_packet { in_packet (view_in self.new) ≡ true }
        ensures depth { open_depth (view_in self.new) ≡ open_depth (view_in self.old) }
    {
        let mut shared = Shared { table };
        self.core
            .bytes(&mut shared, help, field, value, times, steps)
    }

    /// Begins a nested message.
    pub fn begin_nested<L: Ledger, H: Helper>(
        &mut self,
        table: &HostTable,
        help: &mut Asks<H>,
        field: u32,
        steps: &mut Steps<L>,
    ) -> Result<(), CallFault>
        requires may_call { MayCallOn H.of_table table.now (caller self.old help.old steps.old) }
        requires begun { in_packet (view_in self.old) ≡ true }
        requires field { (1 ≤ field) × (field ≤ MAX_FIELD) }
        ensures call { (stopped : Bool) × IsCall H.helps H.of_table (call.Nested field) stopped
            (lent table.entry) (caller self.old help.old steps.old) result (caller self.new help.new steps.new) }
        ensures asked { FitsHere (core_of self.old) (length (nested_tag field) + 4)
            → (view_in self.new).asked ≡ (view_in self.old).asked }
        ensures in_packet { in_packet (view_in self.new) ≡ true }
    {
        let mut shared = Shared { table };
        self.core.begin_nested(&mut shared, help, field, steps)
    }

    /// Ends the innermost nested message. Where the writer stalls nothing changes.
    pub fn end_nested(&mut self, table: &HostTable)
        requires writes { Writes table.now self.old }
        requires depth { 0 < open_depth (view_in self.old) }
        ensures writes { Writes table.now self.new }
        ensures call { IsQuietCall (lent table.entry) (core_of self.old) (core_of self.new) (call.Ended ∷ []) }
        ensures others { record (view_in self.new) { calls = (view_in self.old).calls } ≡ view_in self.old }
        ensures in_packet { in_packet (view_in self.new) ≡ true }
        ensures depth_falls { is_stalled (core_of self.old) ≡ false → open_depth (view_in self.new) + 1 ≡ open_depth (view_in self.old) }
    {
        let mut shared = Shared { table };
        self.core.end_nested(&mut shared);
    }

    /// Ends the packet. Where the writer stalls nothing changes.
    pub fn finish(&mut self, table: &HostTable)
        requires writes { Writes table.now self.old }
        requires begun { in_packet (view_in self.old) ≡ true }
        requires depth { open_depth (view_in self.old) ≡ 0 }
        ensures writes { Writes table.now self.new }
        ensures call { IsQuietCall (lent table.entry) (core_of self.old) (core_of self.new) (call.Finished ∷ []) }
        ensures others { record (view_in self.new) { calls = (view_in self.old).calls } ≡ view_in self.old }
        ensures in_packet { is_stalled (core_of self.old) ≡ false → in_packet (view_in self.new) ≡ false }
    {
        let mut shared = Shared { table };
        self.core.finish(&mut shared);
    }

    /// Completes the held chunk, where there is one. Where the writer stalls nothing changes.
    pub fn flush(&mut self, table: &HostTable)
        requires writes { Writes table.now self.old }
        requires none_begun { in_packet (view_in self.old) ≡ false }
        ensures writes { Writes table.now self.new }
        ensures call { IsQuietCall (lent table.entry) (core_of self.old) (core_of self.new) (call.Flushed ∷ []) }
        ensures none_held { holds_chunk (core_of self.new) ≡ false }
        ensures in_packet { in_packet (view_in self.new) ≡ false }
    {
        let mut shared = Shared { table };
        self.core.flush(&mut shared);
    }

    /// Answers the flush requests that were made since its last answer, if there are any: it flushes,
    /// and then answers with the chunks that it has completed. The number of the newest request, and
    /// how many chunks. Where the writer stalls nothing changes.
    pub fn poll_flush(&mut self, table: &HostTable) -> Option<(u32, u32)>
        requires writes { Writes table.now self.old }
        requires none_begun { in_packet (view_in self.old) ≡ false }
        ensures writes { Writes table.now self.new }
        ensures stalled { is_stalled (core_of self.old) ≡ true → (result ≡ None) × (self.new ≡ self.old) }
        ensures polls { is_stalled (core_of self.old) ≡ false → Polls result (core_of self.old) (core_of self.new) }
        ensures in_packet { in_packet (view_in self.new) ≡ false }
    {
        if self.core.is_stalled() {
            return None;
        }
        let flush = self.learn_requests(table);
        if flush <= self.answered {
            return None;
        }
        self.flush(table);
        let chunks = self.answer(table, flush);
        Some((flush, chunks))
    }

    /// Hears of the flush requests that the reading pass knows of.
    pub fn hear(&mut self, table: &HostTable, pass: &mut ReadPass)
        requires writes { Writes table.now self.old }
        requires pass { Passes table.now pass.old }
        ensures writes { Writes table.now self.new }
        ensures pass { Passes table.now pass.new }
        ensures known { known_by_pass pass.new ≡ known_by_pass pass.old }
        ensures heard { (view_in self.new).letters.known
            ≡ later (view_in self.old).letters.known (asked_in (known_by_pass pass.old).letters) }
        ensures alone { HearsAlone (core_of self.old) (core_of self.new) }
    {
        table.hear(&mut self.core.seat, pass);
    }

    /// How many flush requests were made by now.
    fn learn_requests(&mut self, table: &HostTable) -> u32
        requires writes { Writes table.now self.old }
        ensures writes { Writes table.now self.new }
        ensures known { (view_in self.new).letters.known ≡ result }
        ensures alone { HearsAlone (core_of self.old) (core_of self.new) }
        ensures answered { self.new.answered ≡ self.old.answered }
    {
        table.asked(&mut self.core.seat)
    }

    /// Answers the newest request with all completed chunks, behind a flush, which it noted since its
    /// last claim.
    fn answer(&mut self, table: &HostTable, flush: u32) -> u32
        requires writes { Writes table.now self.old }
        requires flushed { IsFlushed (view_in self.old).calls }
        requires none_held { holds_chunk (core_of self.old) ≡ false }
        requires no_claim { NoClaimSince (view_in self.old) }
        requires request { IsNewRequest flush (view_in self.old) }
        ensures writes { Writes table.now self.new }
        ensures complete { result ≡ length (completed_images (view_in self.old).begun) }
        ensures alone { AnswersAlone flush result (core_of self.old) (core_of self.new) }
    {
        let chunks = self.completed();
        table.answer(&mut self.core.seat, flush, chunks);
        self.answered = flush;
        chunks
    }

    /// Chunk ids that are left.
    pub fn ids_left(&self) -> u64
        ensures { (table : HostTable) → Writes table self.now → result ≡ POSITION_LIMIT - length (view_in self.now).begun }
    {
        self.core.ids_left()
    }

    /// Packets that were begun.
    pub fn begun(&self) -> u64
        ensures { (table : HostTable) → Writes table self.now → result ≡ counted (begun_count (view_in self.now).calls) }
    {
        self.core.begun()
    }

    /// Those of them that were dropped at their begin.
    pub fn dropped_at_begin(&self) -> u64
        ensures { (table : HostTable) → Writes table self.now → result ≡ counted (dropped_at_begin (view_in self.now).calls) }
    {
        self.core.dropped_at_begin()
    }

    /// Chunks that were completed.
    pub fn completed(&self) -> u32
        ensures { (table : HostTable) → Writes table self.now → result ≡ length (completed_images (view_in self.now).begun) }
    {
        self.core.completed()
    }

    /// Open nested messages.
    pub fn depth(&self) -> u8
        ensures { (table : HostTable) → Writes table self.now → result ≡ open_depth (view_in self.now) }
    {
        self.core.depth()
    }

    /// Whether a packet is begun.
    pub fn in_packet(&self) -> bool
        ensures { (table : HostTable) → Writes table self.now → result ≡ in_packet (view_in self.now) }
    {
        self.core.in_packet()
    }

    /// The seat, where no chunk is held.
    pub fn into_seat(self) -> WriterSeat
        requires { holds_chunk (core_of self) ≡ false }
        ensures { result ≡ (core_of self).seat }
    {
        let TraceWriter {
            core,
            policy: _,
            answered: _,
        } = self;
        core.into_inner().into_seat()
    }

    /// The seat, and nothing of what the writer still holds: for the way out after a fault. The chunk
    /// that is held is never completed then.
    pub fn give_up(self) -> WriterSeat
        ensures { result ≡ (core_of self).seat }
    {
        let TraceWriter {
            core,
            policy: _,
            answered: _,
        } = self;
        core.into_inner().give_up()
    }
}
