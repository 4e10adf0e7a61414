//! The calls of a writer that is lent to a program. It drops packets where no chunk is free, so it asks
//! nobody for help and never stalls.
ghost use Rattle.std.specs.Prelude.{◌≡◌, ◌+◌, ◌<◌, ◌≤◌, true, false, [], ◌∷◌, length};
ghost use Rattle.trace_base.specs.declared.limits.TheConstants.{MAX_INPUT};
ghost use Rattle.chunk_plain.specs.declared.tokens.TheConstants.{POSITION_LIMIT};
ghost use Rattle.trace_model.specs.Calls as call;
ghost use Rattle.trace_writer.specs.declared.ids.TheConstants.{PACKET_IDS};
ghost use Rattle.trace_writer.specs.Core.{in_packet, open_depth, holds_chunk};
ghost use Rattle.thread_host.specs.Terms.{IsBlankOf};
ghost use Rattle.thread_writer.specs.Writing.{core_of};
ghost use Rattle.tracesmb_c.specs.Lending.{view_of, IsReady, IsField, Notes, BeginsPacket, WritesField};

use crate::writer::OwnedWriter;
use std::marker::Brand;
use std::sync::ledger::{Blank, Ledger};
use thread_writer::Asks;
use trace_base::steps::Steps;
use trace_writer::{Begun, CallFault, NoHelp, drops_never_stall};

impl OwnedWriter {
    /// Begins a packet, which is dropped as a whole where it needs a chunk and none is free.
    pub fn begin(&mut self) -> Begun
        requires ready { IsReady self.old }
        requires none_begun { in_packet (view_of self.old) ≡ false }
        requires ids { length (view_of self.old).begun + PACKET_IDS ≤ POSITION_LIMIT }
        ensures { BeginsPacket result self.old self.new }
    {
        self.begin_at::<Brand>(Blank::new(1))
    }

    /// Writes a number.
    pub fn varint(&mut self, field: u32, value: u64) -> Result<(), CallFault>
        requires ready { IsReady self.old }
        requires begun { in_packet (view_of self.old) ≡ true }
        requires field { IsField field }
        ensures writes { WritesField (call.Number field value) result self.old self.new }
        ensures depth { open_depth (view_of self.new) ≡ open_depth (view_of self.old) }
    {
        self.varint_at::<Brand>(field, value, Blank::new(1))
    }

    /// Writes a text.
    pub fn bytes(&mut self, field: u32, value: &[u8]) -> Result<(), CallFault>
        requires ready { IsReady self.old }
        requires begun { in_packet (view_of self.old) ≡ true }
        requires field { IsField field }
        requires text { length value.now ≤ MAX_INPUT }
        ensures writes { WritesField (call.Bytes field value.now 1) result self.old self.new }
        ensures depth { open_depth (view_of self.new) ≡ open_depth (view_of self.old) }
    {
        self.bytes_at::<Brand>(field, value, Blank::new(1))
    }

    /// Begins a nested message.
    pub fn begin_nested(&mut self, field: u32) -> Result<(), CallFault>
        requires ready { IsReady self.old }
        requires begun { in_packet (view_of self.old) ≡ true }
        requires field { IsField field }
        ensures { WritesField (call.Nested field) result self.old self.new }
    {
        self.begin_nested_at::<Brand>(field, Blank::new(1))
    }

    /// Ends the innermost nested message.
    pub fn end_nested(&mut self)
        requires ready { IsReady self.old }
        requires depth { 0 < open_depth (view_of self.old) }
        ensures ready { IsReady self.new }
        ensures notes { Notes self.old self.new (call.Ended ∷ []) }
        ensures begun { in_packet (view_of self.new) ≡ true }
        ensures depth_falls { open_depth (view_of self.new) + 1 ≡ open_depth (view_of self.old) }
    {
        drops_never_stall();
        self.writer.end_nested(&self.table);
    }

    /// Ends the packet.
    pub fn finish(&mut self)
        requires ready { IsReady self.old }
        requires begun { in_packet (view_of self.old) ≡ true }
        requires depth { open_depth (view_of self.old) ≡ 0 }
        ensures ready { IsReady self.new }
        ensures notes { Notes self.old self.new (call.Finished ∷ []) }
        ensures none_begun { in_packet (view_of self.new) ≡ false }
    {
        drops_never_stall();
        self.writer.finish(&self.table);
    }

    /// Completes the chunk that it holds, where it holds one.
    pub fn flush(&mut self)
        requires ready { IsReady self.old }
        requires none_begun { in_packet (view_of self.old) ≡ false }
        ensures ready { IsReady self.new }
        ensures notes { Notes self.old self.new (call.Flushed ∷ []) }
        ensures none_begun { in_packet (view_of self.new) ≡ false }
        ensures none_held { holds_chunk (core_of self.new.writer) ≡ false }
    {
        drops_never_stall();
        self.writer.flush(&self.table);
    }
}

/// The calls that count their steps, on a ledger that their type names.
impl OwnedWriter {
    fn begin_at<L: Ledger>(&mut self, blank: Blank) -> Begun
        requires blank { IsBlankOf L.name L.parts blank }
        requires ready { IsReady self.old }
        requires none_begun { in_packet (view_of self.old) ≡ false }
        requires ids { length (view_of self.old).begun + PACKET_IDS ≤ POSITION_LIMIT }
        ensures { BeginsPacket result self.old self.new }
    {
        drops_never_stall();
        let mut steps = Steps::<L>::new(blank);
        let mut asks = Asks { help: NoHelp };
        let Ok(begun) = self.writer.begin(&self.table, &mut asks, &mut steps) else {
            unreachable!()
        };
        begun
    }

    fn varint_at<L: Ledger>(
        &mut self,
        field: u32,
        value: u64,
        blank: Blank,
    ) -> Result<(), CallFault>
        requires blank { IsBlankOf L.name L.parts blank }
        requires ready { IsReady self.old }
        requires begun { in_packet (view_of self.old) ≡ true }
        requires field { IsField field }
        ensures writes { WritesField (call.Number field value) result self.old self.new }
        ensures depth { open_depth (view_of self.new) ≡ open_depth (view_of self.old) }
    {
        drops_never_stall();
        let mut steps = Steps::<L>::new(blank);
        let mut asks = Asks { help: NoHelp };
        self.writer
            .varint(&self.table, &mut asks, field, value, &mut steps)
    }

    fn bytes_at<L: Ledger>(
        &mut self,
        field: u32,
        value: &[u8],
        blank: Blank,
    ) -> Result<(), CallFault>
        requires blank { IsBlankOf L.name L.parts blank }
        requires ready { IsReady self.old }
        requires begun { in_packet (view_of self.old) ≡ true }
        requires field { IsField field }
        requires text { length value.now ≤ MAX_INPUT }
        ensures writes { WritesField (call.Bytes field value.now 1) result self.old self.new }
        ensures depth { open_depth (view_of self.new) ≡ open_depth (view_of self.old) }
    {
        drops_never_stall();
        let mut steps = Steps::<L>::new(blank);
        let mut asks = Asks { help: NoHelp };
        self.writer
            .bytes(&self.table, &mut asks, field, value, 1, &mut steps)
    }

    fn begin_nested_at<L: Ledger>(&mut self, field: u32, blank: Blank) -> Result<(), CallFault>
        requires blank { IsBlankOf L.name L.parts blank }
        requires ready { IsReady self.old }
        requires begun { in_packet (view_of self.old) ≡ true }
        requires field { IsField field }
        ensures { WritesField (call.Nested field) result self.old self.new }
    {
        drops_never_stall();
        let mut steps = Steps::<L>::new(blank);
        let mut asks = Asks { help: NoHelp };
        self.writer
            .begin_nested(&self.table, &mut asks, field, &mut steps)
    }
}
