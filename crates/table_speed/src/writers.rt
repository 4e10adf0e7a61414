//! A writer that writes the same packet again and again: a number, and a message with a text and a
//! number.
ghost use Rattle.std.specs.Prelude.{◌≡◌, ◌+◌, ◌<◌, ◌≤◌, true, false, length};
ghost use Rattle.page_geometry.specs.Sizes.{payload_size};
ghost use Rattle.trace_base.specs.declared.limits.TheConstants.{MAX_FIELD, MAX_INPUT};
ghost use Rattle.chunk_plain.specs.declared.tokens.TheConstants.{POSITION_LIMIT};
ghost use Rattle.trace_writer.specs.declared.ids.TheConstants.{PACKET_IDS};
ghost use Rattle.trace_writer.specs.Core.{in_packet, open_depth};
ghost use Rattle.thread_writer.specs.Writing.{view_in};
ghost use Rattle.table_speed.specs.Going.{IsReady};
ghost use Rattle.table_speed.specs.Timed.{IsFresh};

use crate::places::{Place, Tally};
use chunk_words::HostTable;
use claim_arbiter::Arbiter;
use page_geometry::Geometry;
use std::marker::Brand;
use std::sync::ledger::{Blank, Ledger};
use thread_writer::{Asks, TraceWriter};
use trace_base::policy::{WriterPolicy, WriterSpec};
use trace_base::steps::Steps;
use trace_writer::{NoHelp, PACKET_IDS, drops_never_stall};

/// The writer of a seat with which nothing was done.
pub fn writer_for(host: &HostTable, place: Place, geometry: Geometry) -> TraceWriter
    requires fresh { IsFresh host.now place }
    requires size { payload_size geometry.page_size geometry.chunks ≡ 284 }
    ensures ready { IsReady host.now result }
    ensures outside { in_packet (view_in result) ≡ false }
{
    let Place {
        seat,
        number: _,
        producer,
    } = place;
    let (first, count) = host.chunks_of(producer);
    let spec = WriterSpec {
        producer,
        buffer: 1,
        policy: WriterPolicy::Drops,
        from: 0,
    };
    TraceWriter::make(seat, spec, Arbiter::new(first, count), geometry)
}

/// A number that is refused is left out, and so are other fields.
fn write_number<L: Ledger>(
    writer: &mut TraceWriter,
    host: &HostTable,
    field: u32,
    value: u64,
    steps: &mut Steps<L>,
)
    requires ready { IsReady host.now writer.old }
    requires inside { in_packet (view_in writer.old) ≡ true }
    requires least { 1 ≤ field }
    requires most { field ≤ MAX_FIELD }
    ensures ready { IsReady host.now writer.new }
    ensures inside { in_packet (view_in writer.new) ≡ true }
{
    let mut asks = Asks { help: NoHelp };
    let _ = writer.varint(host, &mut asks, field, value, steps);
}

fn write_text<L: Ledger>(
    writer: &mut TraceWriter,
    host: &HostTable,
    field: u32,
    text: &[u8],
    steps: &mut Steps<L>,
)
    requires ready { IsReady host.now writer.old }
    requires inside { in_packet (view_in writer.old) ≡ true }
    requires least { 1 ≤ field }
    requires most { field ≤ MAX_FIELD }
    requires text { length text.now ≤ MAX_INPUT }
    ensures ready { IsReady host.now writer.new }
    ensures inside { in_packet (view_in writer.new) ≡ true }
{
    let mut asks = Asks { help: NoHelp };
    let _ = writer.bytes(host, &mut asks, field, text, 1, steps);
}

fn begin_message<L: Ledger>(
    writer: &mut TraceWriter,
    host: &HostTable,
    field: u32,
    steps: &mut Steps<L>,
)
    requires ready { IsReady host.now writer.old }
    requires inside { in_packet (view_in writer.old) ≡ true }
    requires least { 1 ≤ field }
    requires most { field ≤ MAX_FIELD }
    ensures ready { IsReady host.now writer.new }
    ensures inside { in_packet (view_in writer.new) ≡ true }
{
    let mut asks = Asks { help: NoHelp };
    let _ = writer.begin_nested(host, &mut asks, field, steps);
}

fn begin_packet<L: Ledger>(writer: &mut TraceWriter, host: &HostTable, steps: &mut Steps<L>)
    requires ready { IsReady host.now writer.old }
    requires outside { in_packet (view_in writer.old) ≡ false }
    requires ids { length (view_in writer.old).begun + PACKET_IDS ≤ POSITION_LIMIT }
    ensures ready { IsReady host.now writer.new }
    ensures inside { in_packet (view_in writer.new) ≡ true }
{
    drops_never_stall();
    let mut asks = Asks { help: NoHelp };
    // It begins each packet, since it drops those for which no chunk is free.
    let Ok(_begun) = writer.begin(host, &mut asks, steps) else {
        unreachable!()
    };
}

/// Ends the packet with each message that is open in it.
fn end_packet(writer: &mut TraceWriter, host: &HostTable)
    requires ready { IsReady host.now writer.old }
    requires inside { in_packet (view_in writer.old) ≡ true }
    ensures ready { IsReady host.now writer.new }
    ensures outside { in_packet (view_in writer.new) ≡ false }
{
    drops_never_stall();
    'messages: while writer.depth() != 0 {
        writer.end_nested(host);
    }
    writer.finish(host);
}

/// Writes `8:1234567890 900{1:"abc" 2:42}`.
fn write_packet<L: Ledger>(writer: &mut TraceWriter, host: &HostTable, steps: &mut Steps<L>)
    requires ready { IsReady host.now writer.old }
    requires outside { in_packet (view_in writer.old) ≡ false }
    requires ids { length (view_in writer.old).begun + PACKET_IDS ≤ POSITION_LIMIT }
    ensures ready { IsReady host.now writer.new }
    ensures outside { in_packet (view_in writer.new) ≡ false }
{
    begin_packet(writer, host, steps);
    write_number(writer, host, 8, 1_234_567_890, steps);
    begin_message(writer, host, 900, steps);
    write_text(writer, host, 1, b"abc", steps);
    write_number(writer, host, 2, 42, steps);
    end_packet(writer, host);
}

/// Writes so many packets, and lets the writer go.
fn write_packets<L: Ledger>(
    host: &HostTable,
    mut writer: TraceWriter,
    packets: u32,
    blank: Blank,
) -> Tally
    requires ready { IsReady host.now writer }
    requires outside { in_packet (view_in writer) ≡ false }
    requires name { blank.name ≡ L.name }
    requires parts { blank.parts ≡ L.parts }
    requires some_part { 0 < L.parts }
{
    let mut steps = Steps::<L>::new(blank);
    for _ in 0..packets {
        if writer.ids_left() < PACKET_IDS {
            break;
        }
        write_packet(&mut writer, host, &mut steps);
    }
    writer.flush(host);
    let tally = Tally {
        written: writer.begun().saturating_sub(writer.dropped_at_begin()),
        chunks: writer.completed(),
        taken: 0,
    };
    let _seat = writer.into_seat();
    tally
}

/// The same by the writer of a seat with which nothing was done.
pub fn write_counted(host: &HostTable, place: Place, geometry: Geometry, packets: u32) -> Tally
    requires fresh { IsFresh host.now place }
    requires size { payload_size geometry.page_size geometry.chunks ≡ 284 }
{
    let writer = writer_for(host, place, geometry);
    write_packets::<Brand>(host, writer, packets, Blank::new(1))
}
