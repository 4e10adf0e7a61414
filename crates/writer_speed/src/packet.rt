//! The packet that is written again and again: a number, and a message with a text and a number.
ghost use Rattle.std.specs.Prelude.{◌≡◌, ◌+◌, ◌≤◌, true, false, length};
ghost use Rattle.chunk_plain.specs.declared.tokens.TheConstants.{POSITION_LIMIT};
ghost use Rattle.trace_writer.specs.declared.ids.TheConstants.{PACKET_IDS};
ghost use Rattle.trace_base.specs.declared.limits.TheConstants.{MAX_FIELD, MAX_INPUT};
ghost use Rattle.trace_writer.specs.Core.{in_packet};
ghost use Rattle.writer_speed.specs.Going.{IsReady, GoesOn};

use chunk_plain::Words;
use std::sync::ledger::Ledger;
use trace_base::steps::Steps;
use trace_writer::{NoHelp, WriterCore, drops_never_stall};

/// A number that is refused is left out, and so are other fields.
fn write_number<W: Words, L: Ledger>(
    writer: &mut WriterCore<W::Writer>,
    table: &mut W,
    field: u32,
    value: u64,
    steps: &mut Steps<L>,
)
    requires ready { IsReady W.means table.old writer.old }
    requires inside { in_packet (W.means.view table.old writer.old.seat) ≡ true }
    requires least { 1 ≤ field }
    requires most { field ≤ MAX_FIELD }
    ensures goes { GoesOn W.means table.old writer.old table.new writer.new }
    ensures inside { in_packet (W.means.view table.new writer.new.seat) ≡ true }
{
    let _ = writer.varint(table, &mut NoHelp, field, value, steps);
}

fn write_text<W: Words, L: Ledger>(
    writer: &mut WriterCore<W::Writer>,
    table: &mut W,
    field: u32,
    text: &[u8],
    steps: &mut Steps<L>,
)
    requires ready { IsReady W.means table.old writer.old }
    requires inside { in_packet (W.means.view table.old writer.old.seat) ≡ true }
    requires least { 1 ≤ field }
    requires most { field ≤ MAX_FIELD }
    requires text { length text.now ≤ MAX_INPUT }
    ensures goes { GoesOn W.means table.old writer.old table.new writer.new }
    ensures inside { in_packet (W.means.view table.new writer.new.seat) ≡ true }
{
    let _ = writer.bytes(table, &mut NoHelp, field, text, 1, steps);
}

fn begin_message<W: Words, L: Ledger>(
    writer: &mut WriterCore<W::Writer>,
    table: &mut W,
    field: u32,
    steps: &mut Steps<L>,
)
    requires ready { IsReady W.means table.old writer.old }
    requires inside { in_packet (W.means.view table.old writer.old.seat) ≡ true }
    requires least { 1 ≤ field }
    requires most { field ≤ MAX_FIELD }
    ensures goes { GoesOn W.means table.old writer.old table.new writer.new }
    ensures inside { in_packet (W.means.view table.new writer.new.seat) ≡ true }
{
    let _ = writer.begin_nested(table, &mut NoHelp, field, steps);
}

/// Ends the packet with each message that is open in it.
fn end_packet<W: Words>(writer: &mut WriterCore<W::Writer>, table: &mut W)
    requires ready { IsReady W.means table.old writer.old }
    requires inside { in_packet (W.means.view table.old writer.old.seat) ≡ true }
    ensures goes { GoesOn W.means table.old writer.old table.new writer.new }
    ensures outside { in_packet (W.means.view table.new writer.new.seat) ≡ false }
{
    drops_never_stall();
    'messages: while writer.depth() != 0 {
        writer.end_nested(table);
    }
    writer.finish(table);
}

fn begin_packet<W: Words, L: Ledger>(
    writer: &mut WriterCore<W::Writer>,
    table: &mut W,
    steps: &mut Steps<L>,
)
    requires ready { IsReady W.means table.old writer.old }
    requires outside { in_packet (W.means.view table.old writer.old.seat) ≡ false }
    requires ids { length (W.means.view table.old writer.old.seat).begun + PACKET_IDS ≤ POSITION_LIMIT }
    ensures goes { GoesOn W.means table.old writer.old table.new writer.new }
    ensures inside { in_packet (W.means.view table.new writer.new.seat) ≡ true }
{
    drops_never_stall();
    // It begins each packet, since it drops those for which no chunk is free.
    let Ok(_begun) = writer.begin(table, &mut NoHelp, steps) else {
        unreachable!()
    };
}

/// Writes `8:1234567890 900{1:"abc" 2:42}`.
pub fn write_packet<W: Words, L: Ledger>(
    writer: &mut WriterCore<W::Writer>,
    table: &mut W,
    steps: &mut Steps<L>,
)
    requires ready { IsReady W.means table.old writer.old }
    requires outside { in_packet (W.means.view table.old writer.old.seat) ≡ false }
    requires ids { length (W.means.view table.old writer.old.seat).begun + PACKET_IDS ≤ POSITION_LIMIT }
    ensures goes { GoesOn W.means table.old writer.old table.new writer.new }
    ensures outside { in_packet (W.means.view table.new writer.new.seat) ≡ false }
{
    begin_packet(writer, table, steps);
    write_number(writer, table, 8, 1_234_567_890, steps);
    begin_message(writer, table, 900, steps);
    write_text(writer, table, 1, b"abc", steps);
    write_number(writer, table, 2, 42, steps);
    end_packet(writer, table);
}
