//! Playing the lines of one writer.
ghost use Rattle.std.specs.Prelude.{◌≡◌, ℕ, suc, ◌<◌, [], ◌∷◌, ◌++◌};
ghost use Rattle.trace_model.specs.Calls.{Flushed};
ghost use Rattle.scenario_text.specs.Accepted.{named_calls, calls_asked};
ghost use Rattle.thread_host.specs.Hosts.{HasPlayed};
ghost use Rattle.thread_host.specs.Playing.{HelpsLosses, IsGoing, MayBeAsked, StaysGoing, WasAsked};

use crate::asking::{ask, ask_fields, ask_packet};
use byte_io::traits::Gate;
use chunk_plain::WriterCall;
use chunk_words::HostTable;
use scenario_text::{LineKind, LinesByWriter};
use std::sync::ledger::{Blank, Ledger};
use thread_writer::{Asks, Helper, TraceWriter};
use trace_base::steps::Steps;

/// Plays a line of this writer.
fn play_line<H: Helper, L: Ledger>(
    table: &HostTable,
    help: &mut Asks<H>,
    steps: &mut Steps<L>,
    writer: &mut TraceWriter,
    line: &LineKind<'_>,
)
    requires going { MayBeAsked H.helps H.of_table table.now (named_calls line.now) help.old writer.old }
    ensures asked { WasAsked H.helps H.of_table table.now (named_calls line.now) help.old writer.old help.new writer.new }
    ensures helped { HelpsLosses H.helps help.old writer.old help.new writer.new }
{
    match line {
        LineKind::Packet { writer: _, fields } => ask_packet(table, help, steps, writer, fields),
        LineKind::Begin { writer: _ } => {
            ask(table, help, steps, writer, WriterCall::Begun { kept: true })
        }
        LineKind::Add { writer: _, fields } => ask_fields(table, help, steps, writer, fields),
        LineKind::Nest { writer: _, field } => ask(
            table,
            help,
            steps,
            writer,
            WriterCall::Nested { field: *field },
        ),
        LineKind::Unnest { writer: _ } => ask(table, help, steps, writer, WriterCall::Ended),
        LineKind::End { writer: _ } => ask(table, help, steps, writer, WriterCall::Finished),
        LineKind::Flush { writer: _ } => ask(table, help, steps, writer, WriterCall::Flushed),
        _ => {}
    }
}

/// Plays a line of this writer, which first answers the newest flush request where no packet is begun.
fn poll_and_play<H: Helper, L: Ledger>(
    table: &HostTable,
    help: &mut Asks<H>,
    steps: &mut Steps<L>,
    writer: &mut TraceWriter,
    line: &LineKind<'_>,
)
    requires going { MayBeAsked H.helps H.of_table table.now (named_calls line.now) help.old writer.old }
    ensures asked { WasAsked H.helps H.of_table table.now (named_calls line.now) help.old writer.old help.new writer.new }
    ensures helped { HelpsLosses H.helps help.old writer.old help.new writer.new }
{
    poll(table, help, writer);
    play_line(table, help, steps, writer, line);
}

/// Answers the newest flush request, where no packet is begun.
fn poll<H: Helper>(table: &HostTable, _help: &Asks<H>, writer: &mut TraceWriter)
    requires going { MayBeAsked H.helps H.of_table table.now [] _help.now writer.old }
    ensures stays { StaysGoing H.helps H.of_table table.now _help.now writer.old writer.new }
    ensures helped { HelpsLosses H.helps _help.now writer.old _help.now writer.new }
{
    if writer.in_packet() {
        return;
    }
    let _answer = writer.poll_flush(table);
}

/// Plays those of the lines that are this writer's, and passes the gate before each. Answers the number
/// under which it is to be passed next.
fn play_lines<G: Gate, H: Helper, L: Ledger>(
    gate: &G,
    table: &HostTable,
    help: &mut Asks<H>,
    steps: &mut Steps<L>,
    lines: &LinesByWriter<'_>,
    number: u16,
    writer: &mut TraceWriter,
) -> u64
    requires going { MayBeAsked H.helps H.of_table table.now (calls_asked number lines.now) help.old writer.old }
    ensures asked { WasAsked H.helps H.of_table table.now (calls_asked number lines.now) help.old writer.old help.new writer.new }
    ensures helped { HelpsLosses H.helps help.old writer.old help.new writer.new }
{
    // There are never so many lines that the turn stands still.
    let mut turn: u64 = 1;
    let mut walk = lines.walk_of(number);
    'lines: while let Some(line) = walk.next() {
        gate.pass(number, turn);
        turn = turn.saturating_add(1);
        poll_and_play(table, help, steps, writer, &line);
    }
    turn
}

/// Plays the writer's lines, and then a flush, with this helper. Nobody asks how many steps it takes.
pub(crate) fn play_all<G: Gate, H: Helper, L: Ledger>(
    gate: &G,
    table: &HostTable,
    help: &mut Asks<H>,
    blank: Blank,
    lines: &LinesByWriter<'_>,
    number: u16,
    writer: &mut TraceWriter,
)
    requires going { (place : ℕ) × IsGoing H.helps H.of_table table.now place [] (calls_asked number lines.now ++ Flushed ∷ [])
        help.old writer.old }
    requires name { blank.name ≡ L.name }
    requires parts { blank.parts ≡ L.parts }
    requires some_part { 0 < L.parts }
    ensures played { (place : ℕ) → number ≡ suc place
        → IsGoing H.helps H.of_table table.now place [] (calls_asked number lines.now ++ Flushed ∷ []) help.old writer.old
        → HasPlayed lines.now (Flushed ∷ []) table.now place writer.new }
    ensures helped { HelpsLosses H.helps help.old writer.old help.new writer.new }
{
    let mut steps = Steps::<L>::new(blank);
    let turn = play_lines(gate, table, help, &mut steps, lines, number, writer);
    gate.pass(number, turn);
    writer.flush(table);
}
