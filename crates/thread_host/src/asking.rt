//! Asking a writer of threads for calls, with the helper that its policy wants.
ghost use Rattle.std.specs.Prelude.{◌≡◌, true, [], ◌∷◌, ◌++◌, map};
ghost use Rattle.trace_model.specs.Calls as calls;
ghost use Rattle.scenario_text.specs.Accepted.{node_call};
ghost use Rattle.chunk_plain.specs.Words.{call_of};
ghost use Rattle.replay_host.specs.Asking.{IsShortCall};
ghost use Rattle.thread_host.specs.Playing.{HelpsLosses, MayBeAsked, WasAsked};

use chunk_plain::WriterCall;
use chunk_words::{HostTable, Shared};
use field_tree::Fields;
use replay_host::{ask_one, call_of_node};
use std::sync::ledger::Ledger;
use thread_writer::{Asks, Helper, TraceWriter};
use trace_base::steps::Steps;

/// The writer is asked for a call, which it does: a helper that never refuses lets no writer stall.
#[inline(always)]
pub(crate) fn ask<H: Helper, L: Ledger>(
    table: &HostTable,
    help: &mut Asks<H>,
    steps: &mut Steps<L>,
    writer: &mut TraceWriter,
    call: WriterCall<'_>,
)
    requires going { MayBeAsked H.helps H.of_table table.now (call_of call ∷ []) help.old writer.old }
    requires short { IsShortCall (call_of call) }
    ensures asked { WasAsked H.helps H.of_table table.now (call_of call.entry ∷ []) help.old writer.old help.new writer.new }
    ensures helped { HelpsLosses H.helps help.old writer.old help.new writer.new }
{
    let mut shared = Shared { table };
    match ask_one(&mut *writer.core, &mut shared, help, steps, call) {
        Ok(()) => {}
        Err(_) => unreachable!(),
    }
}

/// The writer is asked for these fields.
pub(crate) fn ask_fields<H: Helper, L: Ledger>(
    table: &HostTable,
    help: &mut Asks<H>,
    steps: &mut Steps<L>,
    writer: &mut TraceWriter,
    fields: &Fields<'_>,
)
    requires going { MayBeAsked H.helps H.of_table table.now (map node_call fields.now) help.old writer.old }
    ensures asked { WasAsked H.helps H.of_table table.now (map node_call fields.now) help.old writer.old help.new writer.new }
    ensures helped { HelpsLosses H.helps help.old writer.old help.new writer.new }
{
    let mut left = fields.fields();
    'nodes: while let Some((node, text)) = left.next() {
        let call = call_of_node(node, text);
        ask(table, help, steps, writer, call);
    }
}

/// The writer is asked for a whole packet.
pub(crate) fn ask_packet<H: Helper, L: Ledger>(
    table: &HostTable,
    help: &mut Asks<H>,
    steps: &mut Steps<L>,
    writer: &mut TraceWriter,
    fields: &Fields<'_>,
)
    requires going { MayBeAsked H.helps H.of_table table.now (calls.Begun true ∷ map node_call fields.now ++ calls.Finished ∷ [])
        help.old writer.old }
    ensures asked { WasAsked H.helps H.of_table table.now (calls.Begun true ∷ map node_call fields.now ++ calls.Finished ∷ [])
        help.old writer.old help.new writer.new }
    ensures helped { HelpsLosses H.helps help.old writer.old help.new writer.new }
{
    ask(table, help, steps, writer, WriterCall::Begun { kept: true });
    ask_fields(table, help, steps, writer, fields);
    ask(table, help, steps, writer, WriterCall::Finished);
}
