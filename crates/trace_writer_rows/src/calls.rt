//! Calls as data, each with how it is refused.
ghost use Rattle.std.specs.Prelude.{◌≡◌, ◌≤◌};
ghost use Rattle.chunk_plain.specs.Setup.{HasProducer};
ghost use Rattle.trace_writer.specs.Core.{CoreAgrees};

use chunk_plain::Words;
use std::sync::ledger::Ledger;
use trace_base::steps::Steps;
use trace_writer::{CallFault, HelperOn, PACKET_IDS, WriterCore};

/// A call of a script, and its refusal. It is passed over where it isn't possible.
#[derive(Clone, Copy)]
pub(crate) struct Call {
    kind: Kind,
    field: u32,
    fault: Option<CallFault>,
    ghost least: { 1 ≤ field },
    ghost most: { field ≤ 536870911 },
}

#[derive(Clone, Copy)]
enum Kind {
    Packet,
    Number(u64),
    /// The letter x, so many times over.
    Text(u32),
    Open,
    Close,
    Finish,
    Flush,
    /// The helper is asked, as a service that collects.
    Collect,
}

impl Call {
    /// The same call, refused.
    pub(crate) fn but(self, fault: CallFault) -> Call {
        let Call {
            kind,
            field,
            fault: _,
        } = self;
        Call {
            kind,
            field,
            fault: Some(fault),
        }
    }
}

pub(crate) const PACKET: Call = Call {
    kind: Kind::Packet,
    field: 900,
    fault: None,
};

pub(crate) const OPEN: Call = Call {
    kind: Kind::Open,
    field: 900,
    fault: None,
};

pub(crate) const CLOSE: Call = Call {
    kind: Kind::Close,
    field: 900,
    fault: None,
};

pub(crate) const FINISH: Call = Call {
    kind: Kind::Finish,
    field: 900,
    fault: None,
};

pub(crate) const FLUSH: Call = Call {
    kind: Kind::Flush,
    field: 900,
    fault: None,
};

pub(crate) const COLLECT: Call = Call {
    kind: Kind::Collect,
    field: 900,
    fault: None,
};

pub(crate) fn number(field: u32, value: u64) -> Call
    requires least { 1 ≤ field }
    requires most { field ≤ 536870911 }
{
    Call {
        kind: Kind::Number(value),
        field,
        fault: None,
    }
}

pub(crate) fn text(field: u32, times: u32) -> Call
    requires least { 1 ≤ field }
    requires most { field ≤ 536870911 }
{
    Call {
        kind: Kind::Text(times),
        field,
        fault: None,
    }
}

/// A writer's way with one call.
fn make_call<W: Words, L: Ledger, H: HelperOn<W>>(
    writer: &mut WriterCore<W::Writer>,
    table: &mut W,
    help: &mut H,
    call: Call,
    steps: &mut Steps<L>,
) -> Result<(), CallFault>
    requires seat { W.means.sits table.old writer.old.seat }
    requires needs { H.needs help.old table.old }
    requires producer { HasProducer (W.means.setup table.old) 1 }
    requires agrees { CoreAgrees (W.means.setup table.old) (W.means.place writer.old.seat) (W.means.view table.old writer.old.seat)
        writer.old }
    ensures seat { W.means.sits table.new writer.new.seat }
    ensures needs { H.needs help.new table.new }
    ensures producer { HasProducer (W.means.setup table.new) 1 }
    ensures agrees { CoreAgrees (W.means.setup table.new) (W.means.place writer.new.seat) (W.means.view table.new writer.new.seat)
        writer.new }
{
    let Call {
        kind,
        field,
        fault: _,
    } = call;
    let begun = writer.in_packet();
    match kind {
        Kind::Packet if !begun && writer.ids_left() >= PACKET_IDS => {
            return writer.begin(table, help, steps).map(|_begun| ());
        }
        Kind::Number(value) if begun => return writer.varint(table, help, field, value, steps),
        Kind::Text(times) if begun => return writer.bytes(table, help, field, b"x", times, steps),
        Kind::Open if begun => return writer.begin_nested(table, help, field, steps),
        Kind::Close if writer.depth() > 0 => writer.end_nested(table),
        Kind::Finish if begun && writer.depth() == 0 => writer.finish(table),
        Kind::Flush if !begun => writer.flush(table),
        Kind::Collect => {
            help.help(table, 1);
        }
        _ => {}
    }
    Ok(())
}

/// Makes all of them, and answers which one is the first that isn't answered as it says.
pub(crate) fn make_calls<W: Words, L: Ledger, H: HelperOn<W>>(
    writer: &mut WriterCore<W::Writer>,
    table: &mut W,
    help: &mut H,
    calls: &[Call],
    steps: &mut Steps<L>,
) -> Option<usize>
    requires seat { W.means.sits table.old writer.old.seat }
    requires needs { H.needs help.old table.old }
    requires producer { HasProducer (W.means.setup table.old) 1 }
    requires agrees { CoreAgrees (W.means.setup table.old) (W.means.place writer.old.seat) (W.means.view table.old writer.old.seat)
        writer.old }
    ensures seat { W.means.sits table.new writer.new.seat }
    ensures needs { H.needs help.new table.new }
    ensures producer { HasProducer (W.means.setup table.new) 1 }
    ensures agrees { CoreAgrees (W.means.setup table.new) (W.means.place writer.new.seat) (W.means.view table.new writer.new.seat)
        writer.new }
{
    let mut wrong = None;
    for (i, call) in calls.iter().enumerate() {
        let answer = make_call(writer, table, help, *call, steps);
        if answer.err() != call.fault {
            wrong = wrong.or(Some(i));
        }
    }
    wrong
}
