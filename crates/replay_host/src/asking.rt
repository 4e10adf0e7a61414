//! Asking one writer for a call, over any helper.
ghost use Rattle.std.specs.Prelude.{◌≡◌, ◌≤◌, true, false, List, ◌∷◌, length, OnOk, OnErr};
ghost use Rattle.chunk_plain.specs.Words.{call_of};
ghost use Rattle.trace_model.specs.Calls as calls;
ghost use Rattle.trace_model.specs.Calls.{Call};
ghost use Rattle.trace_base.specs.declared.limits.TheConstants.{MAX_INPUT};
ghost use Rattle.trace_writer.specs.Core.{CoreAgrees, is_stalled, route_of};
ghost use Rattle.replay_host.specs.Asking.{IsReadyFor, IsShortCall, IsCalled, IsStalledCall};

use chunk_plain::{Words, WriterCall};
use std::sync::ledger::Ledger;
use trace_base::steps::Steps;
use trace_writer::{CallFault, HelperOn, WriterCore};

/// A packet is begun.
fn ask_begin<W: Words, H: HelperOn<W>, L: Ledger>(
    core: &mut WriterCore<W::Writer>,
    table: &mut W,
    help: &mut H,
    steps: &mut Steps<L>,
) -> bool
    requires seat { W.means.sits table.old core.old.seat }
    requires needs { H.needs help.old table.old }
    requires agrees { CoreAgrees (W.means.setup table.old) (W.means.place core.old.seat) (W.means.view table.old core.old.seat) core.old }
    requires going { is_stalled core.old ≡ false }
    requires ready { (coming : List Call)
        × IsReadyFor (route_of core.old).payload_size (W.means.view table.old core.old.seat) (calls.Begun true ∷ coming) }
    ensures called { result ≡ true → IsCalled W.means H.needs H.helps (calls.Begun true) help.old table.old core.old help.new table.new
        core.new }
    ensures stalled { result ≡ false → IsStalledCall W.means H.needs H.helps (calls.Begun true) help.old table.old core.old help.new
        table.new core.new }
{
    match core.begin(table, help, steps) {
        Ok(_) => true,
        Err(_) => false,
    }
}

/// A number is written.
fn ask_number<W: Words, H: HelperOn<W>, L: Ledger>(
    core: &mut WriterCore<W::Writer>,
    table: &mut W,
    help: &mut H,
    steps: &mut Steps<L>,
    field: u32,
    value: u64,
) -> bool
    requires seat { W.means.sits table.old core.old.seat }
    requires needs { H.needs help.old table.old }
    requires agrees { CoreAgrees (W.means.setup table.old) (W.means.place core.old.seat) (W.means.view table.old core.old.seat) core.old }
    requires going { is_stalled core.old ≡ false }
    requires ready { (coming : List Call)
        × IsReadyFor (route_of core.old).payload_size (W.means.view table.old core.old.seat) (calls.Number field value ∷ coming) }
    ensures called { result ≡ true → IsCalled W.means H.needs H.helps (calls.Number field value) help.old table.old core.old help.new
        table.new core.new }
    ensures stalled { result ≡ false → IsStalledCall W.means H.needs H.helps (calls.Number field value) help.old table.old core.old help.new
        table.new core.new }
{
    match core.varint(table, help, field, value, steps) {
        Ok(()) => true,
        Err(_) => false,
    }
}

/// A text is written, so many times over.
fn ask_bytes<W: Words, H: HelperOn<W>, L: Ledger>(
    core: &mut WriterCore<W::Writer>,
    table: &mut W,
    help: &mut H,
    steps: &mut Steps<L>,
    field: u32,
    text: &[u8],
    times: u32,
) -> bool
    requires seat { W.means.sits table.old core.old.seat }
    requires needs { H.needs help.old table.old }
    requires agrees { CoreAgrees (W.means.setup table.old) (W.means.place core.old.seat) (W.means.view table.old core.old.seat) core.old }
    requires going { is_stalled core.old ≡ false }
    requires ready { (coming : List Call)
        × IsReadyFor (route_of core.old).payload_size (W.means.view table.old core.old.seat) (calls.Bytes field text.now times ∷ coming) }
    requires text { length text.now ≤ MAX_INPUT }
    ensures called { result ≡ true → IsCalled W.means H.needs H.helps (calls.Bytes field text.now times) help.old table.old core.old
        help.new table.new core.new }
    ensures stalled { result ≡ false → IsStalledCall W.means H.needs H.helps (calls.Bytes field text.now times) help.old table.old core.old
        help.new table.new core.new }
{
    match core.bytes(table, help, field, text, times, steps) {
        Ok(()) => true,
        Err(_) => false,
    }
}

/// A nested message is begun.
fn ask_nested<W: Words, H: HelperOn<W>, L: Ledger>(
    core: &mut WriterCore<W::Writer>,
    table: &mut W,
    help: &mut H,
    steps: &mut Steps<L>,
    field: u32,
) -> bool
    requires seat { W.means.sits table.old core.old.seat }
    requires needs { H.needs help.old table.old }
    requires agrees { CoreAgrees (W.means.setup table.old) (W.means.place core.old.seat) (W.means.view table.old core.old.seat) core.old }
    requires going { is_stalled core.old ≡ false }
    requires ready { (coming : List Call)
        × IsReadyFor (route_of core.old).payload_size (W.means.view table.old core.old.seat) (calls.Nested field ∷ coming) }
    ensures called { result ≡ true → IsCalled W.means H.needs H.helps (calls.Nested field) help.old table.old core.old help.new table.new
        core.new }
    ensures stalled { result ≡ false → IsStalledCall W.means H.needs H.helps (calls.Nested field) help.old table.old core.old help.new
        table.new core.new }
{
    match core.begin_nested(table, help, field, steps) {
        Ok(()) => true,
        Err(_) => false,
    }
}

/// The innermost nested message ends.
fn ask_ended<W: Words, H: HelperOn<W>>(
    core: &mut WriterCore<W::Writer>,
    table: &mut W,
    help: &mut H,
)
    requires seat { W.means.sits table.old core.old.seat }
    requires needs { H.needs help.old table.old }
    requires agrees { CoreAgrees (W.means.setup table.old) (W.means.place core.old.seat) (W.means.view table.old core.old.seat) core.old }
    requires going { is_stalled core.old ≡ false }
    requires ready { (coming : List Call)
        × IsReadyFor (route_of core.old).payload_size (W.means.view table.old core.old.seat) (calls.Ended ∷ coming) }
    ensures called { IsCalled W.means H.needs H.helps (calls.Ended) help.old table.old core.old help.new table.new core.new }
{
    let _help = help;
    core.end_nested(table);
}

/// The packet ends.
fn ask_finished<W: Words, H: HelperOn<W>>(
    core: &mut WriterCore<W::Writer>,
    table: &mut W,
    help: &mut H,
)
    requires seat { W.means.sits table.old core.old.seat }
    requires needs { H.needs help.old table.old }
    requires agrees { CoreAgrees (W.means.setup table.old) (W.means.place core.old.seat) (W.means.view table.old core.old.seat) core.old }
    requires going { is_stalled core.old ≡ false }
    requires ready { (coming : List Call)
        × IsReadyFor (route_of core.old).payload_size (W.means.view table.old core.old.seat) (calls.Finished ∷ coming) }
    ensures called { IsCalled W.means H.needs H.helps (calls.Finished) help.old table.old core.old help.new table.new core.new }
{
    let _help = help;
    core.finish(table);
}

/// What is held is completed.
pub(crate) fn ask_flushed<W: Words, H: HelperOn<W>>(
    core: &mut WriterCore<W::Writer>,
    table: &mut W,
    help: &mut H,
)
    requires seat { W.means.sits table.old core.old.seat }
    requires needs { H.needs help.old table.old }
    requires agrees { CoreAgrees (W.means.setup table.old) (W.means.place core.old.seat) (W.means.view table.old core.old.seat) core.old }
    requires going { is_stalled core.old ≡ false }
    requires ready { (coming : List Call)
        × IsReadyFor (route_of core.old).payload_size (W.means.view table.old core.old.seat) (calls.Flushed ∷ coming) }
    ensures called { IsCalled W.means H.needs H.helps (calls.Flushed) help.old table.old core.old help.new table.new core.new }
{
    let _help = help;
    core.flush(table);
}

/// What a call answers that went on, or for which the writer stalled.
#[inline(always)]
fn answer_of(went_on: bool) -> Result<(), CallFault>
    ensures went { OnOk result (went_on ≡ true) }
    ensures stalled { OnErr result (went_on ≡ false) }
{
    if went_on {
        return Ok(());
    }
    Err(CallFault::Stalled)
}

/// The writer is asked for a call. One that a writer notes by itself isn't asked for.
#[inline(always)]
pub fn ask_one<W: Words, H: HelperOn<W>, L: Ledger>(
    core: &mut WriterCore<W::Writer>,
    table: &mut W,
    help: &mut H,
    steps: &mut Steps<L>,
    call: WriterCall<'_>,
) -> Result<(), CallFault>
    requires seat { W.means.sits table.old core.old.seat }
    requires needs { H.needs help.old table.old }
    requires agrees { CoreAgrees (W.means.setup table.old) (W.means.place core.old.seat) (W.means.view table.old core.old.seat) core.old }
    requires going { is_stalled core.old ≡ false }
    requires ready { (coming : List Call)
        × IsReadyFor (route_of core.old).payload_size (W.means.view table.old core.old.seat) (call_of call ∷ coming) }
    requires short { IsShortCall (call_of call) }
    ensures called { OnOk result (IsCalled W.means H.needs H.helps (call_of call.entry) help.old table.old core.old help.new table.new
        core.new) }
    ensures stalled { OnErr result (IsStalledCall W.means H.needs H.helps (call_of call.entry) help.old table.old core.old help.new
        table.new core.new) }
{
    match call {
        WriterCall::Begun { kept: _ } => answer_of(ask_begin(core, table, help, steps)),
        WriterCall::Number { field, value } => {
            answer_of(ask_number(core, table, help, steps, field, value))
        }
        WriterCall::Bytes {
            field,
            value,
            times,
        } => answer_of(ask_bytes(core, table, help, steps, field, value, times)),
        WriterCall::Nested { field } => answer_of(ask_nested(core, table, help, steps, field)),
        WriterCall::Ended => {
            ask_ended(core, table, help);
            Ok(())
        }
        WriterCall::Finished => {
            ask_finished(core, table, help);
            Ok(())
        }
        WriterCall::Flushed => {
            ask_flushed(core, table, help);
            Ok(())
        }
        WriterCall::GivenUp => unreachable!(),
    }
}
