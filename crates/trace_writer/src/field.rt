//! The fields of a packet that is begun, and its nested messages.
ghost use Rattle.std.specs.Prelude.{◌≡◌, ◌+◌, ◌*◌, ◌<◌, ◌≤◌, true, false, ◌++◌, length, MatchResult};
ghost use Rattle.std.specs.List.{repeat};
ghost use Rattle.trace_base.specs.declared.limits.TheConstants.{MAX_FIELD, MAX_PACKET_LEN, MAX_OPEN_HOLES};
ghost use Rattle.trace_model.specs.Calls as call;
ghost use Rattle.trace_model.specs.Encoding.{bytes_head, nested_tag, number_field};
ghost use Rattle.trace_model.specs.Packets.{Account, noted, on_newest, with_more};
ghost use Rattle.chunk_plain.specs.Words.{call_of};
ghost use Rattle.trace_writer.specs.Agreement.{NeedsNoChunk, is_begun, len_of, open_message_count};
ghost use Rattle.trace_writer.specs.AtWork.{IsAtWork, IsReady, NotesUnlessStalled};
ghost use Rattle.trace_writer.specs.declared.fault.CallFault.TheVariants as call_fault;
ghost use Rattle.trace_writer.specs.Empty.{is_empty, is_stalled as is_stalled_state};
ghost use Rattle.trace_writer.specs.Moments.{moment};
ghost use Rattle.trace_writer.specs.Outcomes.{GoesBehind};
ghost use Rattle.trace_writer.specs.OwnSteps.{IsQuiet};
ghost use Rattle.trace_writer.specs.Written.{IsWritten};

use crate::fault::CallFault;
use crate::flow::Flow;
use crate::helper::HelperOn;
use crate::here::{put_nested_here, put_number_here, put_text_here};
use crate::state::{State, Writer, is_stalled, put_state, take_state};
use crate::stream::{put_field, put_nested};
use chunk_plain::{Words, WriterCall};
use proto_stream::{head_bytes, head_nested, head_number};
use std::sync::ledger::Ledger;
use trace_base::policy::WriterPolicy;
use trace_base::steps::Steps;

/// Writes a number that the packet may have, whose field has so many bytes.
#[inline(always)]
pub(crate) fn write_number<W: Words, L: Ledger, H: HelperOn<W>>(
    writer: &mut Writer,
    table: &mut W,
    seat: &mut W::Writer,
    help: &mut H,
    field: u32,
    value: u64,
    size: u32,
    steps: &mut Steps<L>,
) -> Result<(), CallFault>
    requires ready { IsReady W.means H.needs (moment writer.old help.old table.old seat.old steps.old) }
    requires begun { is_begun writer.old.packet ≡ true }
    requires field { (1 ≤ field) × (field ≤ MAX_FIELD) }
    requires size { size ≡ length (number_field field value) }
    requires fits { len_of writer.old.packet + size ≤ MAX_PACKET_LEN }
    ensures written { IsWritten W.means H.needs H.helps (call.Number field value)
        (moment writer.old help.old table.old seat.old steps.old) result (moment writer.new help.new table.new seat.new steps.new) }
    ensures asked { NeedsNoChunk writer.old.state size → (W.means.view table.new seat.new).asked ≡ (W.means.view table.old seat.old).asked }
{
    if put_number_here(writer, field, value, size) {
        table.note_call(seat, WriterCall::Number { field, value });
        return Ok(());
    }
    match write_number_on(writer, table, seat, help, field, value, steps) {
        Ok(()) => Ok(()),
        Err(fault) => Err(fault),
    }
}

/// Writes a number over as many chunks as it takes. Only here are its bytes put together first.
#[inline(never)]
fn write_number_on<W: Words, L: Ledger, H: HelperOn<W>>(
    writer: &mut Writer,
    table: &mut W,
    seat: &mut W::Writer,
    help: &mut H,
    field: u32,
    value: u64,
    steps: &mut Steps<L>,
) -> Result<(), CallFault>
    requires ready { IsReady W.means H.needs (moment writer.old help.old table.old seat.old steps.old) }
    requires begun { is_begun writer.old.packet ≡ true }
    requires field { (1 ≤ field) × (field ≤ MAX_FIELD) }
    requires fits { len_of writer.old.packet + length (number_field field value) ≤ MAX_PACKET_LEN }
    ensures written { IsWritten W.means H.needs H.helps (call.Number field value)
        (moment writer.old help.old table.old seat.old steps.old) result (moment writer.new help.new table.new seat.new steps.new) }
    ensures asked { is_empty writer.old.state ≡ true → (W.means.view table.new seat.new).asked ≡ (W.means.view table.old seat.old).asked }
{
    let head = head_number(field, value);
    let call = WriterCall::Number { field, value };
    write_field_on(
        writer,
        table,
        seat,
        help,
        head.as_slice(),
        &[],
        0,
        call,
        steps,
    )
}

/// Writes a text that the packet may have, so many times over. What stands before the `len` bytes of
/// them has so many bytes.
#[inline(always)]
pub(crate) fn write_text<W: Words, L: Ledger, H: HelperOn<W>>(
    writer: &mut Writer,
    table: &mut W,
    seat: &mut W::Writer,
    help: &mut H,
    field: u32,
    len: u32,
    size: u32,
    text: &[u8],
    times: u32,
    steps: &mut Steps<L>,
) -> Result<(), CallFault>
    requires ready { IsReady W.means H.needs (moment writer.old help.old table.old seat.old steps.old) }
    requires begun { is_begun writer.old.packet ≡ true }
    requires field { (1 ≤ field) × (field ≤ MAX_FIELD) }
    requires size { size ≡ length (bytes_head field len) }
    requires fits { len_of writer.old.packet + (size + times * length text.now) ≤ MAX_PACKET_LEN }
    requires call { (account : Account) → noted account (call.Bytes field text.now times)
        ≡ on_newest (with_more (bytes_head field len ++ repeat times text.now)) account }
    ensures written { IsWritten W.means H.needs H.helps (call.Bytes field text.now times)
        (moment writer.old help.old table.old seat.old steps.old) result (moment writer.new help.new table.new seat.new steps.new) }
    ensures asked { NeedsNoChunk writer.old.state (size + times * length text.now)
        → (W.means.view table.new seat.new).asked ≡ (W.means.view table.old seat.old).asked }
{
    if put_text_here(writer, field, len, size, text, times) {
        let value = text;
        table.note_call(
            seat,
            WriterCall::Bytes {
                field,
                value,
                times,
            },
        );
        return Ok(());
    }
    match write_text_on(writer, table, seat, help, field, len, text, times, steps) {
        Ok(()) => Ok(()),
        Err(fault) => Err(fault),
    }
}

/// Writes a text over as many chunks as it takes. Only here is what stands before it put together
/// first.
#[inline(never)]
fn write_text_on<W: Words, L: Ledger, H: HelperOn<W>>(
    writer: &mut Writer,
    table: &mut W,
    seat: &mut W::Writer,
    help: &mut H,
    field: u32,
    len: u32,
    text: &[u8],
    times: u32,
    steps: &mut Steps<L>,
) -> Result<(), CallFault>
    requires ready { IsReady W.means H.needs (moment writer.old help.old table.old seat.old steps.old) }
    requires begun { is_begun writer.old.packet ≡ true }
    requires field { (1 ≤ field) × (field ≤ MAX_FIELD) }
    requires fits { len_of writer.old.packet + (length (bytes_head field len) + times * length text.now) ≤ MAX_PACKET_LEN }
    requires call { (account : Account) → noted account (call.Bytes field text.now times)
        ≡ on_newest (with_more (bytes_head field len ++ repeat times text.now)) account }
    ensures written { IsWritten W.means H.needs H.helps (call.Bytes field text.now times)
        (moment writer.old help.old table.old seat.old steps.old) result (moment writer.new help.new table.new seat.new steps.new) }
    ensures asked { is_empty writer.old.state ≡ true → (W.means.view table.new seat.new).asked ≡ (W.means.view table.old seat.old).asked }
{
    let head = head_bytes(field, len);
    let call = WriterCall::Bytes {
        field,
        value: text,
        times,
    };
    write_field_on(
        writer,
        table,
        seat,
        help,
        head.as_slice(),
        text,
        times,
        call,
        steps,
    )
}

/// Writes a field over as many chunks as it takes.
#[inline(never)]
fn write_field_on<W: Words, L: Ledger, H: HelperOn<W>>(
    writer: &mut Writer,
    table: &mut W,
    seat: &mut W::Writer,
    help: &mut H,
    head: &[u8],
    text: &[u8],
    times: u32,
    call: WriterCall<'_>,
    steps: &mut Steps<L>,
) -> Result<(), CallFault>
    requires ready { IsReady W.means H.needs (moment writer.old help.old table.old seat.old steps.old) }
    requires begun { is_begun writer.old.packet ≡ true }
    requires fits { len_of writer.old.packet + (length head.now + times * length text.now) ≤ MAX_PACKET_LEN }
    requires call { (account : Account) → noted account (call_of call) ≡ on_newest (with_more (head.now ++ repeat times text.now)) account }
    ensures written { IsWritten W.means H.needs H.helps (call_of call.entry)
        (moment writer.old help.old table.old seat.old steps.old) result (moment writer.new help.new table.new seat.new steps.new) }
    ensures asked { is_empty writer.old.state ≡ true → (W.means.view table.new seat.new).asked ≡ (W.means.view table.old seat.old).asked }
{
    if is_stalled(&writer.state) {
        return Err(CallFault::Stalled);
    }
    let route = writer.route;
    let Some(packet) = &mut writer.packet else {
        unreachable!()
    };
    packet.add_field(head.len() as u64 + u64::from(times) * text.len() as u64);
    match take_state(&mut writer.state) {
        State::Writing(fragment) => {
            let pending = &mut writer.pending;
            let flow = put_field(
                &route, table, seat, help, pending, fragment, head, text, times, steps,
            );
            go_on(writer, table, seat, flow, call)
        }
        State::Dropping { next_position } => {
            put_state(&mut writer.state, State::Dropping { next_position });
            table.note_call(seat, call);
            Ok(())
        }
        State::Idle { next_position: _ } => unreachable!(),
        State::Between(_chunk) => unreachable!(),
        State::Stalled { next_position: _ } => unreachable!(),
    }
}

/// Begins a nested message that the packet may have, by its tag, which
/// has so many bytes, and a length that is set aside.
#[inline(always)]
pub(crate) fn write_nested<W: Words, L: Ledger, H: HelperOn<W>>(
    writer: &mut Writer,
    table: &mut W,
    seat: &mut W::Writer,
    help: &mut H,
    field: u32,
    size: u32,
    steps: &mut Steps<L>,
) -> Result<(), CallFault>
    requires ready { IsReady W.means H.needs (moment writer.old help.old table.old seat.old steps.old) }
    requires begun { is_begun writer.old.packet ≡ true }
    requires field { (1 ≤ field) × (field ≤ MAX_FIELD) }
    requires size { size ≡ length (nested_tag field) }
    requires fits { len_of writer.old.packet + (size + 4) ≤ MAX_PACKET_LEN }
    requires depth { open_message_count writer.old.packet < MAX_OPEN_HOLES }
    ensures written { IsWritten W.means H.needs H.helps (call.Nested field)
        (moment writer.old help.old table.old seat.old steps.old) result (moment writer.new help.new table.new seat.new steps.new) }
    ensures asked { NeedsNoChunk writer.old.state (size + 4)
        → (W.means.view table.new seat.new).asked ≡ (W.means.view table.old seat.old).asked }
{
    if put_nested_here(writer, field, size) {
        table.note_call(seat, WriterCall::Nested { field });
        return Ok(());
    }
    match write_nested_on(writer, table, seat, help, field, steps) {
        Ok(()) => Ok(()),
        Err(fault) => Err(fault),
    }
}

/// Begins a nested message over as many chunks as its tag and its length take. Only
/// here are the tag's bytes put together first.
#[inline(never)]
fn write_nested_on<W: Words, L: Ledger, H: HelperOn<W>>(
    writer: &mut Writer,
    table: &mut W,
    seat: &mut W::Writer,
    help: &mut H,
    field: u32,
    steps: &mut Steps<L>,
) -> Result<(), CallFault>
    requires ready { IsReady W.means H.needs (moment writer.old help.old table.old seat.old steps.old) }
    requires begun { is_begun writer.old.packet ≡ true }
    requires field { (1 ≤ field) × (field ≤ MAX_FIELD) }
    requires fits { len_of writer.old.packet + (length (nested_tag field) + 4) ≤ MAX_PACKET_LEN }
    requires depth { open_message_count writer.old.packet < MAX_OPEN_HOLES }
    ensures written { IsWritten W.means H.needs H.helps (call.Nested field)
        (moment writer.old help.old table.old seat.old steps.old) result (moment writer.new help.new table.new seat.new steps.new) }
    ensures asked { is_empty writer.old.state ≡ true → (W.means.view table.new seat.new).asked ≡ (W.means.view table.old seat.old).asked }
{
    if is_stalled(&writer.state) {
        return Err(CallFault::Stalled);
    }
    let head = head_nested(field);
    let tag = head.as_slice();
    let route = writer.route;
    let call = WriterCall::Nested { field };
    let Some(packet) = &mut writer.packet else {
        unreachable!()
    };
    packet.add_nested(tag.len() as u32);
    match take_state(&mut writer.state) {
        State::Writing(fragment) => {
            let pending = &mut writer.pending;
            let flow = put_nested(&route, table, seat, help, pending, fragment, tag, steps);
            go_on(writer, table, seat, flow, call)
        }
        State::Dropping { next_position } => {
            put_state(&mut writer.state, State::Dropping { next_position });
            table.note_call(seat, call);
            Ok(())
        }
        State::Idle { next_position: _ } => unreachable!(),
        State::Between(_chunk) => unreachable!(),
        State::Stalled { next_position: _ } => unreachable!(),
    }
}

/// Notes a call, and goes on behind what was written for it.
fn go_on<W: Words>(
    writer: &mut Writer,
    table: &mut W,
    seat: &mut W::Writer,
    flow: Flow,
    call: WriterCall<'_>,
) -> Result<(), CallFault>
    requires seat { W.means.sits table.old seat.old }
    requires empty { is_empty writer.old.state ≡ true }
    ensures answers { MatchResult result (λ _. is_stalled_state writer.new.state ≡ false) (λ fault. (fault ≡ call_fault.Stalled)
        × (is_stalled_state writer.new.state ≡ true)) }
    ensures goes { GoesBehind writer.old writer.new (W.means.view table.old seat.old) (W.means.view table.new seat.new) (call_of call.entry)
        flow }
    ensures quiet { IsQuiet W.means table.old seat.old table.new seat.new }
{
    table.note_call(seat, call);
    match flow {
        Flow::Going(fragment) => {
            put_state(&mut writer.state, State::Writing(fragment));
            Ok(())
        }
        Flow::Stopped { next_position } => match writer.route.spec.policy {
            WriterPolicy::Drops => {
                put_state(&mut writer.state, State::Dropping { next_position });
                table.note_call(seat, WriterCall::GivenUp);
                Ok(())
            }
            WriterPolicy::Stalls => {
                put_state(&mut writer.state, State::Stalled { next_position });
                Err(CallFault::Stalled)
            }
            WriterPolicy::StallsThenDrops { tries: _ } => {
                put_state(&mut writer.state, State::Dropping { next_position });
                table.note_call(seat, WriterCall::GivenUp);
                Ok(())
            }
        },
    }
}

/// Ends the innermost nested message, and puts its length in or keeps it as a patch. Where the writer
/// has stalled nothing changes.
pub(crate) fn end_message<W: Words>(writer: &mut Writer, table: &mut W, seat: &mut W::Writer)
    requires at_work { IsAtWork W.means table.old seat.old writer.old }
    requires begun { is_begun writer.old.packet ≡ true }
    requires depth { 0 < open_message_count writer.old.packet }
    ensures notes { NotesUnlessStalled W.means call.Ended table.old seat.old writer.old table.new seat.new writer.new }
    ensures others { record (W.means.view table.new seat.new) { calls = (W.means.view table.old seat.old).calls }
        ≡ W.means.view table.old seat.old }
{
    if is_stalled(&writer.state) {
        return;
    }
    let Some(packet) = &mut writer.packet else {
        unreachable!()
    };
    let length = packet.end_nested();
    match &mut writer.state {
        State::Writing(fragment) => fragment.close_hole(&mut writer.pending, length),
        State::Dropping { next_position: _ } => {}
        State::Idle { next_position: _ } => unreachable!(),
        State::Between(_chunk) => unreachable!(),
        State::Stalled { next_position: _ } => unreachable!(),
    }
    table.note_call(seat, WriterCall::Ended);
}
