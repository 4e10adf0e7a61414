//! The end of a packet, and of a chunk between two packets.
ghost use Rattle.std.specs.Prelude.{◌≡◌, true, false};
ghost use Rattle.trace_model.specs.Calls as call;
ghost use Rattle.trace_writer.specs.Agreement.{is_begun, open_message_count};
ghost use Rattle.trace_writer.specs.AtWork.{IsAtWork, NotesUnlessStalled};
ghost use Rattle.trace_writer.specs.Empty.{is_empty, is_stalled as is_stalled_state};

use crate::state::{State, Writer, is_stalled, put_state, take_state};
use chunk_plain::{Words, WriterCall};

/// Ends a packet whose messages have all ended. Where the writer has stalled nothing changes.
pub(crate) fn finish<W: Words>(writer: &mut Writer, table: &mut W, seat: &mut W::Writer)
    requires at_work { IsAtWork W.means table.old seat.old writer.old }
    requires begun { is_begun writer.old.packet ≡ true }
    requires depth { open_message_count writer.old.packet ≡ 0 }
    ensures notes { NotesUnlessStalled W.means call.Finished table.old seat.old writer.old table.new seat.new writer.new }
    ensures ended { is_stalled_state writer.old.state ≡ false → is_begun writer.new.packet ≡ false }
    ensures held { is_stalled_state writer.old.state ≡ false → is_empty writer.new.state ≡ writer.new.follows_loss }
    ensures others { record (W.means.view table.new seat.new) { calls = (W.means.view table.old seat.old).calls }
        ≡ W.means.view table.old seat.old }
{
    if is_stalled(&writer.state) {
        return;
    }
    match take_state(&mut writer.state) {
        State::Writing(fragment) => {
            put_state(&mut writer.state, State::Between(fragment.end()));
            writer.follows_loss = false;
        }
        State::Dropping { next_position } => {
            put_state(&mut writer.state, State::Idle { next_position });
            writer.follows_loss = true;
        }
        State::Idle { next_position: _ } => unreachable!(),
        State::Between(_chunk) => unreachable!(),
        State::Stalled { next_position: _ } => unreachable!(),
    }
    writer.packet = None;
    table.note_call(seat, WriterCall::Finished);
}

/// Completes the held chunk, where there is one. Where the writer has stalled nothing changes.
pub(crate) fn flush<W: Words>(writer: &mut Writer, table: &mut W, seat: &mut W::Writer)
    requires at_work { IsAtWork W.means table.old seat.old writer.old }
    requires none_begun { is_begun writer.old.packet ≡ false }
    ensures notes { NotesUnlessStalled W.means call.Flushed table.old seat.old writer.old table.new seat.new writer.new }
    ensures none_begun { is_begun writer.new.packet ≡ false }
    ensures none_held { is_empty writer.new.state ≡ true }
{
    if is_stalled(&writer.state) {
        return;
    }
    match take_state(&mut writer.state) {
        State::Between(chunk) => {
            let next_position = chunk.held.position + 1;
            let spec = writer.route.spec;
            chunk.complete(table, seat, &mut writer.pending, spec, false);
            put_state(&mut writer.state, State::Idle { next_position });
        }
        State::Idle { next_position } => put_state(
            &mut writer.state,
            State::Idle { next_position },
        ),
        State::Writing(_fragment) => unreachable!(),
        State::Dropping { next_position: _ } => unreachable!(),
        State::Stalled { next_position: _ } => unreachable!(),
    }
    table.note_call(seat, WriterCall::Flushed);
}
