//! A packet of one event, written by one call: a time (8), and an event (11) with its kind (9), its track
//! (11), maybe a name (23), and of a counter the value (30).
ghost use Rattle.std.specs.Prelude.{◌≡◌, ◌≢◌, ◌+◌, ◌<◌, ◌≤◌, true, false, [], ◌∷◌, ◌++◌, length, IfOk, OnErr};
ghost use Rattle.trace_base.specs.declared.limits.TheConstants.{MAX_FIELD, MAX_INPUT};
ghost use Rattle.trace_model.specs.Calls as call;
ghost use Rattle.trace_writer.specs.declared.ids.TheConstants.{PACKET_IDS};
ghost use Rattle.trace_writer.specs.Core.{in_packet};
ghost use Rattle.tracesmb_c.specs.declared.codes.TheConstants.{OK, BAD_NUMBER, WRONG_STATE, USED_UP, DROPPING, REFUSED};
ghost use Rattle.tracesmb_c.specs.Eventing.{head_calls, body_calls, kind_calls, name_calls, value_calls, field_calls, NotesAll, NotesSome};
ghost use Rattle.tracesmb_c.specs.Eventing.{NotesEnd, NotesEvent, CutsEvent, MayWriteEvent};
ghost use Rattle.tracesmb_c.specs.Lending.{view_of, IsReady};

use crate::codes::{BAD_NUMBER, REFUSED, USED_UP, WRONG_STATE, begin_code};
use crate::writer::OwnedWriter;
use trace_base::limits::MAX_INPUT;
use trace_writer::{CallFault, PACKET_IDS};

/// The kind of event that is a count.
pub const COUNTER: u32 = 4;

impl OwnedWriter {
    /// Writes the packet of an event. Where a field is refused, the packet ends before it.
    pub fn try_event(&mut self, kind: u32, time: u64, track: u64, value: u64, name: &[u8]) -> u32
        requires ready { IsReady self.old }
        ensures ready { IsReady self.new }
        ensures kept { result ≡ OK → NotesEvent true (field_calls kind time track value name.now) self.old self.new }
        ensures dropping { result ≡ DROPPING → NotesEvent false (field_calls kind time track value name.now) self.old self.new }
        ensures cut { result ≡ REFUSED → CutsEvent (field_calls kind time track value name.now) self.old self.new }
        ensures refused { result ≢ OK → result ≢ DROPPING → result ≢ REFUSED → self.new ≡ self.old }
        ensures when { MayWriteEvent kind name.now self.old → result ≢ OK → result ≢ DROPPING → result ≡ REFUSED }
    {
        if kind < 1 || kind > COUNTER || name.len() > MAX_INPUT {
            return BAD_NUMBER;
        }
        if self.writer.in_packet() {
            return WRONG_STATE;
        }
        if self.writer.ids_left() < PACKET_IDS {
            return USED_UP;
        }
        let begun = self.begin();
        let fields = self.event_fields(kind, time, track, value, name);
        self.end_packet();
        match fields {
            Ok(()) => begin_code(begun),
            Err(_) => REFUSED,
        }
    }

    /// The fields of an event, up to the first one that is refused.
    fn event_fields(
        &mut self,
        kind: u32,
        time: u64,
        track: u64,
        value: u64,
        name: &[u8],
    ) -> Result<(), CallFault>
        requires ready { IsReady self.old }
        requires begun { in_packet (view_of self.old) ≡ true }
        requires text { length name.now ≤ MAX_INPUT }
        ensures ready { IsReady self.new }
        ensures begun { in_packet (view_of self.new) ≡ true }
        ensures all { IfOk result (λ _. NotesAll self.old self.new (field_calls kind time track value name.now)) }
        ensures some { OnErr result (NotesSome self.old self.new (field_calls kind time track value name.now)) }
    {
        self.event_head(kind, time, track)?;
        self.event_rest(kind, value, name)
    }

    /// Its time, its kind and its track.
    fn event_head(&mut self, kind: u32, time: u64, track: u64) -> Result<(), CallFault>
        requires ready { IsReady self.old }
        requires begun { in_packet (view_of self.old) ≡ true }
        ensures ready { IsReady self.new }
        ensures begun { in_packet (view_of self.new) ≡ true }
        ensures all { IfOk result (λ _. NotesAll self.old self.new (head_calls kind time track)) }
        ensures some { OnErr result (NotesSome self.old self.new (head_calls kind time track)) }
    {
        self.event_number(8, time)?;
        self.event_body(kind, track)
    }

    /// The event itself, with its kind and its track.
    fn event_body(&mut self, kind: u32, track: u64) -> Result<(), CallFault>
        requires ready { IsReady self.old }
        requires begun { in_packet (view_of self.old) ≡ true }
        ensures ready { IsReady self.new }
        ensures begun { in_packet (view_of self.new) ≡ true }
        ensures all { IfOk result (λ _. NotesAll self.old self.new (body_calls kind track)) }
        ensures some { OnErr result (NotesSome self.old self.new (body_calls kind track)) }
    {
        self.event_nested(11)?;
        self.event_kind(kind, track)
    }

    /// Its kind and its track.
    fn event_kind(&mut self, kind: u32, track: u64) -> Result<(), CallFault>
        requires ready { IsReady self.old }
        requires begun { in_packet (view_of self.old) ≡ true }
        ensures ready { IsReady self.new }
        ensures begun { in_packet (view_of self.new) ≡ true }
        ensures all { IfOk result (λ _. NotesAll self.old self.new (kind_calls kind track)) }
        ensures some { OnErr result (NotesSome self.old self.new (kind_calls kind track)) }
    {
        self.event_number(9, kind as u64)?;
        self.event_number(11, track)
    }

    /// Its name and its value.
    fn event_rest(&mut self, kind: u32, value: u64, name: &[u8]) -> Result<(), CallFault>
        requires ready { IsReady self.old }
        requires begun { in_packet (view_of self.old) ≡ true }
        requires text { length name.now ≤ MAX_INPUT }
        ensures ready { IsReady self.new }
        ensures begun { in_packet (view_of self.new) ≡ true }
        ensures all { IfOk result (λ _. NotesAll self.old self.new (name_calls name.now ++ value_calls kind value)) }
        ensures some { OnErr result (NotesSome self.old self.new (name_calls name.now ++ value_calls kind value)) }
    {
        self.event_name(name)?;
        self.event_value(kind, value)
    }

    /// Its name, where it has one.
    fn event_name(&mut self, name: &[u8]) -> Result<(), CallFault>
        requires ready { IsReady self.old }
        requires begun { in_packet (view_of self.old) ≡ true }
        requires text { length name.now ≤ MAX_INPUT }
        ensures ready { IsReady self.new }
        ensures begun { in_packet (view_of self.new) ≡ true }
        ensures all { IfOk result (λ _. NotesAll self.old self.new (name_calls name.now)) }
        ensures some { OnErr result (NotesSome self.old self.new (name_calls name.now)) }
    {
        if name.len() == 0 {
            Ok(())
        } else {
            self.bytes(23, name)
        }
    }

    /// The value of a counter.
    fn event_value(&mut self, kind: u32, value: u64) -> Result<(), CallFault>
        requires ready { IsReady self.old }
        requires begun { in_packet (view_of self.old) ≡ true }
        ensures ready { IsReady self.new }
        ensures begun { in_packet (view_of self.new) ≡ true }
        ensures all { IfOk result (λ _. NotesAll self.old self.new (value_calls kind value)) }
        ensures some { OnErr result (NotesSome self.old self.new (value_calls kind value)) }
    {
        if kind == COUNTER {
            self.event_number(30, value)
        } else {
            Ok(())
        }
    }

    /// A number.
    fn event_number(&mut self, field: u32, value: u64) -> Result<(), CallFault>
        requires ready { IsReady self.old }
        requires begun { in_packet (view_of self.old) ≡ true }
        requires least { 1 ≤ field }
        requires most { field ≤ MAX_FIELD }
        ensures ready { IsReady self.new }
        ensures begun { in_packet (view_of self.new) ≡ true }
        ensures all { IfOk result (λ _. NotesAll self.old self.new (call.Number field value ∷ [])) }
        ensures some { OnErr result (NotesSome self.old self.new (call.Number field value ∷ [])) }
    {
        self.varint(field, value)
    }

    /// A nested message's begin.
    fn event_nested(&mut self, field: u32) -> Result<(), CallFault>
        requires ready { IsReady self.old }
        requires begun { in_packet (view_of self.old) ≡ true }
        requires least { 1 ≤ field }
        requires most { field ≤ MAX_FIELD }
        ensures ready { IsReady self.new }
        ensures begun { in_packet (view_of self.new) ≡ true }
        ensures all { IfOk result (λ _. NotesAll self.old self.new (call.Nested field ∷ [])) }
        ensures some { OnErr result (NotesSome self.old self.new (call.Nested field ∷ [])) }
    {
        self.begin_nested(field)
    }

    /// Ends the packet with each message that is open in it.
    fn end_packet(&mut self)
        requires ready { IsReady self.old }
        requires begun { in_packet (view_of self.old) ≡ true }
        ensures ready { IsReady self.new }
        ensures none_begun { in_packet (view_of self.new) ≡ false }
        ensures ends { NotesEnd self.old self.new }
    {
        'messages: while self.writer.depth() != 0 {
            self.end_nested();
        }
        self.finish();
    }
}
