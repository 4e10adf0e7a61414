//! The calls of a writer that is lent to a program, each behind the tests of what it needs.
ghost use Rattle.std.specs.Prelude.{◌≡◌, ◌≢◌, ◌+◌, ◌<◌, ◌≤◌, true, false, [], ◌∷◌, length, None};
ghost use Rattle.trace_base.specs.declared.limits.TheConstants.{MAX_FIELD, MAX_INPUT};
ghost use Rattle.chunk_plain.specs.declared.tokens.TheConstants.{POSITION_LIMIT};
ghost use Rattle.trace_model.specs.Calls as call;
ghost use Rattle.trace_model.specs.Encoding.{number_field};
ghost use Rattle.trace_writer.specs.declared.ids.TheConstants.{PACKET_IDS};
ghost use Rattle.trace_writer.specs.Core.{in_packet, open_depth, field_fault, nested_fault, bytes_size};
ghost use Rattle.tracesmb_c.specs.declared.codes.TheConstants.{OK, DROPPING};
ghost use Rattle.tracesmb_c.specs.Lending.{view_of, IsReady, IsOutOfChunks, Notes, NotesField, Stays, IsField};

use crate::codes::{BAD_NUMBER, OK, USED_UP, WRONG_STATE, begin_code, field_code};
use crate::writer::OwnedWriter;
use trace_base::limits::{MAX_FIELD, MAX_INPUT};
use trace_writer::PACKET_IDS;

impl OwnedWriter {
    pub fn try_begin(&mut self) -> u32
        requires ready { IsReady self.old }
        ensures ready { IsReady self.new }
        ensures kept { result ≡ OK → Notes self.old self.new (call.Begun true ∷ []) }
        ensures dropping { result ≡ DROPPING → Notes self.old self.new (call.Begun false ∷ []) }
        ensures reason { result ≡ DROPPING → IsOutOfChunks self.old self.new }
        ensures refused { result ≢ OK → result ≢ DROPPING → self.new ≡ self.old }
        ensures when { in_packet (view_of self.old) ≡ false → length (view_of self.old).begun + PACKET_IDS ≤ POSITION_LIMIT
            → result ≢ OK → result ≡ DROPPING }
    {
        if self.writer.in_packet() {
            return WRONG_STATE;
        }
        if self.writer.ids_left() < PACKET_IDS {
            return USED_UP;
        }
        begin_code(self.begin())
    }

    pub fn try_varint(&mut self, field: u32, value: u64) -> u32
        requires ready { IsReady self.old }
        ensures ready { IsReady self.new }
        ensures done { result ≡ OK → NotesField self.old self.new (call.Number field value) }
        ensures refused { result ≢ OK → Stays self.old self.new }
        ensures when { in_packet (view_of self.old) ≡ true → IsField field
            → field_fault (view_of self.old) field (length (number_field field value)) ≡ None → result ≡ OK }
    {
        if !self.writer.in_packet() {
            return WRONG_STATE;
        }
        if field < 1 || field > MAX_FIELD {
            return BAD_NUMBER;
        }
        field_code(self.varint(field, value))
    }

    pub fn try_bytes(&mut self, field: u32, value: &[u8]) -> u32
        requires ready { IsReady self.old }
        ensures ready { IsReady self.new }
        ensures done { result ≡ OK → NotesField self.old self.new (call.Bytes field value.now 1) }
        ensures refused { result ≢ OK → Stays self.old self.new }
        ensures when { in_packet (view_of self.old) ≡ true → IsField field → length value.now ≤ MAX_INPUT
            → field_fault (view_of self.old) field (bytes_size field 1 value.now) ≡ None → result ≡ OK }
    {
        if !self.writer.in_packet() {
            return WRONG_STATE;
        }
        if field < 1 || field > MAX_FIELD || value.len() > MAX_INPUT {
            return BAD_NUMBER;
        }
        field_code(self.bytes(field, value))
    }

    pub fn try_begin_nested(&mut self, field: u32) -> u32
        requires ready { IsReady self.old }
        ensures ready { IsReady self.new }
        ensures done { result ≡ OK → NotesField self.old self.new (call.Nested field) }
        ensures refused { result ≢ OK → Stays self.old self.new }
        ensures when { in_packet (view_of self.old) ≡ true → IsField field → nested_fault (view_of self.old) field ≡ None → result ≡ OK }
    {
        if !self.writer.in_packet() {
            return WRONG_STATE;
        }
        if field < 1 || field > MAX_FIELD {
            return BAD_NUMBER;
        }
        field_code(self.begin_nested(field))
    }

    pub fn try_end_nested(&mut self) -> u32
        requires ready { IsReady self.old }
        ensures ready { IsReady self.new }
        ensures done { result ≡ OK → Notes self.old self.new (call.Ended ∷ []) }
        ensures refused { result ≢ OK → self.new ≡ self.old }
        ensures when { 0 < open_depth (view_of self.old) → result ≡ OK }
    {
        if self.writer.depth() == 0 {
            return WRONG_STATE;
        }
        self.end_nested();
        OK
    }

    pub fn try_finish(&mut self) -> u32
        requires ready { IsReady self.old }
        ensures ready { IsReady self.new }
        ensures done { result ≡ OK → Notes self.old self.new (call.Finished ∷ []) }
        ensures refused { result ≢ OK → self.new ≡ self.old }
        ensures when { in_packet (view_of self.old) ≡ true → open_depth (view_of self.old) ≡ 0 → result ≡ OK }
    {
        if !self.writer.in_packet() || self.writer.depth() != 0 {
            return WRONG_STATE;
        }
        self.finish();
        OK
    }

    pub fn try_flush(&mut self) -> u32
        requires ready { IsReady self.old }
        ensures ready { IsReady self.new }
        ensures done { result ≡ OK → Notes self.old self.new (call.Flushed ∷ []) }
        ensures refused { result ≢ OK → self.new ≡ self.old }
        ensures when { in_packet (view_of self.old) ≡ false → result ≡ OK }
    {
        if self.writer.in_packet() {
            return WRONG_STATE;
        }
        self.flush();
        OK
    }
}
