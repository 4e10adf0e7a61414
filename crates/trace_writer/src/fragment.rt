//! A held chunk while a fragment is written into it.
ghost use Rattle.std.specs.Prelude.{◌≡◌, ℕ, ◌+◌, ◌-◌, ◌*◌, ◌^◌, ◌<◌, ◌≤◌, false, true, [], ◌∷◌, ◌++◌, List, min, take, length, nat_le, vec_len, if◌then◌else◌};
ghost use Rattle.chunk_plain.specs.declared.tokens.TheConstants.{POSITION_LIMIT};
ghost use Rattle.std.specs.List.{repeat};
ghost use Rattle.wire_varint.specs.Varint.{redundant};
ghost use Rattle.trace_base.specs.declared.limits.TheConstants.{MAX_PACKET_LEN, MAX_OPEN_HOLES, MAX_PAGE_SIZE, MAX_FRAGMENTS};
ghost use Rattle.trace_model.specs.Encoding.{bytes_head, nested_tag, number_field};
ghost use Rattle.trace_model.specs.Images.{with_bytes};
ghost use Rattle.trace_model.specs.Packets.{open_length};
ghost use Rattle.trace_model.specs.Fragments.{drop_mark};
ghost use Rattle.commit_body.specs.declared.body.TheConstants.{MAX_PATCHES};
ghost use Rattle.commit_body.specs.declared.closed.Closed.TheVariants.{Here, Later};
ghost use Rattle.commit_body.specs.Patches.{holes_outside};

use crate::bytes::{
    put_at, put_head_at, put_hole_at, put_number_at, put_run, put_tag_at, set_four_at,
};
use crate::chunk::HeldChunk;
use chunk_plain::Held;
use commit_body::{Closed, PatchList};
use wire_varint::put_redundant;

/// The size of a fragment whose rest isn't written.
const DROP_MARK: [u8; 4] = [0xFF, 0xFF, 0xFF, 0x7F];

/// A chunk that its writer holds, whose last fragment has its size at `start` and its bytes from
/// behind that up to `at`.
#[derive(Debug)]
pub(crate) struct OpenFragment {
    pub held: Held,
    pub start: u32,
    pub at: u32,
    pub count: u16,
    pub continues: bool,
    ghost behind: { start + 4 ≤ at },
    ghost within: { at ≤ vec_len held.body.payload },
    ghost small: { vec_len held.body.payload ≤ MAX_PAGE_SIZE },
    ghost few: { count ≤ MAX_FRAGMENTS },
    ghost empty: { held.body.patches.value.items ≡ [] },
    ghost position_fits: { held.position < POSITION_LIMIT },
}

impl OpenFragment {
    ghost use Rattle.commit_body.specs.Pending.{AddsHole, ClosesHole};
    ghost use Rattle.trace_writer.specs.Fragment.{IsPutInto, OpensMessage, AnswersClose};

    /// Whether so many bytes fit.
    pub fn has_left(&self, count: usize) -> bool
        ensures { result ≡ nat_le (self.now.at + count) (vec_len self.now.held.body.payload) }
    {
        count <= self.held.body.payload.len() - self.at as usize
    }

    /// Writes the first bytes of the piece, as many as fit, and says how many.
    pub fn put(&mut self, piece: &[u8]) -> usize
        ensures count { result ≡ min (length piece.now) (vec_len self.old.held.body.payload - self.old.at) }
        ensures bytes { IsPutInto self.old self.new self.old.at (take result piece.now) }
        ensures at { self.new.at ≡ self.old.at + result }
    {
        let count = put_at(&mut self.held.body.payload, self.at, piece);
        self.at += count as u32;
        count
    }

    /// Writes a text's field, where all of it fits; else nothing changes. What stands before the `len`
    /// bytes of the text has so many bytes.
    pub fn put_whole(&mut self, field: u32, len: u32, size: u32, text: &[u8], times: u32) -> bool
        requires size { size ≡ length (bytes_head field len) }
        requires small { size + times * length text.now ≤ MAX_PACKET_LEN }
        ensures fits { self.old.at + (size + times * length text.now) ≤ vec_len self.old.held.body.payload → result ≡ true }
        ensures unchanged { result ≡ false → self.new ≡ self.old }
        ensures bytes { result ≡ true → IsPutInto self.old self.new self.old.at (bytes_head field len ++ repeat times text.now) }
        ensures at { result ≡ true → self.new.at ≡ self.old.at + (size + times * length text.now) }
    {
        let more = u64::from(size) + u64::from(times) * text.len() as u64;
        if more > (self.held.body.payload.len() - self.at as usize) as u64 {
            return false;
        }
        self.put_head(field, len, size);
        self.put_text(text, times);
        true
    }

    /// Writes what stands before the `len` bytes of a text, which has so many bytes and fits.
    #[inline(always)]
    fn put_head(&mut self, field: u32, len: u32, size: u32)
        requires size { size ≡ length (bytes_head field len) }
        requires fits { self.old.at + size ≤ vec_len self.old.held.body.payload }
        ensures bytes { IsPutInto self.old self.new self.old.at (bytes_head field len) }
        ensures at { self.new.at ≡ self.old.at + size }
    {
        put_head_at(&mut self.held.body.payload, self.at, field, len);
        self.at += size;
    }

    /// Writes a number's field, which has so many bytes, where it fits; else nothing changes.
    #[inline(always)]
    pub fn put_number(&mut self, field: u32, value: u64, size: u32) -> bool
        requires { size ≡ length (number_field field value) }
        ensures fits { self.old.at + size ≤ vec_len self.old.held.body.payload → result ≡ true }
        ensures unchanged { result ≡ false → self.new ≡ self.old }
        ensures bytes { result ≡ true → IsPutInto self.old self.new self.old.at (number_field field value) }
        ensures at { result ≡ true → self.new.at ≡ self.old.at + length (number_field field value) }
    {
        if !self.has_left(size as usize) {
            return false;
        }
        put_number_at(&mut self.held.body.payload, self.at, field, value);
        self.at += size;
        true
    }

    /// Writes a text so many times, which fits.
    fn put_text(&mut self, text: &[u8], times: u32)
        requires { self.old.at + times * length text.now ≤ vec_len self.old.held.body.payload }
        ensures bytes { IsPutInto self.old self.new self.old.at (repeat times text.now) }
        ensures at { self.new.at ≡ self.old.at + times * length text.now }
    {
        if let [byte] = text {
            put_run(&mut self.held.body.payload, self.at, *byte, times);
            self.at += times;
            return;
        }
        for _turn in 0..times {
            self.put(text);
        }
    }

    /// Sets a nested length aside; false where it doesn't fit.
    pub fn put_hole(&mut self, pending: &mut PatchList) -> bool
        requires { length pending.old.holes < MAX_OPEN_HOLES }
        ensures fits { result ≡ nat_le (self.old.at + 4) (vec_len self.old.held.body.payload) }
        ensures unchanged { result ≡ false → self.new ≡ self.old }
        ensures none_added { result ≡ false → pending.new ≡ pending.old }
        ensures bytes { result ≡ true → IsPutInto self.old self.new self.old.at open_length }
        ensures at { result ≡ true → self.new.at ≡ self.old.at + 4 }
        ensures added { result ≡ true → AddsHole pending.old pending.new self.old.held.position self.old.at }
    {
        if self.held.body.payload.len() - (self.at as usize) < 4 {
            return false;
        }
        put_hole_at(&mut self.held.body.payload, self.at);
        pending.add_hole(self.held.position, self.at);
        self.at += 4;
        true
    }

    /// Writes a nested message's tag, which has so many bytes, and sets its length aside, where both
    /// fit; else nothing changes.
    #[inline(always)]
    pub fn put_message(&mut self, pending: &mut PatchList, field: u32, size: u32) -> bool
        requires few { length pending.old.holes < MAX_OPEN_HOLES }
        requires size { size ≡ length (nested_tag field) }
        requires small { size + 4 ≤ MAX_PACKET_LEN }
        ensures fits { self.old.at + (size + 4) ≤ vec_len self.old.held.body.payload → result ≡ true }
        ensures unchanged { result ≡ false → self.new ≡ self.old }
        ensures none_added { result ≡ false → pending.new ≡ pending.old }
        ensures opens { result ≡ true → OpensMessage self.old self.new pending.old pending.new (nested_tag field) }
    {
        if !self.has_left(size as usize + 4) {
            return false;
        }
        self.put_tag(field, size);
        self.put_hole(pending)
    }

    /// Writes a nested message's tag, which has so many bytes and fits.
    #[inline(always)]
    fn put_tag(&mut self, field: u32, size: u32)
        requires size { size ≡ length (nested_tag field) }
        requires fits { self.old.at + size ≤ vec_len self.old.held.body.payload }
        ensures bytes { IsPutInto self.old self.new self.old.at (nested_tag field) }
        ensures at { self.new.at ≡ self.old.at + size }
    {
        put_tag_at(&mut self.held.body.payload, self.at, field);
        self.at += size;
    }

    /// Closes the innermost hole with a length.
    pub fn close_hole(&mut self, pending: &mut PatchList, value: u32)
        requires some_open { 0 < length pending.old.holes }
        requires fits { value < 2 ^ 28 }
        requires room { length pending.old.unsent + holes_outside self.old.held.position pending.old.holes ≤ MAX_PATCHES }
        requires here { (hole : _) (outer : _) → pending.old.holes ≡ outer ++ hole ∷ [] → hole.chunk_id ≡ self.old.held.position
            → hole.offset + 4 ≤ vec_len self.old.held.body.payload }
        ensures { AnswersClose self.old self.new pending.old pending.new value }
    {
        if let Closed::Here { offset, bytes } = pending.close_hole(self.held.position, value) {
            set_four_at(&mut self.held.body.payload, offset, bytes);
        }
    }

    /// The fragment ends: its size is put in.
    pub fn end(self) -> HeldChunk
        ensures held { result.held ≡ record self.held { body = record self.held.body { payload = result.held.body.payload } } }
        ensures bytes { result.held.body.payload.items
            ≡ with_bytes self.held.body.payload.items self.start (redundant (self.at - self.start - 4)) }
        ensures len { vec_len result.held.body.payload ≡ vec_len self.held.body.payload }
        ensures sealed { result.sealed ≡ self.start }
        ensures at { result.at ≡ self.at }
        ensures count { result.count ≡ self.count }
        ensures continues { result.continues ≡ self.continues }
    {
        let size = put_redundant(self.at - self.start - 4);
        self.end_with(size)
    }

    /// The fragment ends with the drop mark for its size.
    pub fn end_dropped(self) -> HeldChunk
        ensures held { result.held ≡ record self.held { body = record self.held.body { payload = result.held.body.payload } } }
        ensures bytes { result.held.body.payload.items ≡ with_bytes self.held.body.payload.items self.start drop_mark }
        ensures len { vec_len result.held.body.payload ≡ vec_len self.held.body.payload }
        ensures sealed { result.sealed ≡ self.start }
        ensures at { result.at ≡ self.at }
        ensures count { result.count ≡ self.count }
        ensures continues { result.continues ≡ self.continues }
    {
        self.end_with(DROP_MARK)
    }

    fn end_with(self, size: [u8; 4]) -> HeldChunk
        ensures held { result.held ≡ record self.held { body = record self.held.body { payload = result.held.body.payload } } }
        ensures bytes { result.held.body.payload.items ≡ with_bytes self.held.body.payload.items self.start size }
        ensures len { vec_len result.held.body.payload ≡ vec_len self.held.body.payload }
        ensures sealed { result.sealed ≡ self.start }
        ensures at { result.at ≡ self.at }
        ensures count { result.count ≡ self.count }
        ensures continues { result.continues ≡ self.continues }
    {
        let OpenFragment {
            mut held,
            start,
            at,
            count,
            continues,
        } = self;
        set_four_at(&mut held.body.payload, start, size);
        HeldChunk {
            held,
            sealed: start,
            at,
            count,
            continues,
        }
    }

    /// Lets go of the chunk, which is never completed then.
    pub fn drop_chunk(self) {
        let OpenFragment {
            held,
            start: _,
            at: _,
            count: _,
            continues: _,
        } = self;
        let Held {
            chunk: _,
            position: _,
            body: _,
        } = held;
    }
}
