//! The buffer, in which chunks go by their positions.
ghost use Rattle.std.specs.Prelude.{◌≡◌, ℕ, ◌+◌, ◌*◌, ◌%◌, ◌^◌, ◌<◌, ◌≤◌, ◌&&◌, true, false, List, length, map, find, is_some, IfOk, IfSome, IfNone, None};
ghost use Rattle.page_geometry.specs.Sizes.{record_size};
ghost use Rattle.trace_model.specs.Buffers.{empty_buffer, live_at, made_room, meets};
ghost use Rattle.trace_model.specs.Sequences.{is_known, sequence_in, has_arrived};
ghost use Rattle.trace_model.specs.Arrivals as model;
ghost use Rattle.trace_model.specs.Arrivals.{arrival_noted, makes_arrive, with_record, with_rewritten, settled, placing_of, arrival_of, partial_arrival_of, is_refused, is_too_far, image_arrival_of, partial_image_arrival_of, with_image, with_partial_image};
ghost use Rattle.trace_model.specs.Patches.{patch_answer, with_patch, with_close};
ghost use Rattle.trace_model.specs.Reading.{reading_of, is_readable};
ghost use Rattle.chunk_image.specs.Values.{image_value};
ghost use Rattle.commit_body.specs.Patches.{patch_value};
ghost use Rattle.trace_buffer.specs.Answers.{arrived_value, patch_told, cursor_value, turn_value};
ghost use Rattle.trace_buffer.specs.Records.{chunk_of};
ghost use Rattle.trace_buffer.specs.Made.{sequence_of, AreDistinct, AllSmall};
ghost use Rattle.trace_buffer.specs.Calls.{with_advance, place_in, IsImageOf};
ghost use Rattle.trace_buffer.specs.BufferFields.{NoPart, IsPartNear};

mod copying;
mod deliveries;
mod doors;
mod state;

use crate::answers::{Arrived, BufferSpec, Cursor, Passed, PatchFault, SequenceSpec};
use crate::closing::mark_parts;
use crate::patching::last_holds;
use crate::room::{find_place, make_room, meets_unread};
use crate::row::SequenceRow;
use crate::rows::{advance, find_row, least_size, make_rows, note_arrived, note_discarded};
use crate::unfinished::Unfinished;
use chunk_image::{Image, ImageFault};
use chunk_index::Index;
use commit_body::Patch;
use page_geometry::{FIRST_CONTINUES, MAX_FLAGS, NEEDS_PATCHING};
use ring_bytes::{MAX_RING_SIZE, RecordKey, Ring, size_of_record};
use std::alloc::{AllocError, Global};
use std::marker::Model;
use trace_base::limits::{BYTES_PER_KB, MAX_FRAGMENTS};
use trace_base::policy::FullPolicy;

/// A buffer of the service.
#[derive(Drop)]
pub struct TraceBuffer {
    ring: Ring,
    /// Where the live records lie.
    index: Index,
    /// How many of the live records a close has to see.
    unfinished: Unfinished,
    policy: FullPolicy,
    /// A record was refused by the discard policy.
    shut: bool,
    placed: u64,
    rewritten: u64,
    overwritten: u64,
    discarded: u64,
    unpatched: u64,
    padding: u64,
    rows: Vec<SequenceRow>,
}

impl Model for TraceBuffer {
    ghost use Rattle.trace_model.specs.Buffers.{Buffer};

    ghost Value = { Buffer };

    ghost use Rattle.trace_buffer.specs.BufferFields.{buffer_view, IsBuffer};

    ghost view = { buffer_view };

    ghost invariant = { IsBuffer };
}

impl TraceBuffer {
    /// A buffer with no record. All memory that it ever needs is taken here.
    pub fn make(
        alloc: Global,
        spec: BufferSpec,
        sequences: &[SequenceSpec],
    ) -> Result<TraceBuffer, AllocError>
        requires least { BYTES_PER_KB ≤ spec.size }
        requires units { spec.size % BYTES_PER_KB ≡ 0 }
        requires most { spec.size ≤ MAX_RING_SIZE }
        requires distinct { AreDistinct sequences.now }
        requires small { AllSmall spec.size sequences.now }
        ensures { IfOk result (λ buffer. buffer ≡ empty_buffer spec.size spec.policy (map sequence_of sequences.now)) }
    {
        let ring = Ring::make(alloc, spec.size)?;
        let least = least_size(sequences, spec.size);
        let index = Index::make(alloc, spec.size / least)?;
        let rows = make_rows(alloc, sequences)?;
        let unfinished = Unfinished::make(alloc, &rows)?;
        Ok(TraceBuffer {
            ring,
            index,
            unfinished,
            policy: spec.policy,
            shut: false,
            placed: 0,
            rewritten: 0,
            overwritten: 0,
            discarded: 0,
            unpatched: 0,
            padding: 0,
            rows,
        })
    }

    /// A complete chunk arrives, which is named by its position.
    fn arrive_placed(&mut self, image: &Image<'_>) -> Arrived
        requires known { is_known self.old.sequences image.now.sequence ≡ true }
        requires open { (sequence_in self.old.sequences image.now.sequence).closed ≡ false }
        requires size { record_size (length image.now.payload.now) ≡ (sequence_in self.old.sequences image.now.sequence).size }
        requires count { image.now.count ≤ MAX_FRAGMENTS }
        requires flags { image.now.flags ≤ MAX_FLAGS }
        ensures outcome { arrived_value result ≡ image_arrival_of self.old (image_value image.now) }
        ensures after { self.new ≡ with_image self.old (image_value image.now) }
    {
        self.check_size(image.sequence);
        if let Err(ImageFault::BadChunk { fragment }) = image.fragments() {
            return Arrived::BadChunk { fragment };
        }
        let outcome = self.complete_outcome(image.sequence, image.chunk_id);
        let key = RecordKey {
            sequence: image.sequence,
            chunk_id: image.chunk_id,
            count: image.count,
            flags: image.flags,
            partial: false,
            awaits: image.flags / NEEDS_PATCHING % 2 == 1,
        };
        self.settle(outcome, key, image.payload);
        self.note_outcome(outcome, key);
        outcome
    }

    /// The first fragments of a chunk arrive, which is named by its position.
    fn arrive_partial_placed(&mut self, image: &Image<'_>) -> Arrived
        requires known { is_known self.old.sequences image.now.sequence ≡ true }
        requires open { (sequence_in self.old.sequences image.now.sequence).closed ≡ false }
        requires size { record_size (length image.now.payload.now) ≡ (sequence_in self.old.sequences image.now.sequence).size }
        requires count { image.now.count ≤ MAX_FRAGMENTS }
        requires flags { image.now.flags ≤ FIRST_CONTINUES }
        ensures outcome { arrived_value result ≡ partial_image_arrival_of self.old (image_value image.now) }
        ensures after { self.new ≡ with_partial_image self.old (image_value image.now) }
    {
        self.check_size(image.sequence);
        if let Err(ImageFault::BadChunk { fragment }) = image.fragments() {
            return Arrived::BadChunk { fragment };
        }
        let outcome = self.partial_outcome(image.sequence, image.chunk_id, image.count);
        let key = RecordKey {
            sequence: image.sequence,
            chunk_id: image.chunk_id,
            count: image.count,
            flags: image.flags,
            partial: true,
            awaits: false,
        };
        self.settle(outcome, key, image.payload);
        outcome
    }

    /// Four bytes come of a chunk that is named by its position.
    fn patch_placed(&mut self, sequence: u32, patch: &Patch) -> Result<(), PatchFault>
        requires { is_known self.old.sequences sequence ≡ true }
        ensures answer { patch_told result ≡ patch_answer self.old sequence (patch_value patch.now) }
        ensures after { self.new ≡ with_patch self.old sequence (patch_value patch.now) }
    {
        self.check_size(sequence);
        let Some(place) = find_place(
            &self.ring,
            &self.index,
            &self.rows,
            sequence,
            patch.chunk_id,
        ) else {
            return Err(PatchFault::NoChunk);
        };
        // The ring has bytes for few records, so that the counts of them fit.
        let _few = self.ring.place_next(0);
        let key = self.ring.key_at(place);
        if !key.awaits {
            return Err(PatchFault::NoChunk);
        }
        if !last_holds(key.count, self.ring.payload_at(place), patch) {
            return Err(PatchFault::BadOffset);
        }
        self.ring.patch_at(place, patch.offset, patch.bytes);
        self.ring.set_awaits(place, !patch.last);
        let after = RecordKey {
            awaits: !patch.last,
            ..key
        };
        self.unfinished.take(&self.rows, key);
        self.unfinished.add(&self.rows, after);
        Ok(())
    }

    /// No chunk of the sequence comes any more.
    pub fn close_sequence(&mut self, sequence: u32)
        requires known { is_known self.old.sequences sequence ≡ true }
        requires open { (sequence_in self.old.sequences sequence).closed ≡ false }
        ensures { self.new ≡ with_close self.old sequence }
    {
        let i = find_row(&self.rows, sequence);
        let row = &mut self.rows[i];
        row.close();
        mark_parts(&self.ring, row, self.unfinished.parts());
        let awaiting = self.unfinished.awaiting_at(i);
        self.unpatched = self.unpatched.saturating_add(u64::from(awaiting));
    }

    /// What the record of a chunk has, with its payload as it stands in the ring.
    #[inline(always)]
    pub fn image_of(&self, sequence: u32, chunk_id: u64) -> Option<(RecordKey, &[u8])>
        ensures some { IfSome result (λ image. IsImageOf image.0 image.1.now (live_at self.now sequence chunk_id)) }
        ensures none { IfNone result (live_at self.now sequence chunk_id ≡ None) }
        ensures small { IfSome result (λ image. length image.1.now ≤ MAX_RING_SIZE) }
    {
        let place = self.place_of(sequence, chunk_id)?;
        Some(self.image_at(sequence, chunk_id, place))
    }

    /// Where the record of a chunk lies.
    #[inline(always)]
    pub fn place_of(&self, sequence: u32, chunk_id: u64) -> Option<u32>
        ensures { result ≡ place_in (live_at self.now sequence chunk_id) }
    {
        let _room = self.ring.size();
        let Ok(position) = u32::try_from(chunk_id) else {
            return None;
        };
        find_place(&self.ring, &self.index, &self.rows, sequence, position)
    }

    /// What the record of a chunk has, by its place, so that it isn't looked for.
    #[inline(always)]
    pub fn image_at(&self, sequence: u32, chunk_id: u64, place: u32) -> (RecordKey, &[u8])
        requires { place_in (live_at self.now sequence chunk_id) ≡ Some place }
        ensures image { IsImageOf result.0 result.1.now (live_at self.now sequence chunk_id) }
        ensures small { length result.1.now ≤ MAX_RING_SIZE }
    {
        let _room = self.ring.size();
        (self.ring.key_at(place), self.ring.payload_at(place))
    }

    /// A reader has come to a place of a sequence.
    pub fn advance(&mut self, sequence: u32, to: Cursor, passed: Passed)
        requires { is_known self.old.sequences sequence ≡ true }
        ensures { self.new ≡ with_advance self.old sequence (cursor_value to) (turn_value passed) }
    {
        advance(&mut self.rows, sequence, to, passed);
    }

    /// What a buffer knows of the size of a sequence's records.
    fn check_size(&self, sequence: u32)
        requires { is_known self.now.sequences sequence ≡ true }
        ensures fits { (sequence_in self.now.sequences sequence).size ≤ self.now.room }
        ensures small { self.now.room ≤ MAX_RING_SIZE }
    {
        let _room = self.ring.size();
    }

    /// What becomes of a record that is neither a double nor too far.
    #[inline(always)]
    fn placing(&self, sequence: u32, chunk_id: u32) -> Arrived
        requires { is_known self.now.sequences sequence ≡ true }
        ensures { arrived_value result ≡ placing_of self.now sequence chunk_id }
    {
        if self.index.find(sequence, chunk_id).is_some() {
            return Arrived::Rewritten;
        }
        if self.refuses(sequence) {
            return Arrived::Discarded;
        }
        Arrived::Kept
    }

    /// Whether the discard policy refuses a next record of the sequence.
    fn refuses(&self, sequence: u32) -> bool
        requires { is_known self.now.sequences sequence ≡ true }
        ensures { result ≡ is_refused self.now (sequence_in self.now.sequences sequence).size }
    {
        match self.policy {
            FullPolicy::Ring => false,
            FullPolicy::Discard => {
                let size = self.rows[find_row(&self.rows, sequence)].size();
                self.shut || meets_unread(&self.ring, &self.index, &self.rows, size)
            }
        }
    }

    fn complete_outcome(&self, sequence: u32, chunk_id: u32) -> Arrived
        requires { is_known self.now.sequences sequence ≡ true }
        ensures { arrived_value result ≡ arrival_of self.now sequence chunk_id }
    {
        let row = &self.rows[find_row(&self.rows, sequence)];
        if row.has_arrived(u64::from(chunk_id)) {
            return Arrived::Duplicate;
        }
        if row.is_too_far(chunk_id) {
            return Arrived::TooFar;
        }
        self.placing(sequence, chunk_id)
    }

    fn partial_outcome(&self, sequence: u32, chunk_id: u32, count: u16) -> Arrived
        requires { is_known self.now.sequences sequence ≡ true }
        ensures { arrived_value result ≡ partial_arrival_of self.now sequence chunk_id count }
    {
        let row = &self.rows[find_row(&self.rows, sequence)];
        if row.has_arrived(u64::from(chunk_id))
            || self.has_as_many(sequence, chunk_id, count)
            || row.unread_of(chunk_id, count) == 0
        {
            return Arrived::Duplicate;
        }
        if row.is_too_far(chunk_id) {
            return Arrived::TooFar;
        }
        self.placing(sequence, chunk_id)
    }

    /// Whether the chunk's record has at least so many fragments.
    fn has_as_many(&self, sequence: u32, chunk_id: u32, count: u16) -> bool
        ensures { result ≡ model.has_as_many count (live_at self.now sequence chunk_id) }
    {
        match find_place(&self.ring, &self.index, &self.rows, sequence, chunk_id) {
            None => false,
            Some(place) => count <= self.ring.key_at(place).count,
        }
    }

    /// Does to records and losses what the outcome says.
    #[inline(always)]
    fn settle(&mut self, outcome: Arrived, key: RecordKey, payload: &[u8])
        requires key { (key.count ≤ MAX_FRAGMENTS) × (key.flags ≤ MAX_FLAGS) }
        requires known { is_known self.old.sequences key.sequence ≡ true }
        requires size { record_size (length payload.now) ≡ (sequence_in self.old.sequences key.sequence).size }
        requires fits { record_size (length payload.now) ≤ self.old.room }
        requires small { self.old.room ≤ MAX_RING_SIZE }
        requires reads { is_readable (reading_of key.count payload.now) ≡ true }
        requires part { makes_arrive (arrived_value outcome) ≡ true → IsPartNear self.old key }
        requires kept { arrived_value outcome ≡ model.Kept → live_at self.old key.sequence key.chunk_id ≡ None }
        requires rewritten { arrived_value outcome ≡ model.Rewritten → is_some (live_at self.old key.sequence key.chunk_id) ≡ true }
        ensures { self.new ≡ settled (arrived_value outcome) self.old key.sequence key.chunk_id (chunk_of key payload.now) }
    {
        match outcome {
            Arrived::Kept => self.displace(key, payload),
            Arrived::Rewritten => self.rewrite(key, payload),
            Arrived::Discarded => self.discard(key),
            _ => {}
        }
    }

    /// Notes that a complete chunk has arrived, where the outcome says so.
    fn note_outcome(&mut self, outcome: Arrived, key: RecordKey)
        requires known { is_known self.old.sequences key.sequence ≡ true }
        requires open { (sequence_in self.old.sequences key.sequence).closed ≡ false }
        requires fresh { makes_arrive (arrived_value outcome) ≡ true
            → has_arrived (sequence_in self.old.sequences key.sequence) key.chunk_id ≡ false }
        requires near { makes_arrive (arrived_value outcome) ≡ true
            → is_too_far (sequence_in self.old.sequences key.sequence) key.chunk_id ≡ false }
        requires whole { makes_arrive (arrived_value outcome) ≡ true → NoPart self.old key.sequence key.chunk_id }
        ensures { self.new ≡ arrival_noted (arrived_value outcome) key.sequence key.chunk_id key.count self.old }
    {
        match outcome {
            Arrived::Kept | Arrived::Rewritten | Arrived::Discarded => {
                note_arrived(&mut self.rows, key.sequence, key.chunk_id, key.count)
            }
            _ => {}
        }
    }

    /// Puts a record in a new place, and what it meets is lost.
    fn displace(&mut self, key: RecordKey, payload: &[u8])
        requires key { (key.count ≤ MAX_FRAGMENTS) × (key.flags ≤ MAX_FLAGS) }
        requires known { is_known self.old.sequences key.sequence ≡ true }
        requires size { record_size (length payload.now) ≡ (sequence_in self.old.sequences key.sequence).size }
        requires fits { record_size (length payload.now) ≤ self.old.room }
        requires small { self.old.room ≤ MAX_RING_SIZE }
        requires reads { is_readable (reading_of key.count payload.now) ≡ true }
        requires part { IsPartNear self.old key }
        requires none { live_at self.old key.sequence key.chunk_id ≡ None }
        ensures { self.new ≡ with_record (made_room self.old (record_size (length payload.now)))
            key.sequence key.chunk_id (record_size (length payload.now)) (chunk_of key payload.now) }
    {
        let size = size_of_record(payload.len() as u32);
        self.clear_room(size);
        self.keep(key, payload);
    }

    fn clear_room(&mut self, size: u32)
        requires { size ≤ self.old.room }
        ensures { self.new ≡ made_room self.old size }
    {
        self.overwritten = make_room(
            &mut self.ring,
            &mut self.index,
            &mut self.rows,
            &mut self.unfinished,
            size,
            self.overwritten,
        );
    }

    /// Puts a record in a new place, where it meets nothing.
    fn keep(&mut self, key: RecordKey, payload: &[u8])
        requires key { (key.count ≤ MAX_FRAGMENTS) × (key.flags ≤ MAX_FLAGS) }
        requires known { is_known self.old.sequences key.sequence ≡ true }
        requires size { record_size (length payload.now) ≡ (sequence_in self.old.sequences key.sequence).size }
        requires fits { record_size (length payload.now) ≤ self.old.room }
        requires small { self.old.room ≤ MAX_RING_SIZE }
        requires reads { is_readable (reading_of key.count payload.now) ≡ true }
        requires part { IsPartNear self.old key }
        requires none { live_at self.old key.sequence key.chunk_id ≡ None }
        requires free { find (meets self.old (record_size (length payload.now))) self.old.live ≡ None }
        ensures { self.new ≡ with_record self.old
            key.sequence key.chunk_id (record_size (length payload.now)) (chunk_of key payload.now) }
    {
        let size = size_of_record(payload.len() as u32);
        let padding = self.ring.place_next(size).padding;
        let at = self.ring.write(key, payload);
        self.index.add(key.sequence, key.chunk_id, at);
        self.unfinished.add(&self.rows, key);
        self.placed = self.placed.saturating_add(1);
        self.padding = self.padding.saturating_add(u64::from(padding));
    }

    /// Puts a record in the place of the part of its chunk that is there.
    fn rewrite(&mut self, key: RecordKey, payload: &[u8])
        requires key { (key.count ≤ MAX_FRAGMENTS) × (key.flags ≤ MAX_FLAGS) }
        requires known { is_known self.old.sequences key.sequence ≡ true }
        requires size { record_size (length payload.now) ≡ (sequence_in self.old.sequences key.sequence).size }
        requires reads { is_readable (reading_of key.count payload.now) ≡ true }
        requires part { IsPartNear self.old key }
        requires there { is_some (live_at self.old key.sequence key.chunk_id) ≡ true }
        ensures { self.new ≡ with_rewritten self.old key.sequence key.chunk_id (chunk_of key payload.now) }
    {
        let Some(place) = find_place(
            &self.ring,
            &self.index,
            &self.rows,
            key.sequence,
            key.chunk_id,
        ) else {
            return;
        };
        // The ring has bytes for few records, so that the counts of them fit.
        let _room = self.ring.size();
        let _few = self.ring.place_next(0);
        let before = self.ring.key_at(place);
        self.ring.rewrite(place, key, payload);
        self.unfinished.take(&self.rows, before);
        self.unfinished.add(&self.rows, key);
        self.rewritten = self.rewritten.saturating_add(1);
    }

    /// The buffer is shut, and what begins in a complete chunk is lost.
    fn discard(&mut self, key: RecordKey)
        requires { is_known self.old.sequences key.sequence ≡ true }
        ensures { (payload : List ℕ) → is_readable (reading_of key.count payload) ≡ true
            → self.new ≡ settled model.Discarded self.old key.sequence key.chunk_id (chunk_of key payload) }
    {
        self.shut = true;
        if !key.partial {
            self.discarded = self.discarded.saturating_add(1);
            note_discarded(&mut self.rows, key);
        }
    }
}
