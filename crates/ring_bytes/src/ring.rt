//! The ring.
ghost use Rattle.std.specs.Prelude.{◌≡◌, ℕ, ◌+◌, ◌*◌, ◌%◌, ◌^◌, ◌<◌, ◌≤◌, true, length, sum_by, IfOk, IfSome, IsSome, IsSomeAnd};
ghost use Rattle.std.specs.Option.{option_map};
ghost use Rattle.page_geometry.specs.Sizes.{record_size};
ghost use Rattle.trace_model.specs.Places.{place_after, padding_before};
ghost use Rattle.ring_bytes.specs.Value.{Stored, IsMetAt, next_met_of, stored_at, size_of, empty_ring, written, dropped_at, changed_at, with_awaits, with_bytes, with_contents, turned};
ghost use Rattle.ring_bytes.specs.Walked.{next_behind, next_met_behind, newer_limit_of, IsAlone};

use crate::grow::reach;
use crate::header::{Header, put, put_header, read_header};
use crate::key::{Place, RecordKey};
use crate::part::{put_over, put_record, put_rest, size_of_record};
use crate::walk::{first_behind, first_live, first_of_two, skip_dead};
use page_geometry::{MAX_FLAGS, RECORD_HEADER_SIZE, RECORD_UNIT};
use std::alloc::{AllocError, Global};
use std::marker::Model;
use trace_base::limits::{BYTES_PER_KB, MAX_BUFFER_KB, MAX_FRAGMENTS};

/// Bytes of the largest ring.
pub const MAX_RING_SIZE: u32 = MAX_BUFFER_KB * BYTES_PER_KB;

/// A ring of records. The fields have no meaning beside its bytes: from the write place to where the
/// bytes end stand older parts, and from 0 to the write place newer ones.
#[derive(Drop)]
pub struct Ring {
    size: u32,
    /// Up to here there are bytes. They grow towards the size as records are first put there, so that
    /// what a ring never uses is never touched.
    reached: u32,
    /// The write place.
    next: u32,
    /// No record is live between the write place and here.
    clear: u32,
    /// No record is live between 0 and here.
    front: u32,
    bytes: Vec<u8>,
}

impl Model for Ring {
    ghost use Rattle.ring_bytes.specs.Value.{RingValue};

    ghost Value = { RingValue };

    ghost use Rattle.ring_bytes.specs.Fields.{ring_view, IsRing};

    ghost view = { ring_view };

    ghost invariant = { IsRing };
}

impl Ring {
    /// A ring with no record. It takes all memory that it will ever need, and writes none of it.
    pub fn make(alloc: Global, size: u32) -> Result<Ring, AllocError>
        requires least { RECORD_UNIT ≤ size }
        requires units { size % RECORD_UNIT ≡ 0 }
        requires most { size ≤ MAX_RING_SIZE }
        ensures { IfOk result (λ ring. ring ≡ empty_ring size) }
    {
        let bytes = Vec::with_capacity(alloc, size as usize)?;
        Ok(Ring {
            size,
            reached: 0,
            next: 0,
            clear: 0,
            front: 0,
            bytes,
        })
    }

    /// Where a next record of this size goes.
    pub fn place_next(&self, len: u32) -> Place
        requires { len ≤ self.now.room }
        ensures at { result.at ≡ place_after self.now.room self.now.next len }
        ensures padding { result.padding ≡ padding_before self.now.room self.now.next len }

        // The live records never need more bytes than the ring has, so there are few of them.
        ensures few { sum_by size_of self.now.live ≤ self.now.room }
    {
        if self.next + len <= self.size {
            return Place {
                at: self.next,
                padding: 0,
            };
        }
        Place {
            at: 0,
            padding: self.size - self.next,
        }
    }

    /// A live record that a next record of this size, or the padding before it, would meet.
    pub fn next_met(&self, len: u32) -> Option<u32>
        requires { len ≤ self.now.room }
        ensures first { result ≡ next_met_of self.now len }
        ensures alone { IfSome result (IsMetAt self.now len) }
    {
        if self.next + len <= self.size {
            let limit = self.reached.min(self.next + len);
            return first_live(&self.bytes, self.clear, self.reached, limit);
        }
        match first_live(&self.bytes, self.clear, self.reached, self.reached) {
            Some(place) => Some(place),
            None => first_live(&self.bytes, self.front, self.next, self.next.min(len)),
        }
    }

    /// The live record behind this one in the order of placement, and without one the first of all.
    pub fn live_behind(&self, place: Option<u32>) -> Option<u32>
        requires { (at : ℕ) → place ≡ Some at → IsSome (stored_at self.now at) }
        ensures next { result ≡ next_behind place self.now.live }
        ensures alone { IfSome result (IsAlone self.now) }
    {
        let Some(at) = place else {
            return first_of_two(&self.bytes, self.clear, self.reached, self.front, self.next);
        };
        let behind = at + size_of_record(read_header(&self.bytes, at).len);
        if at < self.next {
            return first_of_two(&self.bytes, self.reached, self.reached, behind, self.next);
        }
        first_of_two(&self.bytes, behind, self.reached, self.front, self.next)
    }

    /// The live record behind this one, in the order of placement, that a next record of this size, or
    /// the padding before it, would meet.
    pub fn met_behind(&self, len: u32, place: u32) -> Option<u32>
        requires room { len ≤ self.now.room }
        requires there { IsSome (stored_at self.now place) }
        ensures next { result ≡ next_met_behind self.now len place }
        ensures alone { IfSome result (IsMetAt self.now len) }
    {
        let behind = place + size_of_record(read_header(&self.bytes, place).len);
        let newer = newer_limit(self.next, len, self.size);
        if place < self.next {
            return first_live(&self.bytes, behind, self.next, newer);
        }
        let older = self.reached.min(self.next + len);
        match first_live(&self.bytes, behind, self.reached, older) {
            Some(found) => Some(found),
            None => first_live(&self.bytes, self.front, self.next, newer),
        }
    }

    /// Its size in bytes.
    pub fn size(&self) -> u32
        ensures is { result ≡ self.now.room }
        ensures most { self.now.room ≤ MAX_RING_SIZE }
    {
        self.size
    }

    pub fn key_at(&self, place: u32) -> RecordKey
        requires { IsSome (stored_at self.now place) }
        ensures { option_map (λ (stored : Stored). stored.key) (stored_at self.now place) ≡ Some result }
    {
        read_header(&self.bytes, place).key
    }

    pub fn payload_at(&self, place: u32) -> &[u8]
        requires { IsSome (stored_at self.now place) }
        ensures { option_map (λ (stored : Stored). stored.payload) (stored_at self.now place) ≡ Some result.now }
    {
        let len = read_header(&self.bytes, place).len as usize;
        let from = (place + RECORD_HEADER_SIZE) as usize;
        &self.bytes[from..from + len]
    }

    /// The record is live no longer. The header behind it isn't read: it is far ahead of what was
    /// written last, so that memory would be waited for.
    pub fn drop_at(&mut self, place: u32)
        requires { IsSome (stored_at self.old place) }
        ensures { self.new ≡ dropped_at self.old place }
    {
        let header = read_header(&self.bytes, place);
        let dropped = Header {
            dead: true,
            ..header
        };
        put_header(&mut self.bytes, place, dropped);
        let behind = place + size_of_record(header.len);
        let older = self.reached.min(behind);
        let newer = if place < self.next {
            self.next.min(behind)
        } else {
            0
        };
        self.clear = skip_dead(&self.bytes, self.clear, self.reached, older);
        self.front = skip_dead(&self.bytes, self.front, self.next, newer);
    }

    pub fn set_awaits(&mut self, place: u32, awaits: bool)
        requires { IsSome (stored_at self.old place) }
        ensures { self.new ≡ changed_at self.old place (with_awaits awaits) }
    {
        let header = read_header(&self.bytes, place);
        let key = RecordKey {
            awaits,
            ..header.key
        };
        put_header(&mut self.bytes, place, Header { key, ..header });
    }

    /// Replaces key and payload of a record, where the new one takes as many bytes.
    pub fn rewrite(&mut self, place: u32, key: RecordKey, payload: &[u8])
        requires count { key.count ≤ MAX_FRAGMENTS }
        requires flags { key.flags ≤ MAX_FLAGS }
        requires there { option_map size_of (stored_at self.old place) ≡ Some (record_size (length payload.now)) }
        ensures { self.new ≡ changed_at self.old place (with_contents key payload.now) }
    {
        put_record(&mut self.bytes, place, key, payload);
    }

    /// Replaces four bytes of a payload.
    pub fn patch_at(&mut self, place: u32, offset: u32, bytes: [u8; 4])
        requires { IsSomeAnd (stored_at self.old place) (λ stored. offset + 4 ≤ length stored.payload) }
        ensures { self.new ≡ changed_at self.old place (with_bytes offset bytes) }
    {
        put(&mut self.bytes, place + RECORD_HEADER_SIZE + offset, &bytes);
    }

    /// Becomes what another ring of its size is. It takes no memory, and copies no more bytes than the
    /// other one has reached.
    pub fn copy_from(&mut self, other: &Ring)
        requires { self.old.room ≡ other.now.room }
        ensures { self.new ≡ other.now }
    {
        self.bytes.clear();
        let Ok(()) = self.bytes.extend_from_slice(&other.bytes) else {
            unreachable!()
        };
        self.reached = other.reached;
        self.next = other.next;
        self.clear = other.clear;
        self.front = other.front;
    }

    /// Goes to the start where a record of this size doesn't fit behind the last one.
    fn turn(&mut self, len: u32)
        requires room { len ≤ self.old.room }
        requires free { next_met_of self.old len ≡ None }
        ensures after { self.new ≡ turned self.old len }
        ensures fits { self.new.next + len ≤ self.new.room }
        ensures free { next_met_of self.new len ≡ None }
    {
        if self.next + len > self.size {
            put_rest(&mut self.bytes, self.next, self.reached, true);
            self.next = 0;
            self.clear = self.front;
            self.front = 0;
        }
    }

    #[cfg(test)]
    pub fn header_bytes(&self, at: u16) -> [u8; 16] {
        let mut header = [0; 16];
        for i in 0..16 {
            let place = usize::from(at) + i;
            if place < self.bytes.len() {
                header[i] = self.bytes[place];
            }
        }
        header
    }

    /// Puts a record at its place, which is answered. It is no call, as it has one place in a buffer and
    /// is a fifth slower as one.
    #[inline(always)]
    pub fn write(&mut self, key: RecordKey, payload: &[u8]) -> u32
        requires count { key.count ≤ MAX_FRAGMENTS }
        requires flags { key.flags ≤ MAX_FLAGS }
        requires fits { record_size (length payload.now) ≤ self.old.room }
        requires free { next_met_of self.old (record_size (length payload.now)) ≡ None }
        ensures at { result ≡ place_after self.old.room self.old.next (record_size (length payload.now)) }
        ensures after { self.new ≡ written self.old key payload.now }
        ensures few { sum_by size_of self.new.live ≤ self.new.room }
    {
        let _room = self.size;
        let len = size_of_record(payload.len() as u32);
        self.turn(len);
        let at = self.next;
        self.reached = reach(&mut self.bytes, self.reached, at + len, self.size);
        let end = first_behind(&self.bytes, self.clear, self.reached, at + len);
        put_over(&mut self.bytes, at, end, key, payload);
        self.next = at + len;
        self.clear = end;
        at
    }
}

/// Where the newer records end that a next record of this size meets.
fn newer_limit(next: u32, len: u32, size: u32) -> u32
    requires { next + len < 2 ^ 32 }
    ensures { result ≡ newer_limit_of next len size }
{
    if size < next + len {
        return next.min(len);
    }
    0
}
