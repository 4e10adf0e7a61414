//! The index.
ghost use Rattle.std.specs.Prelude.{◌≡◌, ℕ, ◌+◌, ◌<◌, ◌≤◌, ◌^◌, IfOk, IfSome, IfNone, IsSome};
ghost use Rattle.std.specs.FinMap as map;
ghost use Rattle.chunk_index.specs.Value.{key_of, place_of, empty_index, with_place, without_place, with_places, IsFirstFrom, HasNoneFrom};

use crate::least::nearer;
use crate::room::{FIRST_ROOM, free_all, put, put_all, with_room};
use crate::slot::{Entry, close_hole, ends_search, find_slot, home_of, key_number, place_for};
use std::alloc::{AllocError, Global};
use std::marker::Model;
use trace_base::limits::IDS_AHEAD;

/// A finite map from sequence and position of a chunk to a place, with room for a fixed number of entries.
#[derive(Drop)]
pub struct Index {
    capacity: u32,
    /// How many entries the slots have room for.
    room: u32,
    /// How many there are.
    used: u32,
    /// Three slots for each entry that they have room for, and one more.
    slots: Vec<Option<Entry>>,
    /// Memory for more slots, to which the entries move once these are full. Both have enough for as many
    /// entries as the capacity, of which no more is touched than was needed once.
    others: Vec<Option<Entry>>,
}

impl Model for Index {
    ghost use Rattle.chunk_index.specs.Value.{IndexValue, index_code};

    ghost Value = { IndexValue };

    ghost coded = { index_code };

    ghost use Rattle.chunk_index.specs.Fields.{index_view, IsIndex};

    ghost view = { index_view };

    ghost invariant = { IsIndex };
}

impl Index {
    /// An index with no entry, and room for so many.
    pub fn make(alloc: Global, capacity: u32) -> Result<Index, AllocError>
        ensures { IfOk result (λ index. index ≡ empty_index capacity) }
    {
        let room = capacity.min(FIRST_ROOM);
        let mut slots = Vec::with_capacity(alloc, 3 * capacity as usize + 1)?;
        slots.resize(3 * room as usize + 1, None)?;
        let others = Vec::with_capacity(alloc, 3 * capacity as usize + 1)?;
        Ok(Index {
            capacity,
            room,
            used: 0,
            slots,
            others,
        })
    }

    /// The place of a chunk's record.
    pub fn find(&self, sequence: u32, chunk_id: u32) -> Option<u32>
        ensures { result ≡ place_of self.now sequence chunk_id }
    {
        let key = key_number(sequence, chunk_id);
        let home = home_of(key, self.room);
        let slot = self.slots[home];
        if ends_search(slot, key) {
            return place_for(slot, key);
        }
        self.find_behind(sequence, chunk_id)
    }

    /// The same where another entry is at its home, which is seldom.
    #[inline(never)]
    fn find_behind(&self, sequence: u32, chunk_id: u32) -> Option<u32>
        ensures { result ≡ place_of self.now sequence chunk_id }
    {
        let key = key_number(sequence, chunk_id);
        let at = find_slot(&self.slots, self.room, key);
        if at == self.slots.len() {
            return None;
        }
        place_for(self.slots[at], key)
    }

    pub fn add(&mut self, sequence: u32, chunk_id: u32, place: u32)
        requires room { map.len self.old.places < self.old.capacity }
        requires absent { place_of self.old sequence chunk_id ≡ None }
        ensures { self.new ≡ with_place self.old sequence chunk_id place }
    {
        self.room = with_room(
            &mut self.slots,
            &mut self.others,
            self.room,
            self.used,
            self.capacity,
        );
        let entry = Entry {
            sequence,
            chunk_id,
            place,
        };
        put(&mut self.slots, entry, self.room);
        self.used += 1;
    }

    pub fn remove(&mut self, sequence: u32, chunk_id: u32)
        requires { IsSome (place_of self.old sequence chunk_id) }
        ensures { self.new ≡ without_place self.old sequence chunk_id }
    {
        let at = find_slot(&self.slots, self.room, key_number(sequence, chunk_id));
        self.slots[at] = None;
        close_hole(&mut self.slots, self.room, at);
        self.used -= 1;
    }

    /// Takes the entries of another index in place of its own. Each gets a slot anew, since the other
    /// index may have more slots, or fewer.
    pub fn copy_from(&mut self, other: &Index)
        requires { map.len other.now.places ≤ self.old.capacity }
        ensures { self.new ≡ with_places other.now.places self.old }
    {
        self.room = free_all(
            &mut self.slots,
            &mut self.others,
            self.room,
            other.used,
            self.capacity,
        );
        put_all(&mut self.slots, &other.slots, self.room);
        self.used = other.used;
    }

    /// The least position of a sequence at or above this one, with its place. Those near ahead are
    /// tried one by one; where none of them is there, all entries are gone over.
    pub fn first_from(&self, sequence: u32, chunk_id: u32) -> Option<(u32, u32)>
        ensures found { IfSome result (λ first. IsFirstFrom self.now sequence chunk_id first.0 first.1) }
        ensures none { IfNone result (HasNoneFrom self.now sequence chunk_id) }
    {
        for ahead in 0..IDS_AHEAD {
            let Some(near) = chunk_id.checked_add(ahead) else {
                return None;
            };
            if let Some(place) = self.find(sequence, near) {
                return Some((near, place));
            }
        }
        self.first_of_all(sequence, chunk_id)
    }

    /// The same by one pass over the slots.
    fn first_of_all(&self, sequence: u32, chunk_id: u32) -> Option<(u32, u32)>
        ensures found { IfSome result (λ first. IsFirstFrom self.now sequence chunk_id first.0 first.1) }
        ensures none { IfNone result (HasNoneFrom self.now sequence chunk_id) }
    {
        let low = key_number(sequence, chunk_id);
        let high = key_number(sequence, u32::MAX);
        let mut best = None;
        for slot in &self.slots {
            best = nearer(low, high, best, *slot);
        }
        let Some((key, place)) = best else {
            return None;
        };
        Some(((key - key_number(sequence, 0)) as u32, place))
    }
}
