//! Slots with room for more entries.
ghost use Rattle.std.specs.Prelude.{◌≡◌, ℕ, ◌+◌, ◌*◌, ◌<◌, ◌≤◌, true, [], ◌∷◌, Some, None, length, replicate, vec_capacity};
ghost use Rattle.std.specs.FinMap.{get, insert};
ghost use Rattle.chunk_index.specs.declared.slot.Entry.{Entry};
ghost use Rattle.chunk_index.specs.Slots.{slot, has_key, entry_key, entries_of, map_of, with_slot};
ghost use Rattle.chunk_index.specs.Table.{IsTable};
ghost use Rattle.chunk_index.specs.Room.{HasRoom};

use crate::slot::{Entry, find_slot, key_number};

/// How many entries the slots have room for at first: an index that stays small touches little memory.
pub const FIRST_ROOM: u32 = 32_768;

/// For how many entries slots are made where these have come: for three times as many and some more, so
/// that the entries seldom move, and little more memory is touched than they need.
fn room_behind(used: u32, capacity: u32) -> u32
    requires { used < capacity }
    ensures more { used < result }
    ensures within { result ≤ capacity }
{
    capacity.min((used + 1).saturating_mul(3))
}

/// Sees to it that there is room for one more entry, and answers for how many there is.
#[inline]
pub fn with_room(
    slots: &mut Vec<Option<Entry>>,
    others: &mut Vec<Option<Entry>>,
    room: u32,
    used: u32,
    capacity: u32,
) -> u32
    requires room { HasRoom room capacity slots.old.items others.old.items (vec_capacity slots.old) (vec_capacity others.old) }
    requires used { used ≡ length (entries_of slots.old.items) }
    requires few { used < capacity }
    ensures room { HasRoom result capacity slots.new.items others.new.items (vec_capacity slots.new) (vec_capacity others.new) }
    ensures more { used < result }
    ensures map { map_of slots.new.items ≡ map_of slots.old.items }
    ensures entries { length (entries_of slots.new.items) ≡ length (entries_of slots.old.items) }
{
    if used < room {
        return room;
    }
    let more = room_behind(used, capacity);
    widen(slots, others, room, more, capacity);
    more
}

/// Moves all entries to slots with room for more.
#[cold]
#[inline(never)]
fn widen(
    slots: &mut Vec<Option<Entry>>,
    others: &mut Vec<Option<Entry>>,
    room: u32,
    more: u32,
    capacity: u32,
)
    requires room { HasRoom room capacity slots.old.items others.old.items (vec_capacity slots.old) (vec_capacity others.old) }
    requires less { room < capacity }
    requires within { more ≤ capacity }
    requires few { length (entries_of slots.old.items) ≤ more }
    ensures size { length slots.new.items ≡ 3 * more + 1 }
    ensures table { IsTable more slots.new.items }
    ensures map { map_of slots.new.items ≡ map_of slots.old.items }
    ensures entries { length (entries_of slots.new.items) ≡ length (entries_of slots.old.items) }
    ensures free { others.new.items ≡ [] }
    ensures fits { 3 * capacity + 1 ≤ vec_capacity slots.new }
    ensures others_fit { 3 * capacity + 1 ≤ vec_capacity others.new }
{
    let Ok(()) = others.resize(3 * more as usize + 1, None) else {
        unreachable!()
    };
    put_all(others, slots, more);
    std::mem::swap(slots, others);
    others.clear();
}

/// Frees all slots, and sees to it that there is room for so many entries. Answers for how many there is.
pub fn free_all(
    slots: &mut Vec<Option<Entry>>,
    others: &mut Vec<Option<Entry>>,
    room: u32,
    used: u32,
    capacity: u32,
) -> u32
    requires room { HasRoom room capacity slots.old.items others.old.items (vec_capacity slots.old) (vec_capacity others.old) }
    requires few { used ≤ capacity }
    ensures room { HasRoom result capacity slots.new.items others.new.items (vec_capacity slots.new) (vec_capacity others.new) }
    ensures enough { used ≤ result }
    ensures free { slots.new.items ≡ replicate (3 * result + 1) None }
{
    if used <= room {
        slots.fill(None);
        return room;
    }
    let Ok(()) = others.resize(3 * used as usize + 1, None) else {
        unreachable!()
    };
    std::mem::swap(slots, others);
    others.clear();
    used
}

/// Puts the entries of slots into others, which are free.
pub fn put_all(into: &mut [Option<Entry>], from: &[Option<Entry>], capacity: u32)
    requires free { into.old ≡ replicate (3 * capacity + 1) None }
    requires once { (at other key : ℕ) → has_key key (slot from.now at) ≡ true → has_key key (slot from.now other) ≡ true → at ≡ other }
    requires few { length (entries_of from.now) ≤ capacity }
    ensures size { length into.new ≡ 3 * capacity + 1 }
    ensures table { IsTable capacity into.new }
    ensures map { map_of into.new ≡ map_of from.now }
    ensures entries { length (entries_of into.new) ≡ length (entries_of from.now) }
{
    for at in 0..from.len() {
        put_slot(into, from[at], capacity);
    }
}

/// Puts the entry of a slot, where it has one.
fn put_slot(slots: &mut [Option<Entry>], from: Option<Entry>, capacity: u32)
    requires size { length slots.old ≡ 3 * capacity + 1 }
    requires table { IsTable capacity slots.old }
    requires few { (entry : Entry) → from ≡ Some entry → length (entries_of slots.old) < capacity }
    requires absent { (entry : Entry) → from ≡ Some entry → get (map_of slots.old) (entry_key entry) ≡ None }
    ensures size { length slots.new ≡ 3 * capacity + 1 }
    ensures table { IsTable capacity slots.new }
    ensures map { map_of slots.new ≡ with_slot from (map_of slots.old) }
    ensures entries { length (entries_of slots.new) ≡ length (entries_of slots.old) + length (entries_of (from ∷ [])) }
{
    if let Some(entry) = from {
        put(slots, entry, capacity);
    }
}

/// Puts an entry where the search for its key ends.
pub fn put(slots: &mut [Option<Entry>], entry: Entry, capacity: u32)
    requires size { length slots.old ≡ 3 * capacity + 1 }
    requires table { IsTable capacity slots.old }
    requires few { length (entries_of slots.old) < capacity }
    requires absent { get (map_of slots.old) (entry_key entry) ≡ None }
    ensures size { length slots.new ≡ 3 * capacity + 1 }
    ensures table { IsTable capacity slots.new }
    ensures map { map_of slots.new ≡ insert (map_of slots.old) (entry_key entry) entry.place }
    ensures entries { length (entries_of slots.new) ≡ length (entries_of slots.old) + 1 }
{
    let at = find_slot(slots, capacity, key_number(entry.sequence, entry.chunk_id));
    slots[at] = Some(entry);
}
