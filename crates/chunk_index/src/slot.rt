//! The slots of an index. A key's home is one of the first two thirds of the slots, so a search goes
//! up from there and never has to turn back to the first slot.
ghost use Rattle.std.specs.Prelude.{◌≡◌, ℕ, ◌+◌, ◌*◌, ◌<◌, ◌≤◌, ◌||◌, not, length};
ghost use Rattle.chunk_index.specs.Value.{key_of};
ghost use Rattle.chunk_index.specs.Slots.{home, has_key, entries_of, is_used, map_of, place_in};
ghost use Rattle.chunk_index.specs.Table.{EndsAt, IsTable, IsHoled};

/// What an index keeps of a record.
#[derive(Clone, Copy, Debug, PartialEq, Eq)]
pub struct Entry {
    pub sequence: u32,
    pub chunk_id: u32,
    pub place: u32,
}

/// Sequence and position of the chunk as one number.
pub fn key_number(sequence: u32, chunk_id: u32) -> u64
    ensures { result ≡ key_of sequence chunk_id }
{
    (u64::from(sequence) << 32) + u64::from(chunk_id)
}

/// The slot from which a key is looked for. Eight keys in a row have their homes in a row, since
/// chunks come and go in rising order: so most searches look where the one before looked. The last
/// key has the first of these homes: so the oldest of them mostly has a free slot behind it, and the
/// hole that it leaves is closed at once. The first home is a share of the homes as large as the
/// mixed number of the keys is of all words; the factor is 2^64 divided by the golden ratio, which
/// spreads numbers in a row evenly.
#[tactic(auto, unfolding(crate::specs::Slots::home))]
pub fn home_of(key: u64, capacity: u32) -> usize
    ensures value { result ≡ home capacity key }
    ensures below { result ≤ 2 * capacity }
{
    let mixed = (key / 8).wrapping_mul(0x9e37_79b9_7f4a_7c15);
    let last = 2 * u64::from(capacity);
    let share = ((u128::from(mixed) * u128::from(last + 1)) >> 64) as u64;
    (share + (7 - key % 8)).min(last) as usize
}

/// Whether a search for the key ends at the slot: it is free, or has the key.
pub fn ends_search(slot: Option<Entry>, key: u64) -> bool
    ensures { result ≡ (not (is_used slot) || has_key key slot) }
{
    match slot {
        None => true,
        Some(entry) => key_number(entry.sequence, entry.chunk_id) == key,
    }
}

/// The slot at which a search for the key ends, or the number of slots.
pub fn find_slot(slots: &[Option<Entry>], capacity: u32, key: u64) -> usize
    requires { length slots.now ≡ 3 * capacity + 1 }
    ensures ends { EndsAt slots.now key (home capacity key) result }
    ensures inside { result ≤ length slots.now }
{
    let mut at = home_of(key, capacity);
    while at < slots.len() {
        if ends_search(slots[at], key) {
            return at;
        }
        at += 1;
    }
    at
}

/// The place that a slot has for the key.
pub fn place_for(slot: Option<Entry>, key: u64) -> Option<u32>
    ensures { result ≡ place_in key slot }
{
    match slot {
        None => None,
        Some(entry) => {
            if key_number(entry.sequence, entry.chunk_id) == key {
                Some(entry.place)
            } else {
                None
            }
        }
    }
}

/// Closes a hole: each entry behind it whose home isn't behind it moves up, and leaves the hole where
/// it stood. It ends at the first slot that was free.
pub fn close_hole(slots: &mut [Option<Entry>], capacity: u32, hole: usize)
    requires hole { hole < length slots.old }
    requires room { length slots.old ≡ 3 * capacity + 1 }
    requires holed { IsHoled capacity slots.old hole (hole + 1) }
    ensures table { IsTable capacity slots.new }
    ensures same { map_of slots.new ≡ map_of slots.old }
    ensures entries { length (entries_of slots.new) ≡ length (entries_of slots.old) }
{
    let mut hole = hole;
    let mut at = hole + 1;
    while at < slots.len() {
        let Some(entry) = slots[at] else {
            return;
        };
        let home = home_of(key_number(entry.sequence, entry.chunk_id), capacity);
        if home <= hole {
            slots[at] = None;
            slots[hole] = Some(entry);
            hole = at;
        }
        at += 1;
    }
}
