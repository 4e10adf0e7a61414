//! Entries of an index: as many as a full buffer of the smallest records can have, taken out and
//! added again.
ghost use Rattle.std.specs.Prelude.{◌≡◌, ℕ, ◌<◌, ◌≤◌, ◌+◌, IfSome};
ghost use Rattle.std.specs.FinMap as map;

use chunk_index::Index;
use std::alloc::Global;

/// Sequences, and chunks of each that are there at one time.
const SEQUENCES: u32 = 64;

const CHUNKS: u32 = 3125;

const ENTRIES: u32 = SEQUENCES * CHUNKS;

/// Whether the chunk wasn't there, and was added.
fn add_new(index: &mut Index, sequence: u32, chunk_id: u32, place: u32) -> bool
    requires { map.len index.old.places < index.old.capacity }
    ensures count { map.len index.new.places ≤ map.len index.old.places + 1 }
    ensures capacity { index.new.capacity ≡ index.old.capacity }
{
    if index.find(sequence, chunk_id).is_some() {
        return false;
    }
    index.add(sequence, chunk_id, place);
    true
}

/// The place of the chunk, which is taken out.
fn take_out(index: &mut Index, sequence: u32, chunk_id: u32) -> Option<u32>
    ensures count { map.len index.new.places ≤ map.len index.old.places }
    ensures fewer { IfSome result (λ _. map.len index.new.places < map.len index.old.places) }
    ensures capacity { index.new.capacity ≡ index.old.capacity }
{
    let Some(place) = index.find(sequence, chunk_id) else {
        return None;
    };
    index.remove(sequence, chunk_id);
    Some(place)
}

/// Finds and takes out the oldest chunk of a sequence, and looks for a new one, which it adds.
fn replace(index: &mut Index, sequence: u32, oldest: u32) -> Option<u32>
    requires { map.len index.old.places ≤ index.old.capacity }
    ensures count { map.len index.new.places ≤ map.len index.old.places }
    ensures capacity { index.new.capacity ≡ index.old.capacity }
{
    let place = take_out(index, sequence, oldest)?;
    add_new(index, sequence, oldest.wrapping_add(CHUNKS), place);
    Some(place)
}

/// The last place that was found. None where no memory is left, or an entry wasn't there.
pub fn look_up(alloc: Global, count: u32) -> Option<u32> {
    let Ok(mut index) = Index::make(alloc, ENTRIES) else {
        return None;
    };
    for entry in 0..ENTRIES {
        add_new(&mut index, entry % SEQUENCES, entry / SEQUENCES, entry);
    }
    let mut last = 0;
    for turn in 0..count {
        last = replace(&mut index, turn % SEQUENCES, turn / SEQUENCES)?;
    }
    Some(last)
}
