//! The records of a sequence as it is closed.
ghost use Rattle.std.specs.Prelude.{◌≡◌, true, [], map};
ghost use Rattle.trace_buffer.specs.Records.{record_of};
ghost use Rattle.trace_buffer.specs.Closing.{finals_of, final_with, IsStillNear, PartsAreNear};
ghost use Rattle.trace_buffer.specs.BufferFields.{PlacesOnce};
ghost use Rattle.trace_buffer.specs.Unfinished.{parts_in};

use crate::row::SequenceRow;
use ring_bytes::{RecordKey, Ring};

/// Marks the chunks of which a part is there. The parts are looked for in all records of the ring, but
/// not where it is known that there is none.
pub fn mark_parts(ring: &Ring, row: &mut SequenceRow, parts: u32)
    requires counted { parts ≡ parts_in ring.now.live }
    requires closed { row.old.closed ≡ true }
    requires none { row.old.final ≡ [] }
    requires near { PartsAreNear row.old ring.now.live }
    requires once { PlacesOnce ring.now.live }
    ensures { row.new ≡ record row.old { final = finals_of row.old.number (map record_of ring.now.live) } }
{
    if parts == 0 {
        return;
    }
    let mut next = ring.live_behind(None);
    while let Some(place) = next {
        let key = ring.key_at(place);
        mark_part(row, key);
        next = ring.live_behind(Some(place));
    }
}

/// Marks the chunk of the record, where it is a part of a chunk of the sequence.
fn mark_part(row: &mut SequenceRow, key: RecordKey)
    requires closed { row.old.closed ≡ true }
    requires near { IsStillNear row.old key }
    ensures { row.new ≡ record row.old { final = final_with row.old.number key row.old.final } }
{
    if key.sequence != row.number() {
        return;
    }
    if key.partial {
        row.mark_final(key.chunk_id);
    }
}
