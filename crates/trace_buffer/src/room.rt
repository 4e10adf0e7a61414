//! Room for a next record: what it meets is lost, or refuses it.
ghost use Rattle.std.specs.Prelude.{◌≡◌, ◌≤◌, ◌&&◌, map, sum_by, find, IfSome};
ghost use Rattle.std.specs.Option.{option_map};
ghost use Rattle.ring_bytes.specs.Value.{Stored, stored_at};
ghost use Rattle.std.specs.List.{list_any};
ghost use Rattle.trace_model.specs.Counts.{raised};
ghost use Rattle.trace_model.specs.Buffers.{BufferRecord, is_unread, with_losses};
ghost use Rattle.trace_buffer.specs.Records.{record_of, is_at_key, meets_record, met_records, displaced, unread_losses};
ghost use Rattle.trace_buffer.specs.BufferFields.{AreParts};
ghost use Rattle.trace_buffer.specs.Unfinished.{unfinished_of};

use crate::row::SequenceRow;
use crate::rows::{find_row, note_loss};
use crate::unfinished::Unfinished;
use chunk_index::Index;
use ring_bytes::Ring;

/// Where the record of a chunk lies.
pub fn find_place(
    ring: &Ring,
    index: &Index,
    rows: &[SequenceRow],
    sequence: u32,
    chunk_id: u32,
) -> Option<u32>
    requires { AreParts ring.now index.now rows.now }
    ensures place { result ≡ option_map (λ (stored : Stored). stored.at) (find (is_at_key sequence chunk_id) ring.now.live) }

    // The record of the chunk is the one at that place.
    ensures there { IfSome result (λ place. stored_at ring.now place ≡ find (is_at_key sequence chunk_id) ring.now.live) }
{
    index.find(sequence, chunk_id)
}

/// Drops all that a next record of this size meets, and notes what is lost. Answers the count of
/// records that were lost unread, raised by these.
pub fn make_room(
    ring: &mut Ring,
    index: &mut Index,
    rows: &mut [SequenceRow],
    unfinished: &mut Unfinished,
    len: u32,
    overwritten: u64,
) -> u64
    requires len { len ≤ ring.old.room }
    requires parts { AreParts ring.old index.old rows.old }
    requires counted { unfinished.old ≡ unfinished_of rows.old ring.old.live }
    ensures ring { ring.new ≡ displaced ring.old len }
    ensures parts { AreParts ring.new index.new rows.new }
    ensures counted { unfinished.new ≡ unfinished_of rows.new ring.new.live }
    ensures rows { rows.new ≡ map (with_losses (met_records ring.old len)) rows.old }
    ensures lost { result ≡ raised overwritten (sum_by (unread_losses rows.old) (met_records ring.old len)) }
{
    let mut lost = overwritten;
    loop {
        match ring.next_met(len) {
            None => return lost,
            Some(place) => {
                let key = ring.key_at(place);
                unfinished.take(rows, key);
                lost = lost.saturating_add(note_loss(rows, key));
                ring.drop_at(place);
                index.remove(key.sequence, key.chunk_id);
            }
        }
    }
}

/// Whether a next record of this size meets one that has unread fragments.
pub fn meets_unread(ring: &Ring, index: &Index, rows: &[SequenceRow], len: u32) -> bool
    requires len { len ≤ ring.now.room }
    requires parts { AreParts ring.now index.now rows.now }
    ensures { result ≡ list_any (λ (r : BufferRecord). meets_record ring.now len r && is_unread rows.now r)
        (map record_of ring.now.live) }
{
    let mut next = ring.next_met(len);
    while let Some(place) = next {
        let key = ring.key_at(place);
        let row = &rows[find_row(rows, key.sequence)];
        if row.unread_of(key.chunk_id, key.count) > 0 {
            return true;
        }
        next = ring.met_behind(len, place);
    }
    false
}
