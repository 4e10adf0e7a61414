//! Records in a ring as large as can be, and copies of as many bytes.
ghost use Rattle.std.specs.Prelude.{◌≡◌, ◌≤◌, length};
ghost use Rattle.page_geometry.specs.Sizes.{record_size};

use page_geometry::MAX_FLAGS;
use ring_bytes::{MAX_RING_SIZE, RecordKey, Ring, size_of_record};
use std::alloc::Global;
use trace_base::limits::MAX_FRAGMENTS;

/// The least payload of a chunk, and what a record takes with it.
const PAYLOAD: [u8; 284] = [7; 284];

const RECORD: [u8; 304] = [7; 304];

/// Writes a record, and drops what it meets.
fn push(ring: &mut Ring, key: RecordKey, payload: &[u8]) -> u32
    requires count { key.count ≤ MAX_FRAGMENTS }
    requires flags { key.flags ≤ MAX_FLAGS }
    requires small { length payload.now ≤ MAX_RING_SIZE }
    requires fits { record_size (length payload.now) ≤ ring.old.room }
    ensures { ring.new.room ≡ ring.old.room }
{
    let len = size_of_record(payload.len() as u32);
    while let Some(place) = ring.next_met(len) {
        ring.drop_at(place);
    }
    ring.write(key, payload)
}

/// The place of the last record. None where no memory is left.
pub fn write_records(alloc: Global, count: u32) -> Option<u32> {
    let Ok(mut ring) = Ring::make(alloc, MAX_RING_SIZE) else {
        return None;
    };
    let mut last = 0;
    for chunk_id in 0..count {
        let key = RecordKey {
            sequence: 2,
            chunk_id,
            count: 3,
            flags: 0,
            partial: false,
            awaits: false,
        };
        last = push(&mut ring, key, &PAYLOAD);
    }
    Some(last)
}

/// The same of plain copies.
pub fn copy_records(alloc: Global, count: u32) -> Option<u32> {
    let Ok(mut bytes) = vec![in alloc; 0; MAX_RING_SIZE as usize] else {
        return None;
    };
    let mut last = 0;
    let mut next = 0;
    for _ in 0..count {
        if bytes.len() - next < RECORD.len() {
            next = 0;
        }
        bytes[next..next + RECORD.len()].copy_from_slice(&RECORD);
        last = next;
        next += RECORD.len();
    }
    Some(last as u32)
}
