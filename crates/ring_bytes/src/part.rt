//! Parts of a ring as they are written: a record, and a stretch in which nothing is live.
ghost use Rattle.std.specs.Prelude.{◌≡◌, ℕ, ◌+◌, ◌-◌, ◌%◌, ◌<◌, ◌≤◌, [], ◌∷◌, false, length};
ghost use Rattle.page_geometry.specs.Sizes.{record_size};
ghost use Rattle.ring_bytes.specs.Bytes.{SameOutside};
ghost use Rattle.ring_bytes.specs.Header.{header_at, rest_header};
ghost use Rattle.ring_bytes.specs.Rows.{IsRow, live_row};

use crate::header::{Header, put, put_header};
use crate::key::RecordKey;
use crate::ring::MAX_RING_SIZE;
use page_geometry::{MAX_FLAGS, RECORD_HEADER_SIZE, RECORD_UNIT};
use trace_base::limits::MAX_FRAGMENTS;

/// What a record with so many bytes of payload takes in a ring.
pub fn size_of_record(len: u32) -> u32
    requires { len ≤ MAX_RING_SIZE }
    ensures { result ≡ record_size len }
{
    (RECORD_HEADER_SIZE + len).next_multiple_of(RECORD_UNIT)
}

/// Writes a record, but for the unused bytes behind its payload.
pub fn put_record(bytes: &mut [u8], at: u32, key: RecordKey, payload: &[u8])
    requires count { key.count ≤ MAX_FRAGMENTS }
    requires flags { key.flags ≤ MAX_FLAGS }
    requires small { at + record_size (length payload.now) ≤ MAX_RING_SIZE }
    requires room { at + record_size (length payload.now) ≤ length bytes.old }
    ensures same { SameOutside at (at + record_size (length payload.now)) bytes.old bytes.new }
    ensures row { IsRow bytes.new at (at + record_size (length payload.now)) }
    ensures live { live_row bytes.new at (at + record_size (length payload.now))
        ≡ record { at = at; key = key; payload = payload.now } ∷ [] }
{
    let header = Header {
        len: payload.len() as u32,
        key,
        padding: false,
        dead: false,
    };
    put_header(bytes, at, header);
    put(bytes, at + RECORD_HEADER_SIZE, payload);
}

/// Makes one part without a record of what stands between two places, where they aren't the same:
/// padding, or what is left of dropped records.
pub fn put_rest(bytes: &mut [u8], from: u32, to: u32, padding: bool)
    requires order { from ≤ to }
    requires room { to ≤ length bytes.old }
    requires small { to ≤ MAX_RING_SIZE }
    requires from_units { from % RECORD_UNIT ≡ 0 }
    requires to_units { to % RECORD_UNIT ≡ 0 }
    ensures same { SameOutside from to bytes.old bytes.new }
    ensures row { IsRow bytes.new from to }
    ensures none { live_row bytes.new from to ≡ [] }
    ensures header { from < to → header_at bytes.new from ≡ rest_header (to - from - RECORD_HEADER_SIZE) padding }
{
    if from == to {
        return;
    }
    let header = Header {
        len: to - from - RECORD_HEADER_SIZE,
        key: RecordKey {
            sequence: 0,
            chunk_id: 0,
            count: 0,
            flags: 0,
            partial: false,
            awaits: false,
        },
        padding,
        dead: !padding,
    };
    put_header(bytes, from, header);
}

/// Writes a record over dead parts that end at `end`, and makes one dead part of what is left of
/// them.
pub fn put_over(bytes: &mut [u8], at: u32, end: u32, key: RecordKey, payload: &[u8])
    requires count { key.count ≤ MAX_FRAGMENTS }
    requires flags { key.flags ≤ MAX_FLAGS }
    requires small { end ≤ MAX_RING_SIZE }
    requires room { end ≤ length bytes.old }
    requires fits { at + record_size (length payload.now) ≤ end }
    requires at_units { at % RECORD_UNIT ≡ 0 }
    requires end_units { end % RECORD_UNIT ≡ 0 }
    ensures same { SameOutside at end bytes.old bytes.new }
    ensures row { IsRow bytes.new at (at + record_size (length payload.now)) }
    ensures live { live_row bytes.new at (at + record_size (length payload.now))
        ≡ record { at = at; key = key; payload = payload.now } ∷ [] }
    ensures rest { IsRow bytes.new (at + record_size (length payload.now)) end }
    ensures none { live_row bytes.new (at + record_size (length payload.now)) end ≡ [] }
    ensures header { at + record_size (length payload.now) < end
        → header_at bytes.new (at + record_size (length payload.now))
        ≡ rest_header (end - (at + record_size (length payload.now)) - RECORD_HEADER_SIZE) false }
{
    let behind = at + size_of_record(payload.len() as u32);
    put_record(bytes, at, key, payload);
    put_rest(bytes, behind, end, false);
}
