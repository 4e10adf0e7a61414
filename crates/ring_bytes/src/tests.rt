//! Rings as they are used, and the bytes of their headers.
ghost use Rattle.std.specs.Prelude.{◌≡◌, ◌≤◌, length, IfSome};
ghost use Rattle.page_geometry.specs.Sizes.{record_size};
ghost use Rattle.ring_bytes.specs.Walked.{IsAlone};

use super::*;
use page_geometry::MAX_FLAGS;
use std::process::Abort;
use std::test::Fail;
use trace_base::limits::MAX_FRAGMENTS;

const PAYLOAD: [u8; 284] = [7; 284];

const KEY: RecordKey = RecordKey {
    sequence: 2,
    chunk_id: 0,
    count: 1,
    flags: 0,
    partial: false,
    awaits: false,
};

/// Writes a record, and drops what it meets.
fn push(ring: &mut Ring, key: RecordKey, payload: &[u8]) -> u32
    requires count { key.count ≤ MAX_FRAGMENTS }
    requires flags { key.flags ≤ MAX_FLAGS }
    requires small { length payload.now ≤ MAX_RING_SIZE }
    requires fits { record_size (length payload.now) ≤ ring.old.room }
    ensures { ring.new.room ≡ ring.old.room }
{
    let len = size_of_record(payload.len() as u32);
    while let Some(place) = ring.next_met(len) {
        ring.drop_at(place);
    }
    ring.write(key, payload)
}

/// The place, where a record is live there.
fn live_at(ring: &Ring, place: u32) -> Option<u32>
    ensures { IfSome result (IsAlone ring.now) }
{
    let mut at = None;
    for _ in 0..300 {
        at = ring.live_behind(at);
        if at == Some(place) {
            return at;
        }
    }
    None
}

#[tactic(auto, using(crate::proofs::LiveLemmas::alone_found))]
fn key_of(ring: &Ring, place: u32) -> Option<RecordKey> {
    let Some(at) = live_at(ring, place) else {
        return None;
    };
    Some(ring.key_at(at))
}

#[tactic(auto, using(crate::proofs::LiveLemmas::alone_found))]
fn has_payload(ring: &Ring, place: u32, payload: &[u8]) -> bool {
    let Some(at) = live_at(ring, place) else {
        return false;
    };
    ring.payload_at(at) == payload
}

#[tactic(auto, using(crate::proofs::LiveLemmas::alone_found))]
fn set_awaits(rt: &impl Abort, ring: &mut Ring, place: u32, awaits: bool)
    ensures { ring.new.room ≡ ring.old.room }
{
    let at = live_at(ring, place).expect(rt, "not live");
    ring.set_awaits(at, awaits);
}

#[tactic(auto, using(crate::proofs::LiveLemmas::alone_found))]
fn patch(rt: &impl Abort, ring: &mut Ring, place: u32, offset: u32, bytes: [u8; 4])
    ensures { ring.new.room ≡ ring.old.room }
{
    let at = live_at(ring, place).expect(rt, "not live");
    assert!(rt; offset as usize + 4 <= ring.payload_at(at).len());
    ring.patch_at(at, offset, bytes);
}

#[tactic(auto, using(crate::proofs::LiveLemmas::alone_found))]
fn drop_record(rt: &impl Abort, ring: &mut Ring, place: u32)
    ensures { ring.new.room ≡ ring.old.room }
{
    let at = live_at(ring, place).expect(rt, "not live");
    ring.drop_at(at);
}

#[test]
fn headers_are_byte_by_byte(rt: HostRuntime) -> Result<(), Fail> {
    let mut ring = Ring::make(rt.alloc(), 4096)?;
    assert_eq!(rt; ring.header_bytes(0), [0; 16]);
    push(&mut ring, KEY, &PAYLOAD);

    // The bytes that were added for it are one dead part behind it.
    let added = [0xc0, 0x0e, 0, 0, 0, 0, 0, 0, 0, 0, 0, 0, 0, 0, 8, 0];
    assert_eq!(rt; ring.header_bytes(304), added);
    for chunk_id in 1..13 {
        push(&mut ring, RecordKey { chunk_id, ..KEY }, &PAYLOAD);
    }
    let place = ring.place_next(304);
    assert_eq!(rt; (place.at, place.padding), (0, 144));
    assert_eq!(rt; ring.next_met(304), Some(0));
    push(
        &mut ring,
        RecordKey {
            chunk_id: 13,
            ..KEY
        },
        &PAYLOAD,
    );
    let first = [0x1c, 1, 0, 0, 2, 0, 0, 0, 13, 0, 0, 0, 1, 0, 0, 0];
    let rest = [0, 0, 0, 0, 0, 0, 0, 0, 0, 0, 0, 0, 0, 0, 8, 0];
    let padding = [0x80, 0, 0, 0, 0, 0, 0, 0, 0, 0, 0, 0, 0, 0, 4, 0];
    assert_eq!(rt; ring.header_bytes(0), first);
    assert_eq!(rt; ring.header_bytes(3952), padding);

    // A shorter record leaves a dead part of the one that it overwrites.
    push(
        &mut ring,
        RecordKey {
            chunk_id: 14,
            ..KEY
        },
        &PAYLOAD[..268],
    );
    assert_eq!(rt; ring.header_bytes(592), rest);
    Ok(())
}

#[test]
fn records_are_changed_in_place(rt: HostRuntime) -> Result<(), Fail> {
    let mut ring = Ring::make(rt.alloc(), 4096)?;
    let all = RecordKey {
        sequence: u32::MAX,
        chunk_id: 0x0102_0304,
        count: 1023,
        flags: 63,
        partial: true,
        awaits: true,
    };
    push(&mut ring, KEY, &[1; 10]);
    push(&mut ring, all, &[2; 20]);
    push(&mut ring, KEY, &[3; 30]);
    assert_eq!(rt; key_of(&ring, 32), Some(all));
    let header = [20, 0, 0, 0, 255, 255, 255, 255, 4, 3, 2, 1, 255, 255, 3, 0];
    assert_eq!(rt; ring.header_bytes(32), header);

    set_awaits(&rt, &mut ring, 32, false);
    let done = RecordKey {
        awaits: false,
        ..all
    };
    assert_eq!(rt; key_of(&ring, 32), Some(done));
    patch(&rt, &mut ring, 32, 16, [8, 9, 10, 11]);
    let patched = [2, 2, 2, 2, 2, 2, 2, 2, 2, 2, 2, 2, 2, 2, 2, 2, 8, 9, 10, 11];
    assert!(rt; has_payload(&ring, 32, &patched));
    drop_record(&rt, &mut ring, 32);
    assert_eq!(rt; live_at(&ring, 32), None);
    assert_eq!(rt; live_at(&ring, 80), Some(80));
    Ok(())
}

/// What is left behind the last record: nothing, one unit, two units.
#[test]
fn records_go_to_the_start_where_they_do_not_fit(rt: HostRuntime) -> Result<(), Fail> {
    let payload = [5; 4080];
    for (first, second, at, padding) in [
        (4080, 0, 0, 0),
        (4080, 4080, 0, 0),
        (4064, 0, 4080, 0),
        (4064, 1, 0, 16),
        (4048, 16, 4064, 0),
        (4048, 17, 0, 32),
    ] {
        let mut ring = Ring::make(rt.alloc(), 4096)?;
        assert!(rt; first <= 4080 && second <= 4080);
        push(&mut ring, KEY, &payload[..first]);
        let place = ring.place_next(size_of_record(second as u32));
        assert_eq!(rt;
            (place.at, place.padding),
            (at, padding),
            "{first} {second}"
        );
        assert_eq!(rt;
            push(&mut ring, KEY, &payload[..second]),
            at,
            "{first} {second}"
        );
        assert_eq!(rt; live_at(&ring, at), Some(at), "{first} {second}");
        assert_eq!(rt; ring.live_behind(None), Some(0), "{first} {second}");
    }
    Ok(())
}

#[test]
fn bytes_grow_as_records_come(rt: HostRuntime) -> Result<(), Fail> {
    let mut ring = Ring::make(rt.alloc(), 65_536)?;
    let payload = [5; 55_000];
    push(&mut ring, KEY, &payload[..20_000]);
    push(&mut ring, KEY, &payload[..40_000]);
    assert_eq!(rt; ring.header_bytes(60_032), [0; 16]);

    // The ring turns before all of it has bytes, and a record of the second round goes on behind them.
    assert_eq!(rt; push(&mut ring, KEY, &payload[..6_000]), 0);
    assert_eq!(rt; push(&mut ring, KEY, &payload), 6_016);
    let added = [0x80, 0x11, 0, 0, 0, 0, 0, 0, 0, 0, 0, 0, 0, 0, 8, 0];
    assert_eq!(rt; ring.header_bytes(61_040), added);
    assert!(rt; has_payload(&ring, 6_016, &payload));
    assert_eq!(rt; live_at(&ring, 20_016), None);
    Ok(())
}
