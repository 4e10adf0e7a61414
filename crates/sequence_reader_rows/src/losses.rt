//! The corners of what is lost: a full buffer's refusals, and a packet that could count under more
//! than one cause. 13 records fit; chunks, packets and fronts are as in the other rows.
use crate::play::{Play, play_all};
use sequence_reader::Why;
use std::test::Fail;
use trace_base::policy::FullPolicy;

const ALL: u64 = u64::MAX;

struct Row {
    name: &'static str,
    policy: FullPolicy,
    list: &'static [Play],
}

static ROWS: [Row; 9] = [
    Row {
        name: "a full discard buffer refuses a chunk, and then stays shut, also once all of it was read",
        policy: FullPolicy::Discard,
        list: &[
            Play::Chunk {
                position: 0,
                flags: 0,
                count: 1,
                front: b"\x02\x40\x01",
            },
            Play::Fill { first: 1, end: 13 },
            Play::Refused {
                position: 13,
                flags: 0,
                front: b"\x02\x40\x03",
                whole: true,
            },
            Play::Lost {
                dropped: 0,
                overwritten: 0,
                discarded: 1,
                cut: 0,
                refused: 1,
            },
            Play::Read {
                limit: ALL,
                records: b"\x0A\x07\x40\x01\x50\x02\xD0\x02\x01",
                delivered: 1,
                why: Why::Missing { chunk_id: 14 },
            },
            Play::Refused {
                position: 14,
                flags: 0,
                front: b"\x02\x40\x03",
                whole: true,
            },
            Play::Lost {
                dropped: 0,
                overwritten: 0,
                discarded: 2,
                cut: 0,
                refused: 2,
            },
            Play::Read {
                limit: ALL,
                records: b"",
                delivered: 0,
                why: Why::Missing { chunk_id: 15 },
            },
        ],
    },
    Row {
        name: "what comes behind a refused chunk is marked, and a part is still completed",
        policy: FullPolicy::Discard,
        list: &[
            Play::Part {
                position: 2,
                flags: 0,
                count: 1,
                front: b"\x02\x40\x01",
            },
            Play::Chunk {
                position: 0,
                flags: 0,
                count: 1,
                front: b"\x02\x40\x02",
            },
            Play::Fill { first: 3, end: 14 },
            Play::Refused {
                position: 1,
                flags: 0,
                front: b"\x02\x40\x03",
                whole: true,
            },
            Play::Read {
                limit: ALL,
                records: b"\x0A\x07\x40\x02\x50\x02\xD0\x02\x01\x0A\x07\x40\x01\x50\x02\xD0\x02\x01",
                delivered: 2,
                why: Why::Partial { chunk_id: 2 },
            },
            Play::Chunk {
                position: 2,
                flags: 0,
                count: 2,
                front: b"\x02\x40\x01\x02\x40\x03",
            },
            Play::Read {
                limit: ALL,
                records: b"\x0A\x04\x40\x03\x50\x02",
                delivered: 1,
                why: Why::Missing { chunk_id: 14 },
            },
            Play::Lost {
                dropped: 0,
                overwritten: 0,
                discarded: 1,
                cut: 0,
                refused: 1,
            },
        ],
    },
    Row {
        name: "a part that is refused shuts the buffer, and is counted nowhere",
        policy: FullPolicy::Discard,
        list: &[
            Play::Chunk {
                position: 0,
                flags: 0,
                count: 1,
                front: b"\x02\x40\x01",
            },
            Play::Fill { first: 1, end: 13 },
            Play::Refused {
                position: 13,
                flags: 0,
                front: b"\x02\x40\x03",
                whole: false,
            },
            Play::Lost {
                dropped: 0,
                overwritten: 0,
                discarded: 0,
                cut: 0,
                refused: 0,
            },
            Play::Read {
                limit: ALL,
                records: b"\x0A\x07\x40\x01\x50\x02\xD0\x02\x01",
                delivered: 1,
                why: Why::Missing { chunk_id: 13 },
            },
            Play::Refused {
                position: 13,
                flags: 0,
                front: b"\x02\x40\x03",
                whole: true,
            },
            Play::Lost {
                dropped: 0,
                overwritten: 0,
                discarded: 1,
                cut: 0,
                refused: 1,
            },
        ],
    },
    Row {
        name: "a drop mark that awaits a patch stops the read until it comes",
        policy: FullPolicy::Ring,
        list: &[
            Play::Chunk {
                position: 0,
                flags: 4,
                count: 2,
                front: b"\x02\x40\x01\xFF\xFF\xFF\x7F\x0A\x80\x80\x80\x00",
            },
            Play::Chunk {
                position: 1,
                flags: 0,
                count: 1,
                front: b"\x02\x40\x03",
            },
            Play::Read {
                limit: ALL,
                records: b"\x0A\x07\x40\x01\x50\x02\xD0\x02\x01",
                delivered: 1,
                why: Why::Unpatched { chunk_id: 0 },
            },
            Play::Lost {
                dropped: 0,
                overwritten: 0,
                discarded: 0,
                cut: 0,
                refused: 0,
            },
            Play::Patched {
                position: 0,
                offset: 8,
                bytes: *b"\x81\x80\x80\x00",
            },
            Play::Read {
                limit: ALL,
                records: b"\x0A\x07\x40\x03\x50\x02\xD0\x02\x01",
                delivered: 1,
                why: Why::Missing { chunk_id: 2 },
            },
            Play::Lost {
                dropped: 1,
                overwritten: 0,
                discarded: 0,
                cut: 0,
                refused: 0,
            },
        ],
    },
    Row {
        name: "a packet that awaits a patch and ends in a drop mark was dropped",
        policy: FullPolicy::Ring,
        list: &[
            Play::Chunk {
                position: 0,
                flags: 6,
                count: 2,
                front: b"\x02\x40\x01\x05\x0A\x80\x80\x80\x00",
            },
            Play::Chunk {
                position: 1,
                flags: 1,
                count: 1,
                front: b"\xFF\xFF\xFF\x7F\x40",
            },
            Play::Chunk {
                position: 2,
                flags: 0,
                count: 1,
                front: b"\x02\x40\x03",
            },
            Play::Close,
            Play::Read {
                limit: ALL,
                records: b"\x0A\x07\x40\x01\x50\x02\xD0\x02\x01\x0A\x07\x40\x03\x50\x02\xD0\x02\x01",
                delivered: 2,
                why: Why::End,
            },
            Play::Lost {
                dropped: 1,
                overwritten: 0,
                discarded: 0,
                cut: 0,
                refused: 0,
            },
        ],
    },
    Row {
        name: "a packet that awaits a patch and runs into an overwritten chunk was overwritten",
        policy: FullPolicy::Ring,
        list: &[
            Play::Chunk {
                position: 1,
                flags: 3,
                count: 1,
                front: b"\x01\x02",
            },
            Play::Chunk {
                position: 0,
                flags: 6,
                count: 2,
                front: b"\x02\x40\x01\x05\x0A\x80\x80\x80\x00",
            },
            Play::Fill { first: 2, end: 14 },
            Play::Read {
                limit: ALL,
                records: b"\x0A\x07\x40\x01\x50\x02\xD0\x02\x01",
                delivered: 1,
                why: Why::Unpatched { chunk_id: 0 },
            },
            Play::Lost {
                dropped: 0,
                overwritten: 0,
                discarded: 0,
                cut: 0,
                refused: 0,
            },
            Play::Close,
            Play::Read {
                limit: ALL,
                records: b"",
                delivered: 0,
                why: Why::End,
            },
            Play::Lost {
                dropped: 0,
                overwritten: 1,
                discarded: 0,
                cut: 0,
                refused: 0,
            },
        ],
    },
    Row {
        name: "a packet that awaits a patch and runs into a refused chunk was discarded",
        policy: FullPolicy::Discard,
        list: &[
            Play::Chunk {
                position: 0,
                flags: 6,
                count: 2,
                front: b"\x02\x40\x01\x05\x0A\x80\x80\x80\x00",
            },
            Play::Fill { first: 2, end: 14 },
            Play::Refused {
                position: 1,
                flags: 3,
                front: b"\x01\x02",
                whole: true,
            },
            Play::Lost {
                dropped: 0,
                overwritten: 0,
                discarded: 0,
                cut: 0,
                refused: 1,
            },
            Play::Close,
            Play::Read {
                limit: ALL,
                records: b"\x0A\x07\x40\x01\x50\x02\xD0\x02\x01",
                delivered: 1,
                why: Why::End,
            },
            Play::Lost {
                dropped: 0,
                overwritten: 0,
                discarded: 1,
                cut: 0,
                refused: 1,
            },
        ],
    },
    Row {
        name: "a part that was read, then overwritten and never completed is a gap, and marks",
        policy: FullPolicy::Ring,
        list: &[
            Play::Part {
                position: 0,
                flags: 0,
                count: 1,
                front: b"\x02\x40\x01",
            },
            Play::Read {
                limit: ALL,
                records: b"\x0A\x07\x40\x01\x50\x02\xD0\x02\x01",
                delivered: 1,
                why: Why::Partial { chunk_id: 0 },
            },
            Play::Chunk {
                position: 1,
                flags: 0,
                count: 1,
                front: b"\x02\x40\x03",
            },
            Play::Fill { first: 2, end: 14 },
            Play::Read {
                limit: ALL,
                records: b"",
                delivered: 0,
                why: Why::Missing { chunk_id: 0 },
            },
            Play::Close,
            Play::Read {
                limit: ALL,
                records: b"\x0A\x07\x40\x03\x50\x02\xD0\x02\x01",
                delivered: 1,
                why: Why::End,
            },
            Play::Lost {
                dropped: 0,
                overwritten: 0,
                discarded: 0,
                cut: 0,
                refused: 0,
            },
        ],
    },
    Row {
        name: "what a closed sequence's last part lacks is no gap while the part is there",
        policy: FullPolicy::Ring,
        list: &[
            Play::Part {
                position: 0,
                flags: 0,
                count: 1,
                front: b"\x02\x40\x01",
            },
            Play::Chunk {
                position: 1,
                flags: 0,
                count: 1,
                front: b"\x02\x40\x03",
            },
            Play::Close,
            Play::Read {
                limit: ALL,
                records: b"\x0A\x07\x40\x01\x50\x02\xD0\x02\x01\x0A\x04\x40\x03\x50\x02",
                delivered: 2,
                why: Why::End,
            },
            Play::Lost {
                dropped: 0,
                overwritten: 0,
                discarded: 0,
                cut: 0,
                refused: 0,
            },
        ],
    },
];

#[test]
fn losses_have_one_cause(rt: HostRuntime) -> Result<(), Fail> {
    for row in &ROWS {
        play_all(&rt, rt.alloc(), row.name, row.policy, row.list)?;
    }
    Ok(())
}
