//! The corners of reading. Packets are field 8 with the values 1, 2 and 3; a chunk's front is its
//! fragments, each behind its size.
use crate::play::{Play, play_all};
use sequence_reader::Why;
use std::test::Fail;
use trace_base::policy::FullPolicy;

const ALL: u64 = u64::MAX;

struct Row {
    name: &'static str,
    list: &'static [Play],
}

static ROWS: [Row; 16] = [
    Row {
        name: "the first packet is marked, and the next one isn't",
        list: &[
            Play::Chunk {
                position: 0,
                flags: 0,
                count: 1,
                front: b"\x02\x40\x01",
            },
            Play::Read {
                limit: ALL,
                records: b"\x0A\x07\x40\x01\x50\x02\xD0\x02\x01",
                delivered: 1,
                why: Why::Missing { chunk_id: 1 },
            },
            Play::Chunk {
                position: 1,
                flags: 0,
                count: 1,
                front: b"\x02\x40\x02",
            },
            Play::Read {
                limit: ALL,
                records: b"\x0A\x04\x40\x02\x50\x02",
                delivered: 1,
                why: Why::Missing { chunk_id: 2 },
            },
        ],
    },
    Row {
        name: "a packet over two chunks waits for the second",
        list: &[
            Play::Chunk {
                position: 0,
                flags: 2,
                count: 2,
                front: b"\x02\x40\x01\x01\x40",
            },
            Play::Read {
                limit: ALL,
                records: b"\x0A\x07\x40\x01\x50\x02\xD0\x02\x01",
                delivered: 1,
                why: Why::Missing { chunk_id: 1 },
            },
            Play::Chunk {
                position: 1,
                flags: 1,
                count: 2,
                front: b"\x01\x02\x02\x40\x03",
            },
            Play::Read {
                limit: ALL,
                records: b"\x0A\x04\x40\x02\x50\x02\x0A\x04\x40\x03\x50\x02",
                delivered: 2,
                why: Why::Missing { chunk_id: 2 },
            },
        ],
    },
    Row {
        name: "a packet whose middle never came is cut, and the next one is marked",
        list: &[
            Play::Chunk {
                position: 0,
                flags: 2,
                count: 2,
                front: b"\x02\x40\x01\x01\x40",
            },
            Play::Chunk {
                position: 2,
                flags: 1,
                count: 2,
                front: b"\x01\x02\x02\x40\x03",
            },
            Play::Read {
                limit: ALL,
                records: b"\x0A\x07\x40\x01\x50\x02\xD0\x02\x01",
                delivered: 1,
                why: Why::Missing { chunk_id: 1 },
            },
            Play::Close,
            Play::Read {
                limit: ALL,
                records: b"\x0A\x07\x40\x03\x50\x02\xD0\x02\x01",
                delivered: 1,
                why: Why::End,
            },
        ],
    },
    Row {
        name: "a chunk that was overwritten is passed",
        list: &[
            Play::Chunk {
                position: 0,
                flags: 0,
                count: 2,
                front: b"\x02\x40\x01\x02\x40\x02",
            },
            Play::Read {
                limit: 1,
                records: b"\x0A\x07\x40\x01\x50\x02\xD0\x02\x01",
                delivered: 1,
                why: Why::Limit,
            },
            Play::Chunk {
                position: 1,
                flags: 0,
                count: 1,
                front: b"\x02\x40\x03",
            },
            Play::Chunk {
                position: 2,
                flags: 0,
                count: 1,
                front: b"\x02\x40\x03",
            },
            Play::Chunk {
                position: 3,
                flags: 0,
                count: 1,
                front: b"\x02\x40\x03",
            },
            Play::Chunk {
                position: 4,
                flags: 0,
                count: 1,
                front: b"\x02\x40\x03",
            },
            Play::Chunk {
                position: 5,
                flags: 0,
                count: 1,
                front: b"\x02\x40\x03",
            },
            Play::Chunk {
                position: 6,
                flags: 0,
                count: 1,
                front: b"\x02\x40\x03",
            },
            Play::Chunk {
                position: 7,
                flags: 0,
                count: 1,
                front: b"\x02\x40\x03",
            },
            Play::Chunk {
                position: 8,
                flags: 0,
                count: 1,
                front: b"\x02\x40\x03",
            },
            Play::Chunk {
                position: 9,
                flags: 0,
                count: 1,
                front: b"\x02\x40\x03",
            },
            Play::Chunk {
                position: 10,
                flags: 0,
                count: 1,
                front: b"\x02\x40\x03",
            },
            Play::Chunk {
                position: 11,
                flags: 0,
                count: 1,
                front: b"\x02\x40\x03",
            },
            Play::Chunk {
                position: 12,
                flags: 0,
                count: 1,
                front: b"\x02\x40\x03",
            },
            Play::Chunk {
                position: 13,
                flags: 0,
                count: 1,
                front: b"\x02\x40\x03",
            },
            Play::Read {
                limit: 2,
                records: b"\x0A\x07\x40\x03\x50\x02\xD0\x02\x01\x0A\x04\x40\x03\x50\x02",
                delivered: 2,
                why: Why::Limit,
            },
        ],
    },
    Row {
        name: "a drop mark ends its packet, whatever the chunk's flag says",
        list: &[
            Play::Chunk {
                position: 0,
                flags: 2,
                count: 2,
                front: b"\x02\x40\x01\xFF\xFF\xFF\x7F\x40",
            },
            Play::Chunk {
                position: 1,
                flags: 0,
                count: 1,
                front: b"\x02\x40\x03",
            },
            Play::Read {
                limit: ALL,
                records: b"\x0A\x07\x40\x01\x50\x02\xD0\x02\x01\x0A\x07\x40\x03\x50\x02\xD0\x02\x01",
                delivered: 2,
                why: Why::Missing { chunk_id: 2 },
            },
        ],
    },
    Row {
        name: "a fragment that awaits a patch stops the read until it comes",
        list: &[
            Play::Chunk {
                position: 0,
                flags: 4,
                count: 1,
                front: b"\x06\x0A\x80\x80\x80\x00\x40",
            },
            Play::Read {
                limit: ALL,
                records: b"",
                delivered: 0,
                why: Why::Unpatched { chunk_id: 0 },
            },
            Play::Patched {
                position: 0,
                offset: 2,
                bytes: *b"\x81\x80\x80\x00",
            },
            Play::Read {
                limit: ALL,
                records: b"\x0A\x0B\x0A\x81\x80\x80\x00\x40\x50\x02\xD0\x02\x01",
                delivered: 1,
                why: Why::Missing { chunk_id: 1 },
            },
        ],
    },
    Row {
        name: "the packets of a part aren't delivered again with the whole chunk",
        list: &[
            Play::Part {
                position: 0,
                flags: 0,
                count: 2,
                front: b"\x02\x40\x01\x02\x40\x02",
            },
            Play::Read {
                limit: ALL,
                records: b"\x0A\x07\x40\x01\x50\x02\xD0\x02\x01\x0A\x04\x40\x02\x50\x02",
                delivered: 2,
                why: Why::Partial { chunk_id: 0 },
            },
            Play::Chunk {
                position: 0,
                flags: 0,
                count: 3,
                front: b"\x02\x40\x01\x02\x40\x02\x02\x40\x03",
            },
            Play::Read {
                limit: ALL,
                records: b"\x0A\x04\x40\x03\x50\x02",
                delivered: 1,
                why: Why::Missing { chunk_id: 1 },
            },
        ],
    },
    Row {
        name: "the part of a closed sequence is read, and then it ends",
        list: &[
            Play::Part {
                position: 0,
                flags: 0,
                count: 1,
                front: b"\x02\x40\x01",
            },
            Play::Close,
            Play::Read {
                limit: ALL,
                records: b"\x0A\x07\x40\x01\x50\x02\xD0\x02\x01",
                delivered: 1,
                why: Why::End,
            },
            Play::Read {
                limit: ALL,
                records: b"",
                delivered: 0,
                why: Why::End,
            },
        ],
    },
    Row {
        name: "limits of none and of more than there is",
        list: &[
            Play::Chunk {
                position: 0,
                flags: 0,
                count: 2,
                front: b"\x02\x40\x01\x02\x40\x02",
            },
            Play::Read {
                limit: 0,
                records: b"",
                delivered: 0,
                why: Why::Limit,
            },
            Play::Read {
                limit: 5,
                records: b"\x0A\x07\x40\x01\x50\x02\xD0\x02\x01\x0A\x04\x40\x02\x50\x02",
                delivered: 2,
                why: Why::Missing { chunk_id: 1 },
            },
            Play::Read {
                limit: 0,
                records: b"",
                delivered: 0,
                why: Why::Missing { chunk_id: 1 },
            },
        ],
    },
    Row {
        name: "a continuation without a start is passed",
        list: &[
            Play::Chunk {
                position: 0,
                flags: 1,
                count: 2,
                front: b"\x01\x02\x02\x40\x01",
            },
            Play::Read {
                limit: ALL,
                records: b"\x0A\x07\x40\x01\x50\x02\xD0\x02\x01",
                delivered: 1,
                why: Why::Missing { chunk_id: 1 },
            },
        ],
    },
    Row {
        name: "a chunk that doesn't continue a packet cuts it",
        list: &[
            Play::Chunk {
                position: 0,
                flags: 2,
                count: 2,
                front: b"\x02\x40\x01\x01\x40",
            },
            Play::Chunk {
                position: 1,
                flags: 0,
                count: 1,
                front: b"\x02\x40\x03",
            },
            Play::Read {
                limit: ALL,
                records: b"\x0A\x07\x40\x01\x50\x02\xD0\x02\x01\x0A\x07\x40\x03\x50\x02\xD0\x02\x01",
                delivered: 2,
                why: Why::Missing { chunk_id: 2 },
            },
        ],
    },
    Row {
        name: "a continuation that reaches the stop place isn't passed",
        list: &[
            Play::Chunk {
                position: 0,
                flags: 3,
                count: 1,
                front: b"\x01\x02",
            },
            Play::Read {
                limit: ALL,
                records: b"",
                delivered: 0,
                why: Why::Missing { chunk_id: 1 },
            },
            Play::Chunk {
                position: 1,
                flags: 1,
                count: 2,
                front: b"\x01\x02\x02\x40\x03",
            },
            Play::Read {
                limit: ALL,
                records: b"\x0A\x07\x40\x03\x50\x02\xD0\x02\x01",
                delivered: 1,
                why: Why::Missing { chunk_id: 2 },
            },
        ],
    },
    Row {
        name: "a packet is cut by a chunk that is itself the stop place",
        list: &[
            Play::Chunk {
                position: 0,
                flags: 2,
                count: 2,
                front: b"\x02\x40\x01\x01\x40",
            },
            Play::Chunk {
                position: 1,
                flags: 4,
                count: 1,
                front: b"\x06\x0A\x80\x80\x80\x00\x40",
            },
            Play::Read {
                limit: ALL,
                records: b"\x0A\x07\x40\x01\x50\x02\xD0\x02\x01",
                delivered: 1,
                why: Why::Unpatched { chunk_id: 1 },
            },
            Play::Patched {
                position: 1,
                offset: 2,
                bytes: *b"\x81\x80\x80\x00",
            },
            Play::Read {
                limit: ALL,
                records: b"\x0A\x0B\x0A\x81\x80\x80\x00\x40\x50\x02\xD0\x02\x01",
                delivered: 1,
                why: Why::Missing { chunk_id: 2 },
            },
        ],
    },
    Row {
        name: "a packet that the packet check refuses is cut, and the next one is marked",
        list: &[
            Play::Chunk {
                position: 0,
                flags: 0,
                count: 4,
                front: b"\x02\x40\x01\x02\x50\x02\x01\x43\x02\x40\x04",
            },
            Play::Read {
                limit: ALL,
                records: b"\x0A\x07\x40\x01\x50\x02\xD0\x02\x01\x0A\x07\x40\x04\x50\x02\xD0\x02\x01",
                delivered: 2,
                why: Why::Missing { chunk_id: 1 },
            },
        ],
    },
    Row {
        name: "the packet check looks at the fragments of a packet joined",
        list: &[
            Play::Chunk {
                position: 0,
                flags: 2,
                count: 1,
                front: b"\x02\x12\x02",
            },
            Play::Chunk {
                position: 1,
                flags: 3,
                count: 2,
                front: b"\x02\x61\x62\x02\x12\x02",
            },
            Play::Chunk {
                position: 2,
                flags: 1,
                count: 2,
                front: b"\x01\x61\x02\x40\x04",
            },
            Play::Read {
                limit: ALL,
                records: b"\x0A\x09\x12\x02\x61\x62\x50\x02\xD0\x02\x01\x0A\x07\x40\x04\x50\x02\xD0\x02\x01",
                delivered: 2,
                why: Why::Missing { chunk_id: 3 },
            },
        ],
    },
    Row {
        name: "a packet that awaits a patch is cut once its sequence is closed",
        list: &[
            Play::Chunk {
                position: 0,
                flags: 4,
                count: 2,
                front: b"\x02\x40\x01\x05\x0A\x80\x80\x80\x00",
            },
            Play::Chunk {
                position: 1,
                flags: 0,
                count: 1,
                front: b"\x02\x40\x03",
            },
            Play::Close,
            Play::Read {
                limit: ALL,
                records: b"\x0A\x07\x40\x01\x50\x02\xD0\x02\x01\x0A\x07\x40\x03\x50\x02\xD0\x02\x01",
                delivered: 2,
                why: Why::End,
            },
        ],
    },
];

#[test]
fn reads_deliver_what_is_due(rt: HostRuntime) -> Result<(), Fail> {
    for row in &ROWS {
        play_all(&rt, rt.alloc(), row.name, FullPolicy::Ring, row.list)?;
    }
    Ok(())
}
