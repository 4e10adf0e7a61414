//! Worked rows.
use crate::play::{config_of, play};
use loss_report::SequenceCounts;
use std::test::Fail;
use stream_producer::{StreamDone, StreamFault, check_stream};

const TEXT: &[u8] = b"buffers { size_kb: 4 } data_sources { config { name: \"a\" } }";

/// A commit of one packet by the chunk with this id.
const FIRST: &[u8] = b"\x0E\x00\x00\x00\x01\x01\x00\x00\x00\x00\x01\x00\x01\x00\x00\x02\x40\x05";

const SECOND: &[u8] = b"\x0E\x00\x00\x00\x01\x01\x01\x00\x00\x00\x01\x00\x01\x00\x00\x02\x40\x06";

const CLOSE: &[u8] = b"\x01\x00\x00\x00\x03";

const FIRST_RECORD: &[u8] = b"\x0A\x07\x40\x05\x50\x02\xD0\x02\x01";

/// A chunk whose packet goes on, and awaits a length.
const OPEN: &[u8] =
    b"\x11\x00\x00\x00\x01\x01\x00\x00\x00\x00\x01\x00\x01\x18\x00\x05\x12\x00\x00\x00\x00";

/// The next one, which brings it.
const PATCHES: &[u8] =
    b"\x1A\x00\x00\x00\x01\x01\x01\x00\x00\x00\x01\x00\x01\x04\x01\x00\x00\x00\x00\x02\x00\x00\x00\x81\x80\x80\x00\x01\x01\x07";

struct Row {
    name: &'static str,
    frames: &'static [&'static [u8]],
    trace: &'static [u8],
    begun: u64,
    placed: u64,
    commits: u64,
    refused: u64,
}

static ROWS: [Row; 9] = [
    Row {
        name: "nothing",
        frames: &[],
        trace: b"",
        begun: 0,
        placed: 0,
        commits: 0,
        refused: 0,
    },
    Row {
        name: "one",
        frames: &[FIRST],
        trace: FIRST_RECORD,
        begun: 1,
        placed: 1,
        commits: 1,
        refused: 0,
    },
    Row {
        name: "the second first",
        frames: &[SECOND, FIRST],
        trace: b"\x0A\x07\x40\x05\x50\x02\xD0\x02\x01\x0A\x04\x40\x06\x50\x02",
        begun: 2,
        placed: 2,
        commits: 2,
        refused: 0,
    },
    Row {
        name: "one twice",
        frames: &[FIRST, FIRST],
        trace: FIRST_RECORD,
        begun: 1,
        placed: 1,
        commits: 2,
        refused: 1,
    },
    Row {
        name: "a read between",
        frames: &[FIRST, b"\x02\x00\x00\x00\x02\x01", SECOND],
        trace: b"\x0A\x07\x40\x05\x50\x02\xD0\x02\x01\x0A\x04\x40\x06\x50\x02",
        begun: 2,
        placed: 2,
        commits: 2,
        refused: 0,
    },
    Row {
        name: "too far",
        frames: &[
            b"\x0E\x00\x00\x00\x01\x01\x00\x04\x00\x00\x01\x00\x01\x00\x00\x02\x40\x06",
            FIRST,
        ],
        trace: FIRST_RECORD,
        begun: 1,
        placed: 1,
        commits: 2,
        refused: 1,
    },
    Row {
        name: "no fragment",
        frames: &[
            b"\x0B\x00\x00\x00\x01\x01\x00\x00\x00\x00\x01\x00\x00\x00\x00",
            FIRST,
        ],
        trace: FIRST_RECORD,
        begun: 1,
        placed: 1,
        commits: 2,
        refused: 1,
    },
    Row {
        name: "a packet over two chunks, with a patch",
        frames: &[OPEN, PATCHES],
        trace: b"\x0A\x0B\x12\x81\x80\x80\x00\x07\x50\x02\xD0\x02\x01",
        begun: 1,
        placed: 2,
        commits: 2,
        refused: 0,
    },
    Row {
        name: "a patch before its chunk",
        frames: &[PATCHES, OPEN],
        trace: b"",
        begun: 1,
        placed: 2,
        commits: 2,
        refused: 0,
    },
];

fn one_sequence(done: &StreamDone) -> Option<SequenceCounts> {
    done.sequences.first().copied()
}

#[test]
fn plays_rows(rt: HostRuntime) -> Result<(), Fail> {
    let config = config_of(rt.alloc(), TEXT)?;
    for row in &ROWS {
        let mut stream = Vec::new(rt.alloc());
        for frame in row.frames {
            stream.extend_from_slice(frame)?;
        }
        stream.extend_from_slice(CLOSE)?;
        assert_eq!(rt; check_stream(&config, &stream), Ok(()), "{}", row.name);
        for size in [1, 2, 3, 7, 1000] {
            let played = play(rt.alloc(), &config, &stream, size)?;
            let done = played.end.expect(&rt, row.name);
            assert_eq!(rt; done.commits, row.commits, "{}", row.name);
            assert_eq!(rt; done.refused, row.refused, "{}", row.name);
            let counts = one_sequence(&done).ok_or("no sequence")?;
            assert_eq!(rt; counts.begun, row.begun, "{}", row.name);
            assert_eq!(rt; done.buffers.len(), 1);
            assert_eq!(rt; done.buffers[0].placed, row.placed, "{}", row.name);
            assert_eq!(rt; played.sink.taken(), row.trace, "{}", row.name);
        }
    }
    Ok(())
}

// No read stands in the stream, so that nothing is written before its end.
#[test]
fn writes_nothing_before_the_end(rt: HostRuntime) -> Result<(), Fail> {
    let config = config_of(rt.alloc(), TEXT)?;
    let mut stream = Vec::from_slice(rt.alloc(), SECOND)?;
    stream.extend_from_slice(FIRST)?;
    for end in 0..stream.len() {
        let played = play(rt.alloc(), &config, &stream[..end], 1)?;
        let offset = end as u64;
        assert_eq!(rt; played.end.err(), Some(StreamFault::NoEnd { offset }));
        assert_eq!(rt; played.sink.taken().len(), 0);
    }
    Ok(())
}
