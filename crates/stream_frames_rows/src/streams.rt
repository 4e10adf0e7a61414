//! Whole streams.
use arrayvec::ArrayVec;
use std::test::Fail;
use stream_frames::{FrameFault, FrameLimits, check_frames};

/// One buffer, and one source with a payload of three bytes.
fn limits() -> FrameLimits {
    let mut payload_sizes = ArrayVec::new();
    payload_sizes.push(3);
    FrameLimits {
        buffers: 1,
        payload_sizes,
    }
}

struct Row {
    name: &'static str,
    /// The frames in front of the close.
    frames: &'static [u8],
    /// Where the fault stands, if there is one.
    bad: Option<u64>,
}

/// A read of the buffer.
const READ: &[u8] = b"\x02\x00\x00\x00\x02\x01";

static ROWS: [Row; 27] = [
    Row {
        name: "nothing",
        frames: b"",
        bad: None,
    },
    Row {
        name: "a read",
        frames: READ,
        bad: None,
    },
    Row {
        name: "a commit",
        frames: b"\x0E\x00\x00\x00\x01\x01\x00\x00\x00\x00\x01\x00\x01\x00\x00\x02\x40\x05",
        bad: None,
    },
    Row {
        name: "no payload",
        frames: b"\x0B\x00\x00\x00\x01\x01\x00\x00\x00\x00\x01\x00\x01\x00\x00",
        bad: None,
    },
    Row {
        name: "a payload that is too long",
        frames: b"\x0F\x00\x00\x00\x01\x01\x00\x00\x00\x00\x01\x00\x01\x00\x00\x02\x40\x05\x00",
        bad: Some(0),
    },
    Row {
        name: "no byte",
        frames: b"\x00\x00\x00\x00",
        bad: Some(0),
    },
    Row {
        name: "too many bytes",
        frames: b"\x71\x11\x01\x00",
        bad: Some(0),
    },
    Row {
        name: "no kind",
        frames: b"\x01\x00\x00\x00\x00",
        bad: Some(0),
    },
    Row {
        name: "another kind",
        frames: b"\x01\x00\x00\x00\x04",
        bad: Some(0),
    },
    Row {
        name: "a read of nothing",
        frames: b"\x01\x00\x00\x00\x02",
        bad: Some(0),
    },
    Row {
        name: "a read of no buffer",
        frames: b"\x02\x00\x00\x00\x02\x00",
        bad: Some(0),
    },
    Row {
        name: "a read of a buffer that isn't there",
        frames: b"\x02\x00\x00\x00\x02\x02",
        bad: Some(0),
    },
    Row {
        name: "a read and a byte",
        frames: b"\x03\x00\x00\x00\x02\x01\x00",
        bad: Some(0),
    },
    Row {
        name: "a close and a byte",
        frames: b"\x02\x00\x00\x00\x03\x00",
        bad: Some(0),
    },
    Row {
        name: "a close before the close",
        frames: b"\x01\x00\x00\x00\x03",
        bad: Some(5),
    },
    Row {
        name: "a commit for no buffer",
        frames: b"\x0B\x00\x00\x00\x01\x00\x00\x00\x00\x00\x01\x00\x01\x00\x00",
        bad: Some(0),
    },
    Row {
        name: "a commit for a buffer that isn't there",
        frames: b"\x0B\x00\x00\x00\x01\x02\x00\x00\x00\x00\x01\x00\x01\x00\x00",
        bad: Some(0),
    },
    Row {
        name: "a commit of no source",
        frames: b"\x0B\x00\x00\x00\x01\x01\x00\x00\x00\x00\x00\x00\x01\x00\x00",
        bad: Some(0),
    },
    Row {
        name: "a commit of a source that isn't there",
        frames: b"\x0B\x00\x00\x00\x01\x01\x00\x00\x00\x00\x02\x00\x01\x00\x00",
        bad: Some(0),
    },
    Row {
        name: "a commit without its number of patches",
        frames: b"\x0A\x00\x00\x00\x01\x01\x00\x00\x00\x00\x01\x00\x01\x00",
        bad: Some(0),
    },
    Row {
        name: "a patch",
        frames: b"\x18\x00\x00\x00\x01\x01\x00\x00\x00\x00\x01\x00\x01\x00\x01\x00\x00\x00\x00\x00\x00\x00\x00abcd\x01",
        bad: None,
    },
    Row {
        name: "a patch that is cut short",
        frames: b"\x17\x00\x00\x00\x01\x01\x00\x00\x00\x00\x01\x00\x01\x00\x01\x00\x00\x00\x00\x00\x00\x00\x00abcd",
        bad: Some(0),
    },
    Row {
        name: "a last byte above one",
        frames: b"\x18\x00\x00\x00\x01\x01\x00\x00\x00\x00\x01\x00\x01\x00\x01\x00\x00\x00\x00\x00\x00\x00\x00abcd\x02",
        bad: Some(0),
    },
    Row {
        name: "seventeen patches",
        frames: b"\xE8\x00\x00\x00\x01\x01\x00\x00\x00\x00\x01\x00\x01\x00\x11\x00\x00\x00\x00\x00\x00\x00\x00abcd\x00\x00\x00\x00\x00\x00\x00\x00\x00abcd\x00\x00\x00\x00\x00\x00\x00\x00\x00abcd\x00\x00\x00\x00\x00\x00\x00\x00\x00abcd\x00\x00\x00\x00\x00\x00\x00\x00\x00abcd\x00\x00\x00\x00\x00\x00\x00\x00\x00abcd\x00\x00\x00\x00\x00\x00\x00\x00\x00abcd\x00\x00\x00\x00\x00\x00\x00\x00\x00abcd\x00\x00\x00\x00\x00\x00\x00\x00\x00abcd\x00\x00\x00\x00\x00\x00\x00\x00\x00abcd\x00\x00\x00\x00\x00\x00\x00\x00\x00abcd\x00\x00\x00\x00\x00\x00\x00\x00\x00abcd\x00\x00\x00\x00\x00\x00\x00\x00\x00abcd\x00\x00\x00\x00\x00\x00\x00\x00\x00abcd\x00\x00\x00\x00\x00\x00\x00\x00\x00abcd\x00\x00\x00\x00\x00\x00\x00\x00\x00abcd\x00\x00\x00\x00\x00\x00\x00\x00\x00abcd\x00",
        bad: Some(0),
    },
    Row {
        name: "sixteen patches",
        frames: b"\xDB\x00\x00\x00\x01\x01\x00\x00\x00\x00\x01\x00\x01\x00\x10\x00\x00\x00\x00\x00\x00\x00\x00abcd\x00\x00\x00\x00\x00\x00\x00\x00\x00abcd\x00\x00\x00\x00\x00\x00\x00\x00\x00abcd\x00\x00\x00\x00\x00\x00\x00\x00\x00abcd\x00\x00\x00\x00\x00\x00\x00\x00\x00abcd\x00\x00\x00\x00\x00\x00\x00\x00\x00abcd\x00\x00\x00\x00\x00\x00\x00\x00\x00abcd\x00\x00\x00\x00\x00\x00\x00\x00\x00abcd\x00\x00\x00\x00\x00\x00\x00\x00\x00abcd\x00\x00\x00\x00\x00\x00\x00\x00\x00abcd\x00\x00\x00\x00\x00\x00\x00\x00\x00abcd\x00\x00\x00\x00\x00\x00\x00\x00\x00abcd\x00\x00\x00\x00\x00\x00\x00\x00\x00abcd\x00\x00\x00\x00\x00\x00\x00\x00\x00abcd\x00\x00\x00\x00\x00\x00\x00\x00\x00abcd\x00\x00\x00\x00\x00\x00\x00\x00\x00abcd\x00",
        bad: None,
    },
    Row {
        name: "a bad frame behind a read",
        frames: b"\x02\x00\x00\x00\x02\x01\x01\x00\x00\x00\x09",
        bad: Some(6),
    },
    Row {
        name: "a bad frame behind a commit",
        frames: b"\x0B\x00\x00\x00\x01\x01\x00\x00\x00\x00\x01\x00\x01\x00\x00\x01\x00\x00\x00\x09",
        bad: Some(15),
    },
];

const CLOSE: &[u8] = b"\x01\x00\x00\x00\x03";

#[test]
fn checks_streams(rt: HostRuntime) -> Result<(), Fail> {
    let limits = limits();
    for row in &ROWS {
        let mut stream = Vec::from_slice(rt.alloc(), row.frames)?;
        stream.extend_from_slice(CLOSE)?;
        let wanted = match row.bad {
            None => Ok(()),
            Some(offset) => Err(FrameFault::BadFrame { offset }),
        };
        assert_eq!(rt; check_frames(&limits, &stream), wanted, "{}", row.name);
    }
    Ok(())
}

// A stream that is cut short has no end, wherever it is; one with a byte more has it behind its close.
#[test]
fn checks_each_front(rt: HostRuntime) -> Result<(), Fail> {
    let limits = limits();
    let mut stream = Vec::new(rt.alloc());
    for row in &ROWS {
        if row.bad.is_none() {
            stream.extend_from_slice(row.frames)?;
        }
    }
    stream.extend_from_slice(CLOSE)?;
    for end in 0..stream.len() {
        let wanted = Err(FrameFault::NoEnd { offset: end as u64 });
        assert_eq!(rt; check_frames(&limits, &stream[..end]), wanted);
    }
    assert_eq!(rt; check_frames(&limits, &stream), Ok(()));
    let offset = stream.len() as u64;
    stream.push(0)?;
    let wanted = Err(FrameFault::BadFrame { offset });
    assert_eq!(rt; check_frames(&limits, &stream), wanted);
    Ok(())
}
