//! Traces and streams that are cut at each length: what is there is read, or the place is told at which they
//! break off.
use std::process::Abort;
use std::sync::Wait;
use std::test::Fail;
use std::thread::Threads;
use tracesmb_rows::play::play;

/// The first and the last length of an input, and what comes of it where it is cut to one of these.
struct Cut {
    first: usize,
    last: usize,
    status: u8,
    trace: &'static [u8],
    text: &'static [u8],
}

/// Plays an input at each of the lengths, which follow each other from the first one on, up to the
/// whole input.
fn play_cuts<R: Threads + Wait + Sync + AllocGlobal + Abort>(
    rt: &R,
    words: &[&str],
    input: &[u8],
    from: usize,
    cuts: &[Cut],
) -> Result<(), Fail> {
    let mut next = from;
    for cut in cuts {
        assert_eq!(*rt; cut.first, next);
        for length in cut.first..=cut.last {
            let front = match input.get(..length) {
                Some(front) => front,
                None => input,
            };
            assert_eq!(*rt; front.len(), length);
            let played = play(rt, words, front)?;
            assert_eq!(*rt; played.status, cut.status, "length {length}");
            assert_eq!(*rt; played.trace.taken(), cut.trace, "length {length}");
            assert_eq!(*rt; played.text.taken(), cut.text, "length {length}");
        }
        next = cut.last.saturating_add(1);
    }
    assert_eq!(*rt; next, input.len().saturating_add(1));
    Ok(())
}

const TRACE: &[u8] =
    b"\x0A\x07\x40\x01\x50\x02\xD0\x02\x01\x0A\x04\x40\x02\x50\x02\x0A\x02\x50\x02";

static READ: [Cut; 7] = [
    Cut {
        first: 0,
        last: 0,
        status: 0,
        trace: b"packets 0 bytes 0\n",
        text: b"",
    },
    Cut {
        first: 1,
        last: 8,
        status: 3,
        trace: b"",
        text: b"offset 0: cut short\n",
    },
    Cut {
        first: 9,
        last: 9,
        status: 0,
        trace: b"sequence 2 packets 1 marked 1 bytes 7\npackets 1 bytes 7\n",
        text: b"",
    },
    Cut {
        first: 10,
        last: 14,
        status: 3,
        trace: b"",
        text: b"offset 9: cut short\n",
    },
    Cut {
        first: 15,
        last: 15,
        status: 0,
        trace: b"sequence 2 packets 2 marked 1 bytes 11\npackets 2 bytes 11\n",
        text: b"",
    },
    Cut {
        first: 16,
        last: 18,
        status: 3,
        trace: b"",
        text: b"offset 15: cut short\n",
    },
    Cut {
        first: 19,
        last: 19,
        status: 0,
        trace: b"sequence 2 packets 3 marked 1 bytes 13\npackets 3 bytes 13\n",
        text: b"",
    },
];

const CHECKED: &[u8] =
    b"buffer 4 ring\nproducer 1 4096 1\nwriter 1 1 drop\np 1 8:1\np 1 8:2\n==\n\x0A\x07\x40\x01\x50\x02\xD0\x02\x01\x0A\x04\x40\x02\x50\x02";

static CHECK: [Cut; 17] = [
    Cut {
        first: 0,
        last: 0,
        status: 3,
        trace: b"",
        text: b"line 1: no trace\n",
    },
    Cut {
        first: 1,
        last: 13,
        status: 3,
        trace: b"",
        text: b"line 1: unfinished line\n",
    },
    Cut {
        first: 14,
        last: 14,
        status: 3,
        trace: b"",
        text: b"line 2: no trace\n",
    },
    Cut {
        first: 15,
        last: 31,
        status: 3,
        trace: b"",
        text: b"line 2: unfinished line\n",
    },
    Cut {
        first: 32,
        last: 32,
        status: 3,
        trace: b"",
        text: b"line 3: no trace\n",
    },
    Cut {
        first: 33,
        last: 47,
        status: 3,
        trace: b"",
        text: b"line 3: unfinished line\n",
    },
    Cut {
        first: 48,
        last: 48,
        status: 3,
        trace: b"",
        text: b"line 4: no trace\n",
    },
    Cut {
        first: 49,
        last: 55,
        status: 3,
        trace: b"",
        text: b"line 4: unfinished line\n",
    },
    Cut {
        first: 56,
        last: 56,
        status: 3,
        trace: b"",
        text: b"line 5: no trace\n",
    },
    Cut {
        first: 57,
        last: 63,
        status: 3,
        trace: b"",
        text: b"line 5: unfinished line\n",
    },
    Cut {
        first: 64,
        last: 64,
        status: 3,
        trace: b"",
        text: b"line 6: no trace\n",
    },
    Cut {
        first: 65,
        last: 66,
        status: 3,
        trace: b"",
        text: b"line 6: unfinished line\n",
    },
    Cut {
        first: 67,
        last: 67,
        status: 0,
        trace: b"agrees 0\n",
        text: b"",
    },
    Cut {
        first: 68,
        last: 75,
        status: 3,
        trace: b"",
        text: b"offset 0: cut short\n",
    },
    Cut {
        first: 76,
        last: 76,
        status: 0,
        trace: b"agrees 1\n",
        text: b"",
    },
    Cut {
        first: 77,
        last: 81,
        status: 3,
        trace: b"",
        text: b"offset 9: cut short\n",
    },
    Cut {
        first: 82,
        last: 82,
        status: 0,
        trace: b"agrees 2\n",
        text: b"",
    },
];

const STREAM: &[u8] =
    b"buffers { size_kb: 4 }\ndata_sources { config { name: \"a\" } }\n==\n\x0E\x00\x00\x00\x01\x01\x00\x00\x00\x00\x01\x00\x01\x00\x00\x02\x40\x05\x01\x00\x00\x00\x03";

static TEXT: [Cut; 4] = [
    Cut {
        first: 0,
        last: 0,
        status: 3,
        trace: b"",
        text: b"line 1: no stream\n",
    },
    Cut {
        first: 1,
        last: 23,
        status: 3,
        trace: b"",
        text: b"line 2: no stream\n",
    },
    Cut {
        first: 24,
        last: 61,
        status: 3,
        trace: b"",
        text: b"line 3: no stream\n",
    },
    Cut {
        first: 62,
        last: 63,
        status: 3,
        trace: b"",
        text: b"line 4: no stream\n",
    },
];

/// What is said of a stream that is cut to so many bytes behind its text: each of these breaks off there.
static ENDS: [&[u8]; 23] = [
    b"offset 0: no end\n",
    b"offset 1: no end\n",
    b"offset 2: no end\n",
    b"offset 3: no end\n",
    b"offset 4: no end\n",
    b"offset 5: no end\n",
    b"offset 6: no end\n",
    b"offset 7: no end\n",
    b"offset 8: no end\n",
    b"offset 9: no end\n",
    b"offset 10: no end\n",
    b"offset 11: no end\n",
    b"offset 12: no end\n",
    b"offset 13: no end\n",
    b"offset 14: no end\n",
    b"offset 15: no end\n",
    b"offset 16: no end\n",
    b"offset 17: no end\n",
    b"offset 18: no end\n",
    b"offset 19: no end\n",
    b"offset 20: no end\n",
    b"offset 21: no end\n",
    b"offset 22: no end\n",
];

#[test]
fn read_tells_where_a_trace_breaks_off(rt: HostRuntime) -> Result<(), Fail> {
    play_cuts(&rt, &["read"], TRACE, 0, &READ)
}

#[test]
fn check_tells_where_its_input_breaks_off(rt: HostRuntime) -> Result<(), Fail> {
    play_cuts(&rt, &["check"], CHECKED, 0, &CHECK)
}

#[test]
fn a_text_that_breaks_off_has_no_stream(rt: HostRuntime) -> Result<(), Fail> {
    play_cuts(&rt, &["stream"], &STREAM[..63], 0, &TEXT)
}

#[test]
fn stream_tells_where_its_frames_break_off(rt: HostRuntime) -> Result<(), Fail> {
    assert_eq!(rt; STREAM.len(), 64 + ENDS.len());
    for (behind, line) in ENDS.iter().enumerate() {
        let played = play(&rt, &["stream"], &STREAM[..64 + behind])?;
        assert_eq!(rt; played.status, 3, "length {behind}");
        assert!(rt; played.trace.taken().is_empty(), "length {behind}");
        assert_eq!(rt; played.text.taken(), *line, "length {behind}");
    }
    Ok(())
}
