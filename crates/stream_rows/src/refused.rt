//! Inputs that are refused: nothing is played of them.
use crate::play::{CLOSE, PLAIN, play, play_input};
use std::test::Fail;

/// Inputs without a divider, each with its line.
static UNDIVIDED: [(&[u8], &[u8]); 4] = [
    // No divider: the line is one above the number of lines, with the last line feed or without, and comes before the text's faults.
    (
        b"buffers { size_kb: 4 }\ndata_sources { config { name: \"a\" } }\n",
        b"line 3: no stream\n",
    ),
    (
        b"buffers { size_kb: 4 }\ndata_sources { config { name: \"a\" } }",
        b"line 3: no stream\n",
    ),
    (b"buffers { size_kb: 3 }\n==", b"line 3: no stream\n"),
    (b"", b"line 1: no stream\n"),
];

/// Texts, the frames behind each, and its line.
static TEXTS: [(&[u8], &[u8], &[u8]); 14] = [
    // A buffer below its range.
    (
        b"buffers { size_kb: 3 }\ndata_sources { config { name: \"a\" } }\n",
        b"\x0E\x00\x00\x00\x01\x01\x00\x00\x00\x00\x01\x00\x01\x00\x00\x02@\x05\x01\x00\x00\x00\x03",
        b"line 1: out of range\n",
    ),
    // Texts of another form: quotes of another kind, a block that isn't closed before the divider, a byte that isn't ASCII in a comment.
    (
        b"buffers { size_kb: 4 }\ndata_sources {\n  config { name: 'a' } }\n",
        CLOSE,
        b"line 3: bad text\n",
    ),
    (b"buffers {\n  size_kb: 4\n", CLOSE, b"line 3: bad text\n"),
    (
        b"buffers { size_kb: 4 }\n# \xB5\n",
        CLOSE,
        b"line 2: bad text\n",
    ),
    // A policy that is none, a value in place of a block, and a buffer without a size; the line is that of the block's name.
    (
        b"buffers { size_kb: 4 }\nbuffers {\n  size_kb: 4\n  fill_policy: RING }\n",
        CLOSE,
        b"line 2: wrong kind\n",
    ),
    (
        b"buffers { size_kb: 4 }\ndata_sources: 1\n",
        CLOSE,
        b"line 2: wrong kind\n",
    ),
    (
        b"\nbuffers { fill_policy: DISCARD }\n",
        CLOSE,
        b"line 2: missing size\n",
    ),
    // Pages that are no multiple of 4 KB, and a shared memory that isn't whole pages.
    (
        b"producers { page_size_kb: 6 shm_size_kb: 6 }\n",
        CLOSE,
        b"line 1: out of range\n",
    ),
    (
        b"producers { }\nproducers { page_size_kb: 12 }\n",
        CLOSE,
        b"line 2: out of range\n",
    ),
    // A target that isn't there, counted from 0; and a source whose filter names a producer of chunks larger than the buffer.
    (
        b"buffers { size_kb: 4 }\ndata_sources { config { name: \"a\" target_buffer: 1 } }\n",
        CLOSE,
        b"line 2: no such buffer\n",
    ),
    (
        b"buffers { size_kb: 4 }\nproducers { producer_name: \"p\" }\nproducers { producer_name: \"q\" page_size_kb: 64 }\ndata_sources { }\ndata_sources { producer_name_filter: \"q\" }\n",
        CLOSE,
        b"line 5: chunk larger than buffer\n",
    ),
    // The first block counts whose fault it is; a text's form comes before its blocks, and all of it before the frames.
    (
        b"data_sources { config { target_buffer: 1 } }\nbuffers { }\n",
        CLOSE,
        b"line 1: no such buffer\n",
    ),
    (b"buffers { }\n]\n", b"", b"line 2: bad text\n"),
    (
        b"buffers { }\n",
        b"\x00\x00\x00\x00",
        b"line 1: missing size\n",
    ),
];

/// Frames, and the line of each.
static FRAMES: [(&[u8], &[u8]); 20] = [
    // A frame of an unknown kind in place of the close: nothing is played.
    (
        b"\x0E\x00\x00\x00\x01\x01\x00\x00\x00\x00\x01\x00\x01\x00\x00\x02@\x05\x01\x00\x00\x00\x09",
        b"offset 18: bad frame\n",
    ),
    // Frames without bytes, and of one byte too many; the latter is refused though the stream ends there.
    (
        b"\x00\x00\x00\x00\x01\x00\x00\x00\x03",
        b"offset 0: bad frame\n",
    ),
    (
        b"\x02\x00\x00\x00\x02\x01q\x11\x01\x00",
        b"offset 6: bad frame\n",
    ),
    // No end: of a longest frame, whatever its kind is; without the last byte of a frame or of a length; without a close; of nothing.
    (b"p\x11\x01\x00\x09", b"offset 5: no end\n"),
    (
        b"\x0E\x00\x00\x00\x01\x01\x00\x00\x00\x00\x01\x00\x01\x00\x00\x02@",
        b"offset 17: no end\n",
    ),
    (
        b"\x0E\x00\x00\x00\x01\x01\x00\x00\x00\x00\x01\x00\x01\x00\x00\x02@\x05\x01\x00\x00",
        b"offset 21: no end\n",
    ),
    (
        b"\x0E\x00\x00\x00\x01\x01\x00\x00\x00\x00\x01\x00\x01\x00\x00\x02@\x05",
        b"offset 18: no end\n",
    ),
    (b"", b"offset 0: no end\n"),
    // A kind of 0; fields that don't fill the frame, of a close and of a read; and those that it cuts off, of a header and of a patch.
    (
        b"\x0E\x00\x00\x00\x01\x01\x00\x00\x00\x00\x01\x00\x01\x00\x00\x02@\x05\x01\x00\x00\x00\x00\x01\x00\x00\x00\x03",
        b"offset 18: bad frame\n",
    ),
    (b"\x02\x00\x00\x00\x03\x00", b"offset 0: bad frame\n"),
    (
        b"\x03\x00\x00\x00\x02\x01\x00\x01\x00\x00\x00\x03",
        b"offset 0: bad frame\n",
    ),
    (
        b"\n\x00\x00\x00\x01\x01\x00\x00\x00\x00\x01\x00\x01\x00\x01\x00\x00\x00\x03",
        b"offset 0: bad frame\n",
    ),
    (
        b"\x0E\x00\x00\x00\x01\x01\x00\x00\x00\x00\x01\x00\x01\x00\x00\x02@\x05\x17\x00\x00\x00\x01\x01\x01\x00\x00\x00\x01\x00\x01\x00\x01\x00\x00\x00\x00\x00\x00\x00\x00\x00\x00\x00\x00\x01\x00\x00\x00\x03",
        b"offset 18: bad frame\n",
    ),
    // A patch that is last by a byte of 2.
    (
        b"\x1B\x00\x00\x00\x01\x01\x00\x00\x00\x00\x01\x00\x01\x00\x01\x00\x00\x00\x00\x00\x00\x00\x00\x00\x00\x00\x00\x02\x02@\x05\x01\x00\x00\x00\x03",
        b"offset 0: bad frame\n",
    ),
    // Sources and buffers that are none, in a commit and in a read.
    (
        b"\x0E\x00\x00\x00\x01\x01\x00\x00\x00\x00\x00\x00\x01\x00\x00\x02@\x05\x01\x00\x00\x00\x03",
        b"offset 0: bad frame\n",
    ),
    (
        b"\x0E\x00\x00\x00\x01\x01\x00\x00\x00\x00\x01\x00\x01\x00\x00\x02@\x05\x0E\x00\x00\x00\x01\x01\x01\x00\x00\x00\x02\x00\x01\x00\x00\x02@\x05\x01\x00\x00\x00\x03",
        b"offset 18: bad frame\n",
    ),
    (
        b"\x0E\x00\x00\x00\x01\x00\x00\x00\x00\x00\x01\x00\x01\x00\x00\x02@\x05\x01\x00\x00\x00\x03",
        b"offset 0: bad frame\n",
    ),
    (
        b"\x0E\x00\x00\x00\x01\x01\x00\x00\x00\x00\x01\x00\x01\x00\x00\x02@\x05\x0E\x00\x00\x00\x01\x02\x01\x00\x00\x00\x01\x00\x01\x00\x00\x02@\x05\x01\x00\x00\x00\x03",
        b"offset 18: bad frame\n",
    ),
    (
        b"\x0E\x00\x00\x00\x01\x01\x00\x00\x00\x00\x01\x00\x01\x00\x00\x02@\x05\x02\x00\x00\x00\x02\x02\x01\x00\x00\x00\x03",
        b"offset 18: bad frame\n",
    ),
    // A byte behind the close.
    (
        b"\x0E\x00\x00\x00\x01\x01\x00\x00\x00\x00\x01\x00\x01\x00\x00\x02@\x05\x01\x00\x00\x00\x03\x00",
        b"offset 23: bad frame\n",
    ),
];

#[test]
fn refuses_inputs_without_a_stream(rt: HostRuntime) -> Result<(), Fail> {
    for (input, line) in &UNDIVIDED {
        let played = play_input(&rt, input)?;
        assert_eq!(rt; played.status, 3);
        assert_eq!(rt; played.trace.taken(), b"".as_slice());
        assert_eq!(rt; played.text.taken(), *line);
    }
    Ok(())
}

#[test]
fn refuses_texts(rt: HostRuntime) -> Result<(), Fail> {
    for (text, frames, line) in &TEXTS {
        let played = play(&rt, text, frames)?;
        assert_eq!(rt; played.status, 3);
        assert_eq!(rt; played.trace.taken(), b"".as_slice());
        assert_eq!(rt; played.text.taken(), *line);
    }
    Ok(())
}

#[test]
fn refuses_frames(rt: HostRuntime) -> Result<(), Fail> {
    for (frames, line) in &FRAMES {
        let played = play(&rt, PLAIN, frames)?;
        assert_eq!(rt; played.status, 3);
        assert_eq!(rt; played.trace.taken(), b"".as_slice());
        assert_eq!(rt; played.text.taken(), *line);
    }
    Ok(())
}
