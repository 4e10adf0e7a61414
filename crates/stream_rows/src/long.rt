//! Inputs that are put together: too many blocks, many patches, and payloads and frames of the largest length.
use crate::play::{CLOSE, PLAIN, play};
use std::alloc::{AllocError, Global};
use std::test::Fail;

/// Bytes, a part so many times, and more bytes.
struct Made {
    front: &'static [u8],
    part: &'static [u8],
    count: usize,
    behind: &'static [u8],
    line: &'static [u8],
}

fn bytes_of(alloc: Global, made: &Made) -> Result<Vec<u8>, AllocError> {
    let mut bytes = Vec::from_slice(alloc, made.front)?;
    for _ in 0..made.count {
        bytes.extend_from_slice(made.part)?;
    }
    bytes.extend_from_slice(made.behind)?;
    Ok(bytes)
}

/// The 9th buffer, the 17th producer and the 65th source.
static TEXTS: [Made; 3] = [
    Made {
        front: b"",
        part: b"buffers{size_kb:4}\n",
        count: 9,
        behind: b"",
        line: b"line 9: too many\n",
    },
    Made {
        front: b"",
        part: b"producers{}\n",
        count: 17,
        behind: b"",
        line: b"line 17: too many\n",
    },
    Made {
        front: b"buffers{size_kb:4}\n",
        part: b"data_sources{}\n",
        count: 65,
        behind: b"",
        line: b"line 66: too many\n",
    },
];

#[test]
fn refuses_too_many_blocks(rt: HostRuntime) -> Result<(), Fail> {
    for made in &TEXTS {
        let text = bytes_of(rt.alloc(), made)?;
        let played = play(&rt, &text, CLOSE)?;
        assert_eq!(rt; played.status, 3);
        assert_eq!(rt; played.trace.taken(), b"".as_slice());
        assert_eq!(rt; played.text.taken(), made.line);
    }
    Ok(())
}

static FRAMES: [Made; 5] = [
    // 17 patches.
    Made {
        front: b"\xEB\x00\x00\x00\x01\x01\x00\x00\x00\x00\x01\x00\x01\x00\x11",
        part: b"\x00\x00\x00\x00\x00\x00\x00\x00\x00\x00\x00\x00\x00",
        count: 17,
        behind: b"\x02\x40\x05\x01\x00\x00\x00\x03",
        line: b"offset 0: bad frame\n",
    },
    // A payload of 285 bytes, one more than a chunk of the page has.
    Made {
        front: b"\x28\x01\x00\x00\x01\x01\x00\x00\x00\x00\x01\x00\x01\x00\x00\x02\x40\x05",
        part: b"x",
        count: 282,
        behind: b"\x01\x00\x00\x00\x03",
        line: b"offset 0: bad frame\n",
    },
    // The largest length: whole, and cut short by its last byte; and one more than that.
    Made {
        front: b"\x70\x11\x01\x00\x01\x01\x00\x00\x00\x00\x01\x00\x01\x00\x00",
        part: b"\x00",
        count: 69_989,
        behind: b"",
        line: b"offset 0: bad frame\n",
    },
    Made {
        front: b"\x70\x11\x01\x00\x01\x01\x00\x00\x00\x00\x01\x00\x01\x00\x00",
        part: b"\x00",
        count: 69_988,
        behind: b"",
        line: b"offset 70003: no end\n",
    },
    Made {
        front: b"\x71\x11\x01\x00\x01\x01\x00\x00\x00\x00\x01\x00\x01\x00\x00",
        part: b"\x00",
        count: 1,
        behind: b"",
        line: b"offset 0: bad frame\n",
    },
];

#[test]
fn refuses_long_frames(rt: HostRuntime) -> Result<(), Fail> {
    for made in &FRAMES {
        let frames = bytes_of(rt.alloc(), made)?;
        let played = play(&rt, PLAIN, &frames)?;
        assert_eq!(rt; played.status, 3);
        assert_eq!(rt; played.trace.taken(), b"".as_slice());
        assert_eq!(rt; played.text.taken(), made.line);
    }
    Ok(())
}

/// 16 patches, of a chunk that isn't there.
static PATCHES: Made = Made {
    front: b"\xDE\x00\x00\x00\x01\x01\x00\x00\x00\x00\x01\x00\x01\x00\x10",
    part: b"\x09\x00\x00\x00\x00\x00\x00\x00\x00\x00\x00\x00\x01",
    count: 16,
    behind: b"\x02\x40\x05\x01\x00\x00\x00\x03",
    line: b"buffer 1 ring bytes 4096 placed 1 rewritten 0 overwritten 0 discarded 0 unpatched 0 padding 0\nsequence 2 begun 1 delivered 1 dropped 0 overwritten 0 discarded 0 cut 0\nstream commits 1 refused 0\n",
};

#[test]
fn plays_sixteen_patches(rt: HostRuntime) -> Result<(), Fail> {
    let frames = bytes_of(rt.alloc(), &PATCHES)?;
    let played = play(&rt, PLAIN, &frames)?;
    assert_eq!(rt; played.status, 0);
    assert_eq!(rt;
        played.trace.taken(),
        b"\x0A\x07\x40\x05\x50\x02\xD0\x02\x01".as_slice()
    );
    assert_eq!(rt; played.text.taken(), PATCHES.line);
    Ok(())
}

/// A payload that fills the chunk, and one of no bytes, which is zeros.
static PAYLOADS: Made = Made {
    front: b"\x27\x01\x00\x00\x01\x01\x00\x00\x00\x00\x01\x00\x01\x00\x00\x9A\x02\x0A\x97\x02",
    part: b"x",
    count: 279,
    behind: b"\x0B\x00\x00\x00\x01\x01\x01\x00\x00\x00\x01\x00\x01\x00\x00\x01\x00\x00\x00\x03",
    line: b"buffer 1 ring bytes 4096 placed 2 rewritten 0 overwritten 0 discarded 0 unpatched 0 padding 0\nsequence 2 begun 2 delivered 2 dropped 0 overwritten 0 discarded 0 cut 0\nstream commits 2 refused 0\n",
};

/// Its trace.
static RECORDS: Made = Made {
    front: b"\x0A\x9F\x02\x0A\x97\x02",
    part: b"x",
    count: 279,
    behind: b"\x50\x02\xD0\x02\x01\x0A\x02\x50\x02",
    line: b"",
};

#[test]
fn plays_a_full_and_an_empty_payload(rt: HostRuntime) -> Result<(), Fail> {
    let frames = bytes_of(rt.alloc(), &PAYLOADS)?;
    let played = play(&rt, PLAIN, &frames)?;
    let trace = bytes_of(rt.alloc(), &RECORDS)?;
    assert_eq!(rt; played.status, 0);
    assert_eq!(rt; played.trace.taken(), trace.as_slice());
    assert_eq!(rt; played.text.taken(), PAYLOADS.line);
    Ok(())
}
