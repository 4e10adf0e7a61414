//! What a frame says.
use arrayvec::ArrayVec;
use commit_body::Patch;
use page_geometry::ChunkHeader;
use std::test::Fail;
use stream_frames::{Commit, Frame, FrameLimits, Front, decode, front_of};

/// Two buffers, and sources with payloads of three and of 284 bytes.
fn limits() -> FrameLimits {
    let mut payload_sizes = ArrayVec::new();
    payload_sizes.push(3);
    payload_sizes.push(284);
    FrameLimits {
        buffers: 2,
        payload_sizes,
    }
}

#[test]
fn reads_a_commit(rt: HostRuntime) -> Result<(), Fail> {
    let frame =
        b"\x01\x02\x04\x03\x02\x01\x02\x00\x05\x1C\x02\x00\x00\x00\x01\x10\x00\x00\x00\x81\x82\x83\x04\x00\x09\x00\x00\x00\x00\x01\x00\x00abcd\x01\x02\x40\x05";
    let Some(Frame::Commit(commit)) = decode(&limits(), frame) else {
        return Err("no commit".into());
    };
    let Commit {
        target,
        header,
        patches,
        payload,
    } = commit;
    assert_eq!(rt; target, 2);
    let wanted = ChunkHeader {
        chunk_id: 0x0102_0304,
        writer_id: 2,
        count: 5,
        flags: 7,
    };
    assert_eq!(rt; header, wanted);
    let first = Patch {
        chunk_id: 0x0100_0000,
        offset: 16,
        bytes: [0x81, 0x82, 0x83, 0x04],
        last: false,
    };
    let second = Patch {
        chunk_id: 9,
        offset: 256,
        bytes: *b"abcd",
        last: true,
    };
    let mut room = ArrayVec::new();
    patches.put_into(&mut room);
    assert_eq!(rt; room.as_slice(), [first, second].as_slice());
    assert_eq!(rt; payload, b"\x02\x40\x05".as_slice());
    Ok(())
}

#[test]
fn reads_the_other_kinds(rt: HostRuntime) {
    let limits = limits();
    assert!(rt;
        matches!(
            decode(&limits, b"\x02\x02"),
            Some(Frame::Read { buffer: 2 })
        )
    );
    assert!(rt; matches!(decode(&limits, b"\x03"), Some(Frame::Close)));
    assert!(rt; matches!(decode(&limits, b""), None));
}

// No frame of this length is one, which its last byte shows.
#[test]
fn takes_the_largest_length(rt: HostRuntime) -> Result<(), Fail> {
    let mut stream = Vec::new(rt.alloc());
    stream.extend_from_slice(b"\x70\x11\x01\x00\x01\x01\x00\x00\x00\x00\x01\x00\x01\x00\x00")?;
    stream.resize(70_003, 0)?;
    assert!(rt; matches!(front_of(&limits(), &stream), Front::Short));
    stream.push(0)?;
    assert!(rt; matches!(front_of(&limits(), &stream), Front::Bad));
    assert!(rt; matches!(front_of(&limits(), b"\x71\x11\x01"), Front::Short));
    assert!(rt; matches!(front_of(&limits(), b"\x71\x11\x01\x00"), Front::Bad));
    assert!(rt;
        matches!(
            front_of(&limits(), b"\x01\x00\x00\x00\x03"),
            Front::Whole { size: 5, .. }
        )
    );
    Ok(())
}
