//! Scenarios whose writers begin at other ids than 0, and go on at 0 behind the last one.
use crate::play::play;
use crate::rows::{ROWS, Row};
use std::alloc::{AllocError, Global};
use std::test::Fail;

/// The scenario with an id behind each writer line, so that the writer's third chunk has the id 0.
fn with_late_ids(alloc: Global, input: &[u8]) -> Result<Vec<u8>, AllocError> {
    let mut text = Vec::new(alloc);
    let mut is_writer = input.starts_with(b"writer ");
    for at in 0..input.len() {
        let ends = input[at] == b'\n';
        if ends && is_writer {
            text.extend_from_slice(b" from 4294967294")?;
        }
        text.push(input[at])?;
        if ends {
            is_writer = input[at + 1..].starts_with(b"writer ");
        }
    }
    Ok(text)
}

#[test]
fn ids_leave_what_is_written(rt: HostRuntime) -> Result<(), Fail> {
    for (number, row) in ROWS.iter().enumerate() {
        let input = with_late_ids(rt.alloc(), row.input)?;
        let played = play(&rt, &["replay"], &input)?;
        assert_eq!(rt; played.status, row.status, "row {number}");
        assert_eq!(rt; played.trace.taken(), row.trace, "row {number}");
        assert_eq!(rt; played.text.taken(), row.text, "row {number}");
    }
    Ok(())
}

static WRAPS: [Row; 2] = [
    // The second chunk has the id 0.
    Row {
        input: b"buffer 64 ring\nproducer 1 4096 14\nwriter 1 1 drop from 4294967295\np 1 8:1\nf 1\np 1 8:2\n",
        status: 0,
        trace: b"\x0A\x07\x40\x01\x50\x02\xD0\x02\x01\x0A\x04\x40\x02\x50\x02",
        text: b"buffer 1 ring bytes 65536 placed 2 rewritten 0 overwritten 0 discarded 0 unpatched 0 padding 0\nsequence 2 begun 2 delivered 2 dropped 0 overwritten 0 discarded 0 cut 0\n",
    },
    // It is scraped while it is held: its id is below that of the chunk before.
    Row {
        input: b"buffer 64 ring\nproducer 1 4096 14\nwriter 1 1 drop from 4294967295\np 1 8:1\nf 1\np 1 8:2\np 1 8:3\ns 1\nr 1\n",
        status: 0,
        trace: b"\x0A\x07\x40\x01\x50\x02\xD0\x02\x01\x0A\x04\x40\x02\x50\x02\x0A\x04\x40\x03\x50\x02",
        text: b"buffer 1 ring bytes 65536 placed 2 rewritten 1 overwritten 0 discarded 0 unpatched 0 padding 0\nsequence 2 begun 3 delivered 3 dropped 0 overwritten 0 discarded 0 cut 0\n",
    },
];

#[test]
fn goes_on_behind_the_last_id(rt: HostRuntime) -> Result<(), Fail> {
    for (number, row) in WRAPS.iter().enumerate() {
        let played = play(&rt, &["replay"], row.input)?;
        assert_eq!(rt; played.status, row.status, "row {number}");
        assert_eq!(rt; played.trace.taken(), row.trace, "row {number}");
        assert_eq!(rt; played.text.taken(), row.text, "row {number}");
    }
    Ok(())
}

/// What the report says of one packet that was delivered.
const DELIVERED: &[u8] =
    b"sequence 2 begun 1 delivered 1 dropped 0 overwritten 0 discarded 0 cut 0\n";

// A message begins in the chunk with the last id and ends in the one with the id 0, which brings its
// length as a patch.
#[test]
fn patches_the_chunk_with_the_last_id(rt: HostRuntime) -> Result<(), Fail> {
    let played = play(
        &rt,
        &["replay"],
        b"buffer 64 ring\nproducer 1 4096 14\nwriter 1 1 drop from 4294967295\np 1 900{1:\"x\"*300}\n",
    )?;
    let head = b"\x0A\xBA\x02\xA2\x38\xAF\x82\x80\x00\x0A\xAC\x02";
    let mut trace = Vec::from_slice(rt.alloc(), head)?;
    trace.extend_from_slice(&[b'x'; 300])?;
    trace.extend_from_slice(b"\x50\x02\xD0\x02\x01")?;
    assert_eq!(rt; played.status, 0);
    assert_eq!(rt; played.trace.taken(), trace.as_slice());
    assert!(rt; played.text.taken().ends_with(DELIVERED));
    Ok(())
}
