//! A report whole, and one that its sink cuts short; and the same with lines `raw`.
use byte_io::memory::MemSink;
use byte_io::put::WriteFault;
use loss_report::{RawAnswer, RawLine, SequenceCounts, put_raw, put_report};
use std::test::Fail;
use trace_base::policy::FullPolicy;
use trace_buffer::{Arrived, BufferCounts};

const TEXT: &[u8] =
    b"buffer 1 discard bytes 65536 placed 1 rewritten 2 overwritten 3 discarded 4 unpatched 5 padding 6\nsequence 2 begun 18446744073709551615 delivered 1 dropped 2 overwritten 3 discarded 4 cut 5\nflush 1 chunks 7\n";

const RAW_TEXT: &[u8] =
    b"raw 5 kept\nraw 6 rewritten\nraw 70 duplicate\nraw 80 discarded\nraw 900 too far\n\
raw 4294967295 bad chunk 1022\nraw 18446744073709551615 wrong target 255\n";

#[test]
fn writes_a_report(rt: HostRuntime) -> Result<(), Fail> {
    let buffer = BufferCounts {
        policy: FullPolicy::Discard,
        bytes: 65536,
        placed: 1,
        rewritten: 2,
        overwritten: 3,
        discarded: 4,
        unpatched: 5,
        padding: 6,
    };
    let sequence = SequenceCounts {
        begun: u64::MAX,
        delivered: 1,
        dropped: 2,
        overwritten: 3,
        discarded: 4,
        cut: 5,
    };
    let mut sink = MemSink::with_room(rt.alloc(), 400)?;
    put_report(&mut sink, &[buffer], &[sequence], &[7])?;
    assert_eq!(rt; sink.taken(), TEXT);

    for room in [0, 6, 98, 120] {
        let mut short = MemSink::with_room(rt.alloc(), room)?;
        let answer = put_report(&mut short, &[buffer], &[sequence], &[7]);
        assert_eq!(rt; answer, Err(WriteFault));
        assert_eq!(rt; short.taken(), &TEXT[..room]);
    }
    Ok(())
}

#[test]
fn writes_raw_lines(rt: HostRuntime) -> Result<(), Fail> {
    let arrivals = [
        (5, Arrived::Kept),
        (6, Arrived::Rewritten),
        (70, Arrived::Duplicate),
        (80, Arrived::Discarded),
        (900, Arrived::TooFar),
        (4294967295, Arrived::BadChunk { fragment: 1022 }),
    ];
    let mut raws = Vec::with_capacity(rt.alloc(), 7)?;
    for (line, arrived) in arrivals {
        let answer = RawAnswer::from(arrived);
        raws.push(RawLine { line, answer })?;
    }
    let answer = RawAnswer::WrongTarget { buffer: 255 };
    let line = u64::MAX;
    raws.push(RawLine { line, answer })?;
    let mut sink = MemSink::with_room(rt.alloc(), 400)?;
    put_raw(&mut sink, &raws)?;
    assert_eq!(rt; sink.taken(), RAW_TEXT);

    for room in [0, 4, 11, 92, 121, 148] {
        let mut short = MemSink::with_room(rt.alloc(), room)?;
        let answer = put_raw(&mut short, &raws);
        assert_eq!(rt; answer, Err(WriteFault));
        assert_eq!(rt; short.taken(), &RAW_TEXT[..room]);
    }
    Ok(())
}
