//! A summary of a trace by hand.
use byte_io::memory::MemSink;
use byte_io::put::WriteFault;
use std::test::Fail;
use trace_file::TraceFault;
use trace_summary::{SummaryFault, put_summary, summarize};

const TRACE: &[u8] =
    b"\x0A\x04\x40\x05\x50\x03\x08\x01\x0A\x07\x40\x05\x50\x02\xD0\x02\x01\x0A\x00\x0A\x05\x50\x03\xD0\x02\x02";

const TEXT: &[u8] =
    b"sequence 0 packets 1 marked 0 bytes 0\nsequence 2 packets 1 marked 1 bytes 7\nsequence 3 packets 2 marked 1 bytes 9\npackets 4 bytes 16\n";

#[test]
fn counts_each_sequence(rt: HostRuntime) -> Result<(), Fail> {
    let summary = summarize(rt.alloc(), TRACE)?;
    let mut sink = MemSink::with_room(rt.alloc(), 200)?;
    put_summary(&mut sink, &summary)?;
    assert_eq!(rt; sink.taken(), TEXT);
    for room in 0..TEXT.len() {
        let mut short = MemSink::with_room(rt.alloc(), room)?;
        assert_eq!(rt; put_summary(&mut short, &summary), Err(WriteFault));
        assert_eq!(rt; short.taken(), &TEXT[..room]);
    }
    match summarize(rt.alloc(), b"\x0A\x00\x0B") {
        Err(SummaryFault::Trace(fault)) => assert_eq!(rt; fault, TraceFault::Group { offset: 2 }),
        _ => panic!(rt; "the group is read"),
    }
    Ok(())
}
