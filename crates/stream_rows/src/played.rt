//! Streams that are played, with their traces and reports.
use crate::play::{CLOSE, PLAIN, play};
use std::test::Fail;

struct Row {
    text: &'static [u8],
    frames: &'static [u8],
    trace: &'static [u8],
    report: &'static [u8],
}

static ROWS: [Row; 9] = [
    // A commit of one packet.
    Row {
        text: PLAIN,
        frames: b"\x0E\x00\x00\x00\x01\x01\x00\x00\x00\x00\x01\x00\x01\x00\x00\x02@\x05\x01\x00\x00\x00\x03",
        trace: b"\n\x07@\x05P\x02\xD0\x02\x01",
        report: b"buffer 1 ring bytes 4096 placed 1 rewritten 0 overwritten 0 discarded 0 unpatched 0 padding 0\nsequence 2 begun 1 delivered 1 dropped 0 overwritten 0 discarded 0 cut 0\nstream commits 1 refused 0\n",
    },
    // Two commits whose ids fall: the packets come in the order of the ids.
    Row {
        text: PLAIN,
        frames: b"\x0E\x00\x00\x00\x01\x01\x01\x00\x00\x00\x01\x00\x01\x00\x00\x02@\x06\x0E\x00\x00\x00\x01\x01\x00\x00\x00\x00\x01\x00\x01\x00\x00\x02@\x05\x01\x00\x00\x00\x03",
        trace: b"\n\x07@\x05P\x02\xD0\x02\x01\n\x04@\x06P\x02",
        report: b"buffer 1 ring bytes 4096 placed 2 rewritten 0 overwritten 0 discarded 0 unpatched 0 padding 0\nsequence 2 begun 2 delivered 2 dropped 0 overwritten 0 discarded 0 cut 0\nstream commits 2 refused 0\n",
    },
    // Fields that are skipped.
    Row {
        text: b"buffers { size_kb: 4 }\nduration_ms: 10000\ndata_sources { config { name: \"a\" ftrace_config { ftrace_events: \"sched_switch\" } } }\n",
        frames: b"\x0E\x00\x00\x00\x01\x01\x00\x00\x00\x00\x01\x00\x01\x00\x00\x02@\x05\x01\x00\x00\x00\x03",
        trace: b"\n\x07@\x05P\x02\xD0\x02\x01",
        report: b"buffer 1 ring bytes 4096 placed 1 rewritten 0 overwritten 0 discarded 0 unpatched 0 padding 0\nsequence 2 begun 1 delivered 1 dropped 0 overwritten 0 discarded 0 cut 0\nstream commits 1 refused 0\n",
    },
    // A second record takes the first one's place; with a read between, the first packet was delivered.
    Row {
        text: b"buffers { size_kb: 4 }\nproducers { page_size_kb: 52 shm_size_kb: 52 }\ndata_sources { }\n",
        frames: b"\x0E\x00\x00\x00\x01\x01\x00\x00\x00\x00\x01\x00\x01\x00\x00\x02@\x05\x0E\x00\x00\x00\x01\x01\x01\x00\x00\x00\x01\x00\x01\x00\x00\x02@\x06\x01\x00\x00\x00\x03",
        trace: b"\n\x07@\x06P\x02\xD0\x02\x01",
        report: b"buffer 1 ring bytes 4096 placed 2 rewritten 0 overwritten 1 discarded 0 unpatched 0 padding 288\nsequence 2 begun 2 delivered 1 dropped 0 overwritten 1 discarded 0 cut 0\nstream commits 2 refused 0\n",
    },
    Row {
        text: b"buffers { size_kb: 4 }\nproducers { page_size_kb: 52 shm_size_kb: 52 }\ndata_sources { }\n",
        frames: b"\x0E\x00\x00\x00\x01\x01\x00\x00\x00\x00\x01\x00\x01\x00\x00\x02@\x05\x02\x00\x00\x00\x02\x01\x0E\x00\x00\x00\x01\x01\x01\x00\x00\x00\x01\x00\x01\x00\x00\x02@\x06\x01\x00\x00\x00\x03",
        trace: b"\n\x07@\x05P\x02\xD0\x02\x01\n\x04@\x06P\x02",
        report: b"buffer 1 ring bytes 4096 placed 2 rewritten 0 overwritten 0 discarded 0 unpatched 0 padding 288\nsequence 2 begun 2 delivered 2 dropped 0 overwritten 0 discarded 0 cut 0\nstream commits 2 refused 0\n",
    },
    // A buffer that discards: want of room is no refusal.
    Row {
        text: b"buffers { size_kb: 4 fill_policy: DISCARD }\nproducers { page_size_kb: 52 shm_size_kb: 52 }\ndata_sources { }\n",
        frames: b"\x0E\x00\x00\x00\x01\x01\x00\x00\x00\x00\x01\x00\x01\x00\x00\x02@\x05\x0E\x00\x00\x00\x01\x01\x01\x00\x00\x00\x01\x00\x01\x00\x00\x02@\x06\x01\x00\x00\x00\x03",
        trace: b"\n\x07@\x05P\x02\xD0\x02\x01",
        report: b"buffer 1 discard bytes 4096 placed 1 rewritten 0 overwritten 0 discarded 1 unpatched 0 padding 0\nsequence 2 begun 2 delivered 1 dropped 0 overwritten 0 discarded 1 cut 0\nstream commits 2 refused 0\n",
    },
    // A read finds nothing while the id before is still to come.
    Row {
        text: PLAIN,
        frames: b"\x0E\x00\x00\x00\x01\x01\x02\x00\x00\x00\x01\x00\x01\x00\x00\x02@\x07\x02\x00\x00\x00\x02\x01\x0E\x00\x00\x00\x01\x01\x01\x00\x00\x00\x01\x00\x01\x00\x00\x02@\x06\x02\x00\x00\x00\x02\x01\x0E\x00\x00\x00\x01\x01\x00\x00\x00\x00\x01\x00\x01\x00\x00\x02@\x05\x01\x00\x00\x00\x03",
        trace: b"\n\x07@\x05P\x02\xD0\x02\x01\n\x04@\x06P\x02\n\x04@\x07P\x02",
        report: b"buffer 1 ring bytes 4096 placed 3 rewritten 0 overwritten 0 discarded 0 unpatched 0 padding 0\nsequence 2 begun 3 delivered 3 dropped 0 overwritten 0 discarded 0 cut 0\nstream commits 3 refused 0\n",
    },
    // A packet over two chunks, whose length comes with the second one; without it the packet is cut.
    Row {
        text: PLAIN,
        frames: b"\x12\x00\x00\x00\x01\x01\x00\x00\x00\x00\x01\x00\x01\x18\x00\x06B\x80\x80\x80\x00@\x02\x00\x00\x00\x02\x01\x1A\x00\x00\x00\x01\x01\x01\x00\x00\x00\x01\x00\x01\x04\x01\x00\x00\x00\x00\x02\x00\x00\x00\x82\x80\x80\x00\x01\x01\x05\x01\x00\x00\x00\x03",
        trace: b"\n\x0CB\x82\x80\x80\x00@\x05P\x02\xD0\x02\x01",
        report: b"buffer 1 ring bytes 4096 placed 2 rewritten 0 overwritten 0 discarded 0 unpatched 0 padding 0\nsequence 2 begun 1 delivered 1 dropped 0 overwritten 0 discarded 0 cut 0\nstream commits 2 refused 0\n",
    },
    Row {
        text: PLAIN,
        frames: b"\x12\x00\x00\x00\x01\x01\x00\x00\x00\x00\x01\x00\x01\x18\x00\x06B\x80\x80\x80\x00@\x02\x00\x00\x00\x02\x01\x0D\x00\x00\x00\x01\x01\x01\x00\x00\x00\x01\x00\x01\x04\x00\x01\x05\x01\x00\x00\x00\x03",
        trace: b"",
        report: b"buffer 1 ring bytes 4096 placed 2 rewritten 0 overwritten 0 discarded 0 unpatched 1 padding 0\nsequence 2 begun 1 delivered 0 dropped 0 overwritten 0 discarded 0 cut 1\nstream commits 2 refused 0\n",
    },
];

static MORE: [Row; 9] = [
    // Two lengths of a chunk, in two later commits, the second of which is refused; the packet is whole with the one that is last.
    Row {
        text: PLAIN,
        frames: b"\x18\x00\x00\x00\x01\x01\x00\x00\x00\x00\x01\x00\x01\x10\x00\x0CB\x80\x80\x80\x00J\x80\x80\x80\x00@\x05\x1B\x00\x00\x00\x01\x01\x01\x00\x00\x00\x01\x00\x01\x00\x01\x00\x00\x00\x00\x02\x00\x00\x00\x87\x80\x80\x00\x00\x02@\x06\x02\x00\x00\x00\x02\x01\x1B\x00\x00\x00\x01\x01\x01\x00\x00\x00\x01\x00\x01\x00\x01\x00\x00\x00\x00\x07\x00\x00\x00\x82\x80\x80\x00\x01\x02@\x06\x01\x00\x00\x00\x03",
        trace: b"\n\x11B\x87\x80\x80\x00J\x82\x80\x80\x00@\x05P\x02\xD0\x02\x01\n\x04@\x06P\x02",
        report: b"buffer 1 ring bytes 4096 placed 2 rewritten 0 overwritten 0 discarded 0 unpatched 0 padding 0\nsequence 2 begun 2 delivered 2 dropped 0 overwritten 0 discarded 0 cut 0\nstream commits 3 refused 1\n",
    },
    // A patch that comes before its chunk is passed over.
    Row {
        text: PLAIN,
        frames: b"\x1B\x00\x00\x00\x01\x01\x01\x00\x00\x00\x01\x00\x01\x00\x01\x00\x00\x00\x00\x02\x00\x00\x00\x82\x80\x80\x00\x01\x02@\x06\x13\x00\x00\x00\x01\x01\x00\x00\x00\x00\x01\x00\x01\x10\x00\x07B\x80\x80\x80\x00@\x05\x01\x00\x00\x00\x03",
        trace: b"\n\x07@\x06P\x02\xD0\x02\x01",
        report: b"buffer 1 ring bytes 4096 placed 2 rewritten 0 overwritten 0 discarded 0 unpatched 1 padding 0\nsequence 2 begun 2 delivered 1 dropped 0 overwritten 0 discarded 0 cut 1\nstream commits 2 refused 0\n",
    },
    // Commits for another buffer than the source's are refused, their patches too.
    Row {
        text: b"buffers { size_kb: 4 }\nbuffers { size_kb: 8 }\ndata_sources { config { target_buffer: 1 } }\n",
        frames: b"\x0E\x00\x00\x00\x01\x01\x00\x00\x00\x00\x01\x00\x01\x00\x00\x02@\x05\x13\x00\x00\x00\x01\x02\x00\x00\x00\x00\x01\x00\x01\x10\x00\x07B\x80\x80\x80\x00@\x05\x1B\x00\x00\x00\x01\x01\x01\x00\x00\x00\x01\x00\x01\x00\x01\x00\x00\x00\x00\x02\x00\x00\x00\x82\x80\x80\x00\x01\x02@\x06\x01\x00\x00\x00\x03",
        trace: b"",
        report: b"buffer 1 ring bytes 4096 placed 0 rewritten 0 overwritten 0 discarded 0 unpatched 0 padding 0\nbuffer 2 ring bytes 8192 placed 1 rewritten 0 overwritten 0 discarded 0 unpatched 1 padding 0\nsequence 2 begun 1 delivered 0 dropped 0 overwritten 0 discarded 0 cut 1\nstream commits 3 refused 2\n",
    },
    // An id that came before, one too far ahead, and chunks that can't be read.
    Row {
        text: PLAIN,
        frames: b"\x0E\x00\x00\x00\x01\x01\x00\x00\x00\x00\x01\x00\x01\x00\x00\x02@\x05\x0E\x00\x00\x00\x01\x01\x00\x00\x00\x00\x01\x00\x01\x00\x00\x02@\x06\x0E\x00\x00\x00\x01\x01\x01\x04\x00\x00\x01\x00\x01\x00\x00\x02@\x06\x0E\x00\x00\x00\x01\x01\x01\x00\x00\x00\x01\x00\x00\x00\x00\x02@\x06\x0D\x00\x00\x00\x01\x01\x01\x00\x00\x00\x01\x00\x01\x00\x00\x9C\x02\x01\x00\x00\x00\x03",
        trace: b"\n\x07@\x05P\x02\xD0\x02\x01",
        report: b"buffer 1 ring bytes 4096 placed 1 rewritten 0 overwritten 0 discarded 0 unpatched 0 padding 0\nsequence 2 begun 1 delivered 1 dropped 0 overwritten 0 discarded 0 cut 0\nstream commits 5 refused 4\n",
    },
    // A packet with a field of the service.
    Row {
        text: PLAIN,
        frames: b"\x0E\x00\x00\x00\x01\x01\x00\x00\x00\x00\x01\x00\x01\x00\x00\x02P\x05\x0E\x00\x00\x00\x01\x01\x01\x00\x00\x00\x01\x00\x01\x00\x00\x02@\x06\x01\x00\x00\x00\x03",
        trace: b"\n\x07@\x06P\x02\xD0\x02\x01",
        report: b"buffer 1 ring bytes 4096 placed 2 rewritten 0 overwritten 0 discarded 0 unpatched 0 padding 0\nsequence 2 begun 2 delivered 1 dropped 0 overwritten 0 discarded 0 cut 1\nstream commits 2 refused 0\n",
    },
    // Two sources of two buffers, which are read in their order at the end; and a read of one of them that lets the other be.
    Row {
        text: b"buffers { size_kb: 4 }\nbuffers { size_kb: 8 }\ndata_sources { config { target_buffer: 1 } }\ndata_sources { }\n",
        frames: b"\x0E\x00\x00\x00\x01\x02\x00\x00\x00\x00\x01\x00\x01\x00\x00\x02@\x05\x0E\x00\x00\x00\x01\x01\x00\x00\x00\x00\x02\x00\x01\x00\x00\x02@\x06\x01\x00\x00\x00\x03",
        trace: b"\n\x07@\x06P\x03\xD0\x02\x01\n\x07@\x05P\x02\xD0\x02\x01",
        report: b"buffer 1 ring bytes 4096 placed 1 rewritten 0 overwritten 0 discarded 0 unpatched 0 padding 0\nbuffer 2 ring bytes 8192 placed 1 rewritten 0 overwritten 0 discarded 0 unpatched 0 padding 0\nsequence 2 begun 1 delivered 1 dropped 0 overwritten 0 discarded 0 cut 0\nsequence 3 begun 1 delivered 1 dropped 0 overwritten 0 discarded 0 cut 0\nstream commits 2 refused 0\n",
    },
    Row {
        text: b"buffers { size_kb: 4 }\nbuffers { size_kb: 8 }\ndata_sources { }\ndata_sources { config { target_buffer: 1 } }\n",
        frames: b"\x0E\x00\x00\x00\x01\x01\x00\x00\x00\x00\x01\x00\x01\x00\x00\x02@\x05\x0E\x00\x00\x00\x01\x02\x00\x00\x00\x00\x02\x00\x01\x00\x00\x02@\x06\x02\x00\x00\x00\x02\x02\x01\x00\x00\x00\x03",
        trace: b"\n\x07@\x06P\x03\xD0\x02\x01\n\x07@\x05P\x02\xD0\x02\x01",
        report: b"buffer 1 ring bytes 4096 placed 1 rewritten 0 overwritten 0 discarded 0 unpatched 0 padding 0\nbuffer 2 ring bytes 8192 placed 1 rewritten 0 overwritten 0 discarded 0 unpatched 0 padding 0\nsequence 2 begun 1 delivered 1 dropped 0 overwritten 0 discarded 0 cut 0\nsequence 3 begun 1 delivered 1 dropped 0 overwritten 0 discarded 0 cut 0\nstream commits 2 refused 0\n",
    },
    // A configuration of nothing, and one of a buffer without sources.
    Row {
        text: b"",
        frames: CLOSE,
        trace: b"",
        report: b"stream commits 0 refused 0\n",
    },
    Row {
        text: b"buffers: { size_kb: 5, size_kb: 4; } # the last value counts\n",
        frames: b"\x02\x00\x00\x00\x02\x01\x01\x00\x00\x00\x03",
        trace: b"",
        report: b"buffer 1 ring bytes 4096 placed 0 rewritten 0 overwritten 0 discarded 0 unpatched 0 padding 0\nstream commits 0 refused 0\n",
    },
];

#[test]
fn plays_rows(rt: HostRuntime) -> Result<(), Fail> {
    for row in &ROWS {
        let played = play(&rt, row.text, row.frames)?;
        assert_eq!(rt; played.status, 0);
        assert_eq!(rt; played.trace.taken(), row.trace);
        assert_eq!(rt; played.text.taken(), row.report);
    }
    Ok(())
}

#[test]
fn plays_more(rt: HostRuntime) -> Result<(), Fail> {
    for row in &MORE {
        let played = play(&rt, row.text, row.frames)?;
        assert_eq!(rt; played.status, 0);
        assert_eq!(rt; played.trace.taken(), row.trace);
        assert_eq!(rt; played.text.taken(), row.report);
    }
    Ok(())
}
