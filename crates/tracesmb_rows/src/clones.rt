//! Clones of buffers: what is read of them, and which commands refuse their lines.
use crate::play::play;
use std::test::Fail;

struct Row {
    command: &'static str,
    input: &'static [u8],
    status: u8,
    trace: &'static [u8],
    text: &'static [u8],
}

static ROWS: [Row; 16] = [
    // A clone between two reads: what was read before isn't in it, and what comes later neither.
    Row {
        command: "clone",
        input: b"buffer 64 ring\nproducer 1 4096 14\nwriter 1 1 drop\np 1 8:1\nf 1\nc 1\nr 1\np 1 8:2\nf 1\nc 1\nk 1\np 1 8:3\n",
        status: 0,
        trace: b"\x0A\x07\x40\x02\x50\x02\xD0\x02\x01",
        text: b"buffer 1 ring bytes 65536 placed 3 rewritten 0 overwritten 0 discarded 0 unpatched 0 padding 0\nsequence 2 begun 3 delivered 3 dropped 0 overwritten 0 discarded 0 cut 0\nclone 1 buffer 1 delivered 1\n",
    },
    // A packet whose length is still to come is cut in the clone, and delivered of the buffer.
    Row {
        command: "clone",
        input: b"buffer 64 ring\nproducer 1 4096 14\nwriter 1 1 drop\np 1 900{1:\"x\"*300}\nc 1\nk 1\n",
        status: 0,
        trace: b"",
        text: b"buffer 1 ring bytes 65536 placed 2 rewritten 0 overwritten 0 discarded 0 unpatched 0 padding 0\nsequence 2 begun 1 delivered 1 dropped 0 overwritten 0 discarded 0 cut 0\nclone 1 buffer 1 delivered 0\n",
    },
    // Such a packet hides none behind it.
    Row {
        command: "clone",
        input: b"buffer 64 ring\nproducer 1 4096 14\nwriter 1 1 drop\np 1 900{1:\"x\"*300}\np 1 8:7\np 1 8:8\ns 1\nr 1\nk 1\n",
        status: 0,
        trace: b"\x0A\x07\x40\x07\x50\x02\xD0\x02\x01",
        text: b"buffer 1 ring bytes 65536 placed 2 rewritten 1 overwritten 0 discarded 0 unpatched 0 padding 0\nsequence 2 begun 3 delivered 3 dropped 0 overwritten 0 discarded 0 cut 0\nclone 1 buffer 1 delivered 1\n",
    },
    // Clones in the order of their lines, and of one buffer twice.
    Row {
        command: "clone",
        input: b"buffer 4 ring\nbuffer 4 ring\nproducer 1 4096 14\nwriter 1 1 drop\nwriter 1 2 drop\np 1 8:1\np 2 8:2\nf 1\nf 2\nc 1\nk 2\nk 1\nk 2\n",
        status: 0,
        trace: b"\x0A\x07\x40\x02\x50\x03\xD0\x02\x01\x0A\x07\x40\x01\x50\x02\xD0\x02\x01\x0A\x07\x40\x02\x50\x03\xD0\x02\x01",
        text: b"buffer 1 ring bytes 4096 placed 1 rewritten 0 overwritten 0 discarded 0 unpatched 0 padding 0\nbuffer 2 ring bytes 4096 placed 1 rewritten 0 overwritten 0 discarded 0 unpatched 0 padding 0\nsequence 2 begun 1 delivered 1 dropped 0 overwritten 0 discarded 0 cut 0\nsequence 3 begun 1 delivered 1 dropped 0 overwritten 0 discarded 0 cut 0\nclone 1 buffer 2 delivered 1\nclone 2 buffer 1 delivered 1\nclone 3 buffer 2 delivered 1\n",
    },
    // A clone of nothing, and of a buffer without sequences.
    Row {
        command: "clone",
        input: b"buffer 4 discard\nk 1\n",
        status: 0,
        trace: b"",
        text: b"buffer 1 discard bytes 4096 placed 0 rewritten 0 overwritten 0 discarded 0 unpatched 0 padding 0\nclone 1 buffer 1 delivered 0\n",
    },
    // A scenario without clones has the report alone.
    Row {
        command: "clone",
        input: b"buffer 64 ring\nproducer 1 4096 14\nwriter 1 1 drop\np 1 8:1\n",
        status: 0,
        trace: b"",
        text: b"buffer 1 ring bytes 65536 placed 1 rewritten 0 overwritten 0 discarded 0 unpatched 0 padding 0\nsequence 2 begun 1 delivered 1 dropped 0 overwritten 0 discarded 0 cut 0\n",
    },
    // A closed producer's sequence stays as it is.
    Row {
        command: "clone",
        input: b"buffer 64 ring\nproducer 1 4096 14\nwriter 1 1 drop\np 1 8:1\nx 1\nk 1\n",
        status: 0,
        trace: b"",
        text: b"buffer 1 ring bytes 65536 placed 0 rewritten 0 overwritten 0 discarded 0 unpatched 0 padding 0\nsequence 2 begun 1 delivered 0 dropped 0 overwritten 0 discarded 0 cut 1\nclone 1 buffer 1 delivered 0\n",
    },
    // A writer that stalls leaves the trace as it was, whatever was cloned before.
    Row {
        command: "clone",
        input: b"buffer 64 ring\nproducer 1 4096 1\nwriter 1 1 stall\nwriter 1 1 stall\np 1 8:1\nk 1\np 2 8:2\n",
        status: 6,
        trace: b"",
        text: b"stalled: writer 2\n",
    },
    // Four clones, and one too many.
    Row {
        command: "clone",
        input: b"buffer 64 ring\nproducer 1 4096 14\nwriter 1 1 drop\nk 1\nk 1\nk 1\nk 1\n",
        status: 0,
        trace: b"",
        text: b"buffer 1 ring bytes 65536 placed 0 rewritten 0 overwritten 0 discarded 0 unpatched 0 padding 0\nsequence 2 begun 0 delivered 0 dropped 0 overwritten 0 discarded 0 cut 0\nclone 1 buffer 1 delivered 0\nclone 2 buffer 1 delivered 0\nclone 3 buffer 1 delivered 0\nclone 4 buffer 1 delivered 0\n",
    },
    Row {
        command: "clone",
        input: b"buffer 64 ring\nproducer 1 4096 14\nwriter 1 1 drop\nk 1\nk 1\nk 1\nk 1\nk 1\n",
        status: 3,
        trace: b"",
        text: b"line 8: too many\n",
    },
    // Each other command refuses them, behind the grammar's faults, by the first line that isn't for it.
    Row {
        command: "replay",
        input: b"buffer 64 ring\nproducer 1 4096 14\nwriter 1 1 drop\np 1 8:1\nk 1\nk 1\n",
        status: 3,
        trace: b"",
        text: b"line 5: not under replay\n",
    },
    Row {
        command: "replay",
        input: b"buffer 64 ring\nproducer 1 4096 14\nwriter 1 1 drop\nk 1\nz\n",
        status: 3,
        trace: b"",
        text: b"line 5: bad line\n",
    },
    Row {
        command: "run",
        input: b"buffer 64 ring\nproducer 1 4096 14\nwriter 1 1 drop\nk 1\nx 1\n",
        status: 3,
        trace: b"",
        text: b"line 4: not under run\n",
    },
    Row {
        command: "run",
        input: b"buffer 64 ring\nproducer 1 4096 14\nwriter 1 1 drop\nx 1\nk 1\n",
        status: 3,
        trace: b"",
        text: b"line 4: not under run\n",
    },
    Row {
        command: "check",
        input: b"buffer 64 ring\nproducer 1 4096 14\nwriter 1 1 drop\nx 1\nk 1\n",
        status: 3,
        trace: b"",
        text: b"line 5: not under check\n",
    },
    Row {
        command: "check",
        input: b"buffer 64 ring\nproducer 1 4096 14\nwriter 1 1 drop\nk 1\n==\n\x0B",
        status: 3,
        trace: b"",
        text: b"line 4: not under check\n",
    },
];

#[test]
fn plays_clones(rt: HostRuntime) -> Result<(), Fail> {
    for row in &ROWS {
        let played = play(&rt, &[row.command], row.input)?;
        assert_eq!(rt; played.status, row.status);
        assert_eq!(rt; played.trace.taken(), row.trace);
        assert_eq!(rt; played.text.taken(), row.text);
    }
    Ok(())
}
