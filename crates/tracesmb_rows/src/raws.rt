//! Chunks that lines `raw` commit: what is read of them, what the report says, and which lines are refused.
use crate::play::play;
use std::test::Fail;

struct Row {
    command: &'static str,
    input: &'static [u8],
    status: u8,
    trace: &'static [u8],
    text: &'static [u8],
}

static ROWS: [Row; 36] = [
    // The first chunk with an id stays, one too far ahead comes nowhere, and a packet of the service's field 10 is cut. Another writer is let be.
    Row {
        command: "replay",
        input: b"buffer 64 ring\nproducer 1 4096 14\nwriter 1 1 drop\nwriter 1 1 drop\nraw 1 0 1 0 1 x'024005'\nraw 1 0 1 0 1 x'024006'\nraw 1 2000 1 0 1 x'024006'\nraw 1 1 1 0 1 x'025005'\np 2 8:7\n",
        status: 0,
        trace: b"\x0A\x07\x40\x05\x50\x02\xD0\x02\x01\x0A\x07\x40\x07\x50\x03\xD0\x02\x01",
        text: b"buffer 1 ring bytes 65536 placed 3 rewritten 0 overwritten 0 discarded 0 unpatched 0 padding 0\nsequence 2 begun 2 delivered 1 dropped 0 overwritten 0 discarded 0 cut 1\nsequence 3 begun 1 delivered 1 dropped 0 overwritten 0 discarded 0 cut 0\nraw 5 kept\nraw 6 duplicate\nraw 7 too far\nraw 8 kept\n",
    },
    // A size of 512 in a payload of 284 bytes.
    Row {
        command: "replay",
        input: b"buffer 64 ring\nproducer 1 4096 14\nwriter 1 1 drop\nraw 1 0 1 0 1 x'80848000'\n",
        status: 0,
        trace: b"",
        text: b"buffer 1 ring bytes 65536 placed 0 rewritten 0 overwritten 0 discarded 0 unpatched 0 padding 0\nsequence 2 begun 0 delivered 0 dropped 0 overwritten 0 discarded 0 cut 0\nraw 4 bad chunk 0\n",
    },
    // A chunk for another buffer.
    Row {
        command: "replay",
        input: b"buffer 64 ring\nbuffer 64 ring\nproducer 1 4096 14\nwriter 1 1 drop\nraw 1 0 1 0 2 x'024005'\n",
        status: 0,
        trace: b"",
        text: b"buffer 1 ring bytes 65536 placed 0 rewritten 0 overwritten 0 discarded 0 unpatched 0 padding 0\nbuffer 2 ring bytes 65536 placed 0 rewritten 0 overwritten 0 discarded 0 unpatched 0 padding 0\nsequence 2 begun 0 delivered 0 dropped 0 overwritten 0 discarded 0 cut 0\nraw 5 wrong target 1\n",
    },
    // A line for another buffer excepts its writer all the same, and a packet dropped at its begin is counted of the others alone.
    Row {
        command: "replay",
        input: b"buffer 64 ring\nbuffer 64 ring\nproducer 1 4096 1\nwriter 1 1 drop\nwriter 1 1 drop\nwriter 1 1 drop\np 1 8:1\np 2 8:2\np 3 8:3\nq\nraw 2 0 1 0 2 x'00'\n",
        status: 0,
        trace: b"\x0A\x07\x40\x01\x50\x02\xD0\x02\x01",
        text: b"buffer 1 ring bytes 65536 placed 1 rewritten 0 overwritten 0 discarded 0 unpatched 0 padding 0\nbuffer 2 ring bytes 65536 placed 0 rewritten 0 overwritten 0 discarded 0 unpatched 0 padding 0\nsequence 2 begun 1 delivered 1 dropped 0 overwritten 0 discarded 0 cut 0\nsequence 3 begun 0 delivered 0 dropped 0 overwritten 0 discarded 0 cut 0\nsequence 4 begun 1 delivered 0 dropped 1 overwritten 0 discarded 0 cut 0\nflush 1 chunks 1\nraw 11 wrong target 1\n",
    },
    // A chunk of no fragments can't be read.
    Row {
        command: "replay",
        input: b"buffer 64 ring\nproducer 1 4096 14\nwriter 1 1 drop\nraw 1 0 0 0 1 x''\n",
        status: 0,
        trace: b"",
        text: b"buffer 1 ring bytes 65536 placed 0 rewritten 0 overwritten 0 discarded 0 unpatched 0 padding 0\nsequence 2 begun 0 delivered 0 dropped 0 overwritten 0 discarded 0 cut 0\nraw 4 bad chunk 0\n",
    },
    // A packet without bytes, and one of zeros behind what is given.
    Row {
        command: "replay",
        input: b"buffer 64 ring\nproducer 1 4096 14\nwriter 1 1 drop\nraw 1 0 1 0 1 x'00'\nraw 1 1 2 0 1 x'024005'\nraw 1 2 1 0 1 x'0240'\n",
        status: 0,
        trace: b"\x0A\x05\x50\x02\xD0\x02\x01\x0A\x04\x40\x05\x50\x02\x0A\x02\x50\x02\x0A\x04\x40\x00\x50\x02",
        text: b"buffer 1 ring bytes 65536 placed 3 rewritten 0 overwritten 0 discarded 0 unpatched 0 padding 0\nsequence 2 begun 4 delivered 4 dropped 0 overwritten 0 discarded 0 cut 0\nraw 4 kept\nraw 5 kept\nraw 6 kept\n",
    },
    // Field 42 may stand; a group, wire type 7 and field 0 may not, each in a chunk of its own.
    Row {
        command: "replay",
        input: b"buffer 64 ring\nproducer 1 4096 14\nwriter 1 1 drop\nraw 1 0 1 0 1 x'03d00201'\nraw 1 1 1 0 1 x'010b'\nraw 1 2 1 0 1 x'0107'\nraw 1 3 1 0 1 x'0100'\n",
        status: 0,
        trace: b"\x0A\x08\xD0\x02\x01\x50\x02\xD0\x02\x01",
        text: b"buffer 1 ring bytes 65536 placed 4 rewritten 0 overwritten 0 discarded 0 unpatched 0 padding 0\nsequence 2 begun 4 delivered 1 dropped 0 overwritten 0 discarded 0 cut 3\nraw 4 kept\nraw 5 kept\nraw 6 kept\nraw 7 kept\n",
    },
    // A drop mark counts as dropped; one before the last fragment can't be read.
    Row {
        command: "replay",
        input: b"buffer 64 ring\nproducer 1 4096 14\nwriter 1 1 drop\nraw 1 0 1 0 1 x'ffffff7f'\nraw 1 1 2 0 1 x'ffffff7f0240'\n",
        status: 0,
        trace: b"",
        text: b"buffer 1 ring bytes 65536 placed 1 rewritten 0 overwritten 0 discarded 0 unpatched 0 padding 0\nsequence 2 begun 1 delivered 0 dropped 1 overwritten 0 discarded 0 cut 0\nraw 4 kept\nraw 5 bad chunk 0\n",
    },
    // A continuation without a start is passed, and counted nowhere.
    Row {
        command: "replay",
        input: b"buffer 64 ring\nproducer 1 4096 14\nwriter 1 1 drop\nraw 1 0 1 1 1 x'024005'\n",
        status: 0,
        trace: b"",
        text: b"buffer 1 ring bytes 65536 placed 1 rewritten 0 overwritten 0 discarded 0 unpatched 0 padding 0\nsequence 2 begun 0 delivered 0 dropped 0 overwritten 0 discarded 0 cut 0\nraw 4 kept\n",
    },
    // A packet that runs on and never goes on is cut.
    Row {
        command: "replay",
        input: b"buffer 64 ring\nproducer 1 4096 14\nwriter 1 1 drop\nraw 1 0 1 2 1 x'024005'\n",
        status: 0,
        trace: b"",
        text: b"buffer 1 ring bytes 65536 placed 1 rewritten 0 overwritten 0 discarded 0 unpatched 0 padding 0\nsequence 2 begun 1 delivered 0 dropped 0 overwritten 0 discarded 0 cut 1\nraw 4 kept\n",
    },
    // A patch that comes with its chunk.
    Row {
        command: "replay",
        input: b"buffer 64 ring\nproducer 1 4096 14\nwriter 1 1 drop\nraw 1 0 1 4 1 x'06400540014002' 0 3 x'40034004' last\n",
        status: 0,
        trace: b"\x0A\x0B\x40\x05\x40\x03\x40\x04\x50\x02\xD0\x02\x01",
        text: b"buffer 1 ring bytes 65536 placed 1 rewritten 0 overwritten 0 discarded 0 unpatched 0 padding 0\nsequence 2 begun 1 delivered 1 dropped 0 overwritten 0 discarded 0 cut 0\nraw 4 kept\n",
    },
    // A patch into the size of a fragment goes nowhere, and neither does one that isn't the last end the waiting.
    Row {
        command: "replay",
        input: b"buffer 64 ring\nproducer 1 4096 14\nwriter 1 1 drop\nraw 1 0 1 4 1 x'06400540014002' 0 0 x'40034004' last\n",
        status: 0,
        trace: b"",
        text: b"buffer 1 ring bytes 65536 placed 1 rewritten 0 overwritten 0 discarded 0 unpatched 1 padding 0\nsequence 2 begun 1 delivered 0 dropped 0 overwritten 0 discarded 0 cut 1\nraw 4 kept\n",
    },
    Row {
        command: "replay",
        input: b"buffer 64 ring\nproducer 1 4096 14\nwriter 1 1 drop\nraw 1 0 1 4 1 x'06400540014002' 0 3 x'40034004' more\n",
        status: 0,
        trace: b"",
        text: b"buffer 1 ring bytes 65536 placed 1 rewritten 0 overwritten 0 discarded 0 unpatched 1 padding 0\nsequence 2 begun 1 delivered 0 dropped 0 overwritten 0 discarded 0 cut 1\nraw 4 kept\n",
    },
    // A patch outside the chunk, one for a chunk that isn't there, and one that comes twice.
    Row {
        command: "replay",
        input: b"buffer 64 ring\nproducer 1 4096 14\nwriter 1 1 drop\nraw 1 0 1 4 1 x'06400540014002' 0 281 x'40034004' last\nraw 1 1 1 0 1 x'024001' 7 1 x'40034004' last\nraw 1 2 1 0 1 x'024002' 0 1 x'40074008' last\nraw 1 3 1 0 1 x'024003' 0 1 x'40094009' last\n",
        status: 0,
        trace: b"\x0A\x0B\x40\x07\x40\x08\x40\x02\x50\x02\xD0\x02\x01\x0A\x04\x40\x01\x50\x02\x0A\x04\x40\x02\x50\x02\x0A\x04\x40\x03\x50\x02",
        text: b"buffer 1 ring bytes 65536 placed 4 rewritten 0 overwritten 0 discarded 0 unpatched 0 padding 0\nsequence 2 begun 4 delivered 4 dropped 0 overwritten 0 discarded 0 cut 0\nraw 4 kept\nraw 5 kept\nraw 6 kept\nraw 7 kept\n",
    },
    // 1,023 positions may be ahead of the least missing one, and no more.
    Row {
        command: "replay",
        input: b"buffer 64 ring\nproducer 1 4096 14\nwriter 1 1 drop\nraw 1 1023 1 0 1 x'024005'\nraw 1 1024 1 0 1 x'024005'\n",
        status: 0,
        trace: b"\x0A\x07\x40\x05\x50\x02\xD0\x02\x01",
        text: b"buffer 1 ring bytes 65536 placed 1 rewritten 0 overwritten 0 discarded 0 unpatched 0 padding 0\nsequence 2 begun 1 delivered 1 dropped 0 overwritten 0 discarded 0 cut 0\nraw 4 kept\nraw 5 too far\n",
    },
    // The writer's own chunk comes behind one with its id, and is refused.
    Row {
        command: "replay",
        input: b"buffer 64 ring\nproducer 1 4096 14\nwriter 1 1 drop\nraw 1 0 1 0 1 x'024007'\np 1 8:1\nf 1\nc 1\n",
        status: 0,
        trace: b"\x0A\x07\x40\x07\x50\x02\xD0\x02\x01",
        text: b"buffer 1 ring bytes 65536 placed 1 rewritten 0 overwritten 0 discarded 0 unpatched 0 padding 0\nsequence 2 begun 1 delivered 1 dropped 0 overwritten 0 discarded 0 cut 0\nraw 4 kept\n",
    },
    // A part that was scraped is replaced by a chunk with its id.
    Row {
        command: "replay",
        input: b"buffer 64 ring\nproducer 1 4096 14\nwriter 1 1 drop\np 1 8:1\np 1 8:2\ns 1\nraw 1 0 3 0 1 x'024001024002024003'\n",
        status: 0,
        trace: b"\x0A\x07\x40\x01\x50\x02\xD0\x02\x01\x0A\x04\x40\x02\x50\x02\x0A\x04\x40\x03\x50\x02",
        text: b"buffer 1 ring bytes 65536 placed 1 rewritten 1 overwritten 0 discarded 0 unpatched 0 padding 0\nsequence 2 begun 3 delivered 3 dropped 0 overwritten 0 discarded 0 cut 0\nraw 7 rewritten\n",
    },
    // A full buffer that discards.
    Row {
        command: "replay",
        input: b"buffer 4 discard\nproducer 1 4096 1\nwriter 1 1 drop\nwriter 1 1 drop\nraw 1 0 1 0 1 x'024005'\nraw 1 1 1 0 1 x'024006'\np 2 8:7\n",
        status: 0,
        trace: b"\x0A\x07\x40\x05\x50\x02\xD0\x02\x01",
        text: b"buffer 1 discard bytes 4096 placed 1 rewritten 0 overwritten 0 discarded 2 unpatched 0 padding 0\nsequence 2 begun 2 delivered 1 dropped 0 overwritten 0 discarded 1 cut 0\nsequence 3 begun 1 delivered 0 dropped 0 overwritten 0 discarded 1 cut 0\nraw 5 kept\nraw 6 discarded\n",
    },
    // A packet is begun meanwhile, and ids begin at the last one.
    Row {
        command: "replay",
        input: b"buffer 64 ring\nproducer 1 4096 14\nwriter 1 1 drop from 4294967295\nb 1\nraw 1 4294967295 1 0 1 x'024005'\nraw 1 0 1 0 1 x'024006'\nraw 1 4294967294 1 0 1 x'024006'\na 1 8:1\ne 1\n",
        status: 0,
        trace: b"\x0A\x07\x40\x05\x50\x02\xD0\x02\x01\x0A\x04\x40\x06\x50\x02",
        text: b"buffer 1 ring bytes 65536 placed 2 rewritten 0 overwritten 0 discarded 0 unpatched 0 padding 0\nsequence 2 begun 2 delivered 2 dropped 0 overwritten 0 discarded 0 cut 0\nraw 5 kept\nraw 6 kept\nraw 7 too far\n",
    },
    // A clone has what was committed, and the report of `clone` the answers before its own lines.
    Row {
        command: "clone",
        input: b"buffer 64 ring\nproducer 1 4096 14\nwriter 1 1 drop\nraw 1 0 1 0 1 x'024005'\nk 1\nraw 1 1 1 0 1 x'024006'\n",
        status: 0,
        trace: b"\x0A\x07\x40\x05\x50\x02\xD0\x02\x01",
        text: b"buffer 1 ring bytes 65536 placed 2 rewritten 0 overwritten 0 discarded 0 unpatched 0 padding 0\nsequence 2 begun 2 delivered 2 dropped 0 overwritten 0 discarded 0 cut 0\nraw 4 kept\nraw 6 kept\nclone 1 buffer 1 delivered 1\n",
    },
    // Of two references the buffer's comes first.
    Row {
        command: "replay",
        input: b"buffer 64 ring\nproducer 1 4096 14\nwriter 1 1 drop\nraw 2 0 1 0 9 x'00'\n",
        status: 3,
        trace: b"",
        text: b"line 4: no such buffer\n",
    },
    Row {
        command: "replay",
        input: b"buffer 64 ring\nproducer 1 4096 14\nwriter 1 1 drop\nraw 2 0 1 0 1 x'00'\n",
        status: 3,
        trace: b"",
        text: b"line 4: no such writer\n",
    },
    // Ranges come before references.
    Row {
        command: "replay",
        input: b"buffer 64 ring\nproducer 1 4096 14\nwriter 1 1 drop\nraw 9 4294967296 1 0 9 x'00'\n",
        status: 3,
        trace: b"",
        text: b"line 4: number out of range\n",
    },
    Row {
        command: "replay",
        input: b"buffer 64 ring\nproducer 1 4096 14\nwriter 1 1 drop\nraw 1 0 1024 0 1 x'00'\n",
        status: 3,
        trace: b"",
        text: b"line 4: number out of range\n",
    },
    Row {
        command: "replay",
        input: b"buffer 64 ring\nproducer 1 4096 14\nwriter 1 1 drop\nraw 1 0 1 64 1 x'00'\n",
        status: 3,
        trace: b"",
        text: b"line 4: number out of range\n",
    },
    Row {
        command: "replay",
        input: b"buffer 64 ring\nproducer 1 4096 14\nwriter 1 1 drop\nraw 1 0 1 0 1 x'00' 0 4294967296 x'00000000' last\n",
        status: 3,
        trace: b"",
        text: b"line 4: number out of range\n",
    },
    Row {
        command: "replay",
        input: b"buffer 64 ring\nproducer 1 4096 14\nwriter 1 1 drop\nraw 1 0 1 0 300 x'00'\n",
        status: 3,
        trace: b"",
        text: b"line 4: no such buffer\n",
    },
    // A closed producer comes before a payload that is too long.
    Row {
        command: "replay",
        input: b"buffer 64 ring\nproducer 1 4096 14\nwriter 1 1 drop\nx 1\nraw 1 0 1 0 1 x'000000000000000000000000000000000000000000000000000000000000000000000000000000000000000000000000000000000000000000000000000000000000000000000000000000000000000000000000000000000000000000000000000000000000000000000000000000000000000000000000000000000000000000000000000000000000000000000000000000000000000000000000000000000000000000000000000000000000000000000000000000000000000000000000000000000000000000000000000000000000000000000000000000000000000000000000000000000000000000000000000000000000000000000000000000000000000000000000000000000000000000000000000000000000000000'\n",
        status: 3,
        trace: b"",
        text: b"line 5: producer closed\n",
    },
    Row {
        command: "replay",
        input: b"buffer 64 ring\nproducer 1 4096 14\nwriter 1 1 drop\nraw 1 0 1 0 1 x'000000000000000000000000000000000000000000000000000000000000000000000000000000000000000000000000000000000000000000000000000000000000000000000000000000000000000000000000000000000000000000000000000000000000000000000000000000000000000000000000000000000000000000000000000000000000000000000000000000000000000000000000000000000000000000000000000000000000000000000000000000000000000000000000000000000000000000000000000000000000000000000000000000000000000000000000000000000000000000000000000000000000000000000000000000000000000000000000000000000000000000000000000000000000000000'\n",
        status: 3,
        trace: b"",
        text: b"line 4: raw too long\n",
    },
    // Other forms.
    Row {
        command: "replay",
        input: b"buffer 64 ring\nproducer 1 4096 14\nwriter 1 1 drop\nraw 1 0 1 0 1 x'0'\n",
        status: 3,
        trace: b"",
        text: b"line 4: bad line\n",
    },
    Row {
        command: "replay",
        input: b"buffer 64 ring\nproducer 1 4096 14\nwriter 1 1 drop\nraw 1 0 1 0 1 x'03D00201'\n",
        status: 3,
        trace: b"",
        text: b"line 4: bad line\n",
    },
    Row {
        command: "replay",
        input: b"buffer 64 ring\nproducer 1 4096 14\nwriter 1 1 drop\nraw 1 0 1 0 1 x'00' 0 0 x'000000' last\n",
        status: 3,
        trace: b"",
        text: b"line 4: bad line\n",
    },
    Row {
        command: "replay",
        input: b"buffer 64 ring\nproducer 1 4096 14\nwriter 1 1 drop\nraw 1 0 1 0 1 x'00' \n",
        status: 3,
        trace: b"",
        text: b"line 4: bad line\n",
    },
    // Not for every command, and the first such line counts.
    Row {
        command: "run",
        input: b"buffer 64 ring\nproducer 1 4096 14\nwriter 1 1 drop\nraw 1 0 1 0 1 x'00'\nx 1\n",
        status: 3,
        trace: b"",
        text: b"line 4: not under run\n",
    },
    Row {
        command: "check",
        input: b"buffer 64 ring\nproducer 1 4096 14\nwriter 1 1 drop\nk 1\nraw 1 0 1 0 1 x'00'\n==\n",
        status: 3,
        trace: b"",
        text: b"line 4: not under check\n",
    },
    Row {
        command: "check",
        input: b"buffer 64 ring\nproducer 1 4096 14\nwriter 1 1 drop\nraw 1 0 1 0 1 x'00'\nk 1\n",
        status: 3,
        trace: b"",
        text: b"line 4: not under check\n",
    },
];

#[test]
fn plays_raw_lines(rt: HostRuntime) -> Result<(), Fail> {
    for row in &ROWS {
        let played = play(&rt, &[row.command], row.input)?;
        assert_eq!(rt; played.status, row.status);
        assert_eq!(rt; played.trace.taken(), row.trace);
        assert_eq!(rt; played.text.taken(), row.text);
    }
    Ok(())
}
