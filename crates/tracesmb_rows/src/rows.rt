//! Inputs with the status, the trace and the text that they must have.
use crate::play::play;
use std::test::Fail;

#[derive(Clone, Copy)]
pub(crate) struct Row {
    pub input: &'static [u8],
    pub status: u8,
    pub trace: &'static [u8],
    pub text: &'static [u8],
}

pub(crate) static ROWS: [Row; 37] = [
    // One packet of one number field.
    Row {
        input: b"buffer 64 ring\nproducer 1 4096 14\nwriter 1 1 drop\np 1 8:5\n",
        status: 0,
        trace: b"\x0A\x07\x40\x05\x50\x02\xD0\x02\x01",
        text: b"buffer 1 ring bytes 65536 placed 1 rewritten 0 overwritten 0 discarded 0 unpatched 0 padding 0\nsequence 2 begun 1 delivered 1 dropped 0 overwritten 0 discarded 0 cut 0\n",
    },
    // A nested message with a text and a number; its length has four bytes.
    Row {
        input: b"buffer 64 ring\nproducer 1 4096 14\nwriter 1 1 drop\np 1 900{1:\"hi\" 2:7}\n",
        status: 0,
        trace: b"\x0A\x11\xA2\x38\x86\x80\x80\x00\x0A\x02hi\x10\x07\x50\x02\xD0\x02\x01",
        text: b"buffer 1 ring bytes 65536 placed 1 rewritten 0 overwritten 0 discarded 0 unpatched 0 padding 0\nsequence 2 begun 1 delivered 1 dropped 0 overwritten 0 discarded 0 cut 0\n",
    },
    // Nothing.
    Row {
        input: b"",
        status: 0,
        trace: b"",
        text: b"",
    },
    // A packet without fields.
    Row {
        input: b"buffer 64 ring\nproducer 1 4096 14\nwriter 1 1 drop\np 1\n",
        status: 0,
        trace: b"\x0A\x05\x50\x02\xD0\x02\x01",
        text: b"buffer 1 ring bytes 65536 placed 1 rewritten 0 overwritten 0 discarded 0 unpatched 0 padding 0\nsequence 2 begun 1 delivered 1 dropped 0 overwritten 0 discarded 0 cut 0\n",
    },
    // The first packet alone is marked; numbers and tags of several bytes.
    Row {
        input: b"buffer 4 ring\nproducer 64 4096 1\nwriter 1 1 drop\np 1 8:1 900:300\np 1 536870911:0\np 1 1:18446744073709551615\n",
        status: 0,
        trace: b"\x0A\x0B\x40\x01\xA0\x38\xAC\x02\x50\x02\xD0\x02\x01\x0A\x08\xF8\xFF\xFF\xFF\x0F\x00\x50\x02\x0A\x0D\x08\xFF\xFF\xFF\xFF\xFF\xFF\xFF\xFF\xFF\x01\x50\x02",
        text: b"buffer 1 ring bytes 4096 placed 1 rewritten 0 overwritten 0 discarded 0 unpatched 0 padding 0\nsequence 2 begun 3 delivered 3 dropped 0 overwritten 0 discarded 0 cut 0\n",
    },
    // Texts that repeat, bytes, an empty text, a message in a message; a reserved number is one at the top level alone.
    Row {
        input: b"buffer 64 ring\nproducer 1 4096 14\nwriter 1 1 drop\np 1 1:\"ab\"*3 2:x'00ff' 4:\"\"\np 1 8{9{10:1} 11{}} 12:0\n",
        status: 0,
        trace: b"\x0A\x13\x0A\x06ababab\x12\x02\x00\xFF\x22\x00\x50\x02\xD0\x02\x01\x0A\x15\x42\x8C\x80\x80\x00\x4A\x82\x80\x80\x00\x50\x01\x5A\x80\x80\x80\x00\x60\x00\x50\x02",
        text: b"buffer 1 ring bytes 65536 placed 1 rewritten 0 overwritten 0 discarded 0 unpatched 0 padding 0\nsequence 2 begun 2 delivered 2 dropped 0 overwritten 0 discarded 0 cut 0\n",
    },
    // Lines that say nothing, before the set-up, in it and behind it.
    Row {
        input: b"# a scenario\n\nbuffer 64 ring\n#\nproducer 1 4096 14\n\nwriter 1 1 drop\n# a packet\np 1 8:5\n\n",
        status: 0,
        trace: b"\x0A\x07\x40\x05\x50\x02\xD0\x02\x01",
        text: b"buffer 1 ring bytes 65536 placed 1 rewritten 0 overwritten 0 discarded 0 unpatched 0 padding 0\nsequence 2 begun 1 delivered 1 dropped 0 overwritten 0 discarded 0 cut 0\n",
    },
    // No packet.
    Row {
        input: b"buffer 65536 ring\nproducer 1 4096 7\nwriter 1 1 drop\n",
        status: 0,
        trace: b"",
        text: b"buffer 1 ring bytes 67108864 placed 0 rewritten 0 overwritten 0 discarded 0 unpatched 0 padding 0\nsequence 2 begun 0 delivered 0 dropped 0 overwritten 0 discarded 0 cut 0\n",
    },
    // A set-up that stops early.
    Row {
        input: b"producer 1 4096 14\n",
        status: 0,
        trace: b"",
        text: b"",
    },
    // A discard buffer.
    Row {
        input: b"buffer 64 discard\n",
        status: 0,
        trace: b"",
        text: b"buffer 1 discard bytes 65536 placed 0 rewritten 0 overwritten 0 discarded 0 unpatched 0 padding 0\n",
    },
    // Two buffers.
    Row {
        input: b"buffer 64 ring\n# a second one\nbuffer 64 ring\n",
        status: 0,
        trace: b"",
        text: b"buffer 1 ring bytes 65536 placed 0 rewritten 0 overwritten 0 discarded 0 unpatched 0 padding 0\nbuffer 2 ring bytes 65536 placed 0 rewritten 0 overwritten 0 discarded 0 unpatched 0 padding 0\n",
    },
    // Producers without writers.
    Row {
        input: b"producer 1 8192 14\n",
        status: 0,
        trace: b"",
        text: b"",
    },
    Row {
        input: b"producer 1 4096 14\nproducer 1 4096 14\n",
        status: 0,
        trace: b"",
        text: b"",
    },
    // A writer that would stall, and one that has nothing to do.
    Row {
        input: b"buffer 64 ring\nproducer 1 4096 14\nwriter 1 1 stall\n",
        status: 0,
        trace: b"",
        text: b"buffer 1 ring bytes 65536 placed 0 rewritten 0 overwritten 0 discarded 0 unpatched 0 padding 0\nsequence 2 begun 0 delivered 0 dropped 0 overwritten 0 discarded 0 cut 0\n",
    },
    Row {
        input: b"buffer 64 ring\nproducer 1 4096 14\nwriter 1 1 drop\nwriter 1 1 drop\np 1\n",
        status: 0,
        trace: b"\x0A\x05\x50\x02\xD0\x02\x01",
        text: b"buffer 1 ring bytes 65536 placed 1 rewritten 0 overwritten 0 discarded 0 unpatched 0 padding 0\nsequence 2 begun 1 delivered 1 dropped 0 overwritten 0 discarded 0 cut 0\nsequence 3 begun 0 delivered 0 dropped 0 overwritten 0 discarded 0 cut 0\n",
    },
    // A packet in steps.
    Row {
        input: b"buffer 64 ring\nproducer 1 4096 14\nwriter 1 1 drop\np 1\nb 1\ne 1\n",
        status: 0,
        trace: b"\x0A\x05\x50\x02\xD0\x02\x01\x0A\x02\x50\x02",
        text: b"buffer 1 ring bytes 65536 placed 1 rewritten 0 overwritten 0 discarded 0 unpatched 0 padding 0\nsequence 2 begun 2 delivered 2 dropped 0 overwritten 0 discarded 0 cut 0\n",
    },
    // Each line that finds nothing to do.
    Row {
        input: b"buffer 64 ring\nproducer 1 4096 14\nwriter 1 1 drop\nf 1\n",
        status: 0,
        trace: b"",
        text: b"buffer 1 ring bytes 65536 placed 0 rewritten 0 overwritten 0 discarded 0 unpatched 0 padding 0\nsequence 2 begun 0 delivered 0 dropped 0 overwritten 0 discarded 0 cut 0\n",
    },
    Row {
        input: b"producer 1 4096 14\nc 1\n",
        status: 0,
        trace: b"",
        text: b"",
    },
    Row {
        input: b"producer 1 4096 14\n\ns 1\n",
        status: 0,
        trace: b"",
        text: b"",
    },
    Row {
        input: b"producer 1 4096 14\nx 1\n",
        status: 0,
        trace: b"",
        text: b"",
    },
    Row {
        input: b"buffer 64 ring\nr 1\n",
        status: 0,
        trace: b"",
        text: b"buffer 1 ring bytes 65536 placed 0 rewritten 0 overwritten 0 discarded 0 unpatched 0 padding 0\n",
    },
    Row {
        input: b"buffer 64 ring\nr 1 5\n",
        status: 0,
        trace: b"",
        text: b"buffer 1 ring bytes 65536 placed 0 rewritten 0 overwritten 0 discarded 0 unpatched 0 padding 0\n",
    },
    // A flush request that nobody answers.
    Row {
        input: b"q\n",
        status: 0,
        trace: b"",
        text: b"flush 1 chunks 0\n",
    },
    Row {
        input: b"producer 1 8192 14\nq\n",
        status: 0,
        trace: b"",
        text: b"flush 1 chunks 0\n",
    },
    // A packet is lost behind one that awaits a patch.
    Row {
        input: b"buffer 64 ring\nproducer 1 4096 14\nwriter 1 1 drop\np 1 900{1:\"x\"*300}\nb 1\nc 1\nx 1\n",
        status: 0,
        trace: b"",
        text: b"buffer 1 ring bytes 65536 placed 1 rewritten 0 overwritten 0 discarded 0 unpatched 1 padding 0\nsequence 2 begun 2 delivered 0 dropped 0 overwritten 0 discarded 0 cut 2\n",
    },
    // The first record fills the buffer, and the second overwrites it.
    Row {
        input: b"buffer 4 ring\nproducer 2 4096 1\nwriter 1 1 drop\np 1 8:1\nf 1\np 1 8:2\n",
        status: 0,
        trace: b"\x0A\x07\x40\x02\x50\x02\xD0\x02\x01",
        text: b"buffer 1 ring bytes 4096 placed 2 rewritten 0 overwritten 1 discarded 0 unpatched 0 padding 0\nsequence 2 begun 2 delivered 1 dropped 0 overwritten 1 discarded 0 cut 0\n",
    },
    // The second packet of writer 2 finds no chunk.
    Row {
        input: b"buffer 64 ring\nproducer 1 4096 1\nwriter 1 1 drop\nwriter 1 1 drop\np 2 8:1\nf 2\nc 1\np 1 8:5\np 2 8:7\nf 1\nc 1\np 2 8:6\n",
        status: 0,
        trace: b"\x0A\x07\x40\x05\x50\x02\xD0\x02\x01\x0A\x07\x40\x01\x50\x03\xD0\x02\x01\x0A\x07\xD0\x02\x01\x40\x06\x50\x03",
        text: b"buffer 1 ring bytes 65536 placed 3 rewritten 0 overwritten 0 discarded 0 unpatched 0 padding 0\nsequence 2 begun 1 delivered 1 dropped 0 overwritten 0 discarded 0 cut 0\nsequence 3 begun 3 delivered 2 dropped 1 overwritten 0 discarded 0 cut 0\n",
    },
    // A scrape brings one packet, its record is overwritten, and the whole chunk comes later.
    Row {
        input: b"buffer 4 ring\nproducer 2 4096 1\nwriter 1 1 drop\nwriter 1 1 drop\np 1 8:1\np 1 8:2\ns 1\nr 1\np 2 8:9\nf 2\nc 1\nr 1\nf 1\n",
        status: 0,
        trace: b"\x0A\x07\x40\x01\x50\x02\xD0\x02\x01\x0A\x07\x40\x09\x50\x03\xD0\x02\x01\x0A\x04\x40\x02\x50\x02",
        text: b"buffer 1 ring bytes 4096 placed 3 rewritten 0 overwritten 0 discarded 0 unpatched 0 padding 0\nsequence 2 begun 2 delivered 2 dropped 0 overwritten 0 discarded 0 cut 0\nsequence 3 begun 1 delivered 1 dropped 0 overwritten 0 discarded 0 cut 0\n",
    },
    // A packet runs out in the last chunk.
    Row {
        input: b"buffer 64 ring\nproducer 1 4096 2\nwriter 1 1 drop\np 1 8:1\np 1 900{1:\"x\"*5000}\nc 1\np 1 8:2\n",
        status: 0,
        trace: b"\x0A\x07\x40\x01\x50\x02\xD0\x02\x01\x0A\x0A\xD0\x02\x01\x40\x02\x50\x02\xD0\x02\x01",
        text: b"buffer 1 ring bytes 65536 placed 3 rewritten 0 overwritten 0 discarded 0 unpatched 0 padding 0\nsequence 2 begun 3 delivered 2 dropped 1 overwritten 0 discarded 0 cut 0\n",
    },
    // Writer 2 stalls, and nothing was read before.
    Row {
        input: b"buffer 64 ring\nproducer 1 4096 1\nwriter 1 1 stall\nwriter 1 1 stall\np 1 8:1\np 2 8:2\n",
        status: 6,
        trace: b"",
        text: b"stalled: writer 2\n",
    },
    // It stalls behind a read, whose record stays.
    Row {
        input: b"buffer 64 ring\nproducer 1 4096 1\nwriter 1 1 stall\nwriter 1 1 stall\np 1 8:1\nf 1\nc 1\nr 1\np 1 8:3\np 2 8:2\n",
        status: 6,
        trace: b"\x0A\x07\x40\x01\x50\x02\xD0\x02\x01",
        text: b"stalled: writer 2\n",
    },
    // Its helper takes the chunk that the other one flushed.
    Row {
        input: b"buffer 64 ring\nproducer 1 4096 1\nwriter 1 1 stall\nwriter 1 1 stall\np 1 8:1\nf 1\np 2 8:2\n",
        status: 0,
        trace: b"\x0A\x07\x40\x01\x50\x02\xD0\x02\x01\x0A\x07\x40\x02\x50\x03\xD0\x02\x01",
        text: b"buffer 1 ring bytes 65536 placed 2 rewritten 0 overwritten 0 discarded 0 unpatched 0 padding 0\nsequence 2 begun 1 delivered 1 dropped 0 overwritten 0 discarded 0 cut 0\nsequence 3 begun 1 delivered 1 dropped 0 overwritten 0 discarded 0 cut 0\n",
    },
    // Writer 2 asks twice in vain, and drops; the chunk is complete when it is asked for the next packet, and is taken for it.
    Row {
        input: b"buffer 64 ring\nproducer 1 4096 1\nwriter 1 1 drop\nwriter 1 1 stall:2\np 1 8:1\np 2 8:2\nf 1\np 2 8:3\n",
        status: 0,
        trace: b"\x0A\x07\x40\x01\x50\x02\xD0\x02\x01\x0A\x0A\xD0\x02\x01\x40\x03\x50\x03\xD0\x02\x01",
        text: b"buffer 1 ring bytes 65536 placed 2 rewritten 0 overwritten 0 discarded 0 unpatched 0 padding 0\nsequence 2 begun 1 delivered 1 dropped 0 overwritten 0 discarded 0 cut 0\nsequence 3 begun 2 delivered 1 dropped 1 overwritten 0 discarded 0 cut 0\n",
    },
    // It asks in the midst of a packet, while it holds the only chunk, and gives the packet up.
    Row {
        input: b"buffer 64 ring\nproducer 1 4096 1\nwriter 1 1 stall:1\np 1 8:1\np 1 900{1:\"x\"*5000}\np 1 8:2\n",
        status: 0,
        trace: b"\x0A\x07\x40\x01\x50\x02\xD0\x02\x01\x0A\x0A\xD0\x02\x01\x40\x02\x50\x02\xD0\x02\x01",
        text: b"buffer 1 ring bytes 65536 placed 2 rewritten 0 overwritten 0 discarded 0 unpatched 0 padding 0\nsequence 2 begun 3 delivered 2 dropped 1 overwritten 0 discarded 0 cut 0\n",
    },
    // A scraped record is rewritten.
    Row {
        input: b"buffer 64 ring\nproducer 1 4096 14\nwriter 1 1 drop\np 1 8:1\np 1 8:2\ns 1\n",
        status: 0,
        trace: b"\x0A\x07\x40\x01\x50\x02\xD0\x02\x01\x0A\x04\x40\x02\x50\x02",
        text: b"buffer 1 ring bytes 65536 placed 1 rewritten 1 overwritten 0 discarded 0 unpatched 0 padding 0\nsequence 2 begun 2 delivered 2 dropped 0 overwritten 0 discarded 0 cut 0\n",
    },
    // Writer 1 answers a flush request at once, and writer 2 behind its packet.
    Row {
        input: b"buffer 64 ring\nproducer 1 4096 14\nwriter 1 1 drop\nwriter 1 1 drop\np 1 8:1\nb 2\na 2 8:3\nq\nr 1\ne 2\n",
        status: 0,
        trace: b"\x0A\x07\x40\x01\x50\x02\xD0\x02\x01\x0A\x07\x40\x03\x50\x03\xD0\x02\x01",
        text: b"buffer 1 ring bytes 65536 placed 2 rewritten 0 overwritten 0 discarded 0 unpatched 0 padding 0\nsequence 2 begun 1 delivered 1 dropped 0 overwritten 0 discarded 0 cut 0\nsequence 3 begun 1 delivered 1 dropped 0 overwritten 0 discarded 0 cut 0\nflush 1 chunks 2\n",
    },
    // A read with a limit.
    Row {
        input: b"buffer 64 ring\nproducer 1 4096 14\nwriter 1 1 drop\np 1 8:1\np 1 8:2\nf 1\nc 1\nr 1 1\nx 1\n",
        status: 0,
        trace: b"\x0A\x07\x40\x01\x50\x02\xD0\x02\x01\x0A\x04\x40\x02\x50\x02",
        text: b"buffer 1 ring bytes 65536 placed 1 rewritten 0 overwritten 0 discarded 0 unpatched 0 padding 0\nsequence 2 begun 2 delivered 2 dropped 0 overwritten 0 discarded 0 cut 0\n",
    },
];

#[test]
fn plays_rows(rt: HostRuntime) -> Result<(), Fail> {
    for (number, row) in ROWS.iter().enumerate() {
        let played = play(&rt, &["replay"], row.input)?;
        assert_eq!(rt; played.status, row.status, "row {number}");
        assert_eq!(rt; played.trace.taken(), row.trace, "row {number}");
        assert_eq!(rt; played.text.taken(), row.text, "row {number}");
    }
    Ok(())
}

/// Inputs that are refused, and the line that says why.
static REFUSALS: [(&[u8], &[u8]); 6] = [
    // By the grammar.
    (b"buffer 4 ring", b"line 1: unfinished line\n"),
    (
        b"buffer 64 ring\nproducer 1 4096 14\nwriter 1 1 drop\np 1 10:5\n",
        b"line 4: reserved field 10\n",
    ),
    (
        b"buffer 64 ring\nproducer 1 4096 14\nwriter 1 1 drop\np 1 8:1  9:1\n",
        b"line 4: bad field at column 9\n",
    ),
    (
        b"buffer 64 ring\nbuffer 3 ring\n",
        b"line 2: number out of range\n",
    ),
    (b"buffer 64 ring\nplay\n", b"line 2: bad line\n"),
    // The grammar comes first, wherever its fault stands.
    (
        b"buffer 64 discard\nq\nbuffer 64 ring\n",
        b"line 3: late set-up\n",
    ),
];

#[test]
fn refuses_what_is_no_scenario(rt: HostRuntime) -> Result<(), Fail> {
    for (number, (input, line)) in REFUSALS.iter().enumerate() {
        let played = play(&rt, &["replay"], input)?;
        assert_eq!(rt; played.text.taken(), *line, "row {number}");
        assert_eq!(rt; played.status, 3, "row {number}");
        assert_eq!(rt; played.trace.taken(), b"".as_slice(), "row {number}");
    }
    Ok(())
}

/// What the report says of one packet that was delivered.
const DELIVERED: &[u8] =
    b"sequence 2 begun 1 delivered 1 dropped 0 overwritten 0 discarded 0 cut 0\n";

// A packet that runs on in a second chunk, and its record.
#[test]
fn plays_a_packet_of_two_chunks(rt: HostRuntime) -> Result<(), Fail> {
    let played = play(
        &rt,
        &["replay"],
        b"buffer 64 ring\nproducer 1 4096 14\nwriter 1 1 drop\np 1 1:\"x\"*297\n",
    )?;
    let mut trace = Vec::from_slice(rt.alloc(), b"\x0A\xB1\x02\x0A\xA9\x02")?;
    trace.extend_from_slice(&[b'x'; 297])?;
    trace.extend_from_slice(b"\x50\x02\xD0\x02\x01")?;
    assert_eq!(rt; played.status, 0);
    assert_eq!(rt; played.trace.taken(), trace.as_slice());
    assert!(rt;
        played
            .text
            .taken()
            .starts_with(b"buffer 1 ring bytes 65536 placed 2 ")
    );
    assert!(rt; played.text.taken().ends_with(DELIVERED));
    Ok(())
}

/// Command lines, with a blank between two words.
struct Command {
    line: &'static str,
    input: &'static [u8],
    status: u8,
    trace: &'static [u8],
    text: &'static [u8],
}

static COMMANDS: [Command; 16] = [
    // A workload, which reads nothing.
    Command {
        line: "gen 0 1 1",
        input: b"play\n",
        status: 0,
        trace: b"buffer 65536 ring\nproducer 16 4096 14\nwriter 1 1 stall\np 1 8:7 900{1:\"n\"*24 2:1}\n",
        text: b"",
    },
    // Two sequences, each with its totals, and then those of all.
    Command {
        line: "read",
        input: b"\x0A\x07\x40\x01\x50\x02\xD0\x02\x01\x0A\x07\x40\x09\x50\x03\xD0\x02\x01\x0A\x04\x40\x02\x50\x02",
        status: 0,
        trace: b"sequence 2 packets 2 marked 1 bytes 11\nsequence 3 packets 1 marked 1 bytes 7\npackets 3 bytes 18\n",
        text: b"",
    },
    Command {
        line: "read",
        input: b"",
        status: 0,
        trace: b"packets 0 bytes 0\n",
        text: b"",
    },
    // The last record is cut short.
    Command {
        line: "read",
        input: b"\x0A\x04\x40\x02\x50\x02\x0A\x07\x40",
        status: 3,
        trace: b"",
        text: b"offset 6: cut short\n",
    },
    // A group begins.
    Command {
        line: "read",
        input: b"\x0A\x00\x0B",
        status: 3,
        trace: b"",
        text: b"offset 2: group\n",
    },
    // A field of a record passes the record's end.
    Command {
        line: "read",
        input: b"\x0A\x03\x40\x02\x50\x02",
        status: 3,
        trace: b"",
        text: b"offset 4: bad record\n",
    },
    // No writers.
    Command {
        line: "gen 0 0 1",
        input: b"",
        status: 2,
        trace: b"",
        text: USAGE,
    },
    // A number with a leading zero.
    Command {
        line: "gen 00 1 1",
        input: b"",
        status: 2,
        trace: b"",
        text: USAGE,
    },
    // A user alone, in one turn and two, whatever the collector does meanwhile; and one user too many.
    Command {
        line: "tune 1 1",
        input: b"play\n",
        status: 0,
        trace: b"user 1 claimed 1 none 0 retiled 0 refused 0\ntaken 1\npage 1 generation 0 chunks 14\npage 2 generation 0 chunks 14\npage 3 generation 0 chunks 14\npage 4 generation 0 chunks 14\n",
        text: b"",
    },
    Command {
        line: "tune 1 2",
        input: b"",
        status: 0,
        trace: b"user 1 claimed 1 none 0 retiled 1 refused 0\ntaken 1\npage 1 generation 0 chunks 14\npage 2 generation 0 chunks 14\npage 3 generation 1 chunks 7\npage 4 generation 0 chunks 14\n",
        text: b"",
    },
    Command {
        line: "tune 9 1",
        input: b"",
        status: 2,
        trace: b"",
        text: USAGE,
    },
    // `run` of one writer, and of none.
    Command {
        line: "run",
        input: b"buffer 64 ring\nproducer 1 4096 14\nwriter 1 1 drop\np 1 8:5\n",
        status: 0,
        trace: b"\x0A\x07\x40\x05\x50\x02\xD0\x02\x01",
        text: b"buffer 1 ring bytes 65536 placed 1 rewritten 0 overwritten 0 discarded 0 unpatched 0 padding 0\nsequence 2 begun 1 delivered 1 dropped 0 overwritten 0 discarded 0 cut 0\n",
    },
    Command {
        line: "run",
        input: b"",
        status: 0,
        trace: b"",
        text: b"",
    },
    // Lines that aren't for threads: the first one counts, a flush request isn't one, and a fault of the grammar comes before all.
    Command {
        line: "run",
        input: b"buffer 64 ring\nproducer 1 4096 14\nwriter 1 1 drop\nx 1\n",
        status: 3,
        trace: b"",
        text: b"line 4: not under run\n",
    },
    Command {
        line: "run",
        input: b"buffer 64 ring\nproducer 1 4096 14\nwriter 1 1 drop\np 1 8:5\nq\nx 1\n",
        status: 3,
        trace: b"",
        text: b"line 6: not under run\n",
    },
    Command {
        line: "run",
        input: b"buffer 64 ring\nproducer 1 4096 14\nwriter 1 1 drop\nx 1\np 1\n",
        status: 3,
        trace: b"",
        text: b"line 5: producer closed\n",
    },
];

#[test]
fn does_other_commands(rt: HostRuntime) -> Result<(), Fail> {
    for command in &COMMANDS {
        let mut words = Vec::new(rt.alloc());
        for word in command.line.split(' ') {
            words.push(word)?;
        }
        let played = play(&rt, &words, command.input)?;
        assert_eq!(rt; played.status, command.status, "{}", command.line);
        assert_eq!(rt; played.trace.taken(), command.trace, "{}", command.line);
        assert_eq!(rt; played.text.taken(), command.text, "{}", command.line);
    }
    Ok(())
}

const USAGE: &[u8] =
    b"usage: tracesmb replay|run|read|check|gen NUMBER WRITERS PACKETS|stream|clone|tune USERS TURNS\n";

static WRONG_WORDS: [&[&str]; 8] = [
    &[],
    &["play"],
    &["replay", "replay"],
    &[""],
    &["-h"],
    &["help"],
    &["Replay"],
    &["replay "],
];

#[test]
fn refuses_words_without_a_written_form(rt: HostRuntime) -> Result<(), Fail> {
    for words in &WRONG_WORDS {
        let played = play(&rt, words, b"")?;
        assert_eq!(rt; played.status, 2);
        assert_eq!(rt; played.text.taken(), USAGE);
        assert_eq!(rt; played.trace.taken(), b"".as_slice());
    }
    Ok(())
}
