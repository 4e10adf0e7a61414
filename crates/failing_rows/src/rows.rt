//! What the commands do where nothing fails: each with an outcome that no thread decides.

/// Words, an input, and what comes of them.
pub(crate) struct Row {
    pub words: &'static [&'static str],
    pub input: &'static [u8],
    pub status: u8,
    pub trace: &'static [u8],
    pub text: &'static [u8],
}

pub(crate) static PLAYED: [Row; 4] = [
    Row {
        words: &["replay"],
        input: b"buffer 4 ring\nproducer 1 4096 14\nwriter 1 1 drop\np 1 8:1\np 1 8:2\n",
        status: 0,
        trace: b"\x0A\x07\x40\x01\x50\x02\xD0\x02\x01\x0A\x04\x40\x02\x50\x02",
        text: b"buffer 1 ring bytes 4096 placed 1 rewritten 0 overwritten 0 discarded 0 unpatched 0 padding 0\nsequence 2 begun 2 delivered 2 dropped 0 overwritten 0 discarded 0 cut 0\n",
    },
    Row {
        words: &["run"],
        input: b"buffer 4 ring\nproducer 1 4096 14\nwriter 1 1 drop\np 1 8:1\np 1 8:2\n",
        status: 0,
        trace: b"\x0A\x07\x40\x01\x50\x02\xD0\x02\x01\x0A\x04\x40\x02\x50\x02",
        text: b"buffer 1 ring bytes 4096 placed 1 rewritten 0 overwritten 0 discarded 0 unpatched 0 padding 0\nsequence 2 begun 2 delivered 2 dropped 0 overwritten 0 discarded 0 cut 0\n",
    },
    Row {
        words: &["stream"],
        input: b"buffers { size_kb: 4 }\ndata_sources { config { name: \"a\" } }\n==\n\x0E\x00\x00\x00\x01\x01\x00\x00\x00\x00\x01\x00\x01\x00\x00\x02\x40\x05\x01\x00\x00\x00\x03",
        status: 0,
        trace: b"\x0A\x07\x40\x05\x50\x02\xD0\x02\x01",
        text: b"buffer 1 ring bytes 4096 placed 1 rewritten 0 overwritten 0 discarded 0 unpatched 0 padding 0\nsequence 2 begun 1 delivered 1 dropped 0 overwritten 0 discarded 0 cut 0\nstream commits 1 refused 0\n",
    },
    Row {
        words: &["clone"],
        input: b"buffer 4 ring\nproducer 1 4096 14\nwriter 1 1 drop\np 1 8:1\nf 1\nc 1\nk 1\n",
        status: 0,
        trace: b"\x0A\x07\x40\x01\x50\x02\xD0\x02\x01",
        text: b"buffer 1 ring bytes 4096 placed 1 rewritten 0 overwritten 0 discarded 0 unpatched 0 padding 0\nsequence 2 begun 1 delivered 1 dropped 0 overwritten 0 discarded 0 cut 0\nclone 1 buffer 1 delivered 1\n",
    },
];

pub(crate) static WRITTEN: [Row; 4] = [
    Row {
        words: &["read"],
        input: b"\x0A\x07\x40\x01\x50\x02\xD0\x02\x01\x0A\x04\x40\x02\x50\x02",
        status: 0,
        trace: b"sequence 2 packets 2 marked 1 bytes 11\npackets 2 bytes 11\n",
        text: b"",
    },
    Row {
        words: &["check"],
        input: b"buffer 4 ring\nproducer 1 4096 14\nwriter 1 1 drop\np 1 8:1\n==\n\x0A\x07\x40\x01\x50\x02\xD0\x02\x01",
        status: 0,
        trace: b"agrees 1\n",
        text: b"",
    },
    Row {
        words: &["gen", "0", "1", "1"],
        input: b"not read\n",
        status: 0,
        trace: b"buffer 65536 ring\nproducer 16 4096 14\nwriter 1 1 stall\np 1 8:7 900{1:\"n\"*24 2:1}\n",
        text: b"",
    },
    Row {
        words: &["tune", "1", "2"],
        input: b"not read\n",
        status: 0,
        trace: b"user 1 claimed 1 none 0 retiled 1 refused 0\ntaken 1\npage 1 generation 0 chunks 14\npage 2 generation 0 chunks 14\npage 3 generation 1 chunks 7\npage 4 generation 0 chunks 14\n",
        text: b"",
    },
];

pub(crate) static REFUSED: [Row; 7] = [
    Row {
        words: &["play"],
        input: b"not read\n",
        status: 2,
        trace: b"",
        text: b"usage: tracesmb replay|run|read|check|gen NUMBER WRITERS PACKETS|stream|clone|tune USERS TURNS\n",
    },
    Row {
        words: &["replay"],
        input: b"p 1\n",
        status: 3,
        trace: b"",
        text: b"line 1: no such writer\n",
    },
    Row {
        words: &["run"],
        input: b"producer 1 4096 14\nx 1\n",
        status: 3,
        trace: b"",
        text: b"line 2: not under run\n",
    },
    Row {
        words: &["read"],
        input: b"\x0A\x05\x50\x02\xD0\x02\x01\x0A\x04\x40\x02\x50",
        status: 3,
        trace: b"",
        text: b"offset 7: cut short\n",
    },
    Row {
        words: &["check"],
        input: b"buffer 4 ring\n",
        status: 3,
        trace: b"",
        text: b"line 2: no trace\n",
    },
    Row {
        words: &["stream"],
        input: b"buffers { size_kb: 4 }\n==\n\x01\x00\x00\x00",
        status: 3,
        trace: b"",
        text: b"offset 4: no end\n",
    },
    Row {
        words: &["clone"],
        input: b"k 1\n",
        status: 3,
        trace: b"",
        text: b"line 1: no such buffer\n",
    },
];

pub(crate) static STALLED: [Row; 2] = [
    Row {
        words: &["replay"],
        input: b"buffer 4 ring\nproducer 1 4096 1\nwriter 1 1 stall\nwriter 1 1 stall\np 1 8:1\nf 1\nc 1\nr 1\np 1 8:2\np 2 8:3\n",
        status: 6,
        trace: b"\x0A\x07\x40\x01\x50\x02\xD0\x02\x01",
        text: b"stalled: writer 2\n",
    },
    Row {
        words: &["clone"],
        input: b"buffer 4 ring\nproducer 1 4096 1\nwriter 1 1 stall\nwriter 1 1 stall\np 1 8:1\nk 1\np 2 8:3\n",
        status: 6,
        trace: b"",
        text: b"stalled: writer 2\n",
    },
];
