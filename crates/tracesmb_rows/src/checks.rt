//! Inputs of `check`, with what must be written.
use crate::play::play;
use std::test::Fail;

struct Check {
    input: &'static [u8],
    status: u8,
    trace: &'static [u8],
    text: &'static [u8],
}

static CHECKS: [Check; 14] = [
    // Two writers; the second record of one stands behind a record of the other.
    Check {
        input: b"buffer 4 ring\nproducer 2 4096 1\nwriter 1 1 drop\nwriter 1 1 drop\np 1 8:1\np 1 8:2\ns 1\nr 1\np 2 8:9\nf 2\nc 1\nr 1\nf 1\n==\n\x0A\x07\x40\x01\x50\x02\xD0\x02\x01\x0A\x07\x40\x09\x50\x03\xD0\x02\x01\x0A\x04\x40\x02\x50\x02",
        status: 0,
        trace: b"agrees 3\n",
        text: b"",
    },
    // A mark where nothing is missing.
    Check {
        input: b"buffer 4 ring\nproducer 2 4096 1\nwriter 1 1 drop\nwriter 1 1 drop\np 1 8:1\np 1 8:2\ns 1\nr 1\np 2 8:9\nf 2\nc 1\nr 1\nf 1\n==\n\x0A\x07\x40\x01\x50\x02\xD0\x02\x01\x0A\x07\x40\x09\x50\x03\xD0\x02\x01\x0A\x07\x40\x02\x50\x02\xD0\x02\x01",
        status: 0,
        trace: b"differs packet 3 sequence 2\n",
        text: b"",
    },
    // A packet line by line, with a message in it; the packet that goes on when its producer closes is none.
    Check {
        input: b"buffer 4 ring\nproducer 1 4096 1\nwriter 1 1 drop\nb 1\nn 1 900\na 1 1:\"hi\"*2\nu 1\na 1 8:5\ne 1\nb 1\na 1 8:6\nx 1\n==\n\x0A\x13\xA2\x38\x86\x80\x80\x00\x0A\x04hihi\x40\x05\x50\x02\xD0\x02\x01",
        status: 0,
        trace: b"agrees 1\n",
        text: b"",
    },
    Check {
        input: b"buffer 4 ring\nproducer 1 4096 1\nwriter 1 1 drop\nb 1\na 1 8:6\nx 1\n==\n\x0A\x07\x40\x06\x50\x02\xD0\x02\x01",
        status: 0,
        trace: b"differs packet 1 sequence 2\n",
        text: b"",
    },
    // A packet that came twice, and a mark in front in place of one behind.
    Check {
        input: b"buffer 4 ring\nproducer 1 4096 1\nwriter 1 1 drop\np 1 8:1\n==\n\x0A\x07\x40\x01\x50\x02\xD0\x02\x01\x0A\x04\x40\x01\x50\x02",
        status: 0,
        trace: b"differs packet 2 sequence 2\n",
        text: b"",
    },
    Check {
        input: b"buffer 4 ring\nproducer 1 4096 1\nwriter 1 1 drop\np 1 8:1\np 1 8:2\n==\n\x0A\x07\xD0\x02\x01\x40\x02\x50\x02",
        status: 0,
        trace: b"agrees 1\n",
        text: b"",
    },
    // Other fields of the trace, a length of two bytes, and a sequence of nobody.
    Check {
        input: b"buffer 4 ring\nproducer 1 4096 1\nwriter 1 1 drop\np 1\n==\n\x10\x05\x0A\x05\x50\x02\xD0\x02\x01\x12\x00",
        status: 0,
        trace: b"agrees 1\n",
        text: b"",
    },
    Check {
        input: b"buffer 4 ring\nproducer 1 4096 1\nwriter 1 1 drop\np 1\n==\n\x0A\x85\x00\x50\x02\xD0\x02\x01",
        status: 0,
        trace: b"differs packet 1 sequence 2\n",
        text: b"",
    },
    Check {
        input: b"==\n\x0A\x02\x50\x07",
        status: 0,
        trace: b"differs packet 1 sequence 7\n",
        text: b"",
    },
    // A trace that is cut short behind a record that differs.
    Check {
        input: b"==\n\x0A\x02\x50\x07\x0A\x05\x50",
        status: 3,
        trace: b"",
        text: b"offset 4: cut short\n",
    },
    // The scenario's fault comes first; without a line `==` there is no trace; and one without its line feed is no such line.
    Check {
        input: b"buffer 4 ring\nplay\n==\n\x0B",
        status: 3,
        trace: b"",
        text: b"line 2: bad line\n",
    },
    Check {
        input: b"buffer 4 ring\n\n",
        status: 3,
        trace: b"",
        text: b"line 3: no trace\n",
    },
    Check {
        input: b"",
        status: 3,
        trace: b"",
        text: b"line 1: no trace\n",
    },
    Check {
        input: b"buffer 4 ring\n==",
        status: 3,
        trace: b"",
        text: b"line 2: unfinished line\n",
    },
];

#[test]
fn checks_rows(rt: HostRuntime) -> Result<(), Fail> {
    for (number, row) in CHECKS.iter().enumerate() {
        let played = play(&rt, &["check"], row.input)?;
        assert_eq!(rt; played.status, row.status, "row {number}");
        assert_eq!(rt; played.trace.taken(), row.trace, "row {number}");
        assert_eq!(rt; played.text.taken(), row.text, "row {number}");
    }
    Ok(())
}
