//! Traces by hand, most of them as no service writes them.
use trace_file::{Packet, TraceFault, TraceReader};

struct Row {
    name: &'static str,
    trace: &'static [u8],
    packets: &'static [Packet<'static>],
    fault: Option<TraceFault>,
}

const PACKET: Packet<'static> = Packet {
    at: 0,
    bytes: b"\x0A\x07\x40\x05\x50\x02\xD0\x02\x01",
    content: b"\x40\x05\x50\x02\xD0\x02\x01",
    sequence: 2,
    marked: true,
};

static ROWS: [Row; 16] = [
    Row {
        name: "no byte",
        trace: b"",
        packets: &[],
        fault: None,
    },
    Row {
        name: "a marked packet and an empty one",
        trace: b"\x0A\x07\x40\x05\x50\x02\xD0\x02\x01\x0A\x00",
        packets: &[
            PACKET,
            Packet {
                at: 9,
                bytes: b"\x0A\x00",
                content: b"",
                sequence: 0,
                marked: false,
            },
        ],
        fault: None,
    },
    Row {
        name: "other fields, each wire type, and a long tag and length",
        trace: b"\x08\x96\x01\x11abcdefgh\x12\x01x\x1Dabcd\x8A\x00\x82\x00\x50\x07\x08\x00",
        packets: &[Packet {
            at: 20,
            bytes: b"\x8A\x00\x82\x00\x50\x07",
            content: b"\x50\x07",
            sequence: 7,
            marked: false,
        }],
        fault: None,
    },
    Row {
        name: "the last sequence and the last mark count, and other wire types don't",
        trace: b"\x0A\x11\x50\x01\xD0\x02\x01\x50\x03\x52\x01\x09\xD0\x02\x00\xD2\x02\x01\x01",
        packets: &[Packet {
            at: 0,
            bytes: b"\x0A\x11\x50\x01\xD0\x02\x01\x50\x03\x52\x01\x09\xD0\x02\x00\xD2\x02\x01\x01",
            content: b"\x50\x01\xD0\x02\x01\x50\x03\x52\x01\x09\xD0\x02\x00\xD2\x02\x01\x01",
            sequence: 3,
            marked: false,
        }],
        fault: None,
    },
    Row {
        name: "a group",
        trace: b"\x03",
        packets: &[],
        fault: Some(TraceFault::Group { offset: 0 }),
    },
    Row {
        name: "a group's end inside a record",
        trace: b"\x0A\x03\x40\x05\x0C",
        packets: &[],
        fault: Some(TraceFault::Group { offset: 4 }),
    },
    Row {
        name: "field number 0",
        trace: b"\x0A\x00\x02\x00",
        packets: &[Packet {
            at: 0,
            bytes: b"\x0A\x00",
            content: b"",
            sequence: 0,
            marked: false,
        }],
        fault: Some(TraceFault::BadRecord { offset: 2 }),
    },
    Row {
        name: "field number 536,870,912",
        trace: b"\x80\x80\x80\x80\x10\x00",
        packets: &[],
        fault: Some(TraceFault::BadRecord { offset: 0 }),
    },
    Row {
        name: "a wire type that isn't",
        trace: b"\x0E",
        packets: &[],
        fault: Some(TraceFault::BadRecord { offset: 0 }),
    },
    Row {
        name: "a tag past 64 bits",
        trace: b"\xFF\xFF\xFF\xFF\xFF\xFF\xFF\xFF\xFF\x02",
        packets: &[],
        fault: Some(TraceFault::BadRecord { offset: 0 }),
    },
    Row {
        name: "a length past 64 bits",
        trace: b"\x12\xFF\xFF\xFF\xFF\xFF\xFF\xFF\xFF\xFF\x02",
        packets: &[],
        fault: Some(TraceFault::BadRecord { offset: 0 }),
    },
    Row {
        name: "a tag cut short",
        trace: b"\x0A\x00\x80",
        packets: &[Packet {
            at: 0,
            bytes: b"\x0A\x00",
            content: b"",
            sequence: 0,
            marked: false,
        }],
        fault: Some(TraceFault::CutShort { offset: 2 }),
    },
    Row {
        name: "a last record cut short",
        trace: b"\x0A\x07\x40\x05\x50\x02\xD0\x02",
        packets: &[],
        fault: Some(TraceFault::CutShort { offset: 0 }),
    },
    Row {
        name: "eight bytes cut short",
        trace: b"\x11abcdefg",
        packets: &[],
        fault: Some(TraceFault::CutShort { offset: 0 }),
    },
    Row {
        name: "a field past its record's end",
        trace: b"\x0A\x03\x40\x05\x50\x02",
        packets: &[],
        fault: Some(TraceFault::BadRecord { offset: 4 }),
    },
    Row {
        name: "a field past its record's end by its length",
        trace: b"\x0A\x02\x12\x01\x0A\x00",
        packets: &[],
        fault: Some(TraceFault::BadRecord { offset: 2 }),
    },
];

#[test]
fn traces_read_as_their_packets(rt: HostRuntime) {
    for row in &ROWS {
        let mut reader = TraceReader::new(row.trace);
        for packet in row.packets {
            assert_eq!(rt; reader.next(), Ok(Some(*packet)), "{}", row.name);
        }
        let end = match row.fault {
            None => Ok(None),
            Some(fault) => Err(fault),
        };
        assert_eq!(rt; reader.next(), end, "{}", row.name);
        assert_eq!(rt; reader.next(), end, "{} again", row.name);
    }
}
