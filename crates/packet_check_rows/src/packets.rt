//! Packets by hand, after the protocol-buffers encoding, with what is so of each: whole, cut in two
//! at each place, and byte by byte.
ghost use Rattle.std.specs.Prelude.{◌≤◌, length};

use packet_check::{AcceptCheck, PacketCheck, PacketFault, accepts_packet, check_packet};
use trace_base::limits::MAX_INPUT;

struct Row {
    name: &'static str,
    packet: &'static [u8],
    wanted: Result<(), PacketFault>,
}

static ROWS: [Row; 49] = [
    Row {
        name: "nothing",
        packet: b"",
        wanted: Ok(()),
    },
    Row {
        name: "a number of two bytes",
        packet: b"\x08\x96\x01",
        wanted: Ok(()),
    },
    Row {
        name: "a text",
        packet: b"\x12\x07\x74\x65\x73\x74\x69\x6E\x67",
        wanted: Ok(()),
    },
    Row {
        name: "numbers and a text",
        packet: b"\x40\x05\x12\x01\x61\x90\x03\x01",
        wanted: Err(PacketFault::ReservedField { number: 50 }),
    },
    Row {
        name: "the mark of a dropped packet",
        packet: b"\xD0\x02\x01",
        wanted: Ok(()),
    },
    Row {
        name: "eight bytes",
        packet: b"\x09\xFF\xFF\xFF\xFF\xFF\xFF\xFF\xFF",
        wanted: Ok(()),
    },
    Row {
        name: "four bytes",
        packet: b"\x0D\xFF\xFF\xFF\xFF",
        wanted: Ok(()),
    },
    Row {
        name: "a length of four bytes",
        packet: b"\x12\x83\x80\x80\x00\x61\x62\x63",
        wanted: Ok(()),
    },
    Row {
        name: "a length of three bytes",
        packet: b"\x12\x83\x80\x00\x61\x62\x63",
        wanted: Ok(()),
    },
    Row {
        name: "a text without bytes",
        packet: b"\x12\x00",
        wanted: Ok(()),
    },
    Row {
        name: "a number of nine bytes",
        packet: b"\x08\xFF\xFF\xFF\xFF\xFF\xFF\xFF\xFF\x7F",
        wanted: Ok(()),
    },
    Row {
        name: "a number of ten bytes",
        packet: b"\x08\xFF\xFF\xFF\xFF\xFF\xFF\xFF\xFF\xFF\x01",
        wanted: Ok(()),
    },
    Row {
        name: "a tag longer than it need be",
        packet: b"\x88\x80\x00\x05",
        wanted: Ok(()),
    },
    Row {
        name: "the greatest field number",
        packet: b"\xF8\xFF\xFF\xFF\x0F\x00",
        wanted: Ok(()),
    },
    Row {
        name: "a field of the service's inside a message",
        packet: b"\x0A\x02\x50\x05",
        wanted: Ok(()),
    },
    Row {
        name: "field 3",
        packet: b"\x18\x01",
        wanted: Err(PacketFault::ReservedField { number: 3 }),
    },
    Row {
        name: "field 10",
        packet: b"\x50\x05",
        wanted: Err(PacketFault::ReservedField { number: 10 }),
    },
    Row {
        name: "field 33",
        packet: b"\x88\x02\x00",
        wanted: Err(PacketFault::ReservedField { number: 33 }),
    },
    Row {
        name: "field 35",
        packet: b"\x98\x02\x00",
        wanted: Err(PacketFault::ReservedField { number: 35 }),
    },
    Row {
        name: "field 36, a text",
        packet: b"\xA2\x02\x00",
        wanted: Err(PacketFault::ReservedField { number: 36 }),
    },
    Row {
        name: "field 50, four bytes",
        packet: b"\x95\x03\x00\x00\x00\x00",
        wanted: Err(PacketFault::ReservedField { number: 50 }),
    },
    Row {
        name: "field 79, eight bytes",
        packet: b"\xF9\x04\x00\x00\x00\x00\x00\x00\x00\x00",
        wanted: Err(PacketFault::ReservedField { number: 79 }),
    },
    Row {
        name: "field 10, by a tag of three bytes",
        packet: b"\xD0\x80\x00\x05",
        wanted: Err(PacketFault::ReservedField { number: 10 }),
    },
    Row {
        name: "field 10 and then field 3",
        packet: b"\x50\x05\x18\x01",
        wanted: Err(PacketFault::ReservedField { number: 10 }),
    },
    Row {
        name: "field 10 behind a text",
        packet: b"\x12\x01\x61\x50\x05",
        wanted: Err(PacketFault::ReservedField { number: 10 }),
    },
    Row {
        name: "field 10 and then a group",
        packet: b"\x50\x05\x0B",
        wanted: Err(PacketFault::ReservedField { number: 10 }),
    },
    Row {
        name: "a group and then field 10",
        packet: b"\x0B\x50\x05",
        wanted: Err(PacketFault::Malformed { offset: 0 }),
    },
    Row {
        name: "a group begins",
        packet: b"\x40\x05\x0B",
        wanted: Err(PacketFault::Malformed { offset: 2 }),
    },
    Row {
        name: "a group ends",
        packet: b"\x40\x05\x0C",
        wanted: Err(PacketFault::Malformed { offset: 2 }),
    },
    Row {
        name: "a group of field 10",
        packet: b"\x53\x54",
        wanted: Err(PacketFault::Malformed { offset: 0 }),
    },
    Row {
        name: "wire type 6",
        packet: b"\x0E\x00",
        wanted: Err(PacketFault::Malformed { offset: 0 }),
    },
    Row {
        name: "wire type 7",
        packet: b"\x0F\x00",
        wanted: Err(PacketFault::Malformed { offset: 0 }),
    },
    Row {
        name: "field 0",
        packet: b"\x00\x00",
        wanted: Err(PacketFault::Malformed { offset: 0 }),
    },
    Row {
        name: "field 0, four bytes",
        packet: b"\x05\x00\x00\x00\x00",
        wanted: Err(PacketFault::Malformed { offset: 0 }),
    },
    Row {
        name: "a field number too large",
        packet: b"\x80\x80\x80\x80\x10\x00",
        wanted: Err(PacketFault::Malformed { offset: 0 }),
    },
    Row {
        name: "a tag is cut",
        packet: b"\x40\x05\x80",
        wanted: Err(PacketFault::Malformed { offset: 2 }),
    },
    Row {
        name: "a number is missing",
        packet: b"\x40\x05\x08",
        wanted: Err(PacketFault::Malformed { offset: 2 }),
    },
    Row {
        name: "a number is cut",
        packet: b"\x08\x80",
        wanted: Err(PacketFault::Malformed { offset: 0 }),
    },
    Row {
        name: "eight bytes are cut",
        packet: b"\x09\x00\x00\x00\x00\x00\x00\x00",
        wanted: Err(PacketFault::Malformed { offset: 0 }),
    },
    Row {
        name: "four bytes are cut",
        packet: b"\x40\x05\x0D\x00\x00\x00",
        wanted: Err(PacketFault::Malformed { offset: 2 }),
    },
    Row {
        name: "a length is missing",
        packet: b"\x12",
        wanted: Err(PacketFault::Malformed { offset: 0 }),
    },
    Row {
        name: "a length is cut",
        packet: b"\x12\x80",
        wanted: Err(PacketFault::Malformed { offset: 0 }),
    },
    Row {
        name: "a text is cut",
        packet: b"\x12\x02\x61",
        wanted: Err(PacketFault::Malformed { offset: 0 }),
    },
    Row {
        name: "the text of field 10 is cut",
        packet: b"\x52\x02\x61",
        wanted: Err(PacketFault::Malformed { offset: 0 }),
    },
    Row {
        name: "a text of the greatest length",
        packet: b"\x12\xFF\xFF\xFF\xFF\xFF\xFF\xFF\xFF\xFF\x01",
        wanted: Err(PacketFault::Malformed { offset: 0 }),
    },
    Row {
        name: "a number of eleven bytes",
        packet: b"\x08\xFF\xFF\xFF\xFF\xFF\xFF\xFF\xFF\xFF\xFF\x01",
        wanted: Err(PacketFault::Malformed { offset: 0 }),
    },
    Row {
        name: "a number's tenth byte is 2",
        packet: b"\x08\xFF\xFF\xFF\xFF\xFF\xFF\xFF\xFF\xFF\x02",
        wanted: Err(PacketFault::Malformed { offset: 0 }),
    },
    Row {
        name: "a tag's tenth byte is 2",
        packet: b"\xFF\xFF\xFF\xFF\xFF\xFF\xFF\xFF\xFF\x02",
        wanted: Err(PacketFault::Malformed { offset: 0 }),
    },
    Row {
        name: "a length's tenth byte is 2",
        packet: b"\x40\x05\x12\xFF\xFF\xFF\xFF\xFF\xFF\xFF\xFF\xFF\x02",
        wanted: Err(PacketFault::Malformed { offset: 2 }),
    },
];

/// The answer of a check over two pieces.
fn in_two(packet: &[u8], cut: usize) -> Result<(), PacketFault>
    requires within { cut ≤ length packet.now }
    requires most { length packet.now ≤ MAX_INPUT }
{
    let mut check = PacketCheck::new();
    check.feed(&packet[..cut]);
    check.feed(&packet[cut..]);
    check.end()
}

/// The answer of a check over pieces of one byte, with an empty one before each.
fn byte_by_byte(packet: &[u8]) -> Result<(), PacketFault>
    requires { length packet.now ≤ MAX_INPUT }
{
    let mut check = PacketCheck::new();
    for at in 0..packet.len() {
        check.feed(&packet[at..at]);
        check.feed(&packet[at..at + 1]);
    }
    check.end()
}

/// Whether a check of packets of any length accepts two pieces.
fn accepts_in_two(packet: &[u8], cut: usize) -> bool
    requires within { cut ≤ length packet.now }
    requires most { length packet.now ≤ MAX_INPUT }
{
    let mut check = AcceptCheck::new();
    check.feed(&packet[..cut]);
    check.feed(&packet[cut..]);
    check.accepts()
}

#[test]
fn packets_have_their_answers(rt: HostRuntime) {
    for row in &ROWS {
        assert!(rt; row.packet.len() <= MAX_INPUT);
        assert_eq!(rt; check_packet(row.packet), row.wanted, "{}", row.name);
        assert_eq!(rt; byte_by_byte(row.packet), row.wanted, "{}", row.name);
        let passes = row.wanted.is_ok();
        assert_eq!(rt; accepts_packet(row.packet), passes, "{}", row.name);
        for cut in 0..=row.packet.len() {
            assert_eq!(rt;
                in_two(row.packet, cut),
                row.wanted,
                "{} at {cut}",
                row.name
            );
            assert_eq!(rt;
                accepts_in_two(row.packet, cut),
                passes,
                "{} at {cut}",
                row.name
            );
        }
    }
}

#[test]
fn faults_have_their_texts(rt: HostRuntime) {
    let malformed = PacketFault::Malformed { offset: 7 };
    let reserved = PacketFault::ReservedField { number: 10 };
    let text = format!(in rt.alloc(); "{malformed}; {reserved}").expect(&rt, "no memory");
    assert_eq!(rt; text.as_str(), "offset 7: malformed; field 10 is reserved");
}
