//! Encodings from outside: of the protocol-buffers documentation, and of the powers of 128 and 2
//! worked by hand.
use wire_varint::{
    VarintFault, get_redundant, get_varint, put_redundant, put_tag, put_varint, varint_len,
};

static SHORTEST: [(u64, &[u8]); 12] = [
    (0, &[0x00]),
    (1, &[0x01]),
    (127, &[0x7F]),
    (128, &[0x80, 0x01]),
    (150, &[0x96, 0x01]),
    (300, &[0xAC, 0x02]),
    (16_383, &[0xFF, 0x7F]),
    (16_384, &[0x80, 0x80, 0x01]),
    (0x0FFF_FFFF, &[0xFF, 0xFF, 0xFF, 0x7F]),
    (0x1_0000_0000, &[0x80, 0x80, 0x80, 0x80, 0x10]),
    (
        0x8000_0000_0000_0000,
        &[0x80, 0x80, 0x80, 0x80, 0x80, 0x80, 0x80, 0x80, 0x80, 0x01],
    ),
    (
        u64::MAX,
        &[0xFF, 0xFF, 0xFF, 0xFF, 0xFF, 0xFF, 0xFF, 0xFF, 0xFF, 0x01],
    ),
];

#[test]
fn numbers_have_their_known_bytes(rt: HostRuntime) {
    for (value, bytes) in SHORTEST {
        let mut out = [0xEE; 10];
        let len = put_varint(value, &mut out);
        assert_eq!(rt; &out[..len], bytes, "{value}");
        assert_eq!(rt; varint_len(value) as usize, bytes.len(), "{value}");
        assert_eq!(rt; get_varint(bytes), Ok((value, len)), "{value}");
        assert_eq!(rt;
            get_varint(&out),
            Ok((value, len)),
            "{value} with bytes behind it"
        );
    }
}

#[test]
fn long_forms_and_faults_are_told_apart(rt: HostRuntime) {
    const HIGH: u8 = 0xFF;
    const NINE: [u8; 9] = [HIGH; 9];
    const OVER: [u8; 10] = [HIGH, HIGH, HIGH, HIGH, HIGH, HIGH, HIGH, HIGH, HIGH, 0x02];
    const ELEVEN: [u8; 11] = [
        HIGH, HIGH, HIGH, HIGH, HIGH, HIGH, HIGH, HIGH, HIGH, HIGH, 0x01,
    ];
    let rows: [(&[u8], Result<(u64, usize), VarintFault>); 8] = [
        (&[], Err(VarintFault::Short)),
        (&[0x80], Err(VarintFault::Short)),
        (&NINE, Err(VarintFault::Short)),
        (&OVER, Err(VarintFault::Over64)),
        (&ELEVEN, Err(VarintFault::Over64)),
        (&[0x80, 0x80, 0x00], Ok((0, 3))),
        (&[0x98, 0x82, 0x80, 0x00, 0x80], Ok((280, 4))),
        (
            &[0x81, 0x80, 0x80, 0x80, 0x80, 0x80, 0x80, 0x80, 0x80, 0x00],
            Ok((1, 10)),
        ),
    ];
    for (bytes, wanted) in rows {
        assert_eq!(rt; get_varint(bytes), wanted, "{bytes:?}");
    }
}

#[test]
fn four_byte_forms_and_tags_have_their_known_bytes(rt: HostRuntime) {
    for (value, bytes) in [
        (0, [0x80, 0x80, 0x80, 0x00]),
        (280, [0x98, 0x82, 0x80, 0x00]),
        (0x0FFF_FFFF, [0xFF, 0xFF, 0xFF, 0x7F]),
    ] {
        assert_eq!(rt; put_redundant(value), bytes, "{value}");
        assert_eq!(rt; get_redundant(bytes), value, "{value}");
    }
    let tags: [(u32, u8, &[u8]); 4] = [
        (1, 2, &[0x0A]),
        (10, 0, &[0x50]),
        (42, 0, &[0xD0, 0x02]),
        (536_870_911, 5, &[0xFD, 0xFF, 0xFF, 0xFF, 0x0F]),
    ];
    for (field, wire, bytes) in tags {
        let mut out = [0xEE; 5];
        assert!(rt; 1 <= field && field <= 536_870_911 && wire <= 5);
        let len = put_tag(field, wire, &mut out);
        assert_eq!(rt; &out[..len], bytes, "{field}");
    }
}
