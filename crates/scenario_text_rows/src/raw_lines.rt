//! Lines `raw` by hand: what is said of each, and what is kept of it.
use arrayvec::ArrayVec;
use scenario_text::{
    LineKind, LineWalk, NumberedLine, RawChunk, RawHeader, RawPatch, ScenarioFault, read_scenario,
    refusal_line,
};
use std::alloc::{AllocError, Global};
use std::process::Abort;
use trace_base::limits::MAX_INPUT;

/// A buffer, a producer whose chunks have 284 bytes of payload, and a writer.
const SET_UP: &[u8] = b"buffer 64 ring\nproducer 1 4096 14\nwriter 1 1 drop\n";

/// Lines that are taken.
static TAKEN: [&[u8]; 12] = [
    b"raw 1 0 0 0 1 x''\n",
    b"raw 1 0 1 0 1 x'024005'\n",
    b"raw 1 4294967295 1023 63 1 x'0123456789abcdef'\n",
    b"raw 1 0 1 4 1 x'00' 4294967295 4294967295 x'80808000' more\n",
    b"raw 1 0 1 4 1 x'' 0 0 x'ffffffff' last\n",
    b"raw 1 7 1 0 1 x''\nraw 1 7 1 0 1 x''\n",
    b"b 1\nraw 1 0 1 0 1 x''\na 1 8:5\nraw 1 0 1 0 1 x''\ne 1\n",
    b"b 1\nn 1 8\nraw 1 0 1 0 1 x''\nu 1\ne 1\n",
    b"buffer 4 ring\nraw 1 0 1 0 2 x''\n",
    b"writer 1 1 drop from 9\nraw 2 0 1 0 1 x''\nraw 1 0 1 0 1 x''\n",
    b"producer 1 4096 1\nwriter 2 1 drop\nx 1\nraw 2 0 1 0 1 x''\n",
    b"raw 1 0 1 0 1 x''\nx 1\n",
];

/// Lines that have another form than lines `raw` have.
static BAD: [&[u8]; 46] = [
    b"raw\n",
    b"raw 1\n",
    b"raw 1 0\n",
    b"raw 1 0 1\n",
    b"raw 1 0 1 0\n",
    b"raw 1 0 1 0 1\n",
    b"raw  1 0 1 0 1 x''\n",
    b"raw 1  0 1 0 1 x''\n",
    b"raw 1 0  1 0 1 x''\n",
    b"raw 1 0 1 0 1  x''\n",
    b"raw 1 0 1 0 1 x'' \n",
    b" raw 1 0 1 0 1 x''\n",
    b"Raw 1 0 1 0 1 x''\n",
    b"raws 1 0 1 0 1 x''\n",
    b"raw 01 0 1 0 1 x''\n",
    b"raw 1 00 1 0 1 x''\n",
    b"raw 1 0 1 0 1 x'0'\n",
    b"raw 1 0 1 0 1 x'000'\n",
    b"raw 1 0 1 0 1 x'0A'\n",
    b"raw 1 0 1 0 1 x'A0'\n",
    b"raw 1 0 1 0 1 x'0g'\n",
    b"raw 1 0 1 0 1 x'0/'\n",
    b"raw 1 0 1 0 1 x'00\n",
    b"raw 1 0 1 0 1 x'\n",
    b"raw 1 0 1 0 1 x\n",
    b"raw 1 0 1 0 1 x00'\n",
    b"raw 1 0 1 0 1 X'00'\n",
    b"raw 1 0 1 0 1 '00'\n",
    b"raw 1 0 1 0 1 00\n",
    b"raw 1 0 1 0 1 \"00\"\n",
    b"raw 1 0 1 0 1 x'00'0\n",
    b"raw 1 0 1 0 1 x'00''\n",
    b"raw 1 0 1 0 1 x'00 00'\n",
    b"raw 1 0 1 0 1 x'' 0\n",
    b"raw 1 0 1 0 1 x'' 0 0\n",
    b"raw 1 0 1 0 1 x'' 0 0 x'00000000'\n",
    b"raw 1 0 1 0 1 x'' 0 0 x'000000' more\n",
    b"raw 1 0 1 0 1 x'' 0 0 x'0000000000' more\n",
    b"raw 1 0 1 0 1 x'' 0 0 x'' last\n",
    b"raw 1 0 1 0 1 x'' 0 0 x'0000000' last\n",
    b"raw 1 0 1 0 1 x'' 0 0 x'0000000A' last\n",
    b"raw 1 0 1 0 1 x'' 0 0 x'00000000' lasts\n",
    b"raw 1 0 1 0 1 x'' 0 0 x'00000000' More\n",
    b"raw 1 0 1 0 1 x'' 0 0 x'00000000' more \n",
    b"raw 1 0 1 0 1 x'' 0 0 x'00000000' more 0\n",
    b"raw 1 0 1 0 1 x''  0 0 x'00000000' more\n",
];

/// Lines that are refused, and what is said: of several reasons the first in their order.
static REFUSED: [(&[u8], &[u8]); 31] = [
    (
        b"raw 1 4294967296 1 0 1 x''\n",
        b"line 4: number out of range\n",
    ),
    (
        b"raw 1 18446744073709551616 1 0 1 x''\n",
        b"line 4: number out of range\n",
    ),
    (b"raw 1 0 1024 0 1 x''\n", b"line 4: number out of range\n"),
    (b"raw 1 0 1 64 1 x''\n", b"line 4: number out of range\n"),
    (
        b"raw 1 0 1 0 18446744073709551616 x''\n",
        b"line 4: number out of range\n",
    ),
    (
        b"raw 18446744073709551616 0 1 0 1 x''\n",
        b"line 4: number out of range\n",
    ),
    (
        b"raw 1 0 1 0 1 x'' 4294967296 0 x'00000000' more\n",
        b"line 4: number out of range\n",
    ),
    (
        b"raw 1 0 1 0 1 x'' 0 4294967296 x'00000000' last\n",
        b"line 4: number out of range\n",
    ),
    (b"raw 1 0 1024 0 9 x''\n", b"line 4: number out of range\n"),
    (b"raw 9 0 1 64 1 x''\n", b"line 4: number out of range\n"),
    (b"raw 1 0 1 64 1 x'0'\n", b"line 4: bad line\n"),
    (b"raw 1 0 1 0 0 x''\n", b"line 4: no such buffer\n"),
    (b"raw 1 0 1 0 2 x''\n", b"line 4: no such buffer\n"),
    (b"raw 1 0 1 0 300 x''\n", b"line 4: no such buffer\n"),
    (
        b"raw 1 0 1 0 18446744073709551615 x''\n",
        b"line 4: no such buffer\n",
    ),
    (b"raw 2 0 1 0 2 x''\n", b"line 4: no such buffer\n"),
    (b"raw 0 0 1 0 1 x''\n", b"line 4: no such writer\n"),
    (b"raw 2 0 1 0 1 x''\n", b"line 4: no such writer\n"),
    (b"raw 300 0 1 0 1 x''\n", b"line 4: no such writer\n"),
    (
        b"raw 18446744073709551615 0 1 0 1 x''\n",
        b"line 4: no such writer\n",
    ),
    (b"x 1\nraw 1 0 1 0 1 x''\n", b"line 5: producer closed\n"),
    (b"x 1\nraw 1 0 1 0 2 x''\n", b"line 5: no such buffer\n"),
    (b"x 1\nraw 2 0 1 0 1 x''\n", b"line 5: no such writer\n"),
    (
        b"x 1\nraw 1 0 1 64 1 x''\n",
        b"line 5: number out of range\n",
    ),
    (
        b"raw 1 0 1 0 1 x''\nbuffer 4 ring\n",
        b"line 5: late set-up\n",
    ),
    (
        b"raw 1 0 1 0 1 x''\nb 1\nraw 1 0 1 0 1 x''\n",
        b"line 5: packet left\n",
    ),
    (b"raw 1 0 1 0 1 x''\na 1 8:5\n", b"line 5: no packet\n"),
    (b"raw 1 0 1 0 1 x''", b"line 4: unfinished line\n"),
    (b"raw 1 0 1 0 1 x''\r\n", b"line 4: bad line\n"),
    (
        b"raw 1 0 1 0 1 x''\n\n#\nraw 1 0 1 0 1 x'a'\n",
        b"line 7: bad line\n",
    ),
    (
        b"p 1 8:5\nraw 2 0 1 0 1 x''\nraw 1 0 1 0 9 x''\n",
        b"line 5: no such writer\n",
    ),
];

/// The line that is said of a text behind `SET_UP`, and none where it is a scenario.
fn said_of(rt: &impl Abort, alloc: Global, text: &[u8]) -> ArrayVec<u8, 64> {
    let mut whole = Vec::from_slice(alloc, SET_UP).expect(rt, "no memory");
    whole.extend_from_slice(text).expect(rt, "no memory");
    assert!(rt; whole.len() <= MAX_INPUT);
    match read_scenario(alloc, &whole) {
        Ok(_) => ArrayVec::new(),
        Err(ScenarioFault::Bad { line, reason }) => refusal_line(line, reason),
        Err(ScenarioFault::OutOfMemory) => panic!(rt; "out of memory"),
    }
}

#[test]
fn lines_are_taken_by_their_form(rt: HostRuntime) {
    for (i, text) in TAKEN.iter().enumerate() {
        assert_eq!(rt;
            said_of(&rt, rt.alloc(), text).as_slice(),
            b"".as_slice(),
            "taken {i}"
        );
    }
    for (i, text) in BAD.iter().enumerate() {
        assert_eq!(rt;
            said_of(&rt, rt.alloc(), text).as_slice(),
            b"line 4: bad line\n".as_slice(),
            "bad {i}"
        );
    }
}

#[test]
fn the_first_reason_is_said(rt: HostRuntime) {
    for (i, (text, line)) in REFUSED.iter().enumerate() {
        assert_eq!(rt;
            said_of(&rt, rt.alloc(), text).as_slice(),
            *line,
            "refused {i}"
        );
    }
}

/// Lines, and then a line `raw` whose payload is so long.
fn with_payload(alloc: Global, lines: &[u8], len: u32) -> Result<Vec<u8>, AllocError> {
    let mut text = Vec::from_slice(alloc, lines)?;
    text.extend_from_slice(b"raw 1 0 1 0 1 x'")?;
    for _ in 0..len {
        text.extend_from_slice(b"5a")?;
    }
    text.extend_from_slice(b"'\n")?;
    Ok(text)
}

#[test]
fn payloads_are_as_long_as_a_chunk_has_room(rt: HostRuntime) -> Result<(), AllocError> {
    let rows: [(&[u8], u32, &[u8]); 7] = [
        (b"", 284, b""),
        (b"", 285, b"line 4: raw too long\n"),
        (b"", 4000, b"line 4: raw too long\n"),
        (b"b 1\n", 285, b"line 5: raw too long\n"),
        (b"x 1\n", 285, b"line 5: producer closed\n"),
        (b"b 1\ne 1\n", 284, b""),
        (
            b"producer 1 4096 1\nwriter 2 1 drop\n",
            285,
            b"line 6: raw too long\n",
        ),
    ];
    for (i, (lines, len, said)) in rows.iter().enumerate() {
        let text = with_payload(rt.alloc(), lines, *len)?;
        assert_eq!(rt;
            said_of(&rt, rt.alloc(), &text).as_slice(),
            *said,
            "length {i}"
        );
    }
    Ok(())
}

/// Lines of two chunks behind a packet, and one without a chunk.
const CHUNKS: &[u8] =
    b"buffer 64 ring\nbuffer 4 discard\nproducer 1 4096 14\nwriter 1 1 drop\nwriter 1 2 stall\np 1 8:5\nraw 2 4294967295 1023 63 1 x'00ff7e'\nraw 1 7 2 5 2 x'' 6 283 x'0180ff00' last\nq\n";

/// The chunks that these lines ask for.
static HEADERS: [RawHeader; 2] = [
    RawHeader {
        chunk_id: 4_294_967_295,
        count: 1023,
        flags: 63,
        buffer: 1,
        len: 3,
        patch: None,
    },
    RawHeader {
        chunk_id: 7,
        count: 2,
        flags: 5,
        buffer: 2,
        len: 0,
        patch: Some(RawPatch {
            chunk_id: 6,
            offset: 283,
            bytes: [0x01, 0x80, 0xFF, 0x00],
            last: true,
        }),
    },
];

/// The next line, which asks for a chunk: its number, its writer and the chunk.
fn next_chunk<'c>(rt: &impl Abort, walk: &mut LineWalk<'c>) -> (u32, u16, RawChunk<'c>) {
    match walk.next() {
        Some(
            NumberedLine {
                line,
                what: LineKind::Raw { writer, chunk },
            },
        ) => (line, writer, chunk),
        _ => panic!(rt; "no chunk"),
    }
}

#[test]
fn chunks_are_kept(rt: HostRuntime) {
    let Ok(scenario) = read_scenario(rt.alloc(), CHUNKS) else {
        panic!(rt; "a fault");
    };
    assert_eq!(rt; scenario.lines.len(), 4);
    let mut walk = scenario.lines.walk();
    let _packet = walk.next();
    let (line, writer, chunk) = next_chunk(&rt, &mut walk);
    assert_eq!(rt; line, 7);
    assert_eq!(rt; writer, 2);
    assert_eq!(rt; chunk.header(), HEADERS[0]);
    let mut room = [9; 5];
    if chunk.header().len <= room.len() {
        chunk.put_payload(&mut room);
    }
    assert_eq!(rt; room, [0x00, 0xFF, 0x7E, 9, 9]);
    let (line, writer, chunk) = next_chunk(&rt, &mut walk);
    assert_eq!(rt; line, 8);
    assert_eq!(rt; writer, 1);
    assert_eq!(rt; chunk.header(), HEADERS[1]);
    assert_eq!(rt; chunk.chunk().header(), HEADERS[1]);
}
