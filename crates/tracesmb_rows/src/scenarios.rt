//! Texts and what is said of them, and the parts of a scenario. The expected lines come from a
//! reading of the grammar in another language.
use arrayvec::ArrayVec;
use field_tree::Fields;
use scenario_text::{LineKind, ProducerLine, ScenarioFault, read_scenario, refusal_line};
use std::alloc::{AllocError, Global};
use std::process::Abort;
use trace_base::limits::MAX_INPUT;
use trace_base::policy::{FullPolicy, WriterPolicy, WriterSpec};

/// A buffer, a producer and a writer.
const SET_UP: &[u8] = b"buffer 64 ring\nproducer 1 4096 14\nwriter 1 1 drop\n";

/// Whole texts, each with the line that is said of it: none where it is a scenario.
static WHOLE: [(&[u8], &[u8]); 48] = [
    (b"", b""),
    (b"\n#\xFF\n\n", b""),
    (
        b"# x\nbuffer 4 discard\nbuffer 65536 ring\nproducer 64 65536 1\nproducer 1 4096 7\nwriter 2 1 stall\nwriter 1 2 drop\nb 1\na 1 900{1:\"hi\"*2 2:7}\nn 1 8\nu 1\ne 1\nf 1\nc 2\ns 2\nr 1\nr 2 3\nq\nx 2\n",
        b"",
    ),
    (b"# note", b"line 1: unfinished line\n"),
    (b"p 1", b"line 1: unfinished line\n"),
    (b"stop\n", b"line 1: bad line\n"),
    (b"writer 1 1 stall:2\n", b"line 1: no such producer\n"),
    (
        b"buffer 4 ring\nproducer 1 4096 1\nwriter 1 1 stall:1\nwriter 1 1 stall:1000000\n",
        b"",
    ),
    (b"writer 1 1 stall:0\n", b"line 1: number out of range\n"),
    (
        b"writer 1 1 stall:1000001\n",
        b"line 1: number out of range\n",
    ),
    (
        b"writer 1 1 stall:18446744073709551616\n",
        b"line 1: number out of range\n",
    ),
    (b"writer 1 1 stall:\n", b"line 1: bad line\n"),
    (b"writer 1 1 stall:01\n", b"line 1: bad line\n"),
    (b"writer 1 1 stall: 2\n", b"line 1: bad line\n"),
    (b"writer 1 1 stall2\n", b"line 1: bad line\n"),
    (b"writer 1 1 drop:2\n", b"line 1: bad line\n"),
    (b"writer 1 1 drop from 0\n", b"line 1: no such producer\n"),
    (
        b"buffer 4 ring\nproducer 1 4096 1\nwriter 1 1 drop from 0\nwriter 1 1 stall from 4294967295\nwriter 1 1 stall:2 from 7\n",
        b"",
    ),
    (
        b"writer 1 1 drop from 4294967296\n",
        b"line 1: number out of range\n",
    ),
    (
        b"writer 1 1 drop from 18446744073709551616\n",
        b"line 1: number out of range\n",
    ),
    (b"writer 1 1 drop from\n", b"line 1: bad line\n"),
    (b"writer 1 1 drop from \n", b"line 1: bad line\n"),
    (b"writer 1 1 drop from 00\n", b"line 1: bad line\n"),
    (b"writer 1 1 drop from 1 \n", b"line 1: bad line\n"),
    (b"writer 1 1 drop from 1 from 2\n", b"line 1: bad line\n"),
    (b"writer 1 1 from 1 drop\n", b"line 1: bad line\n"),
    (b"writer 1 1 drop 1\n", b"line 1: bad line\n"),
    (b"writer 1 1 drop at 1\n", b"line 1: bad line\n"),
    (b"producer 1 4096 14 from 1\n", b"line 1: bad line\n"),
    (b"buffer 64 ring \n", b"line 1: bad line\n"),
    (b"buffer 64\n", b"line 1: bad line\n"),
    (b"producer 1 4096 14 1\n", b"line 1: bad line\n"),
    (b"buffer 3 ring\n", b"line 1: number out of range\n"),
    (b"buffer 65537 ring\n", b"line 1: number out of range\n"),
    (b"producer 0 4096 14\n", b"line 1: number out of range\n"),
    (b"producer 65 4096 14\n", b"line 1: number out of range\n"),
    (b"producer 1 4097 14\n", b"line 1: number out of range\n"),
    (b"producer 1 69632 14\n", b"line 1: number out of range\n"),
    (b"producer 1 0 14\n", b"line 1: number out of range\n"),
    (b"producer 1 4096 3\n", b"line 1: number out of range\n"),
    (
        b"writer 18446744073709551616 1 drop\n",
        b"line 1: number out of range\n",
    ),
    (b"c 1\n", b"line 1: no such producer\n"),
    (b"writer 1 1 drop\n", b"line 1: no such producer\n"),
    (
        b"buffer 4 ring\nbuffer 4 ring\nbuffer 4 ring\nbuffer 4 ring\nbuffer 4 ring\nbuffer 4 ring\nbuffer 4 ring\nbuffer 4 ring\nbuffer 4 ring\n",
        b"line 9: too many\n",
    ),
    (
        b"producer 1 4096 14\nproducer 1 4096 14\nproducer 1 4096 14\nproducer 1 4096 14\nproducer 1 4096 14\nproducer 1 4096 14\nproducer 1 4096 14\nproducer 1 4096 14\nproducer 1 4096 14\nproducer 1 4096 14\nproducer 1 4096 14\nproducer 1 4096 14\nproducer 1 4096 14\nproducer 1 4096 14\nproducer 1 4096 14\nproducer 1 4096 14\nproducer 1 4096 14\n",
        b"line 17: too many\n",
    ),
    (
        b"buffer 4 ring\nbuffer 4 ring\nbuffer 4 ring\nbuffer 4 ring\nbuffer 4 ring\nbuffer 4 ring\nbuffer 4 ring\nbuffer 4 ring\nq\nbuffer 4 ring\n",
        b"line 10: late set-up\n",
    ),
    (
        b"buffer 4 ring\nproducer 1 8192 1\nwriter 1 1 drop\n",
        b"line 3: chunk larger than buffer\n",
    ),
    (b"buffer 4 ring\nproducer 1 4096 1\nwriter 1 1 drop\n", b""),
];

/// The same for texts that stand behind `SET_UP`, whose lines count.
static BEHIND_SET_UP: [(&[u8], &[u8]); 86] = [
    (b"p 1\np 1 1:\"\" 2:\"\"*3 4:x'' 5{}\n", b""),
    (b"b 1\nx 1\n", b""),
    (b"r 1 18446744073709551615\n", b""),
    (b"n", b"line 4: unfinished line\n"),
    (b"p  1\n", b"line 4: bad line\n"),
    (b"p 01\n", b"line 4: bad line\n"),
    (b"p\n", b"line 4: bad line\n"),
    (b" \n", b"line 4: bad line\n"),
    (b"n 1 05\n", b"line 4: bad line\n"),
    (b"k 1\n", b""),
    (b"k\n", b"line 4: bad line\n"),
    (b"k 1 1\n", b"line 4: bad line\n"),
    (
        b"k 18446744073709551616\n",
        b"line 4: number out of range\n",
    ),
    (b"k 2\n", b"line 4: no such buffer\n"),
    (b"k 0\n", b"line 4: no such buffer\n"),
    (b"k 1\nbuffer 4 ring\n", b"line 5: late set-up\n"),
    (b"b 1\nk 1\ne 1\nx 1\nk 1\n", b""),
    (b"k 1\nk 1\nk 1\nk 1\n", b""),
    (b"k 1\nk 1\nk 1\nk 1\nk 2\n", b"line 8: too many\n"),
    (b"raw 1 0 1 0 1 x'0'\n", b"line 4: bad line\n"),
    (b"q 1\n", b"line 4: bad line\n"),
    (b"r 1 \n", b"line 4: bad line\n"),
    (b"r 1 1 1\n", b"line 4: bad line\n"),
    (b"r 1 0\n", b"line 4: number out of range\n"),
    (
        b"r 1 18446744073709551616\n",
        b"line 4: number out of range\n",
    ),
    (
        b"p 18446744073709551616\n",
        b"line 4: number out of range\n",
    ),
    (
        b"c 99999999999999999999999\n",
        b"line 4: number out of range\n",
    ),
    (b"q\nbuffer 4 ring\n", b"line 5: late set-up\n"),
    (b"q\nbuffer 3 ring\n", b"line 5: number out of range\n"),
    (b"q\nproducer 1 4096 1\n", b"line 5: late set-up\n"),
    (b"#\n\nwriter 1 1 drop\n", b""),
    (b"x 2\n", b"line 4: no such producer\n"),
    (b"c 0\n", b"line 4: no such producer\n"),
    (b"writer 2 2 drop\n", b"line 4: no such producer\n"),
    (b"writer 1 2 drop\n", b"line 4: no such buffer\n"),
    (b"r 2\n", b"line 4: no such buffer\n"),
    (b"r 0\n", b"line 4: no such buffer\n"),
    (b"p 2\n", b"line 4: no such writer\n"),
    (b"p 0 1\n", b"line 4: no such writer\n"),
    (b"x 1\np 1\n", b"line 5: producer closed\n"),
    (b"x 1\nx 1\n", b"line 5: producer closed\n"),
    (b"x 1\nc 1\n", b"line 5: producer closed\n"),
    (b"b 1\nx 1\nb 1\n", b"line 6: producer closed\n"),
    (b"b 1\nb 1\n", b"line 5: packet begun\n"),
    (b"b 1\np 1\n", b"line 5: packet begun\n"),
    (b"b 1\nf 1\n", b"line 5: packet begun\n"),
    (b"a 1\n", b"line 4: no packet\n"),
    (b"a 1 \n", b"line 4: no packet\n"),
    (b"n 1 0\n", b"line 4: no packet\n"),
    (b"u 1\n", b"line 4: no packet\n"),
    (b"e 1\n", b"line 4: no packet\n"),
    (b"b 1\nu 1\n", b"line 5: no nesting\n"),
    (b"b 1\nn 1 8\ne 1\n", b"line 6: nesting left\n"),
    (b"b 1\na 1\n", b"line 5: bad field at column 4\n"),
    (b"b 1\na 1 \n", b"line 5: bad field at column 5\n"),
    (b"p 1 \n", b"line 4: bad field at column 5\n"),
    (b"p 1 0:1\n", b"line 4: bad field at column 5\n"),
    (b"p 1 1:1  2:1\n", b"line 4: bad field at column 9\n"),
    (b"p 1 1:01\n", b"line 4: bad field at column 8\n"),
    (
        b"p 1 1:18446744073709551616\n",
        b"line 4: bad field at column 7\n",
    ),
    (b"p 1 1:\"a\"*0\n", b"line 4: bad field at column 11\n"),
    (b"p 1 1{1:1\n", b"line 4: bad field at column 10\n"),
    (b"p 1 1:\"a\n", b"line 4: bad field at column 9\n"),
    (b"b 1\nn 1 0\n", b"line 5: bad field at column 5\n"),
    (b"b 1\nn 1 536870912\n", b"line 5: bad field at column 5\n"),
    (
        b"b 1\nn 1 99999999999999999999\n",
        b"line 5: bad field at column 5\n",
    ),
    (b"b 1\nn 1 0 \n", b"line 5: bad line\n"),
    (b"p 1 10:5\n", b"line 4: reserved field 10\n"),
    (b"p 1 8:1 42:5 10{}\n", b"line 4: reserved field 42\n"),
    (b"b 1\nn 1 10\n", b"line 5: reserved field 10\n"),
    (b"b 1\nn 1 8\na 1 10:5\nn 1 10\nu 1\nu 1\ne 1\n", b""),
    (
        b"p 1 1{1{1{1{1{1{1{1{1{1{1{1{1{1{1{1{1{}}}}}}}}}}}}}}}}}\n",
        b"line 4: too deep\n",
    ),
    (
        b"p 1 1{1{1{1{1{1{1{1{1{1{1{1{1{1{1{1{}}}}}}}}}}}}}}}}\n",
        b"",
    ),
    (
        b"b 1\nn 1 1\nn 1 1\nn 1 1\nn 1 1\nn 1 1\nn 1 1\nn 1 1\nn 1 1\nn 1 1\nn 1 1\nn 1 1\nn 1 1\nn 1 1\nn 1 1\nn 1 1\nn 1 1\nn 1 1\n",
        b"line 21: too deep\n",
    ),
    (
        b"b 1\nn 1 1\na 1 1{1{1{1{1{1{1{1{1{1{1{1{1{1{1{1{}}}}}}}}}}}}}}}}\n",
        b"line 6: too deep\n",
    ),
    (
        b"p 1 10{1{1{1{1{1{1{1{1{1{1{1{1{1{1{1{1{}}}}}}}}}}}}}}}}}\n",
        b"line 4: reserved field 10\n",
    ),
    (b"p 1 1:\"x\"*1048573\n", b"line 4: packet too long\n"),
    (b"p 1 1:\"x\"*1048572\n", b""),
    (
        b"b 1\na 1 1:\"x\"*1048572\na 1 1:1\n",
        b"line 6: packet too long\n",
    ),
    (
        b"b 1\na 1 1:\"x\"*1048572\nn 1 1\n",
        b"line 6: packet too long\n",
    ),
    (b"b 1\na 1 1:\"x\"*1048567\nn 1 1\nu 1\ne 1\n", b""),
    (b"writer 1 1 drop\nb 2\nb 1\n", b"line 5: packet left\n"),
    (
        b"writer 1 1 drop\nb 2\nb 1\ne 2\n",
        b"line 6: packet left\n",
    ),
    (
        b"producer 1 4096 1\nwriter 2 1 drop\nb 2\nb 1\nx 2\n",
        b"line 7: packet left\n",
    ),
    (
        b"producer 1 4096 1\nwriter 2 1 drop\nb 2\nb 1\nx 1\n",
        b"line 6: packet left\n",
    ),
    (b"b 1\nz\n", b"line 5: bad line\n"),
];

/// The line that is said of a text, and none where it is a scenario.
fn said_of(rt: &impl Abort, alloc: Global, text: &[u8]) -> ArrayVec<u8, 64> {
    assert!(rt; text.len() <= MAX_INPUT);
    match read_scenario(alloc, text) {
        Ok(_) => ArrayVec::new(),
        Err(ScenarioFault::Bad { line, reason }) => refusal_line(line, reason),
        Err(ScenarioFault::OutOfMemory) => panic!(rt; "out of memory"),
    }
}

#[test]
fn says_the_first_reason_of_the_first_line(rt: HostRuntime) -> Result<(), AllocError> {
    for (i, (text, line)) in WHOLE.iter().enumerate() {
        assert_eq!(rt;
            said_of(&rt, rt.alloc(), text).as_slice(),
            *line,
            "whole {i}"
        );
    }
    for (i, (text, line)) in BEHIND_SET_UP.iter().enumerate() {
        let mut whole = Vec::from_slice(rt.alloc(), SET_UP)?;
        whole.extend_from_slice(text)?;
        assert_eq!(rt;
            said_of(&rt, rt.alloc(), &whole).as_slice(),
            *line,
            "behind {i}"
        );
    }
    Ok(())
}

/// `SET_UP`, a line so many times, and another line.
fn repeated(alloc: Global, line: &[u8], times: u32, last: &[u8]) -> Result<Vec<u8>, AllocError> {
    let mut text = Vec::from_slice(alloc, SET_UP)?;
    for _ in 0..times {
        text.extend_from_slice(line)?;
    }
    text.extend_from_slice(last)?;
    Ok(text)
}

#[test]
fn counts_up_to_the_limits(rt: HostRuntime) -> Result<(), AllocError> {
    let packet = b"p 1 1:\"x\"*1048572\n".as_slice();
    let writer = b"writer 1 1 drop\n".as_slice();
    let buffer = b"buffer 4 ring\n".as_slice();
    let producer = b"producer 1 4096 14\n".as_slice();
    let nest = b"n 1 1\n".as_slice();
    let rows: [(&[u8], u32, &[u8], &[u8]); 10] = [
        (buffer, 7, b"", b""),
        (buffer, 8, b"", b"line 11: too many\n"),
        (producer, 15, b"", b""),
        (producer, 16, b"", b"line 19: too many\n"),
        (writer, 63, b"", b""),
        (writer, 64, b"", b"line 67: too many\n"),
        (packet, 256, b"p 1\n", b""),
        (packet, 256, b"p 1 1:1\n", b"line 260: too many bytes\n"),
        (packet, 256, b"b 1\nn 1 1\n", b"line 261: too many bytes\n"),
        (
            packet,
            256,
            b"b 1\na 1 1:1\n",
            b"line 261: too many bytes\n",
        ),
    ];
    for (i, (line, times, last, said)) in rows.iter().enumerate() {
        let text = repeated(rt.alloc(), line, *times, last)?;
        assert_eq!(rt;
            said_of(&rt, rt.alloc(), &text).as_slice(),
            *said,
            "limit {i}"
        );
    }
    let mut deep = Vec::from_slice(
        rt.alloc(),
        b"buffer 64 ring\nproducer 1 4096 14\nwriter 1 1 drop\nb 1\n",
    )?;
    for _ in 0..17 {
        deep.extend_from_slice(nest)?;
    }
    assert_eq!(rt;
        said_of(&rt, rt.alloc(), &deep).as_slice(),
        b"line 21: too deep\n".as_slice()
    );
    Ok(())
}

/// A scenario with each kind of line.
const EACH_KIND: &[u8] =
    b"# x\nbuffer 4 discard\nbuffer 65536 ring\nproducer 64 65536 1\nproducer 1 4096 7\nwriter 2 1 stall\nwriter 1 2 stall:3 from 4294967295\nb 1\na 1 900{1:\"hi\"*2 2:7}\nn 1 8\nu 1\ne 1\n\np 2\np 2 1:5\nf 1\nc 2\ns 2\nr 1\nr 2 3\nq\nk 2\nraw 2 7 1 0 2 x'024005'\nx 2\n";

/// How many nodes there are.
fn count(fields: &Fields<'_>) -> u64 {
    let mut many = 0u64;
    let mut coming = fields.fields();
    'nodes: while let Some(_) = coming.next() {
        many = many.saturating_add(1);
    }
    many
}

/// The word of a line, its first number, and another number that it has or is about: nodes, a
/// field or a limit.
fn shown(what: &LineKind<'_>) -> (&'static str, u16, u64) {
    match what {
        LineKind::Packet { writer, fields } => ("p", *writer, count(fields)),
        LineKind::Begin { writer } => ("b", *writer, 0),
        LineKind::Add { writer, fields } => ("a", *writer, count(fields)),
        LineKind::Nest { writer, field } => ("n", *writer, u64::from(*field)),
        LineKind::Unnest { writer } => ("u", *writer, 0),
        LineKind::End { writer } => ("e", *writer, 0),
        LineKind::Flush { writer } => ("f", *writer, 0),
        LineKind::Collect { producer } => ("c", *producer, 0),
        LineKind::Scrape { producer } => ("s", *producer, 0),
        LineKind::Close { producer } => ("x", *producer, 0),
        LineKind::Read { buffer, limit } => ("r", u16::from(*buffer), *limit),
        LineKind::Request => ("q", 0, 0),
        LineKind::CloneBuffer { buffer } => ("k", u16::from(*buffer), 0),
        LineKind::Raw { writer, chunk } => ("raw", *writer, u64::from(chunk.header().chunk_id)),
    }
}

#[test]
fn keeps_each_kind_of_line(rt: HostRuntime) {
    let lines: [(u32, &str, u16, u64); 16] = [
        (8, "b", 1, 0),
        (9, "a", 1, 4),
        (10, "n", 1, 8),
        (11, "u", 1, 0),
        (12, "e", 1, 0),
        (14, "p", 2, 0),
        (15, "p", 2, 1),
        (16, "f", 1, 0),
        (17, "c", 2, 0),
        (18, "s", 2, 0),
        (19, "r", 1, u64::MAX),
        (20, "r", 2, 3),
        (21, "q", 0, 0),
        (22, "k", 2, 0),
        (23, "raw", 2, 7),
        (24, "x", 2, 0),
    ];
    let Ok(scenario) = read_scenario(rt.alloc(), EACH_KIND) else {
        panic!(rt; "a fault");
    };
    assert_eq!(rt; scenario.buffers.len(), 2);
    assert_eq!(rt; scenario.buffers[0].kb, 4);
    assert_eq!(rt; scenario.buffers[1].policy, FullPolicy::Ring);
    assert_eq!(rt; scenario.producers.len(), 2);
    assert_eq!(rt;
        scenario.producers[1],
        ProducerLine {
            pages: 1,
            page_size: 4096,
            chunks: 7
        }
    );
    assert_eq!(rt; scenario.writers.len(), 2);
    assert_eq!(rt;
        scenario.writers[0],
        WriterSpec {
            producer: 2,
            buffer: 1,
            policy: WriterPolicy::Stalls,
            from: 0,
        }
    );
    assert_eq!(rt;
        scenario.writers[1],
        WriterSpec {
            producer: 1,
            buffer: 2,
            policy: WriterPolicy::StallsThenDrops { tries: 3 },
            from: 4_294_967_295,
        }
    );
    assert_eq!(rt; scenario.lines.len(), lines.len());
    let mut walk = scenario.lines.walk();
    for wanted in &lines {
        let Some(given) = walk.next() else {
            panic!(rt; "a line is missing");
        };
        let (word, first, second) = shown(&given.what);
        assert_eq!(rt; given.line, wanted.0);
        assert_eq!(rt; word, wanted.1, "line {}", given.line);
        assert_eq!(rt; first, wanted.2, "line {}", given.line);
        assert_eq!(rt; second, wanted.3, "line {}", given.line);
    }
}
