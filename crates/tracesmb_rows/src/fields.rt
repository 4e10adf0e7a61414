//! Columns, refusals and trees that were worked from the grammar by hand and by a reading of it in
//! another language.
use field_tree::{FieldError, FieldFault, FieldNode, parse_fields};
use std::alloc::Global;
use std::process::Abort;
use trace_base::limits::MAX_INPUT;

/// Texts whose fault is a column.
static COLUMNS: [(&[u8], u32); 40] = [
    (b"1:\"a", 5),
    (b"1{1:1", 6),
    (b"1{1:1}}", 7),
    (b"01:1", 1),
    (b"1:01", 4),
    (b"1:x'0'", 6),
    (b"1:x'0A'", 6),
    (b"1:\"a\"*0", 7),
    (b"1:18446744073709551616", 3),
    (b"", 1),
    (b"0:1", 1),
    (b"536870912:1", 1),
    (b"1:\"a\"*1048577", 7),
    (b"1:1 ", 5),
    (b"1:1  2:1", 5),
    (b" 1:1", 1),
    (b"1{ 1:1}", 3),
    (b"1{1:1 }", 7),
    (b"1:\"\\\"", 4),
    (b"1:\"a\"2", 6),
    (b"1:12a", 5),
    (b"1:x'00'0", 8),
    (b"1", 2),
    (b"1:", 3),
    (b"12345678901:1", 1),
    (b"1:\"a\"*01", 7),
    (b"1:\"a\"*", 7),
    (b"1:x", 4),
    (b"1:x'", 5),
    (b"1:x'0", 6),
    (b"1:-1", 3),
    (b"1;1", 2),
    (b"{", 1),
    (b"}", 1),
    (b"1{}2:1", 4),
    (b"1:1}", 4),
    (b"1:\"\x1f\"", 4),
    (b"1:\"\x7f\"", 4),
    (b"1:10 2:99999999999999999999", 8),
    (b"1:x'00g", 7),
];

fn column_of(rt: &impl Abort, text: &[u8], alloc: Global) -> Option<u32> {
    assert!(rt; text.len() <= MAX_INPUT);
    match parse_fields(alloc, text, 0) {
        Err(FieldError::Fault(FieldFault::BadField { column })) => Some(column),
        _ => None,
    }
}

#[test]
fn columns_are_those_of_the_grammar(rt: HostRuntime) {
    for (text, column) in COLUMNS {
        assert_eq!(rt; column_of(&rt, text, rt.alloc()), Some(column), "{text:?}");
    }
}

/// The answer to a text without its nodes: the length of the encoding, or the fault.
fn answer_to(rt: &impl Abort, text: &[u8], depth: u8, alloc: Global) -> Result<u32, FieldError> {
    assert!(rt; text.len() <= MAX_INPUT && depth <= 16);
    match parse_fields(alloc, text, depth) {
        Ok(tree) => Ok(tree.enc_len()),
        Err(error) => Err(error),
    }
}

const SIXTEEN: &[u8] = b"1{1{1{1{1{1{1{1{1{1{1{1{1{1{1{1{}}}}}}}}}}}}}}}}";

const SEVENTEEN: &[u8] = b"1{1{1{1{1{1{1{1{1{1{1{1{1{1{1{1{1{}}}}}}}}}}}}}}}}}";

const RESERVED_AND_DEEP: &[u8] = b"3:1 1{1{1{1{1{1{1{1{1{1{1{1{1{1{1{1{1{}}}}}}}}}}}}}}}}}";

const DEEP_AND_LONG: &[u8] = b"1{1{1{1{1{1{1{1{1{1{1{1{1{1{1{1{1{2:\"a\"*1048576}}}}}}}}}}}}}}}}}";

/// The lengths were counted by hand: a tag of one byte, three for the length, then the bytes.
static ANSWERS: [(&[u8], u8, Result<u32, FieldFault>); 17] = [
    (b"3:1", 0, Err(FieldFault::Reserved { field: 3 })),
    (b"3:1", 1, Ok(2)),
    (
        b"1:1 79:\"a\" 10:1",
        0,
        Err(FieldFault::Reserved { field: 79 }),
    ),
    (b"1{10:1}", 0, Ok(7)),
    (b"10{}", 0, Err(FieldFault::Reserved { field: 10 })),
    (SIXTEEN, 0, Ok(80)),
    (SEVENTEEN, 0, Err(FieldFault::TooDeep)),
    (b"1{}", 16, Err(FieldFault::TooDeep)),
    (b"1{}", 15, Ok(5)),
    (RESERVED_AND_DEEP, 0, Err(FieldFault::Reserved { field: 3 })),
    (RESERVED_AND_DEEP, 1, Err(FieldFault::TooDeep)),
    (DEEP_AND_LONG, 0, Err(FieldFault::TooDeep)),
    (b"1:\"a\"*1048572", 0, Ok(1_048_576)),
    (b"1:\"a\"*1048573", 0, Err(FieldFault::PacketTooLong)),
    (b"1:\"ab\"*1048576", 0, Err(FieldFault::PacketTooLong)),
    (b"1:\"a\"*1048567 2{}", 0, Ok(1_048_576)),
    (b"1:\"a\"*1048568 2{}", 0, Err(FieldFault::PacketTooLong)),
];

#[test]
fn refusals_come_in_their_order(rt: HostRuntime) {
    for (text, depth, wanted) in ANSWERS {
        let answer = answer_to(&rt, text, depth, rt.alloc());
        assert_eq!(rt; answer, wanted.map_err(FieldError::Fault), "{text:?}");
    }
}

#[test]
fn a_tree_has_the_nodes_and_texts_of_its_line(rt: HostRuntime) {
    let text = b"1:1 2:\"hi\" 3{4:x'00ff' 5{}} 536870911:\"ab\"*3";
    let wanted: [(FieldNode, &[u8]); 8] = [
        (FieldNode::Number { field: 1, value: 1 }, b""),
        (FieldNode::Bytes { field: 2, times: 1 }, b"hi"),
        (FieldNode::Begin { field: 3 }, b""),
        (FieldNode::Bytes { field: 4, times: 1 }, b"\x00\xff"),
        (FieldNode::Begin { field: 5 }, b""),
        (FieldNode::End, b""),
        (FieldNode::End, b""),
        (
            FieldNode::Bytes {
                field: 536_870_911,
                times: 3,
            },
            b"ab",
        ),
    ];
    let Ok(tree) = parse_fields(rt.alloc(), text, 1) else {
        panic!(&rt; "the text is taken");
    };
    assert_eq!(rt; tree.enc_len(), 32);
    let mut fields = tree.fields();
    for (i, (node, text)) in wanted.iter().enumerate() {
        assert_eq!(rt; fields.next(), Some((*node, *text)), "node {i}");
    }
    assert_eq!(rt; fields.next(), None);
}
