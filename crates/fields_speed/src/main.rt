//! How fast fields are read: each line of the input is one packet's fields, and the output says how
//! many lines gave a tree, and how long the encodings are together. `bench/fields.py` times it.
#![tactic(auto)]

ghost use Rattle.std.specs.Prelude.{◌<◌, ◌≤◌, length};

use byte_io::fill::fill_all;
use byte_io::standard::StdSource;
use field_tree::parse_fields;
use std::alloc::Global;
use std::io;
use trace_base::limits::MAX_INPUT;

/// What was read.
#[derive(Clone, Copy)]
struct Tally {
    trees: u64,
    encoded: u64,
}

/// The first line, and what stands behind it.
fn first_line(text: &[u8]) -> (&[u8], &[u8])
    ensures line { length result.0.now ≤ length text.now }
    ensures shorter { 0 < length text.now → length result.1.now < length text.now }
{
    match text.iter().position(|byte| *byte == b'\n') {
        None => (text, &text[text.len()..]),
        Some(at) => (&text[..at], &text[at + 1..]),
    }
}

fn read_lines(alloc: Global, text: &[u8]) -> Tally
    requires { length text.now ≤ MAX_INPUT }
{
    let mut read = Tally {
        trees: 0,
        encoded: 0,
    };
    let mut rest = text;
    'lines: while !rest.is_empty() {
        let (line, behind) = first_line(rest);
        if let Ok(tree) = parse_fields(alloc, line, 0) {
            read.trees = read.trees.saturating_add(1);
            read.encoded = read.encoded.saturating_add(u64::from(tree.enc_len()));
        }
        rest = behind;
    }
    read
}

fn main(rt: HostRuntime) -> io::Result<()> {
    let mut input = StdSource::new(rt.stdin());
    match fill_all(rt.alloc(), &mut input, MAX_INPUT) {
        Ok(text) => {
            let read = read_lines(rt.alloc(), &text);
            println!(rt; "trees {} bytes {}", read.trees, read.encoded)
        }
        Err(fault) => println!(rt; "{fault}"),
    }
}
