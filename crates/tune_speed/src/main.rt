//! How fast the table is whose pages are partitioned anew, on one thread. The input says what is timed,
//! and how often: `claim N` for N rounds in which a user claims a chunk and gives it back, `vain N` for
//! rounds in which it claims one where none is free, `retile N` for rounds in which it partitions a
//! page anew and gives its chunks back, through all pages and layouts, `collect N` for rounds in which
//! it claims, begins and completes a chunk, and the collector goes over all 56 places. `bench/tune.py`
//! times it.
#![tactic(auto)]

mod rounds;

use crate::rounds::{Kind, go_rounds};
use byte_io::fill::fill_all;
use byte_io::standard::StdSource;
use std::io;

fn main(rt: HostRuntime) -> io::Result<()> {
    let mut input = StdSource::new(rt.stdin());
    let Ok(text) = fill_all(rt.alloc(), &mut input, 64) else {
        return println!(rt; "no input");
    };
    let Ok(line) = str::from_utf8(&text) else {
        return println!(rt; "no text");
    };
    let Some((word, number)) = line.trim().split_once(' ') else {
        return println!(rt; "no number");
    };
    let Ok(rounds) = number.parse::<u32>() else {
        return println!(rt; "no number");
    };
    let kind = match word {
        "claim" => Kind::Claim,
        "vain" => Kind::Vain,
        "retile" => Kind::Retile,
        _ => Kind::Collect,
    };
    match go_rounds(rt.alloc(), kind, rounds) {
        None => println!(rt; "out of memory"),
        Some(done) => println!(rt; "{word} {rounds} done {done}"),
    }
}
