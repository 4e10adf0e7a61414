//! How fast a full buffer is read. The input says what is timed, and how many rounds: `short N` fills a
//! buffer with packets of 30 bytes and reads it, N times over, `long N` the same with packets of 100 KB;
//! `short-fill N` and `long-fill N` fill alone, and `copy N` copies as many bytes. `bench/reader.py`
//! times it.
#![tactic(auto)]

mod rounds;
mod window;

use crate::rounds::{Kind, copy_rounds, read_rounds};
use byte_io::fill::fill_all;
use byte_io::standard::StdSource;
use std::io;

fn main(rt: HostRuntime) -> io::Result<()> {
    let mut input = StdSource::new(rt.stdin());
    let Ok(text) = fill_all(rt.alloc(), &mut input, 64) else {
        return println!(rt; "no input");
    };
    let Ok(line) = str::from_utf8(&text) else {
        return println!(rt; "no text");
    };
    let Some((kind, number)) = line.trim().split_once(' ') else {
        return println!(rt; "no number");
    };
    let Ok(rounds) = number.parse::<u32>() else {
        return println!(rt; "no number");
    };
    let answer = match kind {
        "short" => read_rounds(rt.alloc(), rounds, Kind::Short, true),
        "short-fill" => read_rounds(rt.alloc(), rounds, Kind::Short, false),
        "long" => read_rounds(rt.alloc(), rounds, Kind::Long, true),
        "long-fill" => read_rounds(rt.alloc(), rounds, Kind::Long, false),
        _ => copy_rounds(rt.alloc(), rounds),
    };
    match answer {
        None => println!(rt; "out of memory"),
        Some(count) => println!(rt; "{kind} {rounds} count {count}"),
    }
}
