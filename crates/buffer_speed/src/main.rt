//! How fast chunks arrive in a buffer, records are put into its ring, and its index answers. The input
//! says what is timed, and how often: `buffer N`, `ring N`, `copy N` for N copies of as many bytes as
//! a record has, or `index N`. `bench/buffer.py` times it.
#![tactic(auto)]

mod arrivals;
mod entries;
mod records;

use crate::arrivals::let_arrive;
use crate::entries::look_up;
use crate::records::{copy_records, write_records};
use byte_io::fill::fill_all;
use byte_io::standard::StdSource;
use std::io;

fn main(rt: HostRuntime) -> io::Result<()> {
    let mut input = StdSource::new(rt.stdin());
    let Ok(text) = fill_all(rt.alloc(), &mut input, 64) else {
        return println!(rt; "no input");
    };
    let Ok(line) = str::from_utf8(&text) else {
        return println!(rt; "no text");
    };
    let Some((kind, number)) = line.trim().split_once(' ') else {
        return println!(rt; "no number");
    };
    let Ok(count) = number.parse::<u32>() else {
        return println!(rt; "no number");
    };
    let answer = match kind {
        "buffer" => let_arrive(rt.alloc(), count),
        "ring" => write_records(rt.alloc(), count),
        "copy" => copy_records(rt.alloc(), count),
        _ => look_up(rt.alloc(), count),
    };
    match answer {
        None => println!(rt; "out of memory"),
        Some(last) => println!(rt; "{kind} {count} last {last}"),
    }
}
