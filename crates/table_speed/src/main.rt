//! How fast the table is that threads share. The input says what is timed, and how often: `cycle N`
//! for N rounds of one chunk, from its claim to its release, `payload N` for what the payload alone
//! takes in as many rounds, `poll N` for N polls of a writer where no flush request was made, or
//! packets of four writers, each on a thread of its own and with N packets, beside the service: `own
//! N` where each has chunks of its own, `shared N` where they claim the same ones. `bench/table.py`
//! times it.
#![tactic(auto)]

mod giving;
mod payload;
mod places;
mod polls;
mod rounds;
mod service;
mod threads;
mod writers;

use crate::payload::pass_payload;
use crate::polls::poll_often;
use crate::rounds::go_round;
use crate::threads::write_on_threads;
use byte_io::fill::fill_all;
use byte_io::standard::StdSource;
use std::io;

fn main(rt: HostRuntime) -> io::Result<()> {
    let mut input = StdSource::new(rt.stdin());
    let Ok(text) = fill_all(rt.alloc(), &mut input, 64) else {
        return println!(rt; "no input");
    };
    let Ok(line) = str::from_utf8(&text) else {
        return println!(rt; "no text");
    };
    let Some((kind, number)) = line.trim().split_once(' ') else {
        return println!(rt; "no number");
    };
    let Ok(count) = number.parse::<u32>() else {
        return println!(rt; "no number");
    };
    let answer = match kind {
        "cycle" => go_round(rt.alloc(), count),
        "payload" => pass_payload(rt.alloc(), count),
        "poll" => poll_often(rt.alloc(), count),
        "own" => write_on_threads(&rt, rt.alloc(), true, count),
        _ => write_on_threads(&rt, rt.alloc(), false, count),
    };
    match answer {
        None => println!(rt; "out of memory"),
        Some(tally) => println!(rt;
            "{kind} {count} written {} chunks {} taken {}",
            tally.written, tally.chunks, tally.taken
        ),
    }
}
