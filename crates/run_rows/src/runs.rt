//! Runs whose gates fix the order that a test is about, and runs that leave it to the threads.
use crate::gates::{Both, Hold, Place, Three};
use byte_io::memory::{MemSink, MemSource};
use byte_io::traits::{Gate, OpenGate};
use std::sync::Wait;
use std::sync::atomic::Ordering;
use std::test::Fail;
use std::thread::Threads;
use tracesmb_top::trace_top;

/// Room for everything that a test writes.
const AMPLE: usize = 100_000;

/// What a run left.
#[derive(Drop)]
struct Ran {
    status: u8,
    trace: MemSink,
    text: MemSink,
}

fn call<R: Threads + Wait + Sync + AllocGlobal, G: Gate + Sync>(
    rt: &R,
    line: &str,
    input: Vec<u8>,
    gate: &G,
) -> Result<Ran, Fail> {
    let mut words = Vec::new(rt.alloc());
    for word in line.split(' ') {
        words.push(String::from_str(rt.alloc(), word)?)?;
    }
    let mut input = MemSource::new(input);
    let mut trace = MemSink::with_room(rt.alloc(), AMPLE)?;
    let mut text = MemSink::with_room(rt.alloc(), AMPLE)?;
    let status = trace_top(
        rt,
        rt.alloc(),
        &words,
        &mut input,
        &mut trace,
        &mut text,
        gate,
    );
    Ok(Ran {
        status,
        trace,
        text,
    })
}

fn run<R: Threads + Wait + Sync + AllocGlobal, G: Gate + Sync>(
    rt: &R,
    scenario: Vec<u8>,
    gate: &G,
) -> Result<Ran, Fail> {
    call(rt, "run", scenario, gate)
}

const TWO_WRITERS: &[u8] =
    b"buffer 64 ring\nproducer 1 4096 14\nwriter 1 1 drop\nwriter 1 1 drop\np 1 8:1\np 1 8:2\np 2 8:3\np 2 8:4\n";

#[test]
fn writers_run_beside_each_other(rt: HostRuntime) -> Result<(), Fail> {
    // The first writer waits for the second one's second line, which waits for the first one's.
    let gate = Both {
        first: Hold::new(Place { job: 1, line: 1 }, Place { job: 2, line: 2 }),
        second: Hold::new(Place { job: 2, line: 2 }, Place { job: 1, line: 2 }),
    };
    let ran = run(&rt, TWO_WRITERS.to_vec(rt.alloc())?, &gate)?;
    assert_eq!(rt; ran.status, 0);
    assert_eq!(rt; gate.first.ran_out.load(Ordering::SeqCst), 0);
    assert_eq!(rt; gate.second.ran_out.load(Ordering::SeqCst), 0);
    assert_eq!(rt;
        ran.trace.taken(),
        b"\x0A\x07\x40\x01\x50\x02\xD0\x02\x01\x0A\x04\x40\x02\x50\x02\x0A\x07\x40\x03\x50\x03\xD0\x02\x01\x0A\x04\x40\x04\x50\x03".as_slice()
    );
    Ok(())
}

const ONE_CHUNK: &[u8] =
    b"buffer 64 ring\nproducer 1 4096 1\nwriter 1 1 drop\nwriter 1 1 drop\np 1 8:1\np 2 8:2\n";

const FIRST_WON: &[u8] =
    b"buffer 1 ring bytes 65536 placed 1 rewritten 0 overwritten 0 discarded 0 unpatched 0 padding 0\nsequence 2 begun 1 delivered 1 dropped 0 overwritten 0 discarded 0 cut 0\nsequence 3 begun 1 delivered 0 dropped 1 overwritten 0 discarded 0 cut 0\n";

const SECOND_WON: &[u8] =
    b"buffer 1 ring bytes 65536 placed 1 rewritten 0 overwritten 0 discarded 0 unpatched 0 padding 0\nsequence 2 begun 1 delivered 0 dropped 1 overwritten 0 discarded 0 cut 0\nsequence 3 begun 1 delivered 1 dropped 0 overwritten 0 discarded 0 cut 0\n";

#[test]
fn the_trace_follows_the_order_of_the_claims(rt: HostRuntime) -> Result<(), Fail> {
    let gate = Hold::new(Place { job: 2, line: 1 }, Place { job: 1, line: 2 });
    let ran = run(&rt, ONE_CHUNK.to_vec(rt.alloc())?, &gate)?;
    assert_eq!(rt; gate.ran_out.load(Ordering::SeqCst), 0);
    assert_eq!(rt;
        ran.trace.taken(),
        b"\x0A\x07\x40\x01\x50\x02\xD0\x02\x01".as_slice()
    );
    assert_eq!(rt; ran.text.taken(), FIRST_WON);
    let gate = Hold::new(Place { job: 1, line: 1 }, Place { job: 2, line: 2 });
    let ran = run(&rt, ONE_CHUNK.to_vec(rt.alloc())?, &gate)?;
    assert_eq!(rt; gate.ran_out.load(Ordering::SeqCst), 0);
    assert_eq!(rt;
        ran.trace.taken(),
        b"\x0A\x07\x40\x02\x50\x03\xD0\x02\x01".as_slice()
    );
    assert_eq!(rt; ran.text.taken(), SECOND_WON);
    Ok(())
}

const REQUESTED: &[u8] = b"buffer 64 ring\nproducer 1 4096 14\nwriter 1 1 drop\np 1 8:1\nq\n";

const ANSWERED_BEFORE: &[u8] =
    b"buffer 1 ring bytes 65536 placed 1 rewritten 0 overwritten 0 discarded 0 unpatched 0 padding 0\nsequence 2 begun 1 delivered 1 dropped 0 overwritten 0 discarded 0 cut 0\nflush 1 chunks 0\n";

const ANSWERED_BEHIND: &[u8] =
    b"buffer 1 ring bytes 65536 placed 1 rewritten 0 overwritten 0 discarded 0 unpatched 0 padding 0\nsequence 2 begun 1 delivered 1 dropped 0 overwritten 0 discarded 0 cut 0\nflush 1 chunks 1\n";

#[test]
fn a_request_is_answered_before_a_line_or_at_the_end(rt: HostRuntime) -> Result<(), Fail> {
    // The writer comes to its line once the request is made, and answers before it.
    let gate = Hold::new(Place { job: 1, line: 1 }, Place { job: 0, line: 2 });
    let ran = run(&rt, REQUESTED.to_vec(rt.alloc())?, &gate)?;
    assert_eq!(rt; ran.status, 0);
    assert_eq!(rt; gate.ran_out.load(Ordering::SeqCst), 0);
    assert_eq!(rt;
        ran.trace.taken(),
        b"\x0A\x07\x40\x01\x50\x02\xD0\x02\x01".as_slice()
    );
    assert_eq!(rt; ran.text.taken(), ANSWERED_BEFORE);
    // The request is made once the writer has played its line.
    let gate = Hold::new(Place { job: 0, line: 1 }, Place { job: 1, line: 2 });
    let ran = run(&rt, REQUESTED.to_vec(rt.alloc())?, &gate)?;
    assert_eq!(rt; ran.status, 0);
    assert_eq!(rt; gate.ran_out.load(Ordering::SeqCst), 0);
    assert_eq!(rt;
        ran.trace.taken(),
        b"\x0A\x07\x40\x01\x50\x02\xD0\x02\x01".as_slice()
    );
    assert_eq!(rt; ran.text.taken(), ANSWERED_BEHIND);
    Ok(())
}

const REQUESTED_INSIDE: &[u8] =
    b"buffer 64 ring\nproducer 1 4096 14\nwriter 1 1 drop\nb 1\na 1 8:1\nq\ne 1\np 1 8:2\n";

const ANSWERED_BETWEEN: &[u8] =
    b"buffer 1 ring bytes 65536 placed 2 rewritten 0 overwritten 0 discarded 0 unpatched 0 padding 0\nsequence 2 begun 2 delivered 2 dropped 0 overwritten 0 discarded 0 cut 0\nflush 1 chunks 1\n";

#[test]
fn a_writer_answers_between_two_packets(rt: HostRuntime) -> Result<(), Fail> {
    // The request is made while the packet is begun: its writer answers before the next one.
    let gate = Hold::new(Place { job: 1, line: 2 }, Place { job: 0, line: 2 });
    let ran = run(&rt, REQUESTED_INSIDE.to_vec(rt.alloc())?, &gate)?;
    assert_eq!(rt; ran.status, 0);
    assert_eq!(rt; gate.ran_out.load(Ordering::SeqCst), 0);
    assert_eq!(rt; ran.text.taken(), ANSWERED_BETWEEN);
    Ok(())
}

const REQUESTED_TWICE: &[u8] =
    b"buffer 64 ring\nproducer 1 4096 14\nwriter 1 1 drop\np 1 8:1\nq\nq\nr 1\np 1 8:2\n";

const ANSWERED_APART: &[u8] =
    b"buffer 1 ring bytes 65536 placed 2 rewritten 0 overwritten 0 discarded 0 unpatched 0 padding 0\nsequence 2 begun 2 delivered 2 dropped 0 overwritten 0 discarded 0 cut 0\nflush 1 chunks 1\nflush 2 chunks 2\n";

#[test]
fn the_first_answer_that_was_read_counts(rt: HostRuntime) -> Result<(), Fail> {
    // The first request is made behind the first packet. The writer answers it before its second packet, and the second request, which is
    // made behind that packet, at the end.
    let gate = Three {
        first: Hold::new(Place { job: 0, line: 1 }, Place { job: 1, line: 2 }),
        second: Hold::new(Place { job: 1, line: 2 }, Place { job: 0, line: 2 }),
        third: Hold::new(Place { job: 0, line: 2 }, Place { job: 1, line: 3 }),
    };
    let ran = run(&rt, REQUESTED_TWICE.to_vec(rt.alloc())?, &gate)?;
    assert_eq!(rt; ran.status, 0);
    assert_eq!(rt; gate.first.ran_out.load(Ordering::SeqCst), 0);
    assert_eq!(rt; gate.second.ran_out.load(Ordering::SeqCst), 0);
    assert_eq!(rt; gate.third.ran_out.load(Ordering::SeqCst), 0);
    assert_eq!(rt; ran.text.taken(), ANSWERED_APART);
    Ok(())
}

const ANSWERED_ONCE: &[u8] =
    b"buffer 1 ring bytes 65536 placed 2 rewritten 0 overwritten 0 discarded 0 unpatched 0 padding 0\nsequence 2 begun 2 delivered 2 dropped 0 overwritten 0 discarded 0 cut 0\nflush 1 chunks 1\nflush 2 chunks 1\n";

#[test]
fn one_answer_is_to_all_requests_so_far(rt: HostRuntime) -> Result<(), Fail> {
    // Both requests are made between the two packets, and the writer answers the second one alone.
    let gate = Both {
        first: Hold::new(Place { job: 0, line: 1 }, Place { job: 1, line: 2 }),
        second: Hold::new(Place { job: 1, line: 2 }, Place { job: 0, line: 3 }),
    };
    let ran = run(&rt, REQUESTED_TWICE.to_vec(rt.alloc())?, &gate)?;
    assert_eq!(rt; ran.status, 0);
    assert_eq!(rt; gate.first.ran_out.load(Ordering::SeqCst), 0);
    assert_eq!(rt; gate.second.ran_out.load(Ordering::SeqCst), 0);
    assert_eq!(rt; ran.text.taken(), ANSWERED_ONCE);
    Ok(())
}

const SCRAPED: &[u8] =
    b"buffer 64 ring\nproducer 1 4096 14\nwriter 1 1 drop\np 1 8:1\nb 1\na 1 8:2\ns 1\nr 1\ne 1\n";

const REWRITTEN: &[u8] =
    b"buffer 1 ring bytes 65536 placed 1 rewritten 1 overwritten 0 discarded 0 unpatched 0 padding 0\nsequence 2 begun 2 delivered 2 dropped 0 overwritten 0 discarded 0 cut 0\n";

#[test]
fn a_scrape_finds_what_a_writer_holds_meanwhile(rt: HostRuntime) -> Result<(), Fail> {
    // The service waits until the second packet is begun, and its writer until all of its lines are played.
    let gate = Both {
        first: Hold::new(Place { job: 0, line: 1 }, Place { job: 1, line: 4 }),
        second: Hold::new(Place { job: 1, line: 4 }, Place { job: 0, line: 3 }),
    };
    let ran = run(&rt, SCRAPED.to_vec(rt.alloc())?, &gate)?;
    assert_eq!(rt; gate.first.ran_out.load(Ordering::SeqCst), 0);
    assert_eq!(rt; gate.second.ran_out.load(Ordering::SeqCst), 0);
    assert_eq!(rt;
        ran.trace.taken(),
        b"\x0A\x07\x40\x01\x50\x02\xD0\x02\x01\x0A\x04\x40\x02\x50\x02".as_slice()
    );
    assert_eq!(rt; ran.text.taken(), REWRITTEN);
    Ok(())
}

const FREED: &[u8] =
    b"buffer 64 ring\nproducer 1 4096 1\nwriter 1 1 drop\np 1 8:1\nf 1\nc 1\np 1 8:2\n";

const BOTH_PLACED: &[u8] =
    b"buffer 1 ring bytes 65536 placed 2 rewritten 0 overwritten 0 discarded 0 unpatched 0 padding 0\nsequence 2 begun 2 delivered 2 dropped 0 overwritten 0 discarded 0 cut 0\n";

#[test]
fn a_collect_frees_what_a_writer_completed_meanwhile(rt: HostRuntime) -> Result<(), Fail> {
    // There is one chunk, and its writer drops: the second packet comes where the first one's was taken by then.
    let gate = Both {
        first: Hold::new(Place { job: 0, line: 1 }, Place { job: 1, line: 3 }),
        second: Hold::new(Place { job: 1, line: 3 }, Place { job: 0, line: 2 }),
    };
    let ran = run(&rt, FREED.to_vec(rt.alloc())?, &gate)?;
    assert_eq!(rt; gate.first.ran_out.load(Ordering::SeqCst), 0);
    assert_eq!(rt; gate.second.ran_out.load(Ordering::SeqCst), 0);
    assert_eq!(rt;
        ran.trace.taken(),
        b"\x0A\x07\x40\x01\x50\x02\xD0\x02\x01\x0A\x04\x40\x02\x50\x02".as_slice()
    );
    assert_eq!(rt; ran.text.taken(), BOTH_PLACED);
    Ok(())
}

const ASKS_TWICE: &[u8] =
    b"buffer 64 ring\nproducer 1 4096 1\nwriter 1 1 drop\nwriter 1 1 stall:2\np 1 8:1\nf 1\np 2 8:2\n";

const NEITHER_LOST: &[u8] =
    b"buffer 1 ring bytes 65536 placed 2 rewritten 0 overwritten 0 discarded 0 unpatched 0 padding 0\nsequence 2 begun 1 delivered 1 dropped 0 overwritten 0 discarded 0 cut 0\nsequence 3 begun 1 delivered 1 dropped 0 overwritten 0 discarded 0 cut 0\n";

// The first writer holds the only chunk until the second one has dropped its packet.
#[test]
fn a_writer_drops_where_its_asks_free_nothing(rt: HostRuntime) -> Result<(), Fail> {
    let gate = Both {
        first: Hold::new(Place { job: 2, line: 1 }, Place { job: 1, line: 2 }),
        second: Hold::new(Place { job: 1, line: 2 }, Place { job: 2, line: 2 }),
    };
    let ran = run(&rt, ASKS_TWICE.to_vec(rt.alloc())?, &gate)?;
    assert_eq!(rt; ran.status, 0);
    assert_eq!(rt; gate.first.ran_out.load(Ordering::SeqCst), 0);
    assert_eq!(rt; gate.second.ran_out.load(Ordering::SeqCst), 0);
    assert_eq!(rt;
        ran.trace.taken(),
        b"\x0A\x07\x40\x01\x50\x02\xD0\x02\x01".as_slice()
    );
    assert_eq!(rt; ran.text.taken(), FIRST_WON);
    Ok(())
}

// It has completed the chunk before the second one asks for it.
#[test]
fn an_ask_frees_what_another_writer_completed(rt: HostRuntime) -> Result<(), Fail> {
    let gate = Hold::new(Place { job: 2, line: 1 }, Place { job: 1, line: 3 });
    let ran = run(&rt, ASKS_TWICE.to_vec(rt.alloc())?, &gate)?;
    assert_eq!(rt; ran.status, 0);
    assert_eq!(rt; gate.ran_out.load(Ordering::SeqCst), 0);
    assert_eq!(rt;
        ran.trace.taken(),
        b"\x0A\x07\x40\x01\x50\x02\xD0\x02\x01\x0A\x07\x40\x02\x50\x03\xD0\x02\x01".as_slice()
    );
    assert_eq!(rt; ran.text.taken(), NEITHER_LOST);
    Ok(())
}

const ASKS_FOR_TWO: &[u8] =
    b"buffer 64 ring\nproducer 1 4096 1\nwriter 1 1 drop\nwriter 1 1 stall:2\np 1 8:1\np 2 8:2\nf 1\np 2 8:3\n";

const ONE_LOST: &[u8] =
    b"buffer 1 ring bytes 65536 placed 2 rewritten 0 overwritten 0 discarded 0 unpatched 0 padding 0\nsequence 2 begun 1 delivered 1 dropped 0 overwritten 0 discarded 0 cut 0\nsequence 3 begun 2 delivered 1 dropped 1 overwritten 0 discarded 0 cut 0\n";

// Its lines come one behind another, as they stand: the second writer asks in vain for its first packet, and not for its next one. What
// was written is faithful to the lines.
#[test]
fn a_writer_goes_on_behind_a_loss(rt: HostRuntime) -> Result<(), Fail> {
    let gate = Three {
        first: Hold::new(Place { job: 2, line: 1 }, Place { job: 1, line: 2 }),
        second: Hold::new(Place { job: 1, line: 2 }, Place { job: 2, line: 2 }),
        third: Hold::new(Place { job: 2, line: 2 }, Place { job: 1, line: 3 }),
    };
    let ran = run(&rt, ASKS_FOR_TWO.to_vec(rt.alloc())?, &gate)?;
    assert_eq!(rt; ran.status, 0);
    assert_eq!(rt; gate.first.ran_out.load(Ordering::SeqCst), 0);
    assert_eq!(rt; gate.second.ran_out.load(Ordering::SeqCst), 0);
    assert_eq!(rt; gate.third.ran_out.load(Ordering::SeqCst), 0);
    assert_eq!(rt;
        ran.trace.taken(),
        b"\x0A\x07\x40\x01\x50\x02\xD0\x02\x01\x0A\x0A\xD0\x02\x01\x40\x03\x50\x03\xD0\x02\x01".as_slice()
    );
    assert_eq!(rt; ran.text.taken(), ONE_LOST);
    let mut both = ASKS_FOR_TWO.to_vec(rt.alloc())?;
    both.extend_from_slice(b"==\n")?;
    both.extend_from_slice(ran.trace.taken())?;
    let checked = call(&rt, "check", both, &OpenGate)?;
    assert_eq!(rt; checked.status, 0);
    assert_eq!(rt; checked.trace.taken(), b"agrees 2\n".as_slice());
    Ok(())
}

/// Packets of each writer that stalls.
const MANY: usize = 60;

const FIRST_BEHIND_SECOND: &[u8] =
    b"buffer 4 ring\nproducer 1 4096 1\nproducer 1 4096 1\nwriter 2 1 drop\nwriter 1 1 drop\np 1 8:1\np 2 8:2\n";

const SECOND_OVERWRITTEN: &[u8] =
    b"buffer 1 ring bytes 4096 placed 2 rewritten 0 overwritten 1 discarded 0 unpatched 0 padding 0\nsequence 2 begun 1 delivered 1 dropped 0 overwritten 0 discarded 0 cut 0\nsequence 3 begun 1 delivered 0 dropped 0 overwritten 1 discarded 0 cut 0\n";

// The ring has room for one chunk, and the first writer's is taken last: its producer is the second one.
#[test]
fn the_end_takes_producers_in_rising_number(rt: HostRuntime) -> Result<(), Fail> {
    let ran = run(&rt, FIRST_BEHIND_SECOND.to_vec(rt.alloc())?, &OpenGate)?;
    assert_eq!(rt; ran.status, 0);
    assert_eq!(rt;
        ran.trace.taken(),
        b"\x0A\x07\x40\x01\x50\x02\xD0\x02\x01".as_slice()
    );
    assert_eq!(rt; ran.text.taken(), SECOND_OVERWRITTEN);
    Ok(())
}

const NONE_LOST: &[u8] =
    b"sequence 2 begun 60 delivered 60 dropped 0 overwritten 0 discarded 0 cut 0\nsequence 3 begun 60 delivered 60 dropped 0 overwritten 0 discarded 0 cut 0\n";

#[test]
fn writers_that_stall_lose_nothing(rt: HostRuntime) -> Result<(), Fail> {
    let mut scenario =
        b"buffer 256 ring\nproducer 1 4096 2\nwriter 1 1 stall\nwriter 1 1 stall\n".to_vec(
            rt.alloc(),
        )?;
    for _ in 0..MANY {
        scenario.extend_from_slice(
            b"p 1 900{1:\"abcdefghij\"*30}\np 2 900{1:\"0123456789\"*30}\n",
        )?;
    }
    let ran = run(&rt, scenario, &OpenGate)?;
    assert_eq!(rt; ran.status, 0);
    assert!(rt; ran.text.taken().ends_with(NONE_LOST));
    Ok(())
}

const FOUR_WRAP: &[u8] =
    b"buffer 256 ring\nproducer 1 4096 14\nwriter 1 1 stall from 4294967295\nwriter 1 1 stall from 4294967294\nwriter 1 1 stall from 4294967290\nwriter 1 1 stall from 4294967280\n";

const NONE_OF_FOUR_LOST: &[u8] =
    b"sequence 2 begun 60 delivered 60 dropped 0 overwritten 0 discarded 0 cut 0\nsequence 3 begun 60 delivered 60 dropped 0 overwritten 0 discarded 0 cut 0\nsequence 4 begun 60 delivered 60 dropped 0 overwritten 0 discarded 0 cut 0\nsequence 5 begun 60 delivered 60 dropped 0 overwritten 0 discarded 0 cut 0\n";

// Each of four writers comes to the last id and goes on at 0, in the midst of packets.
#[test]
fn four_writers_go_on_behind_the_last_id(rt: HostRuntime) -> Result<(), Fail> {
    let mut scenario = FOUR_WRAP.to_vec(rt.alloc())?;
    for _ in 0..MANY {
        scenario.extend_from_slice(
            b"p 1 900{1:\"abcdefghij\"*30}\np 2 900{1:\"0123456789\"*30}\np 3 8:3\np 4 900{1:\"xy\"*100}\n",
        )?;
    }
    let mut both = Vec::from_slice(rt.alloc(), &scenario)?;
    let ran = run(&rt, scenario, &OpenGate)?;
    assert_eq!(rt; ran.status, 0);
    assert!(rt; ran.text.taken().ends_with(NONE_OF_FOUR_LOST));
    both.extend_from_slice(b"==\n")?;
    both.extend_from_slice(ran.trace.taken())?;
    let checked = call(&rt, "check", both, &OpenGate)?;
    assert_eq!(rt; checked.status, 0);
    assert_eq!(rt; checked.trace.taken(), b"agrees 240\n".as_slice());
    Ok(())
}

const TUNED: &[u8] =
    b"user 1 claimed 3 none 0 retiled 2 refused 0\ntaken 3\npage 1 generation 0 chunks 14\npage 2 generation 1 chunks 2\npage 3 generation 1 chunks 7\npage 4 generation 0 chunks 14\n";

#[test]
fn a_user_runs_beside_the_collector(rt: HostRuntime) -> Result<(), Fail> {
    // The collector waits before its second round until the user begins, which waits for that round.
    let gate = Both {
        first: Hold::new(Place { job: 0, line: 2 }, Place { job: 1, line: 1 }),
        second: Hold::new(Place { job: 1, line: 1 }, Place { job: 0, line: 2 }),
    };
    let ran = call(&rt, "tune 1 5", Vec::new(rt.alloc()), &gate)?;
    assert_eq!(rt; ran.status, 0);
    assert_eq!(rt; gate.first.ran_out.load(Ordering::SeqCst), 0);
    assert_eq!(rt; gate.second.ran_out.load(Ordering::SeqCst), 0);
    assert_eq!(rt; ran.trace.taken(), TUNED);
    assert_eq!(rt; ran.text.taken(), b"".as_slice());
    Ok(())
}
