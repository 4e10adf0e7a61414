//! A writer on a thread of its own fills chunks, and beside it the service takes them.
ghost use Rattle.std.specs.Prelude.{◌≡◌, ℕ, ◌+◌, ◌<◌, ◌≤◌, length};
ghost use Rattle.chunk_plain.specs.declared.tokens.TheConstants.{POSITION_LIMIT};
ghost use Rattle.chunk_words.specs.Sits.{Attends};
ghost use Rattle.chunk_words_rows.specs.Fresh.{IsFreshSeat};
ghost use Rattle.chunk_words_rows.specs.Page.{IsOnePage, HasTaken};

use crate::giving::give_back;
use crate::threads::{FROM, both, fill_page, make};
use chunk_words::{HostTable, ServiceSeat, WriterSeat};
use page_geometry::PageWord;
use std::test::Fail;
use std::thread::{Threads, join};
use trace_base::ids::id_of;

/// The service's way with one chunk: looks at it and loads it, and takes and releases it if it is the
/// first writer's next. Answers how many were taken of that writer.
fn serve(host: &HostTable, seat: &mut ServiceSeat, chunk: u32, next: u32, into: &mut [u8]) -> u32
    requires page { IsOnePage host.now }
    requires seat { Attends host.now seat.old }
    requires chunk { chunk < 14 }
    requires next { HasTaken next seat.old }
    requires few { next < POSITION_LIMIT }
    requires size { length into.old ≡ 284 }
    ensures seat { Attends host.now seat.new }
    ensures next { HasTaken result seat.new }
    ensures most { result ≤ next + 1 }
    ensures size { length into.new ≡ 284 }
{
    host.look(seat, chunk);
    host.load(seat, chunk, into);
    match host.take(seat, chunk, 1, id_of(FROM, next)) {
        Ok(taken) => {
            give_back(host, seat, taken, 1, next);
            next + 1
        }
        Err(_) => next,
    }
}

/// Goes through the chunks of the page so many times; answers how many chunks were taken by then.
fn serve_page(
    host: &HostTable,
    mut seat: ServiceSeat,
    first: u32,
    rounds: u32,
) -> (u32, ServiceSeat)
    requires page { IsOnePage host.now }
    requires seat { Attends host.now seat }
    requires next { HasTaken first seat }
    requires few { first + rounds < POSITION_LIMIT }
    ensures seat { Attends host.now result.1 }
    ensures next { HasTaken result.0 result.1 }
    ensures most { result.0 ≤ first + rounds }
{
    let mut copy = [0; 284];
    let mut next = first;
    for round in 0..rounds {
        next = serve(host, &mut seat, round % 14, next, &mut copy);
    }
    (next, seat)
}

/// The writer asks for chunks on a thread of its own, and the service takes them meanwhile.
fn on_both_sides(
    rt: &impl Threads,
    host: &HostTable,
    writer: WriterSeat,
    service: ServiceSeat,
) -> (u32, (u32, ServiceSeat))
    requires page { IsOnePage host.now }
    requires writer { IsFreshSeat host.now 0 writer }
    requires service { Attends host.now service }
    requires next { HasTaken 0 service }
    ensures seat { Attends host.now result.1.1 }
    ensures next { HasTaken result.1.0 result.1.1 }
    ensures most { result.1.0 ≤ 10_000 }
{
    let (filled, served) = join(
        rt,
        || fill_page(host, writer, 10_000),
        || serve_page(host, service, 0, 10_000),
    );
    (filled, served)
}

#[test]
fn the_service_takes_what_a_writer_fills_meanwhile(rt: HostRuntime) -> Result<(), Fail> {
    let (host, seats, service) = make(rt.alloc())?;
    let Some((writer, _idle)) = both(&host, seats) else {
        return Err(Fail::new("a writer has no seat"));
    };
    let (filled, (taken, service)) = on_both_sides(&rt, &host, writer, service);
    // What is left lies in the page, and its chunks are taken in the order of their positions: one at least
    // in each turn.
    let (taken, mut service) = serve_page(&host, service, taken, 14 * 14);
    assert_eq!(rt; taken, filled);
    assert_eq!(rt; host.look(&mut service, 0).word, PageWord(0x5000_0000));
    Ok(())
}
