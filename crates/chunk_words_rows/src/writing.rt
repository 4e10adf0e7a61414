//! Writers on threads of their own fill the chunks of one page, and beside them the service takes
//! what is next of each.
ghost use Rattle.std.specs.Prelude.{◌≡◌, ℕ, ◌+◌, ◌-◌, ◌<◌, ◌≤◌, false, [], length, IfSome, IfNone};
ghost use Rattle.page_geometry.specs.Sizes.{payload_size};
ghost use Rattle.chunk_plain.specs.declared.tokens.TheConstants.{POSITION_LIMIT};
ghost use Rattle.chunk_plain.specs.Views.{newcomer, taken_of};
ghost use Rattle.chunk_plain.specs.Words.{AllArrived};
ghost use Rattle.chunk_words.specs.Knows.{service_of};
ghost use Rattle.chunk_words.specs.Sits.{Sits, Attends, known_by};
ghost use Rattle.trace_writer.specs.declared.ids.TheConstants.{PACKET_IDS};
ghost use Rattle.trace_writer.specs.Core.{in_packet};
ghost use Rattle.thread_writer.specs.Writing.{view_in};
ghost use Rattle.chunk_words_rows.specs.Fresh.{IsFreshSeat};
ghost use Rattle.chunk_words_rows.specs.Page.{IsOnePage, HasTakenOf};
ghost use Rattle.chunk_words_rows.specs.Going.{IsReady, TakesOne, TakesNone};

use crate::giving::give_back;
use crate::threads::{FROM, both, make};
use chunk_words::{HostTable, ServiceSeat, WriterSeat};
use claim_arbiter::Arbiter;
use page_geometry::{Geometry, PageWord};
use std::marker::Brand;
use std::sync::ledger::{Blank, Ledger};
use std::test::Fail;
use std::thread::{Threads, join};
use thread_writer::{Asks, TraceWriter};
use trace_base::ids::id_of;
use trace_base::policy::{WriterPolicy, WriterSpec};
use trace_base::steps::Steps;
use trace_writer::{NoHelp, PACKET_IDS, drops_never_stall};

/// How many packets each writer begins.
const PACKETS: u32 = 20_000;

/// How many looks the service makes meanwhile.
const LOOKS: u32 = 100_000;

/// What a writer counts.
#[derive(Clone, Copy)]
struct Tally {
    begun: u64,
    dropped: u64,
    chunks: u32,
}

/// The chunks that the service took of each writer, and the fragments in all of them.
#[derive(Clone, Copy)]
struct Counts {
    first: u32,
    second: u32,
    fragments: u64,
}

/// The writer of a seat with which nothing was done.
pub(crate) fn writer_for(host: &HostTable, seat: WriterSeat, geometry: Geometry) -> TraceWriter
    requires page { IsOnePage host.now }
    requires seat { Sits host.now seat }
    requires place { seat.place < 2 }
    requires fresh { known_by seat ≡ newcomer }
    requires size { payload_size geometry.page_size geometry.chunks ≡ 284 }
    ensures ready { IsReady host.now result }
    ensures outside { in_packet (view_in result) ≡ false }
{
    let (first, count) = host.chunks_of(1);
    let spec = WriterSpec {
        producer: 1,
        buffer: 1,
        policy: WriterPolicy::Drops,
        from: FROM,
    };
    TraceWriter::make(seat, spec, Arbiter::new(first, count), geometry)
}

/// Writes a packet with one number.
pub(crate) fn write_number<L: Ledger>(
    host: &HostTable,
    writer: &mut TraceWriter,
    number: u32,
    steps: &mut Steps<L>,
)
    requires ready { IsReady host.now writer.old }
    requires outside { in_packet (view_in writer.old) ≡ false }
    requires ids { length (view_in writer.old).begun + PACKET_IDS ≤ POSITION_LIMIT }
    ensures ready { IsReady host.now writer.new }
    ensures outside { in_packet (view_in writer.new) ≡ false }
{
    drops_never_stall();
    let mut asks = Asks { help: NoHelp };
    let Ok(_begun) = writer.begin(host, &mut asks, steps) else {
        unreachable!()
    };
    let _ = writer.varint(host, &mut asks, 8, u64::from(number), steps);
    writer.finish(host);
}

/// Writes so many packets, and lets the writer go.
fn write_packets<L: Ledger>(
    host: &HostTable,
    mut writer: TraceWriter,
    packets: u32,
    blank: Blank,
) -> Tally
    requires ready { IsReady host.now writer }
    requires outside { in_packet (view_in writer) ≡ false }
    requires name { blank.name ≡ L.name }
    requires parts { blank.parts ≡ L.parts }
    requires some_part { 0 < L.parts }
{
    let mut steps = Steps::<L>::new(blank);
    for number in 0..packets {
        if writer.ids_left() < PACKET_IDS {
            break;
        }
        write_number(host, &mut writer, number, &mut steps);
    }
    writer.flush(host);
    let tally = Tally {
        begun: writer.begun(),
        dropped: writer.dropped_at_begin(),
        chunks: writer.completed(),
    };
    let _seat = writer.into_seat();
    tally
}

/// The same by the writer of a seat with which nothing was done.
fn write_counted(host: &HostTable, seat: WriterSeat, geometry: Geometry) -> Tally
    requires page { IsOnePage host.now }
    requires seat { Sits host.now seat }
    requires place { seat.place < 2 }
    requires fresh { known_by seat ≡ newcomer }
    requires size { payload_size geometry.page_size geometry.chunks ≡ 284 }
{
    let writer = writer_for(host, seat, geometry);
    write_packets::<Brand>(host, writer, PACKETS, Blank::new(1))
}

/// Takes the chunk, if it is the next one of the writer with this number. Answers its fragments.
fn take_one(
    host: &HostTable,
    seat: &mut ServiceSeat,
    chunk: u32,
    writer: u16,
    position: u32,
) -> Option<u16>
    requires page { IsOnePage host.now }
    requires seat { Attends host.now seat.old }
    requires chunk { chunk < 14 }
    requires least { 1 ≤ writer }
    requires most { writer ≤ 2 }
    requires position { position ≡ (taken_of (service_of seat.old.seat.me.0) (writer - 1)).count }
    requires none_out { (service_of seat.old.seat.me.0).reading ≡ [] }
    requires arrived { AllArrived (service_of seat.old.seat.me.0) }
    ensures seat { Attends host.now seat.new }
    ensures taken { IfSome result (λ _. TakesOne (writer - 1) seat.old seat.new) }
    ensures other { IfNone result (TakesNone seat.old seat.new) }
{
    match host.take(seat, chunk, writer, id_of(FROM, position)) {
        Ok(taken) => {
            let count = taken.header.count;
            give_back(host, seat, taken, writer, position);
            Some(count)
        }
        Err(_) => None,
    }
}

/// Looks at a chunk, and takes it where it is the next one of its writer.
fn take_next(host: &HostTable, seat: &mut ServiceSeat, chunk: u32, counts: Counts) -> Counts
    requires page { IsOnePage host.now }
    requires seat { Attends host.now seat.old }
    requires chunk { chunk < 14 }
    requires taken { HasTakenOf counts.first counts.second seat.old }
    requires first_few { counts.first < POSITION_LIMIT }
    requires second_few { counts.second < POSITION_LIMIT }
    ensures seat { Attends host.now seat.new }
    ensures taken { HasTakenOf result.first result.second seat.new }
    ensures first_most { result.first ≤ counts.first + 1 }
    ensures second_most { result.second ≤ counts.second + 1 }
{
    if let Some(fragments) = take_one(host, seat, chunk, 1, counts.first) {
        return Counts {
            first: counts.first + 1,
            second: counts.second,
            fragments: counts.fragments.wrapping_add(u64::from(fragments)),
        };
    }
    if let Some(fragments) = take_one(host, seat, chunk, 2, counts.second) {
        return Counts {
            first: counts.first,
            second: counts.second + 1,
            fragments: counts.fragments.wrapping_add(u64::from(fragments)),
        };
    }
    counts
}

/// Goes through the chunks of the page with so many looks.
fn take_all(
    host: &HostTable,
    mut seat: ServiceSeat,
    counts: Counts,
    looks: u32,
) -> (Counts, ServiceSeat)
    requires page { IsOnePage host.now }
    requires seat { Attends host.now seat }
    requires taken { HasTakenOf counts.first counts.second seat }
    requires first_few { counts.first + looks < POSITION_LIMIT }
    requires second_few { counts.second + looks < POSITION_LIMIT }
    ensures seat { Attends host.now result.1 }
    ensures taken { HasTakenOf result.0.first result.0.second result.1 }
    ensures first_most { result.0.first ≤ counts.first + looks }
    ensures second_most { result.0.second ≤ counts.second + looks }
{
    let mut now = counts;
    for look in 0..looks {
        now = take_next(host, &mut seat, look % 14, now);
    }
    (now, seat)
}

/// Both writers, each on a thread of its own.
fn write_both<R: Threads>(
    rt: &R,
    host: &HostTable,
    first: WriterSeat,
    second: WriterSeat,
    geometry: Geometry,
) -> (Tally, Tally)
    requires page { IsOnePage host.now }
    requires first { IsFreshSeat host.now 0 first }
    requires second { IsFreshSeat host.now 1 second }
    requires size { payload_size geometry.page_size geometry.chunks ≡ 284 }
{
    let (one, two) = join(
        rt,
        || write_counted(host, first, geometry),
        || write_counted(host, second, geometry),
    );
    (one, two)
}

/// The writers, and the service beside them on a third thread.
fn all_three<R: Threads + Sync>(
    rt: &R,
    host: &HostTable,
    first: WriterSeat,
    second: WriterSeat,
    geometry: Geometry,
    service: ServiceSeat,
) -> ((Counts, ServiceSeat), (Tally, Tally))
    requires page { IsOnePage host.now }
    requires first { IsFreshSeat host.now 0 first }
    requires second { IsFreshSeat host.now 1 second }
    requires size { payload_size geometry.page_size geometry.chunks ≡ 284 }
    requires service { Attends host.now service }
    requires taken { HasTakenOf 0 0 service }
    ensures seat { Attends host.now result.0.1 }
    ensures taken { HasTakenOf result.0.0.first result.0.0.second result.0.1 }
    ensures first_most { result.0.0.first ≤ LOOKS }
    ensures second_most { result.0.0.second ≤ LOOKS }
{
    let none = Counts {
        first: 0,
        second: 0,
        fragments: 0,
    };
    let (taken, written) = join(
        rt,
        || take_all(host, service, none, LOOKS),
        || write_both(rt, host, first, second, geometry),
    );
    (taken, written)
}

#[test]
fn the_service_takes_all_that_two_writers_complete(rt: HostRuntime) -> Result<(), Fail> {
    let (host, seats, service) = make(rt.alloc())?;
    let geometry = Geometry::new(4096, 14)?;
    let Some((first, second)) = both(&host, seats) else {
        return Err(Fail::new("a writer has no seat"));
    };
    let ((counts, service), (one, two)) = all_three(&rt, &host, first, second, geometry, service);
    // What is left lies in the page: of one writer at least, the next chunk is found in each turn.
    let (counts, mut service) = take_all(&host, service, counts, 14 * 14);
    assert_eq!(rt; (one.begun, two.begun), (20_000, 20_000));
    assert_eq!(rt; (counts.first, counts.second), (one.chunks, two.chunks));
    // A packet with one number is one fragment, since it is begun only where it has room.
    let all = counts
        .fragments
        .wrapping_add(one.dropped)
        .wrapping_add(two.dropped);
    assert_eq!(rt; all, 40_000);
    assert_eq!(rt; host.look(&mut service, 0).word, PageWord(0x5000_0000));
    Ok(())
}
