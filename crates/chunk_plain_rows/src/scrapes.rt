//! A round of the service beside a writer, by code that knows nothing but the trait: a chunk is
//! scraped and read while it is written, and comes whole later; then the service says what it knows,
//! and its session is stopped.
ghost use Rattle.std.specs.Prelude.{◌≡◌, ℕ, ◌<◌, ◌≤◌, false, [], length};
ghost use Rattle.chunk_plain.specs.Setup.{producer_of, IsChunkOf, id_at};
ghost use Rattle.service_core.specs.Agreement.{IsAgreeing, ServiceAgrees, is_closed};

use crate::rounds::{finish, write};
use byte_io::memory::MemSink;
use byte_io::traits::Sink;
use chunk_plain::{PlainTable, PlainWriter, ProducerSpec, Words};
use page_geometry::Geometry;
use service_core::ServiceCore;
use std::alloc::Global;
use std::test::Fail;
use trace_base::policy::{FullPolicy, WriterPolicy, WriterSpec};
use trace_buffer::{BufferCounts, BufferSpec, SequenceState};

/// What a round took and delivered, in its order.
#[derive(Clone, Copy, Debug, PartialEq, Eq)]
struct Round {
    taken: u64,
    delivered: Option<u64>,
    taken_later: u64,
    delivered_later: Option<u64>,
}

/// What the service knows of its first buffer and its first writer, and whether its session could be
/// stopped, and stopped again.
#[derive(Clone, Copy, Debug, PartialEq, Eq)]
struct End {
    counts: BufferCounts,
    taken: u32,
    state: SequenceState,
    stopped: [bool; 2],
}

fn ended<S>(service: &mut ServiceCore<S>) -> End
    requires agrees { IsAgreeing service.old }
    requires buffer { 1 ≤ length service.old.specs.items }
    requires writer { 1 ≤ length service.old.writers.items }
{
    let counts = service.counts(1);
    let taken = service.taken(1);
    let state = service.state(2);
    let stopped = [service.stop().is_ok(), service.stop().is_ok()];
    End {
        counts,
        taken,
        state,
        stopped,
    }
}

/// The greatest id, behind which ids begin anew.
const LAST_ID: u32 = 4_294_967_295;

/// The service scrapes and reads while the writer holds its first chunk, which has this id; then the chunk is completed,
/// collected and read, and the service is asked and stopped.
fn play<W: Words, O: Sink>(
    service: &mut ServiceCore<W::Service>,
    table: &mut W,
    seat: &mut W::Writer,
    id: u32,
    out: &mut O,
) -> Option<(Round, End)>
    requires serves { W.means.serves table.old service.old.seat }
    requires agrees { ServiceAgrees (W.means.setup table.old) (W.means.service_view table.old service.old.seat) service.old }
    requires open { (place : ℕ) → place < length (W.means.setup table.old).writers
        → is_closed (W.means.setup table.old) service.old place ≡ false }
    requires reads { W.means.takes_reads table.old service.old.seat }
    requires writer { 0 < length (W.means.setup table.old).writers }
    requires seat { W.means.sits table.old seat.old }
    requires chunk { IsChunkOf (W.means.setup table.old) (producer_of (W.means.setup table.old) (W.means.place seat.old)) 0 }
    requires begun { (W.means.view table.old seat.old).begun ≡ [] }
    requires id { id ≡ id_at (W.means.setup table.old) (W.means.place seat.old) 0 }
    requires sink { (sink : O) → O.may_write sink }
{
    let held = write(table, seat, 0, id)?;
    let taken = service.scrape(table, 1);
    let delivered = service.read_buffer(table, 1, 5, out).ok();
    finish(table, seat, held);
    let taken_later = service.collect(table, 1);
    let delivered_later = service.read_buffer(table, 1, 5, out).ok();
    let round = Round {
        taken,
        delivered,
        taken_later,
        delivered_later,
    };
    Some((round, ended(service)))
}

fn played_round(alloc: Global, out: &mut MemSink) -> Result<Option<(Round, End)>, Fail> {
    let geometry = Geometry::new(4096, 14)?;
    let producers = [ProducerSpec { pages: 1, geometry }];
    let writers = [WriterSpec {
        producer: 1,
        buffer: 1,
        policy: WriterPolicy::Drops,
        from: LAST_ID,
    }];
    let buffers = [BufferSpec {
        size: 4096,
        policy: FullPolicy::Ring,
    }];
    let (mut table, _seats, seat) = PlainTable::make(alloc, &producers, &writers)?;
    let mut service = ServiceCore::make(alloc, &buffers, &producers, &writers, seat)?;
    let mut first = PlainWriter { place: 0 };
    Ok(play(&mut service, &mut table, &mut first, LAST_ID, out))
}

#[test]
fn delivers_a_scraped_packet_once(rt: HostRuntime) -> Result<(), Fail> {
    let mut sink = MemSink::with_room(rt.alloc(), 100)?;
    let round = Round {
        taken: 0,
        delivered: Some(1),
        taken_later: 1,
        delivered_later: Some(1),
    };
    let (played, end) = played_round(rt.alloc(), &mut sink)?.ok_or("a claimed chunk")?;
    assert_eq!(rt; played, round);
    // Two packets of two bytes, each with its sequence; the first one of a sequence says that what
    // came before is unknown.
    assert_eq!(rt;
        sink.taken(),
        b"\x0A\x07\x08\x07\x50\x02\xD0\x02\x01\x0A\x04\x08\x09\x50\x02".as_slice()
    );
    // The part got a place, which the whole chunk took over.
    let counts = BufferCounts {
        policy: FullPolicy::Ring,
        bytes: 4096,
        placed: 1,
        rewritten: 1,
        overwritten: 0,
        discarded: 0,
        unpatched: 0,
        padding: 0,
    };
    assert_eq!(rt; end.counts, counts);
    assert_eq!(rt; end.taken, 1);
    assert_eq!(rt; (end.state.base, end.state.delivered), (1, 2));
    assert_eq!(rt; (end.state.closed, end.state.missing), (false, false));
    assert_eq!(rt; end.stopped, [true, false], "a session stops once");
    Ok(())
}
