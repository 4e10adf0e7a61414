//! Rounds of the calls, by code that knows nothing but the trait: a chunk that is filled and taken,
//! the refusals of `take`, and a chunk that is scraped while it is written.
ghost use Rattle.std.specs.Prelude.{◌≡◌, ℕ, ◌+◌, ◌-◌, ◌<◌, ◌≤◌, [], length, vec_len, IsTrue, IfSome, IfErr};
ghost use Rattle.chunk_plain.specs.declared.tokens.TheConstants.{MAX_HELD, POSITION_LIMIT};
ghost use Rattle.chunk_plain.specs.Setup.{producer_of, IsChunkOf, spot, id_at};
ghost use Rattle.chunk_plain.specs.Payload.{byte_in};
ghost use Rattle.chunk_plain.specs.Views.{taken_of};
ghost use Rattle.chunk_plain.specs.Owned.{held_count, times};
ghost use Rattle.chunk_plain.specs.Drafts.{IsHolding};
ghost use Rattle.chunk_plain.specs.Meaning.{IsWriterStep, IsServiceStep};
ghost use Rattle.chunk_plain.specs.Words.{AllArrived, LacksArrival, KeepsSealed, FindsOther};

use chunk_plain::{
    Held, NotComplete, PlainTable, PlainWriter, ProducerSpec, ServiceEvent, Taken, Words,
};
use page_geometry::{Geometry, PageWord};
use std::alloc::Global;
use std::test::Fail;
use trace_base::policy::{WriterPolicy, WriterSpec};

/// Puts two fragments into the copy, each a packet of two bytes: field 1 with a number.
fn put_fragments(held: &mut Held)
    requires { 6 ≤ vec_len held.old.body.payload }
    ensures chunk { held.new.chunk ≡ held.old.chunk }
    ensures position { held.new.position ≡ held.old.position }
    ensures size { vec_len held.new.body.payload ≡ vec_len held.old.body.payload }
    ensures first { byte_in held.new.body.payload.items 0 ≡ 2 }
{
    held.body.payload[5] = 9;
    held.body.payload[4] = 8;
    held.body.payload[3] = 2;
    held.body.payload[2] = 7;
    held.body.payload[1] = 8;
    held.body.payload[0] = 2;
}

/// Claims and begins a chunk and writes two fragments of two bytes each; the header counts both, so
/// the first one is finished. None where the chunk was claimed.
pub(crate) fn write<W: Words>(
    table: &mut W,
    seat: &mut W::Writer,
    chunk: u32,
    id: u32,
) -> Option<Held>
    requires seat { W.means.sits table.old seat.old }
    requires chunk { IsChunkOf (W.means.setup table.old) (producer_of (W.means.setup table.old) (W.means.place seat.old)) chunk }
    requires few { held_count (W.means.view table.old seat.old).begun < MAX_HELD }
    requires id { id ≡ id_at (W.means.setup table.old) (W.means.place seat.old) (length (W.means.view table.old seat.old).begun) }
    requires few_begun { length (W.means.view table.old seat.old).begun < POSITION_LIMIT }
    ensures chunk { IfSome result (λ held. held.chunk ≡ chunk) }
    ensures holding { IfSome result (λ held. IsHolding (W.means.view table.new seat.new) held.chunk held.position) }
    ensures size { IfSome result (λ held. vec_len held.body.payload ≡ (spot (W.means.setup table.old) held.chunk).payload_size) }
    ensures sealed { IfSome result (λ held. KeepsSealed (W.means.view table.new seat.new) held.position held.body.payload.items) }
    ensures begun { IfSome result (λ held. length (W.means.view table.new seat.new).begun
        ≡ length (W.means.view table.old seat.old).begun + 1) }
    ensures step { IsWriterStep W.means table.old seat.old table.new seat.new }
{
    let claimed = table.claim_try(seat, chunk)?;
    let mut held = table.begin(seat, claimed, id);
    put_fragments(&mut held);
    table.publish(seat, &mut held, 0, 6);
    table.set_header(seat, &mut held, 2, 0);
    Some(held)
}

/// Publishes the whole payload and completes the chunk.
pub(crate) fn finish<W: Words>(table: &mut W, seat: &mut W::Writer, mut held: Held)
    requires seat { W.means.sits table.old seat.old }
    requires holding { IsHolding (W.means.view table.old seat.old) held.chunk held.position }
    requires size { vec_len held.body.payload ≡ (spot (W.means.setup table.old) held.chunk).payload_size }
    requires sealed { KeepsSealed (W.means.view table.old seat.old) held.position held.body.payload.items }
    ensures begun { length (W.means.view table.new seat.new).begun ≡ length (W.means.view table.old seat.old).begun }
    ensures step { IsWriterStep W.means table.old seat.old table.new seat.new }
{
    let size = held.body.payload.len() as u32;
    table.publish(seat, &mut held, 0, size);
    table.complete(seat, held);
}

/// A writer's way with one chunk; false where it was claimed.
fn fill<W: Words>(table: &mut W, seat: &mut W::Writer, chunk: u32, id: u32) -> bool
    requires seat { W.means.sits table.old seat.old }
    requires chunk { IsChunkOf (W.means.setup table.old) (producer_of (W.means.setup table.old) (W.means.place seat.old)) chunk }
    requires few { held_count (W.means.view table.old seat.old).begun < MAX_HELD }
    requires id { id ≡ id_at (W.means.setup table.old) (W.means.place seat.old) (length (W.means.view table.old seat.old).begun) }
    requires few_begun { length (W.means.view table.old seat.old).begun < POSITION_LIMIT }
    ensures begun { IsTrue result → length (W.means.view table.new seat.new).begun
        ≡ length (W.means.view table.old seat.old).begun + 1 }
    ensures step { IsWriterStep W.means table.old seat.old table.new seat.new }
{
    let Some(held) = write(table, seat, chunk, id) else {
        return false;
    };
    finish(table, seat, held);
    true
}

/// Notes that a chunk of the writer with this number arrived, as the service does, and gives it back.
fn give_back<W: Words>(
    table: &mut W,
    seat: &mut W::Service,
    taken: Taken,
    writer: u16,
    position: u32,
)
    requires seat { W.means.serves table.old seat.old }
    requires least { 1 ≤ writer }
    requires lacks { LacksArrival (W.means.service_view table.old seat.old) (writer - 1) position }
    requires reading { 0 < times taken.chunk (W.means.service_view table.old seat.old).reading }
    requires size { vec_len taken.body.payload ≡ (spot (W.means.setup table.old) taken.chunk).payload_size }
    ensures step { IsServiceStep W.means table.old seat.old table.new seat.new }
{
    let sequence = u32::from(writer) + 1;
    let arrival = ServiceEvent::Arrive {
        sequence,
        chunk_id: position,
    };
    table.note(seat, arrival);
    table.release(seat, taken);
}

/// The service's way with the first chunk of a writer.
fn drain<W: Words>(
    table: &mut W,
    seat: &mut W::Service,
    chunk: u32,
    writer: u16,
    id: u32,
) -> Result<u16, NotComplete>
    requires seat { W.means.serves table.old seat.old }
    requires chunk { chunk < length (W.means.setup table.old).spots }
    requires writer { 1 ≤ writer }
    requires writers { writer ≤ length (W.means.setup table.old).writers }
    requires id { id ≡ id_at (W.means.setup table.old) (writer - 1)
        (taken_of (W.means.service_view table.old seat.old) (writer - 1)).count }
    requires none_taken { (taken_of (W.means.service_view table.old seat.old) (writer - 1)).count ≡ 0 }
    requires none_out { (W.means.service_view table.old seat.old).reading ≡ [] }
    requires arrived { AllArrived (W.means.service_view table.old seat.old) }
    ensures refused { IfErr result (λ found. FindsOther (W.means.setup table.old) chunk writer id found
        (W.means.service_view table.old seat.old) (W.means.service_view table.new seat.new)) }
    ensures step { IsServiceStep W.means table.old seat.old table.new seat.new }
{
    let taken = table.take(seat, chunk, writer, id)?;
    let count = taken.header.count;
    give_back(table, seat, taken, writer, 0);
    Ok(count)
}

/// What a scrape copied of a chunk, and what was taken of it later.
#[derive(Clone, Copy, Debug, PartialEq, Eq)]
struct Scraped {
    count: u16,
    first: [u8; 6],
    taken: [u8; 6],
}

fn first_six(bytes: &[u8]) -> [u8; 6]
    requires { 6 ≤ length bytes.now }
{
    [bytes[0], bytes[1], bytes[2], bytes[3], bytes[4], bytes[5]]
}

/// The first writer writes under its first id, the service scrapes, the writer finishes and the service takes the chunk.
fn scrape_and_take<W: Words>(
    table: &mut W,
    seat: &mut W::Writer,
    service: &mut W::Service,
    chunk: u32,
    id: u32,
    into: &mut [u8],
) -> Option<Scraped>
    requires seat { W.means.sits table.old seat.old }
    requires place { W.means.place seat.old ≡ 0 }
    requires chunk { IsChunkOf (W.means.setup table.old) (producer_of (W.means.setup table.old) (W.means.place seat.old)) chunk }
    requires begun { (W.means.view table.old seat.old).begun ≡ [] }
    requires id { id ≡ id_at (W.means.setup table.old) 0 0 }
    requires service { W.means.serves table.old service.old }
    requires none_taken { (taken_of (W.means.service_view table.old service.old) 0).count ≡ 0 }
    requires none_out { (W.means.service_view table.old service.old).reading ≡ [] }
    requires arrived { AllArrived (W.means.service_view table.old service.old) }
    requires size { length into.old ≡ (spot (W.means.setup table.old) chunk).payload_size }
{
    let held = write(table, seat, chunk, id)?;
    let seen = table.look(service, chunk);
    table.load(service, chunk, into);
    finish(table, seat, held);
    let Ok(taken) = table.take(service, chunk, 1, id) else {
        return None;
    };
    let scraped = Scraped {
        count: seen.header.count,
        first: first_six(into),
        taken: first_six(&taken.body.payload),
    };
    give_back(table, service, taken, 1, 0);
    Some(scraped)
}

static SPEC: WriterSpec = WriterSpec {
    producer: 1,
    buffer: 1,
    policy: WriterPolicy::Drops,
    from: 9,
};

/// Two writers fill a chunk each; then the service asks for a chunk, and answers what it has.
fn answer_to(alloc: Global, chunk: u32, writer: u16) -> Result<Option<u16>, Fail>
    requires chunk { chunk < 14 }
    requires least { 1 ≤ writer }
    requires most { writer ≤ 2 }
{
    let geometry = Geometry::new(4096, 14)?;
    let producers = [ProducerSpec { pages: 1, geometry }];
    let writers = [SPEC, SPEC];
    let (mut table, _seats, mut service) = PlainTable::make(alloc, &producers, &writers)?;
    let mut first = PlainWriter { place: 0 };
    let mut second = PlainWriter { place: 1 };
    if !fill(&mut table, &mut first, 0, 9) || !fill(&mut table, &mut second, 1, 9) {
        return Ok(None);
    }
    if table.look(&mut service, 0).word != PageWord(0x3_5000_000f) {
        return Ok(None);
    }
    Ok(drain(&mut table, &mut service, chunk, writer, 9).ok())
}

#[test]
fn takes_what_is_complete_alone(rt: HostRuntime) -> Result<(), Fail> {
    assert_eq!(rt; answer_to(rt.alloc(), 0, 1)?, Some(2));
    assert_eq!(rt; answer_to(rt.alloc(), 1, 2)?, Some(2));
    assert_eq!(rt; answer_to(rt.alloc(), 0, 2)?, None, "another writer's");
    assert_eq!(rt; answer_to(rt.alloc(), 1, 1)?, None, "another writer's");
    assert_eq!(rt; answer_to(rt.alloc(), 2, 1)?, None, "a free chunk");
    Ok(())
}

fn scrape_one(alloc: Global) -> Result<Option<Scraped>, Fail> {
    let geometry = Geometry::new(4096, 14)?;
    let producers = [ProducerSpec { pages: 1, geometry }];
    let writers = [SPEC];
    let (mut table, _seats, mut service) = PlainTable::make(alloc, &producers, &writers)?;
    let mut first = PlainWriter { place: 0 };
    let mut copy = vec![in alloc; 0; geometry.payload_size() as usize]?;
    Ok(scrape_and_take(&mut table, &mut first, &mut service, 0, 9, &mut copy))
}

#[test]
fn finds_scraped_fragments_again(rt: HostRuntime) -> Result<(), Fail> {
    let found = Scraped {
        count: 2,
        first: [2, 8, 7, 2, 8, 9],
        taken: [2, 8, 7, 2, 8, 9],
    };
    assert_eq!(rt; scrape_one(rt.alloc())?, Some(found));
    Ok(())
}
