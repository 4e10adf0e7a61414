//! Writers on threads of their own: each asks for every chunk of one page, and fills what it wins.
ghost use Rattle.std.specs.Prelude.{◌≡◌, ℕ, ◌+◌, ◌<◌, ◌≤◌, length, IfOk, IfSome};
ghost use Rattle.chunk_plain.specs.declared.tokens.TheConstants.{POSITION_LIMIT};
ghost use Rattle.chunk_plain.specs.Setup.{from_of, producer_of, IsChunkOf};
ghost use Rattle.chunk_plain.specs.Views.{newcomer};
ghost use Rattle.chunk_plain.specs.Owned.{held_count};
ghost use Rattle.chunk_plain.specs.Meaning.{IsWriterStep};
ghost use Rattle.chunk_words.specs.Made.{HasWriterSeats};
ghost use Rattle.chunk_words.specs.Sits.{Sits, Attends, setup_in, known_by};
ghost use Rattle.chunk_words_rows.specs.Fresh.{IsFreshSeat, IsUntouched};
ghost use Rattle.chunk_words_rows.specs.Page.{IsOnePage, HasTaken, HasTakenOf};

use chunk_plain::{ProducerSpec, Words};
use chunk_words::{HostTable, ServiceSeat, Shared, WriterSeat};
use page_geometry::{Geometry, PageWord};
use std::alloc::Global;
use std::test::Fail;
use std::thread::{Threads, join};
use trace_base::ids::id_of;
use trace_base::policy::{WriterPolicy, WriterSpec};

/// The id of each writer's first chunk. Few chunks later ids begin anew at 0.
pub(crate) const FROM: u32 = 4_294_967_000;

/// A writer's way with one chunk: fills it, unless it was claimed. Answers the writer's next
/// position.
fn fill<W: Words>(table: &mut W, seat: &mut W::Writer, chunk: u32, from: u32, next: u32) -> u32
    requires seat { W.means.sits table.old seat.old }
    requires chunk { IsChunkOf (W.means.setup table.old) (producer_of (W.means.setup table.old) (W.means.place seat.old)) chunk }
    requires none_held { held_count (W.means.view table.old seat.old).begun ≡ 0 }
    requires from { from_of (W.means.setup table.old) (W.means.place seat.old) ≡ from }
    requires next { next ≡ length (W.means.view table.old seat.old).begun }
    requires few { next < POSITION_LIMIT }
    ensures next { result ≡ length (W.means.view table.new seat.new).begun }
    ensures most { result ≤ next + 1 }
    ensures none_held { held_count (W.means.view table.new seat.new).begun ≡ 0 }
    ensures step { IsWriterStep W.means table.old seat.old table.new seat.new }
{
    let Some(claimed) = table.claim_try(seat, chunk) else {
        return next;
    };
    let id = id_of(from, next);
    let mut held = table.begin(seat, claimed, id);
    let size = held.body.payload.len() as u32;
    table.publish(seat, &mut held, 0, size);
    table.complete(seat, held);
    next + 1
}

/// Asks for the chunks of the page in turn, so many times; answers how many it filled.
fn fill_all<W: Words>(table: &mut W, seat: &mut W::Writer, from: u32, rounds: u32) -> u32
    requires seat { W.means.sits table.old seat.old }
    requires chunks { (chunk : ℕ) → chunk < 14
        → IsChunkOf (W.means.setup table.old) (producer_of (W.means.setup table.old) (W.means.place seat.old)) chunk }
    requires fresh { W.means.view table.old seat.old ≡ newcomer }
    requires from { from_of (W.means.setup table.old) (W.means.place seat.old) ≡ from }
    requires few { rounds < POSITION_LIMIT }
    ensures most { result ≤ rounds }
{
    let mut won = 0;
    for round in 0..rounds {
        won = fill(table, seat, round % 14, from, won);
    }
    won
}

/// The same by a writer of its own.
pub(crate) fn fill_page(host: &HostTable, mut seat: WriterSeat, rounds: u32) -> u32
    requires seat { Sits host.now seat }
    requires fresh { known_by seat ≡ newcomer }
    requires chunks { (chunk : ℕ) → chunk < 14 → IsChunkOf (setup_in host.now) (producer_of (setup_in host.now) seat.place) chunk }
    requires from { from_of (setup_in host.now) seat.place ≡ FROM }
    requires few { rounds < POSITION_LIMIT }
    ensures most { result ≤ rounds }
{
    let mut shared = Shared { table: host };
    fill_all(&mut shared, &mut seat, FROM, rounds)
}

pub(crate) fn make(alloc: Global) -> Result<(HostTable, Vec<WriterSeat>, ServiceSeat), Fail>
    ensures seats { IfOk result (λ made. HasWriterSeats made.0 2 made.1.items) }
    ensures service { IfOk result (λ made. Attends made.0 made.2) }
    ensures page { IfOk result (λ made. IsOnePage made.0) }
    ensures none_taken { IfOk result (λ made. HasTaken 0 made.2) }
    ensures neither { IfOk result (λ made. HasTakenOf 0 0 made.2) }
    ensures untouched { IfOk result (λ made. IsUntouched made.2) }
{
    let geometry = Geometry::new(4096, 14)?;
    let producers = [ProducerSpec { pages: 1, geometry }];
    let spec = WriterSpec {
        producer: 1,
        buffer: 1,
        policy: WriterPolicy::Drops,
        from: FROM,
    };
    let (host, seats, service) = HostTable::make(alloc, &producers, &[spec, spec])?;
    Ok((host, seats, service))
}

/// The seats of the two writers, out of their list.
pub(crate) fn both(host: &HostTable, mut seats: Vec<WriterSeat>) -> Option<(WriterSeat, WriterSeat)>
    requires { HasWriterSeats host.now 2 seats.items }
    ensures first { IfSome result (λ pair. IsFreshSeat host.now 0 pair.0) }
    ensures second { IfSome result (λ pair. IsFreshSeat host.now 1 pair.1) }
{
    let (Some(second), Some(first)) = (seats.pop(), seats.pop()) else {
        return None;
    };
    Some((first, second))
}

/// Each writer asks for each chunk of the page, on a thread of its own; answers how many each filled.
fn on_two_threads(
    rt: &impl Threads,
    host: &HostTable,
    first: WriterSeat,
    second: WriterSeat,
) -> (u32, u32)
    requires first { IsFreshSeat host.now 0 first }
    requires second { IsFreshSeat host.now 1 second }
    requires page { IsOnePage host.now }
    ensures first { result.0 ≤ 14 }
    ensures second { result.1 ≤ 14 }
{
    let (one, two) = join(
        rt,
        || fill_page(host, first, 14),
        || fill_page(host, second, 14),
    );
    (one, two)
}

#[test]
fn two_threads_fill_each_chunk_once(rt: HostRuntime) -> Result<(), Fail> {
    let (host, seats, mut service) = make(rt.alloc())?;
    let Some((first, second)) = both(&host, seats) else {
        return Err(Fail::new("a writer has no seat"));
    };
    let (one, two) = on_two_threads(&rt, &host, first, second);
    assert_eq!(rt; one + two, 14);
    assert_eq!(rt; host.look(&mut service, 0).word, PageWord(0x3fff_5fff_ffff));
    Ok(())
}
