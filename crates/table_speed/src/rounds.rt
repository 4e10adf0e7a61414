//! Rounds of one chunk on one thread: the writer claims, begins, publishes and completes it, and the
//! service takes and releases it.
ghost use Rattle.std.specs.Prelude.{◌≡◌, ◌-◌, ◌<◌, ◌≤◌, length, IfSome, IfNone};
ghost use Rattle.chunk_plain.specs.declared.tokens.TheConstants.{POSITION_LIMIT};
ghost use Rattle.chunk_plain.specs.Setup.{spot};
ghost use Rattle.chunk_plain.specs.Words.{IsPublished};
ghost use Rattle.chunk_words.specs.Sits.{Sits, Attends, setup_in, known_by};
ghost use Rattle.table_speed.specs.Holding.{HasBegun, HoldsFresh, MayFill};
ghost use Rattle.table_speed.specs.Taking.{HasTaken};
ghost use Rattle.table_speed.specs.Timed.{BeginsAtNought, IsFresh};

use crate::places::{Place, Tally, first_chunk, geometry, make, next_place};
use crate::service::take_one;
use chunk_plain::{Held, POSITION_LIMIT};
use chunk_words::{HostTable, ServiceSeat, WriterSeat};
use std::alloc::Global;
use trace_base::ids::id_of;

/// The payload of each chunk.
const PAYLOAD: u32 = 284;

/// None where the chunk was claimed.
pub fn begin(host: &HostTable, seat: &mut WriterSeat, chunk: u32, position: u32) -> Option<Held>
    requires seat { MayFill host.now seat.old chunk }
    requires position { position ≡ length (known_by seat.old).begun }
    requires few { position < POSITION_LIMIT }
    requires size { (spot (setup_in host.now) chunk).payload_size ≡ PAYLOAD }
    ensures held { IfSome result (λ held. HasBegun host.now seat.new chunk position held) }
    ensures none { IfNone result (length (known_by seat.new).begun ≡ position) }
    ensures seat { Sits host.now seat.new }
    ensures place { seat.new.place ≡ seat.old.place }
{
    let claimed = host.claim_try(seat, chunk)?;
    Some(host.begin(seat, claimed, id_of(0, position)))
}

/// Publishes the whole payload.
pub fn publish(host: &HostTable, seat: &mut WriterSeat, held: &mut Held)
    requires held { HoldsFresh host.now seat.old held.old }
    ensures held { HoldsFresh host.now seat.new held.new }
    ensures same { held.new ≡ held.old }
    ensures published { IsPublished (known_by seat.new) held.new.position held.new.body.payload.items }
    ensures count { length (known_by seat.new).begun ≡ length (known_by seat.old).begun }
    ensures place { seat.new.place ≡ seat.old.place }
{
    host.publish(seat, held, 0, PAYLOAD);
}

/// Completes a chunk whose payload is published.
pub fn complete(host: &HostTable, seat: &mut WriterSeat, held: Held)
    requires held { HoldsFresh host.now seat.old held }
    requires published { IsPublished (known_by seat.old) held.position held.body.payload.items }
    ensures seat { Sits host.now seat.new }
    ensures count { length (known_by seat.new).begun ≡ length (known_by seat.old).begun }
    ensures place { seat.new.place ≡ seat.old.place }
{
    host.complete(seat, held);
}

/// The writer's way with a chunk that is free. It answers the writer's next position.
fn fill(host: &HostTable, seat: &mut WriterSeat, chunk: u32, position: u32) -> u32
    requires seat { MayFill host.now seat.old chunk }
    requires position { position ≡ length (known_by seat.old).begun }
    requires size { (spot (setup_in host.now) chunk).payload_size ≡ PAYLOAD }
    ensures next { result ≡ length (known_by seat.new).begun }
    ensures seat { MayFill host.now seat.new chunk }
{
    if position == POSITION_LIMIT {
        return position;
    }
    let Some(mut held) = begin(host, seat, chunk, position) else {
        return position;
    };
    publish(host, seat, &mut held);
    complete(host, seat, held);
    position + 1
}

/// The service's way with a chunk that is the writer's next one. It answers how many were taken of
/// the writer.
fn empty(host: &HostTable, seat: &mut ServiceSeat, chunk: u32, writer: u16, taken: u32) -> u32
    requires seat { Attends host.now seat.old }
    requires chunk { chunk < length (setup_in host.now).spots }
    requires writer { BeginsAtNought host.now writer }
    requires taken { HasTaken (writer - 1) taken seat.old }
    ensures seat { Attends host.now seat.new }
    ensures taken { HasTaken (writer - 1) result seat.new }
{
    let Some(more) = taken.checked_add(1) else {
        return taken;
    };
    match take_one(host, seat, chunk, writer, taken) {
        None => taken,
        Some(_) => more,
    }
}

/// So many rounds of the first chunk that the writer may claim.
fn go_rounds(host: &HostTable, place: Place, service: &mut ServiceSeat, rounds: u32) -> Tally
    requires fresh { IsFresh host.now place }
    requires writers { place.number ≤ length (setup_in host.now).writers }
    requires service { Attends host.now service.old }
    requires taken { HasTaken (place.number - 1) 0 service.old }
{
    let chunk = first_chunk(host, &place);
    let Place {
        mut seat,
        number,
        producer: _,
    } = place;
    let mut filled = 0;
    let mut taken = 0;
    for _ in 0..rounds {
        filled = fill(host, &mut seat, chunk, filled);
        taken = empty(host, service, chunk, number, taken);
    }
    Tally {
        written: 0,
        chunks: filled,
        taken,
    }
}

/// None where no memory is left.
pub fn go_round(alloc: Global, rounds: u32) -> Option<Tally> {
    let (host, mut seats, mut service) = make(alloc, geometry()?, false)?;
    let place = next_place(&host, &mut seats, false)?;
    Some(go_rounds(&host, place, &mut service, rounds))
}
