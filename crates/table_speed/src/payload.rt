//! What the payload of a chunk takes alone: a writer that holds the chunk stores all its words, and
//! the service loads them.
ghost use Rattle.chunk_words.specs.Sits.{Attends};
ghost use Rattle.table_speed.specs.Timed.{IsFresh};

use crate::places::{Place, Tally, first_chunk, geometry, make, next_place};
use crate::rounds::{begin, complete, publish};
use chunk_words::{HostTable, ServiceSeat};
use std::alloc::Global;

/// So many times over the payload of the first chunk that the writer may claim. None where the chunk
/// was claimed.
fn pass_words(
    host: &HostTable,
    place: Place,
    service: &mut ServiceSeat,
    rounds: u32,
) -> Option<Tally>
    requires fresh { IsFresh host.now place }
    requires service { Attends host.now service.old }
{
    let chunk = first_chunk(host, &place);
    let Place {
        mut seat,
        number: _,
        producer: _,
    } = place;
    let mut held = begin(host, &mut seat, chunk, 0)?;
    let mut copy = [0; 284];
    for _ in 0..rounds {
        publish(host, &mut seat, &mut held);
        host.load(service, chunk, &mut copy);
    }
    publish(host, &mut seat, &mut held);
    complete(host, &mut seat, held);
    Some(Tally {
        written: 0,
        chunks: 1,
        taken: 0,
    })
}

/// None where no memory is left.
pub fn pass_payload(alloc: Global, rounds: u32) -> Option<Tally> {
    let (host, mut seats, mut service) = make(alloc, geometry()?, false)?;
    let place = next_place(&host, &mut seats, false)?;
    pass_words(&host, place, &mut service, rounds)
}
