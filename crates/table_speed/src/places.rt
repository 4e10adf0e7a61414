//! The tables that are timed: four writers, which drop packets where no chunk is free, and 16 pages
//! of 14 chunks each. Either each writer has four of the pages for its own, or they share them all.
ghost use Rattle.std.specs.Prelude.{◌≡◌, ◌<◌, true, false, length, IfSome};
ghost use Rattle.page_geometry.specs.Sizes.{payload_size};
ghost use Rattle.chunk_plain.specs.Setup.{producer_of, spot, IsChunkOf};
ghost use Rattle.chunk_plain.specs.Views.{newcomer};
ghost use Rattle.chunk_words.specs.Sits.{Sits, Attends, setup_in, known_by};
ghost use Rattle.table_speed.specs.Taking.{HasTakenNone};
ghost use Rattle.table_speed.specs.Timed.{drops_for, HasSeats, IsFresh, IsTimed};

use chunk_plain::ProducerSpec;
use chunk_words::{HostTable, ServiceSeat, WriterSeat};
use page_geometry::Geometry;
use std::alloc::Global;
use trace_base::policy::{WriterPolicy, WriterSpec};

/// What is counted: packets that were written, chunks that were completed, and those that were taken.
#[derive(Clone, Copy)]
pub struct Tally {
    pub written: u64,
    pub chunks: u32,
    pub taken: u32,
}

/// A writer's seat, with the writer's number and its producer's.
#[derive(Drop)]
pub struct Place {
    pub seat: WriterSeat,
    pub number: u16,
    pub producer: u16,
}

/// A table that is timed, with the seats of its writers and its service.
pub type Timed = (HostTable, Vec<WriterSeat>, ServiceSeat);

/// Pages of 14 chunks, whose payloads are the least that there are.
pub fn geometry() -> Option<Geometry>
    ensures size { IfSome result (λ geometry. payload_size geometry.page_size geometry.chunks ≡ 284) }
    ensures page_size { IfSome result (λ geometry. geometry.page_size ≡ 4096) }
    ensures chunks { IfSome result (λ geometry. geometry.chunks ≡ 14) }
{
    let Ok(geometry) = Geometry::new(4096, 14) else {
        return None;
    };
    Some(geometry)
}

fn drops(producer: u16) -> WriterSpec
    ensures { result ≡ drops_for producer }
{
    WriterSpec {
        producer,
        buffer: 1,
        policy: WriterPolicy::Drops,
        from: 0,
    }
}

/// Each writer has a producer of its own.
fn make_own(alloc: Global, geometry: Geometry) -> Option<Timed>
    requires page_size { geometry.page_size ≡ 4096 }
    requires chunks { geometry.chunks ≡ 14 }
    ensures seats { IfSome result (λ made. HasSeats made.0 made.1.items) }
    ensures service { IfSome result (λ made. Attends made.0 made.2) }
    ensures timed { IfSome result (λ made. IsTimed made.0 true) }
    ensures none_taken { IfSome result (λ made. HasTakenNone made.2) }
{
    let producer = ProducerSpec { pages: 4, geometry };
    let producers = [producer, producer, producer, producer];
    let writers = [drops(1), drops(2), drops(3), drops(4)];
    let Ok((host, seats, service)) = HostTable::make(alloc, &producers, &writers) else {
        return None;
    };
    Some((host, seats, service))
}

/// All writers have one producer.
fn make_shared(alloc: Global, geometry: Geometry) -> Option<Timed>
    requires page_size { geometry.page_size ≡ 4096 }
    requires chunks { geometry.chunks ≡ 14 }
    ensures seats { IfSome result (λ made. HasSeats made.0 made.1.items) }
    ensures service { IfSome result (λ made. Attends made.0 made.2) }
    ensures timed { IfSome result (λ made. IsTimed made.0 false) }
    ensures none_taken { IfSome result (λ made. HasTakenNone made.2) }
{
    let producers = [ProducerSpec {
        pages: 16,
        geometry,
    }];
    let writers = [drops(1), drops(1), drops(1), drops(1)];
    let Ok((host, seats, service)) = HostTable::make(alloc, &producers, &writers) else {
        return None;
    };
    Some((host, seats, service))
}

/// None where no memory is left.
pub fn make(alloc: Global, geometry: Geometry, own: bool) -> Option<Timed>
    requires page_size { geometry.page_size ≡ 4096 }
    requires chunks { geometry.chunks ≡ 14 }
    ensures seats { IfSome result (λ made. HasSeats made.0 made.1.items) }
    ensures service { IfSome result (λ made. Attends made.0 made.2) }
    ensures timed { IfSome result (λ made. IsTimed made.0 own) }
    ensures none_taken { IfSome result (λ made. HasTakenNone made.2) }
{
    if own {
        make_own(alloc, geometry)
    } else {
        make_shared(alloc, geometry)
    }
}

/// A writer's place, whose seat comes behind so many others.
fn place_for(host: &HostTable, seat: WriterSeat, before: u16, own: bool) -> Place
    requires timed { IsTimed host.now own }
    requires sits { Sits host.now seat }
    requires fresh { known_by seat ≡ newcomer }
    requires place { seat.place ≡ before }
    requires few { before < 4 }
    ensures { IsFresh host.now result }
{
    // The table is named for the proof alone.
    let _ = host;
    let number = before + 1;
    Place {
        seat,
        number,
        producer: if own { number } else { 1 },
    }
}

/// The place of the last writer whose seat is in the list. None where there is none.
pub fn next_place(host: &HostTable, seats: &mut Vec<WriterSeat>, own: bool) -> Option<Place>
    requires timed { IsTimed host.now own }
    requires seats { HasSeats host.now seats.old.items }
    ensures fresh { IfSome result (λ place. IsFresh host.now place) }
    ensures seats { HasSeats host.now seats.new.items }
{
    let Some(seat) = seats.pop() else {
        return None;
    };
    let before = seats.len() as u16;
    Some(place_for(host, seat, before, own))
}

/// The first chunk that a writer may claim.
pub fn first_chunk(host: &HostTable, place: &Place) -> u32
    requires { IsFresh host.now place.now }
    ensures chunk { IsChunkOf (setup_in host.now) (producer_of (setup_in host.now) place.now.seat.place) result }
    ensures inside { result < length (setup_in host.now).spots }
    ensures size { (spot (setup_in host.now) result).payload_size ≡ 284 }
{
    let (first, _count) = host.chunks_of(place.producer);
    first
}
