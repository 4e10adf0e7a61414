//! A table that threads share is made with the seats of all writers and the service.
ghost use Rattle.std.specs.Prelude.{◌≡◌, ◌+◌, ◌^◌, ◌<◌, ◌≤◌, All, Some, [], length, IfOk, OnOk};
ghost use Rattle.trace_base.specs.declared.limits.TheConstants.{MAX_PRODUCERS, MAX_WRITERS, MAX_PAGES};
ghost use Rattle.chunk_plain.specs.Setup.{IsLaid, range_of};
ghost use Rattle.chunk_plain.specs.Shows.{IsFreeBody};
ghost use Rattle.chunk_plain.specs.Views.{newcomer};
ghost use Rattle.chunk_plain.specs.Plain.{first_world};
ghost use Rattle.chunk_words.specs.Knows.{Service, Writer, Nothing, first_desk, made_of, desk_of, watch_of, service_of};
ghost use Rattle.chunk_words.specs.Made.{HasStarts, HasFreeBodies, HasWriterSeats, IsNewTable};
ghost use Rattle.chunk_words.specs.Places.{request_place};
ghost use Rattle.chunk_words.specs.Sits.{CanServe};

use crate::host::{HostTable, LINE_WORDS};
use crate::seats::{ServiceSeat, WriterSeat};
use crate::steps::{ChunkSeat, Knowledge};
use arrayvec::ArrayVec;
use atomic_table::{Split, Table};
use chunk_plain::{Layout, ProducerSpec, Spot};
use commit_body::CommitBody;
use std::alloc::{AllocError, Global};
use trace_base::policy::WriterSpec;

/// The service makes the seat of the next writer.
pub struct NextWriter {}

impl Split<Knowledge> for NextWriter {
    ghost use Rattle.chunk_words.specs.Knows.{one_more, next_writer};

    ghost left = { one_more };

    ghost right = { next_writer };
}

impl HostTable {
    /// A table for these producers and writers, with the seats of the writers in their order and the
    /// service's. Nothing is claimed, all words are 0, and each chunk's body lies in its slot.
    pub fn make(
        alloc: Global,
        producers: &[ProducerSpec],
        writers: &[WriterSpec],
    ) -> Result<(HostTable, Vec<WriterSeat>, ServiceSeat), AllocError>
        requires producers { length producers.now ≤ MAX_PRODUCERS }
        requires some_page { All (λ producer. 1 ≤ producer.pages) producers.now }
        requires pages { All (λ producer. producer.pages ≤ MAX_PAGES) producers.now }
        requires writers { length writers.now ≤ MAX_WRITERS }
        ensures { IfOk result (λ made. IsNewTable producers.now writers.now made.0 made.1.items made.2) }
    {
        let layout = Layout::make(alloc, producers, writers)?;
        let (starts, requests) = payload_starts(alloc, &layout)?;
        let spare = requests + LINE_WORDS * (writers.len() + 1);
        let words = vec![in alloc; 0; spare + 1]?;
        let bodies = free_bodies(alloc, layout.spots())?;
        let (table, seat) = match Table::new(alloc, &words, bodies, &layout) {
            Ok(made) => made,
            Err(_) => return Err(AllocError),
        };
        let host = HostTable {
            layout,
            starts,
            requests,
            spare,
            table,
        };
        let mut service = ServiceSeat { seat };
        let seats = host.make_seats(alloc, &mut service, writers.len() as u16)?;
        Ok((host, seats, service))
    }

    /// First chunk and number of a producer's chunks. Producers count from 1.
    pub fn chunks_of(&self, producer: u16) -> (u32, u32)
        requires least { 1 ≤ producer }
        requires most { producer ≤ length self.now.layout.ranges }
        ensures { let range = range_of self.now.layout producer in result ≡ (range.first, range.count) }
    {
        self.layout.chunks_of(producer)
    }

    fn make_seats(
        &self,
        alloc: Global,
        service: &mut ServiceSeat,
        count: u16,
    ) -> Result<Vec<WriterSeat>, AllocError>
        requires seat { service.old.seat.table_id ≡ self.now.table.shared.table_id }
        requires count { count ≤ length self.now.layout.writers }
        requires me { service.old.seat.me ≡ (Service 0 0 first_desk Nothing (first_world self.now.layout).service, []) }
        ensures seats { IfOk result (λ seats. HasWriterSeats self.now count seats.items) }
        ensures seat { OnOk result (service.new.seat.table_id ≡ service.old.seat.table_id) }
        ensures me { OnOk result (service.new.seat.me ≡ (Service 0 count first_desk Nothing (first_world self.now.layout).service, [])) }
    {
        let mut seats = Vec::new(alloc);
        for place in 0..count {
            let seat = self.next_seat(service);
            seats.push(WriterSeat { place, seat })?;
        }
        Ok(seats)
    }

    /// The service makes the next writer's seat.
    fn next_seat(&self, service: &mut ServiceSeat) -> ChunkSeat
        requires seat { CanServe self.now service.old }
        requires inside { made_of service.old.seat.me.0 < length self.now.layout.writers }
        ensures seat { service.new.seat.table_id ≡ service.old.seat.table_id }
        ensures me { service.new.seat.me ≡ (
          Service 0 (made_of service.old.seat.me.0 + 1) (desk_of service.old.seat.me.0)
              (watch_of service.old.seat.me.0) (service_of service.old.seat.me.0),
          [],
        ) }
        ensures joined { result.table_id ≡ service.old.seat.table_id }
        ensures made { result.me ≡ (Writer (made_of service.old.seat.me.0) 0 newcomer, []) }
    {
        let table = &self.table;
        table.shared.split_seat::<NextWriter>(&mut service.seat)
    }
}

/// The first payload word of each chunk, and the place of the word of flush requests.
fn payload_starts(alloc: Global, layout: &Layout) -> Result<(Vec<usize>, usize), AllocError>
    requires laid { IsLaid layout.now }
    requires pages { layout.now.pages < 2 ^ 32 }
    ensures starts { IfOk result (λ made. HasStarts layout.now (length layout.now.spots) made.0.items) }
    ensures requests { IfOk result (λ made. made.1 ≡ request_place layout.now) }
{
    let mut starts = Vec::new(alloc);
    let mut next = layout.word_count() * LINE_WORDS;
    for spot in layout.spots() {
        starts.push(next)?;
        next += (spot.payload_size as usize + 7) / 8;
    }
    Ok((starts, next + LINE_WORDS))
}

/// A body for each chunk, with room for its payload.
fn free_bodies(alloc: Global, spots: &[Spot]) -> Result<Vec<Option<CommitBody>>, AllocError>
    ensures { IfOk result (λ bodies. HasFreeBodies spots.now (length spots.now) bodies.items) }
{
    let mut bodies = Vec::new(alloc);
    for spot in spots {
        bodies.push(Some(free_body(alloc, spot.payload_size)?))?;
    }
    Ok(bodies)
}

fn free_body(alloc: Global, payload_size: u32) -> Result<CommitBody, AllocError>
    ensures { IfOk result (λ body. IsFreeBody payload_size body) }
{
    Ok(CommitBody {
        payload: vec![in alloc; 0; payload_size as usize]?,
        patches: Box::new(alloc, ArrayVec::new())?,
        target: 0,
    })
}
