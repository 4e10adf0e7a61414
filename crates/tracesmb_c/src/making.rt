//! Making a session.
ghost use Rattle.std.specs.Prelude.{◌≡◌, ℕ, ◌<◌, ◌≤◌, [], length, IfOk, Option, Some, slice_get, vec_capacity};
ghost use Rattle.chunk_plain.specs.Laying.{setup_of};
ghost use Rattle.chunk_plain.specs.Setup.{HasProducer, producer_of};
ghost use Rattle.chunk_plain.specs.Views.{newcomer};
ghost use Rattle.chunk_words.specs.Made.{HasWriterSeats};
ghost use Rattle.chunk_words.specs.Sits.{Sits, setup_in, known_by};
ghost use Rattle.thread_writer.specs.declared.writer.TraceWriter.{TraceWriter};
ghost use Rattle.tracesmb_c.specs.declared.planning.SessionSetup.{SessionSetup};
ghost use Rattle.tracesmb_c.specs.Planning.{IsPlan, IsPlanFor};
ghost use Rattle.tracesmb_c.specs.Sessions.{IsSession, IsNewWriter, IsNewHome, HasGiven, IsMadeFor, IsUntouched};

use crate::planning::Plan;
use crate::session::OwnedSession;
use crate::waiting::Waiting;
use chunk_plain::ProducerSpec;
use chunk_words::{HostTable, WriterSeat};
use claim_arbiter::Arbiter;
use std::alloc::{AllocError, Global};
use std::sync::Arc;
use thread_service::Service;
use thread_writer::TraceWriter;
use trace_base::policy::WriterSpec;

impl Plan {
    /// A session of this plan, in which nothing was done.
    pub fn make(self, alloc: Global) -> Result<OwnedSession, AllocError>
        requires plan { IsPlan self }
        ensures session { IfOk result IsSession }
        ensures untouched { IfOk result IsUntouched }
        ensures made { IfOk result (λ session. (setup : SessionSetup) → IsPlanFor setup self → IsMadeFor setup session) }
        ensures given { IfOk result (λ session. HasGiven session []) }
    {
        let Plan {
            producers,
            writers,
            buffer,
        } = self;
        let (table, given, mut seat) = HostTable::make(alloc, &producers, &writers)?;
        let pass = table.pass(&mut seat);
        let service = Service::make(alloc, &[buffer], &producers, &writers, seat)?;
        let seats = Vec::with_capacity(alloc, writers.len())?;
        let counts = Vec::with_capacity(alloc, writers.len())?;
        let shared = Arc::new(alloc, table)?;
        let mut homes = Vec::with_capacity(alloc, writers.len())?;
        // A writer has to be ended, so it is made once nothing can fail any more.
        fill_homes(&mut homes, &shared, given, &writers, &producers);
        Ok(OwnedSession {
            table: shared,
            service,
            pass,
            homes,
            seats,
            counts,
            producers: producers.len() as u16,
            stopped: false,
            torn: false,
            waiting: Waiting::new(alloc),
        })
    }
}

/// The writer of a seat.
fn make_writer(
    table: &HostTable,
    seat: WriterSeat,
    spec: WriterSpec,
    producers: &[ProducerSpec],
) -> TraceWriter
    requires sits { Sits table.now seat }
    requires fresh { known_by seat ≡ newcomer }
    requires setup { setup_in table.now ≡ setup_of producers.now (setup_in table.now).writers }
    requires spec { slice_get (setup_in table.now).writers seat.place ≡ Some spec }
    requires producer { HasProducer (setup_in table.now) spec.producer }
    ensures { IsNewWriter table.now seat.place spec.policy result }
{
    let (first, count) = table.chunks_of(spec.producer);
    let geometry = producers[usize::from(spec.producer) - 1].geometry;
    TraceWriter::make(seat, spec, Arbiter::new(first, count), geometry)
}

/// The writers, each with its seat. There is room for them.
fn fill_homes(
    homes: &mut Vec<Option<TraceWriter>>,
    table: &HostTable,
    seats: Vec<WriterSeat>,
    specs: &[WriterSpec],
    producers: &[ProducerSpec],
)
    requires none { homes.old.items ≡ [] }
    requires room { length specs.now ≤ vec_capacity homes.old }
    requires seats { HasWriterSeats table.now (length specs.now) seats.items }
    requires setup { setup_in table.now ≡ setup_of producers.now specs.now }
    requires named { (place : ℕ) → place < length specs.now
        → HasProducer (setup_of producers.now specs.now) (producer_of (setup_of producers.now specs.now) place) }
    ensures many { length homes.new.items ≡ length specs.now }
    ensures made { (place : ℕ) (home : Option TraceWriter) → slice_get homes.new.items place ≡ Some home
        → IsNewHome table.now specs.now place home }
{
    for seat in seats {
        let spec = specs[homes.len()];
        match homes.push(Some(make_writer(table, seat, spec, producers))) {
            Ok(()) => {}
            Err(failed) => {
                if let Some(writer) = failed.value {
                    let _ = writer.give_up();
                }
                unreachable!()
            }
        }
    }
}
