//! The end of a session: what became of each packet is counted, and all that the session had is freed.
ghost use Rattle.std.specs.Prelude.{◌≡◌, ℕ, ◌+◌, ◌<◌, true, false, [], length, slice_index_or};
ghost use Rattle.chunk_words.specs.declared.host.HostTable.{HostTable};
ghost use Rattle.chunk_words.specs.Closed.{HasAllSeats, IsAccount, views_of};
ghost use Rattle.chunk_words.specs.GoesOn as passing;
ghost use Rattle.chunk_words.specs.Sits.{Passes, setup_in, known_by_pass};
ghost use Rattle.loss_report.specs.declared.counts.SequenceCounts.{SequenceCounts};
ghost use Rattle.thread_service.specs.Serving.{core_of, view_in, desk_in, Serves, IsServing};
ghost use Rattle.tracesmb_c.specs.Losing.{losses_of, losses_at, no_losses};
ghost use Rattle.tracesmb_c.specs.Ending.{none_counted};
ghost use Rattle.tracesmb_c.specs.Sessions.{IsSession, HasClosed};
ghost use Rattle.tracesmb_c.specs.Waits.{left_in};

use crate::session::{Counted, Ended, OwnedSession};
use chunk_words::{HostTable, ReadPass, ServiceSeat, WriterSeat};
use loss_report::SequenceCounts;
use replay_host::packets_left;
use schedule_laws::{every_packet_is_counted, every_schedule_is_faithful, serving_is_in_order};
use std::sync::Arc;
use thread_service::Service;
use trace_base::limits::FIRST_SEQUENCE;

/// What became of the packets of a writer.
#[repr(C)]
#[derive(Clone, Copy)]
pub struct Losses {
    pub begun: u64,
    pub delivered: u64,
    pub dropped: u64,
    pub overwritten: u64,
    pub discarded: u64,
    pub cut: u64,
}

impl Losses {
    /// Those that were counted.
    fn of(counts: SequenceCounts) -> Losses
        ensures { result ≡ losses_of counts }
    {
        Losses {
            begun: counts.begun,
            delivered: counts.delivered,
            dropped: counts.dropped,
            overwritten: counts.overwritten,
            discarded: counts.discarded,
            cut: counts.cut,
        }
    }
}

impl OwnedSession {
    /// Counts what became of each writer's packets, and lets all go. False says that the table has another
    /// owner, so that it isn't taken back: then nothing is counted, and all else is let go.
    pub fn close(self, losses: &mut [Losses]) -> bool
        requires session { IsSession self }
        requires stopped { self.stopped ≡ true }
        requires handed { self.torn ≡ false → left_in self.waiting ≡ [] }
        requires room { length losses.old ≡ length self.seats.items }
        ensures closed { result ≡ true → HasClosed self losses.new }
        ensures uncounted { result ≡ false → losses.new ≡ losses.old }
    {
        every_schedule_is_faithful();
        every_packet_is_counted();
        serving_is_in_order::<ServiceSeat>();
        let Ended {
            table,
            service,
            pass,
            seats,
            counts,
        } = self.into_ended();
        match Arc::try_unwrap(table) {
            Ok(table) => {
                count_losses(&service, &counts, losses);
                take_apart(table, service, pass, seats);
                true
            }
            Err(_table) => false,
        }
    }
}

/// Those of each writer. Those under no cause are cut.
fn count_losses(service: &Service, counts: &[Counted], losses: &mut [Losses])
    requires serves { IsServing service.now }
    requires counts { length losses.old ≡ length counts.now }
    requires writers { length losses.old ≡ length (core_of service.now).writers.items }
    ensures many { length losses.new ≡ length losses.old }
    ensures each { (table : HostTable) → Serves table service.now → (place : ℕ) → place < length losses.old
        → slice_index_or losses.new place no_losses ≡ losses_at table service.now place (slice_index_or counts.now place none_counted) }
{
    'writers: for place in 0..losses.len() {
        let state = service.state(place as u32 + FIRST_SEQUENCE);
        let counted = counts[place];
        losses[place] = Losses::of(packets_left(counted.begun, counted.dropped, &state));
    }
}

/// Lets the table go, once all its seats are back. What they knew is the account of all that was done.
fn take_apart(table: HostTable, service: Service, pass: ReadPass, seats: Vec<WriterSeat>)
    requires serves { Serves table service }
    requires pass { Passes table pass }
    requires seats { HasAllSeats table (view_in service) seats.items }
    ensures account { IsAccount (setup_in table) (desk_in service).marks (views_of seats.items) (view_in service) }
    ensures goes_on { passing.GoesOn (known_by_pass pass) (view_in service) }
{
    let (seat, _buffers, _session) = service.into_parts();
    let _closed = table.close_with(seats, seat, pass);
}
