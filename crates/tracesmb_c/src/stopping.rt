//! The end of a session's writing: all writers are home, all that they completed is taken, and their
//! sequences are closed.
ghost use Rattle.std.specs.Prelude.{◌≡◌, ℕ, ◌<◌, ◌≤◌, true, false, [], ◌∷◌, ◌++◌, length, Some, slice_get, vec_capacity};
ghost use Rattle.chunk_plain.specs.Histories.{completed_images};
ghost use Rattle.chunk_plain.specs.declared.tokens.TheConstants.{POSITION_LIMIT};
ghost use Rattle.chunk_plain.specs.Letters.{last_flush};
ghost use Rattle.chunk_plain.specs.Views.{taken_of};
ghost use Rattle.chunk_words.specs.declared.host.HostTable.{HostTable};
ghost use Rattle.chunk_words.specs.declared.seats.WriterSeat.{WriterSeat};
ghost use Rattle.chunk_words.specs.Knows.{with_tale};
ghost use Rattle.chunk_words.specs.Sits.{setup_in};
ghost use Rattle.service_core.specs.Agreement.{is_closed};
ghost use Rattle.trace_writer.specs.Core.{holds_chunk};
ghost use Rattle.thread_host.specs.Terms.{LeavesSeat};
ghost use Rattle.thread_service.specs.Serving as serving;
ghost use Rattle.thread_service.specs.Serving.{Serves, KnowsSame};
ghost use Rattle.thread_writer.specs.Writing.{core_of, view_in, Writes};
ghost use Rattle.tracesmb_c.specs.Ending.{AreLeft, IsCountOf, IsTold, AreThere, HaveRoom};
ghost use Rattle.tracesmb_c.specs.Sessions.{IsSession, KeepsGiven, KeepsWaiting, AreAllHome, AreHome, HasStopped};

use crate::session::{Counted, OwnedSession};
use chunk_words::{HostTable, WriterSeat};
use std::alloc::Global;
use thread_service::Service;
use thread_writer::TraceWriter;

impl OwnedSession {
    /// Whether no writer is lent.
    pub fn all_home(&self) -> bool
        ensures home { result ≡ true → AreAllHome self.now }
        ensures lent { AreAllHome self.now → result ≡ true }
    {
        'homes: for place in 0..self.homes.len() {
            if self.homes[place].is_none() {
                return false;
            }
        }
        true
    }

    /// Ends the writers, which are all home, takes all that they completed, and closes their sequences.
    pub fn stop(&mut self, alloc: Global)
        requires session { IsSession self.old }
        requires open { self.old.stopped ≡ false }
        requires home { AreAllHome self.old }
        ensures session { IsSession self.new }
        ensures stopped { HasStopped self.old self.new }
        ensures given { KeepsGiven self.old self.new }
        ensures waits { KeepsWaiting self.old self.new }
    {
        let homes = std::mem::replace(&mut self.homes, Vec::new(alloc));
        self.stopped = true;
        end_writers(
            &mut self.service,
            &self.table,
            homes,
            &mut self.seats,
            &mut self.counts,
        );
        self.service.settle(&self.table, self.producers);
        close_all(&mut self.service, &self.table, self.producers);
    }
}

/// Takes the seats of the writers, in their order, and what each counted. The service hears of all that
/// they have begun.
fn end_writers(
    service: &mut Service,
    table: &HostTable,
    homes: Vec<Option<TraceWriter>>,
    seats: &mut Vec<WriterSeat>,
    counts: &mut Vec<Counted>,
)
    requires serves { Serves table.now service.old }
    requires there { AreThere homes.items }
    requires home { AreHome table.now homes.items }
    requires room { HaveRoom (length homes.items) seats.old counts.old }
    ensures serves { Serves table.now service.new }
    ensures same { KnowsSame service.old service.new }
    ensures left { AreLeft table.now homes.items seats.new.items counts.new.items }
    ensures told { (place : ℕ) (seat : WriterSeat) → slice_get seats.new.items place ≡ Some seat
        → IsTold (length (serving.view_in service.new).looks) (serving.desk_in service.new) place seat }
{
    let mut left = homes;
    let many = left.len();
    'writers: for place in 0..many {
        let Some(writer) = left.remove(0) else {
            unreachable!()
        };
        let (seat, counted) = end_writer(service, table, writer);
        put_behind(seats, counts, seat, counted);
    }
    left.destroy_empty();
}

/// Puts a seat and what its writer counted behind the others. There is room.
fn put_behind(
    seats: &mut Vec<WriterSeat>,
    counts: &mut Vec<Counted>,
    seat: WriterSeat,
    counted: Counted,
)
    requires seats_room { length seats.old.items < vec_capacity seats.old }
    requires counts_room { length counts.old.items < vec_capacity counts.old }
    ensures seats { seats.new.items ≡ seats.old.items ++ seat ∷ [] }
    ensures counts { counts.new.items ≡ counts.old.items ++ counted ∷ [] }
    ensures seats_capacity { vec_capacity seats.old ≤ vec_capacity seats.new }
    ensures counts_capacity { vec_capacity counts.old ≤ vec_capacity counts.new }
{
    match counts.push(counted) {
        Ok(()) => {}
        Err(_) => unreachable!(),
    }
    match seats.push(seat) {
        Ok(()) => {}
        Err(_) => unreachable!(),
    }
}

/// The seat of a writer that holds no chunk, and what it counted. The service hears of all that it has
/// begun.
fn end_writer(
    service: &mut Service,
    table: &HostTable,
    writer: TraceWriter,
) -> (WriterSeat, Counted)
    requires serves { Serves table.now service.old }
    requires writes { Writes table.now writer }
    requires none_held { holds_chunk (core_of writer) ≡ false }
    ensures serves { Serves table.now service.new }
    ensures same { KnowsSame service.old service.new }
    ensures told { serving.desk_in service.new
        ≡ with_tale (serving.desk_in service.old) (serving.view_in service.old) (core_of writer).seat.place (view_in writer).begun
        (last_flush (view_in writer).letters.answers) }
    ensures leaves { LeavesSeat table.now writer result.0 }
    ensures counts { IsCountOf (view_in writer) result.1 }
{
    positions_fit(&writer);
    let counted = Counted {
        begun: writer.begun(),
        dropped: writer.dropped_at_begin(),
    };
    let mut seat = writer.into_seat();
    service.learn(table, &mut seat);
    (seat, counted)
}

/// The positions of completed chunks fit their type. It does nothing: the writer's own counter shows it.
fn positions_fit(writer: &TraceWriter)
    ensures { (table : HostTable) → Writes table writer.now → length (completed_images (view_in writer.now).begun) ≤ POSITION_LIMIT }
{
    let _completed = writer.completed();
}

/// Closes the sequences of the producers in rising number, each once its complete chunks are taken.
fn close_all(service: &mut Service, table: &HostTable, producers: u16)
    requires serves { Serves table.now service.old }
    requires opened { (place : ℕ) → place < length (setup_in table.now).writers
        → is_closed (setup_in table.now) (serving.core_of service.old) place ≡ false }
    requires producers { producers ≡ length (setup_in table.now).ranges }
    ensures serves { Serves table.now service.new }
    ensures closed { (place : ℕ) → place < length (setup_in table.now).writers
        → is_closed (setup_in table.now) (serving.core_of service.new) place ≡ true }
    ensures specs { (serving.core_of service.new).specs.items ≡ (serving.core_of service.old).specs.items }
    ensures commits { (serving.view_in service.new).commits ≡ (serving.view_in service.old).commits }
    ensures rises { (place : ℕ) → (taken_of (serving.view_in service.old) place).count ≤
        (taken_of (serving.view_in service.new) place).count }
{
    let _stopped = service.stop();
    'producers: for index in 0..producers {
        let _taken = service.close_producer(table, index + 1);
    }
}
