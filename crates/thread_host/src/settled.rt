//! A run, once its threads are done and all that its writers completed is taken.
ghost use Rattle.std.specs.Prelude.{◌≡◌, ◌≤◌, false, List, [], length, map, vec_capacity, IfSome};
ghost use Rattle.chunk_plain.specs.Views.{ServiceView, asked_in};
ghost use Rattle.chunk_plain.specs.declared.tokens.TheConstants.{POSITION_LIMIT};
ghost use Rattle.chunk_plain.specs.Histories.{completed_images};
ghost use Rattle.chunk_words.specs.declared.host.HostTable.{HostTable};
ghost use Rattle.chunk_words.specs.Closed.{views_of};
ghost use Rattle.chunk_plain.specs.Letters.{last_flush};
ghost use Rattle.chunk_words.specs.Knows.{with_tale};
ghost use Rattle.chunk_words.specs.Sits.{setup_in, known_by_pass};
ghost use Rattle.scenario_text.specs.declared.scenario.NumberedLine.{NumberedLine};
ghost use Rattle.scenario_text.specs.Scenario.{Parts};
ghost use Rattle.trace_writer.specs.Core.{holds_chunk};
ghost use Rattle.run_model.specs.Settled.{last_flushes};
ghost use Rattle.thread_service.specs.Serving as serving;
ghost use Rattle.thread_service.specs.Serving.{Serves};
ghost use Rattle.thread_service.specs.Settling.{TakesAllOut};
ghost use Rattle.thread_writer.specs.Writing.{core_of, view_in, Writes};
ghost use Rattle.thread_host.specs.Ending.{begun_counts, AreDoneSeats, HasHeardAll};
ghost use Rattle.thread_host.specs.Growing.{IsHearing};
ghost use Rattle.thread_host.specs.Hosts.{IsHost, IsSettledBehind, HaveAnswered, HasReadAnswers, HavePlayed};
ghost use Rattle.thread_host.specs.Tally.{KeepsServing};
ghost use Rattle.thread_host.specs.Terms.{LeavesSeat, OnlyLearns, StaysSettled};

use crate::host::Host;
use crate::reading::read_answers;
use chunk_words::{HostTable, ReadPass, WriterSeat};
use loss_report::{Done, SequenceCounts};
use thread_service::Service;
use thread_writer::TraceWriter;

/// A table and its service, with the seats of its writers, which have nothing left to do.
#[derive(Drop)]
pub struct Settled {
    pub(crate) table: HostTable,
    pub(crate) service: Service,
    pub(crate) pass: ReadPass,
    pub(crate) seats: Vec<WriterSeat>,
    pub(crate) producers: u16,
    /// Of each sequence that which its writer counted.
    pub(crate) counts: Done,
}

impl Host {
    /// Has the service read its writers' last answers to flush requests once it has heard of each writer,
    /// marks the world in which the writers are done, and has all taken that they completed. Their seats
    /// know what they knew. What the service knows grows by one answer of each writer, in rising number, and
    /// then by rounds that take complete chunks, producer by producer in rising number, and by nothing else. No
    /// request was made behind those that the reading pass knows. Where each writer has answered the last of
    /// them, these answers were read.
    pub fn settle(self, writers: Vec<TraceWriter>) -> Settled
        requires played { (scenario : Parts) × IsHost scenario self × HavePlayed scenario.lines last_flushes self.table writers.items }
        ensures settled { (scenario : Parts) → IsHost scenario self → HavePlayed scenario.lines last_flushes self.table writers.items
            → IsSettledBehind scenario self.service result }
        ensures writers { views_of result.seats.items ≡ map view_in writers.items }
        ensures service { IfSome self.service (λ before. KeepsServing (setup_in self.table)
            (serving.core_of before) (serving.core_of result.service)) }
        ensures takes { IfSome self.service (λ before. (heard : ServiceView)
            × IsHearing (length (setup_in self.table).writers) (serving.view_in before) heard
            × TakesAllOut (setup_in self.table) (length (setup_in self.table).ranges) heard (serving.view_in result.service)) }
        ensures requests { asked_in (serving.view_in result.service).letters ≡ asked_in (known_by_pass self.pass).letters }
        ensures answered { HaveAnswered (asked_in (known_by_pass self.pass).letters) writers.items
            → HasReadAnswers self.table (serving.view_in result.service) }
        ensures stays { StaysSettled self result }
    {
        let Host {
            alloc: _,
            table,
            service,
            tally,
            mut pass,
            specs: _,
            mut seats,
            producers,
            mut counts,
        } = self;
        let Some(mut service) = service else {
            unreachable!()
        };
        let Some(mut tally) = tally else {
            unreachable!()
        };
        end_writers(
            &mut service,
            &table,
            writers,
            &mut seats,
            &mut counts.sequences,
        );
        read_answers(&mut service, &table, &mut tally);
        service.compare(&table, &mut pass);
        counts.flushes = tally.into_sums();
        service.mark(&table);
        service.settle(&table, producers);
        Settled {
            table,
            service,
            pass,
            seats,
            producers,
            counts,
        }
    }
}

/// Takes the seats of the writers, in their order, and what each counted. The service hears of all
/// that they have begun.
fn end_writers(
    service: &mut Service,
    table: &HostTable,
    writers: Vec<TraceWriter>,
    seats: &mut Vec<WriterSeat>,
    sequences: &mut [SequenceCounts],
)
    requires serves { Serves table.now service.old }
    requires played { (lines : List NumberedLine) × HavePlayed lines last_flushes table.now writers.items }
    requires room { (seats.old.items ≡ []) × (length (setup_in table.now).writers ≤ vec_capacity seats.old) }
    requires sequences { length sequences.old ≡ length (setup_in table.now).writers }
    ensures learns { OnlyLearns table.now service.old service.new }
    ensures seats { (length seats.new.items ≡ length (setup_in table.now).writers)
        × (views_of seats.new.items ≡ map view_in writers.items) }
    ensures heard { HasHeardAll (length (serving.view_in service.new).looks) (serving.desk_in service.new) seats.new.items }
    ensures done { (lines : List NumberedLine) → HavePlayed lines last_flushes table.now writers.items
        → AreDoneSeats lines table.now seats.new.items sequences.new }
{
    let mut left = writers;
    let many = left.len();
    'writers: for place in 0..many {
        let (seat, counts) = end_writer(service, table, left.remove(0));
        sequences[place] = counts;
        match seats.push(seat) {
            Ok(()) => {}
            Err(_) => unreachable!(),
        }
    }
    left.destroy_empty();
}

/// The seat of a writer that holds no chunk, and what it counted. The service hears of all that it has
/// begun.
fn end_writer(
    service: &mut Service,
    table: &HostTable,
    writer: TraceWriter,
) -> (WriterSeat, SequenceCounts)
    requires serves { Serves table.now service.old }
    requires writes { Writes table.now writer }
    requires none_held { holds_chunk (core_of writer) ≡ false }
    ensures learns { OnlyLearns table.now service.old service.new }
    ensures told { serving.desk_in service.new
        ≡ with_tale (serving.desk_in service.old) (serving.view_in service.old) (core_of writer).seat.place (view_in writer).begun
        (last_flush (view_in writer).letters.answers) }
    ensures seat { LeavesSeat table.now writer result.0 }
    ensures counts { result.1 ≡ begun_counts (view_in writer).calls }
{
    ids_fit(&writer);
    let counts = SequenceCounts {
        begun: writer.begun(),
        delivered: 0,
        dropped: writer.dropped_at_begin(),
        overwritten: 0,
        discarded: 0,
        cut: 0,
    };
    let mut seat = writer.into_seat();
    service.learn(table, &mut seat);
    (seat, counts)
}

/// The positions of completed chunks fit their type. It does nothing: the writer's own counter shows it.
fn ids_fit(writer: &TraceWriter)
    ensures { (table : HostTable) → Writes table writer.now → length (completed_images (view_in writer.now).begun) ≤ POSITION_LIMIT }
{
    let _completed = writer.completed();
}
