//! The end of a run: all sequences are closed, all buffers read, and all is counted.
ghost use Rattle.std.specs.Prelude.{◌≡◌, ℕ, ◌<◌, ◌≤◌, length, map, slice_index_or, IfOk, MatchResult, OnErr, OnOk};
ghost use Rattle.byte_io.specs.Bytes.{CountsFaults};
ghost use Rattle.trace_base.specs.declared.limits.TheConstants.{MAX_BUFFERS};
ghost use Rattle.trace_buffer.specs.Answers as answers;
ghost use Rattle.chunk_words.specs.declared.host.HostTable.{HostTable};
ghost use Rattle.chunk_words.specs.Closed.{HasAllSeats, IsAccount, AllTaken, views_of};
ghost use Rattle.chunk_words.specs.GoesOn.{GoesOn};
ghost use Rattle.chunk_words.specs.Sits.{Passes, setup_in, known_by_pass};
ghost use Rattle.scenario_text.specs.Scenario.{Parts};
ghost use Rattle.service_core.specs.Agreement.{first_of};
ghost use Rattle.run_model.specs.Settled.{ClosesTo};
ghost use Rattle.thread_service.specs.Serving.{core_of, view_in, desk_in, Serves, IsServing};
ghost use Rattle.thread_host.specs.Counting.{buffers_in, packets_in};
ghost use Rattle.thread_host.specs.Ending.{no_counts};
ghost use Rattle.thread_host.specs.Finishing.{AreClosedTo, ReadsOut, FailsOut, HasFinished, HasFailed, HasLetGo};
ghost use Rattle.thread_host.specs.Hosts.{IsSettled};
ghost use Rattle.thread_host.specs.Jobs.{KeepsLoans};
ghost use Rattle.thread_host.specs.Keeping.{AllOpen};
ghost use Rattle.thread_host.specs.Terms.{KnowsWhole, LeavesSink, StaysServing};

use crate::settled::Settled;
use byte_io::put::WriteFault;
use byte_io::traits::Sink;
use chunk_words::{HostTable, ReadPass, WriterSeat};
use loss_report::{Done, SequenceCounts};
use replay_host::packets_left;
use thread_service::Service;
use trace_base::limits::FIRST_SEQUENCE;
use trace_buffer::BufferCounts;

impl Settled {
    /// Closes the producers in rising number, reads each buffer without limit, in rising number, and
    /// counts what became of packets and chunks, beside what stands for flush requests. What it tells is
    /// the account of the seats and the service that were settled, also where a write failed.
    pub fn finish<T: Sink>(self, out: &mut T) -> Result<Done, WriteFault>
        requires settled { (scenario : Parts) × IsSettled scenario self }
        requires may { T.may_write out.old }
        ensures done { (scenario : Parts) (is : IsSettled scenario self)
            → IfOk result (HasFinished scenario self is (T.taken out.old) (T.taken out.new)) }
        ensures fails { (scenario : Parts) (is : IsSettled scenario self)
            → OnErr result (HasFailed scenario self is (T.taken out.old) (T.taken out.new)) }
        ensures stands { KeepsLoans (T.taken out.old) (T.taken out.new) }
        ensures count { CountsFaults (T.faults out.old) (T.faults out.new) result }
        ensures goes_on { OnOk result (T.may_write out.new) }
    {
        let Settled {
            table,
            mut service,
            mut pass,
            seats,
            producers,
            mut counts,
        } = self;
        close_all(&mut service, &table, producers);
        match read_all(&mut service, &table, &mut pass, counts.buffers.len(), out) {
            Ok(()) => {
                count_buffers(&service, &mut counts.buffers);
                count_sequences(&service, &mut counts.sequences);
                take_apart(table, service, pass, seats);
                Ok(counts)
            }
            Err(WriteFault) => {
                take_apart(table, service, pass, seats);
                Err(WriteFault)
            }
        }
    }

    /// Lets all go, where a write failed before the end: nothing is closed, read or counted any more. What
    /// it tells is the account of the seats and the service that were settled.
    pub fn let_go(self)
        requires settled { (scenario : Parts) × IsSettled scenario self }
        ensures left { (scenario : Parts) (is : IsSettled scenario self) → HasLetGo scenario self is }
    {
        let Settled {
            table,
            service,
            pass,
            seats,
            producers: _,
            counts: _,
        } = self;
        take_apart(table, service, pass, seats);
    }
}

/// Ends the session, and closes the producers in rising number: of each the complete chunks are taken,
/// and then the sequences of its writers closed.
fn close_all(service: &mut Service, table: &HostTable, producers: u16)
    requires serves { Serves table.now service.old }
    requires opened { AllOpen (setup_in table.now) service.old }
    ensures serves { Serves table.now service.new }
    ensures first { first_of (setup_in table.now) (core_of service.new) ≡ first_of (setup_in table.now) (core_of service.old) }
    ensures closes { ClosesTo (setup_in table.now) producers (view_in service.old) (view_in service.new) }
    ensures closed { AreClosedTo (setup_in table.now) producers service.new }
    ensures desk { desk_in service.new ≡ desk_in service.old }
{
    let _stopped = service.stop();
    'producers: for index in 0..producers {
        let _taken = service.close_producer(table, index + 1);
    }
}

/// Reads so many buffers in rising number, each without limit, with the reading pass.
fn read_all<T: Sink>(
    service: &mut Service,
    table: &HostTable,
    pass: &mut ReadPass,
    buffers: usize,
    out: &mut T,
) -> Result<(), WriteFault>
    requires serves { Serves table.now service.old }
    requires pass { KnowsWhole table.now pass.old }
    requires few { buffers ≤ MAX_BUFFERS }
    requires may { T.may_write out.old }
    ensures stays { StaysServing table.now service.old service.new }
    ensures pass { KnowsWhole table.now pass.new }
    ensures reads { MatchResult result
        (λ _. ReadsOut (setup_in table.now) (first_of (setup_in table.now) (core_of service.old)) buffers
        (view_in service.old) (view_in service.new) (known_by_pass pass.old) (known_by_pass pass.new) (T.taken out.old) (T.taken out.new))
        (λ _. FailsOut (setup_in table.now) (first_of (setup_in table.now) (core_of service.old)) buffers
        (view_in service.old) (view_in service.new) (known_by_pass pass.old) (known_by_pass pass.new) (T.taken out.old) (T.taken out.new)) }
    ensures sink { LeavesSink (T.taken out.old) (T.taken out.new) (T.faults out.old) (T.faults out.new) (T.may_write out.new) result }
{
    'buffers: for index in 0..buffers {
        service.read_passing(table, pass, index as u8 + 1, u64::MAX, out)?;
    }
    Ok(())
}

/// What each buffer has counted.
fn count_buffers(service: &Service, buffers: &mut [BufferCounts])
    requires serves { IsServing service.now }
    requires room { length buffers.old ≡ length (core_of service.now).specs.items }
    requires few { length buffers.old ≤ MAX_BUFFERS }
    ensures { (table : HostTable) → Serves table service.now
        → buffers.new ≡ map answers.counts_of (buffers_in (setup_in table) service.now) }
{
    'buffers: for index in 0..buffers.len() {
        buffers[index] = service.counts(index as u8 + 1);
    }
}

/// What became of the packets of each writer, beside what it counted itself.
fn count_sequences(service: &Service, sequences: &mut [SequenceCounts])
    requires serves { IsServing service.now }
    requires room { length sequences.old ≡ length (core_of service.now).writers.items }
    ensures room { length sequences.new ≡ length sequences.old }
    ensures each { (table : HostTable) → Serves table service.now → (place : ℕ) → place < length sequences.old
        → slice_index_or sequences.new place no_counts
        ≡ packets_in (setup_in table) service.now place (slice_index_or sequences.old place no_counts) }
{
    'sequences: for place in 0..sequences.len() {
        let state = service.state(place as u32 + FIRST_SEQUENCE);
        let told = sequences[place];
        sequences[place] = packets_left(told.begun, told.dropped, &state);
    }
}

/// Lets the table go, once all its seats are back. What they knew is the account of all that was done.
fn take_apart(table: HostTable, service: Service, pass: ReadPass, seats: Vec<WriterSeat>)
    requires serves { Serves table service }
    requires pass { Passes table pass }
    requires seats { HasAllSeats table (view_in service) seats.items }
    ensures account { IsAccount (setup_in table) (desk_in service).marks (views_of seats.items) (view_in service) }
    ensures taken { AllTaken (view_in service) (views_of seats.items) }
    ensures goes_on { GoesOn (known_by_pass pass) (view_in service) }
{
    let (seat, _buffers, _session) = service.into_parts();
    let _closed = table.close_with(seats, seat, pass);
}
