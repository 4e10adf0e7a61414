//! What became of chunks, packets and flush requests, once all is played.
ghost use Rattle.std.specs.Prelude.{◌≡◌, ℕ, ◌<◌, ◌≤◌, false, List, [], ◌++◌, length, map, Some, IfOk, slice_get, slice_index_or, vec_len};
ghost use Rattle.trace_base.specs.declared.limits.TheConstants.{MAX_BUFFERS};
ghost use Rattle.trace_buffer.specs.Answers as answers;
ghost use Rattle.chunk_plain.specs.Setup.{Setup};
ghost use Rattle.chunk_plain.specs.Views.{ServiceView};
ghost use Rattle.service_core.specs.Agreement.{IsAgreeing, ServiceAgrees};
ghost use Rattle.replay_model.specs.ActNotes.{ActNote};
ghost use Rattle.replay_host.specs.Counting.{answers_to};
ghost use Rattle.replay_host.specs.Counting as counting;
ghost use Rattle.replay_host.specs.Tally.{IsTally};

use crate::flushes::Flushes;
use crate::host::Host;
use chunk_plain::Words;
use loss_report::{Done, SequenceCounts};
use service_core::ServiceCore;
use std::alloc::{AllocError, Global};
use trace_base::limits::FIRST_SEQUENCE;
use trace_base::policy::FullPolicy;
use trace_buffer::{BufferCounts, SequenceState};

/// What a buffer has counted of which nothing is known yet.
const NO_CHUNKS: BufferCounts = BufferCounts {
    policy: FullPolicy::Ring,
    bytes: 0,
    placed: 0,
    rewritten: 0,
    overwritten: 0,
    discarded: 0,
    unpatched: 0,
    padding: 0,
};

/// And a sequence.
const NO_PACKETS: SequenceCounts = SequenceCounts {
    begun: 0,
    delivered: 0,
    dropped: 0,
    overwritten: 0,
    discarded: 0,
    cut: 0,
};

/// Room for the counts of so many buffers and of the sequences of so many writers, and none for the answers
/// to lines `raw`.
pub fn make_done(alloc: Global, buffers: usize, writers: usize) -> Result<Done, AllocError>
    ensures buffers { IfOk result (λ done. vec_len done.buffers ≡ buffers) }
    ensures sequences { IfOk result (λ done. vec_len done.sequences ≡ writers) }
    ensures flushes { IfOk result (λ done. done.flushes.items ≡ []) }
    ensures raws { IfOk result (λ done. done.raws.items ≡ []) }
{
    Ok(Done {
        buffers: vec![in alloc; NO_CHUNKS; buffers]?,
        sequences: vec![in alloc; NO_PACKETS; writers]?,
        flushes: Vec::new(alloc),
        raws: Vec::new(alloc),
    })
}

/// What became of the packets of a sequence, of which so many were begun, and so many dropped at their
/// begin. Those under no cause are cut.
pub fn packets_left(begun: u64, at_begin: u64, state: &SequenceState) -> SequenceCounts
    ensures { result ≡ counting.packets_left begun at_begin state.now }
{
    let dropped = state.dropped.saturating_add(at_begin);
    SequenceCounts {
        begun,
        delivered: state.delivered,
        dropped,
        overwritten: state.overwritten,
        discarded: state.discarded,
        cut: begun
            .saturating_sub(state.delivered)
            .saturating_sub(dropped)
            .saturating_sub(state.overwritten)
            .saturating_sub(state.discarded),
    }
}

/// What became of the packets of a sequence in whose name lines commit chunks: those that losses and reads
/// counted, and no others were begun.
pub(crate) fn packets_counted(state: &SequenceState) -> SequenceCounts
    ensures { result ≡ counting.packets_counted state.now }
{
    SequenceCounts {
        begun: state
            .delivered
            .saturating_add(state.dropped)
            .saturating_add(state.overwritten)
            .saturating_add(state.discarded)
            .saturating_add(state.cut),
        delivered: state.delivered,
        dropped: state.dropped,
        overwritten: state.overwritten,
        discarded: state.discarded,
        cut: state.cut,
    }
}

/// Each writer answers the requests that it hadn't answered, with the chunks that were taken of it.
fn answer_for_rest<S>(service: &ServiceCore<S>, writers: usize, flushes: &mut Flushes)
    requires agrees { IsAgreeing service.now }
    requires writers { writers ≡ length service.now.writers.items }
    requires tally { (notes : List ActNote) × IsTally notes writers flushes.old }
    ensures tally { (notes : List ActNote) (setup : Setup) (view : ServiceView) → IsTally notes writers flushes.old
        → ServiceAgrees setup view service.now
        → IsTally (notes ++ answers_to view writers) writers flushes.new }
    ensures made { flushes.new.made ≡ flushes.old.made }
    ensures room { vec_len flushes.new.chunks ≡ vec_len flushes.old.chunks }
    ensures told { flushes.new.answers ≡ flushes.old.answers }
{
    for place in 0..writers {
        flushes.answer(place, service.taken(place as u16 + 1));
    }
}

impl<W: Words> Host<W, W::Writer, W::Service> {
    ghost use Rattle.trace_writer.specs.declared.writer.WriterCore.{WriterCore};
    ghost use Rattle.replay_host.specs.Counting.{buffers_now, packets_now, CountsAll, HasCountRoom};
    ghost use Rattle.replay_host.specs.Playing.{IsHost};

    /// What became of the packets of the writer at this place, which is marked where lines commit chunks in
    /// its name.
    fn sequence_counts(&self, place: usize, marked: bool) -> SequenceCounts
        requires host { IsHost W.means self.now }
        requires place { place < length (W.means.setup self.now.table).writers }
        ensures { (core : WriterCore W.Writer) → slice_get self.now.writers.items place ≡ Some core
            → result ≡ packets_now W.means self.now place marked (W.means.view self.now.table core.seat).calls }
    {
        let state = self.helper.service.state(place as u32 + FIRST_SEQUENCE);
        if marked {
            return packets_counted(&state);
        }
        let writer = &self.writers[place];
        packets_left(writer.begun(), writer.dropped_at_begin(), &state)
    }

    /// What each buffer has counted.
    fn count_buffers(&self, buffers: &mut [BufferCounts])
        requires host { IsHost W.means self.now }
        requires room { length buffers.old ≡ length self.now.helper.service.specs.items }
        requires few { length buffers.old ≤ MAX_BUFFERS }
        ensures { buffers.new ≡ map answers.counts_of (buffers_now W.means self.now) }
    {
        for index in 0..buffers.len() {
            buffers[index] = self.helper.service.counts(index as u8 + 1);
        }
    }

    /// What became of the packets of each writer, by the marks of those in whose names lines commit chunks.
    fn count_sequences(&self, marks: &[bool], sequences: &mut [SequenceCounts])
        requires host { IsHost W.means self.now }
        requires room { length sequences.old ≡ length self.now.writers.items }
        requires marks { length marks.now ≡ length self.now.writers.items }
        ensures room { length sequences.new ≡ length sequences.old }
        ensures each { (place : ℕ) (core : WriterCore W.Writer) → slice_get self.now.writers.items place ≡ Some core
            → slice_get sequences.new place ≡ Some (packets_now W.means self.now place (slice_index_or marks.now place false)
            (W.means.view self.now.table core.seat).calls) }
    {
        for place in 0..sequences.len() {
            sequences[place] = self.sequence_counts(place, marks[place]);
        }
    }

    /// Counts, once all is played, what became of chunks and packets, and has each writer answer the
    /// requests that it hadn't answered. Writers are marked in whose names lines commit chunks.
    pub fn count(&mut self, marks: &[bool], done: &mut Done)
        requires host { IsHost W.means self.old }
        requires tally { (notes : List ActNote) × IsTally notes (length (W.means.setup self.old.table).writers) self.old.flushes }
        requires rows { HasCountRoom self.old marks.now done.old }
        ensures made { self.new.flushes.made ≡ self.old.flushes.made }
        ensures room { vec_len self.new.flushes.chunks ≡ vec_len self.old.flushes.chunks }
        ensures told { self.new.flushes.answers ≡ self.old.flushes.answers }
        ensures raws { done.new.raws ≡ done.old.raws }
        ensures counts { CountsAll W.means self.old marks.now done.new.buffers.items done.new.sequences.items self.new.flushes }
    {
        self.count_buffers(&mut done.buffers);
        self.count_sequences(marks, &mut done.sequences);
        answer_for_rest(&self.helper.service, self.writers.len(), &mut self.flushes);
    }
}
