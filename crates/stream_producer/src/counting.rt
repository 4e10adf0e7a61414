//! What became of chunks and packets.
ghost use Rattle.std.specs.Prelude.{◌≡◌, ◌≤◌, length, map};
ghost use Rattle.trace_base.specs.declared.limits.TheConstants.{MAX_BUFFERS, MAX_WRITERS};
ghost use Rattle.trace_buffer.specs.Answers.{counts_of};
ghost use Rattle.stream_producer.specs.Counting as counting;

use crate::player::Player;
use chunk_plain::Words;
use loss_report::SequenceCounts;
use trace_base::limits::FIRST_SEQUENCE;
use trace_base::policy::FullPolicy;
use trace_buffer::{BufferCounts, SequenceState};

/// What a buffer has counted of which nothing is known yet.
pub(crate) const NO_CHUNKS: BufferCounts = BufferCounts {
    policy: FullPolicy::Ring,
    bytes: 0,
    placed: 0,
    rewritten: 0,
    overwritten: 0,
    discarded: 0,
    unpatched: 0,
    padding: 0,
};

/// And a sequence.
pub(crate) const NO_PACKETS: SequenceCounts = SequenceCounts {
    begun: 0,
    delivered: 0,
    dropped: 0,
    overwritten: 0,
    discarded: 0,
    cut: 0,
};

/// What reads and losses counted of a sequence. No more is known of what was begun.
fn counts_read(state: &SequenceState) -> SequenceCounts
    ensures { result ≡ counting.counts_read state.now }
{
    SequenceCounts {
        begun: state
            .delivered
            .saturating_add(state.dropped)
            .saturating_add(state.overwritten)
            .saturating_add(state.discarded)
            .saturating_add(state.cut),
        delivered: state.delivered,
        dropped: state.dropped,
        overwritten: state.overwritten,
        discarded: state.discarded,
        cut: state.cut,
    }
}

impl<W: Words> Player<W, W::Service> {
    ghost use Rattle.stream_producer.specs.Standing.{Serves};

    /// What each buffer has counted.
    pub(crate) fn count_buffers(&self, buffers: &mut [BufferCounts])
        requires serves { Serves W.means self.now }
        requires room { length buffers.old ≡ length self.now.service.specs.items }
        requires few { length buffers.old ≤ MAX_BUFFERS }
        ensures { buffers.new ≡ map counts_of self.now.service.buffers.items }
    {
        for index in 0..buffers.len() {
            buffers[index] = self.service.counts(index as u8 + 1);
        }
    }

    /// What became of the packets of each sequence.
    pub(crate) fn count_sequences(&self, sequences: &mut [SequenceCounts])
        requires serves { Serves W.means self.now }
        requires room { length sequences.old ≡ length (W.means.setup self.now.table).writers }
        requires few { length sequences.old ≤ MAX_WRITERS }
        ensures { sequences.new ≡ counting.counts_from self.now.service.buffers.items 0 (W.means.setup self.now.table).writers }
    {
        for place in 0..sequences.len() {
            let state = self.service.state(place as u32 + FIRST_SEQUENCE);
            sequences[place] = counts_read(&state);
        }
    }
}
