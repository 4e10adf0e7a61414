//! What a buffer says of itself and of its sequences.
ghost use Rattle.std.specs.Prelude.{◌≡◌, ◌^◌, ◌≤◌, true};
ghost use Rattle.trace_model.specs.Row.{horizon};
ghost use Rattle.trace_model.specs.Sequences.{is_known, sequence_in};
ghost use Rattle.trace_buffer.specs.Answers.{counts_of, state_of};
ghost use Rattle.trace_buffer.specs.Calls.{is_lost};

use crate::answers::{BufferCounts, SequenceState};
use crate::buffer::TraceBuffer;
use crate::rows::{find_row, has_row};

impl TraceBuffer {
    /// Whether the sequence is one of the buffer's.
    pub fn knows(&self, sequence: u32) -> bool
        ensures { result ≡ is_known self.now.sequences sequence }
    {
        has_row(&self.rows, sequence)
    }

    /// The size of each record of the sequence.
    pub fn record_size(&self, sequence: u32) -> u32
        requires { is_known self.now.sequences sequence ≡ true }
        ensures { result ≡ (sequence_in self.now.sequences sequence).size }
    {
        self.rows[find_row(&self.rows, sequence)].size()
    }

    pub fn state(&self, sequence: u32) -> SequenceState
        requires { is_known self.now.sequences sequence ≡ true }
        ensures { result ≡ state_of self.now.policy (sequence_in self.now.sequences sequence) }
    {
        self.rows[find_row(&self.rows, sequence)].state(self.policy)
    }

    pub fn counts(&self) -> BufferCounts
        ensures { result ≡ counts_of self.now }
    {
        BufferCounts {
            policy: self.policy,
            bytes: u64::from(self.ring.size()),
            placed: self.placed,
            rewritten: self.rewritten,
            overwritten: self.overwritten,
            discarded: self.discarded,
            unpatched: self.unpatched,
            padding: self.padding,
        }
    }

    /// Whether all that there was of a chunk is gone: it arrived complete, or a part of it was there
    /// when its sequence was closed, and it has no record any more.
    pub fn lost(&self, sequence: u32, chunk_id: u64) -> bool
        requires { is_known self.now.sequences sequence ≡ true }
        ensures { result ≡ is_lost self.now sequence chunk_id }
    {
        let row = &self.rows[find_row(&self.rows, sequence)];
        self.image_of(sequence, chunk_id).is_none()
            && (row.has_arrived(chunk_id) || row.is_final(chunk_id))
    }

    /// One above the last chunk that a reader of the sequence can meet.
    pub fn horizon(&self, sequence: u32) -> u64
        requires { is_known self.now.sequences sequence ≡ true }
        ensures is { result ≡ horizon (sequence_in self.now.sequences sequence) }
        ensures low { result ≤ 2 ^ 33 }
    {
        self.rows[find_row(&self.rows, sequence)].horizon()
    }
}
