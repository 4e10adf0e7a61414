//! What a service knows.
ghost use Rattle.std.specs.Prelude.{◌≡◌, ◌+◌, ◌-◌, ◌<◌, ◌≤◌, length};
ghost use Rattle.trace_base.specs.declared.limits.TheConstants.{FIRST_SEQUENCE};
ghost use Rattle.trace_model.specs.History.{buffers_after};
ghost use Rattle.trace_model.specs.Sequences.{sequence_in};
ghost use Rattle.trace_buffer.specs.Answers.{counts_of, state_of};
ghost use Rattle.chunk_plain.specs.Histories.{history_of};
ghost use Rattle.chunk_plain.specs.Setup.{Setup, sequence_of};
ghost use Rattle.chunk_plain.specs.Views.{ServiceView, taken_of};
ghost use Rattle.service_core.specs.Routing.{buffer_at};
ghost use Rattle.service_core.specs.Agreement.{IsAgreeing, ServiceAgrees, first_of, buffer_of, spec_at};

use crate::service::ServiceCore;
use trace_base::limits::FIRST_SEQUENCE;
use trace_buffer::{BufferCounts, SequenceState, TraceBuffer};

impl<S> ServiceCore<S> {
    /// How many chunks were taken of a writer. Writers count from 1.
    pub fn taken(&self, writer: u16) -> u32
        requires least { 1 ≤ writer }
        requires most { writer ≤ length self.now.writers.items }
        requires agrees { IsAgreeing self.now }
        ensures { (setup : Setup) (view : ServiceView) → ServiceAgrees setup view self.now → result ≡ (taken_of view (writer - 1)).count }
    {
        self.taken[usize::from(writer) - 1]
    }

    /// What a buffer counts. Buffers count from 1.
    pub fn counts(&self, buffer: u8) -> BufferCounts
        requires least { 1 ≤ buffer }
        requires most { buffer ≤ length self.now.specs.items }
        requires agrees { IsAgreeing self.now }
        ensures { (setup : Setup) (view : ServiceView) → ServiceAgrees setup view self.now
            → result ≡ counts_of (buffer_at (buffers_after (first_of setup self.now) (history_of view)) (buffer - 1)) }
    {
        self.buffers[usize::from(buffer) - 1].counts()
    }

    /// A buffer as it stands. Buffers count from 1.
    pub fn lend(&self, buffer: u8) -> &TraceBuffer
        requires least { 1 ≤ buffer }
        requires most { buffer ≤ length self.now.specs.items }
        requires agrees { IsAgreeing self.now }
        ensures is { result.now ≡ buffer_at self.now.buffers.items (buffer - 1) }
        ensures history { (setup : Setup) (view : ServiceView) → ServiceAgrees setup view self.now
            → result.now ≡ buffer_at (buffers_after (first_of setup self.now) (history_of view)) (buffer - 1) }
    {
        &self.buffers[usize::from(buffer) - 1]
    }

    /// What is known of a writer's sequence.
    pub fn state(&self, sequence: u32) -> SequenceState
        requires least { FIRST_SEQUENCE ≤ sequence }
        requires most { sequence < FIRST_SEQUENCE + length self.now.writers.items }
        requires agrees { IsAgreeing self.now }
        ensures { (setup : Setup) (view : ServiceView) → ServiceAgrees setup view self.now
            → (let buffer = buffer_at (buffers_after (first_of setup self.now) (history_of view))
            (buffer_of setup (sequence - FIRST_SEQUENCE) - 1) in
            result ≡ state_of buffer.policy (sequence_in buffer.sequences sequence)) }
    {
        self.state_at((sequence - FIRST_SEQUENCE) as usize)
    }

    /// What is known of the sequence of the writer at this place.
    pub(crate) fn state_at(&self, place: usize) -> SequenceState
        requires agrees { IsAgreeing self.now }
        requires place { place < length self.now.writers.items }
        ensures { let buffer = buffer_at self.now.buffers.items ((spec_at self.now.writers.items place).buffer - 1) in
            result ≡ state_of buffer.policy (sequence_in buffer.sequences (sequence_of place)) }
    {
        let index = usize::from(self.writers[place].buffer) - 1;
        let sequence = place as u32 + FIRST_SEQUENCE;
        self.buffers[index].state(sequence)
    }
}
