//! What the service of a table that threads share knows.
ghost use Rattle.std.specs.Prelude.{◌≡◌, ◌+◌, ◌-◌, ◌<◌, ◌≤◌, length};
ghost use Rattle.trace_base.specs.declared.limits.TheConstants.{FIRST_SEQUENCE};
ghost use Rattle.trace_buffer.specs.Answers.{counts_of, state_of};
ghost use Rattle.trace_model.specs.History.{buffers_after};
ghost use Rattle.trace_model.specs.Sequences.{sequence_in};
ghost use Rattle.chunk_plain.specs.Histories.{history_of};
ghost use Rattle.chunk_plain.specs.Views.{taken_of};
ghost use Rattle.chunk_words.specs.declared.host.HostTable.{HostTable};
ghost use Rattle.chunk_words.specs.Sits.{setup_in};
ghost use Rattle.service_core.specs.Agreement.{first_of, buffer_of};
ghost use Rattle.service_core.specs.Routing.{buffer_at};
ghost use Rattle.thread_service.specs.Serving.{core_of, view_in, Serves, IsServing};

use crate::service::Service;
use trace_buffer::{BufferCounts, SequenceState};

impl Service {
    /// How many chunks were taken of a writer. Writers count from 1.
    pub fn taken(&self, writer: u16) -> u32
        requires least { 1 ≤ writer }
        requires most { writer ≤ length (core_of self.now).writers.items }
        requires serves { IsServing self.now }
        ensures { (table : HostTable) → Serves table self.now → result ≡ (taken_of (view_in self.now) (writer - 1)).count }
    {
        self.core.taken(writer)
    }

    /// What a buffer counts. Buffers count from 1.
    pub fn counts(&self, buffer: u8) -> BufferCounts
        requires least { 1 ≤ buffer }
        requires most { buffer ≤ length (core_of self.now).specs.items }
        requires serves { IsServing self.now }
        ensures { (table : HostTable) → Serves table self.now
            → (let buffers = buffers_after (first_of (setup_in table) (core_of self.now)) (history_of (view_in self.now)) in
            result ≡ counts_of (buffer_at buffers (buffer - 1))) }
    {
        self.core.counts(buffer)
    }

    /// What is known of a writer's sequence.
    pub fn state(&self, sequence: u32) -> SequenceState
        requires least { FIRST_SEQUENCE ≤ sequence }
        requires most { sequence < FIRST_SEQUENCE + length (core_of self.now).writers.items }
        requires serves { IsServing self.now }
        ensures { (table : HostTable) → Serves table self.now
            → (let buffers = buffers_after (first_of (setup_in table) (core_of self.now)) (history_of (view_in self.now)) in
            let buffer = buffer_at buffers (buffer_of (setup_in table) (sequence - FIRST_SEQUENCE) - 1) in
            result ≡ state_of buffer.policy (sequence_in buffer.sequences sequence)) }
    {
        self.core.state(sequence)
    }
}
