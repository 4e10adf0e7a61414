//! A buffer that becomes a copy of another one, and a new consumer of a sequence.
ghost use Rattle.std.specs.Prelude.{◌≡◌, true, map};
ghost use Rattle.trace_model.specs.Sequences.{is_known};
ghost use Rattle.trace_buffer.specs.Clones.{made_from, with_none_delivered};

use crate::buffer::TraceBuffer;
use crate::rows::{copy_rows, reset_delivered};

impl TraceBuffer {
    /// Becomes what another buffer is that was made with as many bytes for the same sequences.
    pub fn copy_from(&mut self, other: &TraceBuffer)
        requires room { self.old.room ≡ other.now.room }
        requires sequences { map made_from self.old.sequences ≡ map made_from other.now.sequences }
        ensures { self.new ≡ other.now }
    {
        // The ring has bytes for few records, so that the index has room for them.
        let _few = other.ring.place_next(0);
        self.ring.copy_from(&other.ring);
        self.index.copy_from(&other.index);
        copy_rows(&mut self.rows, &other.rows);
        self.unfinished.copy_from(&other.unfinished);
        self.policy = other.policy;
        self.shut = other.shut;
        self.placed = other.placed;
        self.rewritten = other.rewritten;
        self.overwritten = other.overwritten;
        self.discarded = other.discarded;
        self.unpatched = other.unpatched;
        self.padding = other.padding;
    }

    /// The sequence has a consumer to whom nothing was delivered yet.
    pub fn reset_delivered(&mut self, sequence: u32)
        requires { is_known self.old.sequences sequence ≡ true }
        ensures { self.new ≡ with_none_delivered sequence self.old }
    {
        reset_delivered(&mut self.rows, sequence);
    }
}
