//! A buffer whose reader delivered several packets.
ghost use Rattle.std.specs.Prelude.{◌≡◌, true};
ghost use Rattle.trace_model.specs.Sequences.{is_known};
ghost use Rattle.trace_buffer.specs.Answers.{cursor_value};
ghost use Rattle.trace_buffer.specs.Calls.{with_deliveries};

use crate::answers::Cursor;
use crate::buffer::TraceBuffer;
use crate::rows::deliver;

impl TraceBuffer {
    /// A reader has come to a place of a sequence behind so many packets, each of which it delivered.
    #[inline(always)]
    pub fn deliver(&mut self, sequence: u32, to: Cursor, count: u64)
        requires { is_known self.old.sequences sequence ≡ true }
        ensures { self.new ≡ with_deliveries self.old sequence (cursor_value to) count }
    {
        if count == 0 {
            return;
        }
        deliver(&mut self.rows, sequence, to, count);
    }
}
