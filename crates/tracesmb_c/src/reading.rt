//! Reading the trace of a session.
ghost use Rattle.std.specs.Prelude.{◌≡◌, ℕ, ◌<◌, ◌≤◌, true, false, List, [], ◌++◌, length, take, drop, IfSome, MatchOption, Some, None};
ghost use Rattle.trace_model.specs.Delivery.{trace_of};
ghost use Rattle.tracesmb_c.specs.Sessions.{IsSession, HasGiven, KeepsGiven, KeepsWriters};
ghost use Rattle.tracesmb_c.specs.Unread.{records_due};
ghost use Rattle.tracesmb_c.specs.Waits.{left_in};

use crate::session::OwnedSession;

/// So many packets of a sequence are read at once, where nothing waits.
pub const AT_ONCE: u64 = 64;

/// The session's only buffer.
pub const BUFFER: u8 = 1;

impl OwnedSession {
    /// Puts what comes next of the trace into the room, and says how many bytes that are; `None` where
    /// a record found no memory to wait in.
    pub fn read(&mut self, room: &mut [u8]) -> Option<usize>
        requires session { IsSession self.old }
        ensures session { IsSession self.new }
        ensures writers { KeepsWriters self.old self.new }
        ensures within { IfSome result (λ count. count ≤ length room.new) }
        ensures given { (bytes : List ℕ) → HasGiven self.old bytes
            → MatchOption result (HasGiven self.new bytes) (λ count. HasGiven self.new (bytes ++ take count room.new)) }
        ensures some { IfSome result (λ count. count ≡ 0 → 0 < length room.old
            → (left_in self.old.waiting ≡ []) × (trace_of (records_due self.old) ≡ [])) }
        ensures torn { MatchOption result (self.new.torn ≡ true) (λ _. (self.old.torn ≡ false) × (self.new.torn ≡ false)) }
        ensures behind { MatchOption result (room.new ≡ room.old) (λ count. drop count room.new ≡ drop count room.old) }
    {
        if self.torn {
            return None;
        }
        self.fill_where_done();
        if self.torn {
            return None;
        }
        Some(self.waiting.hand_out(room))
    }

    /// Reads what comes next of the buffer, where all that was read was handed out.
    fn fill_where_done(&mut self)
        requires session { IsSession self.old }
        requires whole { self.old.torn ≡ false }
        ensures session { IsSession self.new }
        ensures writers { KeepsWriters self.old self.new }
        ensures given { KeepsGiven self.old self.new }
        ensures due { self.new.torn ≡ false → left_in self.new.waiting ≡ []
            → (left_in self.old.waiting ≡ []) × (trace_of (records_due self.old) ≡ []) }
    {
        if self.waiting.is_done() {
            self.fill();
        }
    }

    /// Reads what comes next of the buffer.
    fn fill(&mut self)
        requires session { IsSession self.old }
        requires whole { self.old.torn ≡ false }
        requires none_waits { left_in self.old.waiting ≡ [] }
        ensures session { IsSession self.new }
        ensures writers { KeepsWriters self.old self.new }
        ensures given { KeepsGiven self.old self.new }
        ensures due { self.new.torn ≡ false → left_in self.new.waiting ≡ trace_of (records_due self.old) }
    {
        self.waiting.clear();
        match self.service.read_passing(
            &self.table,
            &mut self.pass,
            BUFFER,
            AT_ONCE,
            &mut self.waiting.read,
        ) {
            Ok(_delivered) => {}
            Err(_) => self.torn = true,
        }
    }
}
