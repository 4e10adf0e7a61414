//! The session behind a handle, lent for a call.
ghost use Rattle.std.specs.Prelude.{◌≡◌, true, Some, is_some};
ghost use Rattle.std.specs.Borrow.{sem};
ghost use Rattle.tracesmb_c.specs.SessionOpened.{raw_follows};

use crate::session::OwnedSession;
use crate::session_handle::{RawSession, SessionHandle};

impl RawSession {
    /// The session of a handle that has one.
    pub fn open(&mut self) -> &mut OwnedSession
        requires full { is_some self.old.value ≡ true }
        ensures* writes_back { sem 𝓛 (raw_follows self.entry result) }
        ensures value { self.old.value ≡ Some result.now }
    {
        unsafe { &mut *(self.at as *mut OwnedSession) }
    }
}

fn may_cross<T: Send>() {}

/// A handle may go to another thread. It does nothing: its check shows it.
fn handles_may_cross() {
    may_cross::<SessionHandle>();
}
