//! The writer behind a handle, lent for a call.
ghost use Rattle.std.specs.Prelude.{◌≡◌, true, Some, is_some};
ghost use Rattle.std.specs.Borrow.{sem};
ghost use Rattle.tracesmb_c.specs.WriterOpened.{raw_follows};

use crate::writer::OwnedWriter;
use crate::writer_handle::{RawWriter, WriterHandle};

impl RawWriter {
    /// The writer of a handle that has one.
    pub fn open(&mut self) -> &mut OwnedWriter
        requires full { is_some self.old.value ≡ true }
        ensures* writes_back { sem 𝓛 (raw_follows self.entry result) }
        ensures value { self.old.value ≡ Some result.now }
    {
        unsafe { &mut *(self.at as *mut OwnedWriter) }
    }
}

fn may_cross<T: Send>() {}

/// A handle may go to another thread. It does nothing: its check shows it.
fn handles_may_cross() {
    may_cross::<WriterHandle>();
}
