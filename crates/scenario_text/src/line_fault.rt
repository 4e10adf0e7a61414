//! Why a line isn't played.

use crate::reason::Reason;
use std::alloc::AllocFailed;

/// A reason of the grammar, or want of memory, which says nothing of the line.
#[derive(Clone, Copy, Debug, PartialEq, Eq)]
pub enum LineFault {
    OutOfMemory,
    Refused(Reason),
}

impl<T: Drop> From<AllocFailed<T>> for LineFault {
    ghost use Rattle.std.specs.Prelude.{◌≡◌};
    ghost use Rattle.scenario_text.specs.declared.line_fault.LineFault.TheVariants.{OutOfMemory};

    ghost from_gives = { λ _ e. e ≡ OutOfMemory };

    fn from(_failed: AllocFailed<T>) -> LineFault {
        LineFault::OutOfMemory
    }
}
