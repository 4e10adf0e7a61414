//! What ends a stream before its close.
ghost use Rattle.std.specs.Prelude.{◌≡◌};
ghost use Rattle.stream_producer.specs.Faults.{fault_of};

use byte_io::put::WriteFault;
use stream_frames::FrameFault;
use thiserror::Error;

/// Why a stream isn't played to its end.
#[derive(Clone, Copy, Debug, PartialEq, Eq, Error)]
pub enum StreamFault {
    #[error("write fault")]
    WriteFault,
    /// The first byte of the first frame that is none, or the first one behind a close.
    #[error("offset {offset}: bad frame")]
    BadFrame { offset: u64 },
    /// The stream ends without a close. This is its length.
    #[error("offset {offset}: no end")]
    NoEnd { offset: u64 },
}

impl From<WriteFault> for StreamFault {
    ghost use Rattle.std.specs.Prelude.{◌≡◌};
    ghost use Rattle.stream_producer.specs.declared.fault.StreamFault.TheVariants as faults;

    ghost from_gives = { λ _ fault. fault ≡ faults.WriteFault };

    fn from(_failed: WriteFault) -> StreamFault {
        StreamFault::WriteFault
    }
}

/// The fault of a stream's frames.
pub(crate) fn of_frames(fault: FrameFault) -> StreamFault
    ensures { result ≡ fault_of fault }
{
    match fault {
        FrameFault::BadFrame { offset } => StreamFault::BadFrame { offset },
        FrameFault::NoEnd { offset } => StreamFault::NoEnd { offset },
    }
}
