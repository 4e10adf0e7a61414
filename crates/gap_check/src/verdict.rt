//! What a check answers.

use thiserror::Error;
use trace_file::TraceFault;

/// Whether a trace tells of the packets that were emitted.
#[derive(Clone, Copy, Debug, PartialEq, Eq)]
pub enum Verdict {
    /// It does, and has so many packets.
    Agrees { packets: u64 },
    /// The packet with this number, counted from 1, is the first one up to which it doesn't.
    Differs { packet: u64, sequence: u64 },
}

/// Why there is no verdict.
#[derive(Clone, Copy, Debug, PartialEq, Eq, Error)]
pub enum CheckFault {
    #[error("out of memory")]
    OutOfMemory,
    /// The trace isn't in its grammar.
    #[error("{0}")]
    Trace(TraceFault),
}
