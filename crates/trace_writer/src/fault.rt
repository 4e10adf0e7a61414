//! The answers of a writer's calls.
use thiserror::Error;

/// What became of a packet that was begun.
#[derive(Clone, Copy, Debug, PartialEq, Eq)]
pub enum Begun {
    Kept,
    /// No chunk was free: the packet is thrown away as a whole, and its calls are accepted.
    Dropping,
}

/// Why a call was refused.
#[derive(Clone, Copy, Debug, PartialEq, Eq, Drop, Error)]
pub enum CallFault {
    /// A field of the service's own, at the top level.
    #[error("reserved field {field}")]
    Reserved { field: u32 },
    /// The message would stand inside too many others.
    #[error("too deep")]
    TooDeep,
    #[error("packet too long")]
    PacketTooLong,
    /// No chunk was free, and the helper freed none: the writer does nothing more.
    #[error("stalled")]
    Stalled,
}
