//! What a buffer is made from, and what its calls answer.
use thiserror::Error;
use trace_base::policy::FullPolicy;

/// A buffer's size in bytes, and what it does with a record that would meet an unread one.
#[derive(Clone, Copy, Debug, PartialEq, Eq)]
pub struct BufferSpec {
    pub size: u32,
    pub policy: FullPolicy,
}

/// A sequence of a buffer, and the bytes of payload that each of its chunks has.
#[derive(Clone, Copy, Debug, PartialEq, Eq)]
pub struct SequenceSpec {
    pub sequence: u32,
    pub payload: u32,
    /// The id of its first chunk.
    pub from: u32,
}

/// What became of a chunk that arrived.
#[derive(Clone, Copy, Debug, PartialEq, Eq)]
pub enum Arrived {
    Kept,
    /// It took the place of the part of it that was there.
    Rewritten,
    Duplicate,
    /// The buffer is full: the chunk is lost, or in part comes later.
    Discarded,
    TooFar,
    /// The number of the first fragment that can't be read.
    BadChunk { fragment: u16 },
}

/// Why a patch wasn't applied.
#[derive(Clone, Copy, Debug, PartialEq, Eq, Error)]
pub enum PatchFault {
    #[error("no chunk awaits the patch")]
    NoChunk,
    #[error("the patch is not inside the last fragment")]
    BadOffset,
}

/// A place in a sequence: a chunk, by its position, and how many of its fragments come before.
#[derive(Clone, Copy, Debug, PartialEq, Eq)]
pub struct Cursor {
    pub chunk_id: u64,
    pub passed: u16,
}

/// What a reader passed on its way to a place.
#[derive(Clone, Copy, Debug, PartialEq, Eq)]
pub enum Passed {
    Delivered,
    Dropped,
    /// A packet of which a part was overwritten.
    Overwritten,
    /// A packet of which a part got no place.
    Discarded,
    Cut,
    /// No packet, or one that was counted before.
    Nothing,
}

/// What a buffer knows of a sequence.
#[derive(Clone, Copy, Debug, PartialEq, Eq)]
pub struct SequenceState {
    pub cursor: Cursor,
    /// The least position that hasn't arrived complete.
    pub base: u64,
    pub closed: bool,
    /// Something was passed since the last delivery.
    pub missing: bool,
    pub delivered: u64,
    pub dropped: u64,
    pub overwritten: u64,
    pub discarded: u64,
    pub cut: u64,
}

/// What a buffer counts beside its sequences.
#[derive(Clone, Copy, Debug, PartialEq, Eq)]
pub struct BufferCounts {
    pub policy: FullPolicy,
    /// Its size.
    pub bytes: u64,
    pub placed: u64,
    pub rewritten: u64,
    pub overwritten: u64,
    pub discarded: u64,
    pub unpatched: u64,
    pub padding: u64,
}
