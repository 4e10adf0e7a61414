//! What a full buffer does with a new record, and what a writer without a free chunk does.

/// What a buffer does where a new record would meet one with unread fragments.
#[derive(Clone, Copy, Debug, PartialEq, Eq)]
pub enum FullPolicy {
    /// The old record is overwritten.
    Ring,
    /// The new record is discarded, and so is each later one.
    Discard,
}

/// What a writer does where each chunk of its producer is claimed.
#[derive(Clone, Copy, Debug, PartialEq, Eq)]
pub enum WriterPolicy {
    /// It drops the packet, and marks the next one that it keeps.
    Drops,
    /// It asks its helper to free one, and goes on once it has it.
    Stalls,
    /// It asks its helper so often to free one, and then drops the packet as one that drops does.
    StallsThenDrops { tries: u32 },
}

/// A writer as its set-up line names it. Producers and buffers count from 1.
#[derive(Clone, Copy, Debug, PartialEq, Eq)]
pub struct WriterSpec {
    pub producer: u16,
    pub buffer: u8,
    pub policy: WriterPolicy,
    /// The id of its first chunk.
    pub from: u32,
}
