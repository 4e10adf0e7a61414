//! What writers and the service note beside their steps.

/// What a writer was asked to do.
#[derive(Clone, Copy, Debug, PartialEq, Eq)]
pub enum WriterCall<'a> {
    /// A packet is begun; one that isn't kept was dropped as a whole.
    Begun {
        kept: bool,
    },
    Number {
        field: u32,
        value: u64,
    },
    /// A text, so many times over.
    Bytes {
        field: u32,
        value: &'a [u8],
        times: u32,
    },
    /// A nested message is begun.
    Nested {
        field: u32,
    },
    /// The innermost nested message ends.
    Ended,
    /// The writer couldn't write the rest of the packet.
    GivenUp,
    Finished,
    /// The held chunk was completed between two packets.
    Flushed,
}

/// What the service did with chunks and sequences. An image that comes by a commit is noted with it.
/// Here `chunk_id` names a chunk by its position in its sequence.
#[derive(Clone, Copy, Debug, PartialEq, Eq)]
pub enum ServiceEvent {
    /// A complete chunk arrived.
    Arrive {
        sequence: u32,
        chunk_id: u32,
    },
    /// The first fragments of a chunk arrived, so many.
    Partial {
        sequence: u32,
        chunk_id: u32,
        limit: u64,
    },
    /// The patches that came with a chunk were applied.
    Patched {
        sequence: u32,
        chunk_id: u32,
    },
    Closed {
        sequence: u32,
    },
    /// At most so many packets were read.
    Read {
        sequence: u32,
        limit: u64,
    },
}
