//! What a read answers.
use byte_io::put::WriteFault;

/// Why a read ended: the limit, or the stop place that it met, by its chunk.
#[derive(Clone, Copy, Debug, PartialEq, Eq)]
pub enum Why {
    /// The chunk hasn't arrived.
    Missing { chunk_id: u64 },
    /// A part of the chunk was read, and the rest is still to come.
    Partial { chunk_id: u64 },
    /// The chunk's last fragment awaits a patch.
    Unpatched { chunk_id: u64 },
    /// The sequence is closed, and all of it was passed.
    End,
    /// As many packets as the limit were delivered, and one more is due.
    Limit,
}

#[derive(Clone, Copy, Debug, PartialEq, Eq)]
pub struct ReadEnd {
    /// How many packets were delivered.
    pub delivered: u64,
    pub why: Why,
}

/// What a read did, also where a write failed.
#[derive(Clone, Copy, Debug, PartialEq, Eq)]
pub struct ReadCount {
    /// How many packets were delivered: their records were written whole.
    pub delivered: u64,
    pub end: Result<Why, WriteFault>,
}
