//! What is reported.
use crate::raws::RawLine;
use trace_buffer::BufferCounts;

/// What became of the packets that a sequence's writer began: each was delivered, or counts under one
/// cause.
#[derive(Clone, Copy, Debug, PartialEq, Eq)]
pub struct SequenceCounts {
    pub begun: u64,
    pub delivered: u64,
    pub dropped: u64,
    pub overwritten: u64,
    pub discarded: u64,
    pub cut: u64,
}

/// What a replay or a run leaves for its report. Sequences are those of the writers in their order,
/// and flushes those that were answered, each by its number of chunks.
#[derive(Debug, Drop)]
pub struct Done {
    pub buffers: Vec<BufferCounts>,
    pub sequences: Vec<SequenceCounts>,
    pub flushes: Vec<u64>,
    /// The answers to lines `raw`, in the order of the lines. A run has none.
    pub raws: Vec<RawLine>,
}
