//! What is counted of a trace.

use std::collections::BTreeMap;

/// The packets of one sequence.
#[derive(Clone, Copy, Debug, PartialEq, Eq)]
pub struct Totals {
    pub packets: u64,
    /// How many of them are marked.
    pub marked: u64,
    /// The lengths of their records' contents.
    pub bytes: u64,
}

/// The counts of each sequence that is met, and those of all packets.
#[derive(Drop)]
pub struct Summary {
    pub sequences: BTreeMap<u64, Totals>,
    pub packets: u64,
    pub bytes: u64,
}
