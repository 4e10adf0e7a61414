//! One packet of a trace.

/// A packet, as its record in the trace has it. All bytes are parts of the trace.
#[derive(Clone, Copy, Debug, PartialEq, Eq)]
pub struct Packet<'a> {
    /// The offset of its record.
    pub at: u64,
    /// The record, with its tag and its length.
    pub bytes: &'a [u8],
    /// The record's content.
    pub content: &'a [u8],
    /// The last field 10 of wire type 0, or 0 where there is none.
    pub sequence: u64,
    /// The last field 42 of wire type 0 isn't 0.
    pub marked: bool,
}
