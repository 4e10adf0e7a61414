//! What a ring answers of places, and what it keeps of a record beside its payload.

/// Where a next record goes, and how many bytes of padding stand before it.
#[derive(Clone, Copy, Debug, PartialEq, Eq)]
pub struct Place {
    pub at: u32,
    pub padding: u32,
}

/// Which chunk a record has, and what its header says of it.
#[derive(Clone, Copy, Debug, PartialEq, Eq)]
pub struct RecordKey {
    pub sequence: u32,
    /// The position of the chunk in its sequence.
    pub chunk_id: u32,
    /// Fragments in the payload.
    pub count: u16,
    pub flags: u8,
    /// The chunk was still being written.
    pub partial: bool,
    /// Bytes of the payload come later, as patches.
    pub awaits: bool,
}
