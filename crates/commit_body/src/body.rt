//! What is sent with a chunk.
use arrayvec::ArrayVec;
use trace_base::limits::MAX_OPEN_HOLES;

/// Patches of one body: as many as holes may be open, since a body brings the patches of holes that
/// were open when the writer's chunk before was completed.
pub const MAX_PATCHES: usize = MAX_OPEN_HOLES;

/// Four bytes that replace those at a place of an earlier chunk's payload: the length of a nested
/// message.
#[derive(Clone, Copy, Debug, Default, PartialEq, Eq)]
pub struct Patch {
    /// In a body the chunk's id, and before it is sent the chunk's position.
    pub chunk_id: u32,
    /// Where the bytes stand in the chunk's payload.
    pub offset: u32,
    pub bytes: [u8; 4],
    /// No later patch is for this chunk.
    pub last: bool,
}

/// A chunk's payload, the patches for earlier chunks that come with it, and the number of the buffer
/// that they are for.
#[derive(Debug, Drop)]
pub struct CommitBody {
    pub payload: Vec<u8>,
    /// Behind a box, so that a body is small to move: it has no patches most of the time.
    pub patches: Box<ArrayVec<Patch, MAX_PATCHES>>,
    pub target: u8,
}
