//! What a seat holds of a chunk between two calls. A token is handed to the next call on the chunk:
//! it can't be dropped.
use commit_body::CommitBody;
use page_geometry::{ChunkHeader, PageWord};

/// How many chunks a writer holds at once: the one that it fills, and the next one where it claims
/// that before it completes the first.
pub const MAX_HELD: usize = 2;

/// Positions of chunks are below this: a writer begins at most so many.
pub const POSITION_LIMIT: u32 = 4_294_967_295;

/// A chunk that a writer claimed and hasn't begun.
#[derive(Debug)]
pub struct Claimed {
    pub chunk: u32,
}

/// A chunk that a writer writes, with its body. The writer writes into the body itself; the payload
/// in it is a copy of its own, of which the chunk has what the writer published. Patches in it name
/// chunks by their ids, as they travel.
#[derive(Debug)]
pub struct Held {
    pub chunk: u32,
    /// Its position among the chunks that the writer began: the id in its header is worked out from
    /// it.
    pub position: u32,
    pub body: CommitBody,
}

/// A chunk that the service took, with its header and its body. The payload in it was loaded from
/// the chunk.
#[derive(Debug)]
pub struct Taken {
    pub chunk: u32,
    pub header: ChunkHeader,
    pub body: CommitBody,
}

/// What the service found at a chunk.
#[derive(Clone, Copy, Debug, PartialEq, Eq)]
pub struct Seen {
    pub word: PageWord,
    pub header: ChunkHeader,
}

/// What was found in place of the complete chunk that was asked for.
#[derive(Clone, Copy, Debug, PartialEq, Eq)]
pub struct NotComplete {
    pub word: PageWord,
    pub header: ChunkHeader,
}
