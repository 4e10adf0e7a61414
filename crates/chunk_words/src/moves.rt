//! What each atomic step does, as a value.
use chunk_plain::{Layout, ServiceEvent, WriterCall};
use commit_body::Patch;
use page_geometry::ChunkHeader;

/// A step with all that its seat keeps of it beside what it finds. A writer's chunks go by their
/// positions; the set-up says by which ids headers and bodies name them.
#[derive(Clone, Copy)]
pub enum Move<'a> {
    /// The page word is read: a claim in vain where it has the chunk's claim bit.
    Ask {
        layout: &'a Layout,
        chunk: u32,
    },
    Claim {
        layout: &'a Layout,
        chunk: u32,
    },
    Stamp {
        chunk: u32,
        payload_size: u32,
    },
    Begin {
        chunk: u32,
        payload_size: u32,
    },
    SetHeader {
        chunk: u32,
        position: u32,
        count: u16,
        flags: u8,
    },
    Publish {
        chunk: u32,
        position: u32,
        index: usize,
        word: u64,
    },
    /// The writer takes the empty slot of a chunk that it holds.
    Fetch {
        chunk: u32,
    },
    Complete {
        layout: &'a Layout,
        chunk: u32,
        position: u32,
    },
    Call {
        call: WriterCall<'a>,
    },
    /// The page word is read.
    Peek {
        layout: &'a Layout,
        chunk: u32,
    },
    /// The header word is read, and the look is noted.
    Find {
        layout: &'a Layout,
        chunk: u32,
        word: u64,
    },
    /// The header word of a complete chunk is read.
    Know {
        chunk: u32,
        word: u64,
    },
    /// The look at a chunk that wasn't the one asked for is noted.
    Miss {
        chunk: u32,
        word: u64,
        header: ChunkHeader,
    },
    /// The service takes a chunk of the writer at this place.
    Take {
        layout: &'a Layout,
        writer: u16,
        chunk: u32,
        word: u64,
        header: ChunkHeader,
        payload_size: u32,
    },
    Load {
        chunk: u32,
        index: usize,
        payload_size: u32,
    },
    /// The content of the chunk that was taken last joins the view.
    Learn {
        writer: u16,
    },
    /// The service takes the empty slot of a chunk that it reads.
    Lift {
        layout: &'a Layout,
        chunk: u32,
    },
    Release {
        chunk: u32,
    },
    Event {
        event: ServiceEvent,
    },
    /// A read is noted, while the reading pass is with the service.
    NoteRead {
        event: ServiceEvent,
    },
    /// The looks so far are compared with what writers told.
    Recall {
        layout: &'a Layout,
    },
    /// The world of the table is marked.
    Mark {
        layout: &'a Layout,
    },
    Commit {
        layout: &'a Layout,
        header: ChunkHeader,
        payload: &'a [u8],
        patches: &'a [Patch],
    },
    /// A writer reads how many flush requests were made.
    LearnRequest,
    /// It stores its answer.
    Answer {
        flush: u32,
        chunks: u32,
    },
    /// The service stores the number of the next flush request.
    Request {
        flush: u32,
    },
    /// The same, while the reading pass is with the service.
    NoteRequest {
        flush: u32,
    },
    /// The service reads the last answer of the writer at this place.
    ReadAnswer {
        writer: u16,
    },
    /// What the service knows is compared with what the reading pass knows, which is with it.
    Compare,
}
