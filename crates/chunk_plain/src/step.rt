//! What each step of the table of one thread does, as a value.
use crate::layout::Layout;
use crate::notes::{ServiceEvent, WriterCall};
use commit_body::{CommitBody, Patch};
use page_geometry::ChunkHeader;

/// A step with all that the views of the seats keep of it. Writers go by their place, from 0, and
/// chunks of a writer by their position. The set-up says by which ids a body and a header name them.
#[derive(Clone, Copy)]
pub enum Step<'a> {
    Claim {
        place: u16,
        chunk: u32,
        found: u64,
        won: bool,
    },
    Stamp {
        place: u16,
        chunk: u32,
    },
    Begin {
        place: u16,
        chunk: u32,
        words: &'a [u64],
    },
    SetHeader {
        place: u16,
        chunk: u32,
        position: u32,
        count: u16,
        flags: u8,
    },
    Publish {
        place: u16,
        chunk: u32,
        position: u32,
        words: &'a [u64],
    },
    Complete {
        layout: &'a Layout,
        place: u16,
        chunk: u32,
        position: u32,
        body: &'a CommitBody,
    },
    Look {
        chunk: u32,
        word: u64,
        header: ChunkHeader,
    },
    Take {
        place: u16,
        chunk: u32,
        word: u64,
        header: ChunkHeader,
    },
    Learn {
        layout: &'a Layout,
        place: u16,
        header: ChunkHeader,
        body: &'a CommitBody,
    },
    Release {
        chunk: u32,
    },
    Call {
        place: u16,
        call: WriterCall<'a>,
    },
    Event {
        event: ServiceEvent,
    },
    Commit {
        layout: &'a Layout,
        header: ChunkHeader,
        payload: &'a [u8],
        patches: &'a [Patch],
    },
}
