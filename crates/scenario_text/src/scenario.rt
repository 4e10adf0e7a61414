//! What a scenario says: its set-up lines, and the lines that are played.

use crate::line_list::LineList;
use crate::raw_chunk::RawChunk;
use field_tree::Fields;
use trace_base::policy::{FullPolicy, WriterSpec};

/// `buffer KB ring`, `buffer KB discard`: a buffer of KB times 1,024 bytes.
#[derive(Clone, Copy, Debug, PartialEq, Eq)]
pub struct BufferLine {
    pub kb: u32,
    pub policy: FullPolicy,
}

/// `producer PAGES PAGE_SIZE CHUNKS`, with the size in bytes and the chunks of one page.
#[derive(Clone, Copy, Debug, PartialEq, Eq)]
pub struct ProducerLine {
    pub pages: u8,
    pub page_size: u32,
    pub chunks: u8,
}

/// What a line has done. Writers, producers and buffers count from 1.
#[derive(Drop)]
pub enum LineKind<'c> {
    /// A whole packet. One without FIELDS has no nodes.
    Packet { writer: u16, fields: Fields<'c> },
    Begin { writer: u16 },
    Add { writer: u16, fields: Fields<'c> },
    Nest { writer: u16, field: u32 },
    Unnest { writer: u16 },
    End { writer: u16 },
    Flush { writer: u16 },
    Collect { producer: u16 },
    Scrape { producer: u16 },
    Close { producer: u16 },
    /// Without a number the limit is 2^64 - 1.
    Read { buffer: u8, limit: u64 },
    Request,
    /// A copy of the buffer is made, for a consumer of its own.
    CloneBuffer { buffer: u8 },
    /// A chunk is committed for the writer's sequence as it stands here.
    Raw { writer: u16, chunk: RawChunk<'c> },
}

/// A played line and its place in the text, counted from 1.
#[derive(Drop)]
pub struct NumberedLine<'c> {
    pub line: u32,
    pub what: LineKind<'c>,
}

/// A scenario. Its parts are in the order of their lines.
#[derive(Drop)]
pub struct Scenario {
    pub buffers: Vec<BufferLine>,
    pub producers: Vec<ProducerLine>,
    pub writers: Vec<WriterSpec>,
    pub lines: LineList,
}
