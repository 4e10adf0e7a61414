//! The table that threads share.
ghost use Rattle.std.specs.Prelude.{◌≡◌, ℕ, ◌+◌, ◌^◌, ◌<◌, ◌≤◌, length, vec_len, slice_index_or};
ghost use Rattle.trace_base.specs.declared.limits.TheConstants.{MAX_WRITERS};
ghost use Rattle.chunk_plain.specs.Setup.{IsLaid, spot};
ghost use Rattle.chunk_words.specs.Places.{front_place, payload_start, payload_words, request_place, answer_place, spare_place, word_total};

use crate::steps::{ChunkRule, Knowledge};
use atomic_table::Table;
use chunk_plain::Layout;
use commit_body::CommitBody;
use std::alloc::Global;

/// The words of a cache line, which has 64 bytes. Page words and header words lie so far apart, since
/// a store takes its line away from all other cores: on a line that they share, writers of different
/// chunks would wait for each other. Words this far apart share none, wherever the table begins.
pub(crate) const LINE_WORDS: usize = 8;

/// A table that threads share. Each step on it is made with a seat.
#[derive(Drop)]
pub struct HostTable {
    pub(crate) layout: Layout,
    /// The first payload word of each chunk.
    pub(crate) starts: Vec<usize>,
    /// The word of flush requests.
    pub(crate) requests: usize,
    /// The word that notes load.
    pub(crate) spare: usize,
    pub(crate) table: Table<Option<CommitBody>, Knowledge, Layout, ChunkRule, Global>,
    ghost key: { table.shared.key ≡ layout },
    ghost laid: { IsLaid layout },
    ghost few_writers: { length layout.writers ≤ MAX_WRITERS },
    ghost word_count: { table.shared.table_id.words ≡ word_total layout },
    ghost few_words: { word_total layout < 2 ^ 60 },
    ghost request_is: { requests ≡ request_place layout },
    ghost spare_is: { spare ≡ spare_place layout },
    ghost start_count: { vec_len starts ≡ length layout.spots },
    ghost start_is: { (chunk : ℕ) → chunk < length layout.spots → slice_index_or starts.items chunk 0 ≡ payload_start layout chunk },
}

impl HostTable {
    /// The index of the page word of a page.
    pub(crate) fn page_index(&self, page: u32) -> usize
        requires { page < self.now.layout.pages }
        ensures here { result ≡ front_place page }
        ensures inside { result < self.now.table.shared.table_id.words }
    {
        page as usize * LINE_WORDS
    }

    /// The index of the header word of a chunk, behind the page words.
    pub(crate) fn header_index(&self, chunk: u32) -> usize
        requires { chunk < length self.now.layout.spots }
        ensures here { result ≡ front_place (self.now.layout.pages + chunk) }
        ensures inside { result < self.now.table.shared.table_id.words }
    {
        self.layout.header_index(chunk) * LINE_WORDS
    }

    /// The index of the first payload word of a chunk.
    pub(crate) fn first_index(&self, chunk: u32) -> usize
        requires { chunk < length self.now.layout.spots }
        ensures { result ≡ payload_start self.now.layout chunk }
    {
        self.starts[chunk as usize]
    }

    /// The index of a payload word of a chunk, whose first one has this index.
    pub(crate) fn payload_index(&self, chunk: u32, start: usize, index: usize) -> usize
        requires chunk { chunk < length self.now.layout.spots }
        requires start { start ≡ payload_start self.now.layout chunk }
        requires index { index < payload_words self.now.layout chunk }
        ensures here { result ≡ payload_start self.now.layout chunk + index }
        ensures inside { result < self.now.table.shared.table_id.words }
    {
        // The chunk is named for the proof alone.
        let _ = chunk;
        start + index
    }

    /// The index of the word of a writer's answers.
    pub(crate) fn answer_index(&self, place: u16) -> usize
        requires { place < length self.now.layout.writers }
        ensures here { result ≡ answer_place self.now.layout place }
        ensures inside { result < self.now.table.shared.table_id.words }
    {
        self.requests + LINE_WORDS * (place as usize + 1)
    }
}
