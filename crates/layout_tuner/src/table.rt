//! The table that users and the collector share.
ghost use Rattle.std.specs.Prelude.{◌≡◌, ◌+◌, ◌*◌, ◌<◌, ◌≤◌, vec_len};
ghost use Rattle.layout_tuner.specs.PageWords.{line, layout_in, generation_in, chunks_of, IsTiled};
ghost use Rattle.layout_tuner.specs.declared.table.TheConstants.{MAX_TUNE_PAGES};

use crate::steps::{Knowledge, TuneRule};
use atomic_table::Table;
use page_geometry::{CHUNK_COUNTS, LAYOUT_BIT, PageWord};
use std::alloc::Global;

/// The first bit of a page's generation, which has all bits from there on.
pub const GENERATION_BIT: u8 = 46;

/// How often a page can be partitioned anew.
pub const LAST_GENERATION: u32 = 262_143;

/// The pages of a table.
pub const MAX_TUNE_PAGES: u8 = 64;

/// The users of a table.
pub const MAX_USERS: u8 = 8;

/// The word of a page as the table is made: 14 chunks, all free, never partitioned anew.
pub const FIRST_WORD: u64 = 0x5000_0000;

/// The words of a cache line, which has 64 bytes. Page words lie so far apart, since a change takes
/// its line away from all other cores: on a line that they share, users of different pages would wait
/// for each other.
pub(crate) const LINE_WORDS: usize = 8;

/// The claim bits of all places.
const ALL_CLAIMED: u64 = 0x3fff_0000_0000;

/// How many pages and users a table has.
#[derive(Clone, Copy, Debug, PartialEq, Eq)]
pub struct Shape {
    pub pages: u8,
    pub users: u8,
}

/// A table of pages, each of 4,096 bytes. Each step on it is made with a seat.
#[derive(Drop)]
pub struct TuneTable {
    pub shape: Shape,
    pub(crate) table: Table<u8, Knowledge, Shape, TuneRule, Global>,
    /// Filled with the page words when the table is closed, so that closing takes no memory.
    pub(crate) last: Vec<u64>,
    ghost key: { table.shared.key ≡ shape },
    ghost word_count: { table.shared.table_id.words ≡ line shape.pages },
    ghost no_slots: { table.shared.table_id.slots ≡ 0 },
    ghost last_count: { vec_len last ≡ shape.pages },
    ghost some_page: { 1 ≤ shape.pages },
    ghost most_pages: { shape.pages ≤ MAX_TUNE_PAGES },
}

impl TuneTable {
    /// The index of the word of a page.
    pub(crate) fn page_index(&self, page: u8) -> usize
        requires { page < self.now.shape.pages }
        ensures here { result ≡ line page }
        ensures inside { result < self.now.table.shared.table_id.words }
    {
        page as usize * LINE_WORDS
    }
}

/// The number of the layout in a page word.
pub fn layout_of(word: u64) -> u8
    ensures { result ≡ layout_in word }
{
    PageWord(word).layout()
}

/// How often the page of a word was partitioned anew.
pub fn generation_of(word: u64) -> u32
    ensures is { result ≡ generation_in word }
    ensures most { result ≤ LAST_GENERATION }
{
    (word >> GENERATION_BIT) as u32
}

/// How many chunks a page of this layout has.
pub fn chunk_count(layout: u8) -> u8
    requires least { 1 ≤ layout }
    requires most { layout ≤ 5 }
    ensures is { result ≡ chunks_of layout }
    ensures some { 1 ≤ result }
    ensures most { result ≤ 14 }
{
    CHUNK_COUNTS[layout as usize - 1]
}

/// The word of a page with this layout and generation, all of whose places are claimed.
pub(crate) fn tiled_word(layout: u8, generation: u32) -> u64
    requires layout { layout ≤ 5 }
    requires generation { generation ≤ LAST_GENERATION }
    ensures { IsTiled result layout generation }
{
    // The parts have no bit in common.
    (u64::from(generation) << GENERATION_BIT) + ALL_CLAIMED + (u64::from(layout) << LAYOUT_BIT)
}
