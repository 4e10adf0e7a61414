//! How a page of shared memory is cut into chunks: the sizes, the page word with each chunk's state
//! and claim bit, and the chunk header, after Perfetto's shared memory ABI.
//! A layer above may rely on the sizes being the formulas of `specs/Sizes.antt`, with chunks apart
//! and inside the page; on each accessor and mask of a page word reading or changing just the bits
//! that its contract lists; and on a header's `pack` and `unpack` undoing each other.
#![tactic(auto)]

mod chunk_header;
mod chunk_state;
mod geometry;
pub mod masks;
mod page_word;

pub use chunk_header::{ChunkHeader, FIRST_CONTINUES, LAST_CONTINUES, MAX_FLAGS, NEEDS_PATCHING};
pub use chunk_state::ChunkState;
pub use geometry::{
    CHUNK_COUNTS, CHUNK_HEADER_SIZE, Geometry, GeometryFault, MIN_PAYLOAD_SIZE, PAGE_HEADER_SIZE,
    RECORD_HEADER_SIZE, RECORD_UNIT,
};
pub use page_word::{CLAIM_BIT, LAYOUT_BIT, PageWord};
