//! The sizes of a page's parts, in bytes.
ghost use Rattle.std.specs.Prelude.{◌≡◌, ℕ, ◌+◌, ◌*◌, ◌%◌, ◌<◌, ◌≤◌, ◌↔◌, IsTrue, IfOk, IsErrOf};
ghost use Rattle.page_geometry.specs.Sizes.{IsPageSize, IsChunkCount, AreApart, layout_number, chunk_size, chunk_place, payload_size, record_size};

use thiserror::Error;
use trace_base::limits::{MAX_CHUNKS_PER_PAGE, MAX_PAGE_SIZE, PAGE_SIZE_UNIT};

/// The numbers of chunks that a page can have: layout 1 has the first of them, and so on. Layout 0
/// is a page that isn't partitioned.
pub const CHUNK_COUNTS: [u8; 5] = [1, 2, 4, 7, 14];

/// Bytes in front of a page's first chunk.
pub const PAGE_HEADER_SIZE: u32 = 8;

/// Bytes in front of a chunk's payload.
pub const CHUNK_HEADER_SIZE: u32 = 8;

/// Bytes in front of a record's payload in a buffer.
pub const RECORD_HEADER_SIZE: u32 = 16;

/// The size of a record in a buffer is a multiple of this.
pub const RECORD_UNIT: u32 = 16;

/// The least payload: that of 14 chunks in a page of 4,096 bytes.
pub const MIN_PAYLOAD_SIZE: u32 = 284;

/// Why a page can't be cut in this way.
#[derive(Clone, Copy, Debug, PartialEq, Eq, Error)]
pub enum GeometryFault {
    #[error("the page size is not a multiple of 4096 from 4096 to 65536")]
    BadPageSize,
    #[error("a page has 1, 2, 4, 7 or 14 chunks")]
    BadLayout,
}

/// A page size and a number of chunks that go together. The type keeps their ranges by itself.
#[derive(Clone, Copy, Debug, PartialEq, Eq)]
pub struct Geometry {
    pub page_size: u32,
    pub chunks: u8,
    pub ghost sized: { IsPageSize page_size },
    pub ghost counted: { ∥ IsChunkCount chunks ∥₁ },
}

impl Geometry {
    pub fn new(page_size: u32, chunks: u8) -> Result<Self, GeometryFault>
        ensures page_size { IfOk result (λ geometry. geometry.page_size ≡ page_size) }
        ensures chunks { IfOk result (λ geometry. geometry.chunks ≡ chunks) }
        ensures apart { IfOk result (λ geometry. AreApart geometry.page_size geometry.chunks) }

        // A bad page size is reported as such, whatever the number of chunks is.
        ensures bad_page_size { IsErrOf result GeometryFault.BadPageSize ↔ (¬ IsPageSize page_size) }
        ensures bad_layout { IsErrOf result GeometryFault.BadLayout
            ↔ (IsPageSize page_size × ¬ IsChunkCount chunks) }
    {
        if !is_page_size(page_size) {
            return Err(GeometryFault::BadPageSize);
        }
        if !is_chunk_count(chunks) {
            return Err(GeometryFault::BadLayout);
        }
        Ok(Geometry { page_size, chunks })
    }

    pub fn page_size(&self) -> u32
        ensures { result ≡ self.now.page_size }
    {
        self.page_size
    }

    pub fn chunks(&self) -> u8
        ensures value { result ≡ self.now.chunks }
        ensures least { 1 ≤ result }
        ensures most { result ≤ MAX_CHUNKS_PER_PAGE }
    {
        self.chunks
    }

    /// The number by which a page word names the layout.
    #[tactic(auto, unfolding(crate::specs::Sizes::layout_number))]
    pub fn layout_number(&self) -> u8
        ensures value { result ≡ layout_number self.now.chunks }
        ensures least { 1 ≤ result }
        ensures most { result ≤ 5 }
    {
        match self.chunks {
            1 => 1,
            2 => 2,
            4 => 3,
            7 => 4,
            14 => 5,
            _ => unreachable!(),
        }
    }

    /// Header and payload together.
    #[tactic(auto, unfolding(crate::specs::Sizes::chunk_size))]
    pub fn chunk_size(&self) -> u32
        ensures { result ≡ chunk_size self.now.page_size self.now.chunks }
    {
        let share = (self.page_size - PAGE_HEADER_SIZE) / u32::from(self.chunks);
        share / 4 * 4
    }

    #[tactic(auto, using(crate::proofs::SizeLemmas::chunk_size_least, crate::proofs::SizeLemmas::payload_size_least, crate::proofs::SizeLemmas::payload_size_most), unfolding(crate::specs::Sizes::payload_size))]
    pub fn payload_size(&self) -> u32
        ensures value { result ≡ payload_size self.now.page_size self.now.chunks }
        ensures least { MIN_PAYLOAD_SIZE ≤ result }
        ensures below { result < MAX_PAGE_SIZE }
    {
        self.chunk_size() - CHUNK_HEADER_SIZE
    }

    /// What a record with one chunk's payload takes in a buffer.
    #[tactic(auto, using(crate::proofs::SizeLemmas::payload_size_most))]
    pub fn record_size(&self) -> u32
        ensures value { result ≡ record_size (payload_size self.now.page_size self.now.chunks) }
        ensures whole { result % RECORD_UNIT ≡ 0 }
        ensures room { RECORD_HEADER_SIZE + payload_size self.now.page_size self.now.chunks ≤ result }
        ensures most { result ≤ MAX_PAGE_SIZE }
    {
        (RECORD_HEADER_SIZE + self.payload_size()).next_multiple_of(RECORD_UNIT)
    }

    /// The offset of the chunk's header in the page.
    #[tactic(auto, using(crate::proofs::SizeLemmas::chunk_inside), unfolding(crate::specs::Sizes::chunk_place))]
    pub fn chunk_place(&self, chunk: u8) -> u32
        requires { chunk < self.now.chunks }
        ensures value { result ≡ chunk_place self.now.page_size self.now.chunks chunk }
        ensures inside { result + chunk_size self.now.page_size self.now.chunks ≤ self.now.page_size }
    {
        PAGE_HEADER_SIZE + u32::from(chunk) * self.chunk_size()
    }
}

fn is_page_size(page_size: u32) -> bool
    ensures { IsTrue result ↔ IsPageSize page_size }
{
    page_size % PAGE_SIZE_UNIT == 0 && (PAGE_SIZE_UNIT..=MAX_PAGE_SIZE).contains(&page_size)
}

fn is_chunk_count(chunks: u8) -> bool
    ensures { IsTrue result ↔ IsChunkCount chunks }
{
    CHUNK_COUNTS.contains(&chunks)
}
