//! The eight bytes in front of a chunk's payload, kept as one word.
ghost use Rattle.std.specs.Prelude.{◌≡◌, ◌≤◌};
ghost use Rattle.page_geometry.specs.Header.{packed, unpacked};

use trace_base::limits::MAX_FRAGMENTS;

/// Flag: the first fragment continues a packet of the previous chunk.
pub const FIRST_CONTINUES: u8 = 1;

/// Flag: the last fragment continues on the next chunk.
pub const LAST_CONTINUES: u8 = 2;

/// Flag: bytes of the chunk come later, as patches.
pub const NEEDS_PATCHING: u8 = 4;

/// All flags that six bits can hold.
pub const MAX_FLAGS: u8 = 63;

/// Who wrote a chunk, which of the writer's chunks it is, and what its payload holds.
#[derive(Clone, Copy, Debug, PartialEq, Eq)]
pub struct ChunkHeader {
    pub chunk_id: u32,
    pub writer_id: u16,
    /// Fragments in the payload.
    pub count: u16,
    pub flags: u8,
}

impl ChunkHeader {
    /// The word whose bytes, lowest first, are the header's.
    pub fn pack(self) -> u64
        requires count { self.count ≤ MAX_FRAGMENTS }
        requires flags { self.flags ≤ MAX_FLAGS }
        ensures word { result ≡ packed self }
        ensures back { unpacked result ≡ self }
    {
        u64::from(self.chunk_id)
            | (u64::from(self.writer_id) << 32)
            | (u64::from(self.count) << 48)
            | (u64::from(self.flags) << 58)
    }

    pub fn unpack(word: u64) -> ChunkHeader
        ensures header { result ≡ unpacked word }
        ensures back { packed result ≡ word }
        ensures count { result.count ≤ MAX_FRAGMENTS }
        ensures flags { result.flags ≤ MAX_FLAGS }
    {
        ChunkHeader {
            chunk_id: (word & 0xffff_ffff) as u32,
            writer_id: ((word >> 32) & 0xffff) as u16,
            count: ((word >> 48) & 0x3ff) as u16,
            flags: (word >> 58) as u8,
        }
    }
}
