//! The word at the head of a page.
ghost use Rattle.std.specs.Prelude.{◌≡◌, ℕ, ◌+◌, ◌*◌, ◌<◌, ◌↔◌, IsTrue};
ghost use Rattle.page_geometry.specs.declared.chunk_state.ChunkState.{ChunkState};
ghost use Rattle.page_geometry.specs.PageBits.{HasLayout, HasState, IsClaimed, SetsState, KeepsOthers};

use crate::chunk_state::ChunkState;
use trace_base::limits::MAX_CHUNKS_PER_PAGE;

/// The first bit of the layout number, which has three.
pub const LAYOUT_BIT: u8 = 28;

/// The claim bit of chunk 0. That of chunk i is i bits above it.
pub const CLAIM_BIT: u8 = 32;

/// The header of a page. Bits 2i and 2i + 1 are the state of chunk i, bits 28 to 30 the layout
/// number, bit 32 + i the claim bit of chunk i, and all others are 0.
#[derive(Clone, Copy, Debug, PartialEq, Eq)]
pub struct PageWord(pub u64);

impl PageWord {
    /// 0 in a page that isn't partitioned.
    pub fn layout(&self) -> u8
        ensures bits { HasLayout self.now.0 result }
        ensures below { result < 8 }
        ensures only { (layout : ℕ) → layout < 8 → HasLayout self.now.0 layout → result ≡ layout }
    {
        ((self.0 >> LAYOUT_BIT) & 7) as u8
    }

    pub fn state(&self, chunk: u8) -> ChunkState
        requires { chunk < MAX_CHUNKS_PER_PAGE }
        ensures bits { HasState self.now.0 chunk result }
        ensures only { (state : ChunkState) → HasState self.now.0 chunk state → result ≡ state }
    {
        ChunkState::from_number(((self.0 >> (2 * chunk)) & 3) as u8)
    }

    pub fn with_state(&self, chunk: u8, state: ChunkState) -> PageWord
        requires { chunk < MAX_CHUNKS_PER_PAGE }
        ensures sets { SetsState self.now.0 result.0 chunk state }
        ensures others { KeepsOthers self.now.0 result.0 chunk }
    {
        let others = self.0 & !(3 << (2 * chunk));
        PageWord(others | (u64::from(state.number()) << (2 * chunk)))
    }

    pub fn claimed(&self, chunk: u8) -> bool
        requires { chunk < MAX_CHUNKS_PER_PAGE }
        ensures { IsTrue result ↔ IsClaimed self.now.0 chunk }
    {
        (self.0 >> (CLAIM_BIT + chunk)) & 1 == 1
    }
}
