//! The masks by which writers and the service change a page word. Each change is one atomic
//! operation, which touches the bits of one chunk alone.
ghost use Rattle.std.specs.Prelude.{◌≡◌, ℕ, ◌+◌, ◌*◌, ◌^◌, ◌<◌, bit_and, bit_or};
ghost use Rattle.page_geometry.specs.declared.chunk_state.ChunkState.TheVariants.{Free, BeingWritten, BeingRead, Complete};
ghost use Rattle.page_geometry.specs.Masks.{IsBit, IsLayoutMask, IsClaimMask, IsAllBut, IsReleaseMask};
ghost use Rattle.page_geometry.specs.PageBits.{HasState, SetsState, Claims, Releases, KeepsOthers};

use crate::page_word::{CLAIM_BIT, LAYOUT_BIT};
use trace_base::limits::MAX_CHUNKS_PER_PAGE;

/// The claim bit of the chunk alone.
pub fn claim_bit(chunk: u8) -> u64
    requires { chunk < MAX_CHUNKS_PER_PAGE }
    ensures { IsBit result (CLAIM_BIT + chunk) }
{
    bit(CLAIM_BIT + chunk)
}

/// The layout number in its place.
pub fn layout_bits(layout: u8) -> u64
    requires { layout < 8 }
    ensures { IsLayoutMask result layout }
{
    u64::from(layout) << LAYOUT_BIT
}

/// A writer claims the chunk by an or with this mask. It has won where the word that it found has
/// the claim bit clear.
pub fn claim_mask(chunk: u8, layout: u8) -> u64
    requires chunk { chunk < MAX_CHUNKS_PER_PAGE }
    requires layout { layout < 8 }
    ensures bits { IsClaimMask result chunk layout }
    ensures step { (word : ℕ) → Claims word (bit_or word result) chunk layout }
    ensures others { (word : ℕ) → KeepsOthers word (bit_or word result) chunk }
{
    claim_bit(chunk) | layout_bits(layout)
}

/// The writer begins to write the chunk that it claimed by an or with this mask.
pub fn begin_mask(chunk: u8) -> u64
    requires { chunk < MAX_CHUNKS_PER_PAGE }
    ensures bits { IsBit result (2 * chunk) }
    ensures step { (word : ℕ) → HasState word chunk Free
        → SetsState word (bit_or word result) chunk BeingWritten }
    ensures others { (word : ℕ) → KeepsOthers word (bit_or word result) chunk }
{
    bit(2 * chunk)
}

/// The writer completes the chunk by an or with this mask.
pub fn complete_mask(chunk: u8) -> u64
    requires { chunk < MAX_CHUNKS_PER_PAGE }
    ensures bits { IsBit result (2 * chunk + 1) }
    ensures step { (word : ℕ) → HasState word chunk BeingWritten
        → SetsState word (bit_or word result) chunk Complete }
    ensures others { (word : ℕ) → KeepsOthers word (bit_or word result) chunk }
{
    bit(2 * chunk + 1)
}

/// The service takes a complete chunk by an and with this mask.
pub fn take_mask(chunk: u8) -> u64
    requires { chunk < MAX_CHUNKS_PER_PAGE }
    ensures bits { IsAllBut result (2 * chunk) }
    ensures step { (word : ℕ) → word < 2 ^ 64 → HasState word chunk Complete
        → SetsState word (bit_and word result) chunk BeingRead }
    ensures others { (word : ℕ) → KeepsOthers word (bit_and word result) chunk }
{
    all_but(2 * chunk)
}

/// The service gives the chunk back, free and unclaimed, by an and with this mask.
pub fn release_mask(chunk: u8) -> u64
    requires { chunk < MAX_CHUNKS_PER_PAGE }
    ensures bits { IsReleaseMask result chunk }
    ensures step { (word : ℕ) → word < 2 ^ 64 → HasState word chunk BeingRead
        → Releases word (bit_and word result) chunk }
    ensures others { (word : ℕ) → KeepsOthers word (bit_and word result) chunk }
{
    all_but(2 * chunk + 1) & all_but(CLAIM_BIT + chunk)
}

fn bit(place: u8) -> u64
    requires { place < 64 }
    ensures { IsBit result place }
{
    1 << place
}

fn all_but(place: u8) -> u64
    requires { place < 64 }
    ensures { IsAllBut result place }
{
    !bit(place)
}
