//! What a scrape takes of a chunk that its writer is still filling.
//! A layer above may rely on this: finished fragments alone, which are those before the last one that
//! the chunk's header counts, and a chunk that nobody writes, or that has none, is left alone.
#![tactic(auto)]

ghost use Rattle.std.specs.Prelude.{◌≡◌, ◌+◌, ◌<◌, ◌≤◌, IfSome, IfNone};
ghost use Rattle.page_geometry.specs.declared.chunk_state.ChunkState.TheVariants.{BeingWritten};
ghost use Rattle.page_geometry.specs.PageBits.{HasState};
ghost use Rattle.trace_base.specs.declared.limits.TheConstants.{MAX_CHUNKS_PER_PAGE};

#[cfg(test)]
mod tests;

use chunk_plain::Seen;
use page_geometry::ChunkState;

/// How many fragments a look found finished in the chunk at this place of its page. The last one that
/// is counted may still grow.
pub fn finished_of(seen: Seen, place: u8) -> Option<u16>
    requires { place < MAX_CHUNKS_PER_PAGE }
    ensures written { IfSome result (λ finished. HasState seen.word.0 place BeingWritten) }
    ensures some { IfSome result (λ finished. 1 ≤ finished) }
    ensures last { IfSome result (λ finished. seen.header.count ≡ finished + 1) }
    ensures none { IfNone result (HasState seen.word.0 place BeingWritten → seen.header.count < 2) }
{
    match seen.word.state(place) {
        ChunkState::BeingWritten if seen.header.count > 1 => Some(seen.header.count - 1),
        _ => None,
    }
}
