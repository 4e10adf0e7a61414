//! Chunks of a sequence by their positions and by their ids. The first chunk has the id `from`, and
//! after the last id of 32 bits comes 0. All that counts or compares chunks does so by their
//! positions; ids stand in headers and in patches that travel.
ghost use Rattle.std.specs.Prelude.{◌≡◌};
ghost use Rattle.trace_base.specs.Ids.{IdsGoBack};
ghost use Rattle.trace_base.specs.Ids as spec;

/// The id of the chunk at this position.
#[tactic(auto, unfolding(crate::specs::Ids::id_of))]
pub fn id_of(from: u32, position: u32) -> u32
    ensures { result ≡ spec.id_of from position }
{
    from.wrapping_add(position)
}

/// The position of the chunk with this id.
#[tactic(auto, unfolding(crate::specs::Ids::position_of), using(crate::proofs::IdLemmas::position_by_difference))]
pub fn position_of(from: u32, id: u32) -> u32
    ensures { result ≡ spec.position_of from id }
{
    id.wrapping_sub(from)
}

/// A law: each of the two undoes the other. The function does nothing: a caller's proof has its
/// clause.
pub fn ids_go_back()
    ensures { IdsGoBack }
{}
