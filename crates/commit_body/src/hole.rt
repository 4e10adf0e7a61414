//! Lengths that aren't known yet.

/// The four bytes of a nested length whose message goes on: its chunk, by the position, and where it
/// stands in that chunk's payload.
#[derive(Clone, Copy, Debug, Default, PartialEq, Eq)]
pub struct Hole {
    pub chunk_id: u32,
    pub offset: u32,
}
