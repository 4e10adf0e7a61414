//! Where the records of chunks lie: an index from a sequence and a chunk's position in it to a place,
//! hashed, with a fixed number of entries.
//! A layer above may rely on an index being a finite map, as `IndexValue` has it: each call says the
//! map that it leaves or what it found there. No call but `make` takes memory. The number of probes
//! is measured, not proved.
#![tactic(auto)]

mod index;
mod least;
mod room;
mod slot;
#[cfg(test)]
mod tests;

pub use index::Index;
