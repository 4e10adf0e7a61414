//! Tests of streams of commits that are played: worked rows, each fault with its piece, any pieces, and ids
//! that come in reverse.
#![tactic(auto)]

#[cfg(test)]
mod pieces;
#[cfg(test)]
mod play;
#[cfg(test)]
mod rows;
