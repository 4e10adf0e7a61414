//! Rounds on a table that real threads share. Nothing stands on this crate. What each call does is
//! proved in `chunk_words`; that the calls go together on threads, and succeed where they can, is
//! tested here. The tests have a crate of their own since a crate with tests is proved twice.
#![tactic(auto)]

#[cfg(test)]
mod answers;
#[cfg(test)]
mod giving;
#[cfg(test)]
mod serving;
#[cfg(test)]
mod threads;
#[cfg(test)]
mod words;
#[cfg(test)]
mod writing;
