//! Rounds of the calls on a table of chunks, and of a service beside its writer, by code that knows
//! nothing but the trait.
//! Nothing stands on this crate. What each call does is proved in `chunk_plain` and `service_core`;
//! that the calls go together, and succeed where they can, is tested here. The tests have a crate of
//! their own since a crate with tests is proved twice.
#![tactic(auto)]

#[cfg(test)]
mod commits;
#[cfg(test)]
mod rounds;
#[cfg(test)]
mod scrapes;
