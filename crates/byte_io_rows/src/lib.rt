//! Sources and sinks by hand: short reads and writes, faults, ends, and the standard streams.
//! Nothing stands on this crate. What each call does is proved in `byte_io`. The tests have a
//! crate of their own since a crate with tests is proved twice.
#![tactic(auto)]

#[cfg(test)]
mod ends;
