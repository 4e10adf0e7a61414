//! Tables of steps over trace buffers: what arrives, is patched, read past and closed, and what a
//! buffer then says of its chunks and of what was lost.
//! Nothing stands on this crate. What each call does to a buffer is proved in `trace_buffer`; that
//! the definitions mean what was wanted is tested here, by rows that were worked out by hand. They
//! have a crate of their own since a crate with tests is proved twice.
#![tactic(auto)]

#[cfg(test)]
mod parts;
#[cfg(test)]
mod patches;
#[cfg(test)]
mod play;
#[cfg(test)]
mod rings;
#[cfg(test)]
mod step;
