//! Worked examples of a writer: what it leaves behind its calls, in its counts and in its chunks,
//! which calls it refuses, how it stalls, and how often it asks before it drops.
//! Nothing stands on this crate. What each call does is proved in `trace_writer`. The tests have a
//! crate of their own since a crate with tests is proved twice.
#![tactic(auto)]

#[cfg(test)]
mod calls;
#[cfg(test)]
mod collector;
#[cfg(test)]
mod images;
#[cfg(test)]
mod packets;
#[cfg(test)]
mod setting;
#[cfg(test)]
mod stalls;
#[cfg(test)]
mod tries;
