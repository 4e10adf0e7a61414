//! Lines `raw` by hand: what is said of each, and what is kept of it.
//! Nothing stands on this crate. What each call does is proved in `scenario_text`. The tests have a
//! crate of their own since a crate with tests is proved twice.
#![tactic(auto)]

#[cfg(test)]
mod raw_lines;
