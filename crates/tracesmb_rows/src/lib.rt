//! Tests that cross crates, and long tables of texts for the grammars: worked rows of the top call,
//! with the statuses, traces and texts that are expected of them. `play` makes such a call over objects
//! in memory; its contract says that a test sees what the top call's contract allows for the words and
//! the input that it gives.
#![tactic(auto)]

#[cfg(test)]
mod checks;
#[cfg(test)]
mod clones;
#[cfg(test)]
mod fields;
#[cfg(test)]
mod first_ids;
pub mod play;
#[cfg(test)]
mod raws;
#[cfg(test)]
mod rows;
#[cfg(test)]
mod scenarios;
