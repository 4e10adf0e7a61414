//! Tests of reading: arrivals and reads of one sequence, played through a buffer, with the records
//! and the answers that the rules of reading give for them.
#![tactic(auto)]

#[cfg(test)]
mod faults;
#[cfg(test)]
mod losses;
#[cfg(test)]
mod play;
#[cfg(test)]
mod rows;
