//! Tests of failing ends: what the top call leaves where a read or a write of it fails, at each call in
//! turn, with reads and writes of a few bytes; where a sink has no room; and for inputs that are cut at each
//! length. What is expected of a row comes of the worked rows of the page of formats, and of a failing
//! end it is cut to a front part.
#![tactic(auto)]

#[cfg(test)]
mod cuts;
#[cfg(test)]
mod ends;
#[cfg(test)]
mod failing;
#[cfg(test)]
mod rows;
pub mod short;
