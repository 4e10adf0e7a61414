//! Tests of the command `stream`: each input with its status, its trace and what is printed.
#![tactic(auto)]

#[cfg(test)]
mod long;
pub mod play;
#[cfg(test)]
mod played;
#[cfg(test)]
mod refused;
