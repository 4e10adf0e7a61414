//! Tests of frames by hand: each kind, each fault and where it stands, and a stream cut short at each byte.
#![tactic(auto)]

#[cfg(test)]
mod frames;
#[cfg(test)]
mod streams;
