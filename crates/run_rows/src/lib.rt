//! Tests of `run` and `tune` by the top call. Their gates hold a job until another one has come to a line,
//! so that a test knows in which order they came: that writers really run beside each other, that the
//! trace follows the order in which they claimed, and that the service's lines fall where they stand.
#![tactic(auto)]

#[cfg(test)]
mod gates;
#[cfg(test)]
mod runs;
