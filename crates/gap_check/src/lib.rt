//! Checking a trace against the packets that writers emitted: whether each sequence tells of its
//! writer's packets, and the first packet that doesn't.
//! A layer above may rely on this: `Agrees` comes exactly where the trace's records are faithful to
//! the emitted packets, and `Differs` names the least number of records that aren't. It takes time in
//! proportion to the trace and the packets, also where packets are equal.
#![tactic(auto)]

mod check;
mod tell;
mod tellers;
mod verdict;

pub use check::check_packets;
pub use verdict::{CheckFault, Verdict};
