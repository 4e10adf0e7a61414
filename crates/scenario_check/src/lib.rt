//! Checking a trace against a scenario: from the scenario's lines to what its writers emit, and from
//! there to the verdict.
//! A layer above may rely on this: the packets that the trace is checked against are exactly the
//! emissions that the lines spell for each writer, and the verdict on them is that of `gap_check`.
#![tactic(auto)]

mod check;
mod collect;
mod emit;
mod laws;

pub use check::check_run;
pub use laws::scenarios_are_unmarked;
