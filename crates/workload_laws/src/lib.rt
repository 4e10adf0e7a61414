//! What workloads ask for: the text that `generate` of `workload_gen` writes is a scenario of the
//! grammar of `scenario_text`, and which one. It stands beside both, so that they stay as they are;
//! there is no program code here.
//! A layer above may cite the laws: they are public functions with empty bodies whose contracts are
//! the statements.
#![tactic(auto)]

mod laws;

pub use laws::{workloads_are_scenarios, workloads_are_short, workloads_take_turns};
