//! What a writer's pages are from step to step: definitions and lemmas on lists, without program code.
//! A layer above may rely on this: each step of a writer (bytes written, a nested length begun, a
//! message ended, a page run on from, a packet begun, finished, dropped or given up) leads from
//! one of the states of `specs/` to the next, and from each state the pages are a cut of the
//! packets. The lemmas are public modules of `proofs/`.
#![tactic(auto)]

mod laws;

pub use laws::states_are_cuts;
