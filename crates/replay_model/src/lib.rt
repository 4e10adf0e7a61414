//! Replay, end to end, as definitions and laws: what a scenario's lines have its writers and the service do, act by act, and
//! what the trace and the report are then; there is no program code here.
//! A layer above may cite the laws: they are public functions with empty bodies whose contracts are the
//! statements.
#![tactic(auto)]

mod laws;

pub use laws::{
    clones_change_no_replay, enough_loses_nothing, every_clone_tells,
    every_enough_replay_is_complete, every_flush_is_settled, every_flush_stays_cut,
    every_front_is_faithful, every_late_answer_is_settled, every_replay_is_faithful,
    every_report_counts_packets, every_report_is_balanced, every_request_is_settled, no_clone_asks,
    nothing_plays_nothing, replays_are_accounts, writers_lose, writers_wrote,
};
