//! The delivery law over any schedule of steps: the atomic steps of writers and the service on a table of
//! chunks, in whatever order threads make them, lead to an account, so its trace is faithful to the packets
//! that its writers emitted. There is no program code here.
//! A layer above may cite the laws: they are public functions with empty bodies whose contracts are the
//! statements.
#![tactic(auto)]

mod laws;

pub use laws::{
    enough_chunks_lose_nothing, enough_misses_nothing, every_packet_is_counted,
    every_schedule_is_faithful, every_sequence_is_told, every_served_schedule_is_faithful,
    schedules_are_accounts, sequences_have_accounts, serving_is_in_order, setups_are_apart,
};
