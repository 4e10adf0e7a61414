//! Schedules of the atomic steps that writers and the service make on a table of chunks: what each step
//! makes of the table's world, where it is possible, and that each keeps ownership. There is no program
//! code here.
//! A layer above may rely on this: steps lead on from any world to which steps lead (`led_on`), and it
//! may cite the laws, public functions with empty bodies whose contracts are the statements.
#![tactic(auto)]

mod laws;

pub use laws::{
    answers_are_given_in_turn, arrived_were_taken, at_most_one_is_read, claims_in_vain_find_had,
    first_wins_follow_arrivals, freed_have_arrived, requests_are_made_in_turn, schedules_join,
    schedules_keep_ownership,
};
