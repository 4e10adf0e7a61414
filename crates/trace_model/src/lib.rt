//! What the service promises, as definitions and laws about them; there is no program code here.
//! A layer above may cite the definitions of `specs/` in its contracts, and the laws, which are
//! public functions with empty bodies whose contracts are the statements.
#![tactic(auto)]

mod laws;

pub use laws::{
    all_records_tell, calls_give_encodings, counts_are_outcomes, encodings_are_as_long,
    live_are_unmet, packets_are_fronted, packets_have_one_outcome, pages_read_as_written,
    reading_is_exact, rows_continue, rows_fade, rows_rise, tells_by_places, worked_rounds,
    worked_rows,
};
