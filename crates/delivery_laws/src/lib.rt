//! The delivery law: what the reads of a history deliver of a sequence are the packets that its writer
//! emitted, exact, whole, once and in order, with a mark exactly where one is missing.
//! It is said over the events of one buffer, with no table of chunks; there is no program code here.
//! A layer above may cite the laws: they are public functions with empty bodies whose contracts are
//! the statements.
#![tactic(auto)]

mod laws;

pub use laws::{
    accounts_are_histories, every_ask_is_counted, every_flush_is_settled, every_history_tells,
    every_outcome_stays, every_packet_is_delivered, every_writer_is_told, worked_account,
    worked_enough,
};
