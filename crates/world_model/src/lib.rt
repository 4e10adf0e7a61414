//! The delivery law over a table of chunks: the trace of any account is faithful to the packets that
//! its writers emitted. An account is what the views of a table's seats say of it; there is no program
//! code here.
//! A layer above may cite the laws: they are public functions with empty bodies whose contracts are the
//! statements.
#![tactic(auto)]

mod laws;

pub use laws::{every_account_is_faithful, finds_are_fronts, tables_begin_as_accounts};
