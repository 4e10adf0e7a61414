//! A ring of records in bytes, as a buffer keeps its chunks: records stand one behind another, each
//! with a header of 16 bytes, and a record that doesn't fit behind the last one goes to the start.
//! A layer above may rely on the ring being the list of its live records with their places, as
//! `RingValue` has it: each call says the list that it leaves. No call but `make` takes memory, and
//! nothing that is live is overwritten: `next_met` names what has to be dropped before a write.
#![tactic(auto)]

mod grow;
mod header;
mod key;
mod part;
mod ring;
#[cfg(test)]
mod tests;
mod walk;

pub use key::{Place, RecordKey};
pub use part::size_of_record;
pub use ring::{MAX_RING_SIZE, Ring};
