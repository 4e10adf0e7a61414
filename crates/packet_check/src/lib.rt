//! The packet check: what fields a writer may not write.
//! A layer above may rely on this: `check_packet` accepts exactly those bytes that are fields of
//! protobuf, one behind another, none of which is the service's own, and of other bytes it answers
//! the first fault. `PacketCheck` answers the same of a packet that comes in pieces, wherever it is
//! cut. No call takes memory, and none goes back behind a field that it has passed.
#![tactic(auto)]

mod check;
mod fault;
mod field;
mod laws;
mod walk;
mod whole;

pub use check::{AcceptCheck, PacketCheck};
pub use fault::PacketFault;
pub use laws::{
    accepted_pass, answers_are_of_the_grammar, packets_have_one_answer, pieces_are_joined,
    writers_packets_pass,
};
pub use whole::{accepts_packet, check_packet};
