//! Finding out whether the packets that were delivered of a sequence tell of those that its writer
//! emitted, one after another and in linear time.
//! A layer above may rely on this: after each packet, `Teller` says whether all of them so far, with
//! this one, stand among the emitted packets in order, each marked exactly where it is the first one
//! or the packet before it is missing. No call but `Teller::make` takes memory.
#![tactic(auto)]

mod packets;
mod search;
mod teller;

pub use packets::Packets;
pub use teller::Teller;
