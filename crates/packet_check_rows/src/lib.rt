//! Packets by hand, after the protocol-buffers encoding, with what is so of each.
//! Nothing stands on this crate. What each call does is proved in `packet_check`. The tests have a
//! crate of their own since a crate with tests is proved twice.
#![tactic(auto)]

#[cfg(test)]
mod packets;
