//! Positions of chunks, each of which has its id.

/// So many are enough for one packet, however long it is.
pub const PACKET_IDS: u64 = 4096;
