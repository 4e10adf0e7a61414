//! Numbers and tags as the protocol-buffers encoding writes them: seven bits a byte, the lowest
//! first, and the high bit on each byte but the last.
//! A layer above may rely on what is written being the shortest varint, on a reading answering the
//! one varint that stands in front, whatever follows, and on each refusal having its cause. The
//! form of four bytes is a varint too. The laws are public functions with empty bodies.
#![tactic(auto)]

mod laws;
mod read;
mod redundant;
mod write;

pub use laws::{
    lengths_are_bounded, numbers_are_varints, one_varint_in_front, redundants_are_varints,
    tags_are_varints, written_is_shortest,
};
pub use read::{VarintFault, get_varint};
pub use redundant::{get_redundant, put_redundant};
pub use write::{push_tag, push_varint, put_tag, put_varint, put_varint_at, varint_len};
