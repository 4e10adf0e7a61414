//! Writing a packet's bytes into the payload of a chunk.
//! A layer above may rely on this: what a cursor writes is the next bytes of what it is given, as
//! many as fit, and nothing else in the payload changes; a hole is four bytes at the offset that is
//! answered; a head is exactly what stands before a field's content in the encoding; and the size of
//! one that is answered is that of those bytes.
#![tactic(auto)]

mod cursor;
mod head;

pub use cursor::ChunkCursor;
pub use head::{
    Head, bytes_head_size, head_bytes, head_nested, head_number, nested_tag_size, number_size,
};
