//! What becomes of a hole that is closed.

/// Where the four bytes of a closed hole go.
#[derive(Clone, Copy, Debug, PartialEq, Eq)]
pub enum Closed {
    /// The hole is in the held chunk: the bytes are to be written at this place of its payload.
    Here { offset: u32, bytes: [u8; 4] },
    /// The hole's chunk was completed: a patch will bring the bytes.
    Later,
}
