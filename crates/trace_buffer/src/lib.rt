//! A trace buffer: the records of chunks in a ring of bytes, what has arrived of each sequence, and
//! what was lost.
//! A layer above may rely on a buffer being the definitions' `Buffer`: each call says the value that
//! it leaves as an equation with them. No call but `make` takes memory, and no payload is copied
//! out. How many steps a call takes is measured, not proved.
#![tactic(auto)]

mod answers;
mod buffer;
mod circle;
mod closing;
mod patching;
mod room;
mod row;
mod rows;
mod unfinished;

pub use answers::{
    Arrived, BufferCounts, BufferSpec, Cursor, Passed, PatchFault, SequenceSpec, SequenceState,
};
pub use buffer::TraceBuffer;
