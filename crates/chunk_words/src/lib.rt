//! The table of chunks that threads share: the words of all pages, the header words and the payload
//! words of all chunks in one table of atomic words, beside a slot for each chunk's body. Each writer
//! and the service have a seat, with which they step on it. A layer above may rely on this: between
//! any two steps of any number of threads each chunk is free, or owned by exactly one seat, or waits
//! for the service whole, as its writer completed it.
#![tactic(auto)]

mod close;
mod host;
pub mod laws;
mod mail;
mod make;
mod moves;
mod pass;
mod remembering;
mod seats;
mod service_calls;
mod service_steps;
mod shared;
mod slots;
mod steps;
mod tell;
mod writer_calls;
mod writer_steps;

pub use close::ClosedTable;
pub use host::HostTable;
pub use remembering::{Memory, Remembering};
pub use seats::{ReadPass, ServiceSeat, WriterSeat};
pub use shared::Shared;
pub use steps::{ChunkRule, ChunkSeat, ChunkTable, Knowledge};
