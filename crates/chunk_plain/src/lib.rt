//! The chunks of shared memory pages as writers and the service use them, and the table of one
//! thread. A writer claims a chunk, begins it, writes into its body and completes it; the service
//! takes it and gives it back. A layer above may rely on this: each call of the trait `Words` makes
//! one step on its seat's view and leaves every other view, and between two calls each chunk is free,
//! or owned by exactly one seat, or waits for the service whole, as its writer completed it.
#![tactic(auto)]

pub mod bytes;
pub mod laws;
mod layout;
mod notes;
mod plain;
mod plain_seats;
mod plain_steps;
mod plain_words;
mod setup;
mod slots;
mod step;
mod tokens;
mod words;
mod worlds;

pub use layout::Layout;
pub use notes::{ServiceEvent, WriterCall};
pub use plain::PlainTable;
pub use plain_seats::{PlainService, PlainWriter};
pub use setup::{ChunkRange, ProducerSpec, Spot};
pub use tokens::{Claimed, Held, MAX_HELD, NotComplete, POSITION_LIMIT, Seen, Taken};
pub use words::Words;
