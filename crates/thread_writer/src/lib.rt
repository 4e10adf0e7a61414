//! The writer of a thread: a `WriterCore` over the table that threads share.
//! A layer above may rely on this: each call does over the lent table what the same call of
//! `trace_writer` does over any table, by the seat that the writer was made with, and leaves the
//! writer one of that table. So after any calls its chunks are a cut of the packets that the calls
//! say. It takes no memory, no lock and no runtime; a writer that drops asks no helper.
#![tactic(auto)]

mod claim;
mod helper;
mod laws;
mod writer;

pub use claim::claim_shared;
pub use helper::{Asks, Helper};
pub use laws::thread_writer_is_cut;
pub use writer::TraceWriter;
