//! Reading a sequence of a trace buffer: which packets are due, and their records.
//! A layer above may rely on this: a read writes exactly the records that the definitions say, and
//! leaves the buffer as they say; it tells why it ended, by the stop place that it met. Under a write
//! fault the sink has the records before, and a front part of the one that failed. Each fragment is
//! handed on from where it lies; no packet is joined, and no call takes memory.
#![tactic(auto)]

mod bools;
mod deliver;
mod ends;
mod held;
mod link;
mod progress;
mod read;
mod run;
mod spot;
mod step;

pub use ends::{ReadCount, ReadEnd, Why};
pub use read::{read_counted, read_sequence};
