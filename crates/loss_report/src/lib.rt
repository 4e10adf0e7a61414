//! The report of a replay or a run: what each buffer counted, what became of the packets of each
//! sequence, which flush requests were answered, and what lines `raw` were.
//! A layer above may rely on this: `put_report` and `put_raw` write the text that the definitions give
//! for these counts and answers, whole where they answer Ok and a front part of it where the sink
//! failed, and answer a fault only where the sink's count of faults rose. No call takes memory.
#![tactic(auto)]

mod counts;
mod fields;
pub mod laws;
mod raws;
mod report;

pub use counts::{Done, SequenceCounts};
pub use raws::{RawAnswer, RawLine, put_raw};
pub use report::put_report;
