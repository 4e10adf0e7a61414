//! Summaries of traces: how many packets, marks and bytes there are of each sequence.
//! A layer above may rely on this: `summarize` answers the counts of exactly the packets that a trace
//! reads as, or its first fault; `put_summary` appends their lines to a sink, whole where it answers
//! Ok and a front part of them where the sink failed, and takes no memory.
#![tactic(auto)]

mod count;
mod put;
mod summary;
mod tally;

pub use count::{SummaryFault, summarize};
pub use put::put_summary;
pub use summary::{Summary, Totals};
