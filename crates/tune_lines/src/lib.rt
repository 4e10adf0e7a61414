//! The lines that a run of users on pages that are partitioned anew comes to.
//! A layer above may rely on this: `put_lines` writes the text that the definition gives for a report,
//! whole where it answers Ok and a front part of it where the sink failed, and answers a fault only
//! where the sink's count of faults rose. It takes no memory.
#![tactic(auto)]

mod fields;
pub mod laws;
mod lines;

pub use lines::put_lines;
