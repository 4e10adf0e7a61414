//! Workloads: large valid scenarios that are made from a number, for measuring and for trying.
//! A layer above may rely on this: `generate` writes the text that the definition `workload` has for its numbers, whole
//! where it answers Ok and a front part of it where the sink failed; it answers a fault only where the sink's count of
//! faults rose, and takes no memory.
#![tactic(auto)]

mod batch;
mod draw;
mod workload;

pub use workload::generate;
