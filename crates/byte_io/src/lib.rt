//! Where bytes come from and where they go: the traits of the outside, the two calls that read
//! and write all of something, objects in memory, the standard streams, and a sink that buffers.
//! A layer above may rely on this: where an object tells its bytes, each clause says exactly
//! which were given or taken; a call answers a fault only where the object's count of faults
//! rose; and an `Ok` leaves that count as it was.
#![tactic(auto)]

pub mod buffered;
pub mod fill;
pub mod memory;
pub mod put;
pub mod script;
pub mod standard;
pub mod traits;
