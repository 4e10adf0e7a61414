//! Who gets a free chunk: a writer asks for its producer's chunks in rising order, one claim each,
//! until one wins. A layer above may rely on this: a chunk that is answered is claimed and begun,
//! each chunk before it was found claimed, and None means that every chunk of the producer was found
//! claimed at a step of its own in this call. It holds on each table of chunks, no call waits or
//! takes memory, and each step is counted.
#![tactic(auto)]

mod arbiter;

pub use arbiter::{Arbiter, claim_over};
