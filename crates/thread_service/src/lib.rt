//! The service of a table that threads share: a `ServiceCore` over it, whose calls are each given the
//! table. A layer above may rely on this: each call does over the lent table what the same call of
//! `service_core` does over any table, and leaves the service one of that table. A read that is noted
//! with the reading pass is known at the next read: the sink took exactly the records of the reads
//! that the pass knows more. It takes no memory but in `make`, no lock and no runtime.
#![tactic(auto)]

mod asking;
mod committing;
mod flushes;
mod passing;
mod reading;
mod service;
mod settling;
mod telling;

pub use service::Service;
