//! The service: it takes the chunks that writers completed, and images that come by a commit, into
//! its buffers, reads these into a sink, closes producers, and asks for flushes.
//! A layer above may rely on this: on any table of chunks the buffers are the fold of the history that
//! the service noted in its seat's view; each call says what it noted, in which order, and what it
//! left. No call but `make` takes memory.
#![tactic(auto)]

mod asking;
mod closing;
mod committing;
mod flushes;
mod ids;
pub mod laws;
mod making;
mod patching;
mod reading;
mod room;
mod routing;
mod scraping;
mod service;
mod taking;

pub use committing::WrongTarget;
pub use service::ServiceCore;
