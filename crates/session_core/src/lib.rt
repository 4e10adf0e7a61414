//! The session of a tracing service: its states, its flush requests, and what its writers answered
//! to them.
//! A layer above may rely on this: a call is refused exactly where the table of states or the number
//! of a request says so, and then changes nothing; of each writer the answer to the newest request is
//! kept, the first one of several. No call takes memory.
#![tactic(auto)]

mod answers;
mod session;

pub use answers::{Answer, SessionFault, SessionState};
pub use session::Session;
