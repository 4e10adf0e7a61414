//! Playing a scenario on one thread: its lines in their order, on writers, a table of chunks and a
//! service, and then the end.
//! A layer above may rely on this: the sink takes the records of what was played, and nothing else.
//! All memory is taken before the first line is played.
#![tactic(auto)]

mod asking;
mod cloning;
mod counting;
mod ending;
mod fault;
mod fields;
mod flushes;
mod helper;
mod host;
mod ids;
mod lines;
mod making;
mod playing;
mod raws;
mod replaying;
mod requests;
mod serving;

pub use asking::ask_one;
pub use cloning::make_clones;
pub use counting::{make_done, packets_left};
pub use fault::HostFault;
pub use fields::call_of_node;
pub use flushes::Flushes;
pub use helper::Collecting;
pub use host::Host;
pub use making::{buffer_specs, count_requests, make_host, producer_specs};
pub use replaying::{replay, replay_cloning};
