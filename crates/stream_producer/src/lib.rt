//! A producer without shared memory: a session from a configuration and a stream of commits, whose
//! frames carry the bytes of chunks. A layer above may rely on this: whatever pieces a stream comes
//! in, the sink takes the records of the history that its frames give, and a fault is answered with
//! the piece that shows it, when the frames before it are done. All memory is taken in
//! `StreamProducer::make`.
#![tactic(auto)]

mod check;
mod counting;
mod ending;
mod fault;
mod feeding;
mod finishing;
mod making;
mod player;
mod playing;
mod producer;
mod whole;

pub use check::check_stream;
pub use fault::StreamFault;
pub use player::Player;
pub use producer::{StreamCore, StreamDone, StreamProducer};
