//! What is delivered of commits that come in any order: each brings an image of a chunk and the patches of
//! its body, and no table of chunks lies between the producer and the service.
//! It is said over the events of one buffer, and of all buffers of a service; there is no program code here.
//! A layer above may cite the laws: they are public functions with empty bodies whose contracts are the
//! statements.
#![tactic(auto)]

mod laws;

pub use laws::{
    every_commit_history_tells, every_stream_is_complete, every_stream_is_told,
    streams_are_complete, streams_are_told, worked_early, worked_held, worked_stream,
    writers_leave_streams,
};
