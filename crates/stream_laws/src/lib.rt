//! What a stream of frames delivers: the laws of streams of commits, over the history that the frames
//! of a stream give under a configuration. There is no program code here.
//! A layer above may cite the laws: they are public functions with empty bodies whose contracts are the
//! statements.
#![tactic(auto)]

mod laws;

pub use laws::{
    every_stream_delivers, every_stream_delivers_all, sent_streams_come, worked_delivery,
};
