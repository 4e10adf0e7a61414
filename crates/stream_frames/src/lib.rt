//! The frames of a commit stream: how a stream is cut into them, wherever the stream itself was cut
//! into pieces, and what a frame says. A layer above may rely on this: a frame is read exactly where
//! its bytes are those that spell it, and a fault stands at the first byte of the first frame that is
//! none. No call but `FrameReader::make` takes memory, and no frame's payload is copied but into the
//! reader's own room.
#![tactic(auto)]

mod check;
mod decoding;
mod fields;
mod frame;
mod front;
mod laws;
mod patches;
mod reader;

pub use check::{FrameFault, check_frames};
pub use decoding::decode;
pub use frame::{Commit, Frame, FrameLimits};
pub use front::{Front, MAX_FRAME, front_of};
pub use laws::{frames_are_spelled, pieces_are_one_stream};
pub use patches::PatchBytes;
pub use reader::FrameReader;
