//! What a frame says.
ghost use Rattle.std.specs.Prelude.{◌≡◌};
ghost use Rattle.stream_frames.specs.Values.{frame_value};
ghost use Rattle.stream_frames.specs.Frames.{closes};

use crate::patches::PatchBytes;
use arrayvec::ArrayVec;
use page_geometry::ChunkHeader;
use trace_base::limits::MAX_WRITERS;

/// What frames may name: so many buffers, and the sources, each with the payload size of its chunks.
#[derive(Debug, Drop)]
pub struct FrameLimits {
    pub buffers: u8,
    pub payload_sizes: ArrayVec<u32, MAX_WRITERS>,
}

/// An image that a producer without shared memory commits. Its payload may be shorter than its
/// chunk's: the bytes that are left out are zeros.
#[derive(Debug, Drop)]
pub struct Commit<'a> {
    /// The number of the buffer that it is for.
    pub target: u8,
    pub header: ChunkHeader,
    pub patches: PatchBytes<'a>,
    pub payload: &'a [u8],
}

/// A frame of a commit stream. Buffers count from 1.
#[derive(Debug, Drop)]
pub enum Frame<'a> {
    Commit(Commit<'a>),
    /// The buffer is read.
    Read { buffer: u8 },
    /// The stream ends here.
    Close,
}

impl Frame<'_> {
    /// The stream ends with it.
    pub fn closes(&self) -> bool
        ensures { result ≡ closes (frame_value self.now) }
    {
        match self {
            Frame::Close => true,
            Frame::Commit(_) | Frame::Read { .. } => false,
        }
    }
}
