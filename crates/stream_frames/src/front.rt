//! What stands in front of the bytes of a stream.
ghost use Rattle.std.specs.Prelude.{◌≡◌};
ghost use Rattle.stream_frames.specs.Framing as framing;
ghost use Rattle.stream_frames.specs.Values.{limits_value, front_value, IsFrameOf};

use crate::decoding::decode;
use crate::frame::{Frame, FrameLimits};

/// The bytes of a frame behind its length; there is at least one.
pub const MAX_FRAME: usize = 70_000;

/// The bytes of a length.
pub(crate) const LENGTH_SIZE: usize = 4;

/// What stands in front of some bytes of a stream.
#[derive(Debug, Drop)]
pub enum Front<'a> {
    /// Too few bytes to say.
    Short,
    /// No frame, however the bytes go on.
    Bad,
    /// A frame, which has so many bytes, those of its length among them.
    Whole { frame: Frame<'a>, size: usize },
}

/// The same behind a length.
#[tactic(auto, unfolding(crate::specs::Framing::behind_length))]
#[inline(always)]
fn behind_length<'a>(limits: &FrameLimits, size: usize, bytes: &'a [u8]) -> Front<'a>
    ensures front { front_value result ≡ framing.behind_length (limits_value limits.now) size bytes.now }
    ensures frame { IsFrameOf (limits_value limits.now) result }
{
    if size < 1 || MAX_FRAME < size {
        return Front::Bad;
    }
    if bytes.len() < size {
        return Front::Short;
    }
    match decode(limits, &bytes[..size]) {
        Some(frame) => Front::Whole {
            frame,
            size: LENGTH_SIZE + size,
        },
        None => Front::Bad,
    }
}

/// What stands in front of these bytes. It and all that it calls are no calls: so where a frame is but
/// passed over, nothing of it is written, and where it is played, it stays in registers.
#[tactic(auto, unfolding(crate::specs::Framing::front_of))]
#[inline(always)]
pub fn front_of<'a>(limits: &FrameLimits, bytes: &'a [u8]) -> Front<'a>
    ensures front { front_value result ≡ framing.front_of (limits_value limits.now) bytes.now }
    ensures frame { IsFrameOf (limits_value limits.now) result }
{
    if bytes.len() < LENGTH_SIZE {
        return Front::Short;
    }
    let (front, rest) = bytes.split_at(LENGTH_SIZE);
    let size = u32::from_le_bytes([front[0], front[1], front[2], front[3]]);
    behind_length(limits, size as usize, rest)
}
