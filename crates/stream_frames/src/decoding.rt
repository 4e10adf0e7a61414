//! Reading a frame, field by field.
ghost use Rattle.std.specs.Prelude.{◌≡◌, option_map, IfSome};
ghost use Rattle.stream_frames.specs.Decoding as reading;
ghost use Rattle.stream_frames.specs.Frames.{IsFrame};
ghost use Rattle.stream_frames.specs.Values.{limits_value, commit_value, frame_value};

use crate::fields::{byte_at, counted_at, u64_at};
use crate::frame::{Commit, Frame, FrameLimits};
use page_geometry::ChunkHeader;

/// The kinds of frames.
const COMMIT: u8 = 1;

const READ: u8 = 2;

const CLOSE: u8 = 3;

fn is_buffer(limits: &FrameLimits, buffer: u8) -> bool
    ensures { result ≡ reading.is_buffer (limits_value limits.now) buffer }
{
    1 <= buffer && buffer <= limits.buffers
}

/// Whether the payload isn't longer than that of a chunk of this source.
fn holds(limits: &FrameLimits, source: u16, payload: &[u8]) -> bool
    ensures { result ≡ reading.holds (limits_value limits.now) source payload.now }
{
    let source = usize::from(source);
    if source < 1 || limits.payload_sizes.len() < source {
        return false;
    }
    payload.len() <= limits.payload_sizes[source - 1] as usize
}

/// A commit, which has all that is left.
#[tactic(auto, unfolding(crate::specs::Decoding::commit_at))]
#[inline(always)]
fn commit_at<'a>(limits: &FrameLimits, bytes: &'a [u8]) -> Option<Commit<'a>>
    ensures { option_map commit_value result ≡ reading.commit_at (limits_value limits.now) bytes.now }
{
    let (target, rest) = byte_at(bytes)?;
    let (word, rest) = u64_at(rest)?;
    let (patches, payload) = counted_at(rest)?;
    let header = ChunkHeader::unpack(word);
    if is_buffer(limits, target) && holds(limits, header.writer_id, payload) {
        Some(Commit {
            target,
            header,
            patches,
            payload,
        })
    } else {
        None
    }
}

#[tactic(auto, unfolding(crate::specs::Decoding::buffer_at))]
fn buffer_at(limits: &FrameLimits, bytes: &[u8]) -> Option<u8>
    ensures { result ≡ reading.buffer_at (limits_value limits.now) bytes.now }
{
    let (buffer, rest) = byte_at(bytes)?;
    if is_buffer(limits, buffer) && rest.is_empty() {
        Some(buffer)
    } else {
        None
    }
}

/// The frame of this kind that has these bytes behind it.
#[tactic(auto, unfolding(crate::specs::Decoding::frame_of))]
#[inline(always)]
fn frame_of<'a>(limits: &FrameLimits, kind: u8, bytes: &'a [u8]) -> Option<Frame<'a>>
    ensures { option_map frame_value result ≡ reading.frame_of (limits_value limits.now) kind bytes.now }
{
    match kind {
        COMMIT => {
            let commit = commit_at(limits, bytes)?;
            Some(Frame::Commit(commit))
        }
        READ => {
            let buffer = buffer_at(limits, bytes)?;
            Some(Frame::Read { buffer })
        }
        CLOSE => {
            if bytes.is_empty() {
                Some(Frame::Close)
            } else {
                None
            }
        }
        _ => None,
    }
}

/// The frame that has these bytes behind its length.
#[tactic(auto, unfolding(crate::specs::Decoding::decoded))]
#[inline(always)]
pub fn decode<'a>(limits: &FrameLimits, bytes: &'a [u8]) -> Option<Frame<'a>>
    ensures decoded { option_map frame_value result ≡ reading.decoded (limits_value limits.now) bytes.now }
    ensures frame { IfSome result (λ frame. IsFrame (limits_value limits.now) (frame_value frame)) }
{
    let (kind, rest) = byte_at(bytes)?;
    frame_of(limits, kind, rest)
}
