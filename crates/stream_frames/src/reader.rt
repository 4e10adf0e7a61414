//! A stream that comes in pieces.
ghost use Rattle.std.specs.Prelude.{◌≡◌, ◌+◌, ◌^◌, ◌<◌, ◌≤◌, ◌==◌, false, [], length, vec_capacity, IfOk};
ghost use Rattle.stream_frames.specs.Framing.{reach};
ghost use Rattle.stream_frames.specs.declared.reader.TheConstants.{ROOM};

use crate::frame::FrameLimits;
use crate::front::{Front, LENGTH_SIZE, MAX_FRAME, front_of};
use std::alloc::{AllocError, Global};

/// The bytes of the largest frame with its length.
const ROOM: usize = LENGTH_SIZE + MAX_FRAME;

/// How many bytes are needed next behind these: those of the length, or those of the frame.
fn wanted(have: &[u8]) -> usize
    requires { length have.now < reach have.now }
    ensures { length have.now + result ≡ reach have.now }
{
    if have.len() < LENGTH_SIZE {
        return LENGTH_SIZE - have.len();
    }
    let (front, _behind) = have.split_at(LENGTH_SIZE);
    let size = u32::from_le_bytes([front[0], front[1], front[2], front[3]]);
    LENGTH_SIZE + size as usize - have.len()
}

/// The frame that is being read, with room for any one.
#[derive(Drop)]
pub struct FrameReader {
    pub(crate) limits: FrameLimits,
    /// Where in the stream the frame begins.
    pub(crate) at: u64,
    /// Its bytes so far.
    pub(crate) have: Vec<u8>,
    /// The frame before was a close.
    pub(crate) closed: bool,
    ghost room: { ROOM ≤ vec_capacity have },
}

impl FrameReader {
    ghost use Rattle.stream_frames.specs.Framing as framing;
    ghost use Rattle.stream_frames.specs.Framing.{between, beginning};
    ghost use Rattle.stream_frames.specs.Reads.{IsReading, TakesBytes};
    ghost use Rattle.stream_frames.specs.Values.{limits_value, limits_of, feeding_of, front_value, IsFrameOf};

    /// A reader at a stream's beginning. The room for one frame is taken here.
    pub fn make(alloc: Global, limits: FrameLimits) -> Result<FrameReader, AllocError>
        ensures limits { IfOk result (λ reader. limits_of reader ≡ limits_value limits) }
        ensures feeding { IfOk result (λ reader. feeding_of reader ≡ beginning) }
        ensures reading { IfOk result (λ reader. IsReading (limits_of reader) (feeding_of reader)) }
    {
        Ok(FrameReader {
            limits,
            at: 0,
            have: Vec::with_capacity(alloc, ROOM)?,
            closed: false,
        })
    }

    /// What frames may name.
    pub fn limits(&self) -> &FrameLimits
        ensures { limits_value result.now ≡ limits_of self.now }
    {
        &self.limits
    }

    /// Whether the stream is closed, so that no byte may follow.
    pub fn is_closed(&self) -> bool
        ensures { result ≡ (feeding_of self.now).closed }
    {
        self.closed
    }

    /// Where in the stream the frame begins that is read now.
    pub fn offset(&self) -> u64
        ensures { result ≡ (feeding_of self.now).at }
    {
        self.at
    }

    /// Whether no byte of a frame has come.
    pub fn is_between(&self) -> bool
        ensures { result ≡ (length (feeding_of self.now).have == 0) }
    {
        self.have.is_empty()
    }

    /// How many bytes of the stream have come.
    pub fn stream_len(&self) -> u64
        requires { (feeding_of self.now).at + length (feeding_of self.now).have < 2 ^ 64 }
        ensures { result ≡ (feeding_of self.now).at + length (feeding_of self.now).have }
    {
        self.at + self.have.len() as u64
    }

    /// Takes bytes of the piece, at most up to the frame's end, and says how many.
    pub fn take(&mut self, piece: &[u8]) -> usize
        requires reading { IsReading (limits_of self.old) (feeding_of self.old) }
        requires open { (feeding_of self.old).closed ≡ false }
        requires some { 0 < length piece.now }
        ensures takes { TakesBytes (limits_of self.old) (feeding_of self.old) piece.now result (feeding_of self.new) }
        ensures limits { limits_of self.new ≡ limits_of self.old }
    {
        let count = wanted(&self.have).min(piece.len());
        match self.have.extend_from_slice(&piece[..count]) {
            Ok(()) => count,
            Err(_) => unreachable!(),
        }
    }

    /// What stands there of the frame.
    pub fn front(&self) -> Front<'_>
        ensures front { front_value result ≡ framing.front_of (limits_of self.now) (feeding_of self.now).have }
        ensures frame { IsFrameOf (limits_of self.now) result }
    {
        front_of(&self.limits, &self.have)
    }

    /// Goes on behind the frame, whose bytes are all there. The stream ends with one that closes.
    pub fn advance(&mut self, closes: bool)
        requires { (feeding_of self.old).at + length (feeding_of self.old).have < 2 ^ 64 }
        ensures feeding { feeding_of self.new ≡ between ((feeding_of self.old).at + length (feeding_of self.old).have) closes }
        ensures limits { limits_of self.new ≡ limits_of self.old }
        ensures reading { IsReading (limits_of self.new) (feeding_of self.new) }
    {
        self.at += self.have.len() as u64;
        self.have.clear();
        self.closed = closes;
    }

    /// Goes on behind a frame of so many bytes, of which the reader took none.
    pub fn pass(&mut self, size: usize, closes: bool)
        requires between { (feeding_of self.old).have ≡ [] }
        requires length { (feeding_of self.old).at + size < 2 ^ 64 }
        ensures feeding { feeding_of self.new ≡ between ((feeding_of self.old).at + size) closes }
        ensures limits { limits_of self.new ≡ limits_of self.old }
        ensures reading { IsReading (limits_of self.new) (feeding_of self.new) }
    {
        self.at += size as u64;
        self.closed = closes;
    }
}
