//! A whole stream that is looked at, with nothing played.
ghost use Rattle.std.specs.Prelude.{◌≡◌, ◌≤◌, length, IfOk, IfErr, Err};
ghost use Rattle.stream_frames.specs.Framing.{verdict_on, ends_at};
ghost use Rattle.stream_frames.specs.Values.{limits_value};

use crate::frame::FrameLimits;
use crate::front::{Front, front_of};
use thiserror::Error;

/// What is wrong with a stream.
#[derive(Clone, Copy, Debug, PartialEq, Eq, Error)]
pub enum FrameFault {
    /// The first byte of the first frame that is none, or the first one behind a close.
    #[error("offset {offset}: bad frame")]
    BadFrame { offset: u64 },
    /// The stream ends without a close. This is its length.
    #[error("offset {offset}: no end")]
    NoEnd { offset: u64 },
}

/// Where the stream's close ends.
fn end_of_frames(limits: &FrameLimits, stream: &[u8]) -> Result<usize, FrameFault>
    ensures ends { IfOk result (λ end. (end ≤ length stream.now)
        × (verdict_on (limits_value limits.now) stream.now ≡ ends_at end (length stream.now))) }
    ensures fault { IfErr result (λ fault. verdict_on (limits_value limits.now) stream.now ≡ Err fault) }
{
    let mut at = 0;
    loop {
        match front_of(limits, &stream[at..]) {
            Front::Short => {
                let offset = stream.len() as u64;
                return Err(FrameFault::NoEnd { offset });
            }
            Front::Bad => return Err(FrameFault::BadFrame { offset: at as u64 }),
            Front::Whole { frame, size } => {
                at += size;
                if frame.closes() {
                    return Ok(at);
                }
            }
        }
    }
}

/// Looks at all frames of a stream.
pub fn check_frames(limits: &FrameLimits, stream: &[u8]) -> Result<(), FrameFault>
    ensures { result ≡ verdict_on (limits_value limits.now) stream.now }
{
    let end = end_of_frames(limits, stream)?;
    if end < stream.len() {
        return Err(FrameFault::BadFrame { offset: end as u64 });
    }
    Ok(())
}
