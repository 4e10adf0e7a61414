//! What stands at one place of a row.
ghost use Rattle.std.specs.Prelude.{◌≡◌, ◌+◌, ◌<◌, ◌≤◌, ◌^◌, true, None, length};
ghost use Rattle.trace_model.specs.Buffers.{live_at};
ghost use Rattle.trace_model.specs.Reading.{reading_of, is_readable};
ghost use Rattle.trace_buffer.specs.Records.{chunk_of};
ghost use Rattle.sequence_reader.specs.Spots.{AreBounds, FitsChunk, IsSpot, IsHeld};
ghost use Rattle.sequence_reader.specs.Steps.{Shows, ShowsIn, spot_behind};

use crate::bools::both;
use crate::ends::Why;
use crate::held::Held;
use crate::spot::{Bounds, Spot};
use chunk_image::read_fragment;
use page_geometry::{FIRST_CONTINUES, LAST_CONTINUES};
use ring_bytes::RecordKey;
use trace_buffer::TraceBuffer;

/// A fragment in its place.
#[derive(Clone, Copy, Debug, PartialEq, Eq)]
pub struct Piece<'a> {
    pub bytes: &'a [u8],
    /// Its writer couldn't write the rest of the packet.
    pub dropped: bool,
    /// It continues the packet of the chunk before.
    pub headless: bool,
    pub runs_on: bool,
    /// Four bytes of it are still to come.
    pub awaits: bool,
    pub behind: Spot,
}

/// What stands at a place.
#[derive(Clone, Copy, Debug, PartialEq, Eq)]
pub enum Step<'a> {
    Fragment { piece: Piece<'a> },
    /// A chunk that isn't there; whether it was lost.
    Gap { lost: bool },
    /// The stop place; whether a packet may run on into it.
    Stop { why: Why, may: bool },
}

/// What stands at a spot.
#[inline(always)]
pub fn look_at(buffer: &TraceBuffer, bounds: Bounds, spot: Spot) -> Step<'_>
    requires bounds { AreBounds buffer.now bounds }
    requires spot { IsSpot buffer.now bounds spot }
    ensures shows { Shows buffer.now bounds spot result }
{
    look_in(
        buffer,
        bounds,
        spot,
        Held::of(buffer, bounds, spot.chunk_id),
    )
}

/// The same by the place of the record. It and its cases are no calls, so that a step doesn't go through
/// memory, in parts that would have to be waited for.
#[inline(always)]
pub fn look_in(buffer: &TraceBuffer, bounds: Bounds, spot: Spot, held: Held) -> Step<'_>
    requires bounds { AreBounds buffer.now bounds }
    requires spot { IsSpot buffer.now bounds spot }
    requires held { IsHeld buffer.now bounds.sequence held }
    requires here { held.chunk_id ≡ spot.chunk_id }
    ensures shows { Shows buffer.now bounds spot result }
{
    if spot.chunk_id >= bounds.end {
        return if bounds.closed {
            Step::Stop {
                why: Why::End,
                may: false,
            }
        } else {
            missing(spot)
        };
    }
    match held.place {
        Some(place) => {
            let (key, payload) = buffer.image_at(bounds.sequence, spot.chunk_id, place);
            present(key, payload, bounds.closed, spot)
        }
        None => absent(buffer, bounds, spot),
    }
}

/// The stop before a chunk that hasn't arrived.
fn missing(spot: Spot) -> Step<'static>
    ensures { result ≡ Step.Stop (Why.Missing spot.chunk_id) true }
{
    Step::Stop {
        why: Why::Missing {
            chunk_id: spot.chunk_id,
        },
        may: true,
    }
}

/// What stands where no record of the chunk is.
#[inline(always)]
fn absent(buffer: &TraceBuffer, bounds: Bounds, spot: Spot) -> Step<'_>
    requires bounds { AreBounds buffer.now bounds }
    requires before { spot.chunk_id < bounds.end }
    requires none { live_at buffer.now bounds.sequence spot.chunk_id ≡ None }
    ensures shows { Shows buffer.now bounds spot result }
{
    if buffer.lost(bounds.sequence, spot.chunk_id) {
        return Step::Gap { lost: true };
    }
    if bounds.closed {
        return Step::Gap { lost: false };
    }
    missing(spot)
}

/// What stands where a chunk has a record with this header and this payload.
#[inline(always)]
fn present(key: RecordKey, payload: &[u8], closed: bool, spot: Spot) -> Step<'_>
    requires small { length payload.now ≤ 2 ^ 26 }
    requires reads { is_readable (reading_of key.count payload.now) ≡ true }
    requires fits { FitsChunk closed (chunk_of key payload.now) spot }
    requires low { spot.chunk_id < 2 ^ 33 }
    ensures shows { ShowsIn closed (chunk_of key payload.now) spot result }
{
    if spot.passed >= key.count {
        return Step::Stop {
            why: Why::Partial {
                chunk_id: spot.chunk_id,
            },
            may: false,
        };
    }
    let last = spot.passed + 1 == key.count;
    let headless = both(key.flags % 2 == FIRST_CONTINUES, spot.passed == 0);
    let awaits = both(key.awaits, last);
    if both(awaits, !closed) {
        return Step::Stop {
            why: Why::Unpatched {
                chunk_id: spot.chunk_id,
            },
            may: headless,
        };
    }
    let Some(fragment) = read_fragment(&payload[spot.offset as usize..], spot.offset, last) else {
        unreachable!()
    };
    let end = fragment.offset + fragment.bytes.len() as u32;
    let stays = both(key.partial, !closed);
    Step::Fragment {
        piece: Piece {
            bytes: fragment.bytes,
            dropped: fragment.dropped,
            headless,
            runs_on: both(key.flags / LAST_CONTINUES % 2 == 1, last),
            awaits,
            behind: spot_behind(spot, end, both(last, !stays)),
        },
    }
}

/// The spot behind a fragment, which is the next chunk's first one where this one was the last.
pub fn spot_behind(spot: Spot, end: u32, ended: bool) -> Spot
    requires chunk { spot.chunk_id + 1 < 2 ^ 64 }
    requires passed { spot.passed + 1 < 2 ^ 16 }
    ensures { result ≡ spot_behind spot end ended }
{
    if ended {
        return Spot::at_start(spot.chunk_id + 1);
    }
    Spot {
        chunk_id: spot.chunk_id,
        passed: spot.passed + 1,
        offset: end,
    }
}
