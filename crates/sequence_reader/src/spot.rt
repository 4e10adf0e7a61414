//! Where a reader stands.
ghost use Rattle.std.specs.Prelude.{◌≡◌, ◌+◌, ◌<◌, ◌≤◌, ◌^◌, true, length, IsTrue};
ghost use Rattle.trace_model.specs.Sequences.{is_known, sequence_in};
ghost use Rattle.trace_model.specs.Reading.{reading_of, is_readable, fragments_of};
ghost use Rattle.trace_buffer.specs.Answers.{cursor_value};
ghost use Rattle.sequence_reader.specs.Spots.{AreBounds, IsSpot, rows_of, cursor_of, start_from};

use crate::bools::both;
use chunk_image::read_fragment;
use trace_buffer::{Cursor, TraceBuffer};

/// What a read keeps of its sequence.
#[derive(Clone, Copy, Debug, PartialEq, Eq)]
pub struct Bounds {
    pub sequence: u32,
    pub closed: bool,
    /// One above the last chunk that can be met.
    pub end: u64,
}

/// A place in a sequence, and where its fragment begins in the chunk's payload.
#[derive(Clone, Copy, Debug, PartialEq, Eq)]
pub struct Spot {
    pub chunk_id: u64,
    pub passed: u16,
    pub offset: u32,
}

impl Spot {
    /// The start of a chunk.
    pub fn at_start(chunk_id: u64) -> Spot
        ensures { result ≡ record { chunk_id = chunk_id; passed = 0; offset = 0 } }
    {
        Spot {
            chunk_id,
            passed: 0,
            offset: 0,
        }
    }

    pub fn cursor(self) -> Cursor
        ensures { cursor_value result ≡ cursor_of self }
    {
        Cursor {
            chunk_id: self.chunk_id,
            passed: self.passed,
        }
    }
}

/// Where the fragment with this number begins, with its size.
fn start_of(payload: &[u8], count: u16, number: u16) -> u32
    requires small { length payload.now ≤ 2 ^ 26 }
    requires reads { is_readable (reading_of count payload.now) ≡ true }
    requires less { number < count }
    ensures { result ≡ start_from 0 number (fragments_of (reading_of count payload.now)) }
{
    let mut at = 0;
    let mut passed = 0;
    while passed < number {
        let Some(fragment) = read_fragment(&payload[at as usize..], at, false) else {
            unreachable!()
        };
        at = fragment.offset + fragment.bytes.len() as u32;
        passed += 1;
    }
    at
}

/// The spot of a reader's cursor. Where nothing is left of its chunk, it is the start of the next one.
pub fn find_spot(buffer: &TraceBuffer, bounds: Bounds, cursor: Cursor) -> Spot
    requires bounds { AreBounds buffer.now bounds }
    ensures spot { IsSpot buffer.now bounds result }
    ensures row { rows_of buffer.now bounds.sequence (cursor_value cursor) ≡ rows_of buffer.now bounds.sequence (cursor_of result) }
{
    let Cursor { chunk_id, passed } = cursor;
    let here = Spot {
        chunk_id,
        passed,
        offset: 0,
    };
    if passed == 0 || chunk_id >= bounds.end {
        return here;
    }
    let Some((key, payload)) = buffer.image_of(bounds.sequence, chunk_id) else {
        return here;
    };
    if passed < key.count {
        let offset = start_of(payload, key.count, passed);
        return Spot { offset, ..here };
    }
    if both(key.partial, !bounds.closed) {
        return here;
    }
    Spot::at_start(chunk_id + 1)
}
