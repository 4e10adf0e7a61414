//! The record that a read holds while it stays in its chunk, so that not each packet looks it up.
ghost use Rattle.std.specs.Prelude.{◌≡◌};
ghost use Rattle.sequence_reader.specs.Spots.{IsHeld};

use crate::spot::Bounds;
use trace_buffer::TraceBuffer;

/// A chunk, and where its record lies, if it has one.
#[derive(Clone, Copy, Debug, PartialEq, Eq)]
pub struct Held {
    pub chunk_id: u64,
    pub place: Option<u32>,
}

impl Held {
    pub fn of(buffer: &TraceBuffer, bounds: Bounds, chunk_id: u64) -> Held
        ensures held { IsHeld buffer.now bounds.sequence result }
        ensures here { result.chunk_id ≡ chunk_id }
    {
        Held {
            chunk_id,
            place: buffer.place_of(bounds.sequence, chunk_id),
        }
    }

    /// The same of another chunk, or of this one.
    pub fn at(self, buffer: &TraceBuffer, bounds: Bounds, chunk_id: u64) -> Held
        requires { IsHeld buffer.now bounds.sequence self }
        ensures held { IsHeld buffer.now bounds.sequence result }
        ensures here { result.chunk_id ≡ chunk_id }
    {
        if self.chunk_id == chunk_id {
            return self;
        }
        Held::of(buffer, bounds, chunk_id)
    }
}
