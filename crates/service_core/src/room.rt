//! Room for the payload of one chunk.
ghost use Rattle.std.specs.Prelude.{◌≡◌, ◌<◌, ◌≤◌, length, take, vec_len};
ghost use Rattle.trace_base.specs.declared.limits.TheConstants.{MAX_PAGE_SIZE};
ghost use Rattle.chunk_plain.specs.Setup.{spot};
ghost use Rattle.service_core.specs.Looking.{LoadsFound};

use chunk_plain::Words;
use std::alloc::{AllocError, Global};
use trace_base::limits::MAX_PAGE_SIZE;

/// Room for any payload: each is smaller than the largest page.
#[derive(Drop)]
pub(crate) struct Room {
    bytes: Vec<u8>,
    ghost whole: { vec_len bytes ≡ MAX_PAGE_SIZE },
}

/// Loads the payload of a chunk, which has this size, into the first bytes.
fn load_front<W: Words>(
    table: &mut W,
    seat: &mut W::Service,
    chunk: u32,
    size: u32,
    into: &mut [u8],
)
    requires serves { W.means.serves table.old seat.old }
    requires chunk { chunk < length (W.means.setup table.old).spots }
    requires size { size ≡ (spot (W.means.setup table.old) chunk).payload_size }
    requires fits { size ≤ length into.old }
    ensures long { length into.new ≡ length into.old }
    ensures loads { LoadsFound W.means chunk (take size into.new) table.old seat.old table.new seat.new }
{
    table.load(seat, chunk, &mut into[..size as usize]);
}

impl Room {
    pub(crate) fn make(alloc: Global) -> Result<Room, AllocError> {
        Ok(Room {
            bytes: vec![in alloc; 0; MAX_PAGE_SIZE as usize]?,
        })
    }

    /// Loads the payload of a chunk, which has this size, into the front of the room.
    pub(crate) fn load<W: Words>(
        &mut self,
        table: &mut W,
        seat: &mut W::Service,
        chunk: u32,
        size: u32,
    )
        requires serves { W.means.serves table.old seat.old }
        requires chunk { chunk < length (W.means.setup table.old).spots }
        requires size { size ≡ (spot (W.means.setup table.old) chunk).payload_size }
        requires small { size < MAX_PAGE_SIZE }
        ensures { LoadsFound W.means chunk (take size self.new.bytes.items) table.old seat.old table.new seat.new }
    {
        load_front(table, seat, chunk, size, &mut self.bytes);
    }

    /// The first bytes of it.
    pub(crate) fn front(&self, size: u32) -> &[u8]
        requires { size < MAX_PAGE_SIZE }
        ensures bytes { result.now ≡ take size self.now.bytes.items }
        ensures long { length result.now ≡ size }
    {
        &self.bytes[..size as usize]
    }
}
