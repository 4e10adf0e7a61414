//! What a chunk is used for.
ghost use Rattle.std.specs.Prelude.{◌≡◌, ◌<◌};
ghost use Rattle.page_geometry.specs.PageBits.{state_number};

/// Who uses a chunk. A page word has its number, 0 to 3 in this order, in two bits.
#[derive(Clone, Copy, Debug, PartialEq, Eq)]
pub enum ChunkState {
    /// Nobody, or a writer that has claimed the chunk and not begun it.
    Free,
    BeingWritten,
    BeingRead,
    Complete,
}

impl ChunkState {
    pub fn number(self) -> u8
        ensures { result ≡ state_number self }
    {
        self as u8
    }

    pub fn from_number(number: u8) -> Self
        requires { number < 4 }
        ensures { state_number result ≡ number }
    {
        match number {
            0 => ChunkState::Free,
            1 => ChunkState::BeingWritten,
            2 => ChunkState::BeingRead,
            _ => ChunkState::Complete,
        }
    }
}
