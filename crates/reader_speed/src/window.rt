//! A sink that keeps the last bytes that it took.
ghost use Rattle.std.specs.Prelude.{◌≡◌, ◌^◌, ◌<◌, ◌≤◌, vec_len};

use byte_io::traits::{Failed, Sink};
use std::alloc::{AllocError, Global};

#[derive(Drop)]
pub struct Window {
    bytes: Vec<u8>,
    at: usize,
    faults: u64,
    ghost within: { at ≤ vec_len bytes },
    ghost count_fits: { faults < 2 ^ 64 },
}

impl Window {
    pub fn make(alloc: Global, size: usize) -> Result<Window, AllocError> {
        let bytes = vec![in alloc; 0; size]?;
        Ok(Window {
            bytes,
            at: 0,
            faults: 0,
        })
    }
}

impl Sink for Window {
    ghost use Rattle.std.specs.Prelude.{⊤, []};
    ghost use Rattle.byte_io.specs.Bytes.{untold};

    ghost taken = { λ _. untold [] };

    ghost faults = { λ sink. sink.faults };

    ghost may_write = { λ _. ⊤ };

    ghost count_fits = { λ sink. sink.count_fits };

    fn write(&mut self, piece: &[u8]) -> Result<usize, Failed> {
        if self.bytes.len() - self.at < piece.len() {
            self.at = 0;
        }
        let at = self.at;
        if self.bytes.len() - at < piece.len() {
            self.faults = self.faults.saturating_add(1);
            return Err(Failed);
        }
        self.bytes[at..at + piece.len()].copy_from_slice(piece);
        self.at = at + piece.len();
        Ok(piece.len())
    }
}
