//! Bytes of the trace that were read and wait to be handed out.
ghost use Rattle.std.specs.Prelude.{⊤, ◌≡◌, ◌^◌, ◌<◌, ◌≤◌, true, [], ◌++◌, length, take, drop, vec_len};
ghost use Rattle.byte_io.specs.Bytes.{told};

use byte_io::traits::{Failed, Sink};
use std::alloc::Global;

/// A sink that grows, and fails only where memory runs out.
#[derive(Drop)]
pub struct Growing {
    pub(crate) bytes: Vec<u8>,
    pub(crate) faults: u64,
    ghost count_fits: { faults < 2 ^ 64 },
}

impl Sink for Growing {
    ghost taken = { λ sink. told sink.bytes.items [] };

    ghost faults = { λ sink. sink.faults };

    ghost may_write = { λ _. ⊤ };

    ghost count_fits = { λ sink. sink.count_fits };

    fn write(&mut self, piece: &[u8]) -> Result<usize, Failed> {
        match self.bytes.extend_from_slice(piece) {
            Ok(()) => Ok(piece.len()),
            Err(_) => {
                self.faults = self.faults.saturating_add(1);
                Err(Failed)
            }
        }
    }
}

/// What was read, of which so many bytes were handed out.
#[derive(Drop)]
pub struct Waiting {
    pub(crate) read: Growing,
    pub(crate) handed: usize,
    ghost within: { handed ≤ vec_len read.bytes },
}

impl Waiting {
    ghost use Rattle.tracesmb_c.specs.Waits.{bytes_in, left_in};

    /// Nothing waits.
    pub fn new(alloc: Global) -> Waiting
        ensures bytes { bytes_in result ≡ [] }
        ensures left { left_in result ≡ [] }
    {
        Waiting {
            read: Growing {
                bytes: Vec::new(alloc),
                faults: 0,
            },
            handed: 0,
        }
    }

    /// Whether all was handed out.
    pub fn is_done(&self) -> bool
        ensures none { result ≡ true → left_in self.now ≡ [] }
        ensures done { left_in self.now ≡ [] → result ≡ true }
    {
        self.handed == self.read.bytes.len()
    }

    /// Forgets all.
    pub fn clear(&mut self)
        ensures bytes { bytes_in self.new ≡ [] }
        ensures handed { self.new.handed ≡ 0 }
    {
        self.handed = 0;
        self.read.bytes.clear();
    }

    /// Hands out what comes next: as much as the room takes.
    pub fn hand_out(&mut self, room: &mut [u8]) -> usize
        ensures within { result ≤ length room.new }
        ensures room { length room.new ≡ length room.old }
        ensures given { left_in self.old ≡ take result room.new ++ left_in self.new }
        ensures behind { drop result room.new ≡ drop result room.old }
        ensures some { result ≡ 0 → 0 < length room.old → left_in self.old ≡ [] }
    {
        let rest = &self.read.bytes[self.handed..];
        let count = room.len().min(rest.len());
        room[..count].copy_from_slice(&rest[..count]);
        self.handed += count;
        count
    }
}
