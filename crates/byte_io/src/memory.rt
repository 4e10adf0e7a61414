//! A source and a sink in memory, for callers that have their bytes there, and for tests.
ghost use Rattle.std.specs.Prelude.{⊤, ◌≡◌, ℕ, ◌+◌, ◌-◌, ◌^◌, ◌<◌, ◌≤◌, ◌↔◌, List, [], length, min, take, vec_len, vec_capacity, Some, Ok, IfOk, OnErr, IfSome, IsErr};
ghost use Rattle.byte_io.specs.Bytes.{Intake, told, before_told, after_told, CountsFaults};
ghost use Rattle.std.proofs.Common.{lit<};

use super::traits::{Failed, Sink, Source};
use std::alloc::{AllocError, Global};

/// Gives the bytes that it was made with, and never fails.
#[derive(Drop)]
pub struct MemSource {
    bytes: Vec<u8>,
    at: usize,
    ghost within: { at ≤ vec_len bytes },
}

impl MemSource {
    ghost use Rattle.byte_io.specs.Memory.{mem_source_left};

    /// A source of these bytes, from the first on.
    pub fn new(bytes: Vec<u8>) -> MemSource
        ensures { mem_source_left result ≡ bytes.items }
    {
        MemSource { bytes, at: 0 }
    }
}

impl Source for MemSource {
    ghost use Rattle.byte_io.specs.Memory.{mem_source_left};

    ghost left = { λ source. Some (mem_source_left source) };

    ghost faults = { λ _. 0 };

    ghost may_ask = { λ _. ⊤ };

    ghost count_fits = { λ _. lit< tt };

    fn read(&mut self, into: &mut [u8]) -> Result<usize, Failed>
        ensures exact { result ≡ Ok (min (length into.old) (length (mem_source_left self.old))) }
        ensures within { IfOk result (λ count. count ≤ length into.new) }
        ensures end { IfOk result (λ count. count ≡ 0 → 0 < length into.new → mem_source_left self.new ≡ []) }
        ensures bytes { IfOk result (λ count. Some (mem_source_left self.old)
            ≡ before_told (take count into.new) (Some (mem_source_left self.new))) }
    {
        let count = copy_front(&self.bytes[self.at..], into);
        self.at += count;
        Ok(count)
    }
}

// Copies as many bytes as both have, and says how many.
fn copy_front(from: &[u8], into: &mut [u8]) -> usize
    ensures count { result ≡ min (length into.old) (length from.now) }
    ensures front { take result into.new ≡ take result from.now }
{
    let count = into.len().min(from.len());
    into[..count].copy_from_slice(&from[..count]);
    count
}

/// Takes bytes up to its room, and fails where a byte is to be written and none is left.
#[derive(Drop)]
pub struct MemSink {
    taken: Vec<u8>,
    room: usize,
    faults: u64,
    ghost within: { vec_len taken ≤ room },
    ghost has_room: { room ≤ vec_capacity taken },
    ghost count_fits: { faults < 2 ^ 64 },
}

impl MemSink {
    ghost use Rattle.byte_io.specs.Memory.{mem_sink_taken, mem_sink_room, mem_sink_faults};

    /// An empty sink. Its room is in bytes, and all its memory is taken here.
    pub fn with_room(alloc: Global, room: usize) -> Result<MemSink, AllocError>
        ensures empty { IfOk result (λ sink. mem_sink_taken sink ≡ []) }
        ensures room { IfOk result (λ sink. mem_sink_room sink ≡ room) }
        ensures faults { IfOk result (λ sink. mem_sink_faults sink ≡ 0) }
    {
        let taken = Vec::with_capacity(alloc, room)?;
        Ok(MemSink {
            taken,
            room,
            faults: 0,
        })
    }

    /// The bytes that were written, in order.
    pub fn taken(&self) -> &[u8]
        ensures { result.now ≡ mem_sink_taken self.now }
    {
        self.taken.as_slice()
    }
}

impl Sink for MemSink {
    ghost use Rattle.byte_io.specs.Memory.{mem_sink_taken, mem_sink_room, mem_sink_faults};

    ghost taken = { λ sink. told (mem_sink_taken sink) [] };

    ghost faults = { λ sink. mem_sink_faults sink };

    ghost may_write = { λ _. ⊤ };

    ghost count_fits = { λ sink. sink.count_fits };

    fn write(&mut self, piece: &[u8]) -> Result<usize, Failed>
        ensures fails { IsErr result ↔ ((0 < length piece.now) × (mem_sink_room self.old ≤ length (mem_sink_taken self.old))) }
        ensures exact { IfOk result (λ count. count ≡ min (length piece.now) (mem_sink_room self.old - length (mem_sink_taken self.old))) }
        ensures bytes { IfOk result (λ count. told (mem_sink_taken self.new) []
            ≡ after_told (told (mem_sink_taken self.old) []) (take count piece.now)) }
        ensures err { OnErr result (told (mem_sink_taken self.new) [] ≡ told (mem_sink_taken self.old) []) }
        ensures count { CountsFaults (mem_sink_faults self.old) (mem_sink_faults self.new) result }
        ensures room { mem_sink_room self.new ≡ mem_sink_room self.old }
    {
        let count = piece.len().min(self.room - self.taken.len());
        if count == 0 && !piece.is_empty() {
            self.faults = self.faults.saturating_add(1);
            return Err(Failed);
        }
        match self.taken.extend_from_slice(&piece[..count]) {
            Ok(()) => Ok(count),
            Err(_) => unreachable!(),
        }
    }
}
