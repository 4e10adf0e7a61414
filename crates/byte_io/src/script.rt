//! A source and a sink that fail at listed calls, to test what a caller does about a fault.
ghost use Rattle.std.specs.Prelude.{⊤, ◌≡◌, ℕ, ◌+◌, ◌-◌, ◌^◌, ◌<◌, ◌≤◌, ◌↔◌, ◌⊎◌, List, [], length, min, take, Some, IfOk, OnErr, IsErr, IsTrue};
ghost use Rattle.byte_io.specs.Bytes.{Intake, told, before_told, after_told, CountsFaults};
ghost use Rattle.byte_io.specs.Calls.{FailsNext, calls_after};

use super::memory::{MemSink, MemSource};
use super::traits::{Failed, Sink, Source};
use std::alloc::{AllocError, Global};

// The calls of an object, numbered from 1 on, and which of them fail.
#[derive(Drop)]
struct CallScript {
    failing: Vec<u64>,
    calls: u64,
}

impl CallScript {
    fn new(failing: Vec<u64>) -> CallScript
        ensures failing { result.failing.items ≡ failing.items }
        ensures calls { result.calls ≡ 0 }
    {
        CallScript { failing, calls: 0 }
    }

    // Counts a call, and says whether it fails. The calls after the last number don't.
    fn next_fails(&mut self) -> bool
        ensures fails { IsTrue result ↔ FailsNext self.old.failing.items self.old.calls }
        ensures failing { self.new.failing.items ≡ self.old.failing.items }
        ensures calls { self.new.calls ≡ calls_after self.old.calls }
    {
        match self.calls.checked_add(1) {
            Some(number) => {
                self.calls = number;
                self.failing.contains(&number)
            }
            None => false,
        }
    }
}

/// Gives the bytes that it was made with, so many at most in a call, and fails at the calls
/// whose numbers are listed. The first call has the number 1.
#[derive(Drop)]
pub struct ScriptSource {
    bytes: MemSource,
    piece: usize,
    script: CallScript,
    faults: u64,
    ghost gives_some: { 0 < piece },
    ghost count_fits: { faults < 2 ^ 64 },
}

impl ScriptSource {
    ghost use Rattle.byte_io.specs.Script.{script_source_left, script_source_piece, script_source_failing, script_source_calls, script_source_faults};

    /// `piece` is in bytes, and `failing` may be in any order.
    pub fn new(bytes: Vec<u8>, piece: usize, failing: Vec<u64>) -> ScriptSource
        requires { 0 < piece }
        ensures left { script_source_left result ≡ bytes.items }
        ensures piece { script_source_piece result ≡ piece }
        ensures failing { script_source_failing result ≡ failing.items }
        ensures calls { script_source_calls result ≡ 0 }
        ensures faults { script_source_faults result ≡ 0 }
    {
        ScriptSource {
            bytes: MemSource::new(bytes),
            piece,
            script: CallScript::new(failing),
            faults: 0,
        }
    }
}

impl Source for ScriptSource {
    ghost use Rattle.byte_io.specs.Script.{script_source_left, script_source_piece, script_source_failing, script_source_calls, script_source_faults};

    ghost left = { λ source. Some (script_source_left source) };

    ghost faults = { λ source. script_source_faults source };

    ghost may_ask = { λ _. ⊤ };

    ghost count_fits = { λ source. source.count_fits };

    fn read(&mut self, into: &mut [u8]) -> Result<usize, Failed>
        ensures fails { IsErr result ↔ FailsNext (script_source_failing self.old) (script_source_calls self.old) }
        ensures exact { IfOk result (λ count. count
            ≡ min (min (length into.old) (script_source_piece self.old)) (length (script_source_left self.old))) }
        ensures within { IfOk result (λ count. count ≤ length into.new) }
        ensures bytes { IfOk result (λ count. Some (script_source_left self.old)
            ≡ before_told (take count into.new) (Some (script_source_left self.new))) }
        ensures end { IfOk result (λ count. count ≡ 0 → 0 < length into.new → script_source_left self.new ≡ []) }
        ensures err { OnErr result (Some (script_source_left self.new) ≡ Some (script_source_left self.old)) }
        ensures count { CountsFaults (script_source_faults self.old) (script_source_faults self.new) result }

        ensures calls { script_source_calls self.new ≡ calls_after (script_source_calls self.old) }
        ensures failing { script_source_failing self.new ≡ script_source_failing self.old }
        ensures piece { script_source_piece self.new ≡ script_source_piece self.old }
    {
        if self.script.next_fails() {
            self.faults = self.faults.saturating_add(1);
            return Err(Failed);
        }
        let most = into.len().min(self.piece);
        self.bytes.read(&mut into[..most])
    }
}

/// Takes bytes up to its room. It fails where a byte is to be written and none is left, and at
/// the calls whose numbers are listed. The first call has the number 1.
#[derive(Drop)]
pub struct ScriptSink {
    bytes: MemSink,
    script: CallScript,
    faults: u64,
    ghost count_fits: { faults < 2 ^ 64 },
}

impl ScriptSink {
    ghost use Rattle.byte_io.specs.Script.{script_sink_taken, script_sink_room, script_sink_failing, script_sink_calls, script_sink_faults};

    /// An empty sink. Its room is in bytes, all its memory is taken here, and `failing` may be in
    /// any order.
    pub fn with_room(
        alloc: Global,
        room: usize,
        failing: Vec<u64>,
    ) -> Result<ScriptSink, AllocError>
        ensures empty { IfOk result (λ sink. script_sink_taken sink ≡ []) }
        ensures room { IfOk result (λ sink. script_sink_room sink ≡ room) }
        ensures failing { IfOk result (λ sink. script_sink_failing sink ≡ failing.items) }
        ensures calls { IfOk result (λ sink. script_sink_calls sink ≡ 0) }
        ensures faults { IfOk result (λ sink. script_sink_faults sink ≡ 0) }
    {
        Ok(ScriptSink {
            bytes: MemSink::with_room(alloc, room)?,
            script: CallScript::new(failing),
            faults: 0,
        })
    }

    /// The bytes that were written, in order.
    pub fn taken(&self) -> &[u8]
        ensures { result.now ≡ script_sink_taken self.now }
    {
        self.bytes.taken()
    }
}

impl Sink for ScriptSink {
    ghost use Rattle.byte_io.specs.Script.{script_sink_taken, script_sink_room, script_sink_failing, script_sink_calls, script_sink_faults};

    ghost taken = { λ sink. told (script_sink_taken sink) [] };

    ghost faults = { λ sink. script_sink_faults sink };

    ghost may_write = { λ _. ⊤ };

    ghost count_fits = { λ sink. sink.count_fits };

    fn write(&mut self, piece: &[u8]) -> Result<usize, Failed>
        ensures fails { IsErr result ↔ (FailsNext (script_sink_failing self.old) (script_sink_calls self.old)
            ⊎ ((0 < length piece.now) × (script_sink_room self.old ≤ length (script_sink_taken self.old)))) }
        ensures exact { IfOk result (λ count. count
            ≡ min (length piece.now) (script_sink_room self.old - length (script_sink_taken self.old))) }
        ensures bytes { IfOk result (λ count. told (script_sink_taken self.new) []
            ≡ after_told (told (script_sink_taken self.old) []) (take count piece.now)) }
        ensures err { OnErr result (told (script_sink_taken self.new) [] ≡ told (script_sink_taken self.old) []) }
        ensures count { CountsFaults (script_sink_faults self.old) (script_sink_faults self.new) result }

        ensures calls { script_sink_calls self.new ≡ calls_after (script_sink_calls self.old) }
        ensures failing { script_sink_failing self.new ≡ script_sink_failing self.old }
        ensures room { script_sink_room self.new ≡ script_sink_room self.old }
    {
        let listed = self.script.next_fails();
        if !listed {
            if let Ok(count) = self.bytes.write(piece) {
                return Ok(count);
            }
        }
        self.faults = self.faults.saturating_add(1);
        Err(Failed)
    }
}
