//! A sink that gathers many short writes into few long ones to another sink. Who wants it makes
//! `PendingBytes`, lends them and the sink to a `BufferedSink`, hands that to whatever writes,
//! drops it, and at last passes on what waits: only then are all bytes where they belong, and
//! only that call knows whether the last of them could be written.
ghost use Rattle.std.specs.Prelude.{◌≡◌, ℕ, ◌+◌, ◌-◌, ◌<◌, ◌≤◌, List, [], ◌++◌, length, take, drop, vec_len, IfOk, OnOk, OnErr};
ghost use Rattle.byte_io.specs.declared.buffered.TheConstants.{ROOM};
ghost use Rattle.byte_io.specs.Bytes.{Intake, Loan, after_told, lent_by, told_bytes, IsGrown, CountsFaults, TakesUpTo};

use super::put::WriteFault;
use super::traits::{Failed, Sink};
use std::alloc::{AllocError, Global};
use std::snapshot::Snapshot;

// How many bytes wait at most.
const ROOM: usize = 65_536;

/// Bytes that a `BufferedSink` accepted and hasn't passed on yet, with room for 64 KiB. They
/// outlive the sink, and are lost where nobody passes them on.
#[derive(Drop)]
pub struct PendingBytes {
    /// All of the room.
    bytes: Vec<u8>,
    /// Up to here they were passed on.
    passed: usize,
    /// Up to here they were accepted.
    filled: usize,
    ghost in_filled: { passed ≤ filled },
    ghost in_room: { filled ≤ ROOM },
    ghost has_room: { vec_len bytes ≡ ROOM },
}

impl PendingBytes {
    ghost use Rattle.byte_io.specs.Buffered.{pending_bytes, pending_count};

    /// Takes all memory that it will ever need.
    pub fn new(alloc: Global) -> Result<PendingBytes, AllocError>
        ensures { IfOk result (λ pending. pending_bytes pending ≡ []) }
    {
        let bytes = vec![in alloc; 0; ROOM]?;
        Ok(PendingBytes {
            bytes,
            passed: 0,
            filled: 0,
        })
    }

    /// Passes on all that waits. After a fault, what the sink took waits no longer.
    #[tactic(auto, using(crate::proofs::Told::up_to_start, crate::proofs::Told::up_to_further))]
    pub fn pass_on<O: Sink>(&mut self, inner: &mut O) -> Result<(), WriteFault>
        requires { O.may_write inner.old }
        ensures passed { TakesUpTo (O.taken inner.old) (O.taken inner.new) (pending_bytes self.old) (pending_bytes self.new) }
        ensures all { OnOk result (pending_bytes self.new ≡ []) }
        ensures room { OnOk result (pending_count self.new ≡ 0) }
        ensures count { CountsFaults (O.faults inner.old) (O.faults inner.new) result }
        ensures goes_on { OnOk result (O.may_write inner.new) }
    {
        while self.passed < self.filled {
            let accepted = &self.bytes[..self.filled];
            match inner.write(&accepted[self.passed..]) {
                Ok(count) => self.passed += count,
                Err(Failed) => return Err(WriteFault),
            }
        }
        self.passed = 0;
        self.filled = 0;
        Ok(())
    }

    // How many bytes can be kept before what waits has to be passed on.
    fn room_left(&self) -> usize
        ensures { result + pending_count self.now ≡ ROOM }
    {
        ROOM - self.filled
    }

    // Keeps the piece behind what waits.
    fn keep(&mut self, piece: &[u8])
        requires { pending_count self.old + length piece.now ≤ ROOM }
        ensures { pending_bytes self.new ≡ pending_bytes self.old ++ piece.now }
    {
        let end = self.filled + piece.len();
        self.bytes[self.filled..end].copy_from_slice(piece);
        self.filled = end;
    }
}

/// Hands on to a sink what was written, in pieces of up to 64 KiB or longer ones as they came.
/// What it was given counts as taken even while it waits in `pending`, and each fault is one of
/// the sink behind it. It passes nothing on when it is dropped: `PendingBytes::pass_on` does.
pub struct BufferedSink<'a, O: Sink> {
    inner: &'a mut O,
    pending: &'a mut PendingBytes,
    start: Snapshot<O>,
    ghost grown: { IsGrown (O.taken start.value) (O.taken inner.now) },
}

impl<'a, O: Sink> BufferedSink<'a, O> {
    ghost use Rattle.byte_io.specs.Buffered.{buffered_inner, buffered_pending, buffered_loan, buffered_intake, pending_count};

    /// A sink over `inner`. What waits in `pending` already goes before all that is written.
    pub fn new(inner: &'a mut O, pending: &'a mut PendingBytes) -> BufferedSink<'a, O>
        ensures same_inner { (buffered_inner result).ghost_name ≡ inner.entry.ghost_name }
        ensures same_pending { (buffered_pending result).ghost_name ≡ pending.entry.ghost_name }
        ensures inner { (buffered_inner result).now ≡ inner.old }
        ensures pending { (buffered_pending result).now ≡ pending.old }
        ensures start { (buffered_loan result).start ≡ told_bytes (O.taken inner.old) }
    {
        let start = Snapshot::of(inner);
        BufferedSink {
            inner,
            pending,
            start,
        }
    }

    // Takes a piece that is longer than the room, after it passed on what waits.
    #[inline(never)]
    #[tactic(auto, using(crate::proofs::Lent::after_told_lent, crate::proofs::Told::after_told_again, crate::proofs::Told::after_told_nothing, crate::proofs::Lent::up_to_joined, crate::proofs::Lent::grown_up_to, crate::proofs::Lent::grown_after))]
    fn write_long(&mut self, piece: &[u8]) -> Result<usize, Failed>
        requires { O.may_write (buffered_inner self.old).now }
        ensures within { IfOk result (λ count. count ≤ length piece.now) }
        ensures some { 0 < length piece.now → IfOk result (λ count. 0 < count) }
        ensures bytes { IfOk result (λ count. buffered_intake self.new ≡ after_told (buffered_intake self.old) (take count piece.now)) }
        ensures err { OnErr result (buffered_intake self.new ≡ buffered_intake self.old) }
        ensures count { CountsFaults (O.faults (buffered_inner self.old).now) (O.faults (buffered_inner self.new).now) result }
        ensures goes_on { OnOk result (O.may_write (buffered_inner self.new).now) }
    {
        match self.pending.pass_on(self.inner) {
            Ok(()) => {}
            Err(WriteFault) => return Err(Failed),
        }
        self.inner.write(piece)
    }

    // Passes on what waits. It stays a call without the piece that finds no room, so that a short piece
    // need not be in memory.
    #[inline(never)]
    #[tactic(auto, using(crate::proofs::Lent::up_to_joined, crate::proofs::Lent::grown_up_to))]
    fn make_room(&mut self) -> Result<(), Failed>
        requires { O.may_write (buffered_inner self.old).now }
        ensures intake { buffered_intake self.new ≡ buffered_intake self.old }
        ensures room { OnOk result (pending_count (buffered_pending self.new).now ≡ 0) }
        ensures count { CountsFaults (O.faults (buffered_inner self.old).now) (O.faults (buffered_inner self.new).now) result }
        ensures goes_on { OnOk result (O.may_write (buffered_inner self.new).now) }
    {
        match self.pending.pass_on(self.inner) {
            Ok(()) => Ok(()),
            Err(WriteFault) => Err(Failed),
        }
    }
}

impl<O: Sink> Sink for BufferedSink<'_, O> {
    ghost use Rattle.byte_io.specs.Buffered.{buffered_intake, buffered_inner};

    ghost taken = { λ sink. buffered_intake sink };

    ghost faults = { λ sink. O.faults (buffered_inner sink).now };

    ghost may_write = { λ sink. O.may_write (buffered_inner sink).now };

    ghost count_fits = { λ sink. O.count_fits (buffered_inner sink).now };

    #[tactic(auto, using(crate::proofs::Lent::after_told_lent, crate::proofs::Told::after_told_again, crate::proofs::Told::after_told_nothing, crate::proofs::Lent::up_to_joined, crate::proofs::Lent::grown_up_to, crate::proofs::Lent::grown_after))]
    #[inline(always)]
    fn write(&mut self, piece: &[u8]) -> Result<usize, Failed> {
        if piece.len() > self.pending.room_left() {
            if piece.len() > ROOM {
                return self.write_long(piece);
            }
            self.make_room()?;
        }
        self.pending.keep(piece);
        Ok(piece.len())
    }
}

impl<O: Sink> Drop for BufferedSink<'_, O> {
    ghost use Rattle.byte_io.specs.Buffered.{buffered_inner, buffered_pending};

    fn drop(self)
        ensures inner { self.exit.0.now ≡ (buffered_inner self.entry).now }
        ensures pending { self.exit.1.0.now ≡ (buffered_pending self.entry).now }
    {
        let BufferedSink {
            inner: _,
            pending: _,
            start: _,
        } = self;
    }
}
