//! What the outside is: a source of bytes, a sink for bytes, and a gate that jobs pass.
ghost use Rattle.std.specs.Prelude.{◌≡◌, ℕ, ◌^◌, ◌<◌, ◌≤◌, List, [], Option, length, take, IfOk, OnOk, OnErr, IfSome};
ghost use Rattle.byte_io.specs.Bytes.{Intake, before_told, after_told, CountsFaults};

/// A read or a write that failed. Why it failed isn't said.
#[derive(Clone, Copy, Debug, PartialEq, Eq)]
pub struct Failed;

/// Gives bytes, a piece at a time.
pub trait Source {
    // The bytes that are left, where the source tells them.
    ghost left: { Self → Option (List ℕ) };

    // How many faults there were. The count never falls, and stays at 2 ^ 64 - 1.
    ghost faults: { Self → ℕ };

    // It may be asked for bytes. Nobody knows so behind its end, which a terminal gives but once,
    // nor behind a read that failed.
    ghost may_ask: { Self → Type 0 };

    /// Puts bytes into the front of the slice and says how many. 0 on a slice that isn't empty
    /// is the end of the input.
    fn read(&mut self, into: &mut [u8]) -> Result<usize, Failed>
        requires may { may_ask self.old }
        ensures within { IfOk result (λ count. count ≤ length into.new) }
        ensures bytes { IfOk result (λ count. left self.old ≡ before_told (take count into.new) (left self.new)) }
        ensures end { IfOk result (λ count. count ≡ 0 → 0 < length into.new → IfSome (left self.new) (λ rest. rest ≡ [])) }
        ensures err { OnErr result (left self.new ≡ left self.old) }
        ensures count { CountsFaults (faults self.old) (faults self.new) result }
        ensures goes_on { IfOk result (λ count. 0 < count → may_ask self.new) };

    ghost count_fits: { (source : Self) → faults source < 2 ^ 64 };
}

/// Takes bytes, a piece at a time.
pub trait Sink {
    // The bytes that the sink has taken, where it tells them.
    ghost taken: { Self → Intake };

    // How many faults there were. The count never falls, and stays at 2 ^ 64 - 1.
    ghost faults: { Self → ℕ };

    // It may be written to. Nobody knows so behind a write that failed: a pipe that nobody reads
    // fails for good, and behind a full disk a later piece would stand without those before it.
    ghost may_write: { Self → Type 0 };

    /// Takes bytes from the front of the piece and says how many.
    fn write(&mut self, piece: &[u8]) -> Result<usize, Failed>
        requires may { may_write self.old }
        ensures within { IfOk result (λ count. count ≤ length piece.now) }
        ensures some { 0 < length piece.now → IfOk result (λ count. 0 < count) }
        ensures bytes { IfOk result (λ count. taken self.new ≡ after_told (taken self.old) (take count piece.now)) }
        ensures err { OnErr result (taken self.new ≡ taken self.old) }
        ensures count { CountsFaults (faults self.old) (faults self.new) result }
        ensures goes_on { OnOk result (may_write self.new) };

    ghost count_fits: { (sink : Self) → faults sink < 2 ^ 64 };
}

/// Lets a job go on. Each job of a run passes it before each of its lines.
pub trait Gate {
    /// `writer` is 0 for the service's own job, and `line` counts from 1.
    fn pass(&self, writer: u16, line: u64);
}

/// The gate of the program, which does nothing.
#[derive(Clone, Copy, Debug, Default, PartialEq, Eq)]
pub struct OpenGate;

impl Gate for OpenGate {
    fn pass(&self, _writer: u16, _line: u64) {}
}
