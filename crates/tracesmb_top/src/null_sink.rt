//! A sink that keeps nothing.

use byte_io::traits::{Failed, Sink};

/// Takes every piece, keeps none of its bytes, and never fails.
#[derive(Clone, Copy, Debug, Default, PartialEq, Eq)]
pub struct NullSink;

impl Sink for NullSink {
    ghost use Rattle.std.specs.Prelude.{⊤, []};
    ghost use Rattle.std.proofs.Common.{lit<};
    ghost use Rattle.byte_io.specs.Bytes.{untold};

    ghost taken = { λ _. untold [] };

    ghost faults = { λ _. 0 };

    ghost may_write = { λ _. ⊤ };

    ghost count_fits = { λ _. lit< tt };

    fn write(&mut self, piece: &[u8]) -> Result<usize, Failed> {
        Ok(piece.len())
    }
}
