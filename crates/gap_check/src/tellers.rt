//! The tellers of all sequences.
ghost use Rattle.std.specs.Prelude.{◌≡◌, ◌≤◌, [], length, IfOk};
ghost use Rattle.gap_check.specs.Taken.{AllTaken, AreFew};

use packet_runs::{Packets, Teller};
use std::alloc::{AllocError, Global};

/// A teller for each writer, before the first record.
pub(crate) fn make_tellers(alloc: Global, emitted: &[Packets]) -> Result<Vec<Teller>, AllocError>
    requires few { AreFew emitted.now }
    ensures { IfOk result (λ tellers. AllTaken emitted.now [] tellers.items) }
{
    let mut tellers = Vec::with_capacity(alloc, emitted.len())?;
    for packets in emitted {
        let teller = Teller::make(alloc, packets)?;
        tellers.push(teller)?;
    }
    Ok(tellers)
}
