//! What makes a copy of a buffer its clone.
ghost use Rattle.std.specs.Prelude.{◌≡◌, true, map, IfOk};
ghost use Rattle.trace_model.specs.Patches.{with_close};
ghost use Rattle.trace_model.specs.Sequences.{is_known};
ghost use Rattle.trace_buffer.specs.declared.answers.SequenceSpec.{SequenceSpec};
ghost use Rattle.trace_buffer.specs.Clones.{numbers_of, all_closed, all_none_delivered};

use std::alloc::{AllocError, Global};
use trace_buffer::{SequenceSpec, TraceBuffer};

/// The numbers of these sequences.
pub fn numbers_in(alloc: Global, specs: &[SequenceSpec]) -> Result<Vec<u32>, AllocError>
    ensures { IfOk result (λ numbers. numbers.items ≡ map (λ (spec : SequenceSpec). spec.sequence) specs.now) }
{
    let mut numbers = Vec::with_capacity(alloc, specs.len())?;
    for spec in specs {
        numbers.push(spec.sequence)?;
    }
    Ok(numbers)
}

/// Closes each sequence that is open.
pub fn close_all(buffer: &mut TraceBuffer, sequences: &[u32])
    requires { sequences.now ≡ numbers_of buffer.old }
    ensures closed { buffer.new ≡ all_closed buffer.old }
    ensures same { numbers_of buffer.new ≡ numbers_of buffer.old }
{
    for i in 0..sequences.len() {
        close_open(buffer, sequences[i]);
    }
}

/// Closes the sequence, where it is open.
fn close_open(buffer: &mut TraceBuffer, sequence: u32)
    requires { is_known buffer.old.sequences sequence ≡ true }
    ensures { buffer.new ≡ with_close buffer.old sequence }
{
    if !buffer.state(sequence).closed {
        buffer.close_sequence(sequence);
    }
}

/// Gives each sequence a consumer to whom nothing was delivered yet.
pub fn reset_all(buffer: &mut TraceBuffer, sequences: &[u32])
    requires { sequences.now ≡ numbers_of buffer.old }
    ensures reset { buffer.new ≡ all_none_delivered buffer.old }
    ensures same { numbers_of buffer.new ≡ numbers_of buffer.old }
{
    for i in 0..sequences.len() {
        buffer.reset_delivered(sequences[i]);
    }
}
