//! How many chunks writers can have completed.
ghost use Rattle.std.specs.Prelude.{◌≡◌, ℕ, ◌≤◌, length, slice_get, Some};
ghost use Rattle.chunk_plain.specs.declared.tokens.TheConstants.{POSITION_LIMIT};
ghost use Rattle.chunk_plain.specs.Histories.{completed_images};
ghost use Rattle.chunk_plain.specs.Setup.{Setup};
ghost use Rattle.chunk_plain.specs.Views.{WriterView};
ghost use Rattle.trace_writer.specs.declared.writer.WriterCore.{WriterCore as Core};
ghost use Rattle.trace_writer.specs.Core.{CoreAgrees};

use trace_writer::WriterCore;

/// Changes nothing: a caller knows by this contract that each writer has completed at most as many
/// chunks as there are ids.
pub(crate) fn ids_fit<S>(writers: &[WriterCore<S>])
    ensures { (place : ℕ) (core : Core S) → slice_get writers.now place ≡ Some core → (setup : Setup) (view : WriterView)
        → CoreAgrees setup place view core → length (completed_images view.begun) ≤ POSITION_LIMIT }
{
    for i in 0..writers.len() {
        let _completed = writers[i].completed();
    }
}
