//! The patches of a commit body.
ghost use Rattle.std.specs.Prelude.{◌≡◌, true, map};
ghost use Rattle.commit_body.specs.Patches.{patch_value};
ghost use Rattle.trace_model.specs.Patches.{with_patches};
ghost use Rattle.trace_model.specs.Sequences.{is_known};
ghost use Rattle.trace_model.specs.Ids.{placed_patches};
ghost use Rattle.trace_buffer.specs.Calls.{from_in};

use commit_body::Patch;
use trace_buffer::TraceBuffer;

/// Tries the patches in their order; a refused one is passed over.
pub(crate) fn patch_all(buffer: &mut TraceBuffer, sequence: u32, patches: &[Patch])
    requires { is_known buffer.old.sequences sequence ≡ true }
    ensures { buffer.new ≡ with_patches buffer.old sequence
        (placed_patches (from_in buffer.old sequence) (map patch_value patches.now)) }
{
    for patch in patches {
        let _ = buffer.patch(sequence, patch);
    }
}
