//! Where a patch lies in a payload.
ghost use Rattle.std.specs.Prelude.{◌≡◌, ◌≤◌, length};
ghost use Rattle.commit_body.specs.Patches.{patch_value};
ghost use Rattle.trace_model.specs.Images as model;
ghost use Rattle.trace_buffer.specs.Patching.{last_has};

use chunk_image::{FragmentIter, Image};
use commit_body::Patch;
use ring_bytes::MAX_RING_SIZE;

/// Whether a patch lies inside the last one of a payload's fragments.
pub fn last_holds(count: u16, payload: &[u8], patch: &Patch) -> bool
    requires { length payload.now ≤ MAX_RING_SIZE }
    ensures { result ≡ last_has count payload.now (patch_value patch.now) }
{
    let image = Image {
        sequence: 0,
        chunk_id: 0,
        count,
        flags: 0,
        payload,
    };
    let Ok(fragments) = image.fragments() else {
        return false;
    };
    holds_at_end(fragments, patch)
}

#[tactic(auto, using(crate::proofs::PatchLemmas::behind_none))]
fn holds_at_end(fragments: FragmentIter<'_>, patch: &Patch) -> bool
    ensures { result ≡ model.last_holds fragments.entry (patch_value patch.now) }
{
    let mut holds = false;
    for fragment in fragments {
        let behind = u64::from(fragment.offset) + fragment.bytes.len() as u64;
        holds = fragment.offset <= patch.offset && u64::from(patch.offset) + 4 <= behind;
    }
    holds
}
