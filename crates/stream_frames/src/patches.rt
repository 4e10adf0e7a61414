//! The patches of a commit, which stay bytes of its frame until they are wanted.
ghost use Rattle.std.specs.Prelude.{◌≡◌, ◌≤◌, true, map, is_some};
ghost use Rattle.commit_body.specs.declared.body.TheConstants.{MAX_PATCHES};
ghost use Rattle.stream_frames.specs.Decoding as reading;

use crate::fields::patch_at;
use arrayvec::ArrayVec;
use commit_body::{MAX_PATCHES, Patch};

/// The patches of a commit, as bytes of its frame.
#[derive(Debug, Drop)]
pub struct PatchBytes<'a> {
    pub(crate) count: u8,
    /// The patches stand in front of these.
    pub(crate) bytes: &'a [u8],
    ghost few: { count ≤ MAX_PATCHES },
    ghost there: { is_some (reading.patches_at count bytes.now) ≡ true },
}

impl PatchBytes<'_> {
    ghost use Rattle.commit_body.specs.Patches.{patch_value};
    ghost use Rattle.stream_frames.specs.Values.{patches_value};

    /// Puts the patches into the room, in place of what it has.
    pub fn put_into(&self, room: &mut ArrayVec<Patch, MAX_PATCHES>)
        ensures { map patch_value room.new.items ≡ patches_value self.now }
    {
        room.clear();
        let mut rest = self.bytes;
        for _ in 0..self.count {
            let Some((patch, behind)) = patch_at(rest) else {
                unreachable!()
            };
            room.push(patch);
            rest = behind;
        }
    }
}
