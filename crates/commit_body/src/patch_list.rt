//! A writer's open holes, and the patches of holes that it closed.
ghost use Rattle.std.specs.Prelude.{◌≡◌, ℕ, ◌+◌, ◌^◌, ◌<◌, ◌≤◌, List, [], ◌∷◌, ◌++◌, ◌==◌, length, map};
ghost use Rattle.std.specs.List.{list_any};
ghost use Rattle.trace_model.specs.Sequences.{is_among};
ghost use Rattle.trace_model.specs.Sent.{is_last_patch, LastsAre};
ghost use Rattle.trace_model.specs.Ids.{placed_patches};
ghost use Rattle.commit_body.specs.Patches.{patch_value, hole_chunks, holes_outside, with_lasts};

use crate::body::{CommitBody, MAX_PATCHES, Patch};
use crate::closed::Closed;
use crate::hole::Hole;
use arrayvec::ArrayVec;
use std::marker::Model;
use trace_base::ids::id_of;
use trace_base::limits::MAX_OPEN_HOLES;
use wire_varint::put_redundant;

/// The holes of one writer that are open, and the patches of closed ones that were not sent yet. Both
/// name the writer's chunks by their positions.
#[derive(Debug, Drop)]
pub struct PatchList {
    /// Each inside the messages of those before it.
    holes: ArrayVec<Hole, MAX_OPEN_HOLES>,
    /// In the order of closing, without `last`.
    unsent: ArrayVec<Patch, MAX_PATCHES>,
}

impl Model for PatchList {
    ghost use Rattle.std.specs.Prelude.{map};
    ghost use Rattle.commit_body.specs.Patches.{patch_value};
    ghost use Rattle.commit_body.specs.Pending.{Pending};

    ghost Value = { Pending };

    ghost view = { λ list. record { holes = list.holes.items; unsent = map patch_value list.unsent.items } };
}

impl PatchList {
    ghost use Rattle.commit_body.specs.Pending.{AddsHole, ClosesHole};

    pub fn new() -> PatchList
        ensures holes { result.holes ≡ [] }
        ensures unsent { result.unsent ≡ [] }
    {
        PatchList {
            holes: ArrayVec::new(),
            unsent: ArrayVec::new(),
        }
    }

    /// Opens a hole inside the open ones.
    pub fn add_hole(&mut self, chunk_id: u32, offset: u32)
        requires { length self.old.holes < MAX_OPEN_HOLES }
        ensures { AddsHole self.old self.new chunk_id offset }
    {
        self.holes.push(Hole { chunk_id, offset });
    }

    /// Closes the innermost hole with the length `value`, where `held` is the writer's chunk now.
    /// A patch is kept unless the hole is in that chunk.
    pub fn close_hole(&mut self, held: u32, value: u32) -> Closed
        requires some_open { 0 < length self.old.holes }
        requires fits { value < 2 ^ 28 }
        requires room { length self.old.unsent + holes_outside held self.old.holes ≤ MAX_PATCHES }
        ensures { ClosesHole self.old self.new held value result }
    {
        let Some(hole) = self.holes.pop() else {
            unreachable!()
        };
        let bytes = put_redundant(value);
        if hole.chunk_id == held {
            return Closed::Here {
                offset: hole.offset,
                bytes,
            };
        }
        self.unsent.push(Patch {
            chunk_id: hole.chunk_id,
            offset: hole.offset,
            bytes,
            last: false,
        });
        Closed::Later
    }

    #[tactic(auto, using(crate::proofs::PatchLemmas::with_lasts_are))]
    /// Moves the unsent patches to a body, which goes with the writer's next completed chunk. The list
    /// names chunks by their positions; in the body they have ids, of which the first is `from`.
    pub fn drain_into(&mut self, body: &mut CommitBody, from: u32)
        requires { body.old.patches.value.items ≡ [] }
        ensures sent { placed_patches from (map patch_value body.new.patches.value.items)
            ≡ with_lasts (hole_chunks self.old.holes) self.old.unsent }
        ensures lasts { LastsAre (hole_chunks self.old.holes) (placed_patches from (map patch_value body.new.patches.value.items)) }
        ensures unsent { self.new ≡ record self.old { unsent = [] } }
        ensures others { body.new ≡ record body.old { patches = body.new.patches } }
    {
        *body.patches = marked(&self.unsent, &self.holes, from);
        self.unsent.clear();
    }

    /// Open holes.
    pub fn open_count(&self) -> usize
        ensures count { result ≡ length self.now.holes }
        ensures most { result ≤ MAX_OPEN_HOLES }
    {
        self.holes.len()
    }

    /// Whether a hole of this chunk is open.
    #[tactic(auto, using(crate::proofs::PatchLemmas::any_hole))]
    pub fn is_open_in(&self, chunk_id: u32) -> bool
        ensures { result ≡ is_among chunk_id (hole_chunks self.now.holes) }
    {
        has_hole(&self.holes, chunk_id)
    }

    /// Patches that were not sent.
    pub fn unsent(&self) -> usize
        ensures count { result ≡ length self.now.unsent }
        ensures most { result ≤ MAX_PATCHES }
    {
        self.unsent.len()
    }
}

/// Whether one of the patches is for this chunk.
fn has_patch(patches: &[Patch], chunk_id: u32) -> bool
    ensures { result ≡ list_any (λ patch. patch.chunk_id == chunk_id) patches.now }
{
    patches.iter().any(|patch| patch.chunk_id == chunk_id)
}

/// Whether one of the holes is in this chunk.
fn has_hole(holes: &[Hole], chunk_id: u32) -> bool
    ensures { result ≡ list_any (λ hole. hole.chunk_id == chunk_id) holes.now }
{
    holes.iter().any(|hole| hole.chunk_id == chunk_id)
}

#[tactic(auto, using(crate::proofs::PatchLemmas::any_patch, crate::proofs::PatchLemmas::any_hole))]
/// Whether neither a later patch nor an open hole is in the patch's chunk.
fn is_last(patch: &Patch, later: &[Patch], holes: &[Hole]) -> bool
    ensures { result ≡ is_last_patch (hole_chunks holes.now) (patch_value patch.now) (map patch_value later.now) }
{
    !(has_patch(later, patch.chunk_id) || has_hole(holes, patch.chunk_id))
}

/// The patches as they are sent: with their marks `last`, and for chunks that are named by ids.
#[tactic(auto, using(crate::proofs::PatchLemmas::with_lasts_step))]
fn marked(unsent: &[Patch], holes: &[Hole], from: u32) -> ArrayVec<Patch, MAX_PATCHES>
    requires { length unsent.now ≤ MAX_PATCHES }
    ensures { placed_patches from (map patch_value result.items) ≡ with_lasts (hole_chunks holes.now) (map patch_value unsent.now) }
{
    let mut marked = ArrayVec::new();
    let mut rest = unsent;
    while let Some((patch, later)) = rest.split_first() {
        let last = is_last(patch, later, holes);
        marked.push(Patch {
            chunk_id: id_of(from, patch.chunk_id),
            last,
            ..*patch
        });
        rest = later;
    }
    marked
}
