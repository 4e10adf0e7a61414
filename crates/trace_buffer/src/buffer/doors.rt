//! Where chunks come into a buffer. Images and patches come with the ids of chunks, which are turned
//! into positions here and nowhere else in the buffer.
ghost use Rattle.std.specs.Prelude.{◌≡◌, ◌≤◌, false, length, true};
ghost use Rattle.page_geometry.specs.Sizes.{record_size};
ghost use Rattle.trace_base.specs.Ids.{position_of};
ghost use Rattle.trace_model.specs.Sequences.{is_known, sequence_in};
ghost use Rattle.trace_model.specs.Arrivals.{image_arrival_of, partial_image_arrival_of, with_image, with_partial_image};
ghost use Rattle.trace_model.specs.Patches.{patch_answer, with_patch};
ghost use Rattle.trace_model.specs.Ids.{placed_image, placed_patch};
ghost use Rattle.chunk_image.specs.Values.{image_value};
ghost use Rattle.commit_body.specs.Patches.{patch_value};
ghost use Rattle.trace_buffer.specs.Answers.{arrived_value, patch_told};
ghost use Rattle.trace_buffer.specs.Calls.{from_in};

use crate::answers::{Arrived, PatchFault};
use crate::buffer::TraceBuffer;
use crate::rows::find_row;
use chunk_image::Image;
use commit_body::Patch;
use page_geometry::{FIRST_CONTINUES, MAX_FLAGS};
use trace_base::limits::MAX_FRAGMENTS;

impl TraceBuffer {
    /// A complete chunk arrives, under its id.
    pub fn arrive(&mut self, image: &Image<'_>) -> Arrived
        requires known { is_known self.old.sequences image.now.sequence ≡ true }
        requires open { (sequence_in self.old.sequences image.now.sequence).closed ≡ false }
        requires size { record_size (length image.now.payload.now) ≡ (sequence_in self.old.sequences image.now.sequence).size }
        requires count { image.now.count ≤ MAX_FRAGMENTS }
        requires flags { image.now.flags ≤ MAX_FLAGS }
        ensures outcome { arrived_value result ≡ image_arrival_of self.old
            (placed_image (from_in self.old image.now.sequence) (image_value image.now)) }
        ensures after { self.new ≡ with_image self.old (placed_image (from_in self.old image.now.sequence) (image_value image.now)) }
    {
        let placed = self.placed(image);
        self.arrive_placed(&placed)
    }

    /// The first fragments of a chunk arrive that its writer holds, under its id.
    pub fn arrive_partial(&mut self, image: &Image<'_>) -> Arrived
        requires known { is_known self.old.sequences image.now.sequence ≡ true }
        requires open { (sequence_in self.old.sequences image.now.sequence).closed ≡ false }
        requires size { record_size (length image.now.payload.now) ≡ (sequence_in self.old.sequences image.now.sequence).size }
        requires count { image.now.count ≤ MAX_FRAGMENTS }
        requires flags { image.now.flags ≤ FIRST_CONTINUES }
        ensures outcome { arrived_value result ≡ partial_image_arrival_of self.old
            (placed_image (from_in self.old image.now.sequence) (image_value image.now)) }
        ensures after { self.new ≡ with_partial_image self.old
            (placed_image (from_in self.old image.now.sequence) (image_value image.now)) }
    {
        let placed = self.placed(image);
        self.arrive_partial_placed(&placed)
    }

    /// Four bytes of a chunk come that its writer left open. The patch names the chunk by its id.
    pub fn patch(&mut self, sequence: u32, patch: &Patch) -> Result<(), PatchFault>
        requires { is_known self.old.sequences sequence ≡ true }
        ensures answer { patch_told result ≡ patch_answer self.old sequence
            (placed_patch (from_in self.old sequence) (patch_value patch.now)) }
        ensures after { self.new ≡ with_patch self.old sequence
            (placed_patch (from_in self.old sequence) (patch_value patch.now)) }
    {
        let placed = Patch {
            chunk_id: self.position_in(sequence, patch.chunk_id),
            ..*patch
        };
        self.patch_placed(sequence, &placed)
    }

    /// The position of the chunk of the sequence with this id.
    fn position_in(&self, sequence: u32, id: u32) -> u32
        requires { is_known self.now.sequences sequence ≡ true }
        ensures { result ≡ position_of (from_in self.now sequence) id }
    {
        self.rows[find_row(&self.rows, sequence)].position_of(id)
    }

    /// The chunk, named by its position.
    fn placed<'a>(&self, image: &Image<'a>) -> Image<'a>
        requires { is_known self.now.sequences image.now.sequence ≡ true }
        ensures { result ≡ record image.now { chunk_id = position_of (from_in self.now image.now.sequence) image.now.chunk_id } }
    {
        Image {
            chunk_id: self.position_in(image.sequence, image.chunk_id),
            ..*image
        }
    }
}
