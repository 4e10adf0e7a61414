//! Events on the buffer that has their sequence. Images and patches come with ids, by which the
//! buffer finds the positions that the events name.
ghost use Rattle.std.specs.Prelude.{◌≡◌, ℕ, ◌≤◌, false, [], ◌∷◌, length, map};
ghost use Rattle.trace_base.specs.declared.limits.TheConstants.{MAX_FRAGMENTS};
ghost use Rattle.page_geometry.specs.declared.chunk_header.TheConstants.{MAX_FLAGS, FIRST_CONTINUES};
ghost use Rattle.page_geometry.specs.Sizes.{record_size};
ghost use Rattle.chunk_image.specs.Values.{image_value};
ghost use Rattle.commit_body.specs.Patches.{patch_value};
ghost use Rattle.trace_model.specs.Arrivals.{image_arrival_of, partial_image_arrival_of};
ghost use Rattle.trace_model.specs.History as model;
ghost use Rattle.trace_model.specs.History.{buffers_after};
ghost use Rattle.trace_model.specs.Ids.{placed_image, placed_patches};
ghost use Rattle.trace_buffer.specs.Answers.{arrived_value};
ghost use Rattle.service_core.specs.Routing.{buffer_at, IsAt, is_closed_at, arrivals_of, partial_arrivals_of, from_at};

use crate::patching::patch_all;
use chunk_image::Image;
use commit_body::Patch;
use trace_buffer::{Arrived, TraceBuffer};

/// A complete chunk arrives in the buffer with this index.
pub(crate) fn arrive_in(buffers: &mut Vec<TraceBuffer>, index: usize, image: &Image<'_>) -> Arrived
    requires at { IsAt buffers.old.items index image.now.sequence (record_size (length image.now.payload.now)) }
    requires open { is_closed_at buffers.old.items index image.now.sequence ≡ false }
    requires count { image.now.count ≤ MAX_FRAGMENTS }
    requires flags { image.now.flags ≤ MAX_FLAGS }
    ensures outcome { arrived_value result ≡ image_arrival_of (buffer_at buffers.old.items index)
        (placed_image (from_at buffers.old.items index image.now.sequence) (image_value image.now)) }
    ensures after { buffers.new.items ≡ buffers_after buffers.old.items
        (arrivals_of (placed_image (from_at buffers.old.items index image.now.sequence) (image_value image.now))) }
{
    buffers[index].arrive(image)
}

/// The first fragments of a chunk that its writer holds arrive in the buffer with this index.
pub(crate) fn arrive_part_in(
    buffers: &mut Vec<TraceBuffer>,
    index: usize,
    image: &Image<'_>,
) -> Arrived
    requires at { IsAt buffers.old.items index image.now.sequence (record_size (length image.now.payload.now)) }
    requires open { is_closed_at buffers.old.items index image.now.sequence ≡ false }
    requires count { image.now.count ≤ MAX_FRAGMENTS }
    requires flags { image.now.flags ≤ FIRST_CONTINUES }
    ensures outcome { arrived_value result ≡ partial_image_arrival_of (buffer_at buffers.old.items index)
        (placed_image (from_at buffers.old.items index image.now.sequence) (image_value image.now)) }
    ensures after { buffers.new.items ≡ buffers_after buffers.old.items
        (partial_arrivals_of (placed_image (from_at buffers.old.items index image.now.sequence) (image_value image.now))) }
{
    buffers[index].arrive_partial(image)
}

/// The patches of a commit body are applied in the buffer with this index.
pub(crate) fn patch_in(
    buffers: &mut Vec<TraceBuffer>,
    index: usize,
    sequence: u32,
    patches: &[Patch],
)
    requires { (size : ℕ) × IsAt buffers.old.items index sequence size }
    ensures { buffers.new.items ≡ buffers_after buffers.old.items
        (model.Patched sequence (placed_patches (from_at buffers.old.items index sequence) (map patch_value patches.now)) ∷ []) }
{
    patch_all(&mut buffers[index], sequence, patches);
}

/// No chunk of the sequence comes any more, of the buffer with this index.
pub(crate) fn close_in(buffers: &mut Vec<TraceBuffer>, index: usize, sequence: u32)
    requires at { (size : ℕ) × IsAt buffers.old.items index sequence size }
    requires open { is_closed_at buffers.old.items index sequence ≡ false }
    ensures { buffers.new.items ≡ buffers_after buffers.old.items (model.Closed sequence ∷ []) }
{
    buffers[index].close_sequence(sequence);
}

/// An image arrives in the buffer with this index, and then the patches given with it are applied.
pub(crate) fn commit_in(
    buffers: &mut Vec<TraceBuffer>,
    index: usize,
    image: &Image<'_>,
    patches: &[Patch],
) -> Arrived
    requires at { IsAt buffers.old.items index image.now.sequence (record_size (length image.now.payload.now)) }
    requires open { is_closed_at buffers.old.items index image.now.sequence ≡ false }
    requires count { image.now.count ≤ MAX_FRAGMENTS }
    requires flags { image.now.flags ≤ MAX_FLAGS }
    ensures outcome { arrived_value result ≡ image_arrival_of (buffer_at buffers.old.items index)
        (placed_image (from_at buffers.old.items index image.now.sequence) (image_value image.now)) }
    ensures after { buffers.new.items ≡ buffers_after buffers.old.items
        (model.Committed (placed_image (from_at buffers.old.items index image.now.sequence) (image_value image.now))
        (placed_patches (from_at buffers.old.items index image.now.sequence) (map patch_value patches.now)) ∷ []) }
{
    let buffer = &mut buffers[index];
    let arrived = buffer.arrive(image);
    patch_all(buffer, image.sequence, patches);
    arrived
}
