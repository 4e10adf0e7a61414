//! Images that come by a commit.
ghost use Rattle.std.specs.Prelude.{◌≡◌, ◌≢◌, ◌-◌, map, IsOkAnd, Err};
ghost use Rattle.trace_base.specs.declared.limits.TheConstants.{FIRST_SEQUENCE};
ghost use Rattle.chunk_image.specs.Values.{image_value};
ghost use Rattle.commit_body.specs.Patches.{patch_value};
ghost use Rattle.trace_model.specs.Arrivals.{image_arrival_of};
ghost use Rattle.trace_model.specs.Ids.{placed_image, placed_patches};
ghost use Rattle.trace_buffer.specs.Answers.{arrived_value};
ghost use Rattle.chunk_plain.specs.Setup.{from_of};
ghost use Rattle.chunk_plain.specs.Steps.{notes_commit};
ghost use Rattle.service_core.specs.Routing.{buffer_at};
ghost use Rattle.service_core.specs.Agreement.{buffer_of};
ghost use Rattle.service_core.specs.Calls.{ServesAt, CanCome, NotesOn};

use crate::routing::commit_in;
use crate::service::ServiceCore;
use chunk_image::Image;
use chunk_plain::Words;
use commit_body::Patch;
use page_geometry::ChunkHeader;
use thiserror::Error;
use trace_base::limits::FIRST_SEQUENCE;
use trace_buffer::Arrived;

/// A commit names another buffer than that of its sequence, which is this one.
#[derive(Clone, Copy, Debug, PartialEq, Eq, Error)]
#[error("the sequence has its records in buffer {buffer}")]
pub struct WrongTarget {
    pub buffer: u8,
}

impl<S> ServiceCore<S> {
    /// An image arrives, and then the patches given with it are applied in their order, whatever
    /// became of the image. A refused patch is passed over. Image and patches name chunks by their
    /// ids, and are noted with positions.
    pub fn commit<W: Words<Service = S>>(
        &mut self,
        table: &mut W,
        target: u8,
        image: &Image<'_>,
        patches: &[Patch],
    ) -> Result<Arrived, WrongTarget>
        requires serves { ServesAt W.means table.old self.old }
        requires image { CanCome (W.means.setup table.old) self.old (image_value image.now) }
        ensures leaves { NotesOn W.means table.old self.old table.new self.new }
        ensures wrong { buffer_of (W.means.setup table.old) (image.now.sequence - FIRST_SEQUENCE) ≢ target
            → (result ≡ Err (record { buffer = buffer_of (W.means.setup table.old) (image.now.sequence - FIRST_SEQUENCE) }))
            × (self.new ≡ self.old) × (table.new ≡ table.old) }
        ensures outcome { buffer_of (W.means.setup table.old) (image.now.sequence - FIRST_SEQUENCE) ≡ target
            → IsOkAnd result (λ arrived. arrived_value arrived
            ≡ image_arrival_of (buffer_at self.old.buffers.items (target - 1))
            (placed_image (from_of (W.means.setup table.old) (image.now.sequence - FIRST_SEQUENCE)) (image_value image.now))) }
        ensures noted { buffer_of (W.means.setup table.old) (image.now.sequence - FIRST_SEQUENCE) ≡ target
            → W.means.service_view table.new self.new.seat ≡ notes_commit (W.means.service_view table.old self.old.seat)
            (let from = from_of (W.means.setup table.old) (image.now.sequence - FIRST_SEQUENCE) in record {
              image = placed_image from (image_value image.now);
              patches = placed_patches from (map patch_value patches.now);
            }) }
    {
        let place = (image.sequence - FIRST_SEQUENCE) as usize;
        let buffer = self.writers[place].buffer;
        if buffer != target {
            return Err(WrongTarget { buffer });
        }
        let arrived = commit_in(&mut self.buffers, usize::from(target) - 1, image, patches);
        let header = ChunkHeader {
            chunk_id: image.chunk_id,
            writer_id: place as u16 + 1,
            count: image.count,
            flags: image.flags,
        };
        table.note_commit(&mut self.seat, header, image.payload, patches);
        Ok(arrived)
    }
}
