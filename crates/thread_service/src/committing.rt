//! Images that come by a commit.
ghost use Rattle.std.specs.Prelude.{◌≡◌, ◌≢◌, ◌-◌, map, IsOkAnd, Err};
ghost use Rattle.trace_base.specs.declared.limits.TheConstants.{FIRST_SEQUENCE};
ghost use Rattle.chunk_image.specs.Values.{image_value};
ghost use Rattle.commit_body.specs.Patches.{patch_value};
ghost use Rattle.trace_model.specs.Arrivals.{image_arrival_of};
ghost use Rattle.trace_model.specs.Ids.{placed_image, placed_patches};
ghost use Rattle.trace_buffer.specs.Answers.{arrived_value};
ghost use Rattle.chunk_plain.specs.Setup.{from_of};
ghost use Rattle.chunk_plain.specs.Steps.{notes_commit};
ghost use Rattle.chunk_words.specs.Sits.{setup_in};
ghost use Rattle.service_core.specs.Agreement.{KeepsRest, buffer_of};
ghost use Rattle.service_core.specs.Routing.{buffer_at};
ghost use Rattle.thread_service.specs.Serving.{core_of, view_in, Serves, ServesStill, HasMemory};
ghost use Rattle.service_core.specs.Calls.{CanCome};

use crate::service::Service;
use chunk_image::Image;
use chunk_words::{HostTable, Memory, Remembering};
use commit_body::Patch;
use service_core::WrongTarget;
use std::marker::{Brand, PhantomData};
use trace_buffer::Arrived;

impl Service {
    /// An image arrives, and then the patches given with it are applied in their order, whatever
    /// became of the image. A refused patch is passed over. Image and patches name chunks by their
    /// ids, and are noted with positions.
    pub fn commit(
        &mut self,
        table: &HostTable,
        target: u8,
        image: &Image<'_>,
        patches: &[Patch],
    ) -> Result<Arrived, WrongTarget>
        requires serves { Serves table.now self.old }
        requires image { CanCome (setup_in table.now) (core_of self.old) (image_value image.now) }
        ensures stays { ServesStill table.now self.old self.new }
        ensures keeps { KeepsRest (setup_in table.now) (core_of self.old) (core_of self.new) }
        ensures wrong { buffer_of (setup_in table.now) (image.now.sequence - FIRST_SEQUENCE) ≢ target
            → (result ≡ Err (record { buffer = buffer_of (setup_in table.now) (image.now.sequence - FIRST_SEQUENCE) }))
            × (core_of self.new ≡ core_of self.old) }
        ensures outcome { buffer_of (setup_in table.now) (image.now.sequence - FIRST_SEQUENCE) ≡ target
            → IsOkAnd result (λ arrived. arrived_value arrived
            ≡ image_arrival_of (buffer_at (core_of self.old).buffers.items (target - 1))
            (placed_image (from_of (setup_in table.now) (image.now.sequence - FIRST_SEQUENCE)) (image_value image.now))) }
        ensures noted { buffer_of (setup_in table.now) (image.now.sequence - FIRST_SEQUENCE) ≡ target
            → view_in self.new ≡ notes_commit (view_in self.old)
            (let from = from_of (setup_in table.now) (image.now.sequence - FIRST_SEQUENCE) in record {
              image = placed_image from (image_value image.now);
              patches = placed_patches from (map patch_value patches.now);
            }) }
    {
        self.commit_at::<Brand>(table, target, image, patches)
    }

    /// The same at a table and with a desk that its type names.
    fn commit_at<N: Memory>(
        &mut self,
        table: &HostTable,
        target: u8,
        image: &Image<'_>,
        patches: &[Patch],
    ) -> Result<Arrived, WrongTarget>
        requires memory { HasMemory N.table N.desk table.now self.old }
        requires serves { Serves table.now self.old }
        requires image { CanCome (setup_in table.now) (core_of self.old) (image_value image.now) }
        ensures stays { ServesStill table.now self.old self.new }
        ensures keeps { KeepsRest (setup_in table.now) (core_of self.old) (core_of self.new) }
        ensures wrong { buffer_of (setup_in table.now) (image.now.sequence - FIRST_SEQUENCE) ≢ target
            → (result ≡ Err (record { buffer = buffer_of (setup_in table.now) (image.now.sequence - FIRST_SEQUENCE) }))
            × (core_of self.new ≡ core_of self.old) }
        ensures outcome { buffer_of (setup_in table.now) (image.now.sequence - FIRST_SEQUENCE) ≡ target
            → IsOkAnd result (λ arrived. arrived_value arrived
            ≡ image_arrival_of (buffer_at (core_of self.old).buffers.items (target - 1))
            (placed_image (from_of (setup_in table.now) (image.now.sequence - FIRST_SEQUENCE)) (image_value image.now))) }
        ensures noted { buffer_of (setup_in table.now) (image.now.sequence - FIRST_SEQUENCE) ≡ target
            → view_in self.new ≡ notes_commit (view_in self.old)
            (let from = from_of (setup_in table.now) (image.now.sequence - FIRST_SEQUENCE) in record {
              image = placed_image from (image_value image.now);
              patches = placed_patches from (map patch_value patches.now);
            }) }
    {
        let mut lent = Remembering::<N> {
            table,
            of: PhantomData,
        };
        self.core.commit(&mut lent, target, image, patches)
    }
}
