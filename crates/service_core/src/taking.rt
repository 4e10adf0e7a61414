//! Taking complete chunks.
ghost use Rattle.std.specs.Prelude.{◌≡◌, ℕ, ◌+◌, ◌^◌, ◌<◌, ◌≤◌, true, false, Some, None, IfSome, IsSome, [], ◌∷◌, vec_len, map};
ghost use Rattle.chunk_plain.specs.declared.tokens.TheConstants.{POSITION_LIMIT};
ghost use Rattle.commit_body.specs.Patches.{patch_value};
ghost use Rattle.chunk_plain.specs.Setup.{range_of, producer_of, IsChunkOf, sequence_of};
ghost use Rattle.chunk_plain.specs.Views.{taken_of};
ghost use Rattle.chunk_plain.specs.World.{World, Unclaimed};
ghost use Rattle.chunk_plain.specs.Steps.{lets_go, served};
ghost use Rattle.chunk_plain.specs.Words.{taken_content, LacksArrival};
ghost use Rattle.chunk_plain.specs.Meaning.{IsServiceStep};
ghost use Rattle.service_core.specs.Agreement.{IsOpen};
ghost use Rattle.service_core.specs.Taking.{patched_where, takings, noted_more, IsRange, TakesOf, Takes, places_of, TakenFor, HasRoute, PutsIn};
ghost use Rattle.service_core.specs.Told.{LeavesNext, LeavesNone, ChunkTaken, ChunkPassed, NextTaken, AllPassed};
ghost use Rattle.service_core.specs.Calls.{ServesAt, ServesWriter, ServesOn, NotesAlone};

use crate::routing::{arrive_in, patch_in};
use crate::service::ServiceCore;
use chunk_image::Image;
use chunk_plain::{POSITION_LIMIT, ServiceEvent, Taken, Words};
use commit_body::Patch;
use page_geometry::ChunkHeader;
use trace_base::limits::FIRST_SEQUENCE;

/// Does nothing: a caller knows by this contract that the numbers of a header fit its fields.
fn header_fits(header: ChunkHeader)
    ensures id { header.chunk_id < 2 ^ 32 }
    ensures writer { header.writer_id < 2 ^ 16 }
{}

/// Notes that the patches of a chunk were applied, where it brings any.
fn note_patches<W: Words>(
    table: &mut W,
    seat: &mut W::Service,
    sequence: u32,
    position: u32,
    patches: &[Patch],
)
    requires { W.means.serves table.old seat.old }
    ensures { NotesAlone W.means (patched_where (map patch_value patches.now) sequence position) table.old seat.old table.new seat.new }
{
    if !patches.is_empty() {
        let chunk_id = position;
        table.note(seat, ServiceEvent::Patched { sequence, chunk_id });
    }
}

impl<S> ServiceCore<S> {
    /// Puts a chunk that was taken as the one at this position into its writer's buffer, notes that,
    /// and at last gives the chunk back: behind that a writer may have it.
    fn take_in<W: Words<Service = S>>(
        &mut self,
        table: &mut W,
        place: usize,
        position: u32,
        taken: Taken,
    )
        requires taken { TakenFor W.means table.old self.old.seat place position taken }
        requires lacks { LacksArrival (W.means.service_view table.old self.old.seat) place position }
        requires route { HasRoute (W.means.setup table.old) self.old place (vec_len taken.body.payload) }
        ensures puts { PutsIn (W.means.setup table.old) place position taken self.old self.new }
        ensures view { W.means.service_view table.new self.new.seat
            ≡ lets_go (noted_more (W.means.service_view table.old self.old.seat)
            (takings (sequence_of place) position (taken_content (W.means.setup table.old) place position taken ∷ []))) taken.chunk }
        ensures step { IsServiceStep W.means table.old self.old.seat table.new self.new.seat }
        ensures told { (world : World) → W.means.told table.old ≡ Some world
            → W.means.told table.new ≡ Some (served world (W.means.service_view table.new self.new.seat) taken.chunk Unclaimed) }
    {
        let sequence = place as u32 + FIRST_SEQUENCE;
        let index = usize::from(self.writers[place].buffer) - 1;
        let image = Image {
            sequence,
            chunk_id: taken.header.chunk_id,
            count: taken.header.count,
            flags: taken.header.flags,
            payload: &taken.body.payload,
        };
        arrive_in(&mut self.buffers, index, &image);
        let arrival = ServiceEvent::Arrive {
            sequence,
            chunk_id: position,
        };
        table.note(&mut self.seat, arrival);
        let patches = taken.body.patches.as_slice();
        patch_in(&mut self.buffers, index, sequence, patches);
        note_patches(table, &mut self.seat, sequence, position, patches);
        self.taken[place] = position + 1;
        table.release(&mut self.seat, taken);
    }
}

impl<S> ServiceCore<S> {
    /// Takes a chunk where it is the next one of the writer at this place, which has this position.
    fn try_take<W: Words<Service = S>>(
        &mut self,
        table: &mut W,
        place: usize,
        chunk: u32,
        position: u32,
    ) -> bool
        requires writer { ServesWriter W.means table.old self.old place }
        requires chunk { IsChunkOf (W.means.setup table.old) (producer_of (W.means.setup table.old) place) chunk }
        requires next { position ≡ (taken_of (W.means.service_view table.old self.old.seat) place).count }
        requires position { position < POSITION_LIMIT }
        ensures leaves { ServesOn W.means table.old self.old table.new self.new }
        ensures taken { result ≡ true → ChunkTaken W.means place chunk table.old self.old.seat table.new self.new.seat }
        ensures other { result ≡ false → ChunkPassed W.means place chunk table.old self.old.seat table.new self.new.seat }
    {
        let id = self.layout.id_at(place as u16, position);
        match table.take(&mut self.seat, chunk, place as u16 + 1, id) {
            Ok(taken) => {
                self.take_in(table, place, position, taken);
                true
            }
            Err(found) => {
                header_fits(found.header);
                false
            }
        }
    }
}

impl<S> ServiceCore<S> {
    /// Takes the next chunk of the writer at this place, where it is one of those from one up to
    /// another. Answers which.
    fn take_among<W: Words<Service = S>>(
        &mut self,
        table: &mut W,
        place: usize,
        first: u32,
        last: u32,
    ) -> Option<u32>
        requires writer { ServesWriter W.means table.old self.old place }
        requires range { (chunk : ℕ) → first ≤ chunk → chunk < last
            → IsChunkOf (W.means.setup table.old) (producer_of (W.means.setup table.old) place) chunk }
        requires order { first ≤ last }
        requires position { (taken_of (W.means.service_view table.old self.old.seat) place).count < POSITION_LIMIT }
        ensures leaves { ServesOn W.means table.old self.old table.new self.new }
        ensures inside { IfSome result (λ chunk. (first ≤ chunk) × (chunk < last)) }
        ensures taken { IsSome result → NextTaken W.means place table.old self.old.seat table.new self.new.seat }
        ensures none { result ≡ None → AllPassed W.means place first last table.old self.old.seat table.new self.new.seat }
    {
        let position = self.taken[place];
        for chunk in first..last {
            if self.try_take(table, place, chunk, position) {
                return Some(chunk);
            }
        }
        None
    }

    /// Takes the next chunk of the writer at this place, where one is complete, and answers which. It
    /// looks from one of them on first: a writer claims its chunks in rising order, so that its next
    /// one mostly stands behind the one before.
    fn take_next<W: Words<Service = S>>(
        &mut self,
        table: &mut W,
        place: usize,
        first: u32,
        count: u32,
        from: u32,
    ) -> Option<u32>
        requires writer { ServesWriter W.means table.old self.old place }
        requires range { IsRange (range_of (W.means.setup table.old) (producer_of (W.means.setup table.old) place)) first count }
        requires from { (first ≤ from) × (from ≤ first + count) }
        requires position { (taken_of (W.means.service_view table.old self.old.seat) place).count < POSITION_LIMIT }
        ensures leaves { ServesOn W.means table.old self.old table.new self.new }
        ensures inside { IfSome result (λ chunk. (first ≤ chunk) × (chunk < first + count)) }
        ensures taken { IsSome result → NextTaken W.means place table.old self.old.seat table.new self.new.seat }
        ensures none { result ≡ None → AllPassed W.means place first (first + count) table.old self.old.seat table.new self.new.seat }
    {
        match self.take_among(table, place, from, first + count) {
            Some(chunk) => Some(chunk),
            None => self.take_among(table, place, first, from),
        }
    }

    /// Takes the complete chunks of the writer at this place, at most as many as its producer has.
    /// Answers how many.
    fn take_all<W: Words<Service = S>>(&mut self, table: &mut W, place: usize) -> u32
        requires writer { ServesWriter W.means table.old self.old place }
        ensures leaves { ServesOn W.means table.old self.old table.new self.new }
        ensures takes { TakesOf (W.means.setup table.old) place result (W.means.service_view table.old self.old.seat)
            (W.means.service_view table.new self.new.seat) }
        ensures told { (world : World) → W.means.told table.old ≡ Some world
            → LeavesNext (W.means.setup table.old) place world (W.means.told table.new) (W.means.service_view table.new self.new.seat) }
    {
        let (first, count) = self.layout.chunks_of(self.writers[place].producer);
        let mut from = first;
        for taken in 0..count {
            if self.taken[place] == POSITION_LIMIT {
                return taken;
            }
            match self.take_next(table, place, first, count, from) {
                Some(chunk) => from = chunk + 1,
                None => return taken,
            }
        }
        count
    }

    /// Takes the complete chunks of the producer's writers, in rising number. Answers how many.
    pub fn collect<W: Words<Service = S>>(&mut self, table: &mut W, producer: u16) -> u64
        requires serves { ServesAt W.means table.old self.old }
        requires open { IsOpen (W.means.setup table.old) self.old producer }
        ensures leaves { ServesOn W.means table.old self.old table.new self.new }
        ensures takes { Takes (W.means.setup table.old) (places_of producer 0 (W.means.setup table.old).writers) result
            (W.means.service_view table.old self.old.seat) (W.means.service_view table.new self.new.seat) }
        ensures told { (world : World) → W.means.told table.old ≡ Some world
            → LeavesNone (W.means.setup table.old) producer world (W.means.told table.new) (W.means.service_view table.new self.new.seat) }
    {
        let mut count = 0u64;
        for place in 0..self.writers.len() {
            if self.writers[place].producer != producer {
                continue;
            }
            count += u64::from(self.take_all(table, place));
        }
        count
    }
}
