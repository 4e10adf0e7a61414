//! Scraping: what is finished of the chunks that writers hold.
ghost use Rattle.std.specs.Prelude.{◌≡◌, ℕ, ◌<◌, true, false, Some, [], ◌∷◌, length, IfSome, IfNone};
ghost use Rattle.trace_base.specs.declared.limits.TheConstants.{MAX_CHUNKS_PER_PAGE};
ghost use Rattle.page_geometry.specs.declared.chunk_state.ChunkState.TheVariants.{BeingWritten};
ghost use Rattle.page_geometry.specs.PageBits.{HasState};
ghost use Rattle.chunk_plain.specs.Setup.{producer_of, IsChunkOf, sequence_of};
ghost use Rattle.chunk_plain.specs.Views.{Partial, taken_of};
ghost use Rattle.chunk_plain.specs.World.{World};
ghost use Rattle.service_core.specs.Agreement.{IsOpen};
ghost use Rattle.service_core.specs.Order.{IsFoundPart};
ghost use Rattle.service_core.specs.Taking.{noted_more};
ghost use Rattle.service_core.specs.Scraping.{IsPart, FitsWord, ScrapesOne, TakesAndScrapes, HoldsOwn, NotesPart, ScrapesWorld, IsLookedPart, PartTaken, NoPartTaken};
ghost use Rattle.service_core.specs.Calls.{ServesAt, ServesWriter, ServesOn, NotesOn};

use crate::routing::arrive_part_in;
use crate::service::ServiceCore;
use chunk_image::Image;
use chunk_plain::{Seen, ServiceEvent, Words};
use page_geometry::{ChunkHeader, FIRST_CONTINUES};
use scrape_core::finished_of;
use trace_base::limits::FIRST_SEQUENCE;

/// How many fragments a look found finished of the chunk at this place of its page, where this
/// writer is writing it under this id.
fn part_in(seen: Seen, at: u8, writer: u16, id: u32) -> Option<u16>
    requires { at < MAX_CHUNKS_PER_PAGE }
    ensures some { IfSome result (λ finished. IsPart seen at writer id finished) }
    ensures none { IfNone result (HasState seen.word.0 at BeingWritten → seen.header.writer_id ≡ writer → seen.header.chunk_id ≡ id
        → seen.header.count < 2) }
    ensures fits { FitsWord seen.header }
{
    if seen.header.writer_id != writer || seen.header.chunk_id != id {
        return None;
    }
    finished_of(seen, at)
}

impl<S> ServiceCore<S> {
    /// Puts the finished fragments of a chunk, as many as a look found, into its writer's buffer, and
    /// notes that.
    fn put_part<W: Words<Service = S>>(
        &mut self,
        table: &mut W,
        place: usize,
        chunk: u32,
        header: ChunkHeader,
        finished: u16,
    )
        requires writer { ServesWriter W.means table.old self.old place }
        requires chunk { IsChunkOf (W.means.setup table.old) (producer_of (W.means.setup table.old) place) chunk }
        requires part { IsLookedPart (W.means.setup table.old) (W.means.service_view table.old self.old.seat) place chunk header finished }
        ensures leaves { NotesOn W.means table.old self.old table.new self.new }
        ensures view { W.means.service_view table.new self.new.seat
            ≡ noted_more (W.means.service_view table.old self.old.seat)
            (Partial (sequence_of place) (taken_of (W.means.service_view table.old self.old.seat) place).count finished ∷ []) }
        ensures part { IsFoundPart (W.means.service_view table.new self.new.seat) (sequence_of place)
            (taken_of (W.means.service_view table.old self.old.seat) place).count finished }
    {
        let sequence = place as u32 + FIRST_SEQUENCE;
        let index = usize::from(self.writers[place].buffer) - 1;
        let position = self.taken[place];
        let size = self.layout.spot(chunk).payload_size;
        self.room.load(table, &mut self.seat, chunk, size);
        let image = Image {
            sequence,
            chunk_id: header.chunk_id,
            count: finished,
            flags: header.flags & FIRST_CONTINUES,
            payload: self.room.front(size),
        };
        arrive_part_in(&mut self.buffers, index, &image);
        let limit = u64::from(finished);
        let part = ServiceEvent::Partial {
            sequence,
            chunk_id: position,
            limit,
        };
        table.note(&mut self.seat, part);
    }

    /// Looks at a chunk, and where the writer at this place holds it as its next one, the finished
    /// fragments arrive.
    fn scrape_chunk<W: Words<Service = S>>(
        &mut self,
        table: &mut W,
        place: usize,
        chunk: u32,
    ) -> bool
        requires writer { ServesWriter W.means table.old self.old place }
        requires chunk { IsChunkOf (W.means.setup table.old) (producer_of (W.means.setup table.old) place) chunk }
        ensures leaves { ServesOn W.means table.old self.old table.new self.new }
        ensures part { result ≡ true → PartTaken W.means place table.old self.old.seat table.new self.new.seat }
        ensures none { result ≡ false → NoPartTaken W.means place chunk table.old self.old.seat table.new self.new.seat }
    {
        let seen = table.look(&mut self.seat, chunk);
        let at = self.layout.spot(chunk).place;
        let next = self.layout.id_at(place as u16, self.taken[place]);
        match part_in(seen, at, place as u16 + 1, next) {
            Some(finished) => {
                self.put_part(table, place, chunk, seen.header, finished);
                true
            }
            None => false,
        }
    }
}

impl<S> ServiceCore<S> {
    /// Scrapes the next chunk of the writer at this place, where it holds one.
    fn scrape_writer<W: Words<Service = S>>(&mut self, table: &mut W, place: usize)
        requires writer { ServesWriter W.means table.old self.old place }
        ensures leaves { ServesOn W.means table.old self.old table.new self.new }
        ensures scrapes { ScrapesOne (W.means.setup table.old) place
            (W.means.service_view table.old self.old.seat) (W.means.service_view table.new self.new.seat) }
        ensures told { (world : World) → W.means.told table.old ≡ Some world → HoldsOwn (W.means.setup table.old) place world
            → NotesPart place world (W.means.told table.new)
            (W.means.service_view table.old self.old.seat) (W.means.service_view table.new self.new.seat) }
    {
        let (first, count) = self.layout.chunks_of(self.writers[place].producer);
        for chunk in first..first + count {
            if self.scrape_chunk(table, place, chunk) {
                return;
            }
        }
    }

    /// Takes the complete chunks of the producer's writers, as `collect` does, and then of each of
    /// them, in rising number, the finished fragments of the chunk that it holds. A writer whose held
    /// chunk isn't its next one is passed over. Answers how many chunks it took.
    pub fn scrape<W: Words<Service = S>>(&mut self, table: &mut W, producer: u16) -> u64
        requires serves { ServesAt W.means table.old self.old }
        requires open { IsOpen (W.means.setup table.old) self.old producer }
        ensures leaves { ServesOn W.means table.old self.old table.new self.new }
        ensures scrapes { TakesAndScrapes (W.means.setup table.old) producer result
            (W.means.service_view table.old self.old.seat) (W.means.service_view table.new self.new.seat) }
        ensures told { (world : World) → W.means.told table.old ≡ Some world
            → ((place : ℕ) → place < length (W.means.setup table.old).writers → producer_of (W.means.setup table.old) place ≡ producer
            → HoldsOwn (W.means.setup table.old) place world)
            → ScrapesWorld (W.means.setup table.old) producer result world (W.means.service_view table.old self.old.seat)
            (W.means.told table.new) (W.means.service_view table.new self.new.seat) }
    {
        let count = self.collect(table, producer);
        for place in 0..self.writers.len() {
            if self.writers[place].producer != producer {
                continue;
            }
            self.scrape_writer(table, place);
        }
        count
    }
}
