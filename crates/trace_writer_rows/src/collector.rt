//! A helper that takes the complete chunks of one writer and lets them go, as a service does.
ghost use Rattle.std.specs.Prelude.{◌≡◌, ◌+◌, ◌-◌, ◌<◌, ◌≤◌, [], length, vec_len};
ghost use Rattle.std.proofs.Common.{refl, ap, sym, subst, ◌∙◌};
ghost use Rattle.trace_model.specs.Counts.{last_count};
ghost use Rattle.chunk_plain.specs.Setup.{Setup, from_of, spot};
ghost use Rattle.chunk_plain.specs.Views.{Arrive, ServiceView, taken_of};
ghost use Rattle.chunk_plain.specs.Owned.{times};
ghost use Rattle.chunk_plain.specs.Steps.{lets_go, notes};
ghost use Rattle.chunk_plain.specs.Words.{AllArrived, LacksArrival};
ghost use Rattle.chunk_plain.specs.Meaning.{IsServiceStep};
ghost use Rattle.trace_writer.specs.Helping.{LeavesWriters};

use crate::setting::FROM;
use chunk_plain::{ChunkRange, PlainService, PlainTable, ServiceEvent, Taken, Words};
use commit_body::Patch;
use page_geometry::ChunkHeader;
use trace_base::ids::id_of;
use trace_base::limits::MAX_INPUT;
use trace_writer::{HelperOn, NoHelp};

/// What a chunk had: its header, the first bytes of its payload, the place behind its fragments, and
/// how many patches came with it.
#[derive(Clone, Copy, Debug, PartialEq, Eq)]
pub(crate) struct Image {
    pub header: ChunkHeader,
    pub front: [u8; 16],
    pub at: usize,
    pub patches: usize,
    pub first_patch: Option<Patch>,
}

impl Image {
    fn of(taken: &Taken) -> Image {
        let mut front = [0; 16];
        for i in 0..16 {
            if let Some(byte) = taken.body.payload.get(i) {
                front[i] = *byte;
            }
        }
        Image {
            header: taken.header,
            front,
            at: end_of(taken),
            patches: taken.body.patches.len(),
            first_patch: taken.body.patches.first().copied(),
        }
    }
}

/// The place behind a chunk's fragments, as a reader finds them.
fn end_of(taken: &Taken) -> usize {
    let payload = taken.body.payload.as_slice();
    if payload.len() > MAX_INPUT as usize {
        return 0;
    }
    let image = chunk_image::Image {
        sequence: 1,
        chunk_id: taken.header.chunk_id,
        count: taken.header.count,
        flags: taken.header.flags,
        payload,
    };
    let Ok(fragments) = image.fragments() else {
        return 0;
    };
    let mut at = 0;
    for fragment in fragments {
        at = (fragment.offset as usize).saturating_add(fragment.bytes.len());
    }
    at
}

/// The service's seat, with the chunks of the producer.
#[derive(Drop)]
pub(crate) struct Collector {
    pub service: PlainService,
    pub range: ChunkRange,
    /// Chunks that were taken of the first writer.
    pub taken: u32,
    /// The newest four of them, by the rest of their positions.
    pub images: [Option<Image>; 4],
    /// It takes nothing when a writer asks it.
    pub waits: bool,
    /// How often it was asked.
    pub asks: u64,
}

/// Notes that a chunk of the first writer arrived, as the service does, and gives it back.
fn give_back(table: &mut PlainTable, service: &mut PlainService, token: Taken, position: u32)
    requires service { ⟦<PlainTable as Words>⟧.means.serves table.old service.old }
    requires lacks { LacksArrival (⟦<PlainTable as Words>⟧.means.service_view table.old service.old) 0 position }
    requires reading { 0 < times token.chunk (⟦<PlainTable as Words>⟧.means.service_view table.old service.old).reading }
    requires size { vec_len token.body.payload ≡ (spot (⟦<PlainTable as Words>⟧.means.setup table.old) token.chunk).payload_size }
    ensures view { ⟦<PlainTable as Words>⟧.means.service_view table.new service.new
        ≡ lets_go (notes (⟦<PlainTable as Words>⟧.means.service_view table.old service.old) (Arrive 2 position)) token.chunk }
    ensures arrived { AllArrived (⟦<PlainTable as Words>⟧.means.service_view table.new service.new) }
    ensures step { IsServiceStep ⟦<PlainTable as Words>⟧.means table.old service.old table.new service.new }
{
    let arrival = ServiceEvent::Arrive {
        sequence: 2,
        chunk_id: position,
    };
    table.note(service, arrival);
    table.release(service, token);
}

impl Collector {
    /// Takes the chunk where it is the next one, notes that it arrived, and lets it go.
    fn try_one(&mut self, table: &mut PlainTable, chunk: u32)
        requires needs { ⟦<Collector as HelperOn<PlainTable>>⟧.needs self.old table.old }
        requires chunk { chunk < self.old.range.first + self.old.range.count }
        ensures needs { ⟦<Collector as HelperOn<PlainTable>>⟧.needs self.new table.new }
        ensures range { self.new.range ≡ self.old.range }
        ensures grows { self.old.taken ≤ self.new.taken }
        ensures leaves { LeavesWriters ⟦<PlainTable as Words>⟧.means table.old table.new }
    {
        let Some(more) = self.taken.checked_add(1) else {
            return;
        };
        let Ok(token) = table.take(&mut self.service, chunk, 1, id_of(FROM, self.taken)) else {
            return;
        };
        let position = self.taken;
        self.images[position as usize % 4] = Some(Image::of(&token));
        self.taken = more;
        give_back(table, &mut self.service, token, position);
    }
}

impl HelperOn<PlainTable> for Collector {
    ghost turns = { λ collector. 4294967296 - collector.taken };

    // the chunks are there, it counted what was taken of the first writer, whose ids it knows, it reads none of it, and all of it has arrived
    ghost needs = { λ collector table. (⟦<PlainTable as Words>⟧.means.serves table collector.service)
        × (collector.range.first + collector.range.count ≤ length (⟦<PlainTable as Words>⟧.means.setup table).spots)
        × (1 ≤ length (⟦<PlainTable as Words>⟧.means.setup table).writers)
        × (0 < length (⟦<PlainTable as Words>⟧.means.service_view table collector.service).taken)
        × ((⟦<PlainTable as Words>⟧.means.service_view table collector.service).reading ≡ [])
        × (collector.taken ≡ (taken_of (⟦<PlainTable as Words>⟧.means.service_view table collector.service) 0).count)
        × (from_of (⟦<PlainTable as Words>⟧.means.setup table) 0 ≡ 4294967295)
        × AllArrived (⟦<PlainTable as Words>⟧.means.service_view table collector.service) };

    ghost helps = { λ helper table producer answer after left. Unit {0} };

    // what it counts is for the tests alone
    ghost asked = { λ _. last_count };

    ghost asked_more = { λ _ _ _ _ _ _ _. refl };

    ghost needs_stay = { λ helper old new seat after step needs.
        let stays = step.service_stays helper.service needs.0 in (
          stays.0,
          subst (λ (s : Setup). helper.range.first + helper.range.count ≤ length s.spots) (sym step.setup_stays) needs.1,
          subst (λ (s : Setup). 1 ≤ length s.writers) (sym step.setup_stays) needs.2,
          subst (λ (v : ServiceView). 0 < length v.taken) (sym stays.1) needs.3,
          ap (λ (v : ServiceView). v.reading) stays.1 ∙ needs.4,
          needs.5 ∙ ap (λ (v : ServiceView). (taken_of v 0).count) (sym stays.1),
          ap (λ (s : Setup). from_of s 0) step.setup_stays ∙ needs.6,
          subst AllArrived (sym stays.1) needs.7,
        ) };

    fn help(&mut self, table: &mut PlainTable, producer: u16) -> bool {
        self.asks = self.asks.saturating_add(1);
        if self.waits {
            return NoHelp.help(table, producer);
        }
        let before = self.taken;
        let range = self.range;
        for chunk in range.first..range.first + range.count {
            self.try_one(table, chunk);
        }
        before < self.taken
    }
}
