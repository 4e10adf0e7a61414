//! The calls on the table of one thread.
ghost use Rattle.std.specs.Prelude.{◌≡◌, ℕ, ◌+◌, ◌-◌, ◌<◌, ◌≤◌, Option, Some, None, length, vec_len};
ghost use Rattle.std.proofs.Common.{ap, sym, subst, unwrap_or, ◌∙◌};
ghost use Rattle.std.proofs.Math.Logic.{∥∥₁_map, ∥∥₁_elim};
ghost use Rattle.std.proofs.Math.Nat.{ℕ_set};
ghost use Rattle.std.specs.Coded.{le_prop};
ghost use mathlib.Core.Option.{some-injective};
ghost use Rattle.trace_base.specs.declared.limits.TheConstants.{MAX_CHUNKS_PER_PAGE};
ghost use Rattle.page_geometry.specs.PageBits.{Claims, KeepsOthers};
ghost use Rattle.chunk_plain.specs.Views.{At, BegunChunk, Completed};
ghost use Rattle.chunk_plain.specs.Drafts.{StillHas};
ghost use Rattle.chunk_plain.specs.Plain.{IsKept};
ghost use Rattle.chunk_plain.specs.World.{World, writer, nowhere};
ghost use Rattle.chunk_plain.specs.Owned.{IsOwned};
ghost use Rattle.chunk_plain.specs.Words.{IsAtRest, IsServing, HasBoth};

use crate::bytes::{stored_end, unpack};
use crate::notes::{ServiceEvent, WriterCall};
use crate::plain::PlainTable;
use crate::plain_seats::{PlainService, PlainWriter};
use crate::slots::words_of;
use crate::step::Step;
use crate::tokens::{Claimed, Held, NotComplete, Seen, Taken};
use crate::words::Words;
use crate::worlds::make_step;
use commit_body::Patch;
use page_geometry::masks::claim_mask;
use page_geometry::{ChunkHeader, ChunkState, PageWord};

impl Words for PlainTable {
    type Writer = PlainWriter;

    type Service = PlainService;

    ghost means = { record {
      setup = λ table. table.layout;
      sits = λ table seat. IsAtRest table.layout seat.place (writer table.told.world seat.place);
      place = λ seat. seat.place;
      view = λ table seat. writer table.told.world seat.place;
      serves = λ table _. IsServing table.layout table.told.world.service;
      service_view = λ table _. table.told.world.service;
      told = λ table. Some table.told.world;
      takes_reads = λ _ _. Unit {0};
    } };

    ghost laid = { λ table. table.laid };

    ghost rests = { λ table seat sits. sits };

    ghost serving = { λ table seat serves. serves };

    ghost learnt = { λ table seat serves n look found content at is has.
        let fact : IsKept table.layout table.words.items table.slots.items table.told.world → (chunk : ℕ) × StillHas look.chunk found (Completed chunk content) = λ kept.
        let there = (kept.owned.looks n look found at is).1 in
        let done = (kept.owned.counts found.place).learnt found.position content has in
        (done.0, subst (StillHas look.chunk found) (some-injective there.entry (Completed done.0 content) (sym there.at ∙ done.1)) there.has) in (
          record {
            count_grows = ∥∥₁_elim table.kept (Prim.hlevel le_prop) (λ kept. (fact kept).1.1.count_grows);
            front_stays = λ some. ∥∥₁_elim table.kept (ℕ_set _ _) (λ kept. (fact kept).1.1.front_stays some);
          },
          ∥∥₁_elim table.kept (Prim.hlevel le_prop) (λ kept. (fact kept).1.2),
          λ j below. ∥∥₁_elim table.kept (ℕ_set _ _) (λ kept. (fact kept).1.3 j below),
        ) };

    ghost looks_agree = { λ table seat serves n m look later found other at is then was place position.
        let both : IsKept table.layout table.words.items table.slots.items table.told.world → HasBoth look.chunk found later.chunk other = λ kept.
        let here = kept.owned.looks n look found at is in
        let there = kept.owned.looks m later other then was in
        let moved = subst (λ (i : ℕ). At (writer table.told.world found.place).begun i there.1.entry) (sym position)
        (subst (λ (p : ℕ). At (writer table.told.world p).begun other.position there.1.entry) (sym place) there.1.at) in
        let same = some-injective here.1.entry there.1.entry (sym here.1.at ∙ moved) in
        record {
          entry = here.1.entry;
          found_is = here.0;
          has = here.1.has;
          other_is = there.0;
          had = subst (λ (e : BegunChunk). StillHas later.chunk other e) (sym same) there.1.has;
        } in
        ∥∥₁_map table.kept both };

    ghost told_view = { λ table seat world told sits. ap (λ (known : Option World). writer (unwrap_or known nowhere) seat.place) told };

    ghost told_service_view = { λ table seat world told serves. ap (λ (known : Option World). (unwrap_or known nowhere).service) told };

    ghost told_writers = { λ table world told. ap (λ (known : Option World). length (unwrap_or known nowhere).writers) (sym told) ∙ ∥∥₁_elim table.kept (ℕ_set _ _) (λ kept. kept.writers) };

    ghost told_chunks = { λ table world told. ap (λ (known : Option World). length (unwrap_or known nowhere).chunks) (sym told) ∙ ∥∥₁_elim table.kept (ℕ_set _ _) (λ kept. kept.shown.chunk_count) };

    ghost told_owned = { λ table world told. subst (λ (known : Option World). ∥ IsOwned (unwrap_or known nowhere) ∥₁) told (∥∥₁_map table.kept (λ kept. kept.owned)) };

    fn claim_try(&mut self, seat: &mut PlainWriter, chunk: u32) -> Option<Claimed> {
        let spot = self.layout.spot(chunk);
        let page = spot.page as usize;
        let found = self.words[page];
        let claimed = PageWord(found).claimed(spot.place);
        let step = Step::Claim {
            place: seat.place,
            chunk,
            found,
            won: !claimed,
        };
        if claimed {
            // The word has each bit that the claim would set.
            make_step(&mut self.told, &step);
            return None;
        }
        self.words[page] = with_claim(found, spot.place, spot.layout);
        make_step(&mut self.told, &step);
        Some(Claimed { chunk })
    }

    fn begin(&mut self, seat: &mut PlainWriter, claimed: Claimed, id: u32) -> Held {
        let Claimed { chunk } = claimed;
        let position = self.layout.position_at(seat.place, id);
        self.store_first_header(seat.place, chunk, id);
        self.set_written(seat.place, chunk);
        let mut body = self.take_body(chunk);
        body.patches.clear();
        Held {
            chunk,
            position,
            body,
        }
    }

    fn publish(&mut self, seat: &mut PlainWriter, held: &mut Held, from: u32, to: u32) {
        let first = from as usize / 8;
        let end = stored_end(from, to, held.body.payload.len());
        self.store_words(
            seat.place,
            held.chunk,
            held.position,
            first,
            end,
            &held.body.payload,
        );
    }

    fn set_header(&mut self, seat: &mut PlainWriter, held: &mut Held, count: u16, flags: u8) {
        let chunk = held.chunk;
        let position = held.position;
        let header = ChunkHeader {
            chunk_id: self.layout.id_at(seat.place, position),
            writer_id: seat.place + 1,
            count,
            flags,
        };
        let at = self.layout.header_index(chunk);
        self.words[at] = header.pack();
        let step = Step::SetHeader {
            place: seat.place,
            chunk,
            position,
            count,
            flags,
        };
        make_step(&mut self.told, &step);
    }

    fn complete(&mut self, seat: &mut PlainWriter, held: Held) {
        let Held {
            chunk,
            position,
            body,
        } = held;
        self.put_body(chunk, body);
        self.set_complete(seat.place, chunk, position);
    }

    fn look(&mut self, _seat: &mut PlainService, chunk: u32) -> Seen {
        let seen = self.peek(chunk);
        self.note_look(chunk, seen);
        seen
    }

    fn load(&mut self, _seat: &mut PlainService, chunk: u32, into: &mut [u8]) {
        unpack(words_of(&self.slots, chunk), into);
    }

    fn take(
        &mut self,
        _seat: &mut PlainService,
        chunk: u32,
        writer: u16,
        id: u32,
    ) -> Result<Taken, NotComplete> {
        let seen = self.peek(chunk);
        let Seen { word, header } = seen;
        let place = self.layout.spot(chunk).place;
        // Few chunks have this header, so that the first two tests mostly decide.
        if header.writer_id != writer
            || header.chunk_id != id
            || word.state(place) != ChunkState::Complete
        {
            self.note_look(chunk, seen);
            return Err(NotComplete { word, header });
        }
        self.set_read(writer - 1, chunk, word.0, header);
        let mut body = self.take_body(chunk);
        self.load_taken(chunk, &mut body.payload);
        self.learn(writer - 1, chunk, header, &body);
        Ok(Taken {
            chunk,
            header,
            body,
        })
    }

    fn release(&mut self, _seat: &mut PlainService, taken: Taken) {
        let Taken {
            chunk,
            header: _,
            body: emptied,
        } = taken;
        self.put_body(chunk, emptied);
        self.set_free(chunk);
    }

    fn note_call(&mut self, seat: &mut PlainWriter, call: WriterCall<'_>) {
        let step = Step::Call {
            place: seat.place,
            call,
        };
        make_step(&mut self.told, &step);
    }

    fn note(&mut self, _seat: &mut PlainService, event: ServiceEvent) {
        make_step(&mut self.told, &Step::Event { event });
    }

    fn note_commit(
        &mut self,
        _seat: &mut PlainService,
        header: ChunkHeader,
        payload: &[u8],
        patches: &[Patch],
    ) {
        let step = Step::Commit {
            layout: &self.layout,
            header,
            payload,
            patches,
        };
        make_step(&mut self.told, &step);
    }
}

/// The page word behind a claim that won. It isn't inlined, so that a claim in vain shifts no mask.
#[inline(never)]
fn with_claim(found: u64, place: u8, layout: u8) -> u64
    requires place { place < MAX_CHUNKS_PER_PAGE }
    requires layout { layout < 8 }
    ensures step { Claims found result place layout }
    ensures others { KeepsOthers found result place }
{
    found | claim_mask(place, layout)
}
