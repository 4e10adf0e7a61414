//! The table that threads share, as the trait `Words` has it.
ghost use Rattle.std.specs.Prelude.{Option, Some, None};
ghost use Rattle.std.proofs.Common.{subst};
ghost use Rattle.chunk_words.specs.Knows.{view_of, service_of};
ghost use Rattle.chunk_words.specs.Sits.{Sits, Attends, HasNoPass, IsNothing};
ghost use Rattle.chunk_words.specs.Seen.{learnt_as_found, looks_agree};

use crate::host::HostTable;
use crate::seats::{ServiceSeat, WriterSeat};
use chunk_plain::{Claimed, Held, NotComplete, Seen, ServiceEvent, Taken, Words, WriterCall};
use commit_body::Patch;
use page_geometry::ChunkHeader;

/// A table that threads share, lent to one of them. It tells no world: between two calls of one
/// thread the others may have made any steps.
#[derive(Drop)]
pub struct Shared<'t> {
    pub table: &'t HostTable,
}

impl<'t> Words for Shared<'t> {
    type Writer = WriterSeat;

    type Service = ServiceSeat;

    ghost means = { record {
      setup = λ shared. shared.table.now.layout;
      sits = λ shared seat. Sits shared.table.now seat;
      place = λ seat. seat.place;
      view = λ _ seat. view_of seat.seat.me.0;
      serves = λ shared seat. Attends shared.table.now seat;
      service_view = λ _ seat. service_of seat.seat.me.0;
      told = λ _. None;
      takes_reads = λ _ seat. HasNoPass seat;
    } };

    ghost laid = { λ shared. shared.table.now.laid };

    ghost rests = { λ shared seat sits. sits.rests.rests };

    ghost serving = { λ shared seat serves. serves.waits.serving };

    ghost learnt = { λ shared seat serves. learnt_as_found (service_of seat.seat.me.0) serves.waits.seen };

    ghost looks_agree = { λ shared seat serves. looks_agree (service_of seat.seat.me.0) serves.waits.seen };

    ghost told_view = { λ shared seat world told sits. absurd (subst IsNothing told tt) };

    ghost told_service_view = { λ shared seat world told serves. absurd (subst IsNothing told tt) };

    ghost told_writers = { λ shared world told. absurd (subst IsNothing told tt) };

    ghost told_chunks = { λ shared world told. absurd (subst IsNothing told tt) };

    ghost told_owned = { λ shared world told. absurd (subst IsNothing told tt) };

    fn claim_try(&mut self, seat: &mut WriterSeat, chunk: u32) -> Option<Claimed> {
        self.table.claim_try(seat, chunk)
    }

    fn begin(&mut self, seat: &mut WriterSeat, claimed: Claimed, id: u32) -> Held {
        self.table.begin(seat, claimed, id)
    }

    fn publish(&mut self, seat: &mut WriterSeat, held: &mut Held, from: u32, to: u32) {
        self.table.publish(seat, held, from, to);
    }

    fn set_header(&mut self, seat: &mut WriterSeat, held: &mut Held, count: u16, flags: u8) {
        self.table.set_header(seat, held, count, flags);
    }

    fn complete(&mut self, seat: &mut WriterSeat, held: Held) {
        self.table.complete(seat, held);
    }

    fn look(&mut self, seat: &mut ServiceSeat, chunk: u32) -> Seen {
        self.table.look(seat, chunk)
    }

    fn load(&mut self, seat: &mut ServiceSeat, chunk: u32, into: &mut [u8]) {
        self.table.load(seat, chunk, into);
    }

    fn take(
        &mut self,
        seat: &mut ServiceSeat,
        chunk: u32,
        writer: u16,
        id: u32,
    ) -> Result<Taken, NotComplete> {
        self.table.take(seat, chunk, writer, id)
    }

    fn release(&mut self, seat: &mut ServiceSeat, taken: Taken) {
        self.table.release(seat, taken);
    }

    fn note_call(&mut self, seat: &mut WriterSeat, call: WriterCall<'_>) {
        self.table.note_call(seat, call);
    }

    fn note(&mut self, seat: &mut ServiceSeat, event: ServiceEvent) {
        self.table.note(seat, event);
    }

    fn note_commit(
        &mut self,
        seat: &mut ServiceSeat,
        header: ChunkHeader,
        payload: &[u8],
        patches: &[Patch],
    ) {
        self.table.note_commit(seat, header, payload, patches);
    }
}
