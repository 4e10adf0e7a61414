//! The table that threads share, lent to a service that reads with the reading pass: a read is noted
//! with the pass, anything else as ever.
ghost use Rattle.std.specs.Prelude.{◌≡◌, true, false, Option, Some, None};
ghost use Rattle.std.proofs.Common.{subst};
ghost use Rattle.chunk_plain.specs.Words.{IsReadEvent};
ghost use Rattle.chunk_words.specs.Seen.{learnt_as_found, looks_agree};
ghost use Rattle.chunk_words.specs.Sits.{Sits, IsNothing, setup_in, known_by, known_by_service};
ghost use Rattle.thread_service.specs.Passing.{PassesOn};

use chunk_plain::{Claimed, Held, NotComplete, Seen, ServiceEvent, Taken, Words, WriterCall};
use chunk_words::{HostTable, ReadPass, ServiceSeat, WriterSeat};
use commit_body::Patch;
use page_geometry::ChunkHeader;
use std::marker::{Brand, PhantomData};

/// What a read of a buffer starts from, known in proofs alone: which table it is, what the pass and
/// the service know, and what the service's seat has of the other seats.
pub trait Start {
    ghost use Rattle.atomic_table.specs.Seated.{TableId};
    ghost use Rattle.chunk_plain.specs.Views.{ServiceView};
    ghost use Rattle.chunk_words.specs.Knows.{Desk};

    ghost table: { TableId };

    ghost passed: { ServiceView };

    ghost view: { ServiceView };

    ghost desk: { Desk };
}

impl Start for Brand {
    ghost use Rattle.chunk_plain.specs.Views.{newcomer_service};
    ghost use Rattle.chunk_words.specs.Knows.{first_desk};
    ghost use Rattle.chunk_words.specs.Named.{no_table};

    ghost table = { no_table };

    ghost passed = { newcomer_service };

    ghost view = { newcomer_service };

    ghost desk = { first_desk };
}

/// A table that threads share, with the reading pass.
#[derive(Drop)]
pub struct Passing<'t, N: Start> {
    pub(crate) table: &'t HostTable,
    pub(crate) pass: ReadPass,
    pub(crate) of: PhantomData<N>,
}

/// Whether the event is a read.
fn is_read(event: &ServiceEvent) -> bool
    ensures yes { result ≡ true → IsReadEvent event.now }
    ensures no { result ≡ false → IsReadEvent event.now → ⊥ }
{
    matches!(
        *event,
        ServiceEvent::Read {
            sequence: _,
            limit: _
        }
    )
}

impl<'t, N: Start> Words for Passing<'t, N> {
    type Writer = WriterSeat;

    type Service = ServiceSeat;

    ghost means = { record {
      setup = λ passing. setup_in passing.table.now;
      sits = λ passing seat. Sits passing.table.now seat;
      place = λ seat. seat.place;
      view = λ _ seat. known_by seat;
      serves = λ passing seat. PassesOn N.table N.passed N.view N.desk passing.table.now passing.pass seat;
      service_view = λ _ seat. known_by_service seat;
      told = λ _. None;
      takes_reads = λ _ _. Unit {0};
    } };

    ghost laid = { λ passing. passing.table.now.laid };

    ghost rests = { λ passing seat sits. sits.rests.rests };

    ghost serving = { λ passing seat serves. serves.attends.waits.serving };

    ghost learnt = { λ passing seat serves. learnt_as_found (known_by_service seat) serves.attends.waits.seen };

    ghost looks_agree = { λ passing seat serves. looks_agree (known_by_service seat) serves.attends.waits.seen };

    ghost told_view = { λ passing seat world told sits. absurd (subst IsNothing told tt) };

    ghost told_service_view = { λ passing seat world told serves. absurd (subst IsNothing told tt) };

    ghost told_writers = { λ passing world told. absurd (subst IsNothing told tt) };

    ghost told_chunks = { λ passing world told. absurd (subst IsNothing told tt) };

    ghost told_owned = { λ passing world told. absurd (subst IsNothing told tt) };

    fn claim_try(&mut self, seat: &mut WriterSeat, chunk: u32) -> Option<Claimed> {
        self.table.claim_try(seat, chunk)
    }

    fn begin(&mut self, seat: &mut WriterSeat, claimed: Claimed, id: u32) -> Held {
        self.table.begin(seat, claimed, id)
    }

    fn publish(&mut self, seat: &mut WriterSeat, held: &mut Held, from: u32, to: u32) {
        self.table.publish(seat, held, from, to);
    }

    fn set_header(&mut self, seat: &mut WriterSeat, held: &mut Held, count: u16, flags: u8) {
        self.table.set_header(seat, held, count, flags);
    }

    fn complete(&mut self, seat: &mut WriterSeat, held: Held) {
        self.table.complete(seat, held);
    }

    fn look(&mut self, seat: &mut ServiceSeat, chunk: u32) -> Seen {
        self.table.look(seat, chunk)
    }

    fn load(&mut self, seat: &mut ServiceSeat, chunk: u32, into: &mut [u8]) {
        self.table.load(seat, chunk, into);
    }

    fn take(
        &mut self,
        seat: &mut ServiceSeat,
        chunk: u32,
        writer: u16,
        id: u32,
    ) -> Result<Taken, NotComplete> {
        self.table.take(seat, chunk, writer, id)
    }

    fn release(&mut self, seat: &mut ServiceSeat, taken: Taken) {
        self.table.release(seat, taken);
    }

    fn note_call(&mut self, seat: &mut WriterSeat, call: WriterCall<'_>) {
        self.table.note_call(seat, call);
    }

    fn note(&mut self, seat: &mut ServiceSeat, event: ServiceEvent) {
        if is_read(&event) {
            self.table.note_read(seat, &mut self.pass, event);
            return;
        }
        self.table.note(seat, event);
    }

    fn note_commit(
        &mut self,
        seat: &mut ServiceSeat,
        header: ChunkHeader,
        payload: &[u8],
        patches: &[Patch],
    ) {
        self.table.note_commit(seat, header, payload, patches);
    }
}
