//! The table that threads share, lent to a service whose seat has this of the other seats. What is
//! called through `Words` says nothing of that; here its type does.
ghost use Rattle.std.specs.Prelude.{◌≡◌, Option, Some, None};
ghost use Rattle.std.proofs.Common.{subst};
ghost use Rattle.chunk_words.specs.Knows.{view_of, service_of};
ghost use Rattle.chunk_words.specs.Sits.{Sits, Remembers, HasNoPass, IsNothing};
ghost use Rattle.chunk_words.specs.Seen.{learnt_as_found, looks_agree};

use crate::host::HostTable;
use crate::seats::{ServiceSeat, WriterSeat};
use chunk_plain::{Claimed, Held, NotComplete, Seen, ServiceEvent, Taken, Words, WriterCall};
use commit_body::Patch;
use page_geometry::ChunkHeader;
use std::marker::{Brand, PhantomData};

/// What is known in proofs alone: which table it is, and what the service's seat has of the other
/// seats, which tales it heard and where the reading pass is.
pub trait Memory {
    ghost use Rattle.atomic_table.specs.Seated.{TableId};
    ghost use Rattle.chunk_words.specs.Knows.{Desk};

    ghost table: { TableId };

    ghost desk: { Desk };
}

impl Memory for Brand {
    ghost use Rattle.chunk_words.specs.Knows.{first_desk};
    ghost use Rattle.chunk_words.specs.Named.{no_table};

    ghost table = { no_table };

    ghost desk = { first_desk };
}

/// A table that threads share, as `Shared` has it, for a service that knows which table it is and this
/// of the other seats: it still does behind each call.
#[derive(Drop)]
pub struct Remembering<'t, N: Memory> {
    pub table: &'t HostTable,
    pub of: PhantomData<N>,
}

impl<'t, N: Memory> Remembering<'t, N> {
    pub fn new(table: &'t HostTable) -> Remembering<'t, N>
        ensures { result.table.now ≡ table.now }
    {
        Remembering {
            table,
            of: PhantomData,
        }
    }
}

impl<'t, N: Memory> Words for Remembering<'t, N> {
    type Writer = WriterSeat;

    type Service = ServiceSeat;

    ghost means = { record {
      setup = λ shared. shared.table.now.layout;
      sits = λ shared seat. Sits shared.table.now seat;
      place = λ seat. seat.place;
      view = λ _ seat. view_of seat.seat.me.0;
      serves = λ shared seat. Remembers shared.table.now N.desk seat × (shared.table.now.table.shared.table_id ≡ N.table);
      service_view = λ _ seat. service_of seat.seat.me.0;
      told = λ _. None;
      takes_reads = λ _ seat. HasNoPass seat;
    } };

    ghost laid = { λ shared. shared.table.now.laid };

    ghost rests = { λ shared seat sits. sits.rests.rests };

    ghost serving = { λ shared seat serves. serves.0.attends.waits.serving };

    ghost learnt = { λ shared seat serves. learnt_as_found (service_of seat.seat.me.0) serves.0.attends.waits.seen };

    ghost looks_agree = { λ shared seat serves. looks_agree (service_of seat.seat.me.0) serves.0.attends.waits.seen };

    ghost told_view = { λ shared seat world told sits. absurd (subst IsNothing told tt) };

    ghost told_service_view = { λ shared seat world told serves. absurd (subst IsNothing told tt) };

    ghost told_writers = { λ shared world told. absurd (subst IsNothing told tt) };

    ghost told_chunks = { λ shared world told. absurd (subst IsNothing told tt) };

    ghost told_owned = { λ shared world told. absurd (subst IsNothing told tt) };

    fn claim_try(&mut self, seat: &mut WriterSeat, chunk: u32) -> Option<Claimed> {
        self.table.claim_try(seat, chunk)
    }

    fn begin(&mut self, seat: &mut WriterSeat, claimed: Claimed, id: u32) -> Held {
        self.table.begin(seat, claimed, id)
    }

    fn publish(&mut self, seat: &mut WriterSeat, held: &mut Held, from: u32, to: u32) {
        self.table.publish(seat, held, from, to);
    }

    fn set_header(&mut self, seat: &mut WriterSeat, held: &mut Held, count: u16, flags: u8) {
        self.table.set_header(seat, held, count, flags);
    }

    fn complete(&mut self, seat: &mut WriterSeat, held: Held) {
        self.table.complete(seat, held);
    }

    fn look(&mut self, seat: &mut ServiceSeat, chunk: u32) -> Seen {
        self.table.look(seat, chunk)
    }

    fn load(&mut self, seat: &mut ServiceSeat, chunk: u32, into: &mut [u8]) {
        self.table.load(seat, chunk, into);
    }

    fn take(
        &mut self,
        seat: &mut ServiceSeat,
        chunk: u32,
        writer: u16,
        id: u32,
    ) -> Result<Taken, NotComplete> {
        self.table.take(seat, chunk, writer, id)
    }

    fn release(&mut self, seat: &mut ServiceSeat, taken: Taken) {
        self.table.release(seat, taken);
    }

    fn note_call(&mut self, seat: &mut WriterSeat, call: WriterCall<'_>) {
        self.table.note_call(seat, call);
    }

    fn note(&mut self, seat: &mut ServiceSeat, event: ServiceEvent) {
        self.table.note(seat, event);
    }

    fn note_commit(
        &mut self,
        seat: &mut ServiceSeat,
        header: ChunkHeader,
        payload: &[u8],
        patches: &[Patch],
    ) {
        self.table.note_commit(seat, header, payload, patches);
    }
}
