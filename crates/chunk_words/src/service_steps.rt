//! The steps of the service's seat: each is one atomic step on the table.
ghost use Rattle.std.specs.Prelude.{◌≡◌, ◌+◌, ◌<◌, [], length, vec_len, IsSome, IfSome};
ghost use Rattle.page_geometry.specs.Header.{packed};
ghost use Rattle.page_geometry.specs.PageBits.{HasState};
ghost use Rattle.page_geometry.specs.declared.chunk_state.ChunkState.TheVariants.{Complete};
ghost use Rattle.chunk_plain.specs.Setup.{spot};
ghost use Rattle.chunk_plain.specs.Views.{taken_of};
ghost use Rattle.chunk_plain.specs.Owned.{times};
ghost use Rattle.chunk_plain.specs.Steps.{learns, lets_go, notes, notes_commit};
ghost use Rattle.chunk_plain.specs.Words.{AllArrived, IsReadEvent, MayNote, event_of, committed_of};
ghost use Rattle.chunk_words.specs.Knows.{Peeked, Known, Lifted, Unmade, desk_of, stage_of, watch_of, service_of};
ghost use Rattle.chunk_words.specs.Moves.{watched, body_in, Peeks, Looks, ReadsHeader, Misses, Serves, Takes, Loads, Lifts, WatchesNext};
ghost use Rattle.chunk_words.specs.Places.{payload_start, payload_words};
ghost use Rattle.chunk_words.specs.Told.{TellsComplete};
ghost use Rattle.chunk_words.specs.Seats.{IsService, HasLifted};
ghost use Rattle.chunk_words.specs.Sits.{CanServe, ServiceLeaves};

use crate::host::HostTable;
use crate::moves::Move;
use crate::seats::ServiceSeat;
use crate::steps::{make_and, make_load};
use chunk_plain::ServiceEvent;
use commit_body::Patch;
use page_geometry::ChunkHeader;
use page_geometry::masks::{release_mask, take_mask};

impl HostTable {
    /// Reads the page word of a chunk.
    pub(crate) fn step_peek(&self, seat: &mut ServiceSeat, chunk: u32) -> u64
        requires seat { CanServe self.now seat.old }
        requires chunk { chunk < length self.now.layout.spots }
        ensures { ServiceLeaves seat.old seat.new (λ me new. Peeks self.now.layout chunk me result new) }
    {
        let spot = self.layout.spot(chunk);
        let step = Move::Peek {
            layout: &self.layout,
            chunk,
        };
        let table = &self.table;
        make_load(
            &table.shared,
            &mut seat.seat,
            self.page_index(spot.page),
            &step,
        )
    }

    /// Reads the header word of a chunk whose page word was found, and notes the look.
    pub(crate) fn step_find(&self, seat: &mut ServiceSeat, chunk: u32, word: u64) -> u64
        requires seat { CanServe self.now seat.old }
        requires chunk { chunk < length self.now.layout.spots }
        requires watch { watch_of seat.old.seat.me.0 ≡ Peeked chunk word }
        requires told { TellsComplete self.now.layout chunk word (service_of seat.old.seat.me.0) (desk_of seat.old.seat.me.0) }
        ensures { ServiceLeaves seat.old seat.new (λ me new. Looks self.now.layout chunk word me result new) }
    {
        let step = Move::Find {
            layout: &self.layout,
            chunk,
            word,
        };
        let table = &self.table;
        make_load(
            &table.shared,
            &mut seat.seat,
            self.header_index(chunk),
            &step,
        )
    }

    /// Reads the header word of a chunk that was found complete.
    pub(crate) fn step_know(&self, seat: &mut ServiceSeat, chunk: u32, word: u64) -> u64
        requires seat { CanServe self.now seat.old }
        requires chunk { chunk < length self.now.layout.spots }
        requires complete { HasState word (spot self.now.layout chunk).place Complete }
        requires watch { watch_of seat.old.seat.me.0 ≡ Peeked chunk word }
        ensures { ServiceLeaves seat.old seat.new (λ me new. ReadsHeader chunk word me result new) }
    {
        let table = &self.table;
        make_load(
            &table.shared,
            &mut seat.seat,
            self.header_index(chunk),
            &Move::Know { chunk, word },
        )
    }

    /// Notes the look at a complete chunk that wasn't the one asked for.
    pub(crate) fn step_miss(
        &self,
        seat: &mut ServiceSeat,
        chunk: u32,
        word: u64,
        header: ChunkHeader,
    )
        requires seat { CanServe self.now seat.old }
        requires watch { watch_of seat.old.seat.me.0 ≡ Known chunk word (packed header) }
        requires complete { HasState word (spot self.now.layout chunk).place Complete }
        ensures { ServiceLeaves seat.old seat.new (Misses chunk word header) }
    {
        let step = Move::Miss {
            chunk,
            word,
            header,
        };
        let table = &self.table;
        make_load(&table.shared, &mut seat.seat, self.spare, &step);
    }

    /// Takes a complete chunk whose header was found: its state is set, and its slot comes out.
    pub(crate) fn step_take(
        &self,
        seat: &mut ServiceSeat,
        writer: u16,
        chunk: u32,
        word: u64,
        header: ChunkHeader,
    )
        requires seat { CanServe self.now seat.old }
        requires chunk { chunk < length self.now.layout.spots }
        requires writer { writer < length self.now.layout.writers }
        requires none_read { (service_of seat.old.seat.me.0).reading ≡ [] }
        requires next { WatchesNext self.now.layout writer chunk word header seat.old.seat.me }
        ensures { ServiceLeaves seat.old seat.new (Takes self.now.layout writer chunk (spot self.now.layout chunk).payload_size
            word header) }
    {
        let spot = self.layout.spot(chunk);
        let step = Move::Take {
            layout: &self.layout,
            writer,
            chunk,
            word,
            header,
            payload_size: spot.payload_size,
        };
        let table = &self.table;
        make_and(
            &table.shared,
            &mut seat.seat,
            self.page_index(spot.page),
            take_mask(spot.place),
            &step,
        );
    }

    /// Loads a payload word of a chunk, whose first one has this index.
    pub(crate) fn step_load(
        &self,
        seat: &mut ServiceSeat,
        chunk: u32,
        start: usize,
        index: usize,
    ) -> u64
        requires seat { seat.old.seat.table_id ≡ self.now.table.shared.table_id }
        requires service { IsService seat.old.seat.me }
        requires chunk { chunk < length self.now.layout.spots }
        requires start { start ≡ payload_start self.now.layout chunk }
        requires index { index < payload_words self.now.layout chunk }
        ensures { ServiceLeaves seat.old seat.new (λ me new. Loads chunk index (spot self.now.layout chunk).payload_size me result new) }
    {
        let spot = self.layout.spot(chunk);
        let step = Move::Load {
            chunk,
            index,
            payload_size: spot.payload_size,
        };
        let table = &self.table;
        make_load(
            &table.shared,
            &mut seat.seat,
            self.payload_index(chunk, start, index),
            &step,
        )
    }

    /// Notes the content of the chunk that was taken last of a writer, and puts its slot back.
    pub(crate) fn step_learn(&self, seat: &mut ServiceSeat, writer: u16, chunk: u32)
        requires seat { seat.old.seat.table_id ≡ self.now.table.shared.table_id }
        requires writer { writer < length self.now.layout.writers }
        requires out { HasLifted chunk (body_in seat.old.seat.me.1) seat.old.seat.me }
        requires watch { watch_of seat.old.seat.me.0 ≡ Lifted chunk writer (length (taken_of (service_of
            seat.old.seat.me.0) writer).contents) (watched (watch_of seat.old.seat.me.0)) }
        requires last { (taken_of (service_of seat.old.seat.me.0) writer).count ≡ length (taken_of (service_of
            seat.old.seat.me.0) writer).contents + 1 }
        ensures { ServiceLeaves seat.old seat.new (λ me new. Serves (λ view. learns view writer (watched (watch_of me.0))) me new) }
    {
        let _ = chunk;
        let table = &self.table;
        make_load(
            &table.shared,
            &mut seat.seat,
            self.spare,
            &Move::Learn { writer },
        );
    }

    /// Takes the slot of a chunk that the service reads.
    pub(crate) fn step_lift(&self, seat: &mut ServiceSeat, chunk: u32)
        requires seat { CanServe self.now seat.old }
        requires reading { 0 < times chunk (service_of seat.old.seat.me.0).reading }
        ensures { ServiceLeaves seat.old seat.new (Lifts self.now.layout chunk) }
    {
        let step = Move::Lift {
            layout: &self.layout,
            chunk,
        };
        let table = &self.table;
        make_load(&table.shared, &mut seat.seat, self.spare, &step);
    }

    /// Frees a chunk whose slot is out with a body in it, and puts the slot back.
    pub(crate) fn step_release(&self, seat: &mut ServiceSeat, chunk: u32)
        requires seat { seat.old.seat.table_id ≡ self.now.table.shared.table_id }
        requires chunk { chunk < length self.now.layout.spots }
        requires reading { 0 < times chunk (service_of seat.old.seat.me.0).reading }
        requires arrived { AllArrived (service_of seat.old.seat.me.0) }
        requires body { IsSome (body_in seat.old.seat.me.1) }
        requires size { IfSome (body_in seat.old.seat.me.1) (λ body. vec_len body.payload ≡ (spot self.now.layout chunk).payload_size) }
        requires out { HasLifted chunk (body_in seat.old.seat.me.1) seat.old.seat.me }
        ensures { ServiceLeaves seat.old seat.new (Serves (λ view. lets_go view chunk)) }
    {
        let spot = self.layout.spot(chunk);
        let table = &self.table;
        make_and(
            &table.shared,
            &mut seat.seat,
            self.page_index(spot.page),
            release_mask(spot.place),
            &Move::Release { chunk },
        );
    }

    /// Notes an event.
    pub(crate) fn step_event(&self, seat: &mut ServiceSeat, event: ServiceEvent)
        requires seat { CanServe self.now seat.old }
        requires read { IsReadEvent event → stage_of seat.old.seat.me.0 ≡ Unmade }
        requires taken { MayNote (service_of seat.old.seat.me.0) (event_of event) }
        ensures { ServiceLeaves seat.old seat.new (Serves (λ view. notes view (event_of event))) }
    {
        let table = &self.table;
        make_load(
            &table.shared,
            &mut seat.seat,
            self.spare,
            &Move::Event { event },
        );
    }

    /// Notes a commit.
    pub(crate) fn step_commit(
        &self,
        seat: &mut ServiceSeat,
        header: ChunkHeader,
        payload: &[u8],
        patches: &[Patch],
    )
        requires seat { CanServe self.now seat.old }
        ensures { ServiceLeaves seat.old seat.new (Serves (λ view. notes_commit view
            (committed_of self.now.layout header payload.now patches.now))) }
    {
        let step = Move::Commit {
            layout: &self.layout,
            header,
            payload,
            patches,
        };
        let table = &self.table;
        make_load(&table.shared, &mut seat.seat, self.spare, &step);
    }
}
