//! The calls of the service's seat. None tries again, waits or takes memory.
ghost use Rattle.std.specs.Prelude.{◌≡◌, ℕ, ◌+◌, ◌-◌, ◌*◌, ◌/◌, ◌<◌, ◌≤◌, None, [], length, vec_len, IfOk, IfErr};
ghost use Rattle.trace_base.specs.declared.limits.TheConstants.{MAX_FRAGMENTS};
ghost use Rattle.page_geometry.specs.declared.chunk_header.TheConstants.{MAX_FLAGS};
ghost use Rattle.chunk_plain.specs.Setup.{spot, from_of};
ghost use Rattle.chunk_plain.specs.Views.{taken_of};
ghost use Rattle.chunk_plain.specs.Owned.{times};
ghost use Rattle.chunk_plain.specs.Steps.{looks_at, takes_in, learns, lets_go, notes, notes_commit};
ghost use Rattle.chunk_plain.specs.Words.{IsServing, AllArrived, LooksAt, TakesChunk, FindsOther, IsReadEvent, MayNote, event_of, committed_of};
ghost use Rattle.page_geometry.specs.Header.{packed};
ghost use Rattle.page_geometry.specs.declared.chunk_state.ChunkState.TheVariants.{Complete};
ghost use Rattle.chunk_plain.specs.Payload.{byte_of, byte_in};
ghost use Rattle.chunk_plain.specs.Shows.{content_of};
ghost use Rattle.chunk_plain.specs.Calls.{AsksForNext, LoadsPayload};
ghost use Rattle.chunk_words.specs.Knows.{Unmade, desk_of, stage_of, service_of};
ghost use Rattle.chunk_words.specs.Moves.{LoadsUpTo, FindsReady, Serves, WatchesNext};
ghost use Rattle.chunk_words.specs.Seats.{IsService};
ghost use Rattle.chunk_words.specs.Sits.{Attends, CanServe, ServiceLeaves};

use crate::host::HostTable;
use crate::seats::ServiceSeat;
use chunk_plain::bytes::put_bytes;
use chunk_plain::{NotComplete, Seen, ServiceEvent, Taken};
use commit_body::{CommitBody, Patch};
use page_geometry::{ChunkHeader, ChunkState, PageWord};

impl HostTable {
    /// Two loads: the chunk's page word and its header word.
    pub fn look(&self, seat: &mut ServiceSeat, chunk: u32) -> Seen
        requires seat { Attends self.now seat.old }
        requires chunk { chunk < length self.now.layout.spots }
        ensures count_fits { result.header.count ≤ MAX_FRAGMENTS }
        ensures flags_fit { result.header.flags ≤ MAX_FLAGS }
        ensures view { LooksAt self.now.layout chunk result.word.0 result.header (service_of seat.old.seat.me.0)
            (service_of seat.new.seat.me.0) }
        ensures desk { desk_of seat.new.seat.me.0 ≡ desk_of seat.old.seat.me.0 }
        ensures seat { Attends self.now seat.new }
    {
        let word = self.step_peek(seat, chunk);
        let found = self.step_find(seat, chunk, word);
        Seen {
            word: PageWord(word),
            header: ChunkHeader::unpack(found),
        }
    }

    /// One load for each payload word of the chunk.
    pub fn load(&self, seat: &mut ServiceSeat, chunk: u32, into: &mut [u8])
        requires seat { Attends self.now seat.old }
        requires chunk { chunk < length self.now.layout.spots }
        requires size { length into.old ≡ (spot self.now.layout chunk).payload_size }
        ensures loads { LoadsPayload (service_of seat.old.seat.me.0) chunk into.old into.new }
        ensures view { service_of seat.new.seat.me.0 ≡ service_of seat.old.seat.me.0 }
        ensures desk { desk_of seat.new.seat.me.0 ≡ desk_of seat.old.seat.me.0 }
        ensures seat { Attends self.now seat.new }
    {
        self.load_words(seat, chunk, into);
    }

    /// Loads the payload words of a chunk: a step for each.
    fn load_words(&self, seat: &mut ServiceSeat, chunk: u32, into: &mut [u8])
        requires seat { seat.old.seat.table_id ≡ self.now.table.shared.table_id }
        requires service { IsService seat.old.seat.me }
        requires chunk { chunk < length self.now.layout.spots }
        requires size { length into.old ≡ (spot self.now.layout chunk).payload_size }
        ensures seat { seat.new.seat.table_id ≡ seat.old.seat.table_id }
        ensures size { length into.new ≡ length into.old }
        ensures me { LoadsUpTo chunk ((length into.new + 7) / 8) (length into.new) into.new seat.old.seat.me seat.new.seat.me }
    {
        // Behind an atomic step all is read anew: so the loop reads no more than it has to.
        let start = self.first_index(chunk);
        let whole = into.len() / 8;
        for index in 0..whole {
            let word = self.step_load(seat, chunk, start, index);
            put_bytes(into, 8 * index, word);
        }
        // The last word may have fewer bytes than eight.
        if 8 * whole < into.len() {
            let word = self.step_load(seat, chunk, start, whole);
            put_rest(into, whole, word);
        }
    }

    /// Takes the next chunk of the writer with this number.
    pub fn take(
        &self,
        seat: &mut ServiceSeat,
        chunk: u32,
        writer: u16,
        id: u32,
    ) -> Result<Taken, NotComplete>
        requires seat { Attends self.now seat.old }
        requires next { AsksForNext self.now.layout (service_of seat.old.seat.me.0) chunk writer id }
        ensures taken { IfOk result (λ taken. TakesChunk self.now.layout chunk writer id taken (service_of seat.old.seat.me.0)
            (service_of seat.new.seat.me.0)) }
        ensures other { IfErr result (λ found. FindsOther self.now.layout chunk writer id found (service_of seat.old.seat.me.0)
            (service_of seat.new.seat.me.0)) }
        ensures desk { desk_of seat.new.seat.me.0 ≡ desk_of seat.old.seat.me.0 }
        ensures seat { Attends self.now seat.new }
    {
        let (word, header) = self.find_complete(seat, chunk, writer, id)?;
        let body = self.take_found(seat, writer - 1, chunk, word, header);
        Ok(Taken {
            chunk,
            header,
            body,
        })
    }

    /// Two loads, where the chunk is complete; and where it isn't the one asked for, the look is noted.
    fn find_complete(
        &self,
        seat: &mut ServiceSeat,
        chunk: u32,
        writer: u16,
        id: u32,
    ) -> Result<(u64, ChunkHeader), NotComplete>
        requires seat { Attends self.now seat.old }
        requires chunk { chunk < length self.now.layout.spots }
        ensures joined { seat.new.seat.table_id ≡ seat.old.seat.table_id }
        ensures ready { IfOk result (λ found. FindsReady self.now.layout chunk writer id found.0 found.1
            seat.old.seat.me seat.new.seat.me) }
        ensures other { IfErr result (λ found. FindsOther self.now.layout chunk writer id found (service_of seat.old.seat.me.0)
            (service_of seat.new.seat.me.0)) }
        ensures desk { IfErr result (λ _. desk_of seat.new.seat.me.0 ≡ desk_of seat.old.seat.me.0) }
        ensures seat { IfErr result (λ _. Attends self.now seat.new) }
    {
        let word = self.step_peek(seat, chunk);
        let place = self.layout.spot(chunk).place;
        if PageWord(word).state(place) != ChunkState::Complete {
            let header = ChunkHeader::unpack(self.step_find(seat, chunk, word));
            return Err(NotComplete {
                word: PageWord(word),
                header,
            });
        }
        let header = ChunkHeader::unpack(self.step_know(seat, chunk, word));
        if header.writer_id != writer || header.chunk_id != id {
            self.step_miss(seat, chunk, word, header);
            return Err(NotComplete {
                word: PageWord(word),
                header,
            });
        }
        Ok((word, header))
    }

    /// Takes a chunk of the writer at this place that was found complete, with its payload.
    fn take_found(
        &self,
        seat: &mut ServiceSeat,
        writer: u16,
        chunk: u32,
        word: u64,
        header: ChunkHeader,
    ) -> CommitBody
        requires seat { CanServe self.now seat.old }
        requires chunk { chunk < length self.now.layout.spots }
        requires writer { writer < length self.now.layout.writers }
        requires serving { IsServing self.now.layout (service_of seat.old.seat.me.0) }
        requires none_read { (service_of seat.old.seat.me.0).reading ≡ [] }
        requires next { WatchesNext self.now.layout writer chunk word header seat.old.seat.me }
        ensures size { vec_len result.payload ≡ (spot self.now.layout chunk).payload_size }
        ensures left { ServiceLeaves seat.old seat.new (Serves
            (λ view. learns (takes_in (looks_at view chunk word (packed header) None) writer chunk) writer
            (content_of (from_of self.now.layout writer) writer (taken_of (service_of seat.old.seat.me.0) writer).count
            (record { count = header.count; flags = header.flags }) result))) }
    {
        self.step_take(seat, writer, chunk, word, header);
        let mut body = self.body_out(&mut seat.seat, chunk);
        self.load_words(seat, chunk, &mut body.payload);
        self.step_learn(seat, writer, chunk);
        body
    }

    /// The body goes back into its slot, and then the chunk is free. The arrival of all that was taken is
    /// noted before.
    pub fn release(&self, seat: &mut ServiceSeat, taken: Taken)
        requires seat { Attends self.now seat.old }
        requires reading { 0 < times taken.chunk (service_of seat.old.seat.me.0).reading }
        requires arrived { AllArrived (service_of seat.old.seat.me.0) }
        requires size { vec_len taken.body.payload ≡ (spot self.now.layout taken.chunk).payload_size }
        ensures view { service_of seat.new.seat.me.0 ≡ lets_go (service_of seat.old.seat.me.0) taken.chunk }
        ensures desk { desk_of seat.new.seat.me.0 ≡ desk_of seat.old.seat.me.0 }
        ensures seat { Attends self.now seat.new }
    {
        let Taken {
            chunk,
            header: _,
            body: emptied,
        } = taken;
        self.step_lift(seat, chunk);
        self.body_in(&mut seat.seat, chunk, emptied);
        self.step_release(seat, chunk);
    }

    /// The event joins the view. Once a reading pass is made, no read is noted so. That a chunk arrived is
    /// noted once it was taken.
    pub fn note(&self, seat: &mut ServiceSeat, event: ServiceEvent)
        requires seat { Attends self.now seat.old }
        requires read { IsReadEvent event → stage_of seat.old.seat.me.0 ≡ Unmade }
        requires taken { MayNote (service_of seat.old.seat.me.0) (event_of event) }
        ensures view { service_of seat.new.seat.me.0 ≡ notes (service_of seat.old.seat.me.0) (event_of event) }
        ensures desk { desk_of seat.new.seat.me.0 ≡ desk_of seat.old.seat.me.0 }
        ensures seat { Attends self.now seat.new }
    {
        self.step_event(seat, event);
    }

    /// An image came by a commit, with these patches.
    pub fn note_commit(
        &self,
        seat: &mut ServiceSeat,
        header: ChunkHeader,
        payload: &[u8],
        patches: &[Patch],
    )
        requires seat { Attends self.now seat.old }
        ensures view { service_of seat.new.seat.me.0 ≡ notes_commit (service_of
            seat.old.seat.me.0) (committed_of self.now.layout header payload.now patches.now) }
        ensures desk { desk_of seat.new.seat.me.0 ≡ desk_of seat.old.seat.me.0 }
        ensures seat { Attends self.now seat.new }
    {
        self.step_commit(seat, header, payload, patches);
    }
}

/// Puts the bytes of the last payload word into their places, as far as there are such.
fn put_rest(into: &mut [u8], index: usize, word: u64)
    requires some { 8 * index < length into.old }
    requires few { length into.old < 8 * index + 8 }
    ensures size { length into.new ≡ length into.old }
    ensures here { (m : ℕ) → m < 8 → 8 * index + m < length into.new → byte_in into.new (8 * index + m) ≡ byte_of word m }
    ensures before { (j : ℕ) → j < 8 * index → byte_in into.new j ≡ byte_in into.old j }
{
    let at = 8 * index;
    let bytes = word.to_le_bytes();
    for j in at..into.len() {
        into[j] = bytes[j - at];
    }
}
