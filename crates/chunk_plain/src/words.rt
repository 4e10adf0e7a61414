//! The calls on a table of chunks, whatever its words lie in.
ghost use Rattle.std.specs.Prelude.{◌≡◌, ◌-◌, ◌<◌, ◌≤◌, true, false, Option, Some, length, vec_len, IfSome, IfNone, IfOk, IfErr, MatchOption};
ghost use Rattle.page_geometry.specs.declared.chunk_header.TheConstants.{MAX_FLAGS};
ghost use Rattle.page_geometry.specs.Header.{packed};
ghost use Rattle.trace_base.specs.declared.limits.TheConstants.{MAX_FRAGMENTS};
ghost use Rattle.chunk_plain.specs.declared.tokens.TheConstants.{MAX_HELD};
ghost use Rattle.chunk_plain.specs.Setup.{spot, producer_of, IsChunkOf, IsLaid};
ghost use Rattle.chunk_plain.specs.Views.{Content, taken_of};
ghost use Rattle.chunk_plain.specs.World.{World, Unclaimed, Claimed as ClaimedBy, Writing, Ready, Reading, status, writer};
ghost use Rattle.chunk_plain.specs.Steps.{redrafts, with_head, completes, notes_call, lets_go, notes, notes_commit, moved, served, with_writer_view, serviced};
ghost use Rattle.chunk_plain.specs.Owned.{times, held_count, IsOwned};
ghost use Rattle.chunk_plain.specs.Drafts.{draft_at, ends_by, IsHolding};
ghost use Rattle.chunk_plain.specs.Shows.{ShowsPage, ShowsHeader, ShowsPayload};
ghost use Rattle.chunk_plain.specs.Meaning.{Meaning, IsWriterStep, IsServiceStep};
ghost use Rattle.chunk_plain.specs.Words.{IsAtRest, IsServing, LearntAsFound, LooksAgree, TriesClaim, WasHad, IsBegun, BeginsChunk, IsPublished, PublishesBytes, completed_content, LooksAt, taken_content, TakesChunk, FindsOther, call_of, event_of, IsReadEvent, committed_of, AllArrived, MayNote};
ghost use Rattle.chunk_plain.specs.Calls.{MayBegin, MayGetHead, MayPublishRange, AsksForNext, LoadsPayload};

use crate::notes::{ServiceEvent, WriterCall};
use crate::tokens::{Claimed, Held, NotComplete, Seen, Taken};
use commit_body::Patch;
use page_geometry::ChunkHeader;

/// A table of chunks that writers fill and the service empties. Each call is made by one seat and
/// joins that seat's view; what it leaves of all others is said by one clause, `step`. A table that
/// tells its world says of each call what becomes of the whole of it.
pub trait Words {
    type Writer;

    type Service;

    ghost means: { Meaning Self Self.Writer Self.Service };

    /// None exactly where the page word that was found has the chunk's claim bit set.
    fn claim_try(&mut self, seat: &mut Self::Writer, chunk: u32) -> Option<Claimed>
        requires seat { means.sits self.old seat.old }
        requires chunk { IsChunkOf (means.setup self.old) (producer_of (means.setup self.old) (means.place seat.old)) chunk }
        ensures chunk { IfSome result (λ claimed. claimed.chunk ≡ chunk) }
        ensures won { IfSome result (λ _. TriesClaim (means.setup self.old) chunk true
            (means.view self.old seat.old) (means.view self.new seat.new)) }
        ensures lost { IfNone result (TriesClaim (means.setup self.old) chunk false
            (means.view self.old seat.old) (means.view self.new seat.new)) }
        ensures had { IfNone result (∥ WasHad (means.setup self.old) (means.place seat.old) chunk (means.view self.new seat.new) ∥₁) }
        ensures step { IsWriterStep means self.old seat.old self.new seat.new }
        ensures told { (world : World) → means.told self.old ≡ Some world → MatchOption result
            ((status world chunk ≡ Unclaimed → ⊥)
            × (means.told self.new ≡ Some (with_writer_view world (means.place seat.old) (means.view self.new seat.new))))
            (λ _. ∥ status world chunk ≡ Unclaimed ∥₁
            × (means.told self.new ≡ Some (moved world (means.place seat.old) (means.view self.new seat.new) chunk
            (ClaimedBy (means.place seat.old))))) };

    /// The header of the chunk is stored with this id, that of the writer's next position, and with
    /// count 0, and then its state is set. The patches that the body brought before are dropped; what
    /// its payload holds is left over from other chunks.
    fn begin(&mut self, seat: &mut Self::Writer, claimed: Claimed, id: u32) -> Held
        requires seat { means.sits self.old seat.old }
        requires may { MayBegin (means.setup self.old) (means.place seat.old) (means.view self.old seat.old) claimed.chunk id }
        requires few { held_count (means.view self.old seat.old).begun < MAX_HELD }
        ensures held { IsBegun (means.setup self.old) claimed.chunk (length (means.view self.old seat.old).begun) result }
        ensures view { BeginsChunk (means.setup self.old) claimed.chunk (means.view self.old seat.old) (means.view self.new seat.new) }
        ensures step { IsWriterStep means self.old seat.old self.new seat.new }
        ensures told { (world : World) → means.told self.old ≡ Some world
            → means.told self.new ≡ Some (moved world (means.place seat.old) (means.view self.new seat.new) claimed.chunk
            (Writing (means.place seat.old) (length (means.view self.old seat.old).begun)
            (draft_at (means.view self.new seat.new) (length (means.view self.old seat.old).begun)))) };

    /// Stores each payload word that has a byte of this range of the held payload. What was counted
    /// and finished before must stand in the copy as it was published: it may be read meanwhile.
    fn publish(&mut self, seat: &mut Self::Writer, held: &mut Held, from: u32, to: u32)
        requires seat { means.sits self.old seat.old }
        requires may { MayPublishRange (means.setup self.old) (means.view self.old seat.old) held.old from to }
        ensures held { held.new ≡ held.old }
        ensures view { PublishesBytes held.old.chunk held.old.position from to held.old.body.payload.items
            (means.view self.old seat.old) (means.view self.new seat.new) }
        ensures step { IsWriterStep means self.old seat.old self.new seat.new }
        ensures told { (world : World) → means.told self.old ≡ Some world
            → means.told self.new ≡ Some (moved world (means.place seat.old) (means.view self.new seat.new) held.old.chunk
            (Writing (means.place seat.old) held.old.position (draft_at (means.view self.new seat.new) held.old.position))) };

    /// Stores the header. The fragments before the last one counted are finished from now on: what
    /// was published of the payload reads as so many.
    fn set_header(&mut self, seat: &mut Self::Writer, held: &mut Held, count: u16, flags: u8)
        requires seat { means.sits self.old seat.old }
        requires may { MayGetHead (means.setup self.old) (means.view self.old seat.old) held.old.chunk held.old.position
            (record { count = count; flags = flags }) }
        ensures held { held.new ≡ held.old }
        ensures view { means.view self.new seat.new ≡ redrafts (means.view self.old seat.old) held.old.chunk held.old.position
            (with_head (draft_at (means.view self.old seat.old) held.old.position) (record { count = count; flags = flags })
            (ends_by (means.view self.old seat.old) held.old.position count)) }
        ensures step { IsWriterStep means self.old seat.old self.new seat.new }
        ensures told { (world : World) → means.told self.old ≡ Some world
            → means.told self.new ≡ Some (moved world (means.place seat.old) (means.view self.new seat.new) held.old.chunk
            (Writing (means.place seat.old) held.old.position (draft_at (means.view self.new seat.new) held.old.position))) };

    /// The body goes back into the table, and then the state is set. Every byte of the payload was
    /// published.
    fn complete(&mut self, seat: &mut Self::Writer, held: Held)
        requires seat { means.sits self.old seat.old }
        requires held { IsHolding (means.view self.old seat.old) held.chunk held.position }
        requires size { vec_len held.body.payload ≡ (spot (means.setup self.old) held.chunk).payload_size }
        requires published { IsPublished (means.view self.old seat.old) held.position held.body.payload.items }
        ensures view { means.view self.new seat.new ≡ completes (means.view self.old seat.old) held.chunk held.position
            (completed_content (means.setup self.old) (means.place seat.old) (means.view self.old seat.old) held) }
        ensures step { IsWriterStep means self.old seat.old self.new seat.new }
        ensures told { (world : World) → means.told self.old ≡ Some world
            → means.told self.new ≡ Some (moved world (means.place seat.old) (means.view self.new seat.new) held.chunk
            (Ready (means.place seat.old) held.position
            (completed_content (means.setup self.old) (means.place seat.old) (means.view self.old seat.old) held))) };

    /// Two loads: the chunk's page word and its header word. Where the chunk is being written, what
    /// its finished fragments are joins the view; `load` tells them.
    fn look(&mut self, seat: &mut Self::Service, chunk: u32) -> Seen
        requires seat { means.serves self.old seat.old }
        requires chunk { chunk < length (means.setup self.old).spots }
        ensures count_fits { result.header.count ≤ MAX_FRAGMENTS }
        ensures flags_fit { result.header.flags ≤ MAX_FLAGS }
        ensures view { LooksAt (means.setup self.old) chunk result.word.0 result.header
            (means.service_view self.old seat.old) (means.service_view self.new seat.new) }
        ensures step { IsServiceStep means self.old seat.old self.new seat.new }
        ensures shown { (world : World) → means.told self.old ≡ Some world
            → ∥ ShowsPage (means.setup self.old) world (spot (means.setup self.old) chunk) result.word.0 (status world chunk)
            × ShowsHeader (means.setup self.old) (packed result.header) (status world chunk) ∥₁ }
        ensures told { (world : World) → means.told self.old ≡ Some world
            → means.told self.new ≡ Some (serviced world (means.service_view self.new seat.new)) };

    /// One load for each payload word of the chunk.
    fn load(&mut self, seat: &mut Self::Service, chunk: u32, into: &mut [u8])
        requires seat { means.serves self.old seat.old }
        requires chunk { chunk < length (means.setup self.old).spots }
        requires size { length into.old ≡ (spot (means.setup self.old) chunk).payload_size }
        ensures loads { LoadsPayload (means.service_view self.old seat.old) chunk into.old into.new }
        ensures view { means.service_view self.new seat.new ≡ means.service_view self.old seat.old }
        ensures step { IsServiceStep means self.old seat.old self.new seat.new }
        ensures shown { (world : World) → means.told self.old ≡ Some world → ∥ ShowsPayload (status world chunk) into.new ∥₁ }
        ensures told { (world : World) → means.told self.old ≡ Some world → means.told self.new ≡ Some world };

    /// Takes the next chunk of the writer with this number, by its id: its state is set, its payload is
    /// loaded, and then its content joins the view. After `NotComplete` nothing has changed but the
    /// view, which has the look.
    fn take(
        &mut self,
        seat: &mut Self::Service,
        chunk: u32,
        writer: u16,
        id: u32,
    ) -> Result<Taken, NotComplete>
        requires seat { means.serves self.old seat.old }
        requires next { AsksForNext (means.setup self.old) (means.service_view self.old seat.old) chunk writer id }
        ensures taken { IfOk result (λ taken. TakesChunk (means.setup self.old) chunk writer id taken
            (means.service_view self.old seat.old) (means.service_view self.new seat.new)) }
        ensures other { IfErr result (λ found. FindsOther (means.setup self.old) chunk writer id found
            (means.service_view self.old seat.old) (means.service_view self.new seat.new)) }
        ensures step { IsServiceStep means self.old seat.old self.new seat.new }
        ensures told_taken { IfOk result (λ taken. (world : World) → means.told self.old ≡ Some world
            → let position = (taken_of (means.service_view self.old seat.old) (writer - 1)).count in
            let content = taken_content (means.setup self.old) (writer - 1) position taken in
            ∥ status world chunk ≡ Ready (writer - 1) position content ∥₁
            × (means.told self.new ≡ Some (served world (means.service_view self.new seat.new) chunk
            (Reading (writer - 1) position content)))) }
        ensures told_other { IfErr result (λ _. (world : World) → means.told self.old ≡ Some world
            → ((content : Content) → status world chunk
            ≡ Ready (writer - 1) (taken_of (means.service_view self.old seat.old) (writer - 1)).count content → ⊥)
            × (means.told self.new ≡ Some (serviced world (means.service_view self.new seat.new)))) };

    /// The body goes back into the table, and then the chunk is free. The arrival of all that was taken
    /// is noted before.
    fn release(&mut self, seat: &mut Self::Service, taken: Taken)
        requires seat { means.serves self.old seat.old }
        requires reading { 0 < times taken.chunk (means.service_view self.old seat.old).reading }
        requires arrived { AllArrived (means.service_view self.old seat.old) }
        requires size { vec_len taken.body.payload ≡ (spot (means.setup self.old) taken.chunk).payload_size }
        ensures view { means.service_view self.new seat.new ≡ lets_go (means.service_view self.old seat.old) taken.chunk }
        ensures step { IsServiceStep means self.old seat.old self.new seat.new }
        ensures told { (world : World) → means.told self.old ≡ Some world
            → means.told self.new ≡ Some (served world (means.service_view self.new seat.new) taken.chunk Unclaimed) };

    fn note_call(&mut self, seat: &mut Self::Writer, call: WriterCall<'_>)
        requires { means.sits self.old seat.old }
        ensures view { means.view self.new seat.new ≡ notes_call (means.view self.old seat.old) (call_of call.entry) }
        ensures step { IsWriterStep means self.old seat.old self.new seat.new }
        ensures told { (world : World) → means.told self.old ≡ Some world
            → means.told self.new ≡ Some (with_writer_view world (means.place seat.old) (means.view self.new seat.new)) };

    /// That a chunk arrived is noted once it was taken.
    fn note(&mut self, seat: &mut Self::Service, event: ServiceEvent)
        requires seat { means.serves self.old seat.old }
        requires read { IsReadEvent event → means.takes_reads self.old seat.old }
        requires taken { MayNote (means.service_view self.old seat.old) (event_of event) }
        ensures view { means.service_view self.new seat.new ≡ notes (means.service_view self.old seat.old) (event_of event) }
        ensures step { IsServiceStep means self.old seat.old self.new seat.new }
        ensures told { (world : World) → means.told self.old ≡ Some world
            → means.told self.new ≡ Some (serviced world (means.service_view self.new seat.new)) };

    /// An image came by a commit, with these patches; both name chunks by their ids.
    fn note_commit(
        &mut self,
        seat: &mut Self::Service,
        header: ChunkHeader,
        payload: &[u8],
        patches: &[Patch],
    )
        requires { means.serves self.old seat.old }
        ensures view { means.service_view self.new seat.new ≡ notes_commit (means.service_view self.old seat.old)
            (committed_of (means.setup self.old) header payload.now patches.now) }
        ensures step { IsServiceStep means self.old seat.old self.new seat.new }
        ensures told { (world : World) → means.told self.old ≡ Some world
            → means.told self.new ≡ Some (serviced world (means.service_view self.new seat.new)) };

    ghost laid: { (table : Self) → IsLaid (means.setup table) };

    // what a seat has between two calls
    ghost rests: { (table : Self) (seat : Self.Writer) → means.sits table seat
        → IsAtRest (means.setup table) (means.place seat) (means.view table seat) };

    ghost serving: { (table : Self) (seat : Self.Service) → means.serves table seat
        → IsServing (means.setup table) (means.service_view table seat) };

    // what was found of a chunk while it was written is in its content
    ghost learnt: { (table : Self) (seat : Self.Service) → means.serves table seat → LearntAsFound (means.service_view table seat) };

    // looks that found a chunk of the same writer and position found what one begun chunk has
    ghost looks_agree: { (table : Self) (seat : Self.Service) → means.serves table seat → LooksAgree (means.service_view table seat) };

    // a seat's view is its part of the world that the table tells
    ghost told_view: { (table : Self) (seat : Self.Writer) (world : World) → means.told table ≡ Some world → means.sits table seat
        → means.view table seat ≡ writer world (means.place seat) };

    ghost told_service_view: { (table : Self) (seat : Self.Service) (world : World) → means.told table ≡ Some world
        → means.serves table seat
        → means.service_view table seat ≡ world.service };

    // it has each writer and each chunk of the table
    ghost told_writers: { (table : Self) (world : World) → means.told table ≡ Some world
        → length world.writers ≡ length (means.setup table).writers };

    ghost told_chunks: { (table : Self) (world : World) → means.told table ≡ Some world
        → length world.chunks ≡ length (means.setup table).spots };

    // it is owned
    ghost told_owned: { (table : Self) (world : World) → means.told table ≡ Some world → ∥ IsOwned world ∥₁ };
}
