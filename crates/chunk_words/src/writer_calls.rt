//! The calls of a writer's seat. None tries again, waits or takes memory.
ghost use Rattle.std.specs.Prelude.{◌≡◌, ℕ, ◌+◌, ◌*◌, ◌<◌, ◌≤◌, true, false, Some, None, length, vec_len, IfSome, IfNone};
ghost use Rattle.chunk_plain.specs.Setup.{spot, producer_of, IsChunkOf};
ghost use Rattle.chunk_plain.specs.Payload.{byte_of, byte_in};
ghost use Rattle.chunk_plain.specs.Drafts.{draft_at, ends_by, IsHolding};
ghost use Rattle.chunk_plain.specs.Steps.{redrafts, with_head, completes, notes_call};
ghost use Rattle.chunk_plain.specs.Words.{TriesClaim, WasHad, IsBegun, BeginsChunk};
ghost use Rattle.chunk_plain.specs.Words.{IsPublished, StaysOutside, PublishesBytes, completed_content, call_of};
ghost use Rattle.chunk_plain.specs.Calls.{MayBegin, MayGetHead, MayPublishRange, MayStoreWords};
ghost use Rattle.chunk_words.specs.Knows.{view_of};
ghost use Rattle.chunk_words.specs.Moves.{Stores};
ghost use Rattle.chunk_words.specs.Sits.{Sits, CanStep, WriterLeaves};

use crate::host::HostTable;
use crate::seats::WriterSeat;
use chunk_plain::bytes::{pack, word_end};
use chunk_plain::{Claimed, Held, WriterCall};
use page_geometry::PageWord;

impl HostTable {
    /// None exactly where the page word that was found has the chunk's claim bit set.
    pub fn claim_try(&self, seat: &mut WriterSeat, chunk: u32) -> Option<Claimed>
        requires seat { Sits self.now seat.old }
        requires chunk { IsChunkOf self.now.layout (producer_of self.now.layout seat.old.place) chunk }
        ensures chunk { IfSome result (λ claimed. claimed.chunk ≡ chunk) }
        ensures won { IfSome result (λ _. TriesClaim self.now.layout chunk true (view_of seat.old.seat.me.0) (view_of seat.new.seat.me.0)) }
        ensures lost { IfNone result (TriesClaim self.now.layout chunk false (view_of seat.old.seat.me.0) (view_of seat.new.seat.me.0)) }
        ensures had { IfNone result (∥ WasHad self.now.layout seat.old.place chunk (view_of seat.new.seat.me.0) ∥₁) }
        ensures seat { Sits self.now seat.new }
        ensures place { seat.new.place ≡ seat.old.place }
    {
        let spot = self.layout.spot(chunk);
        // A look leaves the word with the other cores. Only one that shows the chunk free is worth
        // a change of the word.
        let seen = self.step_ask(seat, chunk);
        if PageWord(seen).claimed(spot.place) {
            return None;
        }
        let found = self.step_claim(seat, chunk);
        if PageWord(found).claimed(spot.place) {
            None
        } else {
            Some(Claimed { chunk })
        }
    }

    /// The header of the chunk is stored with this id, that of the writer's next position, and with
    /// count 0; and then its state is set.
    pub fn begin(&self, seat: &mut WriterSeat, claimed: Claimed, id: u32) -> Held
        requires seat { Sits self.now seat.old }
        requires may { MayBegin self.now.layout seat.old.place (view_of seat.old.seat.me.0) claimed.chunk id }
        ensures held { IsBegun self.now.layout claimed.chunk (length (view_of seat.old.seat.me.0).begun) result }
        ensures view { BeginsChunk self.now.layout claimed.chunk (view_of seat.old.seat.me.0) (view_of seat.new.seat.me.0) }
        ensures seat { Sits self.now seat.new }
        ensures place { seat.new.place ≡ seat.old.place }
    {
        let Claimed { chunk } = claimed;
        let position = self.layout.position_at(seat.place, id);
        self.step_stamp(seat, chunk, id);
        let mut body = self.body_out(&mut seat.seat, chunk);
        self.step_begin(seat, chunk);
        body.patches.clear();
        Held {
            chunk,
            position,
            body,
        }
    }

    /// Stores the header of a held chunk.
    pub fn set_header(&self, seat: &mut WriterSeat, held: &mut Held, count: u16, flags: u8)
        requires seat { Sits self.now seat.old }
        requires may { MayGetHead self.now.layout (view_of seat.old.seat.me.0) held.old.chunk held.old.position
            (record { count = count; flags = flags }) }
        ensures held { held.new ≡ held.old }
        ensures view { view_of seat.new.seat.me.0 ≡ redrafts (view_of seat.old.seat.me.0) held.old.chunk held.old.position
            (with_head (draft_at (view_of seat.old.seat.me.0) held.old.position) (record { count = count; flags = flags })
            (ends_by (view_of seat.old.seat.me.0) held.old.position count)) }
        ensures seat { Sits self.now seat.new }
        ensures place { seat.new.place ≡ seat.old.place }
    {
        self.step_header(seat, held.chunk, held.position, count, flags);
    }

    /// Stores each payload word that has a byte of this range of the held payload.
    pub fn publish(&self, seat: &mut WriterSeat, held: &mut Held, from: u32, to: u32)
        requires seat { Sits self.now seat.old }
        requires may { MayPublishRange self.now.layout (view_of seat.old.seat.me.0) held.old from to }
        ensures held { held.new ≡ held.old }
        ensures view { PublishesBytes held.old.chunk held.old.position from to held.old.body.payload.items
            (view_of seat.old.seat.me.0) (view_of seat.new.seat.me.0) }
        ensures others { StaysOutside from to (draft_at (view_of seat.old.seat.me.0) held.old.position).words
            (draft_at (view_of seat.new.seat.me.0) held.old.position).words }
        ensures seat { Sits self.now seat.new }
        ensures place { seat.new.place ≡ seat.old.place }
    {
        let first = from as usize / 8;
        let end = word_end(from, to);
        self.store_words(
            seat,
            held.chunk,
            held.position,
            first,
            end,
            &held.body.payload,
        );
    }

    /// Stores the payload words of a held chunk from one place on, up to another one: a step for each.
    fn store_words(
        &self,
        seat: &mut WriterSeat,
        chunk: u32,
        position: u32,
        first: usize,
        end: usize,
        copy: &[u8],
    )
        requires seat { CanStep self.now seat.old }
        requires chunk { chunk < length self.now.layout.spots }
        requires may { MayStoreWords self.now.layout (view_of seat.old.seat.me.0) chunk position first end copy.now }
        ensures { WriterLeaves seat.old seat.new (Stores chunk position first end copy.now) }
    {
        // Behind an atomic step all is read anew: so the loop reads no more than it has to.
        let start = self.first_index(chunk);
        let whole = end.min(copy.len() / 8).max(first);
        for index in first..whole {
            let word = whole_word(copy, index);
            self.step_publish(seat, chunk, position, start, index, word);
        }
        // The last word may have fewer bytes than eight.
        if whole < end {
            let word = pack(copy, 8 * whole);
            self.step_publish(seat, chunk, position, start, whole, word);
        }
    }

    /// The body goes back into its slot, and then the state is set.
    pub fn complete(&self, seat: &mut WriterSeat, held: Held)
        requires seat { Sits self.now seat.old }
        requires held { IsHolding (view_of seat.old.seat.me.0) held.chunk held.position }
        requires size { vec_len held.body.payload ≡ (spot self.now.layout held.chunk).payload_size }
        requires published { IsPublished (view_of seat.old.seat.me.0) held.position held.body.payload.items }
        ensures view { view_of seat.new.seat.me.0 ≡ completes (view_of seat.old.seat.me.0) held.chunk held.position
            (completed_content self.now.layout seat.old.place (view_of seat.old.seat.me.0) held) }
        ensures seat { Sits self.now seat.new }
        ensures place { seat.new.place ≡ seat.old.place }
    {
        let Held {
            chunk,
            position,
            body,
        } = held;
        self.step_fetch(seat, chunk, position);
        self.body_in(&mut seat.seat, chunk, body);
        self.step_complete(seat, chunk, position);
    }

    /// The call joins the view.
    pub fn note_call(&self, seat: &mut WriterSeat, call: WriterCall<'_>)
        requires seat { Sits self.now seat.old }
        ensures view { view_of seat.new.seat.me.0 ≡ notes_call (view_of seat.old.seat.me.0) (call_of call.entry) }
        ensures seat { Sits self.now seat.new }
        ensures place { seat.new.place ≡ seat.old.place }
    {
        self.step_call(seat, call);
    }
}

/// The word with this number of the bytes, which has eight of them.
fn whole_word(from: &[u8], index: usize) -> u64
    requires { 8 * index + 8 ≤ length from.now }
    ensures { (m : ℕ) → m < 8 → 8 * index + m < length from.now → byte_of result m ≡ byte_in from.now (8 * index + m) }
{
    let Some(eight) = from[8 * index..].first_chunk::<8>() else {
        unreachable!()
    };
    u64::from_le_bytes(*eight)
}
