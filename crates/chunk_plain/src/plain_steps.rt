//! The steps of the table of one thread that a call makes one behind another. Each is a method whose
//! condition is what the step before it leaves, and behind each the table keeps what it keeps
//! between two calls: so the order of the steps is the one in which threads will see them.
ghost use Rattle.std.specs.Prelude.{◌≡◌, ℕ, ◌+◌, ◌<◌, ◌≤◌, Some, None, length, vec_len, IsSome, IfSome};
ghost use Rattle.page_geometry.specs.Header.{packed, unpacked};
ghost use Rattle.page_geometry.specs.declared.chunk_header.TheConstants.{MAX_FLAGS};
ghost use Rattle.trace_base.specs.declared.limits.TheConstants.{MAX_FRAGMENTS};
ghost use Rattle.page_geometry.specs.declared.chunk_state.ChunkState.TheVariants.{Complete as CompleteState};
ghost use Rattle.page_geometry.specs.PageBits.{HasState};
ghost use Rattle.chunk_plain.specs.declared.tokens.TheConstants.{POSITION_LIMIT};
ghost use Rattle.chunk_plain.specs.declared.step.Step.TheVariants.{Stamp, Look, Take};
ghost use Rattle.chunk_plain.specs.Setup.{spot, from_of, id_at};
ghost use Rattle.chunk_plain.specs.Payload.{byte_at, byte_in, StoredUpTo};
ghost use Rattle.chunk_plain.specs.Views.{Content, fresh, taken_of};
ghost use Rattle.chunk_plain.specs.World.{Unclaimed, Writing, Ready, Reading, status, writer};
ghost use Rattle.chunk_plain.specs.Steps.{begins, completes, with_words, learns, drafted, moved, served, serviced, lets_go};
ghost use Rattle.chunk_plain.specs.Owned.{times};
ghost use Rattle.chunk_plain.specs.Drafts.{IsHolding, draft_at, head_at};
ghost use Rattle.chunk_plain.specs.Stored.{stored_at};
ghost use Rattle.chunk_plain.specs.Shows.{content_of, page_word, header_word};
ghost use Rattle.chunk_plain.specs.Words.{HasClaimed, LooksAt};
ghost use Rattle.chunk_plain.specs.Plain.{IsLent, StandsWhole, world_after};
ghost use Rattle.chunk_plain.specs.Calls.{MayStoreWords};

use crate::bytes::unpack;
use crate::plain::PlainTable;
use crate::slots::{body_of, put_body, put_words, take_body, words_of};
use crate::step::Step;
use crate::tokens::Seen;
use crate::worlds::make_step;
use commit_body::CommitBody;
use page_geometry::masks::{begin_mask, complete_mask, release_mask, take_mask};
use page_geometry::{ChunkHeader, PageWord};

impl PlainTable {
    /// Stores the header of a claimed chunk, with count 0.
    pub(crate) fn store_first_header(&mut self, place: u16, chunk: u32, id: u32)
        requires place { place < length self.old.layout.writers }
        requires claimed { HasClaimed (writer self.old.told.world place) chunk }
        requires unstamped { (writer self.old.told.world place).stamped ≡ None }
        requires id { id ≡ id_at self.old.layout place (length (writer self.old.told.world place).begun) }
        requires few_begun { length (writer self.old.told.world place).begun < POSITION_LIMIT }
        ensures layout { self.new.layout ≡ self.old.layout }
        ensures slots { self.new.slots.items ≡ self.old.slots.items }
        ensures world { self.new.told.world ≡ world_after self.old.told.world (Stamp place chunk) }
    {
        let header = ChunkHeader {
            chunk_id: id,
            writer_id: place + 1,
            count: 0,
            flags: 0,
        };
        let at = self.layout.header_index(chunk);
        self.words[at] = header.pack();
        make_step(&mut self.told, &Step::Stamp { place, chunk });
    }

    /// Begins a chunk whose header is stored.
    pub(crate) fn set_written(&mut self, place: u16, chunk: u32)
        requires place { place < length self.old.layout.writers }
        requires stamped { (writer self.old.told.world place).stamped
            ≡ Some (record { chunk = chunk; position = length (writer self.old.told.world place).begun }) }
        ensures layout { self.new.layout ≡ self.old.layout }
        ensures slots { self.new.slots.items ≡ self.old.slots.items }
        ensures world { self.new.told.world ≡ moved self.old.told.world place
            (begins (writer self.old.told.world place) chunk (stored_at self.old.slots.items chunk).words) chunk
            (Writing place (length (writer self.old.told.world place).begun) (fresh (stored_at self.old.slots.items chunk).words)) }
    {
        let spot = self.layout.spot(chunk);
        let page = spot.page as usize;
        let found = self.words[page];
        self.words[page] = found | begin_mask(spot.place);
        let step = Step::Begin {
            place,
            chunk,
            words: words_of(&self.slots, chunk),
        };
        make_step(&mut self.told, &step);
    }

    /// Takes the body of a chunk out that is being written or read.
    pub(crate) fn take_body(&mut self, chunk: u32) -> CommitBody
        requires lent { ∥ IsLent (status self.old.told.world chunk) ∥₁ }
        requires there { IsSome (stored_at self.old.slots.items chunk).body }
        ensures body { (stored_at self.old.slots.items chunk).body ≡ Some result }
        ensures layout { self.new.layout ≡ self.old.layout }
        ensures words { (stored_at self.new.slots.items chunk).words ≡ (stored_at self.old.slots.items chunk).words }
        ensures world { self.new.told.world ≡ self.old.told.world }
    {
        take_body(&mut self.slots, chunk)
    }

    /// Puts the body of a chunk back that is being written or read.
    pub(crate) fn put_body(&mut self, chunk: u32, body: CommitBody)
        requires lent { ∥ IsLent (status self.old.told.world chunk) ∥₁ }
        ensures body { (stored_at self.new.slots.items chunk).body ≡ Some body }
        ensures layout { self.new.layout ≡ self.old.layout }
        ensures world { self.new.told.world ≡ self.old.told.world }
    {
        put_body(&mut self.slots, chunk, body);
    }

    /// Stores the payload words of a held chunk from one place on, up to another one.
    pub(crate) fn store_words(
        &mut self,
        place: u16,
        chunk: u32,
        position: u32,
        first: usize,
        end: usize,
        payload: &[u8],
    )
        requires place { place < length self.old.layout.writers }
        requires may { MayStoreWords self.old.layout (writer self.old.told.world place) chunk position first end payload.now }
        ensures layout { self.new.layout ≡ self.old.layout }
        ensures words { StoredUpTo payload.now first end (draft_at (writer self.old.told.world place) position).words
            (stored_at self.new.slots.items chunk).words }
        ensures world { self.new.told.world ≡ drafted self.old.told.world place chunk position
            (with_words (draft_at (writer self.old.told.world place) position) (stored_at self.new.slots.items chunk).words) }
    {
        put_words(&mut self.slots, chunk, first, end, payload);
        let step = Step::Publish {
            place,
            chunk,
            position,
            words: words_of(&self.slots, chunk),
        };
        make_step(&mut self.told, &step);
    }

    /// Completes a chunk whose body is back, and whose words hold its payload.
    pub(crate) fn set_complete(&mut self, place: u16, chunk: u32, position: u32)
        requires place { place < length self.old.layout.writers }
        requires held { IsHolding (writer self.old.told.world place) chunk position }
        requires body { IsSome (stored_at self.old.slots.items chunk).body }
        requires whole { IfSome (stored_at self.old.slots.items chunk).body (λ body.
            StandsWhole (spot self.old.layout chunk).payload_size (writer self.old.told.world place) position body) }
        ensures layout { self.new.layout ≡ self.old.layout }
        ensures world { IfSome (stored_at self.old.slots.items chunk).body (λ body.
            self.new.told.world ≡ moved self.old.told.world place
            (completes (writer self.old.told.world place) chunk position
            (content_of (from_of self.old.layout place) place position (head_at (writer self.old.told.world place) position) body)) chunk
            (Ready place position
            (content_of (from_of self.old.layout place) place position (head_at (writer self.old.told.world place) position) body))) }
    {
        let spot = self.layout.spot(chunk);
        let page = spot.page as usize;
        let found = self.words[page];
        self.words[page] = found | complete_mask(spot.place);
        let step = Step::Complete {
            layout: &self.layout,
            place,
            chunk,
            position,
            body: body_of(&self.slots, chunk),
        };
        make_step(&mut self.told, &step);
    }

    /// Reads the page word and the header word of a chunk.
    pub(crate) fn peek(&self, chunk: u32) -> Seen
        requires { chunk < length self.now.layout.spots }
        ensures word { result.word.0 ≡ page_word self.now.layout self.now.words.items chunk }
        ensures header { packed result.header ≡ header_word self.now.layout self.now.words.items chunk }
        ensures fields { result.header ≡ unpacked (header_word self.now.layout self.now.words.items chunk) }
        ensures count_fits { result.header.count ≤ MAX_FRAGMENTS }
        ensures flags_fit { result.header.flags ≤ MAX_FLAGS }
    {
        let spot = self.layout.spot(chunk);
        let word = PageWord(self.words[spot.page as usize]);
        let header = ChunkHeader::unpack(self.words[self.layout.header_index(chunk)]);
        Seen { word, header }
    }

    /// Notes what was found there.
    pub(crate) fn note_look(&mut self, chunk: u32, seen: Seen)
        requires chunk { chunk < length self.old.layout.spots }
        requires word { seen.word.0 ≡ page_word self.old.layout self.old.words.items chunk }
        requires header { packed seen.header ≡ header_word self.old.layout self.old.words.items chunk }
        requires fields { seen.header ≡ unpacked (header_word self.old.layout self.old.words.items chunk) }
        ensures layout { self.new.layout ≡ self.old.layout }
        ensures world { self.new.told.world ≡ world_after self.old.told.world (Look chunk seen.word.0 seen.header) }
        ensures looks { LooksAt self.old.layout chunk seen.word.0 seen.header self.old.told.world.service self.new.told.world.service }
    {
        let step = Step::Look {
            chunk,
            word: seen.word.0,
            header: seen.header,
        };
        make_step(&mut self.told, &step);
    }

    /// Takes a chunk that was found complete, with this header.
    pub(crate) fn set_read(&mut self, place: u16, chunk: u32, word: u64, header: ChunkHeader)
        requires place { place < length self.old.layout.writers }
        requires chunk { chunk < length self.old.layout.spots }
        requires word { word ≡ page_word self.old.layout self.old.words.items chunk }
        requires complete { HasState word (spot self.old.layout chunk).place CompleteState }
        requires ready { ∥ ((content : Content) × (status self.old.told.world chunk
            ≡ Ready place (taken_of self.old.told.world.service place).count content)) ∥₁ }
        ensures layout { self.new.layout ≡ self.old.layout }
        ensures slots { self.new.slots.items ≡ self.old.slots.items }
        ensures world { self.new.told.world ≡ world_after self.old.told.world (Take place chunk word header) }
    {
        let spot = self.layout.spot(chunk);
        self.words[spot.page as usize] = word & take_mask(spot.place);
        let step = Step::Take {
            place,
            chunk,
            word,
            header,
        };
        make_step(&mut self.told, &step);
    }

    /// Loads the payload of a chunk that the service reads.
    pub(crate) fn load_taken(&self, chunk: u32, into: &mut [u8])
        requires reading { 0 < times chunk self.now.told.world.service.reading }
        requires size { length into.old ≡ (spot self.now.layout chunk).payload_size }
        ensures size { length into.new ≡ length into.old }
        ensures bytes { (j : ℕ) → j < length into.new → byte_in into.new j ≡ byte_at (stored_at self.now.slots.items chunk).words j }
    {
        unpack(words_of(&self.slots, chunk), into);
    }

    /// Notes the content of the chunk that was taken last of a writer.
    pub(crate) fn learn(&mut self, place: u16, chunk: u32, header: ChunkHeader, body: &CommitBody)
        requires place { place < length self.old.layout.writers }
        requires last { (taken_of self.old.told.world.service place).count
            ≡ length (taken_of self.old.told.world.service place).contents + 1 }
        requires content { let position = length (taken_of self.old.told.world.service place).contents in
            ∥ status self.old.told.world chunk ≡ Reading place position (content_of (from_of self.old.layout place) place position
            (record { count = header.count; flags = header.flags }) body.now) ∥₁ }
        ensures layout { self.new.layout ≡ self.old.layout }
        ensures world { let position = length (taken_of self.old.told.world.service place).contents in
            self.new.told.world ≡ serviced self.old.told.world (learns self.old.told.world.service place
            (content_of (from_of self.old.layout place) place position (record { count = header.count; flags = header.flags }) body.now)) }
    {
        let step = Step::Learn {
            layout: &self.layout,
            place,
            header,
            body,
        };
        make_step(&mut self.told, &step);
    }

    /// Frees a chunk that the service reads, and whose body is back.
    pub(crate) fn set_free(&mut self, chunk: u32)
        requires reading { 0 < times chunk self.old.told.world.service.reading }
        requires body { IsSome (stored_at self.old.slots.items chunk).body }
        requires size { IfSome (stored_at self.old.slots.items chunk).body (λ body.
            vec_len body.payload ≡ (spot self.old.layout chunk).payload_size) }
        ensures layout { self.new.layout ≡ self.old.layout }
        ensures world { self.new.told.world ≡ served self.old.told.world (lets_go self.old.told.world.service chunk) chunk Unclaimed }
    {
        let spot = self.layout.spot(chunk);
        let page = spot.page as usize;
        let found = self.words[page];
        self.words[page] = found & release_mask(spot.place);
        make_step(&mut self.told, &Step::Release { chunk });
    }
}
