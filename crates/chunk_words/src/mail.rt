//! Flush requests and their answers. The service stores how many it made, which is the number of the
//! last one, and each writer its last answer: the number of the request that it answers, with all
//! before it, and how many chunks it had completed by then. Each word is stored by one seat alone.
//! A request is noted while the reading pass is joined to the service's seat, as a read is, and the
//! pass gives notice of requests to writers.
ghost use Rattle.std.specs.Prelude.{◌≡◌, ◌+◌, ◌-◌, ◌/◌, ◌%◌, ◌<◌, ◌≤◌, [], length, take};
ghost use Rattle.chunk_plain.specs.Views.{asked_in};
ghost use Rattle.chunk_plain.specs.Histories.{completed_images};
ghost use Rattle.chunk_plain.specs.Letters.{NoClaimSince, last_flush, knows_request, answers_with, requests, hears_answer};
ghost use Rattle.chunk_plain.specs.Owned.{held_count};
ghost use Rattle.chunk_words.specs.Knows.{Here, Unmade, view_of, service_of, desk_of, stage_of, passed_of, staged, later};
ghost use Rattle.chunk_words.specs.Moves.{LearnsRequest, GivesAnswer, ReadsAnswer, NotesRequest, Compares, Serves, IsAnswer};
ghost use Rattle.chunk_words.specs.Sits.{Sits, Attends, Passes, CanStep, WriterLeaves, CanServe, ServiceLeaves, JoinsPass};

use crate::host::HostTable;
use crate::moves::Move;
use crate::pass::HandsOn;
use crate::seats::{ReadPass, ServiceSeat, WriterSeat};
use crate::steps::{Knowledge, make_load, make_store};
use atomic_table::{Join, Split};

/// The reading pass gives notice of the requests that it knows of.
pub struct GivesNotice {}

impl Split<Knowledge> for GivesNotice {
    ghost use Rattle.chunk_words.specs.Knows.{handed_on, notice_of};

    ghost left = { handed_on };

    ghost right = { notice_of };
}

/// A writer hears it.
pub struct HearsNotice {}

impl Join<Knowledge> for HearsNotice {
    ghost use Rattle.chunk_words.specs.Knows.{Spent, hears_notice};

    ghost both = { hears_notice };

    ghost spent = { Spent };
}

impl HostTable {
    /// How many flush requests were made by now: no fewer than the writer knew of.
    pub fn asked(&self, seat: &mut WriterSeat) -> u32
        requires seat { Sits self.now seat.old }
        ensures view { view_of seat.new.seat.me.0 ≡ knows_request (view_of seat.old.seat.me.0) result }
        ensures rises { (view_of seat.old.seat.me.0).letters.known ≤ result }
        ensures place { seat.new.place ≡ seat.old.place }
        ensures seat { Sits self.now seat.new }
    {
        self.step_learn_request(seat) as u32
    }

    /// The writer answers the last request that it knows of, and those before it, with the chunks that it
    /// has completed: as many, and the first ones that it began, none of which it holds. Since its last
    /// claim it has noted a call.
    pub fn answer(&self, seat: &mut WriterSeat, flush: u32, chunks: u32)
        requires seat { Sits self.now seat.old }
        requires known { flush ≡ (view_of seat.old.seat.me.0).letters.known }
        requires newer { last_flush (view_of seat.old.seat.me.0).letters.answers < flush }
        requires chunks { chunks ≡ length (completed_images (view_of seat.old.seat.me.0).begun) }
        requires none_held { held_count (take chunks (view_of seat.old.seat.me.0).begun) ≡ 0 }
        requires no_claim { NoClaimSince (view_of seat.old.seat.me.0) }
        ensures view { view_of seat.new.seat.me.0 ≡ answers_with (view_of seat.old.seat.me.0) flush chunks }
        ensures place { seat.new.place ≡ seat.old.place }
        ensures seat { Sits self.now seat.new }
    {
        self.step_answer(seat, flush, chunks);
    }

    /// The service makes the next flush request, where there is no reading pass and it reads no chunk.
    pub fn ask(&self, seat: &mut ServiceSeat, flush: u32)
        requires seat { Attends self.now seat.old }
        requires none_made { stage_of seat.old.seat.me.0 ≡ Unmade }
        requires none_read { (service_of seat.old.seat.me.0).reading ≡ [] }
        requires next { flush ≡ asked_in (service_of seat.old.seat.me.0).letters + 1 }
        ensures view { service_of seat.new.seat.me.0 ≡ requests (service_of seat.old.seat.me.0) }
        ensures desk { desk_of seat.new.seat.me.0 ≡ desk_of seat.old.seat.me.0 }
        ensures seat { Attends self.now seat.new }
    {
        self.step_request(seat, flush);
    }

    /// The last answer of a writer: the number of its request and how many chunks, both 0 without one.
    /// It is to a request that was made, and to no older one than the writer told of or than was read of
    /// it before; what was read to the same request is the same. Writers count from 1.
    pub fn answered(&self, seat: &mut ServiceSeat, writer: u16) -> (u32, u32)
        requires seat { Attends self.now seat.old }
        requires least { 1 ≤ writer }
        requires most { writer ≤ length self.now.layout.writers }
        ensures view { service_of seat.new.seat.me.0 ≡ hears_answer (service_of seat.old.seat.me.0) (writer - 1) result.0 result.1 }
        ensures answer { IsAnswer (service_of seat.old.seat.me.0) (desk_of seat.old.seat.me.0) (writer - 1) result.0 result.1 }
        ensures desk { desk_of seat.new.seat.me.0 ≡ desk_of seat.old.seat.me.0 }
        ensures seat { Attends self.now seat.new }
    {
        let found = self.step_read_answer(seat, writer - 1);
        (
            (found / 4_294_967_296) as u32,
            (found % 4_294_967_296) as u32,
        )
    }

    /// The next request joins the view of the service, which reads no chunk, and then that of the pass is
    /// the same. What the service noted since the pass is no read, and it made no request.
    pub fn note_request(&self, seat: &mut ServiceSeat, pass: &mut ReadPass, flush: u32)
        requires seat { Attends self.now seat.old }
        requires pass { Passes self.now pass.old }
        requires none_read { (service_of seat.old.seat.me.0).reading ≡ [] }
        requires next { flush ≡ asked_in (service_of seat.old.seat.me.0).letters + 1 }
        ensures joins { JoinsPass self.now pass.old pass.new seat.old seat.new }
        ensures seat { Attends self.now seat.new }
        ensures view { service_of seat.new.seat.me.0 ≡ requests (service_of seat.old.seat.me.0) }
        ensures known { passed_of pass.new.seat.me.0 ≡ service_of seat.new.seat.me.0 }
    {
        let table = &self.table;
        let inner = table.shared.split_seat::<HandsOn>(&mut pass.seat);
        self.take_pass(seat, inner);
        self.step_note_request(seat, flush);
        pass.seat = self.give_pass(seat);
    }

    /// Compares what the service knows with what the pass knows: since then it noted no read and made
    /// no request. Nothing changes.
    pub fn compare(&self, seat: &mut ServiceSeat, pass: &mut ReadPass)
        requires seat { Attends self.now seat.old }
        requires pass { Passes self.now pass.old }
        ensures joins { JoinsPass self.now pass.old pass.new seat.old seat.new }
        ensures seat { Attends self.now seat.new }
        ensures view { service_of seat.new.seat.me.0 ≡ service_of seat.old.seat.me.0 }
        ensures known { passed_of pass.new.seat.me.0 ≡ passed_of pass.old.seat.me.0 }
    {
        let table = &self.table;
        let inner = table.shared.split_seat::<HandsOn>(&mut pass.seat);
        self.take_pass(seat, inner);
        self.step_compare(seat);
        pass.seat = self.give_pass(seat);
    }

    /// The writer hears of the requests that the pass knows of.
    pub fn hear(&self, seat: &mut WriterSeat, pass: &mut ReadPass)
        requires seat { Sits self.now seat.old }
        requires pass { Passes self.now pass.old }
        ensures view { view_of seat.new.seat.me.0
            ≡ knows_request (view_of seat.old.seat.me.0)
            (later (view_of seat.old.seat.me.0).letters.known (asked_in (passed_of pass.old.seat.me.0).letters)) }
        ensures known { passed_of pass.new.seat.me.0 ≡ passed_of pass.old.seat.me.0 }
        ensures place { seat.new.place ≡ seat.old.place }
        ensures seat { Sits self.now seat.new }
        ensures pass { Passes self.now pass.new }
    {
        let table = &self.table;
        let notice = table.shared.split_seat::<GivesNotice>(&mut pass.seat);
        table
            .shared
            .join_seat::<HearsNotice>(&mut seat.seat, notice);
    }

    fn step_learn_request(&self, seat: &mut WriterSeat) -> u64
        requires seat { CanStep self.now seat.old }
        ensures { WriterLeaves seat.old seat.new (λ me new. LearnsRequest me result new) }
    {
        let table = &self.table;
        make_load(
            &table.shared,
            &mut seat.seat,
            self.requests,
            &Move::LearnRequest,
        )
    }

    fn step_answer(&self, seat: &mut WriterSeat, flush: u32, chunks: u32)
        requires seat { CanStep self.now seat.old }
        requires place { seat.old.place < length self.now.layout.writers }
        requires known { flush ≡ (view_of seat.old.seat.me.0).letters.known }
        requires newer { last_flush (view_of seat.old.seat.me.0).letters.answers < flush }
        requires chunks { chunks ≡ length (completed_images (view_of seat.old.seat.me.0).begun) }
        requires none_held { held_count (take chunks (view_of seat.old.seat.me.0).begun) ≡ 0 }
        requires no_claim { NoClaimSince (view_of seat.old.seat.me.0) }
        ensures { WriterLeaves seat.old seat.new (GivesAnswer flush chunks) }
    {
        let index = self.answer_index(seat.place);
        let word = flush as u64 * 4_294_967_296 + chunks as u64;
        let step = Move::Answer { flush, chunks };
        let table = &self.table;
        make_store(&table.shared, &mut seat.seat, index, word, &step);
    }

    fn step_request(&self, seat: &mut ServiceSeat, flush: u32)
        requires seat { CanServe self.now seat.old }
        requires none_made { stage_of seat.old.seat.me.0 ≡ Unmade }
        requires none_read { (service_of seat.old.seat.me.0).reading ≡ [] }
        requires next { flush ≡ asked_in (service_of seat.old.seat.me.0).letters + 1 }
        ensures { ServiceLeaves seat.old seat.new (Serves (λ view. requests view)) }
    {
        let step = Move::Request { flush };
        let table = &self.table;
        make_store(
            &table.shared,
            &mut seat.seat,
            self.requests,
            flush as u64,
            &step,
        );
    }

    fn step_note_request(&self, seat: &mut ServiceSeat, flush: u32)
        requires seat { CanServe self.now seat.old }
        requires here { stage_of seat.old.seat.me.0 ≡ Here (staged (stage_of seat.old.seat.me.0)) }
        requires none_read { (service_of seat.old.seat.me.0).reading ≡ [] }
        requires next { flush ≡ asked_in (service_of seat.old.seat.me.0).letters + 1 }
        ensures { ServiceLeaves seat.old seat.new NotesRequest }
    {
        let step = Move::NoteRequest { flush };
        let table = &self.table;
        make_store(
            &table.shared,
            &mut seat.seat,
            self.requests,
            flush as u64,
            &step,
        );
    }

    fn step_read_answer(&self, seat: &mut ServiceSeat, place: u16) -> u64
        requires seat { CanServe self.now seat.old }
        requires place { place < length self.now.layout.writers }
        ensures { ServiceLeaves seat.old seat.new (λ me new. ReadsAnswer place me result new) }
    {
        let index = self.answer_index(place);
        let step = Move::ReadAnswer { writer: place };
        let table = &self.table;
        make_load(&table.shared, &mut seat.seat, index, &step)
    }

    fn step_compare(&self, seat: &mut ServiceSeat)
        requires seat { CanServe self.now seat.old }
        requires here { stage_of seat.old.seat.me.0 ≡ Here (staged (stage_of seat.old.seat.me.0)) }
        ensures { ServiceLeaves seat.old seat.new Compares }
    {
        let table = &self.table;
        make_load(&table.shared, &mut seat.seat, self.spare, &Move::Compare);
    }
}
