//! Flush requests and their answers, and the end of the session. A request is one word of the table, and
//! each writer's last answer another.
ghost use Rattle.std.specs.Prelude.{◌≡◌, ◌+◌, ◌-◌, ◌<◌, ◌≤◌, ◌↔◌, IsTrue, length};
ghost use Rattle.session_core.specs.States.{Flush, Stop, refusal_in, answered_as};
ghost use Rattle.session_core.specs.Sessions.{left_as, moved, acknowledge_refusal, with_answer};
ghost use Rattle.session_core.specs.declared.answers.SessionState.TheVariants.{Stopped};
ghost use Rattle.chunk_plain.specs.Views.{asked_in};
ghost use Rattle.chunk_words.specs.declared.host.HostTable.{HostTable};
ghost use Rattle.chunk_words.specs.GoesOn.{GoesOn};
ghost use Rattle.chunk_words.specs.Knows.{Away, Unmade, with_stage};
ghost use Rattle.chunk_words.specs.Sits.{Passes, known_by_pass, setup_in};
ghost use Rattle.service_core.specs.Agreement.{KeepsTaking, IsAnsweredBy};
ghost use Rattle.thread_service.specs.Requesting.{Requests, MakesRequest, PassesRequest, HearsAnswer};
ghost use Rattle.thread_service.specs.Serving.{core_of, view_in, desk_in, Serves, IsServing, IsOnlySeat, KnowsSame};
ghost use Rattle.thread_service.specs.Reading.{ServesPassing};

use crate::service::Service;
use chunk_words::{HostTable, ReadPass, Shared};
use session_core::SessionFault;

impl Service {
    /// Makes a flush request where no reading pass was made, and answers its number. A refused one leaves
    /// the table as it is.
    pub fn request_flush(&mut self, table: &HostTable) -> Result<u32, SessionFault>
        requires serves { Serves table.now self.old }
        requires none_made { (desk_in self.old).stage ≡ Unmade }
        requires fewer { (core_of self.old).session.requests < u32.MAX }
        ensures serves { Serves table.now self.new }
        ensures request { MakesRequest (core_of self.old).session (core_of self.new).session
            ((core_of self.old).session.requests + 1) result }
        ensures view { Requests (refusal_in Flush (core_of self.old).session.state) (view_in self.old) (view_in self.new) }
        ensures desk { desk_in self.new ≡ desk_in self.old }
        ensures keeps { KeepsTaking (record (core_of self.old) { seat = (core_of self.new).seat }) (core_of self.new) }
    {
        let mut lent = Shared { table };
        let flush = self.core.request_flush(&mut lent)?;
        table.ask(&mut self.core.seat, flush);
        Ok(flush)
    }

    /// Makes a flush request with the reading pass, and answers its number: the pass knows of it then, as
    /// it does of a read. The request comes behind all that the pass knew, and behind no read besides.
    pub fn request_passing(
        &mut self,
        table: &HostTable,
        pass: &mut ReadPass,
    ) -> Result<u32, SessionFault>
        requires serves { ServesPassing table.now self.old pass.old }
        requires fewer { asked_in (known_by_pass pass.old).letters < u32.MAX }
        ensures serves { ServesPassing table.now self.new pass.new }
        ensures request { MakesRequest (core_of self.old).session (core_of self.new).session
            (asked_in (known_by_pass pass.old).letters + 1) result }
        ensures passes { PassesRequest table.now self.old self.new pass.old pass.new }
        ensures desk { with_stage (desk_in self.new) Away ≡ with_stage (desk_in self.old) Away }
        ensures keeps { KeepsTaking (record (core_of self.old) { seat = (core_of self.new).seat }) (core_of self.new) }
    {
        table.compare(&mut self.core.seat, pass);
        let mut lent = Shared { table };
        let flush = self.core.request_flush(&mut lent)?;
        table.note_request(&mut self.core.seat, pass, flush);
        Ok(flush)
    }

    /// The last answer of a writer: the number of its request and how many chunks, both 0 without one.
    /// Writers count from 1.
    pub fn answer_of(&mut self, table: &HostTable, writer: u16) -> (u32, u32)
        requires serves { Serves table.now self.old }
        requires least { 1 ≤ writer }
        requires most { writer ≤ length (setup_in table.now).writers }
        ensures serves { Serves table.now self.new }
        ensures answer { HearsAnswer (writer - 1) result.0 result.1 self.old self.new }
        ensures desk { desk_in self.new ≡ desk_in self.old }
        ensures only { IsOnlySeat (core_of self.old) (core_of self.new) }
    {
        table.answered(&mut self.core.seat, writer)
    }

    /// Compares what the service knows with what the pass knows: since then it noted no read and made no
    /// request. Nothing else changes.
    pub fn compare(&mut self, table: &HostTable, pass: &mut ReadPass)
        requires serves { Serves table.now self.old }
        requires pass { Passes table.now pass.old }
        ensures serves { Serves table.now self.new }
        ensures pass { Passes table.now pass.new }
        ensures goes_on { GoesOn (known_by_pass pass.old) (view_in self.old) }
        ensures same { KnowsSame self.old self.new }
        ensures known { known_by_pass pass.new ≡ known_by_pass pass.old }
        ensures desk { with_stage (desk_in self.new) Away ≡ with_stage (desk_in self.old) Away }
    {
        table.compare(&mut self.core.seat, pass);
    }

    /// A writer answered a request: it had completed so many chunks. Writers count from 1.
    pub fn acknowledge(&mut self, flush: u32, writer: u16, chunks: u32) -> Result<(), SessionFault>
        requires least { 1 ≤ writer }
        requires most { writer ≤ (core_of self.old).session.writers }
        ensures serves { (table : HostTable) → Serves table self.old → Serves table self.new }
        ensures answer { result ≡ answered_as (acknowledge_refusal (core_of self.old).session flush) tt }
        ensures after { (core_of self.new).session
            ≡ left_as (acknowledge_refusal (core_of self.old).session flush) (core_of self.old).session
            (with_answer (core_of self.old).session (writer - 1) (record { flush = flush; chunks = chunks })) }
        ensures keeps { KeepsTaking (core_of self.old) (core_of self.new) }
    {
        self.core.acknowledge(flush, writer, chunks)
    }

    /// Whether each writer of an open producer has answered this request or a later one, and as many
    /// of its chunks were taken as its kept answer names.
    pub fn answered(&self, flush: u32) -> bool
        requires { IsServing self.now }
        ensures { IsTrue result ↔ IsAnsweredBy (core_of self.now) flush }
    {
        self.core.answered(flush)
    }

    /// Ends the session.
    pub fn stop(&mut self) -> Result<(), SessionFault>
        ensures serves { (table : HostTable) → Serves table self.old → Serves table self.new }
        ensures answer { result ≡ answered_as (refusal_in Stop (core_of self.old).session.state) tt }
        ensures after { (core_of self.new).session
            ≡ left_as (refusal_in Stop (core_of self.old).session.state) (core_of self.old).session
            (moved Stopped (core_of self.old).session) }
        ensures keeps { KeepsTaking (core_of self.old) (core_of self.new) }
    {
        self.core.stop()
    }
}
