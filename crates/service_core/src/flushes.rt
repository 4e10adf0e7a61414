//! Flush requests, and the end of the session.
ghost use Rattle.std.specs.Prelude.{◌≡◌, ℕ, ◌+◌, ◌-◌, ◌<◌, ◌≤◌, ◌↔◌, false, IsTrue, length, slice_index_or};
ghost use Rattle.trace_base.specs.declared.limits.TheConstants.{MAX_WRITERS};
ghost use Rattle.session_core.specs.States.{Flush, Stop, refusal_in, answered_as};
ghost use Rattle.session_core.specs.Sessions.{left_as, moved, requested, acknowledge_refusal, with_answer};
ghost use Rattle.session_core.specs.declared.answers.SessionState.TheVariants.{Stopped};
ghost use Rattle.chunk_plain.specs.Setup.{Setup};
ghost use Rattle.chunk_plain.specs.Views.{ServiceView};
ghost use Rattle.service_core.specs.Agreement.{IsAgreeing, KeepsTaking, IsAnsweredBy, is_closed_in, ServiceAgrees};

use crate::service::ServiceCore;
use chunk_plain::Words;
use session_core::SessionFault;
use trace_base::limits::MAX_WRITERS;

impl<S> ServiceCore<S> {
    /// Makes a flush request, and answers its number. The table is left as it is.
    pub fn request_flush<W: Words<Service = S>>(
        &mut self,
        table: &mut W,
    ) -> Result<u32, SessionFault>
        requires agrees { ServiceAgrees (W.means.setup table.old) (W.means.service_view table.old self.old.seat) self.old }
        requires fewer { self.old.session.requests < u32.MAX }
        ensures answer { result ≡ answered_as (refusal_in Flush self.old.session.state) (self.old.session.requests + 1) }
        ensures after { self.new.session ≡ left_as (refusal_in Flush self.old.session.state) self.old.session (requested self.old.session) }
        ensures keeps { KeepsTaking self.old self.new }
        ensures agrees { ServiceAgrees (W.means.setup table.new) (W.means.service_view table.new self.new.seat) self.new }
        ensures table { table.new ≡ table.old }
    {
        let _table = table;
        self.session.flush()
    }

    /// A writer answered a request: it had completed so many chunks. Writers count from 1.
    pub fn acknowledge(&mut self, flush: u32, writer: u16, chunks: u32) -> Result<(), SessionFault>
        requires least { 1 ≤ writer }
        requires most { writer ≤ self.old.session.writers }
        ensures answer { result ≡ answered_as (acknowledge_refusal self.old.session flush) tt }
        ensures after { self.new.session ≡ left_as (acknowledge_refusal self.old.session flush) self.old.session
            (with_answer self.old.session (writer - 1) (record { flush = flush; chunks = chunks })) }
        ensures keeps { KeepsTaking self.old self.new }
        ensures agrees { (setup : Setup) (view : ServiceView) → ServiceAgrees setup view self.old → ServiceAgrees setup view self.new }
    {
        self.session.acknowledge(flush, writer, chunks)
    }

    /// Whether each writer of an open producer has answered this request or a later one, and as many
    /// of its chunks were taken as its kept answer names.
    pub fn answered(&self, flush: u32) -> bool
        requires { IsAgreeing self.now }
        ensures { IsTrue result ↔ IsAnsweredBy self.now flush }
    {
        let closed = self.closed_writers();
        self.session.answered(flush, &self.taken, &closed)
    }

    /// Ends the session.
    pub fn stop(&mut self) -> Result<(), SessionFault>
        ensures answer { result ≡ answered_as (refusal_in Stop self.old.session.state) tt }
        ensures after { self.new.session
            ≡ left_as (refusal_in Stop self.old.session.state) self.old.session (moved Stopped self.old.session) }
        ensures keeps { KeepsTaking self.old self.new }
        ensures agrees { (setup : Setup) (view : ServiceView) → ServiceAgrees setup view self.old → ServiceAgrees setup view self.new }
    {
        self.session.stop()
    }

    /// Of each writer whether its sequence is closed.
    fn closed_writers(&self) -> [bool; MAX_WRITERS]
        requires { IsAgreeing self.now }
        ensures { (place : ℕ) → place < length self.now.writers.items → slice_index_or result place false ≡ is_closed_in self.now place }
    {
        let mut closed = [false; MAX_WRITERS];
        for place in 0..self.writers.len() {
            closed[place] = self.state_at(place).closed;
        }
        closed
    }
}
