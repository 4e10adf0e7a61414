//! A session.
ghost use Rattle.std.specs.Prelude.{◌≡◌, ℕ, ◌+◌, ◌-◌, ◌<◌, ◌≤◌, ◌↔◌, IsTrue, Some, length, slice_set};
ghost use Rattle.session_core.specs.States.{Configure, Start, Flush, Stop, Read, Free, refusal_in, answered_as};
ghost use Rattle.session_core.specs.Sessions.{new_session, left_as, moved, configured, requested, acknowledge_refusal, with_answer, HasAnswered, IsAnswered};
ghost use Rattle.session_core.specs.Sessions as sessions;
ghost use Rattle.session_core.specs.declared.answers.SessionState.TheVariants.{Started, Stopped, Freed};

use crate::answers::{Answer, SessionFault, SessionState};
use std::marker::Model;
use trace_base::limits::MAX_WRITERS;
use trace_base::policy::WriterSpec;

/// A session with its flush requests, which have the numbers 1, 2 and so on.
#[derive(Debug, Drop)]
pub struct Session {
    state: SessionState,
    /// How many writers are configured.
    writers: usize,
    /// How many requests were made.
    requests: u32,
    /// The answer that is kept of each writer.
    answers: [Option<Answer>; MAX_WRITERS],
}

impl Model for Session {
    ghost use Rattle.session_core.specs.Sessions.{SessionValue};
    ghost use Rattle.session_core.specs.SessionFields.{session_view, IsSession};

    ghost Value = { SessionValue };

    ghost view = { session_view };

    ghost invariant = { IsSession };
}

impl Session {
    pub fn new() -> Session
        ensures { result ≡ new_session }
    {
        Session {
            state: SessionState::Idle,
            writers: 0,
            requests: 0,
            answers: [None; MAX_WRITERS],
        }
    }

    pub fn configure(&mut self, writers: &[WriterSpec]) -> Result<(), SessionFault>
        requires { length writers.now ≤ MAX_WRITERS }
        ensures answer { result ≡ answered_as (refusal_in Configure self.old.state) tt }
        ensures after { self.new ≡ left_as (refusal_in Configure self.old.state) self.old (configured (length writers.now) self.old) }
    {
        let SessionState::Idle = self.state else {
            return Err(SessionFault::WrongState { state: self.state });
        };
        self.state = SessionState::Configured;
        self.writers = writers.len();
        Ok(())
    }

    pub fn start(&mut self) -> Result<(), SessionFault>
        ensures answer { result ≡ answered_as (refusal_in Start self.old.state) tt }
        ensures after { self.new ≡ left_as (refusal_in Start self.old.state) self.old (moved Started self.old) }
    {
        let SessionState::Configured = self.state else {
            return Err(SessionFault::WrongState { state: self.state });
        };
        self.state = SessionState::Started;
        Ok(())
    }

    /// Makes a flush request, and answers its number.
    pub fn flush(&mut self) -> Result<u32, SessionFault>
        requires { self.old.requests < u32.MAX }
        ensures answer { result ≡ answered_as (refusal_in Flush self.old.state) (self.old.requests + 1) }
        ensures after { self.new ≡ left_as (refusal_in Flush self.old.state) self.old (requested self.old) }
    {
        let SessionState::Started = self.state else {
            return Err(SessionFault::WrongState { state: self.state });
        };
        self.requests += 1;
        Ok(self.requests)
    }

    /// A writer answered a request: it had completed so many chunks. Writers count from 1.
    pub fn acknowledge(&mut self, flush: u32, writer: u16, chunks: u32) -> Result<(), SessionFault>
        requires least { 1 ≤ writer }
        requires most { self.old.state ≡ Started → writer ≤ self.old.writers }
        ensures answer { result ≡ answered_as (acknowledge_refusal self.old flush) tt }
        ensures after { self.new ≡ left_as (acknowledge_refusal self.old flush) self.old
            (with_answer self.old (writer - 1) (record { flush = flush; chunks = chunks })) }
    {
        let SessionState::Started = self.state else {
            return Err(SessionFault::WrongState { state: self.state });
        };
        if flush == 0 || flush > self.requests {
            return Err(SessionFault::NoSuchFlush { flush });
        }
        let place = usize::from(writer) - 1;
        self.answers[place] = Some(kept(self.answers[place], Answer { flush, chunks }));
        Ok(())
    }

    /// Whether each writer that isn't closed has answered this request or a later one, and as many
    /// of its chunks were taken as its kept answer names. `taken` and `closed` have an entry for each
    /// writer.
    pub fn answered(&self, flush: u32, taken: &[u32], closed: &[bool]) -> bool
        requires taken { self.now.writers ≤ length taken.now }
        requires closed { self.now.writers ≤ length closed.now }
        ensures { IsTrue result ↔ IsAnswered self.now flush taken.now closed.now }
    {
        for place in 0..self.writers {
            if !closed[place] && !has_answered(self.answers[place], flush, taken[place]) {
                return false;
            }
        }
        true
    }

    pub fn stop(&mut self) -> Result<(), SessionFault>
        ensures answer { result ≡ answered_as (refusal_in Stop self.old.state) tt }
        ensures after { self.new ≡ left_as (refusal_in Stop self.old.state) self.old (moved Stopped self.old) }
    {
        let SessionState::Started = self.state else {
            return Err(SessionFault::WrongState { state: self.state });
        };
        self.state = SessionState::Stopped;
        Ok(())
    }

    /// Whether the buffers may be read.
    pub fn read(&self) -> Result<(), SessionFault>
        ensures { result ≡ answered_as (refusal_in Read self.now.state) tt }
    {
        match self.state {
            SessionState::Started | SessionState::Stopped => Ok(()),
            state => Err(SessionFault::WrongState { state }),
        }
    }

    pub fn free(&mut self) -> Result<(), SessionFault>
        ensures answer { result ≡ answered_as (refusal_in Free self.old.state) tt }
        ensures after { self.new ≡ left_as (refusal_in Free self.old.state) self.old (moved Freed self.old) }
    {
        match self.state {
            SessionState::Configured | SessionState::Started | SessionState::Stopped => {
                self.state = SessionState::Freed;
                Ok(())
            }
            state => Err(SessionFault::WrongState { state }),
        }
    }

    pub fn state(&self) -> SessionState
        ensures { result ≡ self.now.state }
    {
        self.state
    }
}

/// Of two answers of a writer the one to the newer request, and of equal ones the first.
fn kept(before: Option<Answer>, answer: Answer) -> Answer
    ensures { Some result ≡ sessions.kept before answer }
{
    match before {
        Some(before) if answer.flush <= before.flush => before,
        _ => answer,
    }
}

fn has_answered(answer: Option<Answer>, flush: u32, taken: u32) -> bool
    ensures { IsTrue result ↔ HasAnswered answer flush taken }
{
    match answer {
        None => false,
        Some(answer) => flush <= answer.flush && answer.chunks <= taken,
    }
}
