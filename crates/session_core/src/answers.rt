//! The states of a session, and what its calls answer.
use thiserror::Error;

/// How far a session has come.
#[derive(Clone, Copy, Debug, PartialEq, Eq)]
pub enum SessionState {
    Idle,
    Configured,
    Started,
    Stopped,
    Freed,
}

/// A writer's answer to a flush request: the number of the request, and how many chunks the writer
/// had completed when it flushed.
#[derive(Clone, Copy, Debug, PartialEq, Eq)]
pub struct Answer {
    pub flush: u32,
    pub chunks: u32,
}

/// Why a call is refused.
#[derive(Clone, Copy, Debug, PartialEq, Eq, Error)]
pub enum SessionFault {
    #[error("not allowed in the state {state:?}")]
    WrongState { state: SessionState },
    #[error("there is no flush request {flush}")]
    NoSuchFlush { flush: u32 },
}
