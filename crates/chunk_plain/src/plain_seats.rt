//! The seats of the table of one thread.

/// The seat of a writer: its place in the list that the table was made with, from 0.
#[derive(Debug, Drop)]
pub struct PlainWriter {
    pub place: u16,
}

/// The seat of the service.
#[derive(Debug, Drop)]
pub struct PlainService {}
