//! The seats of a table that threads share. A seat steps on its table for one thread at a time; it
//! may go from thread to thread.
use crate::steps::ChunkSeat;

/// The seat of a writer: its place in the list that the table was made with, from 0.
#[derive(Drop)]
pub struct WriterSeat {
    pub(crate) place: u16,
    pub(crate) seat: ChunkSeat,
}

/// The seat of the service.
#[derive(Drop)]
pub struct ServiceSeat {
    pub(crate) seat: ChunkSeat,
}

/// The reading pass: what the service's seat knew when its last read was noted. No read is noted
/// without it once it is made.
#[derive(Drop)]
pub struct ReadPass {
    pub(crate) seat: ChunkSeat,
}
