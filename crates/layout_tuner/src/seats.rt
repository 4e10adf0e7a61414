//! The seats of a table. A seat steps on its table for one thread at a time; it may go from thread to
//! thread.
use crate::steps::Knowledge;
use atomic_table::Seat;

/// The seat of a user, with its number. Users count from 0.
#[derive(Drop)]
pub struct TuneSeat {
    pub number: u8,
    pub(crate) seat: Seat<u8, Knowledge>,
}

/// The seat of the collector.
#[derive(Drop)]
pub struct CollectSeat {
    pub(crate) seat: Seat<u8, Knowledge>,
}
