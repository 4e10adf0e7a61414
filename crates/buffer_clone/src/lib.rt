//! A clone of a buffer: a copy of it at a moment, read by a consumer of its own while the buffer goes
//! on.
//! A layer above may rely on a clone being the definitions' `Buffer`: `fill` leaves the buffer that it
//! copies, closed and with nothing delivered yet, and a reading writes exactly the records of that. No
//! call but `make` takes memory. That these records tell of the packets that writers emitted is a
//! law: a public function with an empty body.
#![tactic(auto)]

mod closing;
mod copy;
mod laws;
mod reading;

pub use copy::BufferClone;
pub use laws::every_clone_is_told;
