//! A table of page words that users and a collector share, whose pages are partitioned anew while it
//! is used: a user that has claimed all chunks of a page gives it another layout. No payload lies in
//! the pages. A layer above may rely on this: between any two steps of any number of threads the
//! chunks that are out in a page belong to one layout, each with one seat, and a page changes its
//! layout only where one user had all its chunks. No call takes a lock or waits.
#![tactic(auto)]

mod close;
mod collecting;
mod collector_steps;
pub mod laws;
mod make;
mod moves;
mod retiling;
mod seats;
mod steps;
mod table;
mod tokens;
mod user_steps;
mod users;

pub use seats::{CollectSeat, TuneSeat};
pub use steps::{Knowledge, TuneRule};
pub use table::{
    LAST_GENERATION, MAX_TUNE_PAGES, MAX_USERS, Shape, TuneTable, chunk_count, generation_of,
    layout_of,
};
pub use tokens::{TuneClaimed, TuneFault, TuneHeld, TunePage};
