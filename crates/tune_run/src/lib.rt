//! Users that claim chunks and partition pages anew on threads of their own, beside a collector: the
//! turns of one user, and a whole run of all of them on one table. A layer above may rely on this: a
//! user's counts are those of the turns that it took, each of them told by what it found; and at the
//! end all users together completed as many chunks as were collected, and partitioned pages anew as
//! often as the pages' words count.
#![tactic(auto)]

mod counts;
mod jobs;
mod run;
mod turns;

pub use counts::{Deed, UserCounts};
pub use run::{PAGES, TuneReport, run_tune};
pub use turns::{MAX_TURNS, give_all, tune_turns};
