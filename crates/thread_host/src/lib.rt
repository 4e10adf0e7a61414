//! The host of threads: it plays a scenario with each writer on a thread of its own, beside the service's
//! lines. The service stands behind a lock for so long, and a writer that stalls, for ever or so often,
//! has a helper that takes it.
//! A layer above may rely on this: where `run` answers Ok, the sink has taken exactly the records of an
//! account to which the scenario leads, and the counts are that account's; where a write failed, it has
//! taken those of one up to there, and a front part of the next at most. No writer ends stalled. The
//! parts of `run` say whose account it is: the seats that are settled know what the writers knew whose
//! lines were played, and at the end it is of these seats and of the service that was settled.
#![tactic(auto)]

mod answering;
mod asking;
mod finishing;
mod help;
mod host;
mod job;
mod locked;
mod making;
mod name;
mod playing;
mod reading;
mod running;
mod settled;
mod tally;
mod whole;
mod writing;

pub use help::{IdleHelp, LockHelp};
pub use host::Host;
pub use job::service_job;
pub use locked::{Locked, Readings, Takings, Turns};
pub use name::{HostName, TakingsName};
pub use settled::Settled;
pub use tally::Tally;
pub use whole::run;
pub use writing::writer_job;
