//! The writers and the service as a library for programs in C: a program's own threads are the writers,
//! one of its threads is the service, and what it reads is a trace. `include/tracesmb.h` declares the
//! exports and says what a program owes.
//! A layer above may rely on this: an export answers a stated fault wherever it can test what it needs,
//! and its clauses say what it did by the calls that its writer noted, by what the service knows, and by
//! the bytes of the trace that it gave. The library takes no lock, starts no thread and never waits.
#![tactic(auto)]

mod closing;
mod codes;
mod eventing;
mod making;
mod planning;
mod reading;
mod serving;
mod session;
mod session_handle;
mod session_opening;
mod sharing;
mod stopping;
mod taking;
mod waiting;
mod writer;
mod writer_calls;
mod writer_events;
mod writer_handle;
mod writer_opening;
mod writer_tries;
mod writing;
