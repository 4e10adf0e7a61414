//! The top call: words of a command, an input, a sink for the trace and one for text, and a status.
//! Its clauses are the program's promises: the delivery theorem for status 0, the cause of each
//! other status, and what the trace and the text hold afterwards.
#![tactic(auto)]

mod check;
mod cloning;
mod commands;
mod gather;
mod input;
mod null_sink;
mod report;
mod say;
mod streaming;
mod top;
mod unfit;
mod words;

pub use say::say_out_of_memory;
pub use top::trace_top;
