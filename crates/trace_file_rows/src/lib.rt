//! Records and traces by hand: records as they are written, and traces, most of them as no service
//! writes them, as they are read.
//! Nothing stands on this crate. What each call does is proved in `trace_file`. The tests have a
//! crate of their own since a crate with tests is proved twice.
#![tactic(auto)]

#[cfg(test)]
mod reading;
#[cfg(test)]
mod writing;
