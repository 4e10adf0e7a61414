//! Command lines by hand, and what each asks for.
//! Nothing stands on this crate. What each call does is proved in `command_words`. The tests have a
//! crate of their own since a crate with tests is proved twice.
#![tactic(auto)]

#[cfg(test)]
mod words;
