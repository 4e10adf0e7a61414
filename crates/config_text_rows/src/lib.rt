//! Tests of reading and writing configuration texts: each reason alone and each pair, texts as they are
//! documented, and what is written of a configuration.
#![tactic(auto)]

#[cfg(test)]
mod reasons;
#[cfg(test)]
mod rounds;
#[cfg(test)]
mod texts;
