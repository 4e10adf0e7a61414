//! A scenario is read from a source piece by piece, and of a text that is accepted the reader keeps no
//! more between two pieces than the line that has begun.
//! A layer above may rely on the answer being what the grammar gives of all bytes that the source
//! had, up to the most that a text may have, and on each fault having its cause in the source, even
//! where a line of the text was refused before it.
#![tactic(auto)]

mod take;

pub use take::take_scenario;
