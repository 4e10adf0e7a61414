//! The command words of the program.
//! A layer above may rely on this: `read_words` answers the command that the words spell, and refuses exactly the words
//! that spell none; but memory may run out. Words spell one command at most.
#![tactic(auto)]

mod command;
mod laws;
mod number;
mod program;
mod reading;

pub use command::Command;
pub use laws::words_spell_one_command;
pub use reading::{WordsFault, read_words};
