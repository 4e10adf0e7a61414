//! The command that the words ask for.
ghost use Rattle.std.specs.Prelude.{◌≡◌, Err, IfOk, map};
ghost use Rattle.std.specs.String.{string_bytes};
ghost use Rattle.tracesmb_top.specs.Words.{Ask, AskForNothing};

use command_words::{Command, WordsFault, read_words};
use std::alloc::Global;

/// The command that the words ask for.
pub fn asked_command(alloc: Global, words: &[String]) -> Result<Command, WordsFault>
    ensures asked { IfOk result (λ command. Ask (map string_bytes words.now) command) }
    ensures unknown { result ≡ Err WordsFault.Unknown → AskForNothing (map string_bytes words.now) }
{
    read_words(alloc, words)
}
