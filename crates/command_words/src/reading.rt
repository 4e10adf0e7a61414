//! From words to the command that they spell.
ghost use Rattle.std.specs.Prelude.{◌≡◌, ℕ, true, List, [], ◌∷◌, Err, IfOk, IfSome, IfNone, map, codes};
ghost use Rattle.std.specs.List.{list_all};
ghost use Rattle.std.specs.String.{string_bytes};
ghost use Rattle.clap.specs.Words.{kind_of, subcommand_of, subcommand_rows_of};
ghost use Rattle.command_words.specs.Commands.{Spells};
ghost use Rattle.command_words.specs.Found.{HasNumbers, HasTurns};
ghost use Rattle.command_words.specs.Program as program_spec;
ghost use Rattle.command_words.specs.Program.{program_app};

use crate::command::Command;
use crate::number::{count_of, number_of};
use crate::program::program;
use clap::error::ErrorKind;
use clap::{ArgMatches, Error};
use layout_tuner::MAX_USERS;
use std::alloc::{AllocError, Global};
use trace_base::limits::{MAX_GENERATED_PACKETS, MAX_GENERATED_WRITERS};
use tune_run::MAX_TURNS;

/// Why words give no command.
#[derive(Clone, Copy, Debug, PartialEq, Eq)]
pub enum WordsFault {
    /// Memory ran out.
    OutOfMemory,
    /// The words spell no command.
    Unknown,
}

/// The command that the words spell.
pub fn read_words(alloc: Global, words: &[String]) -> Result<Command, WordsFault>
    ensures spelled { IfOk result (λ command. Spells (map string_bytes words.now) command) }
    ensures unknown { result ≡ Err WordsFault.Unknown → (command : Command) → Spells (map string_bytes words.now) command → ⊥ }
{
    if !are_plain(words) {
        return Err(WordsFault::Unknown);
    }
    let program = match program(alloc) {
        Ok(program) => program,
        Err(AllocError) => return Err(WordsFault::OutOfMemory),
    };
    match program.try_get_matches_from(words) {
        Ok(matches) => match command_of(&matches, words) {
            Some(command) => Ok(command),
            None => Err(WordsFault::Unknown),
        },
        Err(error) => Err(fault_of(&error)),
    }
}

/// Whether no word is empty, begins with a hyphen, or is `help`: `clap` gives such words meanings of its own.
fn are_plain(words: &[String]) -> bool
    ensures { result ≡ list_all (λ word. program_spec.is_plain (string_bytes word)) words.now }
{
    words.iter().all(|word| is_plain(word.as_str()))
}

fn is_plain(word: &str) -> bool
    ensures { result ≡ program_spec.is_plain word.now }
{
    match word.as_bytes() {
        [] | [b'-', ..] => false,
        _ => word != "help",
    }
}

fn fault_of(error: &Error) -> WordsFault
    ensures { result ≡ WordsFault.Unknown → kind_of error.now ≡ ErrorKind.OutOfMemory → ⊥ }
{
    match error.kind() {
        ErrorKind::OutOfMemory => WordsFault::OutOfMemory,
        _ => WordsFault::Unknown,
    }
}

/// The command of the words, by what `clap` found in them.
fn command_of(matches: &ArgMatches<'_>, words: &[String]) -> Option<Command>
    requires found { subcommand_rows_of matches.now ≡ subcommand_of program_app (map string_bytes words.now) }
    requires plain { list_all (λ word. program_spec.is_plain (string_bytes word)) words.now ≡ true }
    ensures some { IfSome result (λ command. Spells (map string_bytes words.now) command) }
    ensures none { IfNone result ((command : Command) → Spells (map string_bytes words.now) command → ⊥) }
{
    let (name, values) = matches.subcommand()?;
    let (first, others) = words.split_first()?;
    if first.as_str() != name {
        return None;
    }
    match others.len() {
        0 => lone_command(name),
        2 => tuning_of(name, values),
        3 => generation_of(name, values),
        _ => None,
    }
}

/// The command `gen`, where it is the one that was named, with the numbers that were found behind it.
fn generation_of(name: &str, values: &ArgMatches<'_>) -> Option<Command>
    ensures some { IfSome result (λ command. (number writers packets : List ℕ) × HasNumbers values.now number writers packets
        × Spells (name.now ∷ number ∷ writers ∷ packets ∷ []) command) }
    ensures none { IfNone result ((command : Command) (number writers packets : List ℕ) → HasNumbers values.now number writers packets
        → Spells (name.now ∷ number ∷ writers ∷ packets ∷ []) command → ⊥) }
{
    if name != "gen" {
        return None;
    }
    let number = values.get_str("NUMBER")?;
    let writers = values.get_str("WRITERS")?;
    let packets = values.get_str("PACKETS")?;
    generation(number, writers, packets)
}

/// The command `tune`, where it is the one that was named, with the numbers that were found behind it.
fn tuning_of(name: &str, values: &ArgMatches<'_>) -> Option<Command>
    ensures some { IfSome result (λ command. (users turns : List ℕ) × HasTurns values.now users turns
        × Spells (name.now ∷ users ∷ turns ∷ []) command) }
    ensures none { IfNone result ((command : Command) (users turns : List ℕ) → HasTurns values.now users turns
        → Spells (name.now ∷ users ∷ turns ∷ []) command → ⊥) }
{
    if name != "tune" {
        return None;
    }
    let users = values.get_str("USERS")?;
    let turns = values.get_str("TURNS")?;
    tuning(users, turns)
}

/// A command without numbers.
fn lone_command(name: &str) -> Option<Command>
    ensures some { IfSome result (λ command. Spells (name.now ∷ []) command) }
    ensures none { IfNone result ((command : Command) → Spells (name.now ∷ []) command → ⊥) }
{
    match name {
        "replay" => Some(Command::Replay),
        "run" => Some(Command::Run),
        "read" => Some(Command::Read),
        "check" => Some(Command::Check),
        "stream" => Some(Command::Stream),
        "clone" => Some(Command::Clone),
        _ => None,
    }
}

/// The command `gen` with these numbers.
fn generation(number: &str, writers: &str, packets: &str) -> Option<Command>
    ensures some { IfSome result (λ command. Spells (codes "gen" ∷ number.now ∷ writers.now ∷ packets.now ∷ []) command) }
    ensures none { IfNone result ((command : Command) → Spells (codes "gen" ∷ number.now ∷ writers.now ∷ packets.now ∷ []) command → ⊥) }
{
    let number = number_of(number)?;
    let writers = count_of(writers, u32::from(MAX_GENERATED_WRITERS))?;
    let packets = count_of(packets, MAX_GENERATED_PACKETS)?;
    Some(Command::Gen {
        number,
        writers: writers as u8,
        packets,
    })
}

/// The command `tune` with these numbers.
fn tuning(users: &str, turns: &str) -> Option<Command>
    ensures some { IfSome result (λ command. Spells (codes "tune" ∷ users.now ∷ turns.now ∷ []) command) }
    ensures none { IfNone result ((command : Command) → Spells (codes "tune" ∷ users.now ∷ turns.now ∷ []) command → ⊥) }
{
    let users = count_of(users, u32::from(MAX_USERS))?;
    let turns = count_of(turns, MAX_TURNS)?;
    Some(Command::Tune {
        users: users as u8,
        turns,
    })
}
