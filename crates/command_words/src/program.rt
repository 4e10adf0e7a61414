//! The program's commands, as `clap` is told of them.
ghost use Rattle.std.specs.Prelude.{◌≡◌, false, IfOk};
ghost use Rattle.clap.specs.Words.{app_of, rule_of};
ghost use Rattle.clap.specs.declared.Command.TheViews.{out-Command as fields_of};
ghost use Rattle.command_words.specs.Program.{program_app, bare_program, gen_app, tune_app, plain_app, number_rule};

use clap::{Arg, Command};
use std::alloc::{AllocError, Global};

/// A number that has to be there.
fn number<'a>(alloc: Global, name: &'a str) -> Arg<'a>
    ensures rule { rule_of result ≡ number_rule name.entry.now }
    ensures local { result.global ≡ false }
{
    Arg::new(alloc, name).required(true)
}

fn plain<'a>(alloc: Global, name: &'a str) -> Command<'a>
    ensures app { app_of result ≡ plain_app name.entry.now }
    ensures local { (fields_of result).has_globals ≡ false }
{
    Command::new(alloc, name).disable_help_flag(true)
}

fn generator<'a>(alloc: Global) -> Result<Command<'a>, AllocError>
    ensures app { IfOk result (λ command. app_of command ≡ gen_app) }
    ensures local { IfOk result (λ command. (fields_of command).has_globals ≡ false) }
{
    plain(alloc, "gen")
        .arg(number(alloc, "NUMBER"))?
        .arg(number(alloc, "WRITERS"))?
        .arg(number(alloc, "PACKETS"))
}

fn tuner<'a>(alloc: Global) -> Result<Command<'a>, AllocError>
    ensures app { IfOk result (λ command. app_of command ≡ tune_app) }
    ensures local { IfOk result (λ command. (fields_of command).has_globals ≡ false) }
{
    plain(alloc, "tune")
        .arg(number(alloc, "USERS"))?
        .arg(number(alloc, "TURNS"))
}

/// The program, whose words are those behind its name.
fn bare<'a>(alloc: Global) -> Command<'a>
    ensures { app_of result ≡ bare_program }
{
    Command::new(alloc, "tracesmb")
        .no_binary_name(true)
        .disable_help_flag(true)
        .disable_help_subcommand(true)
        .subcommand_required(true)
}

/// The program with its commands. `gen` has three numbers, `tune` has two, and the others have nothing behind their names.
pub fn program<'a>(alloc: Global) -> Result<Command<'a>, AllocError>
    ensures { IfOk result (λ command. app_of command ≡ program_app) }
{
    let generator = generator(alloc)?;
    let tuner = tuner(alloc)?;
    bare(alloc)
        .subcommand(plain(alloc, "replay"))?
        .subcommand(plain(alloc, "run"))?
        .subcommand(plain(alloc, "read"))?
        .subcommand(plain(alloc, "check"))?
        .subcommand(generator)?
        .subcommand(plain(alloc, "stream"))?
        .subcommand(plain(alloc, "clone"))?
        .subcommand(tuner)
}
