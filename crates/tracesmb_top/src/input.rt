//! What a command takes of the input.
ghost use Rattle.std.specs.Prelude.{◌≡◌, ◌+◌, ◌<◌, ◌≤◌, [], length, IfOk, IfSome, OnOk, OnErr, IsErrOf};
ghost use Rattle.byte_io.specs.Bytes.{Faulted, GivesAtMost};
ghost use Rattle.tracesmb_top.specs.Words.{ReadsInput};
ghost use Rattle.tracesmb_top.specs.Given.{IsTaken, Suits};

use byte_io::fill::{FillFault, fill_all};
use byte_io::traits::Source;
use command_words::Command;
use scenario_input::take_scenario;
use scenario_text::{Scenario, ScenarioFault};
use std::alloc::Global;
use trace_base::limits::MAX_INPUT;

/// What a command is given of the input.
#[derive(Drop)]
pub enum Given {
    /// Its bytes, for a command that reads no scenario alone.
    Bytes(Vec<u8>),
    /// The scenario that it says, or its first fault.
    Scenario(Result<Scenario, ScenarioFault>),
}

/// Reads the whole input, up to the most bytes that it may have, for a command that reads it.
pub fn take_input<S: Source>(
    alloc: Global,
    command: Command,
    input: &mut S,
) -> Result<Given, FillFault>
    requires { S.may_ask input.old }
    ensures given { IfOk result (λ given. IsTaken command (S.left input.old) given) }
    ensures suits { IfOk result (λ given. Suits command given) }
    ensures end { OnOk result (ReadsInput command → IfSome (S.left input.new) (λ left. left ≡ [])) }
    ensures steady { OnOk result (S.faults input.new ≡ S.faults input.old) }

    // A command that reads nothing leaves the input alone.
    ensures unread { (ReadsInput command → ⊥) → input.new ≡ input.old }
    ensures reads { OnErr result (ReadsInput command) }

    ensures read_fault { IsErrOf result FillFault.ReadFault → Faulted (S.faults input.old) (S.faults input.new) }
    ensures read_within { IsErrOf result FillFault.ReadFault → GivesAtMost MAX_INPUT (S.left input.old) (S.left input.new) }
    ensures other_fault { S.faults input.old < S.faults input.new → IsErrOf result FillFault.ReadFault }
    ensures later { S.faults input.old ≤ S.faults input.new }
    ensures too_long { IsErrOf result FillFault.TooLong → IfSome (S.left input.old) (λ left. MAX_INPUT < length left) }
    ensures taken { GivesAtMost (MAX_INPUT + 1) (S.left input.old) (S.left input.new) }
{
    match command {
        Command::Replay | Command::Run | Command::Clone => match take_scenario(alloc, input) {
            Ok(said) => Ok(Given::Scenario(said)),
            Err(fault) => Err(fault),
        },
        Command::Read | Command::Check | Command::Stream => match fill_all(
            alloc, input, MAX_INPUT,
        ) {
            Ok(bytes) => Ok(Given::Bytes(bytes)),
            Err(fault) => Err(fault),
        },
        Command::Gen {
            number: _,
            writers: _,
            packets: _,
        } => Ok(Given::Bytes(Vec::new(alloc))),
        Command::Tune { users: _, turns: _ } => Ok(Given::Bytes(Vec::new(alloc))),
    }
}
