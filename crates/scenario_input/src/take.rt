//! Reading a scenario as its text comes.
ghost use Rattle.std.specs.Prelude.{◌≡◌, ◌+◌, ◌<◌, ◌≤◌, [], length, IfOk, IfSome, OnOk, IsErrOf};
ghost use Rattle.byte_io.specs.Bytes.{Faulted, GivesAtMost};
ghost use Rattle.scenario_input.specs.Taken.{IsReadOf};

use byte_io::fill::{FillFault, fill_all};
use byte_io::traits::{Failed, Source};
use scenario_text::{Scenario, ScenarioFault, ScenarioReader};
use std::alloc::Global;
use trace_base::limits::MAX_INPUT;

// How many bytes are asked for at once.
const PIECE: usize = 65_536;

/// Reads the scenario that all bytes of a source say, which are at most `MAX_INPUT`; where it has more,
/// it is read up to the first byte too many. Behind a refused line the source is read on to its end,
/// since a fault of the source, or a byte too many, counts more than a faulty line.
#[tactic(auto, using(crate::proofs::Come::none_came))]
pub fn take_scenario<S: Source>(
    alloc: Global,
    input: &mut S,
) -> Result<Result<Scenario, ScenarioFault>, FillFault>
    requires { S.may_ask input.old }
    ensures all { IfOk result (λ said. IsReadOf (S.left input.old) said) }
    ensures end { OnOk result (IfSome (S.left input.new) (λ left. left ≡ [])) }
    ensures steady { OnOk result (S.faults input.new ≡ S.faults input.old) }

    // A read fault has its cause in the source, and comes before a byte too many.
    ensures read_fault { IsErrOf result FillFault.ReadFault → Faulted (S.faults input.old) (S.faults input.new) }
    ensures read_within { IsErrOf result FillFault.ReadFault → GivesAtMost MAX_INPUT (S.left input.old) (S.left input.new) }
    ensures other_fault { S.faults input.old < S.faults input.new → IsErrOf result FillFault.ReadFault }
    ensures later { S.faults input.old ≤ S.faults input.new }

    // At most one byte too many is taken.
    ensures too_long { IsErrOf result FillFault.TooLong → IfSome (S.left input.old) (λ left. MAX_INPUT < length left) }
    ensures taken { GivesAtMost (MAX_INPUT + 1) (S.left input.old) (S.left input.new) }
{
    let mut reader = ScenarioReader::new(alloc);
    let mut piece = [0u8; PIECE];
    let mut count = 0;
    'pieces: loop {
        let most = PIECE.min(MAX_INPUT - count + 1);
        let into = &mut piece[..most];
        let more = match input.read(into) {
            Ok(0) => return Ok(reader.finish()),
            Ok(more) => more,
            Err(Failed) => return Err(FillFault::ReadFault),
        };
        if more > MAX_INPUT - count {
            return Err(FillFault::TooLong);
        }
        count += more;
        match reader.take(&into[..more]) {
            Ok(()) => {}
            Err(fault) => match fill_all(alloc, input, MAX_INPUT - count) {
                Ok(_) => return Ok(Err(fault)),
                Err(other) => return Err(other),
            },
        }
    }
}
