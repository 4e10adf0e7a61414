//! Checking a trace against a scenario.
ghost use Rattle.std.specs.Prelude.{◌≡◌, IfOk, IfErr};
ghost use Rattle.scenario_text.specs.Scenario.{IsScenario, parts_of};
ghost use Rattle.scenario_text.specs.Emissions.{emitted_in};
ghost use Rattle.gap_check.specs.Verdicts.{IsFaultOf, IsVerdictOn};

use crate::collect::scenario_packets;
use gap_check::{CheckFault, Verdict, check_packets};
use scenario_text::Scenario;
use std::alloc::Global;

/// Whether the records of a trace tell of the packets that the writers of a scenario emit, and else the
/// first record up to which they don't; or the trace's first fault, which counts wherever it stands.
pub fn check_run(alloc: Global, scenario: &Scenario, trace: &[u8]) -> Result<Verdict, CheckFault>
    requires { IsScenario scenario.now }
    ensures verdict { IfOk result (IsVerdictOn (emitted_in (parts_of scenario.now)) trace.now) }
    ensures fault { IfErr result (IsFaultOf trace.now) }
{
    match scenario_packets(alloc, scenario) {
        Ok(emitted) => check_packets(alloc, &emitted, trace),
        Err(_) => Err(CheckFault::OutOfMemory),
    }
}
