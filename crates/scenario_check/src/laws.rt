//! What holds of every scenario, as functions that do nothing and ensure it.
ghost use Rattle.scenario_check.specs.Emissions.{ScenariosAreUnmarked};

#[tactic(auto, using(crate::proofs::EmissionLemmas::scenario_is_unmarked))]
pub fn scenarios_are_unmarked()
    ensures { ScenariosAreUnmarked }
{}
