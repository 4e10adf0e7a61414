//! Laws about the definitions: each is the contract of a function with nothing to do.
ghost use Rattle.workload_laws.specs.WorkloadLaws.{WorkloadsAreScenarios, WorkloadsAreShort, WorkloadsTakeTurns};

/// A workload is a scenario: one large buffer, one producer, writers that stall, and a packet of each
/// writer in each turn.
#[tactic(auto, using(crate::proofs::WorkloadLemmas::workload_is_scenario))]
pub fn workloads_are_scenarios()
    ensures { WorkloadsAreScenarios }
{}

/// In each turn each writer has one packet, and each writer has as many as are asked for.
pub fn workloads_take_turns()
    ensures { WorkloadsTakeTurns }
{}

/// A workload of at most 1,600,000 packets is no longer than an input may be.
#[tactic(auto, using(crate::proofs::LengthLemmas::workload_is_short))]
pub fn workloads_are_short()
    ensures { WorkloadsAreShort }
{}
