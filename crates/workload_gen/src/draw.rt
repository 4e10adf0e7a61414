//! The numbers that a workload draws.
ghost use Rattle.std.specs.Prelude.{◌≡◌, ◌<◌, ◌/◌, ◌^◌};
ghost use Rattle.workload_gen.specs.Workload.{next_state, drawn_of};

const FACTOR: u64 = 6_364_136_223_846_793_005;

const SUMMAND: u64 = 1_442_695_040_888_963_407;

/// The state of the generator behind this one.
#[tactic(auto, unfolding(crate::specs::Workload::next_state))]
pub fn next_state(state: u64) -> u64
    ensures { result ≡ next_state state }
{
    state.wrapping_mul(FACTOR).wrapping_add(SUMMAND)
}

/// What a state draws: 31 bits.
pub fn drawn_of(state: u64) -> u32
    ensures is { result ≡ drawn_of state }
    ensures small { result < 2 ^ 31 }
{
    (state >> 33) as u32
}
