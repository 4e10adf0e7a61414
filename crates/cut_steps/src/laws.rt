//! Laws on a writer's states. The function does nothing: a caller's proof has its clause.
ghost use Rattle.cut_steps.specs.Laws.{StatesAreCuts};

/// From each state of a writer, with a chunk or without one, its pages are a cut of its packets. One
/// that stalled leaves a last page that runs on exactly where its newest packet goes on.
pub fn states_are_cuts()
    ensures { StatesAreCuts }
{}
