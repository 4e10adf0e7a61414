//! A law about clones: the contract of a function with nothing to do.
ghost use Rattle.buffer_clone.specs.Laws.{EveryCloneIsTold};

/// The records of a clone tell of the packets that the writers had emitted when it was filled,
/// whatever was read of the buffer before.
pub fn every_clone_is_told()
    ensures { EveryCloneIsTold }
{}
