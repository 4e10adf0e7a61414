//! A law on the rule of the table. The function does nothing: a caller's proof has its clause.
ghost use Rattle.layout_tuner.specs.Laws.{TunedIsOwnership};

/// What the table keeps between any two steps, in the words of page words and of what seats know.
pub fn tuned_is_ownership()
    ensures { TunedIsOwnership }
{}
