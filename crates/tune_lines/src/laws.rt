//! What the definition of the lines gives: the contract of a function with nothing to do.
ghost use Rattle.tune_lines.specs.Worked.{WorkedLines};

/// The definition gives the worked lines.
pub fn worked_lines()
    ensures { WorkedLines }
{}
