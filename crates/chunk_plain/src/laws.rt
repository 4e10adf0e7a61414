//! Laws on worlds, whatever the words of a table lie in. The functions do nothing: a caller's proof
//! has their clauses.
ghost use Rattle.chunk_plain.specs.Laws.{StepsKeep, KeptIsOwnership, FramesRead};

/// Each step of a writer or the service keeps a world owned.
pub fn steps_keep_ownership()
    ensures { StepsKeep }
{}

/// What the table of one thread keeps between two calls is ownership in its eight parts.
pub fn kept_is_ownership()
    ensures { KeptIsOwnership }
{}

/// What a writer publishes of its finished fragments is what `set_header` asks for.
pub fn frames_read()
    ensures { FramesRead }
{}
