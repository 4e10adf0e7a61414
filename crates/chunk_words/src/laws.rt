//! Laws on the rule of the table. The functions do nothing: a caller's proof has their clauses.
ghost use Rattle.chunk_words.specs.Laws.{SharedIsOwnership, ToldIsTaken};

/// What the table keeps between any two steps is ownership in its eight parts.
pub fn shared_is_ownership()
    ensures { SharedIsOwnership }
{}

/// Where looks since a tale pass over each chunk that may be the next one, all that was told is taken.
pub fn told_is_taken()
    ensures { ToldIsTaken }
{}
