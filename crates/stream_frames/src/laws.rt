//! What holds of every frame and of every stream, as functions that do nothing and ensure it.
ghost use Rattle.stream_frames.specs.Laws.{FramesAreSpelled, PiecesAreOneStream};

/// Bytes are read as a frame exactly where they spell it.
#[tactic(auto, using(crate::proofs::SpelledLemmas::frames_are_spelled))]
pub fn frames_are_spelled()
    ensures { FramesAreSpelled }
{}

/// Wherever a stream is cut in two, what comes of it is the same.
#[tactic(auto, using(crate::proofs::PieceLemmas::pieces_are_one_stream))]
pub fn pieces_are_one_stream()
    ensures { PiecesAreOneStream }
{}
