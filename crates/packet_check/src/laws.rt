//! Laws about the definitions: each is the contract of a function with nothing to do.
ghost use Rattle.packet_check.specs.Laws.{AcceptedPass, AnswersAreOfTheGrammar, PacketsHaveOneAnswer, PiecesAreJoined};
ghost use Rattle.packet_check.specs.Writers.{WritersPacketsPass};

/// What a walk over a packet's bytes says is so by the grammar of fields.
#[tactic(auto, using(crate::proofs::AnswerLemmas::answers_are_of_the_grammar))]
pub fn answers_are_of_the_grammar()
    ensures { AnswersAreOfTheGrammar }
{}

/// A packet has one answer, and the walk says it.
#[tactic(auto, using(crate::proofs::AnswerLemmas::packets_have_one_answer))]
pub fn packets_have_one_answer()
    ensures { PacketsHaveOneAnswer }
{}

/// The walk over two pieces is that over the pieces joined, so a check's answer hangs on the joined
/// bytes alone.
#[tactic(auto, using(crate::proofs::AnswerLemmas::pieces_are_joined))]
pub fn pieces_are_joined()
    ensures { PiecesAreJoined }
{}

/// The packets that are accepted are those that pass by the grammar.
#[tactic(auto, using(crate::proofs::AnswerLemmas::accepted_pass))]
pub fn accepted_pass()
    ensures { AcceptedPass }
{}

/// What writers may write is accepted.
#[tactic(auto, using(crate::proofs::PassLemmas::writers_packets_pass))]
pub fn writers_packets_pass()
    ensures { WritersPacketsPass }
{}
