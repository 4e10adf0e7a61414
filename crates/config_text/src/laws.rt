//! What holds of every configuration, as functions that do nothing and ensure it.
ghost use Rattle.config_text.specs.Laws.{AnswersAreOne, WrittenIsRead};

/// A text spells one configuration at most, has one first fault at most, and never both.
#[tactic(auto, using(crate::proofs::OneLemmas::answers_are_one))]
pub fn answers_are_one()
    ensures { AnswersAreOne }
{}

/// What a configuration is written as spells it.
#[tactic(auto, using(crate::proofs::WrittenLemmas::written_is_read))]
pub fn written_is_read()
    ensures { WrittenIsRead }
{}
