//! What holds of every scenario, as functions that do nothing and ensure it.
ghost use Rattle.scenario_text.specs.Accepted.{ScenariosAreAccepted};
ghost use Rattle.scenario_text.specs.Lengths.{ScenariosAreShort};
ghost use Rattle.scenario_text.specs.Limits.{ScenariosAreSetUp};
ghost use Rattle.scenario_text.specs.Reach.{ScenariosAreInReach};
ghost use Rattle.scenario_text.specs.Spelled.{LinesSpellTrees, ScenariosSpellTrees};
ghost use Rattle.scenario_text.specs.Trees.{ScenariosGiveTrees};

#[tactic(auto, using(crate::proofs::LimitLemmas::scenario_is_set_up))]
pub fn scenarios_are_set_up()
    ensures { ScenariosAreSetUp }
{}

#[tactic(auto, using(crate::proofs::TreeLemmas::scenario_gives_trees))]
pub fn scenarios_give_trees()
    ensures { ScenariosGiveTrees }
{}

pub fn scenarios_are_accepted()
    ensures { ScenariosAreAccepted }
{}

pub fn scenarios_are_in_reach()
    ensures { ScenariosAreInReach }
{}

pub fn scenarios_are_short()
    ensures { ScenariosAreShort }
{}

/// A `p` line emits the encoding of the tree of its FIELDS.
pub fn lines_spell_trees()
    ensures { LinesSpellTrees }
{}

/// What the lines ask of a writer spells one tree for each packet that it emits, of which the packet
/// is the encoding.
pub fn scenarios_spell_trees()
    ensures { ScenariosSpellTrees }
{}
