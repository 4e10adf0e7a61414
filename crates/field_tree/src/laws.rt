//! Laws of the grammar and of the nodes of a tree, each a function that does nothing and ensures it.
//! Together they say that the definitions settle what is answered to each text.
ghost use Rattle.field_tree.specs.Laws.{OneTree, OneFault, FaultsHaveNoTree, FieldsBeginBeforeFaults, OutcomesAreRight, NoOtherIsRight, NodesTellTheTree, NodesAreAsLong};

#[tactic(auto, using(crate::proofs::AnswerLemmas::one_tree))]
pub fn one_tree_of_a_text()
    ensures { OneTree }
{}

#[tactic(auto, using(crate::proofs::Faults::one_fault))]
pub fn one_fault_of_a_text()
    ensures { OneFault }
{}

#[tactic(auto, using(crate::proofs::Faults::fault_no_text))]
pub fn faults_have_no_tree()
    ensures { FaultsHaveNoTree }
{}

#[tactic(auto, using(crate::proofs::Faults::fault_front))]
pub fn fields_begin_before_faults()
    ensures { FieldsBeginBeforeFaults }
{}

#[tactic(auto, using(crate::proofs::AnswerLemmas::outcome_means))]
pub fn outcomes_are_right()
    ensures { OutcomesAreRight }
{}

#[tactic(auto, using(crate::proofs::AnswerLemmas::only_outcome))]
pub fn no_other_is_right()
    ensures { NoOtherIsRight }
{}

#[tactic(auto, using(crate::proofs::NodeLaws::one_tree_of_nodes))]
pub fn nodes_tell_the_tree()
    ensures { NodesTellTheTree }
{}

#[tactic(auto, using(crate::proofs::NodeLaws::nodes_as_long))]
pub fn nodes_are_as_long()
    ensures { NodesAreAsLong }
{}
