//! Laws of varints, each a function that does nothing and ensures it: together with the clauses of
//! the calls they say that a number is read as it was written, whatever follows.
ghost use Rattle.wire_varint.specs.Laws.{OneVarintInFront, NumbersAreVarints, TagsAreVarints, RedundantsAreVarints, WrittenIsShortest, LengthsAreBounded};

#[tactic(auto, using(crate::proofs::Varints::one_varint))]
pub fn one_varint_in_front()
    ensures { OneVarintInFront }
{}

#[tactic(auto, using(crate::proofs::Varints::varint_is_varint))]
pub fn numbers_are_varints()
    ensures { NumbersAreVarints }
{}

#[tactic(auto, using(crate::proofs::Varints::tag_is_varint))]
pub fn tags_are_varints()
    ensures { TagsAreVarints }
{}

#[tactic(auto, using(crate::proofs::Varints::redundant_is_varint))]
pub fn redundants_are_varints()
    ensures { RedundantsAreVarints }
{}

#[tactic(auto, using(crate::proofs::Varints::varint_shortest))]
pub fn written_is_shortest()
    ensures { WrittenIsShortest }
{}

#[tactic(auto, using(crate::proofs::Varints::varint_lengths_bounded))]
pub fn lengths_are_bounded()
    ensures { LengthsAreBounded }
{}
