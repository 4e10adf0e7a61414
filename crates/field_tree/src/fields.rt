//! The nodes of some fields, one after another.
ghost use Rattle.std.specs.Prelude.{◌≡◌, [], ◌∷◌, IfSome, IfNone};
ghost use Rattle.field_tree.specs.Nodes.{IsFit};
ghost use Rattle.field_tree.specs.Written.{shown_in, AreFitNodes};

use crate::node::FieldNode;
use crate::written::first_node;
use std::marker::Model;

/// The nodes that are still to come, each with its text. Contracts see the list of them.
#[derive(Drop)]
pub struct Fields<'c> {
    rest: &'c [u8],
}

impl<'c> Model for Fields<'c> {
    ghost use Rattle.std.specs.Prelude.{List};
    ghost use Rattle.field_tree.specs.Nodes.{Shown};
    ghost use Rattle.field_tree.specs.Written.{shown_in, AreFitNodes};

    ghost Value = { List Shown };

    ghost view = { λ fields. shown_in fields.rest.now };

    ghost invariant = { λ fields. AreFitNodes fields.rest.now };
}

impl<'c> Fields<'c> {
    /// The nodes that these bytes say.
    pub fn new(code: &'c [u8]) -> Fields<'c>
        requires { AreFitNodes code.now }
        ensures { result ≡ shown_in code.now }
    {
        Fields { rest: code }
    }

    /// No nodes, which no text spells: those of a packet without fields.
    #[tactic(auto, using(crate::proofs::EncodedLemmas::nothing_encoded, crate::proofs::EncodedLemmas::nothing_shown))]
    pub fn none() -> Fields<'c>
        ensures { result ≡ [] }
    {
        Fields { rest: &[] }
    }

    /// The bytes that say the nodes.
    pub fn code(&self) -> &'c [u8]
        ensures says { shown_in result.now ≡ self.now }
        ensures fit { AreFitNodes result.now }
    {
        self.rest
    }

    /// The same nodes, one after another once more.
    pub fn fields(&self) -> Fields<'c>
        ensures { result ≡ self.now }
    {
        Fields { rest: self.rest }
    }

    /// The next node with the text of one repetition, which is empty for nodes other than `Bytes`.
    #[inline(always)]
    pub fn next(&mut self) -> Option<(FieldNode, &'c [u8])>
        ensures first { IfSome result (λ found. self.old ≡ (found.0, found.1.now) ∷ self.new) }
        ensures fit { IfSome result (λ found. IsFit found.0) }
        ensures none { IfNone result ((self.old ≡ []) × (self.new ≡ [])) }
    {
        if self.rest.is_empty() {
            return None;
        }
        let first = first_node(self.rest);
        self.rest = first.behind;
        Some((first.node, first.text))
    }
}
