//! A tree of fields that was read: its nodes one after another, each with its text.
ghost use Rattle.std.specs.Prelude.{◌≡◌, ◌≤◌, []};
ghost use Rattle.field_tree.specs.Judged.{nodes_len};
ghost use Rattle.field_tree.specs.Written.{shown_in};
ghost use Rattle.field_tree.specs.Encoded.{IsEncoded};

use crate::fields::Fields;
use std::alloc::Global;
use std::marker::Model;
use trace_base::limits::MAX_PACKET_LEN;

/// A well-nested list of nodes, each with the text of one repetition, which is empty for nodes
/// other than `Bytes`. It is made by `parse_fields` alone, or without nodes by `empty`.
#[derive(Drop)]
pub struct FieldTree {
    code: Vec<u8>,
    encoded: u32,
}

impl Model for FieldTree {
    ghost use Rattle.std.specs.Prelude.{List};
    ghost use Rattle.field_tree.specs.Nodes.{Shown};
    ghost use Rattle.field_tree.specs.Written.{shown_in};
    ghost use Rattle.field_tree.specs.Encoded.{IsEncoded};

    ghost Value = { List Shown };

    ghost view = { λ tree. shown_in tree.code.items };

    ghost invariant = { λ tree. IsEncoded tree.code.items tree.encoded };
}

impl FieldTree {
    /// The tree of the nodes that these bytes say, whose encoding has this length. It takes no more
    /// room than it needs.
    pub(crate) fn from_parts(code: Vec<u8>, encoded: u32) -> Self
        requires { IsEncoded code.items encoded }
        ensures { result ≡ shown_in code.items }
    {
        let mut code = code;
        code.shrink_to_fit();
        FieldTree { code, encoded }
    }

    /// The tree without nodes, which no text spells: that of a packet without fields.
    #[tactic(auto, using(crate::proofs::EncodedLemmas::nothing_encoded, crate::proofs::EncodedLemmas::nothing_shown))]
    pub fn empty(alloc: Global) -> Self
        ensures { result ≡ [] }
    {
        FieldTree::from_parts(Vec::new(alloc), 0)
    }

    /// Its nodes, one after another.
    pub fn fields(&self) -> Fields<'_>
        ensures { result ≡ self.now }
    {
        Fields::new(&self.code)
    }

    /// The length of the encoding: nested messages have their lengths in four bytes, all other
    /// numbers are written as short as they can be.
    pub fn enc_len(&self) -> u32
        ensures len { result ≡ nodes_len self.now }
        ensures most { result ≤ MAX_PACKET_LEN }
    {
        self.encoded
    }
}
