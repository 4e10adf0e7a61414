//! What is found of a list of nodes while it grows: its first reserved field, its depth and its length.
ghost use Rattle.std.specs.Prelude.{◌≡◌, ℕ, ◌+◌, ◌*◌, ◌<◌, ◌≤◌, length, max, Option, None};
ghost use Rattle.std.specs.Option.{option_or};
ghost use Rattle.field_tree.specs.Judged as judged;
ghost use Rattle.field_tree.specs.Judged.{node_len_at, reserved_at};
ghost use Rattle.field_tree.specs.Surveys.{IsCounted};
ghost use Rattle.wire_varint.specs.Varint.{varint, tag};

use crate::node::FieldNode;
use trace_base::reserved::is_reserved;
use wire_varint::varint_len;

/// The length of what stands in front of a field.
#[tactic(auto, unfolding(wire_varint::specs::Varint::tag))]
fn tag_len(field: u32, wire: u8) -> u64
    requires { wire < 8 }
    ensures len { result ≡ length (tag field wire) }
    ensures few { result ≤ 10 }
{
    u64::from(varint_len(8 * u64::from(field) + u64::from(wire)))
}

/// The length of a number's encoding, where its value has so many bytes.
#[tactic(auto, unfolding(crate::specs::Judged::node_len_at, trace_model::specs::Encoding::number_field), using(crate::proofs::JudgedLemmas::length_number_field))]
#[inline(always)]
pub(crate) fn number_len(field: u32, value_len: usize) -> u64
    requires { value_len ≤ 10 }
    ensures { (value len : ℕ) → value_len ≡ length (varint value) → IsCounted result (node_len_at (FieldNode.Number field value) len) }
{
    tag_len(field, 0) + value_len as u64
}

/// The length of a text's encoding, by the length of the text.
#[inline(always)]
pub(crate) fn text_len(field: u32, times: u32, len: usize) -> u64
    ensures { IsCounted result (node_len_at (FieldNode.Bytes field times) len) }
{
    let whole = u64::from(times).saturating_mul(len as u64);
    (tag_len(field, 2) + u64::from(varint_len(whole))).saturating_add(whole)
}

/// The length of what stands in front of a nested message.
#[tactic(auto, unfolding(crate::specs::Judged::node_len_at))]
#[inline(always)]
pub(crate) fn begin_len(field: u32) -> u64
    ensures { (len : ℕ) → IsCounted result (node_len_at (FieldNode.Begin field) len) }
{
    tag_len(field, 2) + 4
}

/// A node's field, where it is the service's own.
#[tactic(auto, unfolding(crate::specs::Judged::reserved_at))]
#[inline(always)]
fn reserved_field(node: FieldNode) -> Option<u32>
    ensures { (later : Option ℕ) → reserved_at 0 node later ≡ option_or result later }
{
    let field = match node {
        FieldNode::Number { field, value: _ } => field,
        FieldNode::Bytes { field, times: _ } => field,
        FieldNode::Begin { field } => field,
        FieldNode::End => return None,
    };
    if is_reserved(field) {
        Some(field)
    } else {
        None
    }
}

/// Keeps a node's field, where it is the first of the service's own at the top level.
#[tactic(auto, unfolding(crate::specs::Judged::reserved_at))]
#[inline(always)]
fn note_reserved(found: &mut Option<u32>, now: usize, node: FieldNode)
    ensures { found.new ≡ option_or found.old (reserved_at now node None) }
{
    if now == 0 && found.is_none() {
        if let Some(field) = reserved_field(node) {
            *found = Some(field);
        }
    }
}

/// Keeps how many messages are open behind a node, where there were never as many.
#[tactic(auto, unfolding(crate::specs::Judged::level))]
#[inline(always)]
fn note_level(deepest: &mut usize, now: usize, node: FieldNode)
    requires within { now ≤ deepest.old }
    requires more { now < usize.MAX }
    ensures { deepest.new ≡ max deepest.old (judged.level now node) }
{
    if let FieldNode::Begin { field: _ } = node {
        *deepest = (*deepest).max(now + 1);
    }
}

/// What is found of nodes.
#[derive(Clone, Copy)]
pub(crate) struct Survey {
    /// The first field at the top level that is the service's own.
    pub reserved: Option<u32>,
    /// The most messages that were open at once.
    pub deepest: usize,
    /// The length of the encoding, or the greatest number where that is more.
    pub len: u64,
}

impl Survey {
    ghost use Rattle.std.specs.Prelude.{◌≡◌, ℕ, ◌<◌, ◌≤◌, List, [], ◌∷◌, ◌++◌};
    ghost use Rattle.field_tree.specs.Judged.{node_len};
    ghost use Rattle.field_tree.specs.Nodes.{Shown};
    ghost use Rattle.field_tree.specs.Surveys.{IsCounted, IsSurvey, level_behind};

    /// Of no nodes.
    pub fn new() -> Survey
        ensures { IsSurvey result [] }
    {
        Survey {
            reserved: None,
            deepest: 0,
            len: 0,
        }
    }

    /// With one node more, where so many messages are open and its encoding has this length.
    #[inline(always)]
    pub fn add_node(&mut self, now: usize, node: FieldNode, len: u64)
        requires within { now ≤ self.old.deepest }
        requires more { now < usize.MAX }
        ensures { (nodes : List Shown) (text : List ℕ) → IsCounted len (node_len (node, text)) → level_behind 0 nodes ≡ now
            → IsSurvey self.old nodes → IsSurvey self.new (nodes ++ (node, text) ∷ []) }
    {
        note_reserved(&mut self.reserved, now, node);
        note_level(&mut self.deepest, now, node);
        self.len = self.len.saturating_add(len);
    }
}
