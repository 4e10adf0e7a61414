//! One node more. What mostly comes is added by calls that make no others, since there is room for it and
//! its numbers are short. All else is left to calls of their own.
ghost use Rattle.std.specs.Prelude.{◌≡◌, ◌+◌, ◌<◌, ◌≤◌, [], ◌∷◌, vec_len, vec_capacity, OnOk};
ghost use Rattle.std.specs.Bool.{OnTrue};
ghost use Rattle.field_tree.specs.Views.{text_read, AddsNode, Keeps};

use crate::node::FieldNode;
use crate::parser::Parser;
use crate::survey::{begin_len, number_len, text_len};
use crate::written::{push_end, push_text, put_begin, put_byte_text, put_number_node};
use std::alloc::AllocError;

/// Room for a node's numbers, and for a text of one byte.
pub(crate) const NUMBERS_ROOM: usize = 32;

/// Smaller fields are written in one byte or two.
const FEW_FIELDS: u32 = 4096;

/// Smaller values are written in at most four bytes.
const SHORT_VALUE: u64 = 268_435_456;

/// A text mostly stands less often, and that is written in one byte or two.
const FEW_TIMES: u32 = 16_384;

impl Parser {
    #[inline(always)]
    fn has_room(&self) -> bool
        ensures { OnTrue result (vec_len self.now.code + NUMBERS_ROOM ≤ vec_capacity self.now.code) }
    {
        self.code.capacity() - self.code.len() >= NUMBERS_ROOM
    }

    #[tactic(auto, unfolding(crate::specs::Judged::level), using(crate::proofs::ParserLemmas::node_shown))]
    #[inline(always)]
    fn add_number(&mut self, field: u32, value: u64)
        requires kept { Keeps self.old }
        requires between { text_read self.old ≡ [] }
        requires depth { self.old.depth < usize.MAX }
        requires room { vec_len self.old.code + NUMBERS_ROOM ≤ vec_capacity self.old.code }
        ensures pushed { AddsNode (FieldNode.Number field value) [] self.old self.new }
        ensures kept { Keeps self.new }
    {
        let len = put_number_node(&mut self.code, field, value);
        let node = FieldNode::Number { field, value };
        self.found
            .add_node(self.depth, node, number_len(field, len));
    }

    #[inline(never)]
    fn push_any_number(&mut self, field: u32, value: u64) -> Result<(), AllocError>
        requires kept { Keeps self.old }
        requires between { text_read self.old ≡ [] }
        requires depth { self.old.depth < usize.MAX }
        ensures pushed { OnOk result (AddsNode (FieldNode.Number field value) [] self.old self.new) }
        ensures kept { OnOk result (Keeps self.new) }
    {
        self.code.reserve(NUMBERS_ROOM)?;
        self.add_number(field, value);
        Ok(())
    }

    /// Adds a number.
    #[inline(never)]
    pub fn push_number(&mut self, field: u32, value: u64) -> Result<(), AllocError>
        requires kept { Keeps self.old }
        requires between { text_read self.old ≡ [] }
        requires depth { self.old.depth < usize.MAX }
        ensures pushed { OnOk result (AddsNode (FieldNode.Number field value) [] self.old self.new) }
        ensures kept { OnOk result (Keeps self.new) }
    {
        if !self.has_room() || field >= FEW_FIELDS || value >= SHORT_VALUE {
            return self.push_any_number(field, value);
        }
        self.add_number(field, value);
        Ok(())
    }

    #[tactic(auto, unfolding(crate::specs::Judged::level), using(crate::proofs::ParserLemmas::node_shown))]
    #[inline(never)]
    fn push_any_text(&mut self, field: u32, times: u32, text: &[u8]) -> Result<(), AllocError>
        requires kept { Keeps self.old }
        requires between { text_read self.old ≡ [] }
        requires depth { self.old.depth < usize.MAX }
        ensures pushed { OnOk result (AddsNode (FieldNode.Bytes field times) text.now self.old self.new) }
        ensures kept { OnOk result (Keeps self.new) }
    {
        push_text(&mut self.code, field, times, text)?;
        let node = FieldNode::Bytes { field, times };
        self.found
            .add_node(self.depth, node, text_len(field, times, text.len()));
        Ok(())
    }

    #[tactic(auto, unfolding(crate::specs::Judged::level), using(crate::proofs::ParserLemmas::node_shown))]
    #[inline(always)]
    fn add_byte_text(&mut self, field: u32, times: u32, byte: u8)
        requires kept { Keeps self.old }
        requires between { text_read self.old ≡ [] }
        requires depth { self.old.depth < usize.MAX }
        requires room { vec_len self.old.code + NUMBERS_ROOM ≤ vec_capacity self.old.code }
        ensures pushed { AddsNode (FieldNode.Bytes field times) (byte ∷ []) self.old self.new }
        ensures kept { Keeps self.new }
    {
        put_byte_text(&mut self.code, field, times, byte);
        let node = FieldNode::Bytes { field, times };
        self.found
            .add_node(self.depth, node, text_len(field, times, 1));
    }

    /// Adds a text that was read whole. One that stands many times over mostly has one byte.
    #[inline(never)]
    pub fn push_text(&mut self, field: u32, times: u32, text: &[u8]) -> Result<(), AllocError>
        requires kept { Keeps self.old }
        requires between { text_read self.old ≡ [] }
        requires depth { self.old.depth < usize.MAX }
        ensures pushed { OnOk result (AddsNode (FieldNode.Bytes field times) text.now self.old self.new) }
        ensures kept { OnOk result (Keeps self.new) }
    {
        match text {
            [byte] if self.has_room() && field < FEW_FIELDS && times < FEW_TIMES => {
                self.add_byte_text(field, times, *byte);
                Ok(())
            }
            _ => self.push_any_text(field, times, text),
        }
    }

    /// Adds the text that was being read.
    #[tactic(auto, unfolding(crate::specs::Judged::level), using(crate::proofs::ParserLemmas::node_shown))]
    #[inline(always)]
    fn push_kept(&mut self, field: u32, times: u32) -> Result<(), AllocError>
        requires kept { Keeps self.old }
        requires depth { self.old.depth < usize.MAX }
        ensures pushed { OnOk result (AddsNode (FieldNode.Bytes field times) (text_read self.old) self.old self.new) }
        ensures kept { OnOk result (Keeps self.new) }
    {
        push_text(&mut self.code, field, times, &self.text)?;
        let node = FieldNode::Bytes { field, times };
        self.found
            .add_node(self.depth, node, text_len(field, times, self.text.len()));
        self.text.clear();
        Ok(())
    }

    /// Adds it once, as most texts stand: what follows from how often it stands is known here.
    #[inline(never)]
    pub fn push_once(&mut self, field: u32) -> Result<(), AllocError>
        requires kept { Keeps self.old }
        requires depth { self.old.depth < usize.MAX }
        ensures pushed { OnOk result (AddsNode (FieldNode.Bytes field 1) (text_read self.old) self.old self.new) }
        ensures kept { OnOk result (Keeps self.new) }
    {
        self.push_kept(field, 1)
    }

    /// Adds it so many times over.
    #[inline(never)]
    pub fn push_times(&mut self, field: u32, times: u32) -> Result<(), AllocError>
        requires kept { Keeps self.old }
        requires depth { self.old.depth < usize.MAX }
        ensures pushed { OnOk result (AddsNode (FieldNode.Bytes field times) (text_read self.old) self.old self.new) }
        ensures kept { OnOk result (Keeps self.new) }
    {
        self.push_kept(field, times)
    }

    #[tactic(auto, unfolding(crate::specs::Judged::level), using(crate::proofs::ParserLemmas::node_shown))]
    #[inline(always)]
    fn add_begin(&mut self, field: u32)
        requires kept { Keeps self.old }
        requires between { text_read self.old ≡ [] }
        requires depth { self.old.depth < usize.MAX }
        requires room { vec_len self.old.code + NUMBERS_ROOM ≤ vec_capacity self.old.code }
        ensures pushed { AddsNode (FieldNode.Begin field) [] self.old self.new }
        ensures kept { Keeps self.new }
    {
        put_begin(&mut self.code, field);
        let node = FieldNode::Begin { field };
        self.found.add_node(self.depth, node, begin_len(field));
        self.depth += 1;
    }

    #[inline(never)]
    fn push_any_begin(&mut self, field: u32) -> Result<(), AllocError>
        requires kept { Keeps self.old }
        requires between { text_read self.old ≡ [] }
        requires depth { self.old.depth < usize.MAX }
        ensures pushed { OnOk result (AddsNode (FieldNode.Begin field) [] self.old self.new) }
        ensures kept { OnOk result (Keeps self.new) }
    {
        self.code.reserve(NUMBERS_ROOM)?;
        self.add_begin(field);
        Ok(())
    }

    /// Begins a nested message.
    #[inline(never)]
    pub fn push_begin(&mut self, field: u32) -> Result<(), AllocError>
        requires kept { Keeps self.old }
        requires between { text_read self.old ≡ [] }
        requires depth { self.old.depth < usize.MAX }
        ensures pushed { OnOk result (AddsNode (FieldNode.Begin field) [] self.old self.new) }
        ensures kept { OnOk result (Keeps self.new) }
    {
        if !self.has_room() || field >= FEW_FIELDS {
            return self.push_any_begin(field);
        }
        self.add_begin(field);
        Ok(())
    }

    /// Ends one.
    #[tactic(auto, unfolding(crate::specs::Judged::level), using(crate::proofs::ParserLemmas::node_shown))]
    #[inline(never)]
    pub fn push_end(&mut self) -> Result<(), AllocError>
        requires kept { Keeps self.old }
        requires between { text_read self.old ≡ [] }
        requires depth { self.old.depth < usize.MAX }
        ensures pushed { OnOk result (AddsNode FieldNode.End [] self.old self.new) }
        ensures kept { OnOk result (Keeps self.new) }
    {
        push_end(&mut self.code)?;
        self.found.add_node(self.depth, FieldNode::End, 0);
        self.depth = self.depth.saturating_sub(1);
        Ok(())
    }
}
