//! Nodes with their texts as bytes, one behind another: a node's field and kind in one number, and then
//! its value, or how often its text stands, the text's length and the text. So a node mostly takes few
//! bytes, and many nodes take memory once.
ghost use Rattle.std.specs.Prelude.{◌≡◌, ℕ, ◌+◌, ◌*◌, ◌^◌, ◌<◌, ◌≤◌, List, [], ◌∷◌, ◌++◌, length, vec_len, vec_capacity, OnOk};
ghost use Rattle.wire_varint.specs.Varint.{varint};
ghost use Rattle.field_tree.specs.Nodes.{Shown};
ghost use Rattle.field_tree.specs.Written.{written_node, IsWritable, IsFirst};

use crate::node::FieldNode;
use std::alloc::AllocError;
use wire_varint::{get_varint, put_varint};

/// The most bytes of one number.
const NUMBER_LEN: usize = 10;

/// Appends a number of more than two bytes, for which there is room.
#[tactic(auto, unfolding(wire_varint::specs::Varint::varint, wire_varint::specs::Varint::groups))]
#[inline(always)]
fn put_long(code: &mut Vec<u8>, number: u64)
    requires long { 16384 ≤ number }
    requires room { vec_len code.old + NUMBER_LEN ≤ vec_capacity code.old }
    ensures put { code.new.items ≡ code.old.items ++ varint number }
    ensures few { vec_len code.new ≤ vec_len code.old + NUMBER_LEN }
    ensures room { vec_capacity code.old ≤ vec_capacity code.new }
{
    if number < 2_097_152 {
        code.push_reserved(128 + (number % 128) as u8);
        code.push_reserved(128 + (number / 128 % 128) as u8);
        code.push_reserved((number / 128 / 128) as u8);
        return;
    }
    if number < 268_435_456 {
        code.push_reserved(128 + (number % 128) as u8);
        code.push_reserved(128 + (number / 128 % 128) as u8);
        code.push_reserved(128 + (number / 128 / 128 % 128) as u8);
        code.push_reserved((number / 128 / 128 / 128) as u8);
        return;
    }
    let mut bytes = [0; NUMBER_LEN];
    let len = put_varint(number, &mut bytes);
    let _ = code.extend_from_slice(&bytes[..len]);
}

/// Appends a number, for which there is room. Most have one byte, or two.
#[tactic(auto, unfolding(wire_varint::specs::Varint::varint, wire_varint::specs::Varint::groups))]
#[inline(always)]
fn put_number(code: &mut Vec<u8>, number: u64)
    requires room { vec_len code.old + NUMBER_LEN ≤ vec_capacity code.old }
    ensures put { code.new.items ≡ code.old.items ++ varint number }
    ensures few { vec_len code.new ≤ vec_len code.old + NUMBER_LEN }
    ensures room { vec_capacity code.old ≤ vec_capacity code.new }
{
    if number < 128 {
        code.push_reserved(number as u8);
        return;
    }
    if number < 16_384 {
        code.push_reserved(128 + (number % 128) as u8);
        code.push_reserved((number / 128) as u8);
        return;
    }
    put_long(code, number);
}

/// Appends a number's node, for which there is room, and answers how many bytes its value has.
#[tactic(auto, unfolding(crate::specs::Written::written_node))]
#[inline(always)]
pub(crate) fn put_number_node(code: &mut Vec<u8>, field: u32, value: u64) -> usize
    requires room { vec_len code.old + 2 * NUMBER_LEN ≤ vec_capacity code.old }
    ensures put { code.new.items ≡ code.old.items ++ written_node (FieldNode.Number field value, []) }
    ensures len { result ≡ length (varint value) }
    ensures few { result ≤ NUMBER_LEN }
{
    put_number(code, 4 * u64::from(field));
    let before = code.len();
    put_number(code, value);
    code.len() - before
}

/// Appends the node of a text of one byte that stands so many times over, for which there is room.
#[tactic(auto, unfolding(crate::specs::Written::written_node, wire_varint::specs::Varint::varint, wire_varint::specs::Varint::groups))]
#[inline(always)]
pub(crate) fn put_byte_text(code: &mut Vec<u8>, field: u32, times: u32, byte: u8)
    requires room { vec_len code.old + 2 * NUMBER_LEN + 2 ≤ vec_capacity code.old }
    ensures { code.new.items ≡ code.old.items ++ written_node (FieldNode.Bytes field times, byte ∷ []) }
{
    put_number(code, 4 * u64::from(field) + 1);
    put_number(code, u64::from(times));
    code.push_reserved(1);
    code.push_reserved(byte);
}

/// Appends the node of a text that stands so many times over.
#[tactic(auto, unfolding(crate::specs::Written::written_node))]
#[inline(always)]
pub(crate) fn push_text(
    code: &mut Vec<u8>,
    field: u32,
    times: u32,
    text: &[u8],
) -> Result<(), AllocError>
    ensures { OnOk result (code.new.items ≡ code.old.items ++ written_node (FieldNode.Bytes field times, text.now)) }
{
    code.reserve(3 * NUMBER_LEN)?;
    put_number(code, 4 * u64::from(field) + 1); // its field and kind
    put_number(code, u64::from(times));
    put_number(code, text.len() as u64);
    code.extend_from_slice(text)
}

/// Appends the node with which a nested message begins, for which there is room.
#[tactic(auto, unfolding(crate::specs::Written::written_node))]
#[inline(always)]
pub(crate) fn put_begin(code: &mut Vec<u8>, field: u32)
    requires room { vec_len code.old + NUMBER_LEN ≤ vec_capacity code.old }
    ensures { code.new.items ≡ code.old.items ++ written_node (FieldNode.Begin field, []) }
{
    put_number(code, 4 * u64::from(field) + 2);
}

/// Appends the node with which one ends.
#[tactic(auto, unfolding(crate::specs::Written::written_node, wire_varint::specs::Varint::varint, wire_varint::specs::Varint::groups))]
#[inline(always)]
pub(crate) fn push_end(code: &mut Vec<u8>) -> Result<(), AllocError>
    ensures { OnOk result (code.new.items ≡ code.old.items ++ written_node (FieldNode.End, [])) }
{
    code.push(3)?;
    Ok(())
}

/// A node with its text, and what stands behind both.
#[derive(Clone, Copy)]
pub(crate) struct First<'c> {
    pub node: FieldNode,
    pub text: &'c [u8],
    pub behind: &'c [u8],
}

/// The number in front, and what stands behind it.
#[inline(always)]
fn split_number(bytes: &[u8]) -> (u64, &[u8])
    ensures { (n : ℕ) (rest : List ℕ) → n < 2 ^ 64 → bytes.now ≡ varint n ++ rest → (result.0 ≡ n) × (result.1.now ≡ rest) }
{
    match get_varint(bytes) {
        Ok((number, width)) => (number, &bytes[width..]),
        Err(_) => (0, bytes),
    }
}

/// The node in front.
#[inline(always)]
pub(crate) fn first_node(bytes: &[u8]) -> First<'_>
    requires { (node : Shown) × (rest : List ℕ) × IsWritable node × (bytes.now ≡ written_node node ++ rest) }
    ensures { (node : Shown) (rest : List ℕ) → IsWritable node → bytes.now ≡ written_node node ++ rest
        → IsFirst node rest result.node result.text.now result.behind.now }
{
    let (tag, behind) = split_number(bytes);
    let field = (tag / 4) as u32;
    let text = &bytes[..0];
    match tag % 4 {
        0 => {
            let (value, behind) = split_number(behind);
            First {
                node: FieldNode::Number { field, value },
                text,
                behind,
            }
        }
        1 => {
            let (times, behind) = split_number(behind);
            let (len, content) = split_number(behind);
            let (text, behind) = content.split_at(len as usize);
            First {
                node: FieldNode::Bytes {
                    field,
                    times: times as u32,
                },
                text,
                behind,
            }
        }
        2 => First {
            node: FieldNode::Begin { field },
            text,
            behind,
        },
        _ => First {
            node: FieldNode::End,
            text,
            behind,
        },
    }
}
