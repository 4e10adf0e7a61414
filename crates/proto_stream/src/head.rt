//! What stands before a field's content: its tag, and its value or its length.
ghost use Rattle.std.specs.Prelude.{◌≡◌, ◌≤◌, ◌++◌, length};
ghost use Rattle.wire_varint.specs.Varint.{tag, varint};
ghost use Rattle.trace_model.specs.Encoding.{number_field, bytes_head, nested_tag};
ghost use Rattle.proto_stream.specs.Head.{head_of};

use arrayvec::ArrayVec;
use trace_base::limits::MAX_FIELD;
use wire_varint::{push_tag, push_varint, varint_len};

/// The bytes before a field's content, at most 15.
#[derive(Drop)]
pub struct Head {
    bytes: ArrayVec<u8, 15>,
}

impl Head {
    pub fn as_slice(&self) -> &[u8]
        ensures { result.now ≡ head_of self.now }
    {
        &self.bytes
    }
}

/// The tag of a field with a value, and then the value in its shortest varint.
#[inline(always)]
fn tag_and_varint(field: u32, wire: u8, value: u64) -> Head
    requires field { (1 ≤ field) × (field ≤ MAX_FIELD) }
    requires wire { wire ≤ 5 }
    ensures { head_of result ≡ tag field wire ++ varint value }
{
    let mut head = Head {
        bytes: ArrayVec::new(),
    };
    push_tag(&mut head.bytes, field, wire);
    push_varint(&mut head.bytes, value);
    head
}

/// How many bytes stand before the length of a nested message.
#[inline(always)]
#[tactic(auto, unfolding(wire_varint::specs::Varint::tag))]
pub fn nested_tag_size(field: u32) -> u32
    ensures is { result ≡ length (nested_tag field) }
    ensures most { result ≤ 10 }
{
    varint_len(8 * u64::from(field) + 2)
}

/// How many bytes stand before the `len` bytes of a text.
#[inline(always)]
#[tactic(auto, unfolding(trace_model::specs::Encoding::bytes_head, wire_varint::specs::Varint::tag))]
pub fn bytes_head_size(field: u32, len: u32) -> u32
    ensures is { result ≡ length (bytes_head field len) }
    ensures most { result ≤ 20 }
{
    varint_len(8 * u64::from(field) + 2) + varint_len(u64::from(len))
}

/// How many bytes a number's field has.
#[inline(always)]
#[tactic(auto, unfolding(trace_model::specs::Encoding::number_field, wire_varint::specs::Varint::tag))]
pub fn number_size(field: u32, value: u64) -> u32
    ensures { result ≡ length (number_field field value) }
{
    varint_len(8 * u64::from(field)) + varint_len(value)
}

/// A number's field, whole.
#[inline(always)]
#[tactic(auto, unfolding(trace_model::specs::Encoding::number_field))]
pub fn head_number(field: u32, value: u64) -> Head
    requires { (1 ≤ field) × (field ≤ MAX_FIELD) }
    ensures { head_of result ≡ number_field field value }
{
    tag_and_varint(field, 0, value)
}

/// What stands before the `len` bytes of a text.
#[inline(always)]
#[tactic(auto, unfolding(trace_model::specs::Encoding::bytes_head))]
pub fn head_bytes(field: u32, len: u32) -> Head
    requires { (1 ≤ field) × (field ≤ MAX_FIELD) }
    ensures { head_of result ≡ bytes_head field len }
{
    tag_and_varint(field, 2, u64::from(len))
}

/// What stands before the length of a nested message.
#[inline(always)]
pub fn head_nested(field: u32) -> Head
    requires { (1 ≤ field) × (field ≤ MAX_FIELD) }
    ensures { head_of result ≡ nested_tag field }
{
    let mut head = Head {
        bytes: ArrayVec::new(),
    };
    push_tag(&mut head.bytes, field, 2);
    head
}
