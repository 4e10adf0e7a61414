//! One writer's packets, call by call.
ghost use Rattle.std.specs.Prelude.{◌≡◌, ◌≤◌, ◌<◌, ◌+◌, ◌*◌, ◌%◌, ◌^◌, ◌++◌, [], ◌∷◌, List, length, true, false, IfOk, OnOk};
ghost use Rattle.std.specs.List.{repeat};
ghost use Rattle.wire_varint.specs.Varint.{tag, varint};
ghost use Rattle.trace_model.specs.Encoding.{bytes_field, bytes_head, nested_tag, number_field};
ghost use Rattle.trace_model.specs.Packets.{open_length};
ghost use Rattle.trace_model.specs.Images.{with_bytes};

use arrayvec::ArrayVec;
use packet_runs::Packets;
use std::alloc::{AllocError, Global};
use trace_base::limits::{MAX_FIELD, MAX_OPEN_HOLES, MAX_PACKET_LEN};
use wire_varint::{put_redundant, put_varint};

/// The packets that a writer has finished, and what it has written of the one that it writes.
#[derive(Drop)]
pub struct Emitter {
    pub bytes: Vec<u8>,
    pub ends: Vec<u32>,
    pub opens: ArrayVec<u32, MAX_OPEN_HOLES>,
}

/// Puts four bytes into others at a place.
fn set_four(bytes: &mut [u8], at: usize, four: [u8; 4])
    requires { at + 4 ≤ length bytes.old }
    ensures { bytes.new ≡ with_bytes bytes.old at four }
{
    bytes[at..at + 4].copy_from_slice(&four);
}

/// Appends a number of any length.
#[inline(never)]
fn push_long(bytes: &mut Vec<u8>, number: u64) -> Result<(), AllocError>
    ensures { OnOk result (bytes.new.items ≡ bytes.old.items ++ varint number) }
{
    let mut spelled = [0; 10];
    let len = put_varint(number, &mut spelled);
    bytes.extend_from_slice(&spelled[..len])
}

/// Seven bits of a number, in a byte that others follow.
#[inline(always)]
fn group(number: u64) -> u8
    ensures { result ≡ 128 + number % 128 }
{
    128 + (number % 128) as u8
}

/// Appends a number. Most have at most four bytes, and these are laid down at once.
#[tactic(auto, unfolding(wire_varint::specs::Varint::varint, wire_varint::specs::Varint::groups))]
#[inline(always)]
fn push_number(bytes: &mut Vec<u8>, number: u64) -> Result<(), AllocError>
    ensures { OnOk result (bytes.new.items ≡ bytes.old.items ++ varint number) }
{
    if number < 128 {
        return bytes.extend_from_slice(&[number as u8]);
    }
    let second = number / 128;
    if second < 128 {
        return bytes.extend_from_slice(&[group(number), second as u8]);
    }
    let third = second / 128;
    if third < 128 {
        return bytes.extend_from_slice(&[group(number), group(second), third as u8]);
    }
    let last = third / 128;
    if last < 128 {
        return bytes.extend_from_slice(&[group(number), group(second), group(third), last as u8]);
    }
    push_long(bytes, number)
}

/// Appends a field's tag.
#[inline(always)]
#[tactic(auto, unfolding(wire_varint::specs::Varint::tag))]
fn push_tag(bytes: &mut Vec<u8>, field: u32, wire: u8) -> Result<(), AllocError>
    requires { wire ≤ 5 }
    ensures { OnOk result (bytes.new.items ≡ bytes.old.items ++ tag field wire) }
{
    push_number(bytes, 8 * u64::from(field) + u64::from(wire))
}

/// Appends a field's tag, and then a number.
#[inline(always)]
fn push_head(bytes: &mut Vec<u8>, field: u32, wire: u8, number: u64) -> Result<(), AllocError>
    requires { wire ≤ 5 }
    ensures { OnOk result (bytes.new.items ≡ bytes.old.items ++ (tag field wire ++ varint number)) }
{
    push_tag(bytes, field, wire)?;
    push_number(bytes, number)
}

/// Appends a number's field, whole.
#[inline(always)]
#[tactic(auto, unfolding(trace_model::specs::Encoding::number_field))]
fn push_number_field(bytes: &mut Vec<u8>, field: u32, value: u64) -> Result<(), AllocError>
    ensures { OnOk result (bytes.new.items ≡ bytes.old.items ++ number_field field value) }
{
    push_head(bytes, field, 0, value)
}

/// Appends what stands before a text.
#[inline(always)]
#[tactic(auto, unfolding(trace_model::specs::Encoding::bytes_head))]
fn push_bytes_head(bytes: &mut Vec<u8>, field: u32, len: u32) -> Result<(), AllocError>
    ensures { OnOk result (bytes.new.items ≡ bytes.old.items ++ bytes_head field len) }
{
    push_head(bytes, field, 2, u64::from(len))
}

/// Appends a byte so many times.
fn push_run(bytes: &mut Vec<u8>, byte: u8, times: u32) -> Result<(), AllocError>
    ensures { OnOk result (bytes.new.items ≡ bytes.old.items ++ repeat times (byte ∷ [])) }
{
    let len = bytes.len() + times as usize;
    bytes.resize(len, byte)?;
    Ok(())
}

/// Appends a text so many times over.
fn push_times(bytes: &mut Vec<u8>, text: &[u8], times: u32) -> Result<(), AllocError>
    ensures { OnOk result (bytes.new.items ≡ bytes.old.items ++ repeat times text.now) }
{
    if let [byte] = text {
        return push_run(bytes, *byte, times);
    }
    for _turn in 0..times {
        bytes.extend_from_slice(text)?;
    }
    Ok(())
}

/// Appends the field of a text, whole.
fn push_field(bytes: &mut Vec<u8>, field: u32, text: &[u8], times: u32) -> Result<(), AllocError>
    requires field { (1 ≤ field) × (field ≤ MAX_FIELD) }
    requires most { times * length text.now ≤ MAX_PACKET_LEN }
    ensures { OnOk result (bytes.new.items ≡ bytes.old.items ++ bytes_field field text.now times) }
{
    let len = (times as usize * text.len()) as u32;
    push_bytes_head(bytes, field, len)?;
    push_times(bytes, text, times)
}

/// Appends the tag of a nested message.
#[inline(always)]
#[tactic(auto, unfolding(trace_model::specs::Encoding::nested_tag), using(wire_varint::proofs::Lengths::varint_lengths))]
fn push_nested_tag(bytes: &mut Vec<u8>, field: u32) -> Result<(), AllocError>
    requires { (1 ≤ field) × (field ≤ MAX_FIELD) }
    ensures bytes { OnOk result (bytes.new.items ≡ bytes.old.items ++ nested_tag field) }
    ensures few { OnOk result (length bytes.new.items ≤ length bytes.old.items + 5) }
{
    push_tag(bytes, field, 2)
}

/// Appends the tag of a nested message and its open length, and answers the length's place.
fn push_nested(bytes: &mut Vec<u8>, field: u32) -> Result<u32, AllocError>
    requires field { (1 ≤ field) × (field ≤ MAX_FIELD) }
    requires short { length bytes.old.items ≤ 2 ^ 28 }
    ensures bytes { OnOk result (bytes.new.items ≡ bytes.old.items ++ (nested_tag field ++ open_length)) }
    ensures place { IfOk result (λ place. place ≡ length bytes.old.items + length (nested_tag field)) }
{
    push_nested_tag(bytes, field)?;
    let place = bytes.len() as u32;
    bytes.extend_from_slice(&[0x80, 0x80, 0x80, 0x00])?;
    Ok(place)
}

impl Emitter {
    ghost use Rattle.std.specs.Prelude.{◌≡◌, ◌≢◌, ◌≤◌, ◌<◌, ◌+◌, ◌*◌, ◌^◌, [], List, length, true, false, OnOk};
    ghost use Rattle.trace_model.specs.Calls as calls;
    ghost use Rattle.trace_model.specs.Encoding.{bytes_field, nested_tag, number_field};
    ghost use Rattle.trace_base.specs.declared.limits.TheConstants.{MAX_FIELD, MAX_OPEN_HOLES, MAX_PACKET_LEN};
    ghost use Rattle.trace_model.specs.Packets.{Account, is_writing, noted, nothing_yet, open_count};
    ghost use Rattle.emitted_packets.specs.Emitting.{IsEmitting};

    #[tactic(auto, using(crate::proofs::EmitLemmas::emitting_none))]
    /// A writer before its first call.
    pub fn new(alloc: Global) -> Self
        ensures emitting { IsEmitting nothing_yet result.bytes.items result.ends.items result.opens.items }
        ensures empty { (result.bytes.items ≡ []) × (result.ends.items ≡ []) }
    {
        Emitter {
            bytes: Vec::new(alloc),
            ends: Vec::new(alloc),
            opens: ArrayVec::new(),
        }
    }

    /// A number is written.
    #[tactic(auto, using(crate::proofs::EmitLemmas::number_on))]
    #[inline(always)]
    pub fn number(&mut self, field: u32, value: u64) -> Result<(), AllocError>
        requires field { (1 ≤ field) × (field ≤ MAX_FIELD) }
        ensures emitting { OnOk result ((account : Account)
            → IsEmitting account self.old.bytes.items self.old.ends.items self.old.opens.items → is_writing account.packets ≡ true
            → IsEmitting (noted account (calls.Number field value)) self.new.bytes.items self.new.ends.items self.new.opens.items) }
        ensures long { OnOk result (length self.new.bytes.items ≡ length self.old.bytes.items + length (number_field field value)) }
        ensures ends { OnOk result (self.new.ends.items ≡ self.old.ends.items) }
    {
        push_number_field(&mut self.bytes, field, value)
    }

    /// A text is written, so many times over.
    #[tactic(auto, using(crate::proofs::EmitLemmas::bytes_on))]
    #[inline(always)]
    pub fn bytes(&mut self, field: u32, text: &[u8], times: u32) -> Result<(), AllocError>
        requires field { (1 ≤ field) × (field ≤ MAX_FIELD) }
        requires most { times * length text.now ≤ MAX_PACKET_LEN }
        ensures emitting { OnOk result ((account : Account)
            → IsEmitting account self.old.bytes.items self.old.ends.items self.old.opens.items → is_writing account.packets ≡ true
            → IsEmitting (noted account
            (calls.Bytes field text.now times)) self.new.bytes.items self.new.ends.items self.new.opens.items) }
        ensures long { OnOk result (length self.new.bytes.items ≡ length self.old.bytes.items + length (bytes_field field text.now times)) }
        ensures ends { OnOk result (self.new.ends.items ≡ self.old.ends.items) }
    {
        push_field(&mut self.bytes, field, text, times)
    }

    /// A nested message begins: its length is left open.
    #[tactic(auto, using(crate::proofs::EmitLemmas::nested_on))]
    #[inline(always)]
    pub fn nested(&mut self, field: u32) -> Result<(), AllocError>
        requires field { (1 ≤ field) × (field ≤ MAX_FIELD) }
        requires short { length self.old.bytes.items ≤ 2 ^ 28 }
        requires room { length self.old.opens.items < MAX_OPEN_HOLES }
        ensures emitting { OnOk result ((account : Account)
            → IsEmitting account self.old.bytes.items self.old.ends.items self.old.opens.items → is_writing account.packets ≡ true
            → IsEmitting (noted account (calls.Nested field)) self.new.bytes.items self.new.ends.items self.new.opens.items) }
        ensures long { OnOk result (length self.new.bytes.items ≡ length self.old.bytes.items + (length (nested_tag field) + 4)) }
        ensures ends { OnOk result (self.new.ends.items ≡ self.old.ends.items) }
    {
        let place = push_nested(&mut self.bytes, field)?;
        self.opens.push(place);
        Ok(())
    }

    /// The innermost message ends: its length is put in.
    #[tactic(auto, using(crate::proofs::EmitLemmas::ended_on))]
    pub fn ended(&mut self)
        requires short { length self.old.bytes.items ≤ 2 ^ 28 }
        requires nested { self.old.opens.items ≢ [] }
        requires writing { (account : Account) × IsEmitting account self.old.bytes.items self.old.ends.items self.old.opens.items
            × (is_writing account.packets ≡ true) }
        ensures emitting { (account : Account) → IsEmitting account self.old.bytes.items self.old.ends.items self.old.opens.items
            → is_writing account.packets ≡ true
            → IsEmitting (noted account calls.Ended) self.new.bytes.items self.new.ends.items self.new.opens.items }
        ensures long { length self.new.bytes.items ≡ length self.old.bytes.items }
        ensures ends { self.new.ends.items ≡ self.old.ends.items }
    {
        if let Some(offset) = self.opens.pop() {
            let place = offset as usize;
            let size = self.bytes.len() - (place + 4);
            set_four(&mut self.bytes, place, put_redundant(size as u32));
        }
    }

    /// The packet is finished.
    #[tactic(auto, using(crate::proofs::EmitLemmas::finished_on))]
    pub fn finished(&mut self) -> Result<(), AllocError>
        requires { length self.old.bytes.items ≤ 2 ^ 28 }
        ensures emitting { OnOk result ((account : Account)
            → IsEmitting account self.old.bytes.items self.old.ends.items self.old.opens.items → is_writing account.packets ≡ true
            → open_count account.packets ≡ 1
            → IsEmitting (noted account calls.Finished) self.new.bytes.items self.new.ends.items self.new.opens.items) }
        ensures long { OnOk result (length self.new.bytes.items ≡ length self.old.bytes.items) }
        ensures ends { OnOk result (length self.new.ends.items ≡ length self.old.ends.items + 1) }
    {
        let end = self.bytes.len() as u32;
        match self.ends.push(end) {
            Ok(()) => Ok(()),
            Err(_) => Err(AllocError),
        }
    }
}

#[cfg(test)]
mod tests {
    use super::*;
    use std::test::Fail;

    // A number, and a text that stands twice inside a message that is left open.
    #[test]
    fn writes_packets(rt: HostRuntime) -> Result<(), Fail> {
        let mut emitter = Emitter::new(rt.alloc());
        emitter.number(8, 300)?;
        assert!(rt; emitter.bytes.len() < 100 && emitter.opens.len() < 16);
        emitter.nested(900)?;
        emitter.bytes(1, b"hi", 2)?;
        assert_eq!(rt;
            emitter.bytes.as_slice(),
            b"\x40\xAC\x02\xA2\x38\x80\x80\x80\x00\x0A\x04hihi".as_slice()
        );
        assert_eq!(rt; emitter.opens.as_slice(), [5u32].as_slice());
        assert!(rt; emitter.bytes.len() < 100);
        emitter.finished()?;
        assert_eq!(rt; emitter.ends.as_slice(), [15u32].as_slice());
        Ok(())
    }
}
