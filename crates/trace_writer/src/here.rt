//! What a call adds to the packet, where all of it fits into the fragment that is written: then the
//! held chunk stays where it is.
ghost use Rattle.std.specs.Prelude.{◌≡◌, ◌+◌, ◌*◌, ◌<◌, ◌≤◌, ◌++◌, true, false, length, vec_len};
ghost use Rattle.std.specs.List.{repeat};
ghost use Rattle.trace_base.specs.declared.limits.TheConstants.{MAX_PACKET_LEN, MAX_OPEN_HOLES};
ghost use Rattle.trace_model.specs.Encoding.{bytes_head, nested_tag, number_field};
ghost use Rattle.trace_writer.specs.declared.fragment.OpenFragment.{OpenFragment};
ghost use Rattle.trace_writer.specs.declared.state.State.TheVariants.{Writing};
ghost use Rattle.trace_writer.specs.Agreement.{is_begun, len_of, open_message_count};
ghost use Rattle.trace_writer.specs.InPlace.{PutsField, PutsNested};

use crate::state::{State, Writer};

/// Writes a text's field where all of it fits; else nothing changes. What stands before the `len`
/// bytes of the text has so many bytes.
pub(crate) fn put_text_here(
    writer: &mut Writer,
    field: u32,
    len: u32,
    size: u32,
    text: &[u8],
    times: u32,
) -> bool
    requires begun { is_begun writer.old.packet ≡ true }
    requires size { size ≡ length (bytes_head field len) }
    requires fits { len_of writer.old.packet + (size + times * length text.now) ≤ MAX_PACKET_LEN }
    ensures fits { (fragment : OpenFragment) → writer.old.state ≡ Writing fragment
        → fragment.at + (size + times * length text.now) ≤ vec_len fragment.held.body.payload → result ≡ true }
    ensures unchanged { result ≡ false → writer.new ≡ writer.old }
    ensures puts { result ≡ true → PutsField writer.old writer.new (bytes_head field len ++ repeat times text.now) }
{
    let State::Writing(fragment) = &mut writer.state else {
        return false;
    };
    if !fragment.put_whole(field, len, size, text, times) {
        return false;
    }
    let Some(packet) = &mut writer.packet else {
        unreachable!()
    };
    packet.add_field(u64::from(size) + u64::from(times) * text.len() as u64);
    true
}

/// Writes a number's field, which has so many bytes, where all of it fits; else nothing changes.
#[inline(always)]
pub(crate) fn put_number_here(writer: &mut Writer, field: u32, value: u64, size: u32) -> bool
    requires begun { is_begun writer.old.packet ≡ true }
    requires size { size ≡ length (number_field field value) }
    requires fits { len_of writer.old.packet + size ≤ MAX_PACKET_LEN }
    ensures fits { (fragment : OpenFragment) → writer.old.state ≡ Writing fragment
        → fragment.at + size ≤ vec_len fragment.held.body.payload → result ≡ true }
    ensures unchanged { result ≡ false → writer.new ≡ writer.old }
    ensures puts { result ≡ true → PutsField writer.old writer.new (number_field field value) }
{
    let State::Writing(fragment) = &mut writer.state else {
        return false;
    };
    if !fragment.put_number(field, value, size) {
        return false;
    }
    let Some(packet) = &mut writer.packet else {
        unreachable!()
    };
    packet.add_field(u64::from(size));
    true
}

/// Begins a nested message, whose tag has so many bytes, where its tag and its length fit; else
/// nothing changes.
#[inline(always)]
pub(crate) fn put_nested_here(writer: &mut Writer, field: u32, size: u32) -> bool
    requires begun { is_begun writer.old.packet ≡ true }
    requires size { size ≡ length (nested_tag field) }
    requires fits { len_of writer.old.packet + (size + 4) ≤ MAX_PACKET_LEN }
    requires depth { open_message_count writer.old.packet < MAX_OPEN_HOLES }
    requires few { (fragment : OpenFragment) → writer.old.state ≡ Writing fragment → length writer.old.pending.holes < MAX_OPEN_HOLES }
    ensures fits { (fragment : OpenFragment) → writer.old.state ≡ Writing fragment
        → fragment.at + (size + 4) ≤ vec_len fragment.held.body.payload → result ≡ true }
    ensures unchanged { result ≡ false → writer.new ≡ writer.old }
    ensures puts { result ≡ true → PutsNested writer.old writer.new (nested_tag field) }
{
    let State::Writing(fragment) = &mut writer.state else {
        return false;
    };
    if !fragment.put_message(&mut writer.pending, field, size) {
        return false;
    }
    let Some(packet) = &mut writer.packet else {
        unreachable!()
    };
    packet.add_nested(size);
    true
}
