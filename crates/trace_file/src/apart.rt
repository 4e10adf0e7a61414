//! Taking a delivered record apart: its packet, and whether it bears a mark.
ghost use Rattle.std.specs.Prelude.{◌≡◌, ◌≢◌, ◌↔◌, ℕ, ◌<◌, ◌≤◌, ◌∷◌, ◌++◌, List, Bool, length, true, false, IsTrue, IfNone, IfSome, MatchOption};
ghost use Rattle.wire_varint.specs.Varint.{varint};
ghost use Rattle.trace_model.specs.Record.{dropped_mark, mark_where};
ghost use Rattle.trace_model.specs.Fields.{Spells};
ghost use Rattle.trace_file.specs.Apart.{SaysNone, SaysOnly, SaysPacket};
ghost use Rattle.trace_file.specs.Traces.{record_field};

use crate::parts::{DROPPED_MARK, PACKET_TAG, SEQUENCE_TAG, head, tail};

/// The bytes before these last ones.
#[inline(always)]
fn strip_end<'a>(bytes: &'a [u8], end: &[u8]) -> Option<&'a [u8]>
    ensures { MatchOption result ((rest : List ℕ) → bytes.now ≢ rest ++ end.now) (λ rest. bytes.now ≡ rest.now ++ end.now) }
{
    bytes.strip_suffix(end)
}

/// The bytes behind these first ones.
#[inline(always)]
fn strip_front<'a>(bytes: &'a [u8], front: &[u8]) -> Option<&'a [u8]>
    ensures { MatchOption result ((rest : List ℕ) → bytes.now ≢ front.now ++ rest) (λ rest. bytes.now ≡ front.now ++ rest.now) }
{
    bytes.strip_prefix(front)
}

/// The bytes behind the shortest tag and length of a record whose content has so many bytes.
#[inline(always)]
fn behind_head(bytes: &[u8], len: u64) -> Option<&[u8]>
    ensures { MatchOption result ((rest : List ℕ) → bytes.now ≢ (0x0A ∷ varint len) ++ rest)
        (λ rest. bytes.now ≡ (0x0A ∷ varint len) ++ rest.now) }
{
    if len < 128 {
        return strip_front(bytes, &[PACKET_TAG, len as u8]);
    }
    strip_front(bytes, &head(len))
}

/// Whether a record's tag and length are as short as they can be.
#[inline(always)]
fn has_short_head(bytes: &[u8], content: &[u8]) -> bool
    requires { Spells (record_field content.now) bytes.now }
    ensures yes { result ≡ true → bytes.now ≡ (0x0A ∷ varint (length content.now)) ++ content.now }
    ensures no { result ≡ false → bytes.now ≢ (0x0A ∷ varint (length content.now)) ++ content.now }
{
    match behind_head(bytes, content.len() as u64) {
        Some(rest) => rest.len() == content.len(),
        None => false,
    }
}

/// What stands before the sequence of a record's content, with a mark behind it or none. Most sequences
/// have one byte, and then the tail is of a length that is known beforehand.
#[inline(always)]
fn before_tail(content: &[u8], sequence: u32, marked: bool) -> Option<&[u8]>
    ensures { MatchOption result ((body : List ℕ) → content.now ≢ body ++ ((0x50 ∷ varint sequence) ++ mark_where marked))
        (λ body. content.now ≡ body.now ++ ((0x50 ∷ varint sequence) ++ mark_where marked)) }
{
    if sequence >= 128 {
        return strip_end(content, &tail(sequence, marked));
    }
    let number = sequence as u8;
    if marked {
        let [first, second, third] = DROPPED_MARK;
        return strip_end(content, &[SEQUENCE_TAG, number, first, second, third]);
    }
    strip_end(content, &[SEQUENCE_TAG, number])
}

/// What stands before the sequence and the mark of a record's content, and whether there is a mark.
#[inline(always)]
fn without_tail(content: &[u8], sequence: u32) -> Option<(&[u8], bool)>
    ensures { MatchOption result
        ((body : List ℕ) (behind : Bool) → content.now ≢ body ++ ((0x50 ∷ varint sequence) ++ mark_where behind))
        (λ found. content.now ≡ found.0.now ++ ((0x50 ∷ varint sequence) ++ mark_where found.1)) }
{
    if let Some(body) = before_tail(content, sequence, true) {
        return Some((body, true));
    }
    match before_tail(content, sequence, false) {
        Some(body) => Some((body, false)),
        None => None,
    }
}

/// The packet that a record says, and whether it bears a mark; or None where the bytes are no record
/// of any packet in this sequence. The content is the record's.
pub fn take_apart<'a>(bytes: &'a [u8], content: &'a [u8], sequence: u32) -> Option<(&'a [u8], bool)>
    requires { Spells (record_field content.now) bytes.now }
    ensures says { IfSome result (λ said. SaysPacket bytes.now sequence said.0.now said.1) }
    ensures only { IfSome result (λ said. SaysOnly bytes.now sequence said.0.now said.1) }
    ensures none { IfNone result (SaysNone bytes.now sequence) }
{
    if !has_short_head(bytes, content) {
        return None;
    }
    match without_tail(content, sequence) {
        None => None,
        Some(found) => match strip_front(found.0, &DROPPED_MARK) {
            Some(packet) => Some((packet, true)),
            None => Some(found),
        },
    }
}
