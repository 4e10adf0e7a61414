//! What a table of one thread keeps of a chunk beside its page and header word.
ghost use Rattle.std.specs.Prelude.{◌≡◌, ◌+◌, ◌*◌, ◌<◌, ◌≤◌, Some, None, slice_set, vec_len, length, IsSome, IfOk};
ghost use Rattle.chunk_plain.specs.Made.{IsFreeSlot, HasFreeSlots};
ghost use Rattle.chunk_plain.specs.Payload.{StoredUpTo};
ghost use Rattle.chunk_plain.specs.Stored.{stored_at};

use crate::bytes::pack_words;
use crate::setup::Spot;
use arrayvec::ArrayVec;
use commit_body::CommitBody;
use std::alloc::{AllocError, Global};
use std::marker::Model;

/// The payload words of a chunk, and its body as long as no token has it. The payload of a body
/// that lies here is room alone: what the chunk holds stands in the words.
#[derive(Debug, Drop)]
pub struct Slot {
    pub words: Vec<u64>,
    pub body: Option<CommitBody>,
}

impl Model for Slot {
    ghost use Rattle.chunk_plain.specs.Stored.{Stored};

    ghost Value = { Stored };

    ghost view = { λ slot. record { words = slot.words.items; body = slot.body } };
}

/// A slot for each chunk: its words are 0, and its body has room for its payload.
pub fn free_slots(alloc: Global, spots: &[Spot]) -> Result<Vec<Slot>, AllocError>
    ensures { IfOk result (λ slots. HasFreeSlots spots.now (length spots.now) slots.items) }
{
    let mut slots = Vec::new(alloc);
    for spot in spots {
        slots.push(free_slot(alloc, spot.payload_size)?)?;
    }
    Ok(slots)
}

fn free_slot(alloc: Global, payload_size: u32) -> Result<Slot, AllocError>
    ensures { IfOk result (λ slot. IsFreeSlot payload_size slot) }
{
    let body = CommitBody {
        payload: vec![in alloc; 0; payload_size as usize]?,
        patches: Box::new(alloc, ArrayVec::new())?,
        target: 0,
    };
    let words = vec![in alloc; 0; (payload_size as usize + 7) / 8]?;
    Ok(Slot {
        words,
        body: Some(body),
    })
}

/// Takes the body of a chunk out.
pub fn take_body(slots: &mut Vec<Slot>, chunk: u32) -> CommitBody
    requires inside { chunk < vec_len slots.old }
    requires there { IsSome (stored_at slots.old.items chunk).body }
    ensures body { (stored_at slots.old.items chunk).body ≡ Some result }
    ensures rest { slots.new.items ≡ slice_set slots.old.items chunk (record (stored_at slots.old.items chunk) { body = None }) }
    ensures len { vec_len slots.new ≡ vec_len slots.old }
{
    let Some(body) = slots[chunk as usize].body.take() else {
        unreachable!()
    };
    body
}

/// Puts the body of a chunk back.
pub fn put_body(slots: &mut Vec<Slot>, chunk: u32, body: CommitBody)
    requires { chunk < vec_len slots.old }
    ensures rest { slots.new.items ≡ slice_set slots.old.items chunk (record (stored_at slots.old.items chunk) { body = Some body }) }
    ensures len { vec_len slots.new ≡ vec_len slots.old }
{
    slots[chunk as usize].body = Some(body);
}

/// Stores the payload words of a chunk from one place on, up to another one.
pub fn put_words(slots: &mut Vec<Slot>, chunk: u32, first: usize, end: usize, payload: &[u8])
    requires inside { chunk < vec_len slots.old }
    requires order { first ≤ end }
    requires within { end ≤ length (stored_at slots.old.items chunk).words }
    requires payload { 8 * end < length payload.now + 8 }
    ensures rest { slots.new.items ≡ slice_set slots.old.items chunk (record (stored_at slots.old.items chunk) {
      words = (stored_at slots.new.items chunk).words;
    }) }
    ensures words { StoredUpTo payload.now first end (stored_at slots.old.items chunk).words (stored_at slots.new.items chunk).words }
    ensures len { vec_len slots.new ≡ vec_len slots.old }
{
    let slot = &mut slots[chunk as usize];
    pack_words(&mut slot.words, first, end, payload);
}

/// The payload words of a chunk.
pub fn words_of(slots: &[Slot], chunk: u32) -> &[u64]
    requires { chunk < length slots.now }
    ensures { result.now ≡ (stored_at slots.now chunk).words }
{
    let slot = &slots[chunk as usize];
    &slot.words
}

/// The body of a chunk that is there.
pub fn body_of(slots: &[Slot], chunk: u32) -> &CommitBody
    requires inside { chunk < length slots.now }
    requires there { IsSome (stored_at slots.now chunk).body }
    ensures { (stored_at slots.now chunk).body ≡ Some result.now }
{
    let slot = &slots[chunk as usize];
    let Some(body) = &slot.body else {
        unreachable!()
    };
    body
}
