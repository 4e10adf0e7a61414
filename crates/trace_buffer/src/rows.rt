//! The sequences of a buffer, each found by its number.
ghost use Rattle.std.specs.Prelude.{◌≡◌, ◌<◌, true, false, length, map, slice_index_or, if◌then◌else◌, IfOk};
ghost use Rattle.trace_model.specs.Sequences.{fresh, is_known, sequence_in, changed_at, has_arrived};
ghost use Rattle.trace_model.specs.Arrivals.{is_too_far, with_arrived};
ghost use Rattle.trace_model.specs.Reads.{advanced};
ghost use Rattle.trace_buffer.specs.Answers.{cursor_value, turn_value};
ghost use Rattle.trace_buffer.specs.Calls.{delivered_to};
ghost use Rattle.trace_buffer.specs.Clones.{none_delivered};
ghost use Rattle.trace_buffer.specs.Keys.{LosesAt, discarded_by};
ghost use Rattle.trace_buffer.specs.Made.{sequence_of, AllSmall, AllTakeLeast};
ghost use Rattle.trace_buffer.specs.BufferFields.{NumbersOnce};

use crate::answers::{Cursor, Passed, SequenceSpec};
use crate::row::SequenceRow;
use ring_bytes::{MAX_RING_SIZE, RecordKey, size_of_record};
use std::alloc::{AllocError, Global};

pub fn make_rows(alloc: Global, specs: &[SequenceSpec]) -> Result<Vec<SequenceRow>, AllocError>
    requires { AllSmall MAX_RING_SIZE specs.now }
    ensures { IfOk result (λ rows. rows.items ≡ map sequence_of specs.now) }
{
    let mut rows = Vec::with_capacity(alloc, specs.len())?;
    for spec in specs {
        let size = size_of_record(spec.payload);
        rows.push(SequenceRow::make(alloc, spec.sequence, size, spec.from)?)?;
    }
    Ok(rows)
}

/// The size of the smallest records of a buffer.
pub fn least_size(sequences: &[SequenceSpec], most: u32) -> u32
    requires some { 0 < most }
    requires small { AllSmall MAX_RING_SIZE sequences.now }
    ensures some { 0 < result }
    ensures least { AllTakeLeast result sequences.now }
{
    let mut least = most;
    for spec in sequences {
        least = least.min(size_of_record(spec.payload));
    }
    least
}

/// Where the sequence with this number stands. Where their numbers follow on one another, that hangs on
/// the first one's alone.
pub fn find_row(rows: &[SequenceRow], number: u32) -> usize
    requires { is_known rows.now number ≡ true }
    ensures within { result < length rows.now }
    ensures number { (slice_index_or rows.now result (fresh 0 0 0)).number ≡ number }
{
    if let Some(first) = rows.first() {
        let near = number.wrapping_sub(first.number()) as usize;
        if near < rows.len() && rows[near].number() == number {
            return near;
        }
    }
    find_among(rows, number)
}

/// The same by a look at one after another.
#[inline(never)]
fn find_among(rows: &[SequenceRow], number: u32) -> usize
    requires { is_known rows.now number ≡ true }
    ensures within { result < length rows.now }
    ensures number { (slice_index_or rows.now result (fresh 0 0 0)).number ≡ number }
{
    let mut i = 0;
    while rows[i].number() != number {
        i += 1;
    }
    i
}

/// Whether a sequence has this number.
pub fn has_row(rows: &[SequenceRow], number: u32) -> bool
    ensures { result ≡ is_known rows.now number }
{
    for row in rows {
        if row.number() == number {
            return true;
        }
    }
    false
}

/// The record is lost. Answers how many sequences lose something unread with it, at most one.
pub fn note_loss(rows: &mut [SequenceRow], key: RecordKey) -> u64
    requires known { is_known rows.old key.sequence ≡ true }
    requires once { NumbersOnce rows.old }
    ensures { LosesAt rows.old rows.new key result }
{
    let i = find_row(rows, key.sequence);
    let row = &mut rows[i];
    one_if(row.lose_record(key))
}

fn one_if(is: bool) -> u64
    ensures { result ≡ (if is then 1 else 0) }
{
    if is { 1 } else { 0 }
}

pub fn note_discarded(rows: &mut [SequenceRow], key: RecordKey)
    requires known { is_known rows.old key.sequence ≡ true }
    requires once { NumbersOnce rows.old }
    ensures { rows.new ≡ changed_at key.sequence (discarded_by key) rows.old }
{
    let i = find_row(rows, key.sequence);
    let row = &mut rows[i];
    row.discard(key);
}

pub fn note_arrived(rows: &mut [SequenceRow], number: u32, position: u32, count: u16)
    requires known { is_known rows.old number ≡ true }
    requires once { NumbersOnce rows.old }
    requires open { (sequence_in rows.old number).closed ≡ false }
    requires fresh { has_arrived (sequence_in rows.old number) position ≡ false }
    requires near { is_too_far (sequence_in rows.old number) position ≡ false }
    ensures { rows.new ≡ changed_at number (with_arrived position count) rows.old }
{
    let i = find_row(rows, number);
    let row = &mut rows[i];
    row.note_arrived(position, count);
}

pub fn advance(rows: &mut [SequenceRow], number: u32, to: Cursor, passed: Passed)
    requires known { is_known rows.old number ≡ true }
    requires once { NumbersOnce rows.old }
    ensures { rows.new ≡ changed_at number (advanced (cursor_value to) (turn_value passed)) rows.old }
{
    let i = find_row(rows, number);
    let row = &mut rows[i];
    row.advance(to, passed);
}

pub fn deliver(rows: &mut [SequenceRow], number: u32, to: Cursor, count: u64)
    requires known { is_known rows.old number ≡ true }
    requires once { NumbersOnce rows.old }
    ensures { rows.new ≡ changed_at number (delivered_to (cursor_value to) count) rows.old }
{
    let i = find_row(rows, number);
    let row = &mut rows[i];
    row.deliver(to, count);
}

pub fn reset_delivered(rows: &mut [SequenceRow], number: u32)
    requires known { is_known rows.old number ≡ true }
    requires once { NumbersOnce rows.old }
    ensures { rows.new ≡ changed_at number none_delivered rows.old }
{
    let i = find_row(rows, number);
    let row = &mut rows[i];
    row.reset_delivered();
}

/// Each sequence becomes what the other one at its place is.
pub fn copy_rows(rows: &mut [SequenceRow], others: &[SequenceRow])
    requires { length rows.old ≡ length others.now }
    ensures { rows.new ≡ others.now }
{
    for i in 0..others.len() {
        rows[i].copy_from(&others[i]);
    }
}
