//! How many records a close has to see: parts of chunks, and those of each sequence that await a patch.
ghost use Rattle.std.specs.Prelude.{◌≡◌, ◌<◌, true, [], length, slice_index_or, IfOk};
ghost use Rattle.trace_model.specs.Sequences.{is_known};
ghost use Rattle.trace_buffer.specs.BufferFields.{NumbersOnce};
ghost use Rattle.trace_buffer.specs.Unfinished.{unfinished_of, AreFew, HaveOneMore, HaveOneLess, HaveOne};

use crate::row::SequenceRow;
use crate::rows::find_row;
use ring_bytes::RecordKey;
use std::alloc::{AllocError, Global};
use std::marker::Model;

/// Counts of the live records of a buffer, which are kept as records come and go, so that a close needs
/// no look at the records for what awaits a patch, and none at all where there is no part of a chunk.
#[derive(Drop)]
pub struct Unfinished {
    /// How many are parts of chunks, of all sequences together.
    parts: u32,
    /// How many await a patch, of the sequence at each place.
    awaiting: Vec<u32>,
}

impl Model for Unfinished {
    ghost use Rattle.trace_buffer.specs.Unfinished.{UnfinishedValue, unfinished_view};

    ghost Value = { UnfinishedValue };

    ghost view = { unfinished_view };
}

impl Unfinished {
    /// The counts where there is no record.
    pub fn make(alloc: Global, rows: &[SequenceRow]) -> Result<Unfinished, AllocError>
        ensures { IfOk result (λ counts. counts ≡ unfinished_of rows.now []) }
    {
        let awaiting = vec![in alloc; 0; rows.len()]?;
        Ok(Unfinished { parts: 0, awaiting })
    }

    /// How many records are parts of chunks.
    pub fn parts(&self) -> u32
        ensures { result ≡ self.now.parts }
    {
        self.parts
    }

    /// How many records of the sequence at this place await a patch.
    pub fn awaiting_at(&self, place: usize) -> u32
        requires { place < length self.now.awaiting }
        ensures { result ≡ slice_index_or self.now.awaiting place 0 }
    {
        self.awaiting[place]
    }

    /// A record with this header comes. Where a close needn't see it, its sequence isn't looked up.
    pub fn add(&mut self, rows: &[SequenceRow], key: RecordKey)
        requires known { is_known rows.now key.sequence ≡ true }
        requires once { NumbersOnce rows.now }
        requires length { length self.old.awaiting ≡ length rows.now }
        requires few { AreFew self.old }
        ensures { HaveOneMore rows.now key self.old self.new }
    {
        self.parts += u32::from(key.partial);
        if !key.awaits {
            return;
        }
        let place = find_row(rows, key.sequence);
        self.awaiting[place] += 1;
    }

    /// A record with this header goes.
    pub fn take(&mut self, rows: &[SequenceRow], key: RecordKey)
        requires known { is_known rows.now key.sequence ≡ true }
        requires once { NumbersOnce rows.now }
        requires there { HaveOne rows.now key self.old }
        ensures { HaveOneLess rows.now key self.old self.new }
    {
        self.parts -= u32::from(key.partial);
        if !key.awaits {
            return;
        }
        let place = find_row(rows, key.sequence);
        self.awaiting[place] -= 1;
    }

    /// Becomes what other counts are, of as many sequences.
    pub fn copy_from(&mut self, other: &Unfinished)
        requires { length self.old.awaiting ≡ length other.now.awaiting }
        ensures { self.new ≡ other.now }
    {
        self.parts = other.parts;
        self.awaiting.copy_from_slice(&other.awaiting);
    }
}
