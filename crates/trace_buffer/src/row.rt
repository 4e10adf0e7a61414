//! What a buffer keeps of one sequence.
ghost use Rattle.std.specs.Prelude.{◌≡◌, ◌^◌, ◌≤◌, [], true, false, IfOk};
ghost use Rattle.trace_base.specs.Ids as spec;
ghost use Rattle.trace_model.specs.Counts.{raised};
ghost use Rattle.trace_model.specs.Sequences.{fresh, has_arrived, is_among, unread_of, with_number};
ghost use Rattle.trace_model.specs.Arrivals.{is_too_far, with_arrived};
ghost use Rattle.trace_model.specs.Reads.{advanced};
ghost use Rattle.trace_model.specs.Row.{horizon};
ghost use Rattle.trace_buffer.specs.Answers.{cursor_value, turn_value, state_of};
ghost use Rattle.trace_buffer.specs.Calls.{delivered_to};
ghost use Rattle.trace_buffer.specs.Clones.{none_delivered};
ghost use Rattle.trace_buffer.specs.Keys as keys;
ghost use Rattle.trace_buffer.specs.Keys.{cursor_behind};

use crate::answers::{Cursor, Passed, SequenceState};
use crate::circle::{end_of_bits, place_of, settle};
use page_geometry::FIRST_CONTINUES;
use ring_bytes::RecordKey;
use std::alloc::{AllocError, Global};
use std::marker::Model;
use trace_base::ids::position_of;
use trace_base::limits::IDS_AHEAD;
use trace_base::policy::FullPolicy;

/// A sequence of a buffer. Its chunks go by their positions: all below `base` arrived complete, and
/// `base` didn't.
#[derive(Drop)]
pub struct SequenceRow {
    number: u32,
    size: u32,
    /// The id of its first chunk.
    from: u32,
    base: u64,
    /// Which positions from `base` on arrived complete.
    ahead: Vec<bool>,
    /// Which positions from `base` on had a part there when the sequence was closed.
    finals: Vec<bool>,
    at: u64,
    passed: u16,
    closed: bool,
    missing: bool,
    delivered: u64,
    dropped: u64,
    lost: u64,
    cut: u64,
}

impl Model for SequenceRow {
    ghost use Rattle.trace_model.specs.Sequences.{Sequence};

    ghost Value = { Sequence };

    ghost use Rattle.trace_buffer.specs.RowFields.{row_view, IsSequence};

    ghost view = { row_view };

    ghost invariant = { IsSequence };
}

impl SequenceRow {
    pub fn make(alloc: Global, number: u32, size: u32, from: u32) -> Result<SequenceRow, AllocError>
        ensures { IfOk result (λ row. row ≡ fresh number size from) }
    {
        let ahead = vec![in alloc; false; IDS_AHEAD as usize]?;
        let finals = vec![in alloc; false; IDS_AHEAD as usize]?;
        Ok(SequenceRow {
            number,
            size,
            from,
            base: 0,
            ahead,
            finals,
            at: 0,
            passed: 0,
            closed: false,
            missing: false,
            delivered: 0,
            dropped: 0,
            lost: 0,
            cut: 0,
        })
    }

    pub fn number(&self) -> u32
        ensures { result ≡ self.now.number }
    {
        self.number
    }

    pub fn size(&self) -> u32
        ensures { result ≡ self.now.size }
    {
        self.size
    }

    /// The position of the chunk with this id.
    pub fn position_of(&self, id: u32) -> u32
        ensures { result ≡ spec.position_of self.now.from id }
    {
        position_of(self.from, id)
    }

    #[tactic(auto, using(crate::proofs::CircleLemmas::arrived_below, crate::proofs::CircleLemmas::arrived_ahead, crate::proofs::CircleLemmas::arrived_beyond))]
    pub fn has_arrived(&self, position: u64) -> bool
        ensures { result ≡ has_arrived self.now position }
    {
        if position < self.base {
            return true;
        }
        position - self.base < u64::from(IDS_AHEAD) && self.ahead[place_of(position)]
    }

    #[tactic(auto, using(crate::proofs::CircleLemmas::base_is))]
    pub fn is_too_far(&self, position: u32) -> bool
        ensures { result ≡ is_too_far self.now position }
    {
        u64::from(position) >= self.base + u64::from(IDS_AHEAD)
    }

    /// Whether a part of the chunk was there when the sequence was closed.
    #[tactic(auto, using(crate::proofs::CircleLemmas::marked_in, crate::proofs::CircleLemmas::final_below, crate::proofs::CircleLemmas::final_beyond))]
    pub fn is_final(&self, position: u64) -> bool
        ensures { result ≡ is_among position self.now.final }
    {
        if position < self.base || position - self.base >= u64::from(IDS_AHEAD) {
            return false;
        }
        self.finals[place_of(position)]
    }

    /// One above the last position that a reader can meet: the least one that hasn't arrived, and of a closed
    /// sequence the last one of which anything ever was there.
    #[tactic(auto, using(crate::proofs::CircleLemmas::base_is))]
    pub fn horizon(&self) -> u64
        ensures is { result ≡ horizon self.now }
        ensures low { result ≤ 2 ^ 33 }
    {
        if self.closed {
            return end_of_bits(&self.ahead, &self.finals, self.base);
        }
        self.base + 1
    }

    /// Of so many fragments of a chunk, those that the cursor hasn't passed.
    pub fn unread_of(&self, position: u32, count: u16) -> u16
        ensures { result ≡ unread_of self.now position count }
    {
        let position = u64::from(position);
        if position < self.at {
            return 0;
        }
        if position == self.at {
            return count.saturating_sub(self.passed);
        }
        count
    }

    pub fn lose(&mut self, packets: u64)
        ensures { self.new ≡ record self.old { lost = raised self.old.lost packets } }
    {
        self.lost = self.lost.saturating_add(packets);
    }

    /// Loses a record, and answers whether something of it was unread.
    pub fn lose_record(&mut self, key: RecordKey) -> bool
        ensures after { self.new ≡ record self.old { lost = raised self.old.lost (keys.packets_lost self.old key) } }
        ensures unread { result ≡ keys.is_unread_loss self.old key }
    {
        if key.partial && !self.closed {
            return false;
        }
        let unread = self.unread_of(key.chunk_id, key.count);
        self.lose(u64::from(starts_in(key, unread)));
        unread > 0
    }

    /// A chunk gets no place: the packets that begin in it are lost.
    pub fn discard(&mut self, key: RecordKey)
        ensures { self.new ≡ record self.old { lost = raised self.old.lost (keys.unread_starts self.old key) } }
    {
        let unread = self.unread_of(key.chunk_id, key.count);
        self.lose(u64::from(starts_in(key, unread)));
    }

    /// A chunk with so many fragments has arrived complete.
    pub fn note_arrived(&mut self, position: u32, count: u16)
        requires open { self.old.closed ≡ false }
        requires fresh { has_arrived self.old position ≡ false }
        requires near { is_too_far self.old position ≡ false }
        ensures { self.new ≡ with_arrived position count self.old }
    {
        self.ahead[place_of(u64::from(position))] = true;
        self.base = settle(&mut self.ahead, self.base);
        let cursor = cursor_behind(self.at, self.passed, position, count);
        self.at = cursor.chunk_id;
        self.passed = cursor.passed;
    }

    pub fn advance(&mut self, to: Cursor, passed: Passed)
        ensures { self.new ≡ advanced (cursor_value to) (turn_value passed) self.old }
    {
        self.at = to.chunk_id;
        self.passed = to.passed;
        self.missing = passed != Passed::Delivered;
        match passed {
            Passed::Delivered => self.delivered = self.delivered.saturating_add(1),
            Passed::Dropped => self.dropped = self.dropped.saturating_add(1),
            Passed::Overwritten | Passed::Discarded => self.lost = self.lost.saturating_add(1),
            Passed::Cut => self.cut = self.cut.saturating_add(1),
            Passed::Nothing => {}
        }
    }

    /// A reader has come to a place behind so many packets that it delivered.
    pub fn deliver(&mut self, to: Cursor, count: u64)
        ensures { self.new ≡ delivered_to (cursor_value to) count self.old }
    {
        self.at = to.chunk_id;
        self.passed = to.passed;
        self.missing = false;
        self.delivered = self.delivered.saturating_add(count);
    }

    pub fn close(&mut self)
        requires { self.old.closed ≡ false }
        ensures after { self.new ≡ record self.old { closed = true } }

        // No chunk is final before.
        ensures none { self.old.final ≡ [] }
    {
        self.closed = true;
    }

    /// A part of the chunk is there as the sequence is closed.
    pub fn mark_final(&mut self, position: u32)
        requires closed { self.old.closed ≡ true }
        requires fresh { has_arrived self.old position ≡ false }
        requires near { is_too_far self.old position ≡ false }
        ensures { self.new ≡ record self.old { final = with_number position self.old.final } }
    {
        self.finals[place_of(u64::from(position))] = true;
    }

    pub fn reset_delivered(&mut self)
        ensures { self.new ≡ none_delivered self.old }
    {
        self.delivered = 0;
    }

    /// Becomes what another sequence is.
    pub fn copy_from(&mut self, other: &SequenceRow)
        ensures { self.new ≡ other.now }
    {
        self.number = other.number;
        self.size = other.size;
        self.from = other.from;
        self.base = other.base;
        self.ahead.copy_from_slice(&other.ahead);
        self.finals.copy_from_slice(&other.finals);
        self.at = other.at;
        self.passed = other.passed;
        self.closed = other.closed;
        self.missing = other.missing;
        self.delivered = other.delivered;
        self.dropped = other.dropped;
        self.lost = other.lost;
        self.cut = other.cut;
    }

    #[tactic(auto, using(crate::proofs::CircleLemmas::base_is))]
    pub fn state(&self, policy: FullPolicy) -> SequenceState
        ensures { result ≡ state_of policy self.now }
    {
        SequenceState {
            cursor: Cursor {
                chunk_id: self.at,
                passed: self.passed,
            },
            base: self.base,
            closed: self.closed,
            missing: self.missing,
            delivered: self.delivered,
            dropped: self.dropped,
            overwritten: if policy == FullPolicy::Ring {
                self.lost
            } else {
                0
            },
            discarded: if policy == FullPolicy::Discard {
                self.lost
            } else {
                0
            },
            cut: self.cut,
        }
    }
}

/// How many packets begin in the unread fragments of a record: a first one that continues a packet
/// begins none.
fn starts_in(key: RecordKey, unread: u16) -> u16
    ensures { result ≡ keys.starts_in key unread }
{
    if key.flags % 2 == FIRST_CONTINUES && unread == key.count {
        return unread.saturating_sub(1);
    }
    unread
}

/// The cursor once a chunk has arrived complete, which is behind it where all of it was passed.
fn cursor_behind(at: u64, passed: u16, position: u32, count: u16) -> Cursor
    ensures { cursor_value result ≡ cursor_behind at passed position count }
{
    let position = u64::from(position);
    if at == position && count <= passed {
        return Cursor {
            chunk_id: position + 1,
            passed: 0,
        };
    }
    Cursor {
        chunk_id: at,
        passed,
    }
}
