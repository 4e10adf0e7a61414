//! The totals of each sequence, while packets are counted.
ghost use Rattle.std.specs.Prelude.{◌≡◌, ◌≢◌, ◌+◌, ◌≤◌, ◌<◌, ◌^◌, ℕ, Some, None, length, OnOk, IfOk, if◌then◌else◌};
ghost use Rattle.std.specs.BTreeMap.{get, is_at, IsOrdered};
ghost use Rattle.std.specs.Ordering.{nat_cmp};
ghost use Rattle.trace_summary.specs.Added as added;
ghost use Rattle.trace_summary.specs.Tallies.{totals_in, totals_before};

use crate::summary::Totals;
use std::alloc::{AllocError, Global};
use std::collections::BTreeMap;
use trace_file::Packet;

/// The totals of no packets.
pub(crate) const NONE: Totals = Totals {
    packets: 0,
    marked: 0,
    bytes: 0,
};

/// The totals with one packet more.
#[tactic(auto, unfolding(crate::specs::Added::with_packet))]
pub(crate) fn with_packet(totals: Totals, packet: &Packet<'_>) -> Totals
    requires packets { totals.packets + 1 < 2 ^ 64 }
    requires marked { totals.marked ≤ totals.packets }
    requires bytes { totals.bytes + length packet.now.content.now < 2 ^ 64 }
    ensures { result ≡ added.with_packet totals packet.now.marked (length packet.now.content.now) }
{
    Totals {
        packets: totals.packets + 1,
        marked: if packet.marked {
            totals.marked + 1
        } else {
            totals.marked
        },
        bytes: totals.bytes + packet.content.len() as u64,
    }
}

/// The totals of each sequence. Packets of one sequence mostly follow one another, so the totals of
/// the last one stand at hand beside the map, and go into it where another sequence comes. Nothing
/// is at hand while those totals have no packet.
#[derive(Drop)]
pub(crate) struct Tally {
    sequences: BTreeMap<u64, Totals>,
    at_hand: u64,
    totals: Totals,
}

impl Tally {
    /// Nothing is counted.
    pub(crate) fn new(alloc: Global) -> Self
        ensures nothing { (sequence : ℕ) → totals_in result sequence ≡ None }
        ensures rising { IsOrdered nat_cmp result.sequences }
    {
        Tally {
            sequences: BTreeMap::new(alloc),
            at_hand: 0,
            totals: NONE,
        }
    }

    /// Puts the totals at hand into the map.
    fn put_away(&mut self) -> Result<(), AllocError>
        ensures each { OnOk result ((sequence : ℕ) → get nat_cmp self.new.sequences sequence ≡ totals_in self.old sequence) }
        ensures rising { IsOrdered nat_cmp self.old.sequences → IsOrdered nat_cmp self.new.sequences }
    {
        if self.totals.packets > 0 {
            self.sequences.insert(self.at_hand, self.totals)?;
        }
        Ok(())
    }

    /// Has the totals of a sequence at hand.
    fn turn_to(&mut self, sequence: u64) -> Result<(), AllocError>
        ensures at_hand { OnOk result (self.new.at_hand ≡ sequence) }
        ensures totals { OnOk result (self.new.totals ≡ totals_before self.old sequence) }
        ensures others { OnOk result ((other : ℕ) → other ≢ sequence → get nat_cmp self.new.sequences other ≡ totals_in self.old other) }
        ensures rising { IsOrdered nat_cmp self.old.sequences → IsOrdered nat_cmp self.new.sequences }
    {
        if sequence == self.at_hand && self.totals.packets > 0 {
            return Ok(());
        }
        self.put_away()?;
        self.at_hand = sequence;
        self.totals = self.sequences.get(&sequence).copied().unwrap_or(NONE);
        Ok(())
    }

    /// Counts a packet to its sequence.
    pub(crate) fn count(&mut self, packet: &Packet<'_>) -> Result<(), AllocError>
        requires packets { (totals_before self.old packet.now.sequence).packets + 1 < 2 ^ 64 }
        requires marked { (totals_before self.old packet.now.sequence).marked ≤ (totals_before self.old packet.now.sequence).packets }
        requires bytes { (totals_before self.old packet.now.sequence).bytes + length packet.now.content.now < 2 ^ 64 }
        ensures each { OnOk result ((sequence : ℕ) → totals_in self.new sequence ≡ (if is_at (nat_cmp packet.now.sequence) sequence
            then Some (added.with_packet (totals_before self.old packet.now.sequence) packet.now.marked (length packet.now.content.now))
            else totals_in self.old sequence)) }
        ensures rising { IsOrdered nat_cmp self.old.sequences → IsOrdered nat_cmp self.new.sequences }
    {
        self.turn_to(packet.sequence)?;
        self.totals = with_packet(self.totals, packet);
        Ok(())
    }

    /// The totals of each sequence that has a packet.
    pub(crate) fn into_sequences(mut self) -> Result<BTreeMap<u64, Totals>, AllocError>
        ensures each { IfOk result (λ sequences. (sequence : ℕ) → get nat_cmp sequences sequence ≡ totals_in self sequence) }
        ensures rising { IfOk result (λ sequences. IsOrdered nat_cmp self.sequences → IsOrdered nat_cmp sequences) }
    {
        self.put_away()?;
        Ok(self.sequences)
    }
}
