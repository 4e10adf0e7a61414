//! One record more.
ghost use Rattle.std.specs.Prelude.{◌≡◌, ℕ, ◌<◌, ◌≤◌, [], ◌∷◌, ◌++◌, List, length, true, false};
ghost use Rattle.trace_model.specs.Delivery.{Delivered, IsFaithful};
ghost use Rattle.trace_model.specs.Fields.{Spells};
ghost use Rattle.trace_file.specs.Traces.{record_field};
ghost use Rattle.gap_check.specs.Taken.{AllTaken, AreFew};
ghost use Rattle.gap_check.specs.Verdicts.{AreUnmarked};

use packet_runs::{Packets, Teller};
use trace_base::limits::{FIRST_SEQUENCE, MAX_WRITERS};
use trace_file::{Packet, take_apart};

/// Whether all records so far and this one tell of the emitted packets. After false it isn't to be
/// asked again.
pub(crate) fn tell_packet(tellers: &mut [Teller], emitted: &[Packets], packet: &Packet<'_>) -> bool
    requires writers { length emitted.now ≤ MAX_WRITERS }
    requires few { AreFew emitted.now }
    requires clean { AreUnmarked emitted.now }
    requires spells { Spells (record_field packet.now.content.now) packet.now.bytes.now }
    requires taken { (delivered : List Delivered) × AllTaken emitted.now delivered tellers.old }
    ensures told { (delivered : List Delivered) → AllTaken emitted.now delivered tellers.old → result ≡ true
        → AllTaken emitted.now (delivered ++ record { sequence = packet.now.sequence; bytes = packet.now.bytes.now } ∷ []) tellers.new }
    ensures untold { (delivered : List Delivered) → AllTaken emitted.now delivered tellers.old → result ≡ false
        → IsFaithful emitted.now (delivered ++ record { sequence = packet.now.sequence; bytes = packet.now.bytes.now } ∷ []) → ⊥ }
{
    let first = u64::from(FIRST_SEQUENCE);
    if packet.sequence < first {
        return false;
    }
    if packet.sequence - first >= emitted.len() as u64 {
        return false;
    }
    let writer = (packet.sequence - first) as usize;
    match take_apart(packet.bytes, packet.content, packet.sequence as u32) {
        None => false,
        Some((said, marked)) => tellers[writer].tell(&emitted[writer], said, marked),
    }
}
