//! The search for the next place of a run, after Knuth, Morris and Pratt. The run is its own pattern:
//! its packets are those that were emitted from its place on.
ghost use Rattle.std.specs.Prelude.{◌≡◌, ◌↔◌, ℕ, ◌+◌, ◌^◌, ◌<◌, ◌≤◌, List, length, IsTrue, MatchOption, IfNone, IfSome};
ghost use Rattle.packet_runs.specs.Borders.{BordersBelow, IsLongestBorder, Nowhere, StandsAt};
ghost use Rattle.packet_runs.specs.Runs.{packet_at};
ghost use Rattle.packet_runs.specs.Tellers.{run_at, with_next};

use crate::packets::Packets;

#[tactic(auto, using(crate::proofs::SearchLemmas::next_in, crate::proofs::SearchLemmas::next_last))]
/// Whether the packet behind the first `matched` of a run with a packet behind it stands behind them
/// from a place on too.
fn goes_on(
    emitted: &Packets,
    place: usize,
    len: usize,
    packet: &[u8],
    at: usize,
    matched: usize,
) -> bool
    requires fits { place + len ≤ length emitted.now }
    requires short { matched ≤ len }
    requires more { at + matched < length emitted.now }
    ensures { IsTrue result ↔ (packet_at emitted.now (at + matched) ≡ with_next emitted.now place len packet.now matched) }
{
    let _count = emitted.len();
    if matched < len {
        emitted.has_at(at + matched, emitted.get(place + matched))
    } else {
        emitted.has_at(at + matched, packet)
    }
}

#[tactic(auto, using(crate::proofs::SearchLemmas::try_start, crate::proofs::SearchLemmas::try_found, crate::proofs::SearchLemmas::try_more, crate::proofs::SearchLemmas::try_next, crate::proofs::SearchLemmas::try_none))]
/// The first place from the run's on where the run stands with this packet behind it.
pub(crate) fn next_place(
    emitted: &Packets,
    place: usize,
    len: usize,
    borders: &[u32],
    packet: &[u8],
) -> Option<usize>
    requires fits { place + len ≤ length emitted.now }
    requires long { len < length borders.now }
    requires known { BordersBelow (run_at emitted.now place) borders.now (len + 1) }
    ensures none { IfNone result ((k : ℕ) → place ≤ k
        → StandsAt (length emitted.now) (packet_at emitted.now) (with_next emitted.now place len packet.now) (len + 1) k → ⊥) }
    ensures onward { IfSome result (λ at. place ≤ at) }
    ensures stands { IfSome result
        (λ at. StandsAt (length emitted.now) (packet_at emitted.now) (with_next emitted.now place len packet.now) (len + 1) at) }
    ensures first { IfSome result
        (λ at. Nowhere (StandsAt (length emitted.now) (packet_at emitted.now) (with_next emitted.now place len packet.now)
        (len + 1)) place at) }
{
    let count = emitted.len();
    let mut at = place;
    let mut matched = len;
    'places: while matched < count - at {
        if goes_on(emitted, place, len, packet, at, matched) {
            if matched == len {
                return Some(at);
            }
            matched += 1;
        } else if matched == 0 {
            at += 1;
        } else {
            let border = borders[matched] as usize;
            at += matched - border;
            matched = border;
        }
    }
    None
}

/// The longest border of a run with one packet more, whose packets so far have these.
pub(crate) fn next_border(emitted: &Packets, place: usize, len: usize, borders: &[u32]) -> u32
    requires some { 0 < len }
    requires fits { place + len < length emitted.now }
    requires long { len < length borders.now }
    requires few { len + 1 < 2 ^ 32 }
    requires known { BordersBelow (run_at emitted.now place) borders.now (len + 1) }
    ensures { IsLongestBorder (run_at emitted.now place) (len + 1) result }
{
    let _count = emitted.len();
    let mut border = borders[len];
    'borders: while !emitted.has_at(place + border as usize, emitted.get(place + len)) {
        if border == 0 {
            return 0;
        }
        border = borders[border as usize];
    }
    border + 1
}
