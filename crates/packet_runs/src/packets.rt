//! The packets of one writer, in one list of bytes.
ghost use Rattle.std.specs.Prelude.{◌≡◌, ◌↔◌, ℕ, ◌+◌, ◌-◌, ◌<◌, ◌≤◌, List, [], length, take, drop, IsTrue, slice_index_or};
ghost use Rattle.packet_runs.specs.Pieces.{pieces, AreEnds};

use std::marker::Model;

/// Packets that share one list of bytes, with a number of four bytes for each. Contracts see the list
/// of them.
#[derive(Drop)]
pub struct Packets {
    bytes: Vec<u8>,
    ends: Vec<u32>,
}

impl Model for Packets {
    ghost use Rattle.std.specs.Prelude.{ℕ, List, length};
    ghost use Rattle.packet_runs.specs.Pieces.{pieces, AreEnds};

    ghost Value = { List (List ℕ) };

    ghost view = { λ packets. pieces packets.bytes.items 0 packets.ends.items };

    ghost invariant = { λ packets. AreEnds (length packets.bytes.items) 0 packets.ends.items };
}

/// The piece at a place.
#[tactic(auto, using(crate::proofs::PieceLemmas::piece_first, crate::proofs::PieceLemmas::piece_later, crate::proofs::PieceLemmas::end_in, crate::proofs::PieceLemmas::ends_rise, crate::proofs::PieceLemmas::end_before))]
fn piece<'a>(bytes: &'a [u8], ends: &[u32], i: usize) -> &'a [u8]
    requires ends { AreEnds (length bytes.now) 0 ends.now }
    requires within { i < length ends.now }
    ensures { result.now ≡ slice_index_or (pieces bytes.now 0 ends.now) i [] }
{
    let end = ends[i] as usize;
    if i == 0 {
        &bytes[..end]
    } else {
        &bytes[ends[i - 1] as usize..end]
    }
}

impl Packets {
    ghost use Rattle.std.specs.Prelude.{◌≡◌, ◌↔◌, ◌<◌, ◌≤◌, ◌^◌, [], length, IsTrue};
    ghost use Rattle.packet_runs.specs.Pieces.{pieces, AreEnds};
    ghost use Rattle.packet_runs.specs.Runs.{packet_at};

    /// The pieces of these bytes, each up to the next of the ends.
    pub fn new(bytes: Vec<u8>, ends: Vec<u32>) -> Self
        requires { AreEnds (length bytes.items) 0 ends.items }
        ensures { result ≡ pieces bytes.items 0 ends.items }
    {
        Packets { bytes, ends }
    }

    #[tactic(auto, using(crate::proofs::PieceLemmas::many))]
    pub fn len(&self) -> usize
        ensures { result ≡ length self.now }
    {
        self.ends.len()
    }

    #[tactic(auto, using(crate::proofs::PieceLemmas::many))]
    pub fn get(&self, i: usize) -> &[u8]
        requires { i < length self.now }
        ensures { result.now ≡ packet_at self.now i }
    {
        piece(&self.bytes, &self.ends, i)
    }

    /// Whether this packet stands at the place.
    pub fn has_at(&self, i: usize, packet: &[u8]) -> bool
        requires { i < length self.now }
        ensures { IsTrue result ↔ (packet_at self.now i ≡ packet.now) }
    {
        self.get(i) == packet
    }
}
