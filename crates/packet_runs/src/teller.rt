//! Telling the packets of one sequence, one after another.
ghost use Rattle.std.specs.Prelude.{◌≡◌, ℕ, ◌+◌, ◌^◌, ◌<◌, ◌≤◌, [], ◌∷◌, ◌++◌, List, length, true, false, IfOk};

use crate::packets::Packets;
use crate::search::{next_border, next_place};
use std::alloc::{AllocError, Global};

/// Where the last packets without a mark between them stand first among those that were emitted, and
/// the borders of this run.
#[derive(Drop)]
pub struct Teller {
    pub place: usize,
    pub len: usize,
    pub borders: Vec<u32>,
}

impl Teller {
    ghost use Rattle.std.specs.Prelude.{◌≡◌, ℕ, ◌+◌, ◌^◌, ◌<◌, ◌≤◌, [], ◌∷◌, ◌++◌, List, length, true, false, Bool, IfOk};
    ghost use Rattle.packet_runs.specs.Runs.{Said, StandIn};
    ghost use Rattle.packet_runs.specs.Tellers.{IsAfter, IsReady};

    /// A teller before the first packet.
    #[tactic(auto, using(crate::proofs::RunLemmas::after_none, crate::proofs::RunLemmas::ready_none))]
    pub fn make(alloc: Global, emitted: &Packets) -> Result<Self, AllocError>
        requires few { length emitted.now + 1 < 2 ^ 32 }
        ensures ready { IfOk result (λ teller. IsReady emitted.now teller.place teller.len teller.borders.items) }
        ensures after { IfOk result (λ teller. IsAfter emitted.now [] teller.place teller.len) }
    {
        let borders = Vec::from_elem(alloc, 0, emitted.len() + 1)?;
        Ok(Teller {
            place: 0,
            len: 0,
            borders,
        })
    }

    /// Begins a run: the packet is marked.
    #[tactic(auto, using(crate::proofs::RunLemmas::ready_begun))]
    fn begin(&mut self, emitted: &Packets, packet: &[u8]) -> bool
        requires ready { IsReady emitted.now self.old.place self.old.len self.old.borders.items }
        requires few { length emitted.now + 1 < 2 ^ 32 }
        ensures ready { result ≡ true → IsReady emitted.now self.new.place self.new.len self.new.borders.items }
        ensures told { (said : List Said) → IsAfter emitted.now said self.old.place self.old.len → result ≡ true
            → IsAfter emitted.now (said ++ record { packet = packet.now; marked = true } ∷ []) self.new.place self.new.len }
        ensures untold { (said : List Said) → IsAfter emitted.now said self.old.place self.old.len → result ≡ false
            → StandIn emitted.now (said ++ record { packet = packet.now; marked = true } ∷ []) → ⊥ }
    {
        let from = if self.len == 0 {
            self.place
        } else {
            self.place + self.len + 1
        };
        if from > emitted.len() {
            return false;
        }
        match next_place(emitted, from, 0, &self.borders, packet) {
            None => false,
            Some(at) => {
                self.place = at;
                self.len = 1;
                self.borders[1] = 0;
                true
            }
        }
    }

    #[tactic(auto, using(crate::proofs::RunLemmas::not_first))]
    /// Goes on with a run: the packet isn't marked.

    fn go_on(&mut self, emitted: &Packets, packet: &[u8]) -> bool
        requires ready { IsReady emitted.now self.old.place self.old.len self.old.borders.items }
        requires few { length emitted.now + 1 < 2 ^ 32 }
        ensures ready { result ≡ true → IsReady emitted.now self.new.place self.new.len self.new.borders.items }
        ensures told { (said : List Said) → IsAfter emitted.now said self.old.place self.old.len → result ≡ true
            → IsAfter emitted.now (said ++ record { packet = packet.now; marked = false } ∷ []) self.new.place self.new.len }
        ensures untold { (said : List Said) → IsAfter emitted.now said self.old.place self.old.len → result ≡ false
            → StandIn emitted.now (said ++ record { packet = packet.now; marked = false } ∷ []) → ⊥ }
    {
        if self.len == 0 {
            return false;
        }
        match next_place(emitted, self.place, self.len, &self.borders, packet) {
            None => false,
            Some(at) => {
                let border = next_border(emitted, at, self.len, &self.borders);
                self.place = at;
                self.len += 1;
                self.borders[self.len] = border;
                true
            }
        }
    }

    /// Whether all packets so far and this one stand among the emitted packets. After false it isn't
    /// to be asked again.
    pub fn tell(&mut self, emitted: &Packets, packet: &[u8], marked: bool) -> bool
        requires ready { IsReady emitted.now self.old.place self.old.len self.old.borders.items }
        requires few { length emitted.now + 1 < 2 ^ 32 }
        ensures ready { result ≡ true → IsReady emitted.now self.new.place self.new.len self.new.borders.items }
        ensures told { (said : List Said) → IsAfter emitted.now said self.old.place self.old.len → result ≡ true
            → IsAfter emitted.now (said ++ record { packet = packet.now; marked = marked } ∷ []) self.new.place self.new.len }
        ensures untold { (said : List Said) → IsAfter emitted.now said self.old.place self.old.len → result ≡ false
            → StandIn emitted.now (said ++ record { packet = packet.now; marked = marked } ∷ []) → ⊥ }
    {
        if marked {
            self.begin(emitted, packet)
        } else {
            self.go_on(emitted, packet)
        }
    }
}

#[cfg(test)]
mod tests {
    use super::*;
    use std::test::Fail;

    // Packets without a mark between them go on from one place to a later one, as far as they stand.
    #[test]
    fn tells_runs_among_equal_packets(rt: HostRuntime) -> Result<(), Fail> {
        let bytes = Vec::from_slice(rt.alloc(), b"aabaac")?;
        let ends = Vec::from_slice(rt.alloc(), &[1, 2, 3, 4, 5, 6])?;
        let emitted = Packets::new(bytes, ends);
        let mut teller = Teller::make(rt.alloc(), &emitted)?;
        assert!(rt; teller.tell(&emitted, b"a", true));
        assert!(rt; teller.tell(&emitted, b"a", false));
        assert!(rt; teller.tell(&emitted, b"c", false));
        assert!(rt; !teller.tell(&emitted, b"a", true));
        Ok(())
    }
}
