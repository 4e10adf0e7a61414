//! The packet check of a packet that lies in one piece.
ghost use Rattle.std.specs.Prelude.{◌≡◌, ◌^◌, ◌<◌, ◌≤◌, length, drop, Result};
ghost use Rattle.packet_check.specs.Answers.{IsAnswer, answer_of, walk_behind};
ghost use Rattle.packet_check.specs.Values.{IsFront, walk_of};
ghost use Rattle.packet_check.specs.declared.fault.PacketFault.{PacketFault};
ghost use Rattle.trace_model.specs.Walks.{packet_start, walk_over, is_accepted};

use crate::check::{passes, told_by, walk_over};
use crate::fault::PacketFault;
use crate::field::free_at;
use crate::walk::{Walk, walk_behind};
use trace_base::limits::MAX_INPUT;

/// How far fields lead in the packet that writers may write: to its end, or to where it has to be walked over
/// byte by byte. This way only accepts; what is refused is found by the walk.
#[tactic(auto, using(crate::proofs::CheckLemmas::check_steps))]
#[inline(always)]
fn whole_front(bytes: &[u8]) -> usize
    requires { length bytes.now ≤ 2 ^ 62 }
    ensures { IsFront bytes.now result }
{
    let mut at = 0;
    while at < bytes.len() {
        let Some(len) = free_at(bytes, at) else {
            return at;
        };
        at += len;
    }
    at
}

/// The walk over what is left of a packet, behind whole fields that writers may write.
fn walk_rest(bytes: &[u8], at: usize) -> Walk
    requires within { at < length bytes.now }
    requires most { length bytes.now ≤ 2 ^ 62 }
    ensures { walk_of result ≡ walk_over (walk_behind at) (drop at bytes.now) }
{
    walk_over(walk_behind(at as u64), &bytes[at..])
}

/// What a walk over the packet says.
#[tactic(auto, using(crate::proofs::CheckLemmas::front_steps))]
#[inline(always)]
fn walk_whole(bytes: &[u8]) -> Result<(), PacketFault>
    requires { length bytes.now ≤ MAX_INPUT }
    ensures { result ≡ answer_of (walk_over packet_start bytes.now) }
{
    let at = whole_front(bytes);
    if at == bytes.len() {
        return Ok(());
    }
    told_by(walk_rest(bytes, at))
}

/// Whether the packet is fields that writers may write, and where it isn't, its first fault.
pub fn check_packet(bytes: &[u8]) -> Result<(), PacketFault>
    requires { length bytes.now ≤ MAX_INPUT }

    // The answer is so by the grammar, and no other is.
    ensures so { IsAnswer bytes.now result }
    ensures only { (answer : Result (Unit {0}) PacketFault) → IsAnswer bytes.now answer → answer ≡ result }

    // It is that of a check over any pieces which the packet is joined from.
    ensures walk { result ≡ answer_of (walk_over packet_start bytes.now) }
{
    walk_whole(bytes)
}

/// Whether what is left of a packet passes, behind whole fields that do. It stays a call, so that what it
/// needs is saved only where it is made.
#[tactic(auto, using(crate::proofs::CheckLemmas::front_steps))]
#[inline(never)]
fn rest_passes(bytes: &[u8], at: usize) -> bool
    requires within { at < length bytes.now }
    requires most { length bytes.now ≤ 2 ^ 62 }
    requires front { IsFront bytes.now at }
    ensures { result ≡ is_accepted bytes.now }
{
    passes(walk_rest(bytes, at))
}

/// Whether the packet is fields that writers may write, of whatever length it is.
#[tactic(auto, using(crate::proofs::CheckLemmas::front_steps))]
pub fn accepts_packet(bytes: &[u8]) -> bool
    requires { length bytes.now ≤ 2 ^ 62 }
    ensures { result ≡ is_accepted bytes.now }
{
    let at = whole_front(bytes);
    if at == bytes.len() {
        return true;
    }
    rest_passes(bytes, at)
}
