//! The packet check of a packet that comes in pieces.
ghost use Rattle.std.specs.Prelude.{◌≡◌, ◌+◌, ◌^◌, ◌<◌, ◌≤◌, length, take, drop};
ghost use Rattle.packet_check.specs.Answers.{answer_of};
ghost use Rattle.packet_check.specs.Values.{walk_of, part_of, IsPart};
ghost use Rattle.packet_check.specs.declared.walk.Part.TheVariants as parts;
ghost use Rattle.trace_model.specs.Walks as model;

use crate::fault::PacketFault;
use crate::field::{field_at, head_at};
use crate::walk::{Part, Walk, content_left, field_ended, step, walk_behind, walk_to};
use std::marker::Model;
use trace_base::limits::MAX_INPUT;

/// The walk over the tag and the length of a content from a place on, and how many bytes it took: both, or
/// the first byte.
fn take_head(walk: Walk, bytes: &[u8], at: usize) -> (Walk, usize)
    requires between { walk.part ≡ parts.Between }
    requires within { at < length bytes.now }
    requires room { walk.at + length bytes.now ≤ at + 2 ^ 63 }
    ensures walk { walk_of result.0 ≡ model.walk_over (walk_of walk) (take result.1 (drop at bytes.now)) }
    ensures part { IsPart result.0.part }
    ensures at { result.0.at ≡ walk.at + result.1 }
    ensures some { 1 ≤ result.1 }
    ensures within { at + result.1 ≤ length bytes.now }
{
    match head_at(bytes, at) {
        Some(head) => {
            let behind = Walk {
                at: walk.at + head.width as u64,
                start: walk.at,
                number: head.number,
                part: Part::Between,
            };
            (content_left(head.size, behind), head.width)
        }
        None => (step(walk, bytes[at]), 1),
    }
}

/// The walk over a field from a place on, and how many bytes it took: the whole field, or what there is of
/// its beginning.
#[inline(always)]
fn take_field(walk: Walk, bytes: &[u8], at: usize) -> (Walk, usize)
    requires between { walk.part ≡ parts.Between }
    requires within { at < length bytes.now }
    requires room { walk.at + length bytes.now ≤ at + 2 ^ 63 }
    ensures walk { walk_of result.0 ≡ model.walk_over (walk_of walk) (take result.1 (drop at bytes.now)) }
    ensures part { IsPart result.0.part }
    ensures at { result.0.at ≡ walk.at + result.1 }
    ensures some { 1 ≤ result.1 }
    ensures within { at + result.1 ≤ length bytes.now }
{
    match field_at(bytes, at) {
        Some(field) => {
            let behind = Walk {
                at: walk.at + field.len as u64,
                start: walk.at,
                number: field.number,
                part: Part::Between,
            };
            (field_ended(behind), field.len)
        }
        None => take_head(walk, bytes, at),
    }
}

/// The walk over as much of a content as there is, and how much that was.
#[inline(always)]
fn take_content(left: u64, walk: Walk, bytes: &[u8], at: usize) -> (Walk, usize)
    requires content { walk.part ≡ parts.InContent left }
    requires some { 1 ≤ left }
    requires within { at < length bytes.now }
    requires room { walk.at + length bytes.now ≤ at + 2 ^ 63 }
    ensures walk { walk_of result.0 ≡ model.walk_over (walk_of walk) (take result.1 (drop at bytes.now)) }
    ensures part { IsPart result.0.part }
    ensures at { result.0.at ≡ walk.at + result.1 }
    ensures some { 1 ≤ result.1 }
    ensures within { at + result.1 ≤ length bytes.now }
{
    let there = bytes.len() - at;
    if left < there as u64 {
        let taken = left as usize;
        return (
            content_left(0, walk_to(walk, walk.at + taken as u64)),
            taken,
        );
    }
    let behind = walk_to(walk, walk.at + there as u64);
    (content_left(left - there as u64, behind), there)
}

/// The walk over some bytes from a place on, one at least, and how many.
#[inline(always)]
fn take_in(walk: Walk, bytes: &[u8], at: usize) -> (Walk, usize)
    requires part { IsPart walk.part }
    requires within { at < length bytes.now }
    requires room { walk.at + length bytes.now ≤ at + 2 ^ 63 }
    ensures walk { walk_of result.0 ≡ model.walk_over (walk_of walk) (take result.1 (drop at bytes.now)) }
    ensures part { IsPart result.0.part }
    ensures at { result.0.at ≡ walk.at + result.1 }
    ensures some { 1 ≤ result.1 }
    ensures within { at + result.1 ≤ length bytes.now }
{
    match walk.part {
        Part::Between => take_field(walk, bytes, at),
        Part::InContent { left } => take_content(left, walk, bytes, at),
        Part::InVarint { .. } => (step(walk, bytes[at]), 1),
        Part::Unfit => {
            let taken = bytes.len() - at;
            (walk_to(walk, walk.at + taken as u64), taken)
        }
        Part::Refused => {
            let taken = bytes.len() - at;
            (walk_to(walk, walk.at + taken as u64), taken)
        }
    }
}

/// The walk over a piece.
#[tactic(auto, using(crate::proofs::CheckLemmas::piece_steps))]
pub(crate) fn walk_over(walk: Walk, piece: &[u8]) -> Walk
    requires part { IsPart walk.part }
    requires room { walk.at + length piece.now ≤ 2 ^ 63 }
    ensures walk { walk_of result ≡ model.walk_over (walk_of walk) piece.now }
    ensures part { IsPart result.part }
    ensures at { result.at ≡ walk.at + length piece.now }
{
    let mut there = walk;
    let mut at = 0;
    while at < piece.len() {
        let (next, taken) = take_in(there, piece, at);
        there = next;
        at += taken;
    }
    there
}

/// What the walk says of the bytes that it came over.
pub(crate) fn told_by(walk: Walk) -> Result<(), PacketFault>
    requires few { walk.start < 2 ^ 32 }
    ensures { result ≡ answer_of (walk_of walk) }
{
    match walk.part {
        Part::Between => Ok(()),
        Part::Refused => Err(PacketFault::ReservedField {
            number: walk.number,
        }),
        Part::InVarint { .. } | Part::InContent { .. } | Part::Unfit => {
            Err(PacketFault::Malformed {
                offset: walk.start as u32,
            })
        }
    }
}

/// Whether the bytes that a walk came over are whole fields that writers may write.
pub(crate) fn passes(walk: Walk) -> bool
    ensures { result ≡ model.is_between (part_of walk.part) }
{
    match walk.part {
        Part::Between => true,
        Part::InVarint { .. } | Part::InContent { .. } | Part::Unfit | Part::Refused => false,
    }
}

/// The check of a packet that comes in pieces. Contracts see it as the walk over the pieces so far.
#[derive(Debug, Drop)]
pub struct PacketCheck {
    walk: Walk,
}

impl Model for PacketCheck {
    ghost use Rattle.packet_check.specs.Values.{walk_of, IsCheck};
    ghost use Rattle.trace_model.specs.Walks as model;

    ghost Value = { model.Walk };

    ghost view = { λ check. walk_of check.walk };

    ghost invariant = { λ check. IsCheck check.walk };
}

impl PacketCheck {
    ghost use Rattle.std.specs.Prelude.{◌≡◌, ◌+◌, ◌≤◌, length};
    ghost use Rattle.packet_check.specs.Answers.{answer_of};
    ghost use Rattle.trace_model.specs.Walks.{packet_start, walk_over};

    /// The check at a packet's beginning.
    pub fn new() -> PacketCheck
        ensures { result ≡ packet_start }
    {
        PacketCheck {
            walk: walk_behind(0),
        }
    }

    /// Goes on with the packet's next piece, of whatever length.
    #[tactic(auto, using(crate::proofs::RiseLemmas::placed_steps))]
    pub fn feed(&mut self, piece: &[u8])
        requires { self.old.at + length piece.now ≤ MAX_INPUT }
        ensures walk { self.new ≡ walk_over self.old piece.now }
        ensures counts { self.new.at ≡ self.old.at + length piece.now }
    {
        self.walk = walk_over(self.walk, piece);
    }

    /// What is so of the packet that ends here: `check_packet` answers the same of its pieces joined.
    pub fn end(self) -> Result<(), PacketFault>
        ensures { result ≡ answer_of self }
    {
        told_by(self.walk)
    }
}

/// Whether a packet that comes in pieces passes, without its fault: for packets of any length. Contracts
/// see it as the walk over the pieces so far.
#[derive(Debug, Drop)]
pub struct AcceptCheck {
    walk: Walk,
}

impl Model for AcceptCheck {
    ghost use Rattle.packet_check.specs.Values.{walk_of, IsPart};
    ghost use Rattle.trace_model.specs.Walks as model;

    ghost Value = { model.Walk };

    ghost view = { λ check. walk_of check.walk };

    ghost invariant = { λ check. IsPart check.walk.part };
}

impl AcceptCheck {
    ghost use Rattle.std.specs.Prelude.{◌≡◌, ◌+◌, ◌^◌, ◌≤◌, length};
    ghost use Rattle.trace_model.specs.Walks.{packet_start, walk_over, is_between};

    /// The check at a packet's beginning.
    pub fn new() -> AcceptCheck
        ensures { result ≡ packet_start }
    {
        AcceptCheck {
            walk: walk_behind(0),
        }
    }

    /// Goes on with the packet's next piece, of whatever length.
    pub fn feed(&mut self, piece: &[u8])
        requires { self.old.at + length piece.now ≤ 2 ^ 63 }
        ensures walk { self.new ≡ walk_over self.old piece.now }
        ensures counts { self.new.at ≡ self.old.at + length piece.now }
    {
        self.walk = walk_over(self.walk, piece);
    }

    /// Whether the packet that ends here passes: `accepts_packet` says the same of its pieces joined.
    pub fn accepts(&self) -> bool
        ensures { result ≡ is_between self.now.part }
    {
        passes(self.walk)
    }
}
