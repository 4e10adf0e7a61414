//! The next link of a row: a packet, what there is of one, a gap, or the end of the read.
ghost use Rattle.std.specs.Prelude.{◌≡◌, ◌^◌, ◌<◌, ◌≤◌, ◌&&◌, length, not, true, false, if◌then◌else◌};
ghost use Rattle.trace_model.specs.Buffers.{Buffer};
ghost use Rattle.sequence_reader.specs.Spots.{AreBounds, IsSpot, IsHeld, reach_of};
ghost use Rattle.sequence_reader.specs.Steps.{IsPieceAt};
ghost use Rattle.sequence_reader.specs.Links.{Finds, IsWalked, Judges, passed_by};

use crate::bools::{both, either};
use crate::deliver::accepts_pieces;
use crate::ends::Why;
use crate::held::Held;
use crate::spot::{Bounds, Spot};
use crate::step::{Piece, Step, look_at, look_in};
use packet_check::accepts_packet;
use trace_buffer::{Passed, TraceBuffer};

/// What ends a chain of fragments.
#[derive(Clone, Copy, Debug, PartialEq, Eq)]
pub enum Fate {
    /// Its last fragment.
    Whole,
    /// A drop mark.
    Marked,
    /// A chunk that was lost.
    IntoLost,
    /// A chunk that never came, or one that doesn't continue it.
    CutOff,
    /// The stop place.
    Open { why: Why },
}

/// Fragments joined over their flags.
#[derive(Clone, Copy, Debug, PartialEq, Eq)]
pub struct Chain {
    pub at: Spot,
    /// Its start was before.
    pub headless: bool,
    pub awaits: bool,
    /// Its length in bytes.
    pub len: u64,
    pub next: Spot,
    /// It runs on behind what was met of it; then its fate isn't known yet.
    pub goes_on: bool,
    pub fate: Fate,
}

/// What a read does next.
#[derive(Clone, Copy, Debug, PartialEq, Eq)]
pub enum Found<'a> {
    Ends {
        why: Why,
    },
    /// It passes something that isn't delivered.
    Passes {
        passed: Passed,
        next: Spot,
    },
    /// It delivers a packet of so many bytes, or ends at its limit.
    Delivers {
        first: Piece<'a>,
        len: u64,
        next: Spot,
    },
}

/// What a read does at a spot, whose chunk it holds.
pub fn next_link(buffer: &TraceBuffer, bounds: Bounds, spot: Spot, held: Held) -> Found<'_>
    requires bounds { AreBounds buffer.now bounds }
    requires spot { IsSpot buffer.now bounds spot }
    requires held { IsHeld buffer.now bounds.sequence held }
    requires here { held.chunk_id ≡ spot.chunk_id }
    ensures finds { Finds buffer.now bounds spot result }
{
    match look_in(buffer, bounds, spot, held) {
        Step::Fragment { piece } => {
            if both(piece.runs_on, !piece.dropped) {
                let chain = follow_begun(buffer, bounds, spot, piece);
                return found_of(chain, piece, judged_long(buffer, bounds, chain, piece));
            }
            let chain = begun(spot, piece);
            found_of(chain, piece, judged(chain, piece))
        }
        Step::Gap { lost: _ } => Found::Passes {
            passed: Passed::Nothing,
            next: Spot::at_start(spot.chunk_id + 1),
        },
        Step::Stop { why, may: _ } => Found::Ends { why },
    }
}

/// Follows a packet from a fragment that isn't its last one to what ends it. It is a function of its
/// own so that what goes through memory for the call is put there only where the call is made.
#[inline(always)]
fn follow_begun(buffer: &TraceBuffer, bounds: Bounds, spot: Spot, first: Piece<'_>) -> Chain
    requires bounds { AreBounds buffer.now bounds }
    requires first { IsPieceAt buffer.now bounds spot first }
    ensures chain { IsWalked buffer.now bounds result }
    ensures at { result.at ≡ spot }
    ensures ended { result.goes_on ≡ false }
{
    follow_on(buffer, bounds, begun(spot, first))
}

/// The same behind what was met of it. It stays a call: few packets run on, and the chain of one that
/// doesn't stays out of memory.
#[inline(never)]
fn follow_on(buffer: &TraceBuffer, bounds: Bounds, chain: Chain) -> Chain
    requires bounds { AreBounds buffer.now bounds }
    requires chain { IsWalked buffer.now bounds chain }
    ensures chain { IsWalked buffer.now bounds result }
    ensures at { result.at ≡ chain.at }
    ensures ended { result.goes_on ≡ false }
{
    let mut chain = chain;
    while chain.goes_on {
        chain = go_on(buffer, bounds, chain);
    }
    chain
}

/// The chain of one fragment.
fn begun(spot: Spot, first: Piece<'_>) -> Chain
    ensures chain { (buffer : Buffer) (bounds : Bounds) → IsPieceAt buffer bounds spot first.entry → IsWalked buffer bounds result }
    ensures at { result.at ≡ spot }
    ensures on { result.goes_on ≡ (first.entry.runs_on && not first.entry.dropped) }
{
    Chain {
        at: spot,
        headless: first.headless,
        awaits: first.awaits,
        len: first.bytes.len() as u64,
        next: first.behind,
        goes_on: both(first.runs_on, !first.dropped),
        fate: end_of(first.dropped),
    }
}

/// What ends the chain of a last fragment.
fn end_of(dropped: bool) -> Fate
    ensures { result ≡ (if dropped then Fate.Marked else Fate.Whole) }
{
    if dropped {
        return Fate::Marked;
    }
    Fate::Whole
}

/// What ends a chain that runs into the stop place.
fn end_at_stop(why: Why, may: bool) -> Fate
    ensures { result ≡ (if may then Fate.Open why else Fate.CutOff) }
{
    if may {
        return Fate::Open { why };
    }
    Fate::CutOff
}

/// What ends a chain that runs into a gap.
fn end_at_gap(lost: bool) -> Fate
    ensures { result ≡ (if lost then Fate.IntoLost else Fate.CutOff) }
{
    if lost {
        return Fate::IntoLost;
    }
    Fate::CutOff
}

/// The chain with what stands behind it.
fn go_on(buffer: &TraceBuffer, bounds: Bounds, chain: Chain) -> Chain
    requires bounds { AreBounds buffer.now bounds }
    requires chain { IsWalked buffer.now bounds chain }
    requires on { chain.goes_on ≡ true }
    ensures chain { IsWalked buffer.now bounds result }
    ensures at { result.at ≡ chain.at }
    ensures further { result.goes_on ≡ true → reach_of chain.next < reach_of result.next }
{
    match look_at(buffer, bounds, chain.next) {
        Step::Stop { why, may } => ended(chain, end_at_stop(why, may)),
        Step::Gap { lost } => ended(chain, end_at_gap(lost)),
        Step::Fragment { piece } => {
            if !piece.headless {
                return ended(chain, Fate::CutOff);
            }
            Chain {
                awaits: either(chain.awaits, piece.awaits),
                len: chain.len + piece.bytes.len() as u64,
                next: piece.behind,
                goes_on: both(piece.runs_on, !piece.dropped),
                fate: end_of(piece.dropped),
                ..chain
            }
        }
    }
}

fn ended(chain: Chain, fate: Fate) -> Chain
    ensures { result ≡ record chain { goes_on = false; fate = fate } }
{
    Chain {
        goes_on: false,
        fate,
        ..chain
    }
}

/// What the packet check says of a chain of this one fragment, where it would be delivered.
#[tactic(auto, using(crate::proofs::FoundLemmas::judge_steps))]
#[inline(always)]
fn judged(chain: Chain, first: Piece<'_>) -> bool
    requires few { length first.bytes.now ≤ 2 ^ 62 }
    ensures { (buffer : Buffer) (bounds : Bounds) → IsPieceAt buffer bounds chain.at first.entry
        → (first.entry.runs_on && not first.entry.dropped) ≡ false → Judges buffer bounds chain result }
{
    match chain.fate {
        Fate::Whole if !chain.headless && !chain.awaits => accepts_packet(first.bytes),
        _ => false,
    }
}

/// The same of a chain of several.
#[tactic(auto, using(crate::proofs::FoundLemmas::judge_steps))]
fn judged_long(buffer: &TraceBuffer, bounds: Bounds, chain: Chain, first: Piece<'_>) -> bool
    requires bounds { AreBounds buffer.now bounds }
    requires chain { IsWalked buffer.now bounds chain }
    requires ended { chain.goes_on ≡ false }
    requires first { IsPieceAt buffer.now bounds chain.at first }
    ensures { Judges buffer.now bounds chain result }
{
    match chain.fate {
        Fate::Whole if !chain.headless && !chain.awaits => {
            accepts_pieces(buffer, bounds, chain.at, first)
        }
        _ => false,
    }
}

/// What a read does at a chain, which begins with this fragment. It is delivered only if it is
/// accepted.
fn found_of(chain: Chain, first: Piece<'_>, accepted: bool) -> Found<'_>
    requires { chain.goes_on ≡ false }
    ensures { (buffer : Buffer) (bounds : Bounds) → IsWalked buffer bounds chain → IsPieceAt buffer bounds chain.at first.entry
        → Judges buffer bounds chain accepted → Finds buffer bounds chain.at result }
{
    let next = chain.next;
    match chain.fate {
        Fate::Open { why } => Found::Ends { why },
        Fate::Whole if accepted && !chain.headless && !chain.awaits => Found::Delivers {
            first,
            len: chain.len,
            next,
        },
        fate => Found::Passes {
            passed: passed_by(fate, chain.headless),
            next,
        },
    }
}

/// As what a chain that isn't delivered is passed. Whether a lost one was overwritten or discarded is
/// said by the buffer's policy.
fn passed_by(fate: Fate, headless: bool) -> Passed
    ensures { result ≡ passed_by fate headless }
{
    if headless {
        return Passed::Nothing;
    }
    match fate {
        Fate::Marked => Passed::Dropped,
        Fate::IntoLost => Passed::Overwritten,
        _ => Passed::Cut,
    }
}
