//! Writing all of a piece.
ghost use Rattle.std.specs.Prelude.{◌≡◌, OnOk, OnErr};
ghost use Rattle.byte_io.specs.Bytes.{after_told, CountsFaults, TakesPart};

use super::traits::{Failed, Sink};
use thiserror::Error;

/// A sink failed before it took all.
#[derive(Clone, Copy, Debug, PartialEq, Eq, Error)]
#[error("write fault")]
pub struct WriteFault;

/// Writes the whole piece. Mostly one write takes it; that one is no call.
#[inline(always)]
#[tactic(auto, using(crate::proofs::Told::after_told_nothing, crate::proofs::Told::part_none, crate::proofs::Told::part_behind, crate::proofs::Told::all_at_once, crate::proofs::Told::all_behind))]
pub fn put_all<O: Sink>(out: &mut O, piece: &[u8]) -> Result<(), WriteFault>
    requires { O.may_write out.old }
    ensures all { OnOk result (O.taken out.new ≡ after_told (O.taken out.old) piece.now) }
    ensures part { OnErr result (TakesPart (O.taken out.old) (O.taken out.new) piece.now) }
    ensures count { CountsFaults (O.faults out.old) (O.faults out.new) result }
    ensures goes_on { OnOk result (O.may_write out.new) }
{
    if piece.is_empty() {
        return Ok(());
    }
    match out.write(piece) {
        Ok(count) => {
            if count == piece.len() {
                return Ok(());
            }
            put_rest(out, &piece[count..])
        }
        Err(Failed) => Err(WriteFault),
    }
}

/// Writes the whole piece, in as many writes as it takes.
#[inline(never)]
#[tactic(auto, using(crate::proofs::Told::up_to_start, crate::proofs::Told::up_to_more, crate::proofs::Told::up_to_part, crate::proofs::Told::up_to_end))]
fn put_rest<O: Sink>(out: &mut O, piece: &[u8]) -> Result<(), WriteFault>
    requires { O.may_write out.old }
    ensures all { OnOk result (O.taken out.new ≡ after_told (O.taken out.old) piece.now) }
    ensures part { OnErr result (TakesPart (O.taken out.old) (O.taken out.new) piece.now) }
    ensures count { CountsFaults (O.faults out.old) (O.faults out.new) result }
    ensures goes_on { OnOk result (O.may_write out.new) }
{
    let mut rest = piece;
    while !rest.is_empty() {
        match out.write(rest) {
            Ok(count) => rest = &rest[count..],
            Err(Failed) => return Err(WriteFault),
        }
    }
    Ok(())
}
