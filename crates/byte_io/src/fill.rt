//! Reading all that a source has.
ghost use Rattle.std.specs.Prelude.{◌≡◌, ℕ, ◌+◌, ◌<◌, ◌≤◌, List, [], length, vec_len, OnOk, IfOk, IfSome, IsErrOf};
ghost use Rattle.byte_io.specs.Bytes.{Faulted, GivesAtMost};

use super::traits::{Failed, Source};
use std::alloc::Global;
use thiserror::Error;

// How many bytes are asked for at once.
const PIECE: usize = 65_536;

/// Why not all could be read.
#[derive(Clone, Copy, Debug, PartialEq, Eq, Error)]
pub enum FillFault {
    #[error("out of memory")]
    OutOfMemory,
    #[error("read fault")]
    ReadFault,
    /// More bytes came than the limit allows.
    #[error("input too long")]
    TooLong,
}

/// Reads up to the end of the source, which may have at most `limit` bytes. Where it has more,
/// it is read up to the first byte too many.
#[tactic(auto, using(crate::proofs::Told::before_told_again, crate::proofs::Told::gives_at_most, crate::proofs::Told::gives_more, crate::proofs::Told::longer_told, crate::proofs::Told::all_came))]
pub fn fill_all<S: Source>(alloc: Global, src: &mut S, limit: usize) -> Result<Vec<u8>, FillFault>
    requires limit { limit < usize.MAX }
    requires may { S.may_ask src.old }
    ensures all { IfOk result (λ bytes. IfSome (S.left src.old) (λ left. bytes.items ≡ left)) }
    ensures end { OnOk result (IfSome (S.left src.new) (λ left. left ≡ [])) }
    ensures within { IfOk result (λ bytes. vec_len bytes ≤ limit) }
    ensures steady { OnOk result (S.faults src.new ≡ S.faults src.old) }

    // A read fault has its cause in the source, and comes before a byte too many.
    ensures read_fault { IsErrOf result FillFault.ReadFault → Faulted (S.faults src.old) (S.faults src.new) }
    ensures read_within { IsErrOf result FillFault.ReadFault → GivesAtMost limit (S.left src.old) (S.left src.new) }
    ensures other_fault { S.faults src.old < S.faults src.new → IsErrOf result FillFault.ReadFault }
    ensures later { S.faults src.old ≤ S.faults src.new }

    // At most one byte too many is taken.
    ensures too_long { IsErrOf result FillFault.TooLong → IfSome (S.left src.old) (λ left. limit < length left) }
    ensures taken { GivesAtMost (limit + 1) (S.left src.old) (S.left src.new) }
{
    let mut bytes = Vec::new(alloc);
    let mut piece = [0u8; PIECE];
    'pieces: while bytes.len() <= limit {
        let most = PIECE.min(limit - bytes.len() + 1);
        match src.read(&mut piece[..most]) {
            Ok(0) => return Ok(bytes),
            Ok(count) => {
                if bytes.extend_from_slice(&piece[..count]).is_err() {
                    return Err(FillFault::OutOfMemory);
                }
            }
            Err(Failed) => return Err(FillFault::ReadFault),
        }
    }
    Err(FillFault::TooLong)
}
