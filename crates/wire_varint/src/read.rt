//! Reading a number from the front of some bytes.
ghost use Rattle.std.specs.Prelude.{◌≡◌, ℕ, ◌+◌, ◌*◌, ◌^◌, ◌<◌, ◌≤◌, ◌↔◌, List, ◌++◌, length, take, drop, slice_index, All, IfOk, OnErr, IsErrOf};
ghost use Rattle.wire_varint.specs.Reading.{IsVarint, NoVarintInFront, IsShort, IsOver64};

use thiserror::Error;

/// Nine bytes hold all but one of 64 bits.
const TENTH_BYTE_MAX: u8 = 1;

/// Why no varint stands in front.
#[derive(Clone, Copy, Debug, PartialEq, Eq, Error)]
pub enum VarintFault {
    /// The bytes end inside a varint.
    #[error("the bytes end inside a varint")]
    Short,
    /// The tenth byte is above 1, so the number passes 64 bits.
    #[error("the varint passes 64 bits")]
    Over64,
}

/// Reads the varint in front of `bytes`, the shortest of its number or not, and answers the number
/// and how many bytes it has.
#[tactic(auto, using(crate::proofs::Scanning::reading_steps))]
#[inline(always)]
pub fn get_varint(bytes: &[u8]) -> Result<(u64, usize), VarintFault>
    ensures within { IfOk result (λ found. (1 ≤ found.1) × (found.1 ≤ length bytes.now)) }
    ensures found { IfOk result (λ found. IsVarint (take found.1 bytes.now) found.0) }
    ensures every { (front rest : List ℕ) (n : ℕ)
        → IsVarint front n → bytes.now ≡ front ++ rest → result ≡ Ok (n, length front) }

    ensures none { OnErr result (NoVarintInFront bytes.now) }
    ensures short { IsErrOf result VarintFault.Short ↔ IsShort bytes.now }
    ensures over { IsErrOf result VarintFault.Over64 ↔ IsOver64 bytes.now }
{
    match bytes {
        [only, ..] if *only < 128 => Ok((u64::from(*only), 1)),
        [first, last, ..] if *last < 128 => {
            Ok((u64::from(*first % 128) + 128 * u64::from(*last), 2))
        }
        // The answer is taken apart, so that only this way pays for the room it is handed back in.
        _ => match get_long(bytes) {
            Ok(found) => Ok(found),
            Err(fault) => Err(fault),
        },
    }
}

/// `get_varint` without its short cuts for one byte and two.
#[tactic(auto, using(crate::proofs::Scanning::reading_steps))]
#[inline(never)]
fn get_long(bytes: &[u8]) -> Result<(u64, usize), VarintFault>
    ensures within { IfOk result (λ found. (1 ≤ found.1) × (found.1 ≤ length bytes.now)) }
    ensures found { IfOk result (λ found. IsVarint (take found.1 bytes.now) found.0) }
    ensures none { OnErr result (NoVarintInFront bytes.now) }
    ensures short { IsErrOf result VarintFault.Short ↔ IsShort bytes.now }
    ensures over { IsErrOf result VarintFault.Over64 ↔ IsOver64 bytes.now }
{
    let mut value = 0;
    let mut scale = 1;
    for (at, byte) in bytes.iter().enumerate() {
        if at == 9 && *byte > TENTH_BYTE_MAX {
            return Err(VarintFault::Over64);
        }
        value += scale * u64::from(*byte % 128);
        if *byte < 128 {
            return Ok((value, at + 1));
        }
        scale *= 128;
    }
    Err(VarintFault::Short)
}
