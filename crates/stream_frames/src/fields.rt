//! Reading the fields of a frame from left to right: a value, and the bytes behind it.
ghost use Rattle.std.specs.Prelude.{◌≡◌, ◌≤◌, option_map};
ghost use Rattle.std.specs.Int.{w32, w64};
ghost use Rattle.commit_body.specs.Patches.{patch_value};
ghost use Rattle.commit_body.specs.declared.body.TheConstants.{MAX_PATCHES};
ghost use Rattle.stream_frames.specs.Decoding as reading;
ghost use Rattle.stream_frames.specs.Values.{patches_value};

use crate::patches::PatchBytes;
use commit_body::{MAX_PATCHES, Patch};

pub(crate) fn byte_at(bytes: &[u8]) -> Option<(u8, &[u8])>
    ensures { option_map (λ found. (found.0, found.1.now)) result ≡ reading.byte_at bytes.now }
{
    match bytes {
        [] => None,
        [byte, rest @ ..] => Some((*byte, rest)),
    }
}

fn u32_at(bytes: &[u8]) -> Option<(u32, &[u8])>
    ensures { option_map (λ found. (found.0, found.1.now)) result ≡ reading.number_at w32 bytes.now }
{
    if bytes.len() < 4 {
        return None;
    }
    let (front, rest) = bytes.split_at(4);
    let number = u32::from_le_bytes([front[0], front[1], front[2], front[3]]);
    Some((number, rest))
}

pub(crate) fn u64_at(bytes: &[u8]) -> Option<(u64, &[u8])>
    ensures { option_map (λ found. (found.0, found.1.now)) result ≡ reading.number_at w64 bytes.now }
{
    if bytes.len() < 8 {
        return None;
    }
    let (front, rest) = bytes.split_at(8);
    let number = u64::from_le_bytes([
        front[0], front[1], front[2], front[3], front[4], front[5], front[6], front[7],
    ]);
    Some((number, rest))
}

fn four_at(bytes: &[u8]) -> Option<([u8; 4], &[u8])>
    ensures { option_map (λ found. (found.0, found.1.now)) result ≡ reading.four_at bytes.now }
{
    if bytes.len() < 4 {
        return None;
    }
    let (front, rest) = bytes.split_at(4);
    Some(([front[0], front[1], front[2], front[3]], rest))
}

#[tactic(auto, unfolding(crate::specs::Decoding::flag_at))]
fn flag_at(bytes: &[u8]) -> Option<(bool, &[u8])>
    ensures { option_map (λ found. (found.0, found.1.now)) result ≡ reading.flag_at bytes.now }
{
    let (byte, rest) = byte_at(bytes)?;
    match byte {
        0 => Some((false, rest)),
        1 => Some((true, rest)),
        _ => None,
    }
}

/// A patch.
#[tactic(auto, unfolding(crate::specs::Decoding::patch_at))]
pub(crate) fn patch_at(bytes: &[u8]) -> Option<(Patch, &[u8])>
    ensures { option_map (λ found. (patch_value found.0, found.1.now)) result ≡ reading.patch_at bytes.now }
{
    let (chunk_id, rest) = u32_at(bytes)?;
    let (offset, rest) = u32_at(rest)?;
    let (bytes, rest) = four_at(rest)?;
    let (last, rest) = flag_at(rest)?;
    Some((
        Patch {
            chunk_id,
            offset,
            bytes,
            last,
        },
        rest,
    ))
}

/// So many patches, each of which is looked at.
fn patches_at(count: u8, bytes: &[u8]) -> Option<(PatchBytes<'_>, &[u8])>
    requires { count ≤ MAX_PATCHES }
    ensures { option_map (λ found. (patches_value found.0, found.1.now)) result ≡ reading.patches_at count bytes.now }
{
    let mut rest = bytes;
    for _ in 0..count {
        let (_patch, behind) = patch_at(rest)?;
        rest = behind;
    }
    Some((PatchBytes { count, bytes }, rest))
}

/// A number of patches, and so many.
#[tactic(auto, unfolding(crate::specs::Decoding::counted_at))]
pub(crate) fn counted_at(bytes: &[u8]) -> Option<(PatchBytes<'_>, &[u8])>
    ensures { option_map (λ found. (patches_value found.0, found.1.now)) result ≡ reading.counted_at bytes.now }
{
    let (count, rest) = byte_at(bytes)?;
    if usize::from(count) > MAX_PATCHES {
        return None;
    }
    patches_at(count, rest)
}
