//! One fragment: its size as a varint of one to four bytes, and then so many bytes.
ghost use Rattle.std.specs.Prelude.{◌≡◌, ℕ, ◌+◌, ◌*◌, ◌<◌, ◌≤◌, length, IfSome};
ghost use Rattle.std.specs.Option.{option_map};
ghost use Rattle.trace_model.specs.Reading.{size_of, fragment_of};
ghost use Rattle.chunk_image.specs.Values.{fragment_value, size_value};

use trace_base::limits::MAX_INPUT;
use wire_varint::get_varint;

/// The longest size that a reader takes, in bytes. A writer's sizes are all of this length.
pub const MAX_SIZE_WIDTH: usize = 4;

/// The size of a fragment whose rest its writer couldn't write. It has all that follows in the
/// payload.
pub const DROP_SIZE: u32 = 0x0FFF_FFFF;

/// What the four bytes of a writer's size below 128 are as one number, without its seven low bits: each
/// byte but the last one says that another follows.
const SHORT_REST: u32 = 1 + (1 << 8) + (1 << 16);

/// A part of a packet.
#[derive(Clone, Copy, Debug, PartialEq, Eq)]
pub struct Fragment<'a> {
    pub bytes: &'a [u8],
    /// The size is the drop mark: the writer couldn't write the rest of the packet.
    pub dropped: bool,
    /// The place of the first byte in the payload, behind the size.
    pub offset: u32,
}

/// The size in front of `bytes`, and how many bytes it has. A writer's size of a short fragment has a
/// case of its own, of one load and one comparison: where the next size stands hangs on the load
/// alone, so that a walk over many short fragments waits for little else.
#[tactic(auto, using(crate::proofs::SizeLemmas::size_short))]
fn read_size(bytes: &[u8]) -> Option<(usize, usize)>
    ensures value { option_map size_value result ≡ size_of MAX_SIZE_WIDTH bytes.now }
    ensures within { IfSome result (λ size. (1 ≤ size.1) × (size.1 ≤ length bytes.now)) }
{
    if let Some(four) = bytes.first_chunk::<4>() {
        let word = u32::from_le_bytes(*four);
        if word / 128 == SHORT_REST {
            return Some(((word % 128) as usize, 4));
        }
    }
    read_any_size(bytes)
}

/// The same of every size.
#[tactic(auto, using(crate::proofs::SizeLemmas::size_found, crate::proofs::SizeLemmas::size_long, crate::proofs::SizeLemmas::size_none))]
fn read_any_size(bytes: &[u8]) -> Option<(usize, usize)>
    ensures value { option_map size_value result ≡ size_of MAX_SIZE_WIDTH bytes.now }
    ensures within { IfSome result (λ size. (1 ≤ size.1) × (size.1 ≤ length bytes.now)) }
{
    match get_varint(bytes) {
        Ok((size, width)) => {
            if width <= MAX_SIZE_WIDTH {
                Some((size as usize, width))
            } else {
                None
            }
        }
        Err(_) => None,
    }
}

/// The fragment in front of `bytes`, which stand from the place `at` on in a payload. The drop mark
/// is read only where it is the `last` one.
#[inline]
pub fn read_fragment(bytes: &[u8], at: u32, last: bool) -> Option<Fragment<'_>>
    requires { at + length bytes.now ≤ MAX_INPUT }
    ensures value { option_map fragment_value result ≡ fragment_of last at bytes.now (size_of MAX_SIZE_WIDTH bytes.now) }
    ensures within { IfSome result (λ fragment. (at < fragment.offset)
        × (fragment.offset + length fragment.bytes.now ≤ at + length bytes.now)) }
{
    let (size, width) = read_size(bytes)?;
    let content = &bytes[width..];
    let offset = at + width as u32;
    if size == DROP_SIZE as usize {
        return if last {
            Some(Fragment {
                bytes: content,
                dropped: true,
                offset,
            })
        } else {
            None
        };
    }
    if size > content.len() {
        return None;
    }
    Some(Fragment {
        bytes: &content[..size],
        dropped: false,
        offset,
    })
}
