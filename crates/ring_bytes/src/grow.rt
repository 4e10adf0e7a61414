//! The bytes of a ring as they grow, which they do within the room that was taken for them.
ghost use Rattle.std.specs.Prelude.{◌≡◌, ℕ, ◌%◌, ◌≤◌, [], take, vec_len, vec_capacity};
ghost use Rattle.ring_bytes.specs.Rows.{IsRow, live_row};

use crate::part::put_rest;
use crate::ring::MAX_RING_SIZE;
use page_geometry::RECORD_UNIT;

/// How many bytes are added at once, where the ring has room for them: so many that records seldom
/// wait for it, and so few that they are still near when a record is put over them.
const STEP: u32 = 16_384;

/// Sees to it that there are bytes up to a place. Those that are new are one dead part.
#[inline]
pub fn reach(bytes: &mut Vec<u8>, reached: u32, end: u32, size: u32) -> u32
    requires whole { vec_len bytes.old ≡ reached }
    requires room { size ≤ vec_capacity bytes.old }
    requires small { size ≤ MAX_RING_SIZE }
    requires within { reached ≤ size }
    requires inside { end ≤ size }
    requires size_units { size % RECORD_UNIT ≡ 0 }
    requires reached_units { reached % RECORD_UNIT ≡ 0 }
    requires end_units { end % RECORD_UNIT ≡ 0 }
    ensures behind { end ≤ result }
    ensures more { reached ≤ result }
    ensures inside { result ≤ size }
    ensures units { result % RECORD_UNIT ≡ 0 }
    ensures whole { vec_len bytes.new ≡ result }
    ensures room { size ≤ vec_capacity bytes.new }
    ensures kept { take reached bytes.new.items ≡ bytes.old.items }
    ensures row { IsRow bytes.new.items reached result }
    ensures none { live_row bytes.new.items reached result ≡ [] }
{
    if end <= reached {
        return reached;
    }
    grow(bytes, reached, size.min(end.max(reached + STEP)))
}

/// Adds a dead part that ends at a place.
#[cold]
#[inline(never)]
fn grow(bytes: &mut Vec<u8>, reached: u32, to: u32) -> u32
    requires whole { vec_len bytes.old ≡ reached }
    requires room { to ≤ vec_capacity bytes.old }
    requires small { to ≤ MAX_RING_SIZE }
    requires within { reached ≤ to }
    requires reached_units { reached % RECORD_UNIT ≡ 0 }
    requires to_units { to % RECORD_UNIT ≡ 0 }
    ensures is { result ≡ to }
    ensures whole { vec_len bytes.new ≡ to }
    ensures room { vec_capacity bytes.old ≤ vec_capacity bytes.new }
    ensures kept { take reached bytes.new.items ≡ bytes.old.items }
    ensures row { IsRow bytes.new.items reached to }
    ensures none { live_row bytes.new.items reached to ≡ [] }
{
    let Ok(()) = bytes.resize(to as usize, 0) else {
        unreachable!()
    };
    put_rest(bytes, reached, to, false);
    to
}
