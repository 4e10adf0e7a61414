//! Walks along a row of parts, from header to header.
ghost use Rattle.std.specs.Prelude.{◌≡◌, ℕ, ◌+◌, ◌<◌, ◌≤◌, ◌++◌, nat_lt, true, length, find};
ghost use Rattle.std.specs.Option.{option_map};
ghost use Rattle.ring_bytes.specs.Header as spec;
ghost use Rattle.ring_bytes.specs.Header.{header_at};
ghost use Rattle.ring_bytes.specs.Rows.{IsRow, IsPast, live_row};
ghost use Rattle.ring_bytes.specs.Value.{Stored};
ghost use Rattle.ring_bytes.specs.Walked.{first_place};

use crate::header::{is_live, read_header};
use crate::part::size_of_record;
use crate::ring::MAX_RING_SIZE;

/// The first live record of a row that begins before a limit.
pub fn first_live(bytes: &[u8], at: u32, end: u32, limit: u32) -> Option<u32>
    requires row { IsRow bytes.now at end }
    requires room { end ≤ length bytes.now }
    requires small { end ≤ MAX_RING_SIZE }
    requires limit { limit ≤ end }
    ensures { result ≡ option_map (λ (stored : Stored). stored.at)
        (find (λ (stored : Stored). nat_lt stored.at limit) (live_row bytes.now at end)) }
{
    let mut at = at;
    while at < limit {
        let header = read_header(bytes, at);
        if is_live(header) {
            return Some(at);
        }
        at += size_of_record(header.len);
    }
    None
}

/// The first part of a row that begins at a limit or behind it, where no live record begins before.
pub fn first_behind(bytes: &[u8], at: u32, end: u32, limit: u32) -> u32
    requires row { IsRow bytes.now at end }
    requires room { end ≤ length bytes.now }
    requires small { end ≤ MAX_RING_SIZE }
    requires limit { limit ≤ end }
    requires free { find (λ (stored : Stored). nat_lt stored.at limit) (live_row bytes.now at end) ≡ None }
    ensures behind { limit ≤ result }
    ensures inside { result ≤ end }
    ensures row { IsRow bytes.now result end }
    ensures live { live_row bytes.now result end ≡ live_row bytes.now at end }
{
    let mut at = at;
    while at < limit {
        at += size_of_record(read_header(bytes, at).len);
    }
    at
}

/// The first part of a row that is live, or that begins at a limit or behind it. No header from the
/// limit on is read.
pub fn skip_dead(bytes: &[u8], at: u32, end: u32, limit: u32) -> u32
    requires row { IsRow bytes.now at end }
    requires room { end ≤ length bytes.now }
    requires small { end ≤ MAX_RING_SIZE }
    requires limit { limit ≤ end }
    ensures past { IsPast bytes.now at result end }
    ensures live { result < limit → spec.is_live (header_at bytes.now result) ≡ true }
{
    let mut at = at;
    while at < limit {
        let header = read_header(bytes, at);
        if is_live(header) {
            return at;
        }
        at += size_of_record(header.len);
    }
    at
}

/// The first live record of two rows, one behind the other.
pub fn first_of_two(bytes: &[u8], at: u32, end: u32, second: u32, last: u32) -> Option<u32>
    requires row { IsRow bytes.now at end }
    requires room { end ≤ length bytes.now }
    requires small { end ≤ MAX_RING_SIZE }
    requires second_row { IsRow bytes.now second last }
    requires second_room { last ≤ length bytes.now }
    requires second_small { last ≤ MAX_RING_SIZE }
    ensures { result ≡ first_place (live_row bytes.now at end ++ live_row bytes.now second last) }
{
    match first_live(bytes, at, end, end) {
        Some(found) => Some(found),
        None => first_live(bytes, second, last, last),
    }
}
