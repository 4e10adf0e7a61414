//! The fragments of a payload, one after another.
ghost use Rattle.std.specs.Prelude.{◌≡◌, max, ◌<◌, ◌≤◌, length};
ghost use Rattle.std.specs.Iterator.{YieldsFirstBy, item_count};
ghost use Rattle.trace_model.specs.Fragments.{ReadsAs};
ghost use Rattle.chunk_image.specs.Values.{fragment_value};
ghost use Rattle.chunk_image.specs.Readable.{readable_from};
ghost use Rattle.trace_model.specs.Unread.{IsFirstUnread};

use crate::read::{Fragment, read_fragment};
use std::marker::Model;
use trace_base::limits::MAX_INPUT;

/// The fragments that an image still has. Contracts see it as the list of them.
#[derive(Debug, Drop)]
pub struct FragmentIter<'a> {
    rest: &'a [u8],
    /// The place of `rest` in the payload.
    at: u32,
    left: u16,
}

impl<'a> Model for FragmentIter<'a> {
    ghost use Rattle.std.specs.Prelude.{◌+◌, ◌≤◌, List, length};
    ghost use Rattle.trace_base.specs.declared.limits.TheConstants.{MAX_INPUT};
    ghost use Rattle.trace_model.specs.Images.{Fragment};
    ghost use Rattle.chunk_image.specs.Readable.{readable_from};

    ghost Value = { List Fragment };

    ghost view = { λ fragments. readable_from fragments.left fragments.at fragments.rest.now };

    ghost invariant = { λ fragments. fragments.at + length fragments.rest.now ≤ MAX_INPUT };
}

impl<'a> FragmentIter<'a> {
    /// The fragments of the payload, at most `count`, up to the first that can't be read.
    #[tactic(auto, using(crate::proofs::ReadableLemmas::at_most))]
    pub(crate) fn new(payload: &'a [u8], count: u16) -> FragmentIter<'a>
        requires { length payload.now ≤ MAX_INPUT }
        ensures fragments { result ≡ readable_from count 0 payload.now }
        ensures most { length result ≤ count }

        // Where all can be read, and there is one at least, the payload reads as them.
        ensures whole { max count 1 ≤ length result → ReadsAs payload.now result }
        ensures part { length result < max count 1 → IsFirstUnread count payload.now (length result) }
    {
        FragmentIter {
            rest: payload,
            at: 0,
            left: count,
        }
    }
}

impl<'a> Iterator for FragmentIter<'a> {
    type Item = Fragment<'a>;

    ghost next_gives = { YieldsFirstBy fragment_value (λ fragments. fragments) };

    ghost remaining = { item_count (λ fragments. fragments) };

    #[tactic(auto, using(crate::proofs::NextLemmas::next_steps))]
    #[inline(always)]
    fn next(&mut self) -> Option<Fragment<'a>> {
        if self.left == 0 {
            return None;
        }
        let fragment = read_fragment(self.rest, self.at, self.left == 1)?;

        // Where the next fragment stands hangs on its size alone, so that little is waited for.
        let width = (fragment.offset - self.at) as usize;
        self.rest = &self.rest[width + fragment.bytes.len()..];
        self.at = fragment.offset + fragment.bytes.len() as u32;
        self.left -= 1;
        Some(fragment)
    }
}
