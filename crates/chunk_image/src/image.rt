//! A chunk as the service takes it.
ghost use Rattle.std.specs.Prelude.{◌≡◌, ℕ, ◌≤◌, List, length, IfOk, IfErr, IsOkAnd};
ghost use Rattle.trace_model.specs.Images as model;
ghost use Rattle.trace_model.specs.Fragments.{ReadsAs};
ghost use Rattle.trace_model.specs.Reading.{reading_of};
ghost use Rattle.chunk_image.specs.Readable.{readable_from};
ghost use Rattle.trace_model.specs.Unread.{IsFirstUnread};

use crate::iterate::FragmentIter;
use thiserror::Error;
use trace_base::limits::MAX_INPUT;

/// What a chunk's header says of it, with the sequence of its writer, and its payload.
#[derive(Clone, Copy, Debug, PartialEq, Eq)]
pub struct Image<'a> {
    pub sequence: u32,
    pub chunk_id: u32,
    /// Fragments in the payload.
    pub count: u16,
    pub flags: u8,
    pub payload: &'a [u8],
}

/// Why a payload doesn't read as the image's count of fragments.
#[derive(Clone, Copy, Debug, PartialEq, Eq, Error)]
pub enum ImageFault {
    /// The number, counted from 0, of the first fragment that can't be read; 0 where the count is 0.
    #[error("fragment {fragment} can't be read")]
    BadChunk { fragment: u16 },
}

impl<'a> Image<'a> {
    ghost use Rattle.chunk_image.specs.Values.{reading_told, unread_number};

    /// The fragments of the payload, `count` of them.
    pub fn fragments(&self) -> Result<FragmentIter<'a>, ImageFault>
        requires { length self.now.payload.now ≤ MAX_INPUT }

        // The model's reading of the payload, with its first bad fragment.
        ensures reading { reading_told result ≡ reading_of self.now.count self.now.payload.now }

        // Ok comes exactly where the payload reads as `count` fragments, and gives them.
        ensures found { IfOk result (ReadsAs self.now.payload.now) }
        ensures count { IfOk result (λ fragments. length fragments ≡ self.now.count) }
        ensures every { (fragments : List model.Fragment) → ReadsAs self.now.payload.now fragments
            → length fragments ≡ self.now.count → IsOkAnd result (λ found. found ≡ fragments) }

        // Err carries the first fragment that can't be read.
        ensures first { IfErr result (λ fault. IsFirstUnread self.now.count self.now.payload.now (unread_number fault)) }
    {
        let fragments = FragmentIter::new(self.payload, self.count);
        let readable = readable_count(self.payload, self.count);

        // An image without fragments has a bad first one.
        if readable < usize::from(self.count).max(1) {
            return Err(ImageFault::BadChunk {
                fragment: readable as u16,
            });
        }
        Ok(fragments)
    }
}

/// How many fragments of the payload can be read, up to `count`.
fn readable_count(payload: &[u8], count: u16) -> usize
    requires { length payload.now ≤ MAX_INPUT }
    ensures { result ≡ length (readable_from count 0 payload.now) }
{
    FragmentIter::new(payload, count).count()
}
