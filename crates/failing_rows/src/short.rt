//! A sink that takes a few bytes in a call.
ghost use Rattle.std.specs.Prelude.{◌≡◌, ◌<◌};

use byte_io::traits::{Failed, Sink};

/// Hands on to a sink what it is given, at most so many bytes in a call.
#[derive(Drop)]
pub struct ShortSink<O: Sink + Drop> {
    pub inner: O,
    most: usize,
    ghost takes_some: { 0 < most },
}

impl<O: Sink + Drop> ShortSink<O> {
    /// `most` is in bytes.
    pub fn new(inner: O, most: usize) -> ShortSink<O>
        requires { 0 < most }
        ensures { result.inner ≡ inner }
    {
        ShortSink { inner, most }
    }
}

impl<O: Sink + Drop> Sink for ShortSink<O> {
    ghost taken = { λ sink. O.taken sink.inner };

    ghost faults = { λ sink. O.faults sink.inner };

    ghost may_write = { λ sink. O.may_write sink.inner };

    ghost count_fits = { λ sink. O.count_fits sink.inner };

    fn write(&mut self, piece: &[u8]) -> Result<usize, Failed> {
        let most = piece.len().min(self.most);
        self.inner.write(&piece[..most])
    }
}
