//! The standard streams as a source and a sink. Over a reader or a writer of std that tells its
//! bytes they tell the same ones; a terminal, a file or a pipe tells none.
ghost use Rattle.std.specs.Prelude.{⊤, ◌≡◌, ℕ, ◌^◌, ◌<◌, List, [], None};
ghost use Rattle.byte_io.specs.Known.{StillTells, taken_in};

use super::traits::{Failed, Sink, Source};
use std::io::{Read, Write};
use std::snapshot::Snapshot;

/// Reads from standard input, or from another reader of std. Each error counts as a fault.
#[derive(Drop)]
pub struct StdSource<R: Read + Drop> {
    reader: R,
    start: Snapshot<R>,
    faults: u64,
    ghost tells: { StillTells (R.remaining start.value) (R.remaining reader) },
    ghost count_fits: { faults < 2 ^ 64 },
}

impl<R: Read + Drop> StdSource<R> {
    ghost use Rattle.byte_io.specs.Standard.{std_source_left, std_source_faults};

    /// It tells the bytes that are left of the reader, where the reader told them.
    pub fn new(reader: R) -> StdSource<R>
        ensures left { std_source_left R.remaining result ≡ R.remaining reader }
        ensures faults { std_source_faults result ≡ 0 }
    {
        let start = Snapshot::of(&reader);
        StdSource {
            reader,
            start,
            faults: 0,
        }
    }
}

impl<R: Read + Drop> Source for StdSource<R> {
    ghost use Rattle.byte_io.specs.Standard.{std_source_left, std_source_faults};

    ghost left = { λ source. std_source_left R.remaining source };

    ghost faults = { λ source. std_source_faults source };

    ghost may_ask = { λ _. ⊤ };

    ghost count_fits = { λ source. source.count_fits };

    #[tactic(auto, using(crate::proofs::Known::tells_consumed, crate::proofs::Known::tells_kept, crate::proofs::Known::gives_consumed, crate::proofs::Known::told_kept, crate::proofs::Known::ends_told))]
    fn read(&mut self, into: &mut [u8]) -> Result<usize, Failed> {
        match self.reader.read(into) {
            Ok(count) => Ok(count),
            Err(_) => {
                self.faults = self.faults.saturating_add(1);
                Err(Failed)
            }
        }
    }
}

/// Writes to standard output or standard error, or to another writer of std that holds no bytes
/// back. Each error counts as a fault, and so does a write that takes none of the bytes.
#[derive(Drop)]
pub struct StdSink<W: Write + Drop> {
    writer: W,
    start: Snapshot<W>,
    faults: u64,
    ghost tells: { StillTells (W.contents start.value) (W.contents writer) },
    ghost count_fits: { faults < 2 ^ 64 },
}

impl<W: Write + Drop> StdSink<W> {
    ghost use Rattle.byte_io.specs.Standard.{std_sink_taken, std_sink_faults};

    /// It tells what the writer holds, where the writer told it.
    pub fn new(writer: W) -> StdSink<W>
        ensures taken { std_sink_taken W.contents result ≡ taken_in (W.contents writer) }
        ensures faults { std_sink_faults result ≡ 0 }
    {
        let start = Snapshot::of(&writer);
        StdSink {
            writer,
            start,
            faults: 0,
        }
    }
}

impl<W: Write + Drop> Sink for StdSink<W> {
    ghost use Rattle.byte_io.specs.Standard.{std_sink_taken, std_sink_faults};

    ghost taken = { λ sink. std_sink_taken W.contents sink };

    ghost faults = { λ sink. std_sink_faults sink };

    ghost may_write = { λ _. ⊤ };

    ghost count_fits = { λ sink. sink.count_fits };

    #[tactic(auto, using(crate::proofs::Known::tells_appended, crate::proofs::Known::tells_kept, crate::proofs::Known::takes_appended, crate::proofs::Known::told_kept))]
    fn write(&mut self, piece: &[u8]) -> Result<usize, Failed> {
        match self.writer.write(piece) {
            Ok(count) if count > 0 || piece.is_empty() => Ok(count),
            _ => {
                self.faults = self.faults.saturating_add(1);
                Err(Failed)
            }
        }
    }
}
