//! Making the writers of a table.
ghost use Rattle.std.specs.Prelude.{◌≡◌, ℕ, ◌<◌, ◌≤◌, [], length, Some, slice_get, vec_capacity};
ghost use Rattle.chunk_plain.specs.Laying.{setup_of};
ghost use Rattle.chunk_plain.specs.Setup.{HasProducer, producer_of};
ghost use Rattle.chunk_plain.specs.Views.{newcomer};
ghost use Rattle.chunk_words.specs.Made.{HasWriterSeats};
ghost use Rattle.chunk_words.specs.Sits.{Sits, setup_in, known_by};
ghost use Rattle.thread_writer.specs.declared.writer.TraceWriter.{TraceWriter};
ghost use Rattle.thread_host.specs.Making.{IsNewWriter};

use chunk_plain::ProducerSpec;
use chunk_words::{HostTable, WriterSeat};
use claim_arbiter::Arbiter;
use thread_writer::TraceWriter;
use trace_base::policy::WriterSpec;

/// The writer of a seat.
fn make_writer(
    table: &HostTable,
    seat: WriterSeat,
    spec: WriterSpec,
    producers: &[ProducerSpec],
) -> TraceWriter
    requires sits { Sits table.now seat }
    requires fresh { known_by seat ≡ newcomer }
    requires setup { setup_in table.now ≡ setup_of producers.now (setup_in table.now).writers }
    requires spec { slice_get (setup_in table.now).writers seat.place ≡ Some spec }
    requires producer { HasProducer (setup_in table.now) spec.producer }
    ensures { IsNewWriter table.now seat.place result }
{
    let (first, count) = table.chunks_of(spec.producer);
    let geometry = producers[usize::from(spec.producer) - 1].geometry;
    TraceWriter::make(seat, spec, Arbiter::new(first, count), geometry)
}

/// The writers, each with its seat. There is room for them.
pub fn fill_writers(
    writers: &mut Vec<TraceWriter>,
    table: &HostTable,
    seats: Vec<WriterSeat>,
    specs: &[WriterSpec],
    producers: &[ProducerSpec],
)
    requires none { writers.old.items ≡ [] }
    requires room { length specs.now ≤ vec_capacity writers.old }
    requires seats { HasWriterSeats table.now (length specs.now) seats.items }
    requires setup { setup_in table.now ≡ setup_of producers.now specs.now }
    requires named { (place : ℕ) → place < length specs.now
        → HasProducer (setup_of producers.now specs.now) (producer_of (setup_of producers.now specs.now) place) }
    ensures many { length writers.new.items ≡ length specs.now }
    ensures made { (place : ℕ) (writer : TraceWriter) → slice_get writers.new.items place ≡ Some writer
        → IsNewWriter table.now place writer }
{
    for seat in seats {
        let spec = specs[writers.len()];
        match writers.push(make_writer(table, seat, spec, producers)) {
            Ok(()) => {}
            Err(failed) => {
                let _ = failed.value.give_up();
                unreachable!()
            }
        }
    }
}
