//! The buffers of a service, as they are made.
ghost use Rattle.std.specs.Prelude.{◌≡◌, ℕ, ◌+◌, ◌-◌, ◌<◌, ◌≤◌, length, map, IfOk};
ghost use Rattle.trace_base.specs.declared.limits.TheConstants.{MAX_BUFFERS};
ghost use Rattle.page_geometry.specs.Sizes.{record_size};
ghost use Rattle.chunk_plain.specs.Laying.{setup_of};
ghost use Rattle.chunk_plain.specs.Setup.{size_of, producer_of};
ghost use Rattle.world_model.specs.FirstBuffers.{sequences_from, first_buffers};
ghost use Rattle.trace_buffer.specs.Made.{sequence_of, AreDistinct, AllSmall};
ghost use Rattle.service_core.specs.Agreement.{IsRouted, buffer_of, spec_value};
ghost use Rattle.service_core.specs.Making.{HaveSizes, RecordsFit};

use chunk_plain::ProducerSpec;
use std::alloc::{AllocError, Global};
use trace_base::limits::FIRST_SEQUENCE;
use trace_base::policy::WriterSpec;
use trace_buffer::{BufferSpec, SequenceSpec, TraceBuffer};

/// The sequences of the writers that name the buffer with this number.
fn sequences_for(
    alloc: Global,
    producers: &[ProducerSpec],
    writers: &[WriterSpec],
    buffer: u8,
    size: u32,
) -> Result<Vec<SequenceSpec>, AllocError>
    requires routed { (count : ℕ) × IsRouted (setup_of producers.now writers.now) count }
    requires fits { (place : ℕ) → place < length writers.now → buffer_of (setup_of producers.now writers.now) place ≡ buffer
        → record_size (size_of (setup_of producers.now writers.now) (producer_of (setup_of producers.now writers.now) place)) ≤ size }
    ensures sequences { IfOk result (λ specs. map sequence_of specs.items
        ≡ sequences_from (setup_of producers.now writers.now) buffer 0 writers.now) }
    ensures distinct { IfOk result (λ specs. AreDistinct specs.items) }
    ensures small { IfOk result (λ specs. AllSmall size specs.items) }
{
    let mut specs = Vec::new(alloc);
    for place in 0..writers.len() {
        if writers[place].buffer != buffer {
            continue;
        }
        let producer = &producers[usize::from(writers[place].producer) - 1];
        specs.push(SequenceSpec {
            sequence: place as u32 + FIRST_SEQUENCE,
            payload: producer.geometry.payload_size(),
            from: writers[place].from,
        })?;
    }
    Ok(specs)
}

/// The buffers, each with the sequences of its writers.
pub(crate) fn make_buffers(
    alloc: Global,
    buffers: &[BufferSpec],
    producers: &[ProducerSpec],
    writers: &[WriterSpec],
) -> Result<Vec<TraceBuffer>, AllocError>
    requires buffers { length buffers.now ≤ MAX_BUFFERS }
    requires sizes { HaveSizes buffers.now }
    requires routed { IsRouted (setup_of producers.now writers.now) (length buffers.now) }
    requires fits { RecordsFit (setup_of producers.now writers.now) buffers.now }
    ensures { IfOk result (λ made. made.items ≡ first_buffers (setup_of producers.now writers.now) 1 (map spec_value buffers.now)) }
{
    let mut made = Vec::new(alloc);
    for index in 0..buffers.len() {
        let spec = buffers[index];
        let sequences = sequences_for(alloc, producers, writers, index as u8 + 1, spec.size)?;
        made.push(TraceBuffer::make(alloc, spec, &sequences)?)?;
    }
    Ok(made)
}
