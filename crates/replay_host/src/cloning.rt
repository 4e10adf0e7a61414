//! Making the clones that a scenario's lines ask for.
ghost use Rattle.std.specs.Prelude.{◌≡◌, ℕ, ◌-◌, ◌<◌, ◌≤◌, length, map, IfOk};
ghost use Rattle.page_geometry.specs.Sizes.{record_size};
ghost use Rattle.chunk_plain.specs.Laying.{setup_of};
ghost use Rattle.chunk_plain.specs.Setup.{size_of, producer_of};
ghost use Rattle.world_model.specs.FirstBuffers.{sequences_from, first_buffers};
ghost use Rattle.trace_buffer.specs.Made.{sequence_of, AreDistinct, AllSmall};
ghost use Rattle.scenario_text.specs.Scenario.{IsScenario, parts_of};
ghost use Rattle.service_core.specs.Agreement.{IsRouted, buffer_of, spec_value};
ghost use Rattle.service_core.specs.Making.{HaveSizes, RecordsFit};
ghost use Rattle.service_core.specs.Routing.{buffer_at};
ghost use Rattle.replay_model.specs.Clones.{AreMadeFor};

use crate::making::{buffer_specs, producer_specs};
use buffer_clone::BufferClone;
use chunk_plain::ProducerSpec;
use scenario_text::{LineKind, Scenario};
use std::alloc::{AllocError, Global};
use trace_base::limits::FIRST_SEQUENCE;
use trace_base::policy::WriterSpec;
use trace_buffer::{BufferSpec, SequenceSpec};

/// The sequences of the writers that name the buffer with this number, of so many bytes.
fn sequences_into(
    alloc: Global,
    producers: &[ProducerSpec],
    writers: &[WriterSpec],
    buffer: u8,
    size: u32,
) -> Result<Vec<SequenceSpec>, AllocError>
    requires routed { (count : ℕ) × IsRouted (setup_of producers.now writers.now) count }
    requires fits { (place : ℕ) → place < length writers.now → buffer_of (setup_of producers.now writers.now) place ≡ buffer
        → record_size (size_of (setup_of producers.now writers.now) (producer_of (setup_of producers.now writers.now) place)) ≤ size }
    ensures sequences { IfOk result (λ specs. map sequence_of specs.items
        ≡ sequences_from (setup_of producers.now writers.now) buffer 0 writers.now) }
    ensures distinct { IfOk result (λ specs. AreDistinct specs.items) }
    ensures small { IfOk result (λ specs. AllSmall size specs.items) }
{
    let mut specs = Vec::new(alloc);
    for place in 0..writers.len() {
        if writers[place].buffer != buffer {
            continue;
        }
        let producer = &producers[usize::from(writers[place].producer) - 1];
        specs.push(SequenceSpec {
            sequence: place as u32 + FIRST_SEQUENCE,
            payload: producer.geometry.payload_size(),
            from: writers[place].from,
        })?;
    }
    Ok(specs)
}

/// A clone as the buffer with this number is made.
fn make_clone(
    alloc: Global,
    buffers: &[BufferSpec],
    producers: &[ProducerSpec],
    writers: &[WriterSpec],
    buffer: u8,
) -> Result<BufferClone, AllocError>
    requires sizes { HaveSizes buffers.now }
    requires routed { IsRouted (setup_of producers.now writers.now) (length buffers.now) }
    requires fits { RecordsFit (setup_of producers.now writers.now) buffers.now }
    requires least { 1 ≤ buffer }
    requires most { buffer ≤ length buffers.now }
    ensures { IfOk result (λ clone. clone
        ≡ buffer_at (first_buffers (setup_of producers.now writers.now) 1 (map spec_value buffers.now)) (buffer - 1)) }
{
    let spec = buffers[usize::from(buffer) - 1];
    let sequences = sequences_into(alloc, producers, writers, buffer, spec.size)?;
    BufferClone::make(alloc, spec, &sequences)
}

/// A clone for each line that asks for one, in their order, made for its buffer.
pub fn make_clones(alloc: Global, scenario: &Scenario) -> Result<Vec<BufferClone>, AllocError>
    requires { IsScenario scenario.now }
    ensures { IfOk result (λ clones. AreMadeFor (parts_of scenario.now) clones.items) }
{
    let producers = producer_specs(alloc, &scenario.producers)?;
    let buffers = buffer_specs(alloc, &scenario.buffers)?;
    let mut clones = Vec::new(alloc);
    let mut walk = scenario.lines.walk();
    'lines: while let Some(line) = walk.next() {
        if let LineKind::CloneBuffer { buffer } = line.what {
            clones.push(make_clone(alloc, &buffers, &producers, &scenario.writers, buffer)?)?;
        }
    }
    Ok(clones)
}
