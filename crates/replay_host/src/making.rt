//! Making what a scenario's set-up lines ask for.
ghost use Rattle.std.specs.Prelude.{◌≡◌, ℕ, ◌<◌, ◌≤◌, List, [], length, map, Some, slice_get, vec_capacity, IfOk};
ghost use Rattle.std.specs.List.{AllByRecursion, AllZip};
ghost use Rattle.trace_base.specs.declared.limits.TheConstants.{MAX_WRITERS};
ghost use Rattle.scenario_text.specs.Limits.{IsBuffer, IsProducer};
ghost use Rattle.scenario_text.specs.Scenario.{IsScenario, parts_of};
ghost use Rattle.chunk_plain.specs.Laying.{setup_of};
ghost use Rattle.chunk_plain.specs.Setup.{HasProducer, producer_of};
ghost use Rattle.replay_model.specs.Played.{IsSpecOf};
ghost use Rattle.replay_model.specs.Flushes.{requests_in};
ghost use Rattle.replay_host.specs.Making.{IsMade, IsNewcomer, buffer_asked};

use crate::flushes::Flushes;
use crate::helper::Collecting;
use crate::host::Host;
use crate::raws::count_raws;
use chunk_plain::{PlainService, PlainTable, PlainWriter, ProducerSpec, Words};
use claim_arbiter::Arbiter;
use page_geometry::Geometry;
use scenario_text::{BufferLine, LineKind, LineList, ProducerLine, Scenario};
use service_core::ServiceCore;
use std::alloc::{AllocError, Global};
use trace_base::limits::BYTES_PER_KB;
use trace_base::policy::WriterSpec;
use trace_buffer::BufferSpec;
use trace_writer::WriterCore;

/// The pages of one producer.
fn producer_spec(line: &ProducerLine) -> ProducerSpec
    requires { IsProducer line.now }
    ensures { IsSpecOf line.now result }
{
    let Ok(geometry) = Geometry::new(line.page_size, line.chunks) else {
        unreachable!()
    };
    ProducerSpec {
        pages: line.pages,
        geometry,
    }
}

/// The producers, each with its pages.
pub fn producer_specs(
    alloc: Global,
    producers: &[ProducerLine],
) -> Result<Vec<ProducerSpec>, AllocError>
    requires { AllByRecursion IsProducer producers.now }
    ensures { IfOk result (λ specs. AllZip IsSpecOf producers.now specs.items) }
{
    let mut specs = Vec::with_capacity(alloc, producers.len())?;
    for producer in producers {
        specs.push(producer_spec(producer))?;
    }
    Ok(specs)
}

/// The buffers, each with its size in bytes.
pub fn buffer_specs(alloc: Global, buffers: &[BufferLine]) -> Result<Vec<BufferSpec>, AllocError>
    requires { AllByRecursion IsBuffer buffers.now }
    ensures { IfOk result (λ specs. specs.items ≡ map buffer_asked buffers.now) }
{
    let mut specs = Vec::with_capacity(alloc, buffers.len())?;
    for buffer in buffers {
        specs.push(BufferSpec {
            size: buffer.kb * BYTES_PER_KB,
            policy: buffer.policy,
        })?;
    }
    Ok(specs)
}

/// How many flush requests the lines make.
pub fn count_requests(lines: &LineList) -> usize
    ensures { result ≡ requests_in lines.now }
{
    // There are no more than can be counted.
    let _many = lines.len();
    let mut count = 0;
    let mut walk = lines.walk();
    'lines: while let Some(line) = walk.next() {
        if let LineKind::Request = line.what {
            count += 1;
        }
    }
    count
}

/// The writer of a seat.
fn make_writer(
    table: &PlainTable,
    seat: PlainWriter,
    spec: WriterSpec,
    producers: &[ProducerSpec],
) -> WriterCore<PlainWriter>
    requires setup { (⟦<PlainTable as Words>⟧.means.setup table.now)
        ≡ setup_of producers.now (⟦<PlainTable as Words>⟧.means.setup table.now).writers }
    requires spec { slice_get (⟦<PlainTable as Words>⟧.means.setup table.now).writers seat.place ≡ Some spec }
    requires producer { HasProducer (⟦<PlainTable as Words>⟧.means.setup table.now) spec.producer }
    ensures { IsNewcomer (⟦<PlainTable as Words>⟧.means.setup table.now) seat.place result }
{
    let (first, count) = table.chunks_of(spec.producer);
    let geometry = producers[usize::from(spec.producer) - 1].geometry;
    WriterCore::make(seat, spec, Arbiter::new(first, count), geometry)
}

/// The writers, each with its seat. There is room for them.
fn fill_writers(
    writers: &mut Vec<WriterCore<PlainWriter>>,
    table: &PlainTable,
    specs: &[WriterSpec],
    producers: &[ProducerSpec],
)
    requires none { writers.old.items ≡ [] }
    requires room { length specs.now ≤ vec_capacity writers.old }
    requires few { length specs.now ≤ MAX_WRITERS }
    requires setup { ⟦<PlainTable as Words>⟧.means.setup table.now ≡ setup_of producers.now specs.now }
    requires named { (place : ℕ) → place < length specs.now
        → HasProducer (setup_of producers.now specs.now) (producer_of (setup_of producers.now specs.now) place) }
    ensures many { length writers.new.items ≡ length specs.now }
    ensures made { (place : ℕ) (core : WriterCore PlainWriter) → slice_get writers.new.items place ≡ Some core
        → IsNewcomer (⟦<PlainTable as Words>⟧.means.setup table.now) place core }
{
    for place in 0..specs.len() {
        let seat = PlainWriter {
            place: place as u16,
        };
        match writers.push(make_writer(table, seat, specs[place], producers)) {
            Ok(()) => {}
            Err(failed) => {
                let _ = failed.value.give_up();
                unreachable!()
            }
        }
    }
}

/// What plays a scenario, with nothing played. All memory that it ever needs is taken here.
pub fn make_host(
    alloc: Global,
    scenario: &Scenario,
) -> Result<Host<PlainTable, PlainWriter, PlainService>, AllocError>
    requires { IsScenario scenario.now }
    ensures { IfOk result (λ host. IsMade ⟦<PlainTable as Words>⟧.means (parts_of scenario.now) host) }
{
    let producers = producer_specs(alloc, &scenario.producers)?;
    let buffers = buffer_specs(alloc, &scenario.buffers)?;
    let (table, _seats, seat) = PlainTable::make(alloc, &producers, &scenario.writers)?;
    let service = ServiceCore::make(alloc, &buffers, &producers, &scenario.writers, seat)?;
    let requests = count_requests(&scenario.lines);
    let commits = count_raws(&scenario.lines);
    let flushes = Flushes::make(alloc, requests, commits, scenario.writers.len())?;
    let specs = scenario.writers.as_slice().to_vec(alloc)?;
    let open_producers = vec![in alloc; true; scenario.producers.len()]?;
    let mut writers = Vec::with_capacity(alloc, specs.len())?;
    fill_writers(&mut writers, &table, &specs, &producers);
    Ok(Host {
        table,
        writers,
        helper: Collecting {
            service,
            producer: 0,
            asks: 0,
        },
        flushes,
        specs,
        open_producers,
    })
}
