//! What a configuration asks for.
ghost use Rattle.std.specs.Prelude.{◌≡◌, ◌*◌, map, IfOk};
ghost use Rattle.std.specs.List.{AllZip};
ghost use Rattle.trace_base.specs.declared.limits.TheConstants.{BYTES_PER_KB, MAX_CHUNKS_PER_PAGE};
ghost use Rattle.config_text.specs.Configs.{ConfigOf, parts_of};
ghost use Rattle.config_text.specs.Writing.{IsProducer, IsWritable};
ghost use Rattle.stream_frames.specs.Values.{limits_value};
ghost use Rattle.stream_producer.specs.Setups as setups;
ghost use Rattle.stream_producer.specs.Setups.{IsSpecOf, config_limits};

use arrayvec::ArrayVec;
use chunk_plain::ProducerSpec;
use config_text::{Config, ConfigBuffer, ConfigProducer, ConfigSource};
use page_geometry::Geometry;
use std::alloc::{AllocError, Global};
use stream_frames::FrameLimits;
use trace_base::limits::{BYTES_PER_KB, MAX_CHUNKS_PER_PAGE};
use trace_base::policy::{WriterPolicy, WriterSpec};
use trace_buffer::BufferSpec;

/// How the pages of a producer are cut.
fn geometry_of(producer: &ConfigProducer) -> Geometry
    requires { IsProducer producer.now }
    ensures page_size { result.page_size ≡ producer.now.page_size_kb * BYTES_PER_KB }
    ensures chunks { result.chunks ≡ MAX_CHUNKS_PER_PAGE }
{
    match Geometry::new(producer.page_size_kb * BYTES_PER_KB, MAX_CHUNKS_PER_PAGE) {
        Ok(geometry) => geometry,
        Err(_) => unreachable!(),
    }
}

/// The buffers, each with its size in bytes.
pub(crate) fn buffer_specs(
    alloc: Global,
    buffers: &[ConfigBuffer],
) -> Result<Vec<BufferSpec>, AllocError>
    requires { (config : ConfigOf) × IsWritable config × (config.buffers ≡ buffers.now) }
    ensures { IfOk result (λ specs. specs.items ≡ map setups.buffer_asked buffers.now) }
{
    let mut specs = Vec::with_capacity(alloc, buffers.len())?;
    for buffer in buffers {
        specs.push(BufferSpec {
            size: buffer.size_kb * BYTES_PER_KB,
            policy: buffer.policy,
        })?;
    }
    Ok(specs)
}

/// The producers. No chunk of the table is used, so each has one page.
pub(crate) fn producer_specs(
    alloc: Global,
    producers: &[ConfigProducer],
) -> Result<Vec<ProducerSpec>, AllocError>
    requires { (config : ConfigOf) × IsWritable config × (config.producers ≡ producers.now) }
    ensures { IfOk result (λ specs. AllZip IsSpecOf producers.now specs.items) }
{
    let mut specs = Vec::with_capacity(alloc, producers.len())?;
    for producer in producers {
        specs.push(ProducerSpec {
            pages: 1,
            geometry: geometry_of(producer),
        })?;
    }
    Ok(specs)
}

/// The sources as writers of their buffers.
pub(crate) fn writer_specs(
    alloc: Global,
    sources: &[ConfigSource],
) -> Result<Vec<WriterSpec>, AllocError>
    requires { (config : ConfigOf) × IsWritable config × (config.sources ≡ sources.now) }
    ensures { IfOk result (λ specs. specs.items ≡ map setups.writer_asked sources.now) }
{
    let mut specs = Vec::with_capacity(alloc, sources.len())?;
    for source in sources {
        specs.push(WriterSpec {
            producer: source.producer,
            buffer: source.target_buffer + 1,
            policy: WriterPolicy::Drops,
            from: 0,
        })?;
    }
    Ok(specs)
}

/// What frames may name.
pub(crate) fn frame_limits(config: &Config) -> FrameLimits
    requires { IsWritable (parts_of config.now) }
    ensures { limits_value result ≡ config_limits (parts_of config.now) }
{
    let mut payload_sizes = ArrayVec::new();
    for source in &config.sources {
        let producer = &config.producers[usize::from(source.producer) - 1];
        payload_sizes.push(geometry_of(producer).payload_size());
    }
    FrameLimits {
        buffers: config.buffers.len() as u8,
        payload_sizes,
    }
}
