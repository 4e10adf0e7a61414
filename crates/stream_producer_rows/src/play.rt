//! A stream that is played in pieces of one size.
ghost use Rattle.std.specs.Prelude.{◌<◌, ◌≤◌, length, IfOk};
ghost use Rattle.trace_base.specs.declared.limits.TheConstants.{MAX_INPUT};
ghost use Rattle.config_text.specs.Configs.{parts_of};
ghost use Rattle.config_text.specs.Writing.{IsWritable};

use byte_io::memory::MemSink;
use config_text::{Config, read_config};
use std::alloc::Global;
use std::test::Fail;
use stream_producer::{StreamDone, StreamFault, StreamProducer};

/// What the sink took, and how the stream ended.
#[derive(Drop)]
pub struct Played {
    pub sink: MemSink,
    pub end: Result<StreamDone, StreamFault>,
    /// How many bytes had come with the piece that was answered with a fault; of `finish` none is.
    pub fed: usize,
}

/// The configuration that a text says.
pub fn config_of(alloc: Global, text: &[u8]) -> Result<Config, Fail>
    requires { length text.now ≤ MAX_INPUT }
    ensures { IfOk result (λ config. IsWritable (parts_of config)) }
{
    match read_config(alloc, text) {
        Ok(config) => Ok(config),
        Err(_) => Err("a text that isn't read".into()),
    }
}

/// Feeds a stream in pieces of one size, the last one maybe shorter, and finishes it.
pub fn play(alloc: Global, config: &Config, stream: &[u8], size: usize) -> Result<Played, Fail>
    requires config { IsWritable (parts_of config.now) }
    requires size { 0 < size }
{
    let mut sink = MemSink::with_room(alloc, 1_000_000)?;
    let mut producer = StreamProducer::make(alloc, config)?;
    let mut fed = 0;
    while fed < stream.len() {
        let end = stream.len().min(fed.saturating_add(size));
        let piece = &stream[fed..end];
        fed = end;
        if let Err(fault) = producer.feed(piece, &mut sink) {
            let end = Err(fault);
            return Ok(Played { sink, end, fed });
        }
    }
    let end = producer.finish(&mut sink);
    Ok(Played { sink, end, fed })
}
