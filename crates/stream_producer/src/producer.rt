//! A stream producer, and how it is made.
ghost use Rattle.std.specs.Prelude.{IfOk};
ghost use Rattle.config_text.specs.Configs.{parts_of};
ghost use Rattle.config_text.specs.Writing.{IsWritable};

use crate::counting::{NO_CHUNKS, NO_PACKETS};
use crate::making::{buffer_specs, frame_limits, producer_specs, writer_specs};
use crate::player::Player;
use arrayvec::ArrayVec;
use chunk_plain::{PlainService, PlainTable, Words};
use config_text::Config;
use loss_report::SequenceCounts;
use service_core::ServiceCore;
use std::alloc::{AllocError, Global};
use stream_frames::FrameReader;
use trace_base::limits::MAX_PAGE_SIZE;
use trace_buffer::BufferCounts;

/// What a stream leaves for its report: sequences are those of the sources in their order.
#[derive(Debug, Drop)]
pub struct StreamDone {
    pub buffers: Vec<BufferCounts>,
    pub sequences: Vec<SequenceCounts>,
    pub commits: u64,
    /// Of the commits, those that named another buffer than that of their sequence, came twice, were too far
    /// ahead, or couldn't be read.
    pub refused: u64,
}

/// A stream that is read, what plays its frames, and the room for its counts.
#[derive(Drop)]
pub struct StreamCore<T, S> {
    pub(crate) reader: FrameReader,
    pub(crate) player: Player<T, S>,
    pub(crate) done: StreamDone,
}

/// A producer without shared memory.
pub type StreamProducer = StreamCore<PlainTable, PlainService>;

impl StreamCore<PlainTable, PlainService> {
    ghost use Rattle.stream_producer.specs.Feeding.{IsFeeding, IsMadeFor};

    /// A producer at the beginning of a stream. All memory that it ever needs is taken here.
    pub fn make(alloc: Global, config: &Config) -> Result<StreamProducer, AllocError>
        requires { IsWritable (parts_of config.now) }
        ensures feeding { IfOk result (λ producer. IsFeeding ⟦<PlainTable as Words>⟧.means producer) }
        ensures made { IfOk result (λ producer. IsMadeFor ⟦<PlainTable as Words>⟧.means (parts_of config.now) producer) }
    {
        let buffers = buffer_specs(alloc, &config.buffers)?;
        let producers = producer_specs(alloc, &config.producers)?;
        let writers = writer_specs(alloc, &config.sources)?;
        let (table, _seats, seat) = PlainTable::make(alloc, &producers, &writers)?;
        let service = ServiceCore::make(alloc, &buffers, &producers, &writers, seat)?;
        Ok(StreamCore {
            reader: FrameReader::make(alloc, frame_limits(config))?,
            player: Player {
                table,
                service,
                payload: Vec::with_capacity(alloc, MAX_PAGE_SIZE as usize)?,
                patches: ArrayVec::new(),
                commits: 0,
                refused: 0,
            },
            done: StreamDone {
                buffers: vec![in alloc; NO_CHUNKS; config.buffers.len()]?,
                sequences: vec![in alloc; NO_PACKETS; config.sources.len()]?,
                commits: 0,
                refused: 0,
            },
        })
    }
}
