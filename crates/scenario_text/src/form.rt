//! The forms of a line, by its words alone.

use trace_base::numeral::Numeral;
use trace_base::policy::FullPolicy;

/// A writer asks its helper at most this many times for one chunk.
pub const MAX_TRIES: u32 = 1_000_000;

/// The id of a writer's first chunk is at most this.
pub const MAX_CHUNK_ID: u32 = 4_294_967_295;

/// A scenario has at most this many lines `k`.
pub const MAX_CLONES: u8 = 4;

/// A line up to its FIELDS, before anything is known of what its numbers name.
#[derive(Clone, Copy, Debug, PartialEq, Eq)]
pub enum Form {
    /// `buffer KB ring`, `buffer KB discard`
    Buffer {
        kb: Numeral,
        policy: FullPolicy,
    },
    /// `producer PAGES PAGE_SIZE CHUNKS`
    Producer {
        pages: Numeral,
        page_size: Numeral,
        chunks: Numeral,
    },
    /// `writer PRODUCER BUFFER drop`, `writer PRODUCER BUFFER stall`, `writer PRODUCER BUFFER
    /// stall:N`, and each of these with ` from ID` behind it
    Writer {
        producer: Numeral,
        buffer: Numeral,
        policy: NamedPolicy,
        from: Option<Numeral>,
    },
    OfWriter {
        writer: Numeral,
        step: WriterStep,
    },
    OfProducer {
        producer: Numeral,
        step: ProducerStep,
    },
    /// `r B`, `r B N`
    Read {
        buffer: Numeral,
        limit: Option<Numeral>,
    },
    /// `q`
    Request,
    /// `k B`
    CloneBuffer {
        buffer: Numeral,
    },
    /// `raw W ID COUNT FLAGS B x'HEX'`, and the same with a patch behind it
    Raw {
        raw: NamedRaw,
    },
}

/// A chunk as a line `raw` names it. The bytes of its payload are read where they are played.
#[derive(Clone, Copy, Debug, PartialEq, Eq)]
pub struct NamedRaw {
    pub writer: Numeral,
    pub chunk_id: Numeral,
    pub count: Numeral,
    pub flags: Numeral,
    pub buffer: Numeral,
    /// How many bytes the payload has.
    pub len: usize,
    pub patch: Option<NamedPatch>,
}

/// ` PID OFFSET x'HEX' more`, ` PID OFFSET x'HEX' last`
#[derive(Clone, Copy, Debug, PartialEq, Eq)]
pub struct NamedPatch {
    pub chunk_id: Numeral,
    pub offset: Numeral,
    pub bytes: [u8; 4],
    pub last: bool,
}

/// What a writer does without a free chunk, as its line names it.
#[derive(Clone, Copy, Debug, PartialEq, Eq)]
pub enum NamedPolicy {
    /// `drop`
    Drops,
    /// `stall`
    Stalls,
    /// `stall:N`
    StallsThenDrops { tries: Numeral },
}

/// What a line has its writer do.
#[derive(Clone, Copy, Debug, PartialEq, Eq)]
pub enum WriterStep {
    /// `p W`, `p W FIELDS`
    Packet { has_fields: bool },
    /// `b W`
    Begin,
    /// `a W FIELDS`
    Add,
    /// `n W FIELD`
    Nest { field: Numeral },
    /// `u W`
    Unnest,
    /// `e W`
    End,
    /// `f W`
    Flush,
}

/// What a line has the service do with a producer.
#[derive(Clone, Copy, Debug, PartialEq, Eq)]
pub enum ProducerStep {
    /// `c P`
    Collect,
    /// `s P`
    Scrape,
    /// `x P`
    Close,
}
