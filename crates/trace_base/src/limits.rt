//! The limits of a scenario, a packet and an input. Each is the greatest allowed value, unless its
//! name says otherwise.

pub const MAX_BUFFERS: usize = 8;

pub const MAX_PRODUCERS: usize = 16;

pub const MAX_WRITERS: usize = 64;

/// Pages of one producer, of which there is at least one.
pub const MAX_PAGES: u8 = 64;

/// A page size is a multiple of this, and at least this.
pub const PAGE_SIZE_UNIT: u32 = 4096;

pub const MAX_PAGE_SIZE: u32 = 65536;

/// Chunks of one page.
pub const MAX_CHUNKS_PER_PAGE: u8 = 14;

/// Buffer sizes are counted in KB of this many bytes.
pub const BYTES_PER_KB: u32 = 1024;

pub const MIN_BUFFER_KB: u32 = 4;

pub const MAX_BUFFER_KB: u32 = 65536;

/// Bytes of one packet's encoding, without its front mark.
pub const MAX_PACKET_LEN: u32 = 1_048_576;

/// The sum of the lengths of all packets of one scenario.
pub const MAX_SCENARIO_PACKET_BYTES: u32 = 268_435_456;

/// Nested messages inside one another.
pub const MAX_NESTING: u8 = 16;

/// Fragments of one chunk.
pub const MAX_FRAGMENTS: u16 = 1023;

/// Nested lengths of one writer whose messages go on.
pub const MAX_OPEN_HOLES: usize = 16;

/// A position is too far ahead where it is at least this many above the least missing one.
pub const IDS_AHEAD: u32 = 1024;

/// Bytes of one input.
pub const MAX_INPUT: usize = 67_108_864;

/// Writers and packets of a generated workload, of each at least one.
pub const MAX_GENERATED_WRITERS: u8 = 64;

pub const MAX_GENERATED_PACKETS: u32 = 100_000;

/// The greatest number of 64 bits: the greatest value of a field, and as many packets as a read
/// without a limit takes at most.
pub const MAX_NUMBER: u64 = 18_446_744_073_709_551_615;

/// The greatest field number of protobuf; the least is 1.
pub const MAX_FIELD: u32 = 536_870_911;

/// Sequence numbers below this are the service's own: writer W has the sequence W + 1.
pub const FIRST_SEQUENCE: u32 = 2;
