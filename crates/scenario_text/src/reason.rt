//! Why a scenario is refused.

/// What is wrong with a line. The variants stand in the order in which they count on one line,
/// but for the last, which counts where no line has another one.
#[derive(Clone, Copy, Debug, PartialEq, Eq)]
pub enum Reason {
    /// The last line has no line feed.
    UnfinishedLine,
    /// The line up to its FIELDS has none of the forms.
    BadLine,
    /// A number is outside its range, or is 2^64 or more.
    NumberOutOfRange,
    /// A set-up line after another kind of line.
    LateSetUp,
    /// One buffer, producer, writer or clone more than a scenario may have.
    TooMany,
    NoSuchProducer,
    NoSuchBuffer,
    NoSuchWriter,
    /// A record of the writer's would be larger than its buffer.
    ChunkLargerThanBuffer,
    /// A line of a closed producer or of its writers.
    ProducerClosed,
    /// The payload of a line `raw` is longer than one of its writer's chunks has.
    RawTooLong,
    /// A packet is begun where none may be.
    PacketBegun,
    /// No packet is begun where one must be.
    NoPacket,
    /// No nested message is open where one must be.
    NoNesting,
    /// A nested message is open where none may be.
    NestingLeft,
    /// The FIELDS aren't in their grammar, from this column of the line on, counted from 1.
    BadField { column: u32 },
    /// A field at the top level of a packet that is the service's own.
    ReservedField { field: u32 },
    /// More nested messages inside one another than a packet may have.
    TooDeep,
    /// The packet is longer than a packet may be.
    PacketTooLong,
    /// All packets so far are longer than those of a scenario may be.
    TooManyBytes,
    /// A packet isn't ended, and its producer isn't closed. The line is that of its `b`.
    PacketLeft,
}

/// Why a text gives no scenario.
#[derive(Clone, Copy, Debug, PartialEq, Eq)]
pub enum ScenarioFault {
    OutOfMemory,
    /// The first faulty line, counted from 1, and the first reason that holds there.
    Bad { line: u32, reason: Reason },
}
