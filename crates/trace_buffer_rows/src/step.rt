//! The steps of a table.
use trace_base::policy::FullPolicy;
use trace_buffer::{Arrived, Passed, PatchFault};

/// What a buffer of 4,096 bytes is made for.
#[derive(Clone, Copy)]
pub struct Setup {
    pub policy: FullPolicy,
    /// The bytes of payload that each chunk has.
    pub payload: u32,
}

/// A call, or a look at what the calls have left. Chunks are named by their positions. A table
/// begins with steps of the first sequence.
#[derive(Clone, Copy)]
pub enum Step {
    /// The steps from here on are of the first sequence, or of the second.
    OfFirst,
    OfSecond,
    /// A complete chunk arrives: its position, how many fragments of four bytes, its flags, and the answer.
    Arrive(u32, u16, u8, Arrived),
    /// The first fragments of a chunk arrive: its position, how many, and the answer.
    Part(u32, u16, Arrived),
    /// A patch of the bytes 9, 8, 7, 6: the chunk, the offset, whether it is the last, and the answer.
    Patch(u32, u32, bool, Result<(), PatchFault>),
    /// A reader came to a place: the chunk, the fragments passed, and what it passed.
    Advance(u64, u16, Passed),
    Close,
    /// Of the positions below 8: which are lost, and which have a record.
    Chunks([bool; 8], [bool; 8]),
    /// What the record of a chunk says: its fragments, whether it is a part, and whether it awaits a patch.
    Record(u64, u16, bool, bool),
    /// A byte of the payload that a record has.
    Byte(u64, usize, u8),
    /// Where the reader stands: the chunk and the fragments passed; and the least position that hasn't arrived.
    Stands(u64, u16, u64),
    /// How many packets were delivered, overwritten and discarded.
    Packets(u64, u64, u64),
    /// What the buffer counts: placed, rewritten, overwritten, discarded, unpatched, padding.
    Counts([u64; 6]),
}

pub const NONE: [bool; 8] = [false; 8];

/// Which of the positions below 8 are in a range.
pub const fn only(from: usize, to: usize) -> [bool; 8] {
    [
        from <= 0 && 0 < to,
        from <= 1 && 1 < to,
        from <= 2 && 2 < to,
        from <= 3 && 3 < to,
        from <= 4 && 4 < to,
        from <= 5 && 5 < to,
        from <= 6 && 6 < to,
        from <= 7 && 7 < to,
    ]
}
