//! Parts of chunks whose writers hold them.
use crate::play::play;
use crate::step::Step::*;
use crate::step::{NONE, Setup, only};
use std::test::Fail;
use trace_base::policy::FullPolicy;
use trace_buffer::{Arrived, Passed};

const RING: Setup = Setup {
    policy: FullPolicy::Ring,
    payload: 1008,
};

#[test]
fn a_part_is_there_until_the_whole_comes(rt: HostRuntime) -> Result<(), Fail> {
    let steps = [
        Part(0, 0, Arrived::BadChunk { fragment: 0 }),
        Part(0, 900, Arrived::BadChunk { fragment: 201 }),
        Arrive(0, 900, 0, Arrived::BadChunk { fragment: 201 }),
        Part(0, 2, Arrived::Kept),
        Record(0, 2, true, false),
        Part(0, 2, Arrived::Duplicate),
        Part(0, 1, Arrived::Duplicate),
        Part(0, 3, Arrived::Rewritten),
        Record(0, 3, true, false),
        Advance(0, 3, Passed::Delivered),
        Part(0, 3, Arrived::Duplicate),
        Stands(0, 3, 0),
        // All of it was read, so the reader stands behind it.
        Arrive(0, 3, 0, Arrived::Rewritten),
        Stands(1, 0, 1),
        Record(0, 3, false, false),
        Arrive(0, 3, 0, Arrived::Duplicate),
        Part(0, 5, Arrived::Duplicate),
        Chunks(NONE, only(0, 1)),
        Counts([1, 2, 0, 0, 0, 0]),
    ];
    play(&rt, rt.alloc(), RING, &steps)
}

/// The reader has the first packet of the part. The whole chunk comes in its place, and the second
/// packet alone is left to be read.
#[test]
fn what_was_read_of_a_part_is_not_read_again(rt: HostRuntime) -> Result<(), Fail> {
    let steps = [
        Part(0, 1, Arrived::Kept),
        Advance(0, 1, Passed::Delivered),
        Part(0, 1, Arrived::Duplicate),
        Stands(0, 1, 0),
        Arrive(0, 2, 0, Arrived::Rewritten),
        Record(0, 2, false, false),
        Stands(0, 1, 1),
        Packets(1, 0, 0),
        Counts([1, 1, 0, 0, 0, 0]),
        Advance(1, 0, Passed::Delivered),
        Arrive(0, 2, 0, Arrived::Duplicate),
        Stands(1, 0, 1),
        Packets(2, 0, 0),
    ];
    play(&rt, rt.alloc(), RING, &steps)
}

/// One record fills the buffer. The part is overwritten once its packet was read, and the whole
/// chunk comes into a new place: again the second packet alone is left, and nothing is lost.
#[test]
fn what_was_read_of_a_part_that_is_gone_is_not_read_again(rt: HostRuntime) -> Result<(), Fail> {
    let setup = Setup {
        policy: FullPolicy::Ring,
        payload: 4080,
    };
    let steps = [
        Part(0, 1, Arrived::Kept),
        Advance(0, 1, Passed::Delivered),
        OfSecond,
        Arrive(0, 1, 0, Arrived::Kept),
        Advance(1, 0, Passed::Delivered),
        OfFirst,
        Chunks(NONE, NONE),
        Part(0, 1, Arrived::Duplicate),
        Arrive(0, 2, 0, Arrived::Kept),
        Record(0, 2, false, false),
        Stands(0, 1, 1),
        Packets(1, 0, 0),
        Counts([3, 0, 0, 0, 0, 0]),
        OfSecond,
        Chunks(only(0, 1), NONE),
        Packets(1, 0, 0),
    ];
    play(&rt, rt.alloc(), setup, &steps)
}

#[test]
fn a_position_is_taken_up_to_1023_ahead(rt: HostRuntime) -> Result<(), Fail> {
    let steps = [
        Arrive(1023, 1, 0, Arrived::Kept),
        Arrive(1024, 1, 0, Arrived::TooFar),
        Part(1024, 1, Arrived::TooFar),
        Stands(0, 0, 0),
        Arrive(0, 1, 0, Arrived::Kept),
        Part(1024, 1, Arrived::Kept),
        Part(1025, 1, Arrived::TooFar),
        Arrive(1024, 1, 0, Arrived::Rewritten),
        Arrive(1025, 1, 0, Arrived::TooFar),
        Stands(0, 0, 1),
        Counts([3, 1, 0, 0, 0, 0]),
    ];
    play(&rt, rt.alloc(), RING, &steps)
}

/// Four records fill the buffer. While its sequence is open a part is lost without a loss, since its
/// chunk still comes; once it is closed the part is all that there is.
#[test]
fn a_part_is_final_once_its_sequence_is_closed(rt: HostRuntime) -> Result<(), Fail> {
    let steps = [
        Part(1, 2, Arrived::Kept),
        Arrive(0, 1, 0, Arrived::Kept),
        OfSecond,
        Arrive(0, 1, 0, Arrived::Kept),
        Arrive(1, 1, 0, Arrived::Kept),
        Arrive(2, 1, 0, Arrived::Kept),
        OfFirst,
        Chunks(NONE, only(0, 1)),
        Packets(0, 0, 0),
        // The part comes once more, over chunk 0.
        Part(1, 2, Arrived::Kept),
        Chunks(only(0, 1), only(1, 2)),
        Packets(0, 1, 0),
        Close,
        Chunks(only(0, 1), only(1, 2)),
        OfSecond,
        Advance(3, 0, Passed::Delivered),
        Arrive(3, 1, 0, Arrived::Kept),
        Arrive(4, 1, 0, Arrived::Kept),
        Arrive(5, 1, 0, Arrived::Kept),
        Counts([9, 0, 1, 0, 0, 0]),
        Arrive(6, 1, 0, Arrived::Kept),
        Counts([10, 0, 2, 0, 0, 0]),
        OfFirst,
        Chunks(only(0, 2), NONE),
        Packets(0, 3, 0),
    ];
    play(&rt, rt.alloc(), RING, &steps)
}
