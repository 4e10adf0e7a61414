//! Chunks that await patches.
use crate::play::play;
use crate::step::Step::*;
use crate::step::{NONE, Setup, only};
use std::test::Fail;
use trace_base::policy::FullPolicy;
use trace_buffer::{Arrived, Passed, PatchFault};

const RING: Setup = Setup {
    policy: FullPolicy::Ring,
    payload: 1008,
};

/// The last fragment of each chunk is its second one, with its bytes at 6 to 9.
#[test]
fn patches_are_put_into_the_last_fragment(rt: HostRuntime) -> Result<(), Fail> {
    let steps = [
        Patch(0, 1, true, Err(PatchFault::NoChunk)),
        Arrive(0, 2, 4, Arrived::Kept),
        Arrive(1, 2, 0, Arrived::Kept),
        Arrive(2, 2, 4, Arrived::Kept),
        Patch(1, 6, true, Err(PatchFault::NoChunk)),
        Patch(0, 5, true, Err(PatchFault::BadOffset)),
        Patch(0, 7, true, Err(PatchFault::BadOffset)),
        Patch(0, 1, true, Err(PatchFault::BadOffset)),
        Patch(0, 1006, true, Err(PatchFault::BadOffset)),
        Patch(0, u32::MAX, true, Err(PatchFault::BadOffset)),
        Byte(0, 6, 0),
        Record(0, 2, false, true),
        Patch(0, 6, false, Ok(())),
        Record(0, 2, false, true),
        Byte(0, 5, 4),
        Byte(0, 6, 9),
        Byte(0, 9, 6),
        Byte(0, 10, 0),
        Patch(0, 6, true, Ok(())),
        Record(0, 2, false, false),
        Patch(0, 6, true, Err(PatchFault::NoChunk)),
        Part(3, 1, Arrived::Kept),
        Patch(3, 1, true, Err(PatchFault::NoChunk)),
        Close,
        Counts([4, 0, 0, 0, 1, 0]),
        Patch(2, 6, true, Ok(())),
        Counts([4, 0, 0, 0, 1, 0]),
        Chunks(NONE, only(0, 4)),
    ];
    play(&rt, rt.alloc(), RING, &steps)
}

/// A packet begins in the second fragment of chunk 0 and goes on in chunk 1. A read before the patch
/// delivers the packet before it, and stays there though both chunks have come.
#[test]
fn a_read_waits_for_the_patch(rt: HostRuntime) -> Result<(), Fail> {
    let steps = [
        Arrive(0, 2, 6, Arrived::Kept),
        Arrive(1, 1, 1, Arrived::Kept),
        Advance(0, 1, Passed::Delivered),
        Record(0, 2, false, true),
        Record(1, 1, false, false),
        Stands(0, 1, 2),
        Patch(0, 6, true, Ok(())),
        Byte(0, 6, 9),
        Byte(0, 7, 8),
        Byte(0, 8, 7),
        Byte(0, 9, 6),
        Record(0, 2, false, false),
        Record(1, 1, false, false),
        Stands(0, 1, 2),
        Advance(2, 0, Passed::Delivered),
        Stands(2, 0, 2),
        Packets(2, 0, 0),
        Counts([2, 0, 0, 0, 0, 0]),
    ];
    play(&rt, rt.alloc(), RING, &steps)
}

/// Four records fill the buffer, and the fifth overwrites the one that awaits the patch.
#[test]
fn a_patch_to_a_chunk_that_is_gone_is_refused(rt: HostRuntime) -> Result<(), Fail> {
    let steps = [
        Arrive(0, 1, 4, Arrived::Kept),
        Arrive(1, 1, 0, Arrived::Kept),
        Arrive(2, 1, 0, Arrived::Kept),
        Arrive(3, 1, 0, Arrived::Kept),
        Record(0, 1, false, true),
        Arrive(4, 1, 0, Arrived::Kept),
        Patch(0, 1, true, Err(PatchFault::NoChunk)),
        Chunks(only(0, 1), only(1, 5)),
        Counts([5, 0, 1, 0, 0, 0]),
        Close,
        Counts([5, 0, 1, 0, 0, 0]),
    ];
    play(&rt, rt.alloc(), RING, &steps)
}

/// Two chunks of the first sequence await patches, one of which took the place of a part of it, and one
/// of the second, since the other one's last patch has come. Each close counts those of its sequence.
#[test]
fn a_close_counts_what_awaits_a_patch_of_its_sequence(rt: HostRuntime) -> Result<(), Fail> {
    let steps = [
        Part(0, 1, Arrived::Kept),
        Arrive(0, 2, 4, Arrived::Rewritten),
        Arrive(1, 2, 4, Arrived::Kept),
        OfSecond,
        Arrive(0, 2, 4, Arrived::Kept),
        Arrive(1, 2, 4, Arrived::Kept),
        Patch(0, 6, true, Ok(())),
        Patch(1, 6, false, Ok(())),
        OfFirst,
        Close,
        Counts([4, 1, 0, 0, 2, 0]),
        OfSecond,
        Close,
        Counts([4, 1, 0, 0, 3, 0]),
    ];
    play(&rt, rt.alloc(), RING, &steps)
}
