//! Buffers that are full: what is overwritten, and what is discarded.
use crate::play::play;
use crate::step::Step::*;
use crate::step::{NONE, Setup, only};
use std::test::Fail;
use trace_base::policy::FullPolicy;
use trace_buffer::{Arrived, Passed};

/// Four records fill the buffer.
#[test]
fn a_ring_overwrites_exactly_what_is_met(rt: HostRuntime) -> Result<(), Fail> {
    let setup = Setup {
        policy: FullPolicy::Ring,
        payload: 1008,
    };
    let steps = [
        Arrive(0, 3, 0, Arrived::Kept),
        Arrive(1, 3, 0, Arrived::Kept),
        Arrive(2, 3, 0, Arrived::Kept),
        Arrive(3, 3, 0, Arrived::Kept),
        Chunks(NONE, only(0, 4)),
        Counts([4, 0, 0, 0, 0, 0]),
        Advance(0, 1, Passed::Delivered),
        Arrive(3, 3, 0, Arrived::Duplicate),
        // Two of the three packets of chunk 0 are lost.
        Arrive(4, 3, 1, Arrived::Kept),
        Chunks(only(0, 1), only(1, 5)),
        Packets(1, 2, 0),
        Counts([5, 0, 1, 0, 0, 0]),
        Arrive(0, 3, 0, Arrived::Duplicate),
        // What was passed is overwritten without a loss.
        Advance(4, 1, Passed::Nothing),
        Arrive(5, 3, 1, Arrived::Kept),
        Arrive(6, 3, 1, Arrived::Kept),
        Arrive(7, 3, 1, Arrived::Kept),
        Chunks(only(0, 4), only(4, 8)),
        Packets(1, 2, 0),
        // Of chunk 4 the first fragment was passed, so two packets begin behind it.
        Arrive(8, 1, 1, Arrived::Kept),
        Chunks(only(0, 5), only(5, 8)),
        Packets(1, 4, 0),
        // The first fragment of chunk 5 goes on with a packet that begins before it.
        Arrive(9, 1, 0, Arrived::Kept),
        Packets(1, 6, 0),
        Counts([10, 0, 3, 0, 0, 0]),
    ];
    play(&rt, rt.alloc(), setup, &steps)
}

/// Thirteen records leave 144 bytes, which are no place for another.
#[test]
fn a_ring_wraps_over_what_was_read(rt: HostRuntime) -> Result<(), Fail> {
    let setup = Setup {
        policy: FullPolicy::Ring,
        payload: 284,
    };
    let steps = [
        Arrive(0, 1, 0, Arrived::Kept),
        Advance(1, 0, Passed::Delivered),
        Arrive(1, 1, 0, Arrived::Kept),
        Arrive(2, 1, 0, Arrived::Kept),
        Arrive(3, 1, 0, Arrived::Kept),
        Arrive(4, 1, 0, Arrived::Kept),
        Arrive(5, 1, 0, Arrived::Kept),
        Arrive(6, 1, 0, Arrived::Kept),
        Arrive(7, 1, 0, Arrived::Kept),
        Arrive(8, 1, 0, Arrived::Kept),
        Arrive(9, 1, 0, Arrived::Kept),
        Arrive(10, 1, 0, Arrived::Kept),
        Arrive(11, 1, 0, Arrived::Kept),
        Arrive(12, 1, 0, Arrived::Kept),
        Chunks(NONE, only(0, 8)),
        Counts([13, 0, 0, 0, 0, 0]),
        // The padding and the record at the beginning meet the record that was read alone.
        Arrive(13, 1, 0, Arrived::Kept),
        Chunks(only(0, 1), only(1, 8)),
        Counts([14, 0, 0, 0, 0, 144]),
        Packets(1, 0, 0),
        Arrive(14, 1, 0, Arrived::Kept),
        Chunks(only(0, 2), only(2, 8)),
        Counts([15, 0, 1, 0, 0, 144]),
        Packets(1, 1, 0),
    ];
    play(&rt, rt.alloc(), setup, &steps)
}

/// One record fills the buffer to its last byte.
#[test]
fn a_ring_of_one_record_keeps_the_last(rt: HostRuntime) -> Result<(), Fail> {
    let setup = Setup {
        policy: FullPolicy::Ring,
        payload: 4080,
    };
    let steps = [
        Arrive(0, 1, 0, Arrived::Kept),
        Chunks(NONE, only(0, 1)),
        Arrive(1, 1, 0, Arrived::Kept),
        Chunks(only(0, 1), only(1, 2)),
        Counts([2, 0, 1, 0, 0, 0]),
        Packets(0, 1, 0),
    ];
    play(&rt, rt.alloc(), setup, &steps)
}

/// The fourteenth record would go to the beginning, where an unread one lies. It is refused, and so
/// is the next, though all was read then.
#[test]
fn a_discard_buffer_stays_shut_after_a_read(rt: HostRuntime) -> Result<(), Fail> {
    let setup = Setup {
        policy: FullPolicy::Discard,
        payload: 284,
    };
    let steps = [
        Arrive(0, 1, 0, Arrived::Kept),
        Arrive(1, 1, 0, Arrived::Kept),
        Arrive(2, 1, 0, Arrived::Kept),
        Arrive(3, 1, 0, Arrived::Kept),
        Arrive(4, 1, 0, Arrived::Kept),
        Arrive(5, 1, 0, Arrived::Kept),
        Arrive(6, 1, 0, Arrived::Kept),
        Arrive(7, 1, 0, Arrived::Kept),
        Arrive(8, 1, 0, Arrived::Kept),
        Arrive(9, 1, 0, Arrived::Kept),
        Arrive(10, 1, 0, Arrived::Kept),
        Arrive(11, 1, 0, Arrived::Kept),
        Arrive(12, 1, 0, Arrived::Kept),
        Arrive(13, 1, 0, Arrived::Discarded),
        Packets(0, 0, 1),
        Stands(0, 0, 14),
        // A read passes the thirteen packets, and the chunk that got no place.
        Advance(13, 0, Passed::Delivered),
        Advance(14, 0, Passed::Nothing),
        Arrive(14, 1, 0, Arrived::Discarded),
        Chunks(NONE, only(0, 8)),
        Counts([13, 0, 0, 2, 0, 0]),
        Packets(1, 0, 2),
        Stands(14, 0, 15),
    ];
    play(&rt, rt.alloc(), setup, &steps)
}

/// A part that is refused loses nothing, but shuts the buffer. The part of a chunk that has its
/// place is still replaced in it.
#[test]
fn a_discard_buffer_refuses_a_part(rt: HostRuntime) -> Result<(), Fail> {
    let setup = Setup {
        policy: FullPolicy::Discard,
        payload: 1008,
    };
    let steps = [
        Arrive(0, 3, 0, Arrived::Kept),
        Arrive(1, 3, 0, Arrived::Kept),
        Arrive(2, 3, 0, Arrived::Kept),
        Part(3, 1, Arrived::Kept),
        Advance(1, 0, Passed::Delivered),
        // What was read may go.
        Arrive(4, 3, 0, Arrived::Kept),
        Chunks(only(0, 1), only(1, 5)),
        Part(5, 1, Arrived::Discarded),
        Chunks(only(0, 1), only(1, 5)),
        Packets(1, 0, 0),
        Stands(1, 0, 3),
        Counts([5, 0, 0, 0, 0, 0]),
        Advance(5, 0, Passed::Delivered),
        Arrive(5, 2, 0, Arrived::Discarded),
        Arrive(3, 2, 0, Arrived::Rewritten),
        Chunks(
            [true, false, false, false, false, true, false, false],
            only(1, 5),
        ),
        Packets(2, 0, 2),
        // The first fragment of chunk 6 goes on with a packet that begins before it.
        Arrive(6, 2, 1, Arrived::Discarded),
        Counts([5, 1, 0, 2, 0, 0]),
        Arrive(7, 2, 0, Arrived::Discarded),
        Chunks(
            [true, false, false, false, false, true, true, true],
            only(1, 5),
        ),
        Packets(2, 0, 5),
        // So are those of the other sequence.
        OfSecond,
        Arrive(0, 1, 0, Arrived::Discarded),
        Packets(0, 0, 1),
    ];
    play(&rt, rt.alloc(), setup, &steps)
}
