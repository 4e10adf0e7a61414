//! Plays the steps of a table over a new buffer, and compares what each leaves.
ghost use Rattle.std.specs.Prelude.{◌≡◌, ◌≤◌, true, IfOk};
ghost use Rattle.trace_model.specs.Sequences.{is_known};
ghost use Rattle.trace_buffer.specs.Ready.{Takes, StayReady};

use crate::step::{Setup, Step};
use chunk_image::Image;
use commit_body::Patch;
use page_geometry::MAX_FLAGS;
use std::alloc::{AllocError, Global};
use std::process::Abort;
use std::test::Fail;
use trace_base::ids::id_of;
use trace_base::limits::MAX_FRAGMENTS;
use trace_buffer::{BufferSpec, Cursor, SequenceSpec, TraceBuffer};

/// The sequences that each buffer has.
const FIRST: u32 = 2;

const SECOND: u32 = 3;

/// The ids of their first chunks: the third chunk of the first sequence has the id 0.
const FIRST_FROM: u32 = 4_294_967_294;

const SECOND_FROM: u32 = 7;

/// A record with this payload fills the buffer.
const MAX_PAYLOAD: u32 = 4080;

/// The id of a chunk, by its sequence and its position in it.
fn id_at(sequence: u32, position: u32) -> u32 {
    let from = if sequence == FIRST {
        FIRST_FROM
    } else {
        SECOND_FROM
    };
    id_of(from, position)
}

pub fn play(rt: &impl Abort, alloc: Global, setup: Setup, steps: &[Step]) -> Result<(), Fail>
    requires { setup.payload ≤ MAX_PAYLOAD }
{
    let mut buffer = make_buffer(alloc, setup)?;
    let mut sequence = FIRST;
    for (i, step) in steps.iter().enumerate() {
        match *step {
            Step::OfFirst => sequence = FIRST,
            Step::OfSecond => sequence = SECOND,
            step => {
                if !acts(rt, &mut buffer, setup.payload, sequence, step, i) {
                    look(rt, &buffer, sequence, step, i);
                }
            }
        }
    }
    Ok(())
}

fn make_buffer(alloc: Global, setup: Setup) -> Result<TraceBuffer, AllocError>
    requires { setup.payload ≤ MAX_PAYLOAD }
    ensures { IfOk result (λ buffer. Takes buffer setup.payload FIRST × Takes buffer setup.payload SECOND) }
{
    let spec = BufferSpec {
        size: 4096,
        policy: setup.policy,
    };
    let sequences = [
        SequenceSpec {
            sequence: FIRST,
            payload: setup.payload,
            from: FIRST_FROM,
        },
        SequenceSpec {
            sequence: SECOND,
            payload: setup.payload,
            from: SECOND_FROM,
        },
    ];
    TraceBuffer::make(alloc, spec, &sequences)
}

/// Makes the call that the step says, if it says one.
fn acts(
    rt: &impl Abort,
    buffer: &mut TraceBuffer,
    payload: u32,
    sequence: u32,
    step: Step,
    at: usize,
) -> bool
    requires payload { payload ≤ MAX_PAYLOAD }
    requires takes { Takes buffer.old payload sequence }
    ensures { StayReady buffer.old buffer.new }
{
    let is_open = !buffer.state(sequence).closed;
    match step {
        Step::Arrive(position, count, flags, wanted) => {
            assert!(rt;
                is_open && count <= MAX_FRAGMENTS && flags <= MAX_FLAGS,
                "{at}"
            );
            let bytes = payload_of(count);
            let image = Image {
                sequence,
                chunk_id: id_at(sequence, position),
                count,
                flags,
                payload: &bytes[..payload as usize],
            };
            assert_eq!(rt; buffer.arrive(&image), wanted, "{at}");
        }
        Step::Part(position, count, wanted) => {
            assert!(rt; is_open && count <= MAX_FRAGMENTS, "{at}");
            let bytes = payload_of(count);
            let image = Image {
                sequence,
                chunk_id: id_at(sequence, position),
                count,
                flags: 0,
                payload: &bytes[..payload as usize],
            };
            assert_eq!(rt; buffer.arrive_partial(&image), wanted, "{at}");
        }
        Step::Patch(position, offset, last, wanted) => {
            let patch = Patch {
                chunk_id: id_at(sequence, position),
                offset,
                bytes: [9, 8, 7, 6],
                last,
            };
            assert_eq!(rt; buffer.patch(sequence, &patch), wanted, "{at}");
        }
        Step::Advance(chunk_id, passed, how) => {
            buffer.advance(sequence, Cursor { chunk_id, passed }, how);
        }
        Step::Close => {
            assert!(rt; is_open, "{at}");
            buffer.close_sequence(sequence);
        }
        _ => return false,
    }
    true
}

/// Fragments of four bytes, each behind its size, one behind another.
fn payload_of(count: u16) -> [u8; 4080] {
    let mut bytes = [0; MAX_PAYLOAD as usize];
    for i in 0..usize::from(count) {
        if 5 * i + 5 <= bytes.len() {
            bytes[5 * i] = 4;
        }
    }
    bytes
}

/// Compares what the buffer says with what the step wants.
fn look(rt: &impl Abort, buffer: &TraceBuffer, sequence: u32, step: Step, at: usize)
    requires { is_known buffer.now.sequences sequence ≡ true }
{
    match step {
        Step::Chunks(lost, there) => {
            for position in 0..8 {
                let has_record = buffer.image_of(sequence, position).is_some();
                assert_eq!(rt; has_record, there[position as usize], "{at} {position}");
                assert_eq!(rt;
                    buffer.lost(sequence, position),
                    lost[position as usize],
                    "{at} {position}"
                );
            }
        }
        Step::Record(position, count, partial, awaits) => {
            let found = buffer.image_of(sequence, position).map(|image| image.0);
            let found = found.map(|key| (key.count, key.partial, key.awaits));
            assert_eq!(rt; found, Some((count, partial, awaits)), "{at}");
        }
        Step::Byte(position, place, wanted) => {
            let found = buffer.image_of(sequence, position);
            let found = found.and_then(|image| image.1.get(place).copied());
            assert_eq!(rt; found, Some(wanted), "{at}");
        }
        Step::Stands(chunk_id, passed, base) => {
            let state = buffer.state(sequence);
            let found = (state.cursor.chunk_id, state.cursor.passed, state.base);
            assert_eq!(rt; found, (chunk_id, passed, base), "{at}");
        }
        Step::Packets(delivered, overwritten, discarded) => {
            let state = buffer.state(sequence);
            let found = (state.delivered, state.overwritten, state.discarded);
            assert_eq!(rt; found, (delivered, overwritten, discarded), "{at}");
        }
        Step::Counts(wanted) => assert_eq!(rt; counts_of(buffer), wanted, "{at}"),
        _ => {}
    }
}

/// What a buffer counts, in the order in which a report has it.
fn counts_of(buffer: &TraceBuffer) -> [u64; 6] {
    let counts = buffer.counts();
    [
        counts.placed,
        counts.rewritten,
        counts.overwritten,
        counts.discarded,
        counts.unpatched,
        counts.padding,
    ]
}
