//! Chunks that arrive in a buffer as large as can be, each complete, with as many fragments of 20
//! bytes as fit, in the form that writers give them.
ghost use Rattle.std.specs.Prelude.{◌≡◌, length, false};
ghost use Rattle.trace_model.specs.Sequences.{sequence_in};
ghost use Rattle.trace_buffer.specs.Ready.{Takes};

use chunk_image::Image;
use ring_bytes::MAX_RING_SIZE;
use std::alloc::Global;
use trace_base::policy::FullPolicy;
use trace_buffer::{Arrived, BufferSpec, SequenceSpec, TraceBuffer};
use wire_varint::put_redundant;

const SEQUENCE: u32 = 2;

/// The least payload of a chunk.
const PAYLOAD: u32 = 284;

const FRAGMENTS: u16 = 11;

/// The bytes of a fragment, and with its size in front.
const FRAGMENT: u32 = 20;

const WITH_SIZE: usize = 24;

/// Whether the chunk was kept.
fn keeps(buffer: &mut TraceBuffer, chunk_id: u32, payload: &[u8]) -> bool
    requires takes { Takes buffer.old PAYLOAD SEQUENCE }
    requires open { (sequence_in buffer.old.sequences SEQUENCE).closed ≡ false }
    requires payload { length payload.now ≡ PAYLOAD }
    ensures takes { Takes buffer.new PAYLOAD SEQUENCE }
    ensures open { (sequence_in buffer.new.sequences SEQUENCE).closed ≡ false }
{
    let image = Image {
        sequence: SEQUENCE,
        chunk_id,
        count: FRAGMENTS,
        flags: 0,
        payload,
    };
    buffer.arrive(&image) == Arrived::Kept
}

/// Puts the size of each fragment in front of it.
fn put_sizes(payload: &mut [u8])
    requires { length payload.old ≡ PAYLOAD }
    ensures { length payload.new ≡ PAYLOAD }
{
    for i in 0..usize::from(FRAGMENTS) {
        payload[WITH_SIZE * i..WITH_SIZE * i + 4].copy_from_slice(&put_redundant(FRAGMENT));
    }
}

/// How many chunks were kept. None where no memory is left.
pub fn let_arrive(alloc: Global, count: u32) -> Option<u32> {
    let spec = BufferSpec {
        size: MAX_RING_SIZE,
        policy: FullPolicy::Ring,
    };
    let sequences = [SequenceSpec {
        sequence: SEQUENCE,
        payload: PAYLOAD,
        from: 0,
    }];
    let Ok(mut buffer) = TraceBuffer::make(alloc, spec, &sequences) else {
        return None;
    };
    let Ok(mut payload) = vec![in alloc; 7; PAYLOAD as usize] else {
        return None;
    };
    put_sizes(&mut payload);
    let mut kept = 0;
    for chunk_id in 0..count {
        if keeps(&mut buffer, chunk_id, &payload) {
            kept += 1;
        }
    }
    Some(kept)
}
