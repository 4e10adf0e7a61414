//! A buffer that is filled and read, round by round.
use crate::window::Window;
use byte_io::put::put_all;
use chunk_image::Image;
use ring_bytes::{MAX_RING_SIZE, size_of_record};
use sequence_reader::read_sequence;
use std::alloc::Global;
use trace_base::policy::FullPolicy;
use trace_buffer::{BufferSpec, SequenceSpec, TraceBuffer};

const SEQUENCE: u32 = 2;

/// The payload of a page of 4,096 bytes that is one chunk.
const PAYLOAD: usize = 4080;

/// Chunks of a round: nearly as many as the buffer has room for, and a whole number of long packets.
const CHUNKS: u32 = 16_000;

/// Short packets of a chunk, each of 30 bytes behind a size of four, and chunks of a long packet.
const SHORT_COUNT: u16 = 120;

const LONG_CHUNKS: u32 = 25;

/// As many as the records of a round take, or so.
const ROOM: usize = 64_000_000;

#[derive(Clone, Copy, Debug, PartialEq, Eq)]
pub enum Kind {
    Short,
    Long,
}

/// Packets of a number of five bytes and a text of 22.
fn short_payload() -> [u8; PAYLOAD] {
    let mut payload = [7u8; PAYLOAD];
    for i in 0..120 {
        let at = 34 * i;
        payload[at] = 0x9E;
        payload[at + 1] = 0x80;
        payload[at + 2] = 0x80;
        payload[at + 3] = 0;
        payload[at + 4] = 0x40;
        payload[at + 5] = 0x87;
        payload[at + 6] = 0x87;
        payload[at + 7] = 0x87;
        payload[at + 8] = 0x87;
        payload[at + 10] = 0x5A;
        payload[at + 11] = 22;
    }
    payload
}

/// Each chunk the same: a packet's first fragment is the tag and length of a text of 101,896 bytes,
/// and its begin; in the others these bytes are of the text.
fn long_payload() -> [u8; PAYLOAD] {
    let mut payload = [7u8; PAYLOAD];
    payload[0] = 0xEC;
    payload[1] = 0x9F;
    payload[2] = 0x80;
    payload[3] = 0;
    payload[4] = 0x5A;
    payload[5] = 0x88;
    payload[6] = 0x9C;
    payload[7] = 0x06;
    payload
}

/// Whether the chunk was taken.
fn arrive(buffer: &mut TraceBuffer, kind: Kind, chunk_id: u32, payload: &[u8; PAYLOAD]) -> bool {
    if !buffer.knows(SEQUENCE) {
        return false;
    }
    if buffer.state(SEQUENCE).closed || buffer.record_size(SEQUENCE) != size_of_record(4080) {
        return false;
    }
    let (count, flags) = match kind {
        Kind::Short => (SHORT_COUNT, 0),
        Kind::Long => (1, long_flags(chunk_id)),
    };
    if count > 1023 || flags > 63 {
        return false;
    }
    let image = Image {
        sequence: SEQUENCE,
        chunk_id,
        count,
        flags,
        payload,
    };
    buffer.arrive(&image);
    true
}

/// Where the chunk stands in its packet.
fn long_flags(chunk_id: u32) -> u8 {
    match chunk_id % LONG_CHUNKS {
        0 => 2,
        24 => 1,
        _ => 3,
    }
}

/// Puts the chunks of a round into the buffer.
fn fill(buffer: &mut TraceBuffer, kind: Kind, round: u32, payload: &[u8; PAYLOAD]) -> bool {
    let first = round.wrapping_mul(CHUNKS);
    for i in 0..CHUNKS {
        if !arrive(buffer, kind, first.wrapping_add(i), payload) {
            return false;
        }
    }
    true
}

/// How many packets were read. None where no memory is left.
pub fn read_rounds(alloc: Global, rounds: u32, kind: Kind, reads: bool) -> Option<u64> {
    let spec = BufferSpec {
        size: MAX_RING_SIZE,
        policy: FullPolicy::Ring,
    };
    let sequences = [SequenceSpec {
        sequence: 2,
        payload: 4080,
        from: 0,
    }];
    let Ok(mut buffer) = TraceBuffer::make(alloc, spec, &sequences) else {
        return None;
    };
    let Ok(mut window) = Window::make(alloc, ROOM) else {
        return None;
    };
    let payload = match kind {
        Kind::Short => short_payload(),
        Kind::Long => long_payload(),
    };
    let mut count: u64 = 0;
    for round in 0..rounds {
        if !fill(&mut buffer, kind, round, &payload) {
            return None;
        }
        if reads {
            count = count.saturating_add(read(&mut buffer, &mut window)?);
        }
    }
    Some(count)
}

/// How many packets the buffer had.
fn read(buffer: &mut TraceBuffer, window: &mut Window) -> Option<u64> {
    if !buffer.knows(SEQUENCE) {
        return None;
    }
    match read_sequence(buffer, SEQUENCE, u64::MAX, window) {
        Ok(end) => Some(end.delivered),
        Err(_) => None,
    }
}

/// The same of plain copies.
pub fn copy_rounds(alloc: Global, rounds: u32) -> Option<u64> {
    let Ok(mut window) = Window::make(alloc, ROOM) else {
        return None;
    };
    let payload = long_payload();
    let mut count: u64 = 0;
    for _ in 0..rounds {
        count = count.saturating_add(copy(&mut window, &payload)?);
    }
    Some(count)
}

/// How many payloads were copied.
fn copy(window: &mut Window, payload: &[u8; PAYLOAD]) -> Option<u64> {
    for _ in 0..CHUNKS {
        if put_all(window, payload).is_err() {
            return None;
        }
    }
    Some(u64::from(CHUNKS))
}
