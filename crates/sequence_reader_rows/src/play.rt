//! Playing a list of arrivals and reads.
use byte_io::memory::MemSink;
use chunk_image::Image;
use commit_body::Patch;
use ring_bytes::size_of_record;
use sequence_reader::{ReadEnd, Why, read_sequence};
use std::alloc::Global;
use std::process::Abort;
use std::test::Fail;
use trace_base::ids::id_of;
use trace_base::policy::FullPolicy;
use trace_buffer::{Arrived, BufferSpec, SequenceSpec, TraceBuffer};

pub const SEQUENCE: u32 = 2;

/// The payload of a page's smallest chunks.
const PAYLOAD: usize = 284;

/// What happens to the buffer.
#[derive(Clone, Copy)]
pub enum Play {
    /// A complete chunk arrives, with so many fragments in the front of its payload.
    Chunk {
        position: u32,
        flags: u8,
        count: u16,
        front: &'static [u8],
    },
    /// The first fragments of a chunk arrive.
    Part {
        position: u32,
        flags: u8,
        count: u16,
        front: &'static [u8],
    },
    /// The last patch of a chunk comes.
    Patched {
        position: u32,
        offset: u32,
        bytes: [u8; 4],
    },
    /// Complete chunks that go on with no packet, from one position up to another: they take room, and
    /// nothing of them is delivered.
    Fill {
        first: u32,
        end: u32,
    },
    /// A chunk of one fragment, or a first part of one, that the full buffer refuses.
    Refused {
        position: u32,
        flags: u8,
        front: &'static [u8],
        whole: bool,
    },
    Close,
    /// A read writes these records and answers this.
    Read {
        limit: u64,
        records: &'static [u8],
        delivered: u64,
        why: Why,
    },
    /// How many packets have been lost by each cause, and how many complete chunks got no place.
    Lost {
        dropped: u64,
        overwritten: u64,
        discarded: u64,
        cut: u64,
        refused: u64,
    },
}

/// The id of the sequence's first chunk: the third one's is 0. The tables name chunks by their
/// positions.
const FROM: u32 = 4_294_967_294;

/// A buffer of one sequence, with room for 13 records.
pub fn small_buffer(alloc: Global, policy: FullPolicy) -> Result<TraceBuffer, Fail> {
    let spec = BufferSpec { size: 4096, policy };
    let sequences = [SequenceSpec {
        sequence: 2,
        payload: 284,
        from: FROM,
    }];
    Ok(TraceBuffer::make(alloc, spec, &sequences)?)
}

/// A complete chunk arrives, or its first fragments.
pub fn arrive(
    rt: &impl Abort,
    buffer: &mut TraceBuffer,
    position: u32,
    flags: u8,
    count: u16,
    front: &[u8],
    whole: bool,
) -> Arrived {
    let mut payload = [0u8; PAYLOAD];
    assert!(rt; front.len() <= PAYLOAD);
    payload[..front.len()].copy_from_slice(front);
    let image = Image {
        sequence: SEQUENCE,
        chunk_id: id_of(FROM, position),
        count,
        flags,
        payload: &payload,
    };
    assert!(rt; buffer.knows(SEQUENCE));
    assert!(rt; !buffer.state(SEQUENCE).closed);
    assert!(rt; buffer.record_size(SEQUENCE) == size_of_record(284));
    assert!(rt; count <= 1023);
    if whole {
        assert!(rt; flags <= 63);
        buffer.arrive(&image)
    } else {
        assert!(rt; flags <= 1);
        buffer.arrive_partial(&image)
    }
}

fn read(
    rt: &impl Abort,
    alloc: Global,
    buffer: &mut TraceBuffer,
    limit: u64,
    records: &[u8],
    wanted: ReadEnd,
    name: &str,
) -> Result<(), Fail> {
    assert!(rt; buffer.knows(SEQUENCE));
    let mut sink = MemSink::with_room(alloc, 4096)?;
    let end = read_sequence(buffer, SEQUENCE, limit, &mut sink)?;
    assert_eq!(rt; end, wanted, "{name}");
    assert_eq!(rt; sink.taken(), records, "{name}");
    Ok(())
}

/// Plays it on a new buffer.
pub fn play_all(
    rt: &impl Abort,
    alloc: Global,
    name: &str,
    policy: FullPolicy,
    list: &[Play],
) -> Result<(), Fail> {
    let mut buffer = small_buffer(alloc, policy)?;
    for one in list {
        match *one {
            Play::Read {
                limit,
                records,
                delivered,
                why,
            } => read(
                rt,
                alloc,
                &mut buffer,
                limit,
                records,
                ReadEnd { delivered, why },
                name,
            )?,
            change => play_change(rt, &mut buffer, name, change)?,
        }
    }
    Ok(())
}

/// What comes to the buffer, and a look at its counts.
fn play_change(
    rt: &impl Abort,
    buffer: &mut TraceBuffer,
    name: &str,
    one: Play,
) -> Result<(), Fail> {
    match one {
        Play::Chunk {
            position,
            flags,
            count,
            front,
        } => {
            arrive(rt, buffer, position, flags, count, front, true);
        }
        Play::Part {
            position,
            flags,
            count,
            front,
        } => {
            arrive(rt, buffer, position, flags, count, front, false);
        }
        Play::Fill { first, end } => fill(rt, buffer, first, end),
        Play::Refused {
            position,
            flags,
            front,
            whole,
        } => {
            let outcome = arrive(rt, buffer, position, flags, 1, front, whole);
            assert_eq!(rt; outcome, Arrived::Discarded, "{name}");
        }
        Play::Patched {
            position,
            offset,
            bytes,
        } => patch(rt, buffer, position, offset, bytes)?,
        Play::Close => close(rt, buffer),
        Play::Read { .. } => {}
        Play::Lost {
            dropped,
            overwritten,
            discarded,
            cut,
            refused,
        } => {
            assert!(rt; buffer.knows(SEQUENCE));
            let state = buffer.state(SEQUENCE);
            let lost = (state.dropped, state.overwritten, state.discarded, state.cut);
            assert_eq!(rt; lost, (dropped, overwritten, discarded, cut), "{name}");
            assert_eq!(rt; buffer.counts().discarded, refused, "{name}");
        }
    }
    Ok(())
}

fn fill(rt: &impl Abort, buffer: &mut TraceBuffer, first: u32, end: u32) {
    for position in first..end {
        arrive(rt, buffer, position, 1, 1, b"\x01\x02", true);
    }
}

fn patch(
    rt: &impl Abort,
    buffer: &mut TraceBuffer,
    position: u32,
    offset: u32,
    bytes: [u8; 4],
) -> Result<(), Fail> {
    assert!(rt; buffer.knows(SEQUENCE));
    let patch = Patch {
        chunk_id: id_of(FROM, position),
        offset,
        bytes,
        last: true,
    };
    buffer.patch(SEQUENCE, &patch)?;
    Ok(())
}

fn close(rt: &impl Abort, buffer: &mut TraceBuffer) {
    assert!(rt; buffer.knows(SEQUENCE));
    assert!(rt; !buffer.state(SEQUENCE).closed);
    buffer.close_sequence(SEQUENCE);
}
