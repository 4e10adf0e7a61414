//! Faults with the piece that shows them, streams that are cut anywhere, ids that come in reverse.
use crate::play::{config_of, play};
use byte_io::memory::MemSink;
use std::alloc::Global;
use std::test::Fail;
use stream_producer::{StreamFault, StreamProducer, check_stream};

const TEXT: &[u8] =
    b"buffers { size_kb: 2048 } data_sources { config { name: \"a\" } } data_sources { config { name: \"b\" } }";

const READ: &[u8] = b"\x02\x00\x00\x00\x02\x01";

const CLOSE: &[u8] = b"\x01\x00\x00\x00\x03";

/// A commit of the source with this number, of the chunk with this id, with one packet.
fn push_commit(stream: &mut Vec<u8>, source: u8, id: u32) -> Result<(), Fail> {
    stream.extend_from_slice(b"\x0F\x00\x00\x00\x01\x01")?;
    stream.extend_from_slice(&id.to_le_bytes())?;
    stream.extend_from_slice(&[source, 0, 1, 0, 0, 3, 0x40, 0x80, 1])?;
    Ok(())
}

struct Fault {
    name: &'static str,
    /// Behind a read.
    bytes: &'static [u8],
    /// With how many of these bytes the fault is answered.
    shown: usize,
    /// At which of them.
    at: u64,
}

static FAULTS: [Fault; 7] = [
    Fault {
        name: "no byte",
        bytes: b"\x00\x00\x00\x00\x00\x00",
        shown: 4,
        at: 0,
    },
    Fault {
        name: "too many bytes",
        bytes: b"\x00\x00\x00\x01\x02\x01",
        shown: 4,
        at: 0,
    },
    Fault {
        name: "another kind",
        bytes: b"\x03\x00\x00\x00\x07\x00\x00\x00",
        shown: 7,
        at: 0,
    },
    Fault {
        name: "a read of a buffer that isn't there",
        bytes: b"\x02\x00\x00\x00\x02\x02\x00\x00",
        shown: 6,
        at: 0,
    },
    Fault {
        name: "a commit of a source that isn't there",
        bytes: b"\x0B\x00\x00\x00\x01\x01\x00\x00\x00\x00\x03\x00\x01\x00\x00\x00\x00",
        shown: 15,
        at: 0,
    },
    Fault {
        name: "a byte behind the close",
        bytes: b"\x01\x00\x00\x00\x03\x01\x00",
        shown: 6,
        at: 5,
    },
    Fault {
        name: "a frame behind the close",
        bytes: b"\x01\x00\x00\x00\x03\x01\x00\x00\x00\x03",
        shown: 6,
        at: 5,
    },
];

#[test]
fn answers_faults_with_their_piece(rt: HostRuntime) -> Result<(), Fail> {
    let config = config_of(rt.alloc(), TEXT)?;
    for fault in &FAULTS {
        let mut stream = Vec::new(rt.alloc());
        push_commit(&mut stream, 1, 0)?;
        stream.extend_from_slice(READ)?;
        let before = stream.len();
        stream.extend_from_slice(fault.bytes)?;
        let offset = before as u64 + fault.at;
        let wanted = StreamFault::BadFrame { offset };
        assert_eq!(rt;
            check_stream(&config, &stream),
            Err(wanted),
            "{}",
            fault.name
        );
        for size in [1, 2, 3, 7] {
            let played = play(rt.alloc(), &config, &stream, size)?;
            assert_eq!(rt; played.end.err(), Some(wanted), "{}", fault.name);
            let shown = (before + fault.shown).div_ceil(size) * size;
            assert_eq!(rt; played.fed, shown.min(stream.len()), "{}", fault.name);
            // The frames before were done.
            assert_eq!(rt; played.sink.taken().len(), 10, "{}", fault.name);
        }
    }
    Ok(())
}

/// A stream of commits of two sources, in pairs of ids the wrong way round, and reads between.
fn mixed_stream(alloc: Global) -> Result<Vec<u8>, Fail> {
    let mut stream = Vec::new(alloc);
    for pair in 0..3u32 {
        push_commit(&mut stream, 2, pair)?;
        push_commit(&mut stream, 1, 2 * pair + 1)?;
        stream.extend_from_slice(READ)?;
        push_commit(&mut stream, 1, 2 * pair)?;
    }
    stream.extend_from_slice(CLOSE)?;
    Ok(stream)
}

#[test]
fn plays_a_stream_cut_anywhere(rt: HostRuntime) -> Result<(), Fail> {
    let config = config_of(rt.alloc(), TEXT)?;
    let stream = mixed_stream(rt.alloc())?;
    let whole = play(rt.alloc(), &config, &stream, usize::MAX)?;
    let done = whole.end.expect(&rt, "the whole stream");
    assert_eq!(rt; done.commits, 9);
    assert_eq!(rt; done.refused, 0);
    for cut in 0..stream.len() {
        let mut sink = MemSink::with_room(rt.alloc(), 1000)?;
        let mut producer = StreamProducer::make(rt.alloc(), &config)?;
        producer
            .feed(&stream[..cut], &mut sink)
            .expect(&rt, "the first piece");
        producer
            .feed(&stream[cut..], &mut sink)
            .expect(&rt, "the second piece");
        producer.finish(&mut sink).expect(&rt, "the end");
        assert_eq!(rt; sink.taken(), whole.sink.taken());
    }
    for size in [1, 2, 3, 7] {
        let played = play(rt.alloc(), &config, &stream, size)?;
        assert_eq!(rt; played.sink.taken(), whole.sink.taken());
    }
    Ok(())
}

// The first id comes last, with 1,023 before it; one id more would be too far ahead.
#[test]
fn plays_ids_in_reverse(rt: HostRuntime) -> Result<(), Fail> {
    let config = config_of(rt.alloc(), TEXT)?;
    for (ids, refused) in [(1024u32, 0), (1025, 1)] {
        let mut stream = Vec::new(rt.alloc());
        for id in 0..ids {
            push_commit(&mut stream, 1, ids - 1 - id)?;
        }
        stream.extend_from_slice(CLOSE)?;
        let played = play(rt.alloc(), &config, &stream, 1000)?;
        let done = played.end.expect(&rt, "all ids");
        assert_eq!(rt; done.commits, u64::from(ids));
        assert_eq!(rt; done.refused, refused);
        assert_eq!(rt; done.sequences.len(), 2);
        assert_eq!(rt; done.sequences[0].delivered, u64::from(ids) - refused);
    }
    Ok(())
}

// A write that fails ends the stream, behind a front part of what was due.
#[test]
fn stops_at_a_failed_write(rt: HostRuntime) -> Result<(), Fail> {
    let config = config_of(rt.alloc(), TEXT)?;
    let stream = mixed_stream(rt.alloc())?;
    let whole = play(rt.alloc(), &config, &stream, 7)?;
    for room in 0..whole.sink.taken().len() {
        let mut sink = MemSink::with_room(rt.alloc(), room)?;
        let mut producer = StreamProducer::make(rt.alloc(), &config)?;
        let fed = producer.feed(&stream, &mut sink);
        let end = match fed {
            Ok(()) => producer.finish(&mut sink).err(),
            Err(fault) => Some(fault),
        };
        assert_eq!(rt; end, Some(StreamFault::WriteFault));
        assert_eq!(rt; sink.taken(), &whole.sink.taken()[..room]);
    }
    Ok(())
}
