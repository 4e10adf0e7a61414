ghost use Rattle.std.specs.Prelude.{◌≡◌, List, [], ◌++◌, OnOk, OnErr};
ghost use Rattle.byte_io.specs.Buffered.{pending_bytes};
ghost use Rattle.byte_io.specs.Bytes.{after_told, CountsFaults, TakesPart, HandsOn};

use byte_io::buffered::{BufferedSink, PendingBytes};
use byte_io::fill::{FillFault, fill_all};
use byte_io::memory::{MemSink, MemSource};
use byte_io::put::{WriteFault, put_all};
use byte_io::script::{ScriptSink, ScriptSource};
use byte_io::standard::{StdSink, StdSource};
use byte_io::traits::{Failed, Sink, Source};
use std::alloc::{AllocError, Global};
use std::io;
use std::io::{Read, Write};
use std::process::Abort;
use std::test::Fail;

// A caller that buffers: generic writes in between, what waits passed on at the end, and the
// sink behind known after each answer.
fn write_both<T: Sink>(
    pending: &mut PendingBytes,
    trace: &mut T,
    first: &[u8],
    second: &[u8],
) -> Result<(), WriteFault>
    requires waits { pending_bytes pending.old ≡ [] }
    requires may { T.may_write trace.old }
    ensures all { OnOk result (T.taken trace.new ≡ after_told (T.taken trace.old) (first.now ++ second.now)) }
    ensures part { OnErr result (TakesPart (T.taken trace.old) (T.taken trace.new) (first.now ++ second.now)) }
    ensures count { CountsFaults (T.faults trace.old) (T.faults trace.new) result }
{
    match lend_both(pending, trace, first, second) {
        Ok(()) => pending.pass_on(trace),
        Err(fault) => Err(fault),
    }
}

#[tactic(auto, using(byte_io::proofs::Told::after_told_again, byte_io::proofs::Lent::after_told_lent))]
fn lend_both<T: Sink>(
    pending: &mut PendingBytes,
    trace: &mut T,
    first: &[u8],
    second: &[u8],
) -> Result<(), WriteFault>
    requires waits { pending_bytes pending.old ≡ [] }
    requires may { T.may_write trace.old }
    ensures handed { OnOk result (HandsOn (T.taken trace.old) (T.taken trace.new) (first.now ++ second.now) (pending_bytes pending.new)) }
    ensures part { OnErr result (TakesPart (T.taken trace.old) (T.taken trace.new) (first.now ++ second.now)) }
    ensures count { CountsFaults (T.faults trace.old) (T.faults trace.new) result }
    ensures goes_on { OnOk result (T.may_write trace.new) }
{
    let mut buffered = BufferedSink::new(trace, pending);
    put_both(&mut buffered, first, second)
}

#[tactic(auto, using(byte_io::proofs::Told::after_told_again, byte_io::proofs::Told::part_first, byte_io::proofs::Told::part_second))]
fn put_both<O: Sink>(out: &mut O, first: &[u8], second: &[u8]) -> Result<(), WriteFault>
    requires { O.may_write out.old }
    ensures all { OnOk result (O.taken out.new ≡ after_told (O.taken out.old) (first.now ++ second.now)) }
    ensures part { OnErr result (TakesPart (O.taken out.old) (O.taken out.new) (first.now ++ second.now)) }
    ensures count { CountsFaults (O.faults out.old) (O.faults out.new) result }
    ensures goes_on { OnOk result (O.may_write out.new) }
{
    put_all(out, first)?;
    put_all(out, second)
}

const LETTERS: &[u8] = b"abcdefgh";

// A reader that gives three bytes at a time and fails at one of its calls.
#[derive(Drop)]
struct Trickle<'a> {
    left: &'a [u8],
    calls: u32,
    fails_at: u32,
}

impl Read for Trickle<'_> {
    fn read(&mut self, buf: &mut [u8]) -> io::Result<usize> {
        self.calls = self.calls.saturating_add(1);
        if self.calls == self.fails_at {
            return Err(io::Error::from(io::ErrorKind::Other));
        }
        let most = buf.len().min(3);
        self.left.read(&mut buf[..most])
    }
}

#[test]
fn a_standard_source_passes_bytes_and_errors_on(rt: HostRuntime) -> Result<(), Fail> {
    for (fails_at, wanted) in [
        (0, Ok(LETTERS)),
        (1, Err(FillFault::ReadFault)),
        (3, Err(FillFault::ReadFault)),
        (5, Ok(LETTERS)),
    ] {
        let mut source = StdSource::new(Trickle {
            left: LETTERS,
            calls: 0,
            fails_at,
        });
        let got = fill_all(rt.alloc(), &mut source, 8);
        match (&got, wanted) {
            (Ok(bytes), Ok(letters)) => assert_eq!(rt;
                bytes.as_slice(),
                letters,
                "failing at {fails_at}"
            ),
            (Err(fault), Err(other)) => assert_eq!(rt; *fault, other, "failing at {fails_at}"),
            _ => panic!(rt; "failing at {fails_at}"),
        }
    }
    Ok(())
}

// A writer that takes three bytes at a time, fails at one of its calls, and takes none at another.
#[derive(Drop)]
struct Narrow<'a> {
    bytes: &'a mut Vec<u8>,
    calls: u32,
    fails_at: u32,
    stops_at: u32,
}

impl Write for Narrow<'_> {
    fn write(&mut self, buf: &[u8]) -> io::Result<usize> {
        self.calls = self.calls.saturating_add(1);
        if self.calls == self.fails_at {
            return Err(io::Error::from(io::ErrorKind::Other));
        }
        if self.calls == self.stops_at {
            return Ok(0);
        }
        let most = buf.len().min(3);
        self.bytes.extend_from_slice(&buf[..most])?;
        Ok(most)
    }

    fn flush(&mut self) -> io::Result<()> {
        Ok(())
    }
}

#[test]
fn a_standard_sink_passes_bytes_and_errors_on(rt: HostRuntime) -> Result<(), Fail> {
    let rows = [
        (0, 0, Ok(()), LETTERS),
        (2, 0, Err(WriteFault), b"abc"),
        (0, 3, Err(WriteFault), b"abcdef"),
        (4, 4, Ok(()), LETTERS),
    ];
    for (fails_at, stops_at, wanted, taken) in rows {
        let mut bytes = Vec::new(rt.alloc());
        let mut sink = StdSink::new(Narrow {
            bytes: &mut bytes,
            calls: 0,
            fails_at,
            stops_at,
        });
        let got = put_all(&mut sink, LETTERS);
        drop(sink);
        assert_eq!(rt;
            got,
            wanted,
            "failing at {fails_at}, stopping at {stops_at}"
        );
        assert_eq!(rt;
            bytes.as_slice(),
            taken,
            "failing at {fails_at}, stopping at {stops_at}"
        );
    }
    Ok(())
}

// The text is longer than what is read at once, and comes and goes in pieces of three bytes, or as long as they fit.
#[test]
fn standard_streams_pass_a_long_text_on_whole(rt: HostRuntime) -> Result<(), Fail> {
    let mut text = Vec::new(rt.alloc());
    for number in 0..25_000u32 {
        text.extend_from_slice(&number.to_le_bytes())?;
    }
    let mut source = StdSource::new(Trickle {
        left: text.as_slice(),
        calls: 0,
        fails_at: 0,
    });
    match fill_all(rt.alloc(), &mut source, 100_000) {
        Ok(read) => assert!(rt; read.as_slice() == text.as_slice()),
        Err(fault) => panic!(rt; "{fault}"),
    }
    let mut source = StdSource::new(text.as_slice());
    match fill_all(rt.alloc(), &mut source, 100_000) {
        Ok(read) => assert!(rt; read.as_slice() == text.as_slice()),
        Err(fault) => panic!(rt; "{fault}"),
    }
    let mut bytes = Vec::new(rt.alloc());
    let mut sink = StdSink::new(Narrow {
        bytes: &mut bytes,
        calls: 0,
        fails_at: 0,
        stops_at: 0,
    });
    assert_eq!(rt; put_all(&mut sink, &text), Ok(()));
    drop(sink);
    assert!(rt; bytes.as_slice() == text.as_slice());
    Ok(())
}

struct Filling {
    piece: usize,
    failing: &'static [u64],
    limit: usize,
    fault: Option<FillFault>,
}

static FILLINGS: [Filling; 7] = [
    Filling {
        piece: 3,
        failing: &[],
        limit: 8,
        fault: None,
    },
    Filling {
        piece: 100,
        failing: &[],
        limit: 100,
        fault: None,
    },
    Filling {
        piece: 3,
        failing: &[],
        limit: 7,
        fault: Some(FillFault::TooLong),
    },
    Filling {
        piece: 3,
        failing: &[1],
        limit: 8,
        fault: Some(FillFault::ReadFault),
    },
    Filling {
        piece: 3,
        failing: &[9, 3],
        limit: 8,
        fault: Some(FillFault::ReadFault),
    },
    Filling {
        piece: 3,
        failing: &[4],
        limit: 8,
        fault: Some(FillFault::ReadFault),
    },
    Filling {
        piece: 3,
        failing: &[5, 0],
        limit: 8,
        fault: None,
    },
];

struct Putting {
    room: usize,
    failing: &'static [u64],
    works: bool,
    taken: &'static [u8],
}

static PUTTINGS: [Putting; 5] = [
    Putting {
        room: 8,
        failing: &[],
        works: true,
        taken: b"abcdefgh",
    },
    Putting {
        room: 5,
        failing: &[],
        works: false,
        taken: b"abcde",
    },
    Putting {
        room: 8,
        failing: &[1],
        works: false,
        taken: b"",
    },
    Putting {
        room: 7,
        failing: &[2],
        works: false,
        taken: b"abcdefg",
    },
    Putting {
        room: 8,
        failing: &[2],
        works: true,
        taken: b"abcdefgh",
    },
];

fn fill_row(rt: &impl Abort, alloc: Global, row: &Filling) -> Result<(), AllocError> {
    assert!(rt; row.piece > 0 && row.limit < usize::MAX);
    let bytes = LETTERS.to_vec(alloc)?;
    let failing = row.failing.to_vec(alloc)?;
    let mut source = ScriptSource::new(bytes, row.piece, failing);
    match fill_all(alloc, &mut source, row.limit) {
        Ok(bytes) => assert!(rt; row.fault.is_none() && bytes.as_slice() == LETTERS),
        Err(fault) => assert_eq!(rt; Some(fault), row.fault),
    }
    Ok(())
}

fn put_row(rt: &impl Abort, alloc: Global, row: &Putting) -> Result<(), AllocError> {
    let failing = row.failing.to_vec(alloc)?;
    let mut sink = ScriptSink::with_room(alloc, row.room, failing)?;
    assert_eq!(rt; put_all(&mut sink, LETTERS).is_ok(), row.works);
    assert_eq!(rt; sink.taken(), row.taken);
    Ok(())
}

#[test]
fn scripted_objects_follow_their_tables(rt: HostRuntime) -> Result<(), Fail> {
    for row in &FILLINGS {
        fill_row(&rt, rt.alloc(), row)?;
    }
    for row in &PUTTINGS {
        put_row(&rt, rt.alloc(), row)?;
    }
    Ok(())
}

#[test]
fn objects_in_memory_end_where_their_bytes_do(rt: HostRuntime) -> Result<(), Fail> {
    let mut full = MemSink::with_room(rt.alloc(), 8)?;
    assert_eq!(rt; put_all(&mut full, LETTERS), Ok(()));
    assert_eq!(rt; full.write(b""), Ok(0));
    assert_eq!(rt; full.write(b"i"), Err(Failed));
    assert_eq!(rt; full.taken(), LETTERS);
    let mut source = MemSource::new(LETTERS.to_vec(rt.alloc())?);
    let mut into = [0u8; 5];
    assert_eq!(rt; source.read(&mut into), Ok(5));
    assert_eq!(rt; source.read(&mut into), Ok(3));
    assert_eq!(rt; &into, b"fghde");
    Ok(())
}

// Writes the piece, again where it fails, and says how often it failed. A failed write of a told
// sink took nothing.
fn write_again<O: Sink>(rt: &impl Abort, out: &mut O, piece: &[u8]) -> usize
    requires { (sink : O) → O.may_write sink }
{
    for failed in 0..3 {
        if let Ok(count) = out.write(piece) {
            assert_eq!(rt; count, piece.len());
            return failed;
        }
    }
    3
}

// Writes many short pieces, a long one and a last one, and says how many writes failed.
fn write_pieces<O: Sink>(rt: &impl Abort, out: &mut O, short: &[u8], long: &[u8]) -> usize
    requires { (sink : O) → O.may_write sink }
{
    let mut failed = 0usize;
    for piece in short.chunks(7) {
        failed = failed.saturating_add(write_again(rt, out, piece));
    }
    failed = failed.saturating_add(write_again(rt, out, long));
    failed.saturating_add(write_again(rt, out, b"z"))
}

// The sink behind is called before it has 64 KiB, twice for the long piece, and at the end.
fn buffer_row(
    rt: &impl Abort,
    alloc: Global,
    failing: &[u64],
    pieces: [&[u8]; 3],
) -> Result<(), AllocError> {
    let [short, long, all] = pieces;
    let mut inner = ScriptSink::with_room(alloc, all.len(), failing.to_vec(alloc)?)?;
    let mut pending = PendingBytes::new(alloc)?;
    let mut buffered = BufferedSink::new(&mut inner, &mut pending);
    let failed = write_pieces(rt, &mut buffered, short, long);
    drop(buffered);
    assert_eq!(rt; Some(inner.taken()), all.strip_suffix(b"z".as_slice()));
    for _ in failed..failing.len() {
        assert_eq!(rt; pending.pass_on(&mut inner), Err(WriteFault));
    }
    assert_eq!(rt; pending.pass_on(&mut inner), Ok(()));
    assert_eq!(rt; inner.taken(), all);
    Ok(())
}

#[test]
fn a_buffered_sink_passes_all_on_in_order(rt: HostRuntime) -> Result<(), Fail> {
    let short = vec![in rt.alloc(); b'x'; 70_000]?;
    let long = vec![in rt.alloc(); b'y'; 80_000]?;
    let mut all = short.as_slice().to_vec(rt.alloc())?;
    all.extend_from_slice(&long)?;
    all.extend_from_slice(b"z")?;
    let rows: [&'static [u64]; 6] = [&[], &[1], &[2], &[3], &[4], &[1, 2, 4, 6]];
    for failing in rows {
        buffer_row(&rt, rt.alloc(), failing, [&short, &long, &all])?;
    }
    Ok(())
}
