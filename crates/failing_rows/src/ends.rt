//! A call over ends of which one fails, and what it must leave then.
ghost use Rattle.std.specs.Prelude.{◌<◌};

use crate::rows::Row;
use crate::short::ShortSink;
use byte_io::memory::{MemSink, MemSource};
use byte_io::script::{ScriptSink, ScriptSource};
use std::process::Abort;
use std::sync::Wait;
use std::test::Fail;
use std::thread::Threads;
use tracesmb_rows::play::status_of;

/// Room for everything that a row writes.
const AMPLE: usize = 1000;

/// Calls that are more than any row makes of one end.
const MANY: u64 = 300;

const READ_FAULT: &[u8] = b"read fault\n";

const WRITE_FAULT: &[u8] = b"write fault\n";

/// Whether this is a front part of the report, but not all of it, with the line of a failed write
/// behind it.
fn breaks_off(said: &[u8], report: &[u8]) -> bool {
    match said.strip_suffix(WRITE_FAULT) {
        Some(part) => report.starts_with(part) && part.len() < report.len(),
        None => false,
    }
}

/// Whether this is the line, and nothing else.
fn is_line(said: &[u8], line: &[u8]) -> bool {
    said == line
}

/// Whether the row has a report: a text under status 0.
fn has_report(row: &Row) -> bool {
    row.status == 0 && !row.text.is_empty()
}

/// The n-th read fails, for n = 1, 2, .. until none does, and each read gives a few bytes. So a read that
/// fails is never taken for the end.
pub(crate) fn failing_reads<R: Threads + Wait + Sync + AllocGlobal + Abort>(
    rt: &R,
    row: &Row,
    most: usize,
) -> Result<(), Fail>
    requires { 0 < most }
{
    let mut passed = false;
    for call in 1..MANY {
        let failing = vec![in rt.alloc(); call]?;
        let mut input = ScriptSource::new(row.input.to_vec(rt.alloc())?, most, failing);
        let mut trace = MemSink::with_room(rt.alloc(), AMPLE)?;
        let mut text = MemSink::with_room(rt.alloc(), AMPLE)?;
        let status = status_of(rt, row.words, &mut input, &mut trace, &mut text)?;
        if status != 4 {
            assert_eq!(*rt; status, row.status);
            assert_eq!(*rt; trace.taken(), row.trace);
            assert_eq!(*rt; text.taken(), row.text);
            passed = true;
            break;
        }
        assert!(*rt; trace.taken().is_empty());
        assert!(*rt; is_line(text.taken(), READ_FAULT));
    }
    assert!(*rt; passed);
    Ok(())
}

/// The n-th write of the trace fails, for n = 1, 2, .. until none does, and each write takes a few bytes. So
/// a write that fails is never passed over, and no report is written behind it.
pub(crate) fn failing_writes<R: Threads + Wait + Sync + AllocGlobal + Abort>(
    rt: &R,
    row: &Row,
    most: usize,
) -> Result<(), Fail>
    requires { 0 < most }
{
    let mut passed = false;
    for call in 1..MANY {
        let failing = vec![in rt.alloc(); call]?;
        let mut input = MemSource::new(row.input.to_vec(rt.alloc())?);
        let mut trace = ShortSink::new(ScriptSink::with_room(rt.alloc(), AMPLE, failing)?, most);
        let mut text = MemSink::with_room(rt.alloc(), AMPLE)?;
        let status = status_of(rt, row.words, &mut input, &mut trace, &mut text)?;
        let taken = trace.inner.taken();
        if status != 5 {
            assert_eq!(*rt; status, row.status);
            assert_eq!(*rt; taken, row.trace);
            assert_eq!(*rt; text.taken(), row.text);
            passed = true;
            break;
        }
        assert!(*rt; row.trace.starts_with(taken) && taken.len() < row.trace.len());
        assert!(*rt; most > 1 || taken.len() as u64 + 1 == call);
        assert!(*rt; is_line(text.taken(), WRITE_FAULT));
    }
    assert!(*rt; passed);
    Ok(())
}

/// The n-th write of the text fails, for n = 1, 2, .. until none does. The trace is whole, and so is the
/// status, but where the text is a report.
pub(crate) fn failing_texts<R: Threads + Wait + Sync + AllocGlobal + Abort>(
    rt: &R,
    row: &Row,
    most: usize,
) -> Result<(), Fail>
    requires { 0 < most }
{
    let mut passed = false;
    for call in 1..MANY {
        let failing = vec![in rt.alloc(); call]?;
        let mut input = MemSource::new(row.input.to_vec(rt.alloc())?);
        let mut trace = MemSink::with_room(rt.alloc(), AMPLE)?;
        let mut text = ShortSink::new(ScriptSink::with_room(rt.alloc(), AMPLE, failing)?, most);
        let status = status_of(rt, row.words, &mut input, &mut trace, &mut text)?;
        let said = text.inner.taken();
        assert_eq!(*rt; trace.taken(), row.trace);
        if said == row.text {
            assert_eq!(*rt; status, row.status);
            passed = true;
            break;
        }
        if has_report(row) {
            assert_eq!(*rt; status, 5);
            assert!(*rt; breaks_off(said, row.text));
        } else {
            assert_eq!(*rt; status, row.status);
            assert!(*rt; row.text.starts_with(said));
        }
    }
    assert!(*rt; passed);
    Ok(())
}

/// The trace has room for n bytes, for each n that isn't enough.
pub(crate) fn full_traces<R: Threads + Wait + Sync + AllocGlobal + Abort>(
    rt: &R,
    row: &Row,
) -> Result<(), Fail> {
    for room in 0..row.trace.len() {
        let mut input = MemSource::new(row.input.to_vec(rt.alloc())?);
        let mut trace = MemSink::with_room(rt.alloc(), room)?;
        let mut text = MemSink::with_room(rt.alloc(), AMPLE)?;
        let status = status_of(rt, row.words, &mut input, &mut trace, &mut text)?;
        assert_eq!(*rt; status, 5);
        assert_eq!(*rt; trace.taken(), &row.trace[..room]);
        assert!(*rt; is_line(text.taken(), WRITE_FAULT));
    }
    Ok(())
}

/// The text has room for n bytes, for each n up to 20 that isn't enough.
pub(crate) fn full_texts<R: Threads + Wait + Sync + AllocGlobal + Abort>(
    rt: &R,
    row: &Row,
) -> Result<(), Fail> {
    let status = if has_report(row) { 5 } else { row.status };
    for room in 0..row.text.len().min(20) {
        let mut input = MemSource::new(row.input.to_vec(rt.alloc())?);
        let mut trace = MemSink::with_room(rt.alloc(), AMPLE)?;
        let mut text = ScriptSink::with_room(rt.alloc(), room, Vec::new(rt.alloc()))?;
        let found = status_of(rt, row.words, &mut input, &mut trace, &mut text)?;
        assert_eq!(*rt; found, status);
        assert_eq!(*rt; trace.taken(), row.trace);
        assert_eq!(*rt; text.taken(), &row.text[..room]);
    }
    Ok(())
}

/// Neither the trace nor the text has any room.
pub(crate) fn no_room<R: Threads + Wait + Sync + AllocGlobal + Abort>(
    rt: &R,
    row: &Row,
) -> Result<(), Fail> {
    let mut input = MemSource::new(row.input.to_vec(rt.alloc())?);
    let mut trace = MemSink::with_room(rt.alloc(), 0)?;
    let mut text = MemSink::with_room(rt.alloc(), 0)?;
    let status = status_of(rt, row.words, &mut input, &mut trace, &mut text)?;
    let wanted = if row.trace.is_empty() { row.status } else { 5 };
    assert_eq!(*rt; status, wanted);
    assert!(*rt; trace.taken().is_empty());
    assert!(*rt; text.taken().is_empty());
    Ok(())
}

/// More bytes come than an input may have. The text has room for a part of its line.
pub(crate) fn too_long<R: Threads + Wait + Sync + AllocGlobal + Abort>(
    rt: &R,
    word: &str,
) -> Result<(), Fail> {
    let mut input = MemSource::new(vec![in rt.alloc(); b'\n'; 67_108_865]?);
    let mut trace = MemSink::with_room(rt.alloc(), AMPLE)?;
    let mut text = MemSink::with_room(rt.alloc(), 9)?;
    let status = status_of(rt, &[word], &mut input, &mut trace, &mut text)?;
    assert_eq!(*rt; status, 7);
    assert!(*rt; trace.taken().is_empty());
    assert_eq!(*rt; text.taken(), b"input too".as_slice());
    Ok(())
}
