//! One call of the top call with the word `stream`, over objects in memory.
use byte_io::memory::{MemSink, MemSource};
use byte_io::traits::OpenGate;
use std::alloc::AllocError;
use std::sync::Wait;
use std::thread::Threads;
use tracesmb_top::trace_top;

/// One buffer and one source.
pub const PLAIN: &[u8] = b"buffers { size_kb: 4 }\ndata_sources { config { name: \"a\" } }\n";

/// The frame that ends a stream.
pub const CLOSE: &[u8] = b"\x01\x00\x00\x00\x03";

/// Room for everything that a test writes.
const AMPLE: usize = 10_000;

/// A status, with what was written.
#[derive(Drop)]
pub struct Played {
    pub status: u8,
    pub trace: MemSink,
    pub text: MemSink,
}

/// Calls the top call with an input.
pub fn play_input<R: Threads + Wait + Sync + AllocGlobal>(
    rt: &R,
    input: &[u8],
) -> Result<Played, AllocError> {
    let mut words = Vec::new(rt.alloc());
    words.push(String::from_str(rt.alloc(), "stream")?)?;
    let mut source = MemSource::new(input.to_vec(rt.alloc())?);
    let mut trace = MemSink::with_room(rt.alloc(), AMPLE)?;
    let mut text = MemSink::with_room(rt.alloc(), AMPLE)?;
    let status = trace_top(
        rt,
        rt.alloc(),
        &words,
        &mut source,
        &mut trace,
        &mut text,
        &OpenGate,
    );
    Ok(Played {
        status,
        trace,
        text,
    })
}

/// Calls it with a text, a divider, and frames.
pub fn play<R: Threads + Wait + Sync + AllocGlobal>(
    rt: &R,
    text: &[u8],
    frames: &[u8],
) -> Result<Played, AllocError> {
    let mut input = Vec::from_slice(rt.alloc(), text)?;
    input.extend_from_slice(b"==\n")?;
    input.extend_from_slice(frames)?;
    play_input(rt, &input)
}
