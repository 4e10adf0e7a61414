//! The lines that the top call writes on its text, each with the status that it stands for.
ghost use Rattle.std.specs.Prelude.{◌≡◌, ◌≤◌, ◌⊎◌, length};
ghost use Rattle.byte_io.specs.Bytes.{after_told};
ghost use Rattle.tracesmb_top.specs.Answers as answers;
ghost use Rattle.tracesmb_top.specs.Answers.{Says, SaysBehind, usage_line, memory_line, read_line, write_line, long_line};
ghost use Rattle.tracesmb_top.specs.Refusals as refusals;
ghost use Rattle.tracesmb_top.specs.Cloned.{report_of};

use crate::report::{Report, write_report};
use arrayvec::ArrayVec;
use byte_io::put::{WriteFault, put_all};
use byte_io::traits::Sink;
use std::alloc::Global;
use trace_file::TraceFault;

/// Writes a line. A fault in writing it changes nothing else: it shows in the sink's count alone.
fn say<O: Sink>(text: &mut O, line: &[u8])
    requires { O.may_write text.old }
    ensures { Says (O.taken text.old) (O.taken text.new) (O.faults text.old) (O.faults text.new) line.now }
{
    match put_all(text, line) {
        Ok(()) => {}
        Err(WriteFault) => {}
    }
}

#[tactic(auto, unfolding(crate::specs::Answers::usage_line))]
pub fn say_usage<O: Sink>(text: &mut O) -> u8
    requires { O.may_write text.old }
    ensures status { result ≡ 2 }
    ensures says { Says (O.taken text.old) (O.taken text.new) (O.faults text.old) (O.faults text.new) usage_line }
{
    say(
        text,
        b"usage: tracesmb replay|run|read|check|gen NUMBER WRITERS PACKETS|stream|clone|tune USERS TURNS\n",
    );
    2
}

#[tactic(auto, unfolding(crate::specs::Answers::memory_line))]
pub fn say_out_of_memory<O: Sink>(text: &mut O) -> u8
    requires { O.may_write text.old }
    ensures status { result ≡ 1 }
    ensures says { Says (O.taken text.old) (O.taken text.new) (O.faults text.old) (O.faults text.new) memory_line }
{
    say(text, b"out of memory\n");
    1
}

#[tactic(auto, unfolding(crate::specs::Answers::read_line))]
pub fn say_read_fault<O: Sink>(text: &mut O) -> u8
    requires { O.may_write text.old }
    ensures status { result ≡ 4 }
    ensures says { Says (O.taken text.old) (O.taken text.new) (O.faults text.old) (O.faults text.new) read_line }
{
    say(text, b"read fault\n");
    4
}

#[tactic(auto, unfolding(crate::specs::Answers::write_line))]
pub fn say_write_fault<O: Sink>(text: &mut O) -> u8
    requires { O.may_write text.old }
    ensures status { result ≡ 5 }
    ensures says { Says (O.taken text.old) (O.taken text.new) (O.faults text.old) (O.faults text.new) write_line }
{
    say(text, b"write fault\n");
    5
}

#[tactic(auto, unfolding(crate::specs::Answers::long_line))]
pub fn say_too_long<O: Sink>(text: &mut O) -> u8
    requires { O.may_write text.old }
    ensures status { result ≡ 7 }
    ensures says { Says (O.taken text.old) (O.taken text.new) (O.faults text.old) (O.faults text.new) long_line }
{
    say(text, b"input too long\n");
    7
}

/// Says why an input is refused.
pub fn say_refusal<O: Sink>(text: &mut O, line: &[u8]) -> u8
    requires { O.may_write text.old }
    ensures status { result ≡ 3 }
    ensures says { Says (O.taken text.old) (O.taken text.new) (O.faults text.old) (O.faults text.new) line.now }
{
    say(text, line);
    3
}

/// `stalled: writer W`, with its line feed.
#[tactic(auto, unfolding(crate::specs::Answers::stalled_line))]
fn stalled_line(writer: u16) -> ArrayVec<u8, 64>
    ensures { result.items ≡ answers.stalled_line writer }
{
    let mut digits = itoa::Buffer::new();
    let mut bytes = ArrayVec::new();
    let _ = bytes.try_extend_from_slice(b"stalled: writer ");
    let _ = bytes.try_extend_from_slice(digits.format(writer).as_bytes());
    let _ = bytes.try_extend_from_slice(b"\n");
    bytes
}

pub fn say_stalled<O: Sink>(text: &mut O, writer: u16) -> u8
    requires { O.may_write text.old }
    ensures status { result ≡ 6 }
    ensures says { Says (O.taken text.old) (O.taken text.new) (O.faults text.old) (O.faults text.new) (answers.stalled_line writer) }
{
    say(text, &stalled_line(writer));
    6
}

/// Writes the report of what a command left. Where that fails, the line which says so is tried on the same
/// text, which bears it.
pub fn say_report<O: Sink>(alloc: Global, text: &mut O, report: &Report) -> u8
    requires { (sink : O) → O.may_write sink }
    ensures status { (result ≡ 0) ⊎ (result ≡ 5) }
    ensures all { result ≡ 0 → O.taken text.new ≡ after_told (O.taken text.old) (report_of report.now) }
    ensures steady { result ≡ 0 → O.faults text.new ≡ O.faults text.old }
    ensures part { result ≡ 5 → SaysBehind (O.taken text.old) (O.taken text.new) (O.faults text.old) (O.faults text.new)
        (report_of report.now) write_line }
    ensures later { O.faults text.old ≤ O.faults text.new }
{
    match write_report(alloc, report, text) {
        Ok(()) => 0,
        Err(WriteFault) => say_write_fault(text),
    }
}

/// `offset N: REASON`, with its line feed.
#[tactic(auto, unfolding(crate::specs::Refusals::offset_line))]
pub(crate) fn offset_line(offset: u64, reason: &[u8]) -> ArrayVec<u8, 64>
    requires { length reason.now ≤ 16 }
    ensures { result.items ≡ refusals.offset_line offset reason.now }
{
    let mut digits = itoa::Buffer::new();
    let mut bytes = ArrayVec::new();
    let _ = bytes.try_extend_from_slice(b"offset ");
    let _ = bytes.try_extend_from_slice(digits.format(offset).as_bytes());
    let _ = bytes.try_extend_from_slice(b": ");
    let _ = bytes.try_extend_from_slice(reason);
    let _ = bytes.try_extend_from_slice(b"\n");
    bytes
}

/// The line of a trace's fault.
#[tactic(auto, unfolding(crate::specs::Refusals::trace_fault_line))]
pub fn trace_fault_line(fault: TraceFault) -> ArrayVec<u8, 64>
    ensures { result.items ≡ refusals.trace_fault_line fault }
{
    match fault {
        TraceFault::Group { offset } => offset_line(offset, b"group"),
        TraceFault::BadRecord { offset } => offset_line(offset, b"bad record"),
        TraceFault::CutShort { offset } => offset_line(offset, b"cut short"),
    }
}
