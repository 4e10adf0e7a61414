//! Writing the report of what a command left.
ghost use Rattle.std.specs.Prelude.{◌≡◌, [], OnOk, OnErr};
ghost use Rattle.byte_io.specs.Buffered.{pending_bytes};
ghost use Rattle.byte_io.specs.Bytes.{after_told, CountsFaults, HandsOn, TakesPart};
ghost use Rattle.loss_report.specs.Raws.{done_text};
ghost use Rattle.tracesmb_top.specs.Cloned.{report_of};

use crate::cloning::{CloneCount, put_clones};
use crate::streaming::put_stream;
use byte_io::buffered::{BufferedSink, PendingBytes};
use byte_io::put::WriteFault;
use byte_io::traits::Sink;
use loss_report::{Done, put_raw, put_report};
use std::alloc::Global;
use stream_producer::StreamDone;

/// What a command left to be reported.
#[derive(Drop)]
pub enum Report {
    /// Of a replay or a run.
    Played(Done),
    /// Of a replay with clones, of which each has its line.
    Cloned { done: Done, clones: Vec<CloneCount> },
    /// Of a stream of commits.
    Streamed(StreamDone),
}

/// Writes the report of what a replay or a run left.
#[tactic(auto, using(byte_io::proofs::Told::part_first, byte_io::proofs::Told::part_second, byte_io::proofs::Told::after_told_again))]
fn put_done<O: Sink>(out: &mut O, done: &Done) -> Result<(), WriteFault>
    requires { O.may_write out.old }
    ensures all { OnOk result (O.taken out.new ≡ after_told (O.taken out.old) (done_text done.now)) }
    ensures part { OnErr result (TakesPart (O.taken out.old) (O.taken out.new) (done_text done.now)) }
    ensures count { CountsFaults (O.faults out.old) (O.faults out.new) result }
    ensures goes_on { OnOk result (O.may_write out.new) }
{
    put_report(out, &done.buffers, &done.sequences, &done.flushes)?;
    put_raw(out, &done.raws)
}

/// Writes the lines of a report.
#[tactic(auto, using(byte_io::proofs::Told::part_first, byte_io::proofs::Told::part_second, byte_io::proofs::Told::after_told_again))]
fn put_lines<O: Sink>(out: &mut O, report: &Report) -> Result<(), WriteFault>
    requires { O.may_write out.old }
    ensures all { OnOk result (O.taken out.new ≡ after_told (O.taken out.old) (report_of report.now)) }
    ensures part { OnErr result (TakesPart (O.taken out.old) (O.taken out.new) (report_of report.now)) }
    ensures count { CountsFaults (O.faults out.old) (O.faults out.new) result }
    ensures goes_on { OnOk result (O.may_write out.new) }
{
    match report {
        Report::Played(done) => put_done(out, done),
        Report::Cloned { done, clones } => {
            put_done(out, done)?;
            put_clones(out, clones)
        }
        Report::Streamed(done) => put_stream(out, done),
    }
}

/// Writes the report, and leaves its last piece waiting.
fn write_gathered<O: Sink>(
    report: &Report,
    pending: &mut PendingBytes,
    text: &mut O,
) -> Result<(), WriteFault>
    requires empty { pending_bytes pending.old ≡ [] }
    requires may { O.may_write text.old }
    ensures all { OnOk result (HandsOn (O.taken text.old) (O.taken text.new) (report_of report.now) (pending_bytes pending.new)) }
    ensures part { OnErr result (TakesPart (O.taken text.old) (O.taken text.new) (report_of report.now)) }
    ensures count { CountsFaults (O.faults text.old) (O.faults text.new) result }
    ensures goes_on { OnOk result (O.may_write text.new) }
{
    let mut gathered = BufferedSink::new(text, pending);
    put_lines(&mut gathered, report)
}

/// Writes the report in long pieces. Where no memory is left for that, it writes the short ones as they
/// come: the trace is written by then, so that want of memory must change nothing.
pub fn write_report<O: Sink>(alloc: Global, report: &Report, text: &mut O) -> Result<(), WriteFault>
    requires { O.may_write text.old }
    ensures all { OnOk result (O.taken text.new ≡ after_told (O.taken text.old) (report_of report.now)) }
    ensures part { OnErr result (TakesPart (O.taken text.old) (O.taken text.new) (report_of report.now)) }
    ensures count { CountsFaults (O.faults text.old) (O.faults text.new) result }
    ensures goes_on { OnOk result (O.may_write text.new) }
{
    let mut pending = match PendingBytes::new(alloc) {
        Ok(pending) => pending,
        Err(_) => return put_lines(text, report),
    };
    write_gathered(report, &mut pending, text)?;
    pending.pass_on(text)
}
