//! Reading a sequence, one link of its row at a time.
ghost use Rattle.std.specs.Prelude.{◌≡◌, ◌≤◌, ◌<◌, true, length, OnOk, OnErr, IfOk};
ghost use Rattle.byte_io.specs.Bytes.{after_told, CountsFaults};
ghost use Rattle.trace_model.specs.Reads.{delivered_by, with_read, read_end};
ghost use Rattle.trace_model.specs.Sequences.{is_known};
ghost use Rattle.sequence_reader.specs.Ends.{record_bytes, row_met, why_told, end_told, EndsInRecord, EndsInRecordAt};
ghost use Rattle.sequence_reader.specs.Spots.{AreBounds};
ghost use Rattle.sequence_reader.specs.Turns.{IsAt, Turns, CountsTurn, UnlessTurnFails, Puts, CountsPut, UnlessPutFails};

use crate::deliver::put_packet_at;
use crate::ends::{ReadCount, ReadEnd, Why};
use crate::held::Held;
use crate::link::{Found, next_link};
use crate::progress::Progress;
use crate::run::{RunEnd, pass_run};
use crate::spot::{Bounds, find_spot};
use byte_io::put::WriteFault;
use byte_io::traits::Sink;
use trace_buffer::{Passed, TraceBuffer};

/// What became of a read at one link.
#[derive(Clone, Copy, Debug, PartialEq, Eq)]
enum Turned {
    On { progress: Progress },
    Ended { why: Why },
    Failed,
}

/// What became of it, before the buffer learns of it.
#[derive(Clone, Copy, Debug, PartialEq, Eq)]
enum Put {
    Passed { passed: Passed, progress: Progress },
    Ended { why: Why },
    Failed,
}

/// Reads a sequence: writes the records of the packets that are due, at most `limit`, and moves its
/// cursor. A write that fails ends the read before the packet whose record was being written.
pub fn read_sequence<O: Sink>(
    buffer: &mut TraceBuffer,
    sequence: u32,
    limit: u64,
    out: &mut O,
) -> Result<ReadEnd, WriteFault>
    requires known { is_known buffer.old.sequences sequence ≡ true }
    requires may { O.may_write out.old }
    ensures records { OnOk result (O.taken out.new
        ≡ after_told (O.taken out.old) (record_bytes sequence (delivered_by buffer.old sequence limit))) }
    ensures after { OnOk result (buffer.new ≡ with_read buffer.old sequence limit) }
    ensures end { IfOk result (λ end. end ≡ end_told buffer.old sequence limit) }
    ensures part { OnErr result (EndsInRecord buffer.old buffer.new (O.taken out.old) (O.taken out.new) sequence limit) }
    ensures count { CountsFaults (O.faults out.old) (O.faults out.new) result }
    ensures goes_on { OnOk result (O.may_write out.new) }
{
    let ReadCount { delivered, end } = read_counted(buffer, sequence, limit, out);
    match end {
        Ok(why) => Ok(ReadEnd { delivered, why }),
        Err(WriteFault) => Err(WriteFault),
    }
}

/// The same, which also tells how many packets were delivered where a write failed.
pub fn read_counted<O: Sink>(
    buffer: &mut TraceBuffer,
    sequence: u32,
    limit: u64,
    out: &mut O,
) -> ReadCount
    requires known { is_known buffer.old.sequences sequence ≡ true }
    requires may { O.may_write out.old }
    ensures records { OnOk result.end (O.taken out.new
        ≡ after_told (O.taken out.old) (record_bytes sequence (delivered_by buffer.old sequence limit))) }
    ensures after { OnOk result.end (buffer.new ≡ with_read buffer.old sequence limit) }
    ensures whole { OnOk result.end (result.delivered ≡ length (delivered_by buffer.old sequence limit)) }
    ensures why { IfOk result.end (λ why. why ≡ why_told (read_end limit (row_met buffer.old sequence))) }
    ensures part { OnErr result.end
        (EndsInRecordAt buffer.old buffer.new (O.taken out.old) (O.taken out.new) sequence limit result.delivered) }
    ensures count { CountsFaults (O.faults out.old) (O.faults out.new) result.end }
    ensures goes_on { OnOk result.end (O.may_write out.new) }
{
    let bounds = bounds_of(buffer, sequence);
    let mut progress = begun(buffer, bounds);
    loop {
        let ran = pass_run(buffer, bounds, limit, progress, out);
        progress = ran.progress;
        match ran.end {
            RunEnd::Chunk => {}
            // The call is given a copy, so that the state of the loop need not lie in memory for it.
            RunEnd::Other => match pass_link(
                buffer,
                bounds,
                limit,
                Progress {
                    at: progress.at,
                    held: progress.held,
                    marked: progress.marked,
                    delivered: progress.delivered,
                },
                out,
            ) {
                Turned::On { progress: next } => progress = next,
                Turned::Ended { why } => {
                    return ReadCount {
                        delivered: progress.delivered,
                        end: Ok(why),
                    };
                }
                Turned::Failed => {
                    return ReadCount {
                        delivered: progress.delivered,
                        end: Err(WriteFault),
                    };
                }
            },
            RunEnd::Fault => {
                return ReadCount {
                    delivered: progress.delivered,
                    end: Err(WriteFault),
                };
            }
        }
    }
}

fn bounds_of(buffer: &TraceBuffer, sequence: u32) -> Bounds
    requires { is_known buffer.now.sequences sequence ≡ true }
    ensures bounds { AreBounds buffer.now result }
    ensures sequence { result.sequence ≡ sequence }
{
    Bounds {
        sequence,
        closed: buffer.state(sequence).closed,
        end: buffer.horizon(sequence),
    }
}

/// Where a read begins.
fn begun(buffer: &TraceBuffer, bounds: Bounds) -> Progress
    requires { AreBounds buffer.now bounds }
    ensures at { IsAt buffer.now bounds result }
    ensures none { result.delivered ≡ 0 }
{
    let state = buffer.state(bounds.sequence);
    let at = find_spot(buffer, bounds, state.cursor);
    Progress {
        at,
        held: Held::of(buffer, bounds, at.chunk_id),
        marked: state.missing || state.delivered == 0,
        delivered: 0,
    }
}

/// Goes on by one link. It stays a call, since most packets are delivered in runs.
#[inline(never)]
fn pass_link<O: Sink>(
    buffer: &mut TraceBuffer,
    bounds: Bounds,
    limit: u64,
    progress: Progress,
    out: &mut O,
) -> Turned
    requires at { IsAt buffer.old bounds progress }
    requires most { progress.delivered ≤ limit }
    requires may { O.may_write out.old }
    ensures turns { Turns buffer.old buffer.new (O.taken out.old) (O.taken out.new) bounds limit progress result }
    ensures count { CountsTurn (O.faults out.old) (O.faults out.new) result }
    ensures goes_on { UnlessTurnFails (O.may_write out.new) result }
{
    match put_next(buffer, bounds, limit, progress, out) {
        Put::Passed {
            passed,
            progress: next,
        } => {
            buffer.advance(bounds.sequence, next.at.cursor(), passed);
            Turned::On { progress: next }
        }
        Put::Ended { why } => Turned::Ended { why },
        Put::Failed => Turned::Failed,
    }
}

/// Writes the record of the packet that the read has come to, if it is due.
fn put_next<O: Sink>(
    buffer: &TraceBuffer,
    bounds: Bounds,
    limit: u64,
    progress: Progress,
    out: &mut O,
) -> Put
    requires at { IsAt buffer.now bounds progress }
    requires most { progress.delivered ≤ limit }
    requires may { O.may_write out.old }
    ensures puts { Puts buffer.now (O.taken out.old) (O.taken out.new) bounds limit progress result }
    ensures count { CountsPut (O.faults out.old) (O.faults out.new) result }
    ensures goes_on { UnlessPutFails (O.may_write out.new) result }
{
    let held = progress.held.at(buffer, bounds, progress.at.chunk_id);
    match next_link(buffer, bounds, progress.at, held) {
        Found::Ends { why } => Put::Ended { why },
        Found::Passes { passed, next } => Put::Passed {
            passed,
            progress: Progress {
                at: next,
                held,
                marked: true,
                delivered: progress.delivered,
            },
        },
        Found::Delivers { first, len, next } => {
            if progress.delivered == limit {
                return Put::Ended { why: Why::Limit };
            }
            match put_packet_at(
                buffer,
                bounds,
                progress.at,
                first,
                len,
                progress.marked,
                out,
            ) {
                Ok(()) => Put::Passed {
                    passed: Passed::Delivered,
                    progress: Progress {
                        at: next,
                        held,
                        marked: false,
                        delivered: progress.delivered + 1,
                    },
                },
                Err(WriteFault) => Put::Failed,
            }
        }
    }
}
