//! The command `stream`: a configuration text, a line `==`, and a stream of commits, which is played on
//! the buffers that the text asks for.
ghost use Rattle.std.specs.Prelude.{◌≡◌, ◌+◌, ◌≤◌, [], Ok, Err, length, IfOk, IfSome, IfNone, OnOk, OnErr};
ghost use Rattle.byte_io.specs.Buffered.{pending_bytes};
ghost use Rattle.byte_io.specs.Bytes.{after_told, CountsFaults, TakesPart};
ghost use Rattle.config_text.specs.Configs.{ConfigOf, parts_of};
ghost use Rattle.config_text.specs.Writing.{IsWritable};
ghost use Rattle.stream_frames.specs.Framing.{verdict_on};
ghost use Rattle.stream_producer.specs.Feeding.{IsMadeFor};
ghost use Rattle.stream_producer.specs.Setups.{config_limits};
ghost use Rattle.stream_producer.specs.Whole.{MayPlayWhole, PlaysWhole};
ghost use Rattle.tracesmb_top.specs.Commands.{CountsWrites, Ended, EndsDivided};
ghost use Rattle.tracesmb_top.specs.Streamed as streamed;
ghost use Rattle.tracesmb_top.specs.Streamed.{GathersStream, HasFault, stream_text};

use crate::check::find_divider;
use crate::cloning::{LINE_ROOM, push_number};
use crate::commands::CommandFault;
use crate::report::Report;
use crate::say::offset_line;
use crate::unfit::reason_line;
use arrayvec::ArrayVec;
use byte_io::buffered::{BufferedSink, PendingBytes};
use byte_io::put::{WriteFault, put_all};
use byte_io::traits::Sink;
use chunk_plain::Words;
use command_words::Command;
use config_text::{Config, ConfigFault, ConfigReason, read_config};
use loss_report::put_report;
use std::alloc::Global;
use stream_producer::{StreamCore, StreamDone, StreamFault, StreamProducer, check_stream};
use trace_base::limits::MAX_INPUT;

/// How many lines a text has. A rest without line feed is one.
#[tactic(auto, unfolding(crate::specs::Streamed::line_count))]
fn line_count(text: &[u8]) -> u32
    requires { length text.now ≤ MAX_INPUT }
    ensures count { result ≡ streamed.line_count text.now }
    ensures few { result ≤ length text.now + 1 }
{
    let ended = text.iter().filter(|byte| **byte == b'\n').count() as u32;
    match text.last() {
        None | Some(b'\n') => ended,
        Some(_) => ended + 1,
    }
}

/// `line L: REASON`, with its line feed.
#[tactic(auto, unfolding(crate::specs::Streamed::reason_words))]
fn config_fault_line(line: u32, reason: ConfigReason) -> ArrayVec<u8, 64>
    ensures { result.items ≡ streamed.config_fault_line (line, reason) }
{
    match reason {
        ConfigReason::BadText => reason_line(line, b"bad text"),
        ConfigReason::WrongKind => reason_line(line, b"wrong kind"),
        ConfigReason::MissingSize => reason_line(line, b"missing size"),
        ConfigReason::OutOfRange => reason_line(line, b"out of range"),
        ConfigReason::TooMany => reason_line(line, b"too many"),
        ConfigReason::NoSuchBuffer => reason_line(line, b"no such buffer"),
        ConfigReason::ChunkLargerThanBuffer => reason_line(line, b"chunk larger than buffer"),
    }
}

/// The line that says what is wrong with a stream's frames, if anything is.
#[tactic(auto, unfolding(crate::specs::Streamed::frame_fault_line))]
fn find_fault(config: &Config, stream: &[u8]) -> Option<ArrayVec<u8, 64>>
    requires { IsWritable (parts_of config.now) }
    ensures some { IfSome result (λ line. HasFault (parts_of config.now) stream.now line.items) }
    ensures none { IfNone result (verdict_on (config_limits (parts_of config.now)) stream.now ≡ Ok tt) }
{
    match check_stream(config, stream) {
        Ok(()) => None,
        Err(StreamFault::BadFrame { offset }) => Some(offset_line(offset, b"bad frame")),
        Err(StreamFault::NoEnd { offset }) => Some(offset_line(offset, b"no end")),
        Err(StreamFault::WriteFault) => unreachable!(),
    }
}

/// `stream commits N refused N`, with its line feed.
#[tactic(auto, unfolding(crate::specs::Streamed::commits_line))]
fn commits_line(commits: u64, refused: u64) -> ArrayVec<u8, LINE_ROOM>
    ensures { result.items ≡ streamed.commits_line commits refused }
{
    let mut line = ArrayVec::new();
    let _ = line.try_extend_from_slice(b"stream ");
    push_number(&mut line, b"commits ", commits);
    push_number(&mut line, b" refused ", refused);
    let _ = line.try_extend_from_slice(b"\n");
    line
}

/// Writes the report of a stream.
#[tactic(auto, using(byte_io::proofs::Told::part_first, byte_io::proofs::Told::part_second, byte_io::proofs::Told::after_told_again))]
pub fn put_stream<O: Sink>(out: &mut O, done: &StreamDone) -> Result<(), WriteFault>
    requires { O.may_write out.old }
    ensures all { OnOk result (O.taken out.new ≡ after_told (O.taken out.old) (stream_text done.now)) }
    ensures part { OnErr result (TakesPart (O.taken out.old) (O.taken out.new) (stream_text done.now)) }
    ensures count { CountsFaults (O.faults out.old) (O.faults out.new) result }
    ensures goes_on { OnOk result (O.may_write out.new) }
{
    put_report(out, &done.buffers, &done.sequences, &[])?;
    put_all(out, &commits_line(done.commits, done.refused))
}

/// Plays a stream, and leaves the last pieces of its trace waiting.
fn play_gathered<W: Words + Drop, T: Sink>(
    producer: StreamCore<W, W::Service>,
    stream: &[u8],
    pending: &mut PendingBytes,
    trace: &mut T,
) -> Result<StreamDone, WriteFault>
where
    W::Service: Drop,
    requires whole { MayPlayWhole W.means producer stream.now }
    requires empty { pending_bytes pending.old ≡ [] }
    requires may { T.may_write trace.old }
    ensures gathers { (config : ConfigOf) → IsMadeFor W.means config producer
        → GathersStream config (W.means.setup producer.player.table) stream.now (T.taken trace.old) result (T.taken trace.new)
        (pending_bytes pending.new) }
    ensures count { CountsFaults (T.faults trace.old) (T.faults trace.new) result }
    ensures goes_on { OnOk result (T.may_write trace.new) }
{
    let mut gathered = BufferedSink::new(trace, pending);
    producer.play_stream(stream, &mut gathered)
}

/// Plays a stream, and writes its trace in long pieces, with memory that was taken before.
fn write_stream<W: Words + Drop, T: Sink>(
    producer: StreamCore<W, W::Service>,
    stream: &[u8],
    pending: &mut PendingBytes,
    trace: &mut T,
) -> Result<StreamDone, WriteFault>
where
    W::Service: Drop,
    requires whole { MayPlayWhole W.means producer stream.now }
    requires empty { pending_bytes pending.old ≡ [] }
    requires may { T.may_write trace.old }
    ensures plays { (config : ConfigOf) → IsMadeFor W.means config producer
        → PlaysWhole config (W.means.setup producer.player.table) stream.now (T.taken trace.old) result (T.taken trace.new) }
    ensures count { CountsFaults (T.faults trace.old) (T.faults trace.new) result }
{
    let done = play_gathered(producer, stream, pending, trace)?;
    match pending.pass_on(trace) {
        Ok(()) => Ok(done),
        Err(WriteFault) => Err(WriteFault),
    }
}

/// Plays the stream behind a text. All memory is taken before the first frame is played, and all frames
/// are checked.
fn play_divided<T: Sink>(
    alloc: Global,
    text: &[u8],
    stream: &[u8],
    trace: &mut T,
) -> Result<Option<Report>, CommandFault>
    requires text { length text.now ≤ MAX_INPUT }
    requires stream { length stream.now ≤ MAX_INPUT }
    requires may { T.may_write trace.old }
    ensures ends { EndsDivided text.now stream.now result (T.taken trace.old) (T.taken trace.new) }
    ensures count { CountsWrites result (T.faults trace.old) (T.faults trace.new) }
{
    let config = match read_config(alloc, text) {
        Ok(config) => config,
        Err(ConfigFault::OutOfMemory) => return Err(CommandFault::OutOfMemory),
        Err(ConfigFault::BadConfig { line, reason }) => {
            return Err(CommandFault::Refused {
                refusal: config_fault_line(line, reason),
            });
        }
    };
    if let Some(refusal) = find_fault(&config, stream) {
        return Err(CommandFault::Refused { refusal });
    }
    let Ok(producer) = StreamProducer::make(alloc, &config) else {
        return Err(CommandFault::OutOfMemory);
    };
    let Ok(mut pending) = PendingBytes::new(alloc) else {
        return Err(CommandFault::OutOfMemory);
    };
    match write_stream(producer, stream, &mut pending, trace) {
        Ok(done) => Ok(Some(Report::Streamed(done))),
        Err(WriteFault) => Err(CommandFault::WriteFault),
    }
}

/// Plays a stream on the buffers that a configuration asks for, and writes its trace; its report is left to
/// be written.
#[tactic(auto, unfolding(crate::specs::Streamed::no_stream_line))]
pub fn stream<T: Sink>(
    alloc: Global,
    input: &[u8],
    trace: &mut T,
) -> Result<Option<Report>, CommandFault>
    requires short { length input.now ≤ MAX_INPUT }
    requires may { T.may_write trace.old }
    ensures ends { Ended Command.Stream input.now result (T.taken trace.old) (T.taken trace.new) }
    ensures count { CountsWrites result (T.faults trace.old) (T.faults trace.new) }
{
    match find_divider(input) {
        None => Err(CommandFault::Refused {
            refusal: reason_line(line_count(input) + 1, b"no stream"),
        }),
        Some(at) => play_divided(alloc, &input[..at], &input[at + 3..], trace),
    }
}
