//! The command `clone`: a scenario, played with the clones of buffers that its lines ask for, whose
//! records are the trace.
ghost use Rattle.std.specs.Prelude.{◌≡◌, ◌+◌, ◌≤◌, ◌++◌, [], length, map, OnOk, OnErr, IfOk};
ghost use Rattle.byte_io.specs.Buffered.{pending_bytes};
ghost use Rattle.byte_io.specs.Bytes.{after_told, CountsFaults, HandsOn, TakesPart};
ghost use Rattle.scenario_text.specs.Clones.{clones_in};
ghost use Rattle.scenario_text.specs.Scenario.{IsScenario, parts_of};
ghost use Rattle.replay_host.specs.Replaying.{CountsStop};
ghost use Rattle.tune_lines.specs.Lines.{field_text};
ghost use Rattle.tracesmb_top.specs.declared.cloning.TheConstants.{LINE_ROOM};
ghost use Rattle.tracesmb_top.specs.Cloned as cloned;
ghost use Rattle.tracesmb_top.specs.Cloned.{clone_counts, clones_text, clones_trace, HasCloned};

use crate::null_sink::NullSink;
use crate::report::Report;
use arrayvec::ArrayVec;
use buffer_clone::BufferClone;
use byte_io::buffered::{BufferedSink, PendingBytes};
use byte_io::put::{WriteFault, put_all};
use byte_io::traits::Sink;
use replay_host::{HostFault, make_clones, replay_cloning};
use scenario_text::{LineKind, LineList, Scenario};
use std::alloc::{AllocError, Global};

/// The number of a clone's buffer, and how many packets were read of the clone.
#[derive(Clone, Copy, Debug, PartialEq, Eq)]
pub struct CloneCount {
    pub buffer: u8,
    pub delivered: u64,
}

/// The most bytes of the line of a clone, or of that of a stream's commits.
pub(crate) const LINE_ROOM: usize = 128;

/// Writes a name and its number behind what there is of a line.
pub(crate) fn push_number(line: &mut ArrayVec<u8, LINE_ROOM>, name: &[u8], value: u64)
    requires name { length name.now ≤ 12 }
    requires room { length line.old.items + 32 ≤ LINE_ROOM }
    ensures items { line.new.items ≡ line.old.items ++ field_text name.now value }
    ensures room { length line.new.items ≤ length line.old.items + 32 }
{
    let mut digits = itoa::Buffer::new();
    let _ = line.try_extend_from_slice(name);
    let _ = line.try_extend_from_slice(digits.format(value).as_bytes());
}

/// `clone K buffer B delivered N`, with its line feed.
#[tactic(auto, unfolding(crate::specs::Cloned::clone_line))]
fn clone_line(number: u64, count: CloneCount) -> ArrayVec<u8, LINE_ROOM>
    ensures { result.items ≡ cloned.clone_line number count }
{
    let mut line = ArrayVec::new();
    push_number(&mut line, b"clone ", number);
    push_number(&mut line, b" buffer ", u64::from(count.buffer));
    push_number(&mut line, b" delivered ", count.delivered);
    let _ = line.try_extend_from_slice(b"\n");
    line
}

/// Writes a line for each clone.
pub fn put_clones<O: Sink>(out: &mut O, clones: &[CloneCount]) -> Result<(), WriteFault>
    requires { O.may_write out.old }
    ensures all { OnOk result (O.taken out.new ≡ after_told (O.taken out.old) (clones_text clones.now)) }
    ensures part { OnErr result (TakesPart (O.taken out.old) (O.taken out.new) (clones_text clones.now)) }
    ensures count { CountsFaults (O.faults out.old) (O.faults out.new) result }
    ensures goes_on { OnOk result (O.may_write out.new) }
{
    for (i, count) in clones.iter().enumerate() {
        put_all(out, &clone_line(i as u64 + 1, *count))?;
    }
    Ok(())
}

/// The clones that the lines ask for, of which nothing is read yet.
fn counts_for(alloc: Global, lines: &LineList) -> Result<Vec<CloneCount>, AllocError>
    ensures { IfOk result (λ counts. map (λ (count : CloneCount). count.buffer) counts.items ≡ clones_in lines.now) }
{
    let mut counts = Vec::new(alloc);
    let mut walk = lines.walk();
    'lines: while let Some(line) = walk.next() {
        if let LineKind::CloneBuffer { buffer } = line.what {
            counts.push(CloneCount {
                buffer,
                delivered: 0,
            })?;
        }
    }
    Ok(counts)
}

/// Writes all that is read of the clones, in their order, and counts what each delivers.
fn read_clones<O: Sink>(
    clones: &mut [BufferClone],
    counts: &mut [CloneCount],
    out: &mut O,
) -> Result<(), WriteFault>
    requires many { length counts.old ≡ length clones.old }
    requires may { O.may_write out.old }
    ensures all { OnOk result (O.taken out.new ≡ after_told (O.taken out.old) (clones_trace clones.old)) }
    ensures counts { OnOk result (counts.new ≡ clone_counts (map (λ (count : CloneCount). count.buffer) counts.old) clones.old) }
    ensures part { OnErr result (TakesPart (O.taken out.old) (O.taken out.new) (clones_trace clones.old)) }
    ensures count { CountsFaults (O.faults out.old) (O.faults out.new) result }
    ensures goes_on { OnOk result (O.may_write out.new) }
{
    for index in 0..clones.len() {
        counts[index].delivered = clones[index].read_all(out)?;
    }
    Ok(())
}

/// The same, with the last pieces left waiting.
fn read_gathered<T: Sink>(
    clones: &mut [BufferClone],
    counts: &mut [CloneCount],
    pending: &mut PendingBytes,
    trace: &mut T,
) -> Result<(), WriteFault>
    requires many { length counts.old ≡ length clones.old }
    requires empty { pending_bytes pending.old ≡ [] }
    requires may { T.may_write trace.old }
    ensures all { OnOk result (HandsOn (T.taken trace.old) (T.taken trace.new) (clones_trace clones.old) (pending_bytes pending.new)) }
    ensures counts { OnOk result (counts.new ≡ clone_counts (map (λ (count : CloneCount). count.buffer) counts.old) clones.old) }
    ensures part { OnErr result (TakesPart (T.taken trace.old) (T.taken trace.new) (clones_trace clones.old)) }
    ensures count { CountsFaults (T.faults trace.old) (T.faults trace.new) result }
    ensures goes_on { OnOk result (T.may_write trace.new) }
{
    let mut gathered = BufferedSink::new(trace, pending);
    read_clones(clones, counts, &mut gathered)
}

/// Writes the records of the clones in long pieces, with memory that was taken before.
fn write_clones<T: Sink>(
    clones: &mut [BufferClone],
    counts: &mut [CloneCount],
    pending: &mut PendingBytes,
    trace: &mut T,
) -> Result<(), WriteFault>
    requires many { length counts.old ≡ length clones.old }
    requires empty { pending_bytes pending.old ≡ [] }
    requires may { T.may_write trace.old }
    ensures all { OnOk result (T.taken trace.new ≡ after_told (T.taken trace.old) (clones_trace clones.old)) }
    ensures counts { OnOk result (counts.new ≡ clone_counts (map (λ (count : CloneCount). count.buffer) counts.old) clones.old) }
    ensures part { OnErr result (TakesPart (T.taken trace.old) (T.taken trace.new) (clones_trace clones.old)) }
    ensures count { CountsFaults (T.faults trace.old) (T.faults trace.new) result }
{
    read_gathered(clones, counts, pending, trace)?;
    pending.pass_on(trace)
}

/// Plays a scenario for a reader that keeps nothing, and then writes the records of its clones. All
/// memory is taken before the first line is played.
pub fn play_cloning<T: Sink>(
    alloc: Global,
    scenario: &Scenario,
    trace: &mut T,
) -> Result<Report, HostFault>
    requires scenario { IsScenario scenario.now }
    requires may { T.may_write trace.old }
    ensures cloned { HasCloned (parts_of scenario.now) result (T.taken trace.old) (T.taken trace.new) }
    ensures count { CountsStop (T.faults trace.old) (T.faults trace.new) result }
{
    let Ok(mut clones) = make_clones(alloc, scenario) else {
        return Err(HostFault::OutOfMemory);
    };
    let Ok(mut counts) = counts_for(alloc, &scenario.lines) else {
        return Err(HostFault::OutOfMemory);
    };
    let Ok(mut pending) = PendingBytes::new(alloc) else {
        return Err(HostFault::OutOfMemory);
    };
    let done = match replay_cloning(alloc, scenario, &mut NullSink, &mut clones) {
        Ok(done) => done,
        Err(HostFault::WriteFault) => unreachable!(),
        Err(fault) => return Err(fault),
    };
    match write_clones(&mut clones, &mut counts, &mut pending, trace) {
        Ok(()) => Ok(Report::Cloned {
            done,
            clones: counts,
        }),
        Err(WriteFault) => Err(HostFault::WriteFault),
    }
}
