//! The report.
ghost use Rattle.std.specs.Prelude.{◌≡◌, ◌≤◌, ◌++◌, length, OnOk, OnErr};
ghost use Rattle.trace_base.specs.declared.limits.TheConstants.{FIRST_SEQUENCE};
ghost use Rattle.byte_io.specs.Bytes.{after_told, CountsFaults, TakesPart};
ghost use Rattle.loss_report.specs.declared.fields.TheConstants.{MAX_NAME};
ghost use Rattle.loss_report.specs.Report as report;
ghost use Rattle.loss_report.specs.Report.{buffer_line, sequence_line, flush_line, lines_of, report_text};

use crate::counts::SequenceCounts;
use crate::fields::{Field, put_line};
use byte_io::put::WriteFault;
use byte_io::traits::Sink;
use trace_base::limits::FIRST_SEQUENCE;
use trace_base::policy::FullPolicy;
use trace_buffer::BufferCounts;

/// The number of the first sequence that a writer has.
const FIRST_NUMBER: u64 = FIRST_SEQUENCE as u64;

/// The policy, and the name of the buffer's size.
fn size_name(policy: FullPolicy) -> &'static [u8]
    ensures name { result.now ≡ report.size_name policy }
    ensures short { length result.now ≤ MAX_NAME }
{
    match policy {
        FullPolicy::Ring => b"ring bytes",
        FullPolicy::Discard => b"discard bytes",
    }
}

fn put_buffer<O: Sink>(out: &mut O, number: u64, counts: &BufferCounts) -> Result<(), WriteFault>
    requires { O.may_write out.old }
    ensures all { OnOk result (O.taken out.new ≡ after_told (O.taken out.old) (buffer_line number counts.now)) }
    ensures part { OnErr result (TakesPart (O.taken out.old) (O.taken out.new) (buffer_line number counts.now)) }
    ensures count { CountsFaults (O.faults out.old) (O.faults out.new) result }
    ensures goes_on { OnOk result (O.may_write out.new) }
{
    let first = Field {
        name: b"buffer",
        value: number,
    };
    let others = [
        Field {
            name: size_name(counts.policy),
            value: counts.bytes,
        },
        Field {
            name: b"placed",
            value: counts.placed,
        },
        Field {
            name: b"rewritten",
            value: counts.rewritten,
        },
        Field {
            name: b"overwritten",
            value: counts.overwritten,
        },
        Field {
            name: b"discarded",
            value: counts.discarded,
        },
        Field {
            name: b"unpatched",
            value: counts.unpatched,
        },
        Field {
            name: b"padding",
            value: counts.padding,
        },
    ];
    put_line(out, &first, &others)
}

fn put_sequence<O: Sink>(
    out: &mut O,
    number: u64,
    counts: &SequenceCounts,
) -> Result<(), WriteFault>
    requires { O.may_write out.old }
    ensures all { OnOk result (O.taken out.new ≡ after_told (O.taken out.old) (sequence_line number counts.now)) }
    ensures part { OnErr result (TakesPart (O.taken out.old) (O.taken out.new) (sequence_line number counts.now)) }
    ensures count { CountsFaults (O.faults out.old) (O.faults out.new) result }
    ensures goes_on { OnOk result (O.may_write out.new) }
{
    let first = Field {
        name: b"sequence",
        value: number,
    };
    let others = [
        Field {
            name: b"begun",
            value: counts.begun,
        },
        Field {
            name: b"delivered",
            value: counts.delivered,
        },
        Field {
            name: b"dropped",
            value: counts.dropped,
        },
        Field {
            name: b"overwritten",
            value: counts.overwritten,
        },
        Field {
            name: b"discarded",
            value: counts.discarded,
        },
        Field {
            name: b"cut",
            value: counts.cut,
        },
    ];
    put_line(out, &first, &others)
}

fn put_flush<O: Sink>(out: &mut O, number: u64, chunks: u64) -> Result<(), WriteFault>
    requires { O.may_write out.old }
    ensures all { OnOk result (O.taken out.new ≡ after_told (O.taken out.old) (flush_line number chunks)) }
    ensures part { OnErr result (TakesPart (O.taken out.old) (O.taken out.new) (flush_line number chunks)) }
    ensures count { CountsFaults (O.faults out.old) (O.faults out.new) result }
    ensures goes_on { OnOk result (O.may_write out.new) }
{
    let first = Field {
        name: b"flush",
        value: number,
    };
    let others = [Field {
        name: b"chunks",
        value: chunks,
    }];
    put_line(out, &first, &others)
}

fn put_buffers<O: Sink>(out: &mut O, buffers: &[BufferCounts]) -> Result<(), WriteFault>
    requires { O.may_write out.old }
    ensures all { OnOk result (O.taken out.new ≡ after_told (O.taken out.old) (lines_of buffer_line 1 buffers.now)) }
    ensures part { OnErr result (TakesPart (O.taken out.old) (O.taken out.new) (lines_of buffer_line 1 buffers.now)) }
    ensures count { CountsFaults (O.faults out.old) (O.faults out.new) result }
    ensures goes_on { OnOk result (O.may_write out.new) }
{
    for (i, counts) in buffers.iter().enumerate() {
        put_buffer(out, i as u64 + 1, counts)?;
    }
    Ok(())
}

fn put_sequences<O: Sink>(out: &mut O, sequences: &[SequenceCounts]) -> Result<(), WriteFault>
    requires { O.may_write out.old }
    ensures all { OnOk result (O.taken out.new ≡ after_told (O.taken out.old) (lines_of sequence_line FIRST_SEQUENCE sequences.now)) }
    ensures part { OnErr result (TakesPart (O.taken out.old) (O.taken out.new) (lines_of sequence_line FIRST_SEQUENCE sequences.now)) }
    ensures count { CountsFaults (O.faults out.old) (O.faults out.new) result }
    ensures goes_on { OnOk result (O.may_write out.new) }
{
    for (i, counts) in sequences.iter().enumerate() {
        put_sequence(out, i as u64 + FIRST_NUMBER, counts)?;
    }
    Ok(())
}

fn put_flushes<O: Sink>(out: &mut O, flushes: &[u64]) -> Result<(), WriteFault>
    requires { O.may_write out.old }
    ensures all { OnOk result (O.taken out.new ≡ after_told (O.taken out.old) (lines_of flush_line 1 flushes.now)) }
    ensures part { OnErr result (TakesPart (O.taken out.old) (O.taken out.new) (lines_of flush_line 1 flushes.now)) }
    ensures count { CountsFaults (O.faults out.old) (O.faults out.new) result }
    ensures goes_on { OnOk result (O.may_write out.new) }
{
    for (i, chunks) in flushes.iter().enumerate() {
        put_flush(out, i as u64 + 1, *chunks)?;
    }
    Ok(())
}

/// Writes the report: a line for each buffer, for each sequence, and for each flush request, of which
/// the number of chunks is given.
#[tactic(auto, using(byte_io::proofs::Told::part_first, byte_io::proofs::Told::part_second, byte_io::proofs::Told::after_told_again))]
pub fn put_report<O: Sink>(
    out: &mut O,
    buffers: &[BufferCounts],
    sequences: &[SequenceCounts],
    flushes: &[u64],
) -> Result<(), WriteFault>
    requires { O.may_write out.old }
    ensures all { OnOk result (O.taken out.new ≡ after_told (O.taken out.old) (report_text buffers.now sequences.now flushes.now)) }
    ensures part { OnErr result (TakesPart (O.taken out.old) (O.taken out.new) (report_text buffers.now sequences.now flushes.now)) }
    ensures count { CountsFaults (O.faults out.old) (O.faults out.new) result }
    ensures goes_on { OnOk result (O.may_write out.new) }
{
    put_buffers(out, buffers)?;
    put_sequences(out, sequences)?;
    put_flushes(out, flushes)
}
