//! One record: a packet's bytes, with its sequence and the service's mark behind.
ghost use Rattle.std.specs.Prelude.{◌≡◌, OnOk, OnErr};
ghost use Rattle.byte_io.specs.Bytes.{after_told, CountsFaults, TakesPart};
ghost use Rattle.trace_model.specs.Record.{record_of};

use crate::parts::RecordWriter;
use byte_io::put::WriteFault;
use byte_io::traits::Sink;

/// Writes the record of a packet. `sequence` is the number of its writer's sequence, and `marked`
/// says that the service marks it, since the packet before it is missing. Most records bear no mark and a
/// number of one byte: of these it is known beforehand how long the tail is.
#[inline(always)]
pub fn put_packet<O: Sink>(
    out: &mut O,
    body: &[u8],
    sequence: u32,
    marked: bool,
) -> Result<(), WriteFault>
    requires { O.may_write out.old }
    ensures all { OnOk result (O.taken out.new ≡ after_told (O.taken out.old) (record_of body.now sequence marked)) }
    ensures part { OnErr result (TakesPart (O.taken out.old) (O.taken out.new) (record_of body.now sequence marked)) }
    ensures count { CountsFaults (O.faults out.old) (O.faults out.new) result }
    ensures goes_on { OnOk result (O.may_write out.new) }
{
    if sequence < 128 && !marked {
        return put_parts(out, body, sequence, marked);
    }
    put_rare(out, body, sequence, marked)
}

/// The same of any record. It stays a call, so that what is seldom needed takes no room where most are written.
#[inline(never)]
fn put_rare<O: Sink>(
    out: &mut O,
    body: &[u8],
    sequence: u32,
    marked: bool,
) -> Result<(), WriteFault>
    requires { O.may_write out.old }
    ensures all { OnOk result (O.taken out.new ≡ after_told (O.taken out.old) (record_of body.now sequence marked)) }
    ensures part { OnErr result (TakesPart (O.taken out.old) (O.taken out.new) (record_of body.now sequence marked)) }
    ensures count { CountsFaults (O.faults out.old) (O.faults out.new) result }
    ensures goes_on { OnOk result (O.may_write out.new) }
{
    put_parts(out, body, sequence, marked)
}

/// The same, part by part.
#[inline(always)]
#[tactic(auto, using(crate::proofs::RecordLemmas::written_whole, crate::proofs::RecordLemmas::part_of_head, crate::proofs::RecordLemmas::part_of_body, crate::proofs::RecordLemmas::part_of_tail))]
fn put_parts<O: Sink>(
    out: &mut O,
    body: &[u8],
    sequence: u32,
    marked: bool,
) -> Result<(), WriteFault>
    requires { O.may_write out.old }
    ensures all { OnOk result (O.taken out.new ≡ after_told (O.taken out.old) (record_of body.now sequence marked)) }
    ensures part { OnErr result (TakesPart (O.taken out.old) (O.taken out.new) (record_of body.now sequence marked)) }
    ensures count { CountsFaults (O.faults out.old) (O.faults out.new) result }
    ensures goes_on { OnOk result (O.may_write out.new) }
{
    let mut writer = RecordWriter::start_long(out, body.len() as u64, sequence, marked)?;
    writer.part(out, body)?;
    writer.end(out)
}
