//! The reading of a clone.
ghost use Rattle.std.specs.Prelude.{◌≡◌, length, IfOk, OnOk, OnErr};
ghost use Rattle.byte_io.specs.Bytes.{after_told, CountsFaults};
ghost use Rattle.trace_model.specs.Delivery.{trace_of};
ghost use Rattle.trace_buffer.specs.Clones.{numbers_of};
ghost use Rattle.buffer_clone.specs.Clones.{clone_records, all_read, EndsInClone};

use byte_io::put::WriteFault;
use byte_io::traits::Sink;
use sequence_reader::read_sequence;
use trace_buffer::TraceBuffer;

/// Reads each of the sequences, with what is left of the greatest count.
pub fn read_each<O: Sink>(
    buffer: &mut TraceBuffer,
    sequences: &[u32],
    out: &mut O,
) -> Result<u64, WriteFault>
    requires numbers { sequences.now ≡ numbers_of buffer.old }
    requires may { O.may_write out.old }
    ensures records { OnOk result (O.taken out.new ≡ after_told (O.taken out.old) (trace_of (clone_records buffer.old))) }
    ensures number { IfOk result (λ delivered. delivered ≡ length (clone_records buffer.old)) }
    ensures after { OnOk result (buffer.new ≡ all_read buffer.old) }
    ensures same { numbers_of buffer.new ≡ numbers_of buffer.old }
    ensures part { OnErr result (EndsInClone buffer.old buffer.new (O.taken out.old) (O.taken out.new)) }
    ensures count { CountsFaults (O.faults out.old) (O.faults out.new) result }
    ensures goes_on { OnOk result (O.may_write out.new) }
{
    let mut left = u64::MAX;
    for i in 0..sequences.len() {
        left -= read_sequence(buffer, sequences[i], left, out)?.delivered;
    }
    Ok(u64::MAX - left)
}
