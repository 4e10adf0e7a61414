//! The clone.
ghost use Rattle.std.specs.Prelude.{◌≡◌, ◌%◌, ◌≤◌, length, map, IfOk, OnOk, OnErr};
ghost use Rattle.byte_io.specs.Bytes.{after_told, CountsFaults};
ghost use Rattle.trace_model.specs.Buffers.{empty_buffer};
ghost use Rattle.trace_model.specs.Delivery.{trace_of};
ghost use Rattle.trace_buffer.specs.Clones.{made_from, cloned};
ghost use Rattle.trace_buffer.specs.Made.{sequence_of, AreDistinct, AllSmall};
ghost use Rattle.buffer_clone.specs.Clones.{clone_records, all_read, EndsInClone};

use crate::closing::{close_all, numbers_in, reset_all};
use crate::reading::read_each;
use byte_io::put::WriteFault;
use byte_io::traits::Sink;
use ring_bytes::MAX_RING_SIZE;
use std::alloc::{AllocError, Global};
use std::marker::Model;
use trace_base::limits::BYTES_PER_KB;
use trace_buffer::{BufferSpec, SequenceSpec, TraceBuffer};

/// A copy of a buffer with a consumer of its own.
#[derive(Drop)]
pub struct BufferClone {
    buffer: TraceBuffer,
    /// The numbers of its sequences, in their order.
    sequences: Vec<u32>,
}

impl Model for BufferClone {
    ghost use Rattle.trace_model.specs.Buffers.{Buffer};

    ghost Value = { Buffer };

    ghost use Rattle.buffer_clone.specs.CloneFields.{clone_view, IsClone};

    ghost view = { clone_view };

    ghost invariant = { IsClone };
}

impl BufferClone {
    /// A clone of no buffer yet, for one that is made from the same. All memory that it ever needs is
    /// taken here.
    pub fn make(
        alloc: Global,
        spec: BufferSpec,
        sequences: &[SequenceSpec],
    ) -> Result<BufferClone, AllocError>
        requires least { BYTES_PER_KB ≤ spec.size }
        requires units { spec.size % BYTES_PER_KB ≡ 0 }
        requires most { spec.size ≤ MAX_RING_SIZE }
        requires distinct { AreDistinct sequences.now }
        requires small { AllSmall spec.size sequences.now }
        ensures { IfOk result (λ clone. clone ≡ empty_buffer spec.size spec.policy (map sequence_of sequences.now)) }
    {
        let numbers = numbers_in(alloc, sequences)?;
        let buffer = TraceBuffer::make(alloc, spec, sequences)?;
        Ok(BufferClone {
            buffer,
            sequences: numbers,
        })
    }

    /// Becomes the clone of a buffer that was made with as many bytes for the same sequences.
    pub fn fill(&mut self, buffer: &TraceBuffer)
        requires room { self.old.room ≡ buffer.now.room }
        requires sequences { map made_from self.old.sequences ≡ map made_from buffer.now.sequences }
        ensures { self.new ≡ cloned buffer.now }
    {
        self.buffer.copy_from(buffer);
        close_all(&mut self.buffer, &self.sequences);
        reset_all(&mut self.buffer, &self.sequences);
    }

    /// Writes all that its consumer is due, sequence by sequence in their order, and answers how many
    /// packets these are. A write that fails ends the reading before the packet whose record was being
    /// written.
    pub fn read_all<O: Sink>(&mut self, out: &mut O) -> Result<u64, WriteFault>
        requires { O.may_write out.old }
        ensures records { OnOk result (O.taken out.new ≡ after_told (O.taken out.old) (trace_of (clone_records self.old))) }
        ensures number { IfOk result (λ delivered. delivered ≡ length (clone_records self.old)) }
        ensures after { OnOk result (self.new ≡ all_read self.old) }
        ensures part { OnErr result (EndsInClone self.old self.new (O.taken out.old) (O.taken out.new)) }
        ensures count { CountsFaults (O.faults out.old) (O.faults out.new) result }
        ensures goes_on { OnOk result (O.may_write out.new) }
    {
        read_each(&mut self.buffer, &self.sequences, out)
    }
}
