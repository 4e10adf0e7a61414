//! What a session is made for: the numbers of its set-up, tested, as a table and a service want them.
ghost use Rattle.std.specs.Prelude.{◌≡◌, ℕ, ◌<◌, ◌≤◌, length, IfOk, IfErr, Some, slice_get};
ghost use Rattle.trace_base.specs.declared.policy.WriterSpec.{WriterSpec};
ghost use Rattle.chunk_plain.specs.declared.setup.ProducerSpec.{ProducerSpec};
ghost use Rattle.tracesmb_c.specs.declared.codes.TheConstants.{NO_MEMORY};
ghost use Rattle.tracesmb_c.specs.Planning.{IsPlan, IsPlanFor, IsSetup, planned_writer};

use crate::codes::{BAD_NUMBER, NO_MEMORY};
use chunk_plain::ProducerSpec;
use page_geometry::Geometry;
use std::alloc::{AllocError, Global};
use trace_base::limits::{BYTES_PER_KB, MAX_BUFFER_KB, MAX_PAGES, MAX_PRODUCERS, MAX_WRITERS};
use trace_base::policy::{FullPolicy, WriterPolicy, WriterSpec};
use trace_buffer::BufferSpec;

/// The numbers of a set-up, as C gives them.
#[repr(C)]
#[derive(Drop)]
pub struct SessionSetup {
    pub writers: u32,
    pub producers: u32,
    pub pages: u32,
    pub page_size: u32,
    pub chunks: u32,
    pub buffer_kb: u32,
    pub full: u32,
}

/// What a table and a service are made for.
#[derive(Drop)]
pub struct Plan {
    pub(crate) producers: Vec<ProducerSpec>,
    pub(crate) writers: Vec<WriterSpec>,
    pub(crate) buffer: BufferSpec,
}

impl SessionSetup {
    /// The plan of this set-up; an `Err` has the code to answer.
    pub fn plan(&self, alloc: Global) -> Result<Plan, u32>
        ensures plan { IfOk result IsPlan }
        ensures made_for { IfOk result (IsPlanFor self.now) }
        ensures setup { IfOk result (λ _. ∥ IsSetup self.now ∥₁) }
        ensures code { IfErr result (λ code. 1 ≤ code) }
        ensures when { IsSetup self.now → IfErr result (λ code. code ≡ NO_MEMORY) }
    {
        if self.writers < 1 || self.writers > MAX_WRITERS as u32 {
            return Err(BAD_NUMBER);
        }
        if self.producers < 1 || self.producers > MAX_PRODUCERS as u32 {
            return Err(BAD_NUMBER);
        }
        if self.pages < 1 || self.pages > u32::from(MAX_PAGES) || self.full > 1 {
            return Err(BAD_NUMBER);
        }
        if self.buffer_kb < 1 || self.buffer_kb > MAX_BUFFER_KB {
            return Err(BAD_NUMBER);
        }
        let Ok(chunks) = u8::try_from(self.chunks) else {
            return Err(BAD_NUMBER);
        };
        let Ok(geometry) = Geometry::new(self.page_size, chunks) else {
            return Err(BAD_NUMBER);
        };
        let size = self.buffer_kb * BYTES_PER_KB;
        if geometry.record_size() > size {
            return Err(BAD_NUMBER);
        }
        let policy = if self.full == 0 {
            FullPolicy::Ring
        } else {
            FullPolicy::Discard
        };
        let spec = ProducerSpec {
            pages: self.pages as u8,
            geometry,
        };
        let Ok(producers) = producers_of(alloc, spec, self.producers as u16) else {
            return Err(NO_MEMORY);
        };
        let Ok(writers) = writers_of(alloc, self.writers as u16, self.producers as u16) else {
            return Err(NO_MEMORY);
        };
        Ok(Plan {
            producers,
            writers,
            buffer: BufferSpec { size, policy },
        })
    }
}

/// So many writers, which drop packets: one after another of each producer in turn, into the one buffer.
fn writers_of(alloc: Global, count: u16, producers: u16) -> Result<Vec<WriterSpec>, AllocError>
    requires some { 1 ≤ producers }
    ensures many { IfOk result (λ specs. length specs.items ≡ count) }
    ensures each { IfOk result (λ specs. (place : ℕ) (spec : WriterSpec) → slice_get specs.items place ≡ Some spec
        → spec ≡ planned_writer producers place) }
{
    let mut writers = Vec::with_capacity(alloc, count as usize)?;
    'writers: for place in 0..count {
        writers.push(WriterSpec {
            producer: place % producers + 1,
            buffer: 1,
            policy: WriterPolicy::Drops,
            from: 0,
        })?;
    }
    Ok(writers)
}

/// So many producers, all alike.
fn producers_of(
    alloc: Global,
    spec: ProducerSpec,
    count: u16,
) -> Result<Vec<ProducerSpec>, AllocError>
    ensures many { IfOk result (λ specs. length specs.items ≡ count) }
    ensures each { IfOk result (λ specs. (place : ℕ) (one : ProducerSpec) → slice_get specs.items place ≡ Some one → one ≡ spec) }
{
    let mut producers = Vec::with_capacity(alloc, count as usize)?;
    'producers: for index in 0..count {
        producers.push(spec)?;
    }
    Ok(producers)
}
