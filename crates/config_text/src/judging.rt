//! The first block that is refused, and why.
ghost use Rattle.std.specs.Prelude.{◌≡◌, ◌+◌, ◌<◌, ◌≤◌, ◌^◌, ℕ, List, [], length, map, vec_len, true, Some, IfOk, option_copied};
ghost use Rattle.std.specs.Borrow.{Bor};
ghost use Rattle.config_text.specs.declared.kept.KeptWhat.TheVariants as kept;
ghost use Rattle.config_text.specs.Blocks.{Block, Buffer, Producer, Source, begun};
ghost use Rattle.config_text.specs.Kept.{texts, producer_kept, source_kept, what_kept, block_kept, blocks_kept, IsInside, AreInside};
ghost use Rattle.config_text.specs.Looking.{known_of};
ghost use Rattle.config_text.specs.Judging.{HasCounts, Judges};
ghost use Rattle.config_text.specs.Reasons as reasons;
ghost use Rattle.config_text.specs.Reasons.{Known, buffers_said, producers_said, sources_said, refusal_of, first_refusal};

use crate::finding::producer_place;
use crate::kept::{BufferSaid, KeptBlock, KeptProducer, KeptSource, KeptWhat};
use crate::look_ups::LookUps;
use crate::ranges::{is_larger_for, is_shared_memory, is_within};
use crate::reason::{ConfigFault, ConfigReason};
use std::alloc::{AllocError, Global};
use trace_base::limits::{MAX_BUFFER_KB, MAX_BUFFERS, MAX_PRODUCERS, MAX_WRITERS, MIN_BUFFER_KB};
use trace_base::numeral::Numeral;

/// How many blocks of each kind stand before one.
#[derive(Clone, Copy)]
pub(crate) struct Counts {
    pub buffers: usize,
    pub producers: usize,
    pub sources: usize,
}

/// What stands at a place that is counted from 0.
#[tactic(auto, unfolding(crate::specs::Reasons::item_at))]
fn size_at(sizes: &[Option<Numeral>], place: Numeral) -> Option<Option<Numeral>>
    ensures { result ≡ reasons.item_at sizes.now place }
{
    match place {
        Numeral::Fits(place) => sizes.get(usize::try_from(place).ok()?).copied(),
        Numeral::TooLarge => None,
    }
}

#[tactic(auto, unfolding(crate::specs::Reasons::refusal_of, crate::specs::Reasons::lacks_size, crate::specs::Reasons::is_out_of_range, crate::specs::Reasons::is_size_out, crate::specs::Reasons::is_too_many, crate::specs::Reasons::lacks_buffer, crate::specs::Reasons::has_larger_chunks, crate::specs::Blocks::begun))]
fn buffer_refusal(said: BufferSaid, before: usize) -> Option<ConfigReason>
    ensures { (known : Known) (blocks : List Block) (line : ℕ) → length (buffers_said blocks) ≡ before
        → result ≡ refusal_of known blocks (begun line (Buffer said)) }
{
    let Some(size) = said.size_kb else {
        return Some(ConfigReason::MissingSize);
    };
    if !is_within(u64::from(MIN_BUFFER_KB), u64::from(MAX_BUFFER_KB), size) {
        return Some(ConfigReason::OutOfRange);
    }
    if MAX_BUFFERS <= before {
        return Some(ConfigReason::TooMany);
    }
    None
}

#[tactic(auto, unfolding(crate::specs::Reasons::refusal_of, crate::specs::Reasons::lacks_size, crate::specs::Reasons::is_out_of_range, crate::specs::Reasons::is_too_many, crate::specs::Reasons::lacks_buffer, crate::specs::Reasons::has_larger_chunks, crate::specs::Blocks::begun))]
fn producer_refusal(said: KeptProducer<'_>, before: usize) -> Option<ConfigReason>
    ensures { (known : Known) (blocks : List Block) (line : ℕ) → length (producers_said blocks) ≡ before
        → result ≡ refusal_of known blocks (begun line (Producer (producer_kept said.entry))) }
{
    if !is_shared_memory(said.shm_size_kb, said.page_size_kb) {
        return Some(ConfigReason::OutOfRange);
    }
    if MAX_PRODUCERS <= before {
        return Some(ConfigReason::TooMany);
    }
    None
}

impl<'t> LookUps<'t> {
    ghost use Rattle.std.specs.Prelude.{◌≡◌, ◌≤◌, ℕ, List, length, map, Some, IfOk};
    ghost use Rattle.config_text.specs.declared.kept.KeptWhat.TheVariants as kept;
    ghost use Rattle.config_text.specs.Blocks.{Block, Source, begun};
    ghost use Rattle.config_text.specs.Kept.{texts, producer_kept, source_kept, IsInside};
    ghost use Rattle.config_text.specs.Looking.{known_of};
    ghost use Rattle.config_text.specs.Reasons.{sources_said, refusal_of, producer_of, is_larger_for};

    /// Whether a record of a source with this filter is larger than a buffer of this size.
    #[tactic(auto, using(crate::proofs::JudgeLemmas::found_producer, crate::proofs::JudgeLemmas::no_producer), unfolding(crate::specs::Reasons::producer_of, crate::specs::Reasons::is_larger_for))]
    fn has_larger_chunks(
        &self,
        alloc: Global,
        size: Option<Numeral>,
        filters: &[&[u8]],
    ) -> Result<bool, AllocError>
        ensures { IfOk result (λ larger. larger ≡ is_larger_for (Some size) (producer_of (known_of self.now) (texts filters.now))) }
    {
        if !self.fit {
            return Ok(false);
        }
        let place = producer_place(alloc, &self.producers, filters)?;
        match self.producers.get(place) {
            None => Ok(false),
            Some(producer) => Ok(is_larger_for(size, *producer)),
        }
    }

    #[tactic(auto, unfolding(crate::specs::Reasons::refusal_of, crate::specs::Reasons::lacks_size, crate::specs::Reasons::is_out_of_range, crate::specs::Reasons::is_too_many, crate::specs::Reasons::lacks_buffer, crate::specs::Reasons::has_larger_chunks, crate::specs::Blocks::begun))]
    fn source_refusal(
        &self,
        alloc: Global,
        said: KeptSource<'t>,
        entries: &[&'t [u8]],
        before: usize,
    ) -> Result<Option<ConfigReason>, AllocError>
        requires { IsInside (length entries.now) (kept.Source said) }
        ensures { IfOk result (λ found. (blocks : List Block) (line : ℕ) → length (sources_said blocks) ≡ before
            → found ≡ refusal_of (known_of self.now) blocks (begun line (Source (source_kept entries.now said.entry)))) }
    {
        if MAX_WRITERS <= before {
            return Ok(Some(ConfigReason::TooMany));
        }
        let Some(size) = size_at(&self.sizes, said.target) else {
            return Ok(Some(ConfigReason::NoSuchBuffer));
        };
        if self.has_larger_chunks(alloc, size, &entries[said.from..said.to])? {
            return Ok(Some(ConfigReason::ChunkLargerThanBuffer));
        }
        Ok(None)
    }

    /// Why a block is refused behind so many of each kind.
    #[tactic(auto, using(crate::proofs::JudgeLemmas::unfit_refused))]
    fn refusal(
        &self,
        alloc: Global,
        block: KeptBlock<'t>,
        entries: &[&'t [u8]],
        before: Counts,
    ) -> Result<Option<ConfigReason>, AllocError>
        requires { IsInside (length entries.now) block.what }
        ensures { IfOk result (λ found. (blocks : List Block) → HasCounts before blocks
            → found ≡ refusal_of (known_of self.now) blocks (block_kept entries.now block.entry)) }
    {
        if !block.fits {
            return Ok(Some(ConfigReason::WrongKind));
        }
        match block.what {
            KeptWhat::Buffer(said) => Ok(buffer_refusal(said, before.buffers)),
            KeptWhat::Producer(said) => Ok(producer_refusal(said, before.producers)),
            KeptWhat::Source(said) => self.source_refusal(alloc, said, entries, before.sources),
        }
    }

    /// Whether no block is refused, or the first that is.
    #[tactic(auto, using(crate::proofs::JudgeLemmas::goes_on, crate::proofs::JudgeLemmas::stops, crate::proofs::JudgeLemmas::ends, crate::proofs::JudgeLemmas::counts_more, crate::proofs::JudgeLemmas::counts_low))]
    pub fn judge(
        &self,
        alloc: Global,
        blocks: &[KeptBlock<'t>],
        entries: &[&'t [u8]],
    ) -> Result<(), ConfigFault>
        requires { AreInside (length entries.now) blocks.now }
        ensures { Judges result (first_refusal (known_of self.now) [] (blocks_kept entries.now blocks.now)) }
    {
        let mut before = Counts {
            buffers: 0,
            producers: 0,
            sources: 0,
        };
        for block in blocks {
            if let Some(reason) = self.refusal(alloc, *block, entries, before)? {
                let line = block.line;
                return Err(ConfigFault::BadConfig { line, reason });
            }
            before = before.with(block.what);
        }
        Ok(())
    }
}

impl Counts {
    ghost use Rattle.std.specs.Prelude.{◌≡◌, ◌+◌, ◌<◌, ◌^◌, ℕ, List};
    ghost use Rattle.std.specs.Borrow.{Bor};
    ghost use Rattle.config_text.specs.Judging.{counts_with};

    /// One block more.
    fn with(self, what: KeptWhat<'_>) -> Counts
        requires buffers { self.buffers + 1 < 2 ^ 64 }
        requires producers { self.producers + 1 < 2 ^ 64 }
        requires sources { self.sources + 1 < 2 ^ 64 }
        ensures { result ≡ counts_with self what.entry }
    {
        match what {
            KeptWhat::Buffer(_) => Counts {
                buffers: self.buffers + 1,
                ..self
            },
            KeptWhat::Producer(_) => Counts {
                producers: self.producers + 1,
                ..self
            },
            KeptWhat::Source(_) => Counts {
                sources: self.sources + 1,
                ..self
            },
        }
    }
}
