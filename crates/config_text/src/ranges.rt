//! The ranges of numbers, and what follows of sizes.
ghost use Rattle.std.specs.Prelude.{◌≡◌, ◌*◌, ◌<◌, ◌≤◌, true, Some};
ghost use Rattle.trace_base.specs.declared.limits.TheConstants.{BYTES_PER_KB, MAX_CHUNKS_PER_PAGE, MAX_PAGE_SIZE};
ghost use Rattle.page_geometry.specs.Sizes.{payload_size, record_size};
ghost use Rattle.config_text.specs.Kept.{producer_kept};
ghost use Rattle.trace_base.specs.declared.numeral.Numeral.TheVariants.{Fits};
ghost use Rattle.config_text.specs.Ranges as ranges;
ghost use Rattle.config_text.specs.Reasons as reasons;

use crate::kept::KeptProducer;
use page_geometry::Geometry;
use trace_base::limits::{BYTES_PER_KB, MAX_CHUNKS_PER_PAGE, MAX_PAGES};
use trace_base::numeral::Numeral;

/// Sizes of pages, in units of 1,024 bytes.
const MIN_PAGE_KB: u64 = 4;

const MAX_PAGE_KB: u64 = 64;

#[tactic(auto, unfolding(crate::specs::Ranges::is_between))]
fn is_between(low: u64, high: u64, n: u64) -> bool
    ensures { result ≡ ranges.is_between low high n }
{
    low <= n && n <= high
}

#[tactic(auto, unfolding(crate::specs::Ranges::is_within))]
pub(crate) fn is_within(low: u64, high: u64, number: Numeral) -> bool
    ensures { result ≡ ranges.is_within low high number }
{
    match number {
        Numeral::Fits(n) => is_between(low, high, n),
        Numeral::TooLarge => false,
    }
}

#[tactic(auto, unfolding(crate::specs::Ranges::is_page_kb))]
fn is_page_kb(page: u64) -> bool
    ensures { result ≡ ranges.is_page_kb page }
{
    is_between(MIN_PAGE_KB, MAX_PAGE_KB, page) && page % 4 == 0
}

#[tactic(auto, unfolding(crate::specs::Ranges::is_whole_pages))]
fn is_whole_pages(shm: u64, page: u64) -> bool
    requires { 0 < page }
    ensures { result ≡ ranges.is_whole_pages shm page }
{
    shm % page == 0 && is_between(1, u64::from(MAX_PAGES), shm / page)
}

/// Whether a producer can have so much shared memory, in pages of this size.
#[tactic(auto, using(crate::proofs::RangeLemmas::page_some), unfolding(crate::specs::Ranges::is_shared_memory))]
pub(crate) fn is_shared_memory(shm: Numeral, page: Numeral) -> bool
    ensures { result ≡ ranges.is_shared_memory shm page }
{
    let Numeral::Fits(shm) = shm else {
        return false;
    };
    let Numeral::Fits(page) = page else {
        return false;
    };
    is_page_kb(page) && is_whole_pages(shm, page)
}

/// The size of a record with the payload of one chunk, of those into which pages of this size are cut.
#[tactic(auto, using(crate::proofs::RangeLemmas::page_size, crate::proofs::RangeLemmas::page_most, crate::proofs::RangeLemmas::fourteen))]
fn record_size(page: u64) -> u32
    requires { ranges.is_page_kb page ≡ true }
    ensures value { result ≡ record_size (payload_size (page * BYTES_PER_KB) MAX_CHUNKS_PER_PAGE) }
    ensures most { result ≤ MAX_PAGE_SIZE }
{
    match Geometry::new(page as u32 * BYTES_PER_KB, MAX_CHUNKS_PER_PAGE) {
        Ok(geometry) => geometry.record_size(),
        Err(_) => unreachable!(),
    }
}

/// Whether a record with a chunk of pages of this size is larger than a buffer of this size.
#[tactic(auto, using(crate::proofs::RangeLemmas::no_larger), unfolding(crate::specs::Reasons::is_larger))]
fn is_larger(size: u64, page: u64) -> bool
    requires { ranges.is_page_kb page ≡ true }
    ensures { result ≡ reasons.is_larger (Some (Some (Fits size))) (Fits page) }
{
    let record = u64::from(record_size(page));
    // No record has more than 64 KB.
    size < MAX_PAGE_KB && size * u64::from(BYTES_PER_KB) < record
}

/// The same of a producer and a buffer. A producer whose own sizes are out of range has no chunks.
#[tactic(auto, using(crate::proofs::RangeLemmas::memory_page), unfolding(crate::specs::Reasons::is_larger_for, crate::specs::Reasons::is_larger))]
pub(crate) fn is_larger_for(size: Option<Numeral>, producer: KeptProducer<'_>) -> bool
    ensures { result ≡ reasons.is_larger_for (Some size) (Some (producer_kept producer.entry)) }
{
    if !is_shared_memory(producer.shm_size_kb, producer.page_size_kb) {
        return false;
    }
    let Some(Numeral::Fits(size)) = size else {
        return false;
    };
    let Numeral::Fits(page) = producer.page_size_kb else {
        return false;
    };
    is_larger(size, page)
}
