//! Whose a source is: the producer that an entry of its filter names.
ghost use Rattle.std.specs.Prelude.{◌≡◌, ℕ, List, map, position, unwrap_or, IfOk};
ghost use Rattle.std.specs.Borrow.{Bor};
ghost use Rattle.std.specs.List.{list_any};
ghost use Rattle.std.specs.Str.{bytes_eq};
ghost use Rattle.std.specs.HashSet.{contains_by};
ghost use Rattle.config_text.specs.Kept.{producer_kept, texts};
ghost use Rattle.config_text.specs.Wanted.{is_wanted};
ghost use Rattle.config_text.specs.Reasons as reasons;

use crate::kept::KeptProducer;
use std::alloc::{AllocError, Global};
use std::collections::HashSet;

/// Whose a source is that names no producer.
const FIRST: usize = 0;

/// The entries of a filter, each once.
#[tactic(auto, using(crate::proofs::FindingLemmas::wanted_more))]
fn entries_of<'t>(alloc: Global, filters: &[&'t [u8]]) -> Result<HashSet<&'t [u8]>, AllocError>
    ensures { IfOk result (λ wanted. (name : Bor (List ℕ)) → contains_by (λ entry. bytes_eq name.now entry.now) wanted
        ≡ list_any (bytes_eq name.now) (texts filters.now)) }
{
    let mut wanted = HashSet::new(alloc);
    for entry in filters {
        wanted.insert(*entry)?;
    }
    Ok(wanted)
}

/// Whether a producer has a name, and it is among these.
fn is_wanted(wanted: &HashSet<&[u8]>, producer: &KeptProducer<'_>) -> bool
    ensures { result ≡ is_wanted wanted.now producer.now }
{
    !producer.name.is_empty() && wanted.contains(producer.name)
}

/// The place of the first such producer; the first of all where there is none.
#[tactic(auto, using(crate::proofs::FindingLemmas::place_found, crate::proofs::FindingLemmas::place_none))]
fn first_wanted(producers: &[KeptProducer<'_>], wanted: &HashSet<&[u8]>) -> usize
    ensures { result ≡ unwrap_or (position (is_wanted wanted.now) producers.now) 0 }
{
    for (i, producer) in producers.iter().enumerate() {
        if is_wanted(wanted, producer) {
            return i;
        }
    }
    FIRST
}

/// The place of the producer that a source with this filter belongs to. It takes as many steps as there
/// are entries and producers, unless entries are chosen so that they meet in the hash set, whose seed is
/// fixed.
#[tactic(auto, using(crate::proofs::FindingLemmas::named_as, crate::proofs::FindingLemmas::named_none))]
pub(crate) fn producer_place(
    alloc: Global,
    producers: &[KeptProducer<'_>],
    filters: &[&[u8]],
) -> Result<usize, AllocError>
    ensures { IfOk result (λ place. place ≡ reasons.producer_place (map producer_kept producers.now) (texts filters.now)) }
{
    if filters.is_empty() {
        return Ok(FIRST);
    }
    let wanted = entries_of(alloc, filters)?;
    Ok(first_wanted(producers, &wanted))
}
