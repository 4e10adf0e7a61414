//! What a field of a block says.
ghost use Rattle.std.specs.Prelude.{◌≡◌, ℕ, List, IfSome, option_map};
ghost use Rattle.std.specs.Borrow.{Bor};
ghost use Rattle.std.specs.Option.{option_copied};
ghost use Rattle.text_form.specs.Reading.{value_of};
ghost use Rattle.config_text.specs.Blocks as blocks;
ghost use Rattle.config_text.specs.Kept.{producer_kept, source_kept, what_kept, block_kept, IsNewest};

use crate::kept::{BufferSaid, KeptBlock, KeptProducer, KeptSource, KeptWhat};
use text_form::TextValue;
use trace_base::number::numeral;
use trace_base::numeral::Numeral;
use trace_base::policy::FullPolicy;

#[tactic(auto, unfolding(crate::specs::Blocks::number_in))]
fn number_in(value: TextValue<'_>) -> Option<Numeral>
    ensures { result ≡ blocks.number_in (value_of value.entry) }
{
    match value {
        TextValue::Word(word) => numeral(word),
        TextValue::Quoted(_) => None,
    }
}

#[tactic(auto, unfolding(crate::specs::Blocks::text_in))]
pub(crate) fn text_in<'t>(value: TextValue<'t>) -> Option<&'t [u8]>
    ensures { option_copied result ≡ blocks.text_in (value_of value.entry) }
{
    match value {
        TextValue::Word(_) => None,
        TextValue::Quoted(text) => Some(text),
    }
}

#[tactic(auto, unfolding(crate::specs::Blocks::policy_in, crate::specs::Blocks::policy_of))]
fn policy_in(value: TextValue<'_>) -> Option<FullPolicy>
    ensures { result ≡ blocks.policy_in (value_of value.entry) }
{
    let TextValue::Word(word) = value else {
        return None;
    };
    if word == b"RING_BUFFER".as_slice() {
        Some(FullPolicy::Ring)
    } else if word == b"DISCARD".as_slice() {
        Some(FullPolicy::Discard)
    } else {
        None
    }
}

#[tactic(auto, unfolding(crate::specs::Blocks::buffer_with, crate::specs::Blocks::with_size, crate::specs::Blocks::with_policy))]
pub(crate) fn buffer_with(name: &[u8], value: TextValue<'_>, said: BufferSaid) -> Option<BufferSaid>
    ensures { result ≡ blocks.buffer_with name.now (value_of value.entry) said }
{
    if name == b"size_kb".as_slice() {
        let size_kb = Some(number_in(value)?);
        return Some(BufferSaid { size_kb, ..said });
    }
    if name == b"fill_policy".as_slice() {
        let policy = policy_in(value)?;
        return Some(BufferSaid { policy, ..said });
    }
    Some(said)
}

#[tactic(auto, unfolding(crate::specs::Blocks::producer_with, crate::specs::Blocks::with_producer_name, crate::specs::Blocks::with_shm_size, crate::specs::Blocks::with_page_size))]
pub(crate) fn producer_with<'t>(
    name: &[u8],
    value: TextValue<'t>,
    said: KeptProducer<'t>,
) -> Option<KeptProducer<'t>>
    ensures { option_map producer_kept result ≡ blocks.producer_with name.now (value_of value.entry) (producer_kept said.entry) }
{
    if name == b"producer_name".as_slice() {
        let name = text_in(value)?;
        return Some(KeptProducer { name, ..said });
    }
    if name == b"shm_size_kb".as_slice() {
        let shm_size_kb = number_in(value)?;
        return Some(KeptProducer {
            shm_size_kb,
            ..said
        });
    }
    if name == b"page_size_kb".as_slice() {
        let page_size_kb = number_in(value)?;
        return Some(KeptProducer {
            page_size_kb,
            ..said
        });
    }
    Some(said)
}

/// A field of a source's `config`.
#[tactic(auto, unfolding(crate::specs::Blocks::config_with, crate::specs::Blocks::with_source_name, crate::specs::Blocks::with_target))]
pub(crate) fn config_with<'t>(
    name: &[u8],
    value: TextValue<'t>,
    said: KeptSource<'t>,
) -> Option<KeptSource<'t>>
    ensures said { (entries : List (Bor (List ℕ))) → option_map (source_kept entries) result
        ≡ blocks.config_with name.now (value_of value.entry) (source_kept entries said.entry) }
    ensures from { IfSome result (λ source. source.from ≡ said.entry.from) }
    ensures to { IfSome result (λ source. source.to ≡ said.entry.to) }
{
    if name == b"name".as_slice() {
        let name = text_in(value)?;
        return Some(KeptSource { name, ..said });
    }
    if name == b"target_buffer".as_slice() {
        let target = number_in(value)?;
        return Some(KeptSource { target, ..said });
    }
    Some(said)
}

/// Whether a field is one of the table that has a value.
#[tactic(auto, unfolding(crate::specs::Blocks::wants_value))]
pub(crate) fn wants_value(name: &[u8], what: KeptWhat<'_>) -> bool
    ensures { (entries : List (Bor (List ℕ))) → result ≡ blocks.wants_value name.now (what_kept entries what.entry) }
{
    match what {
        KeptWhat::Buffer(_) => name == b"size_kb".as_slice() || name == b"fill_policy".as_slice(),
        KeptWhat::Producer(_) => {
            name == b"producer_name".as_slice()
                || name == b"shm_size_kb".as_slice()
                || name == b"page_size_kb".as_slice()
        }
        KeptWhat::Source(_) => name == b"producer_name_filter".as_slice(),
    }
}

/// The same in a source's `config`.
#[tactic(auto, unfolding(crate::specs::Blocks::config_wants_value))]
pub(crate) fn config_wants_value(name: &[u8]) -> bool
    ensures { result ≡ blocks.config_wants_value name.now }
{
    name == b"name".as_slice() || name == b"target_buffer".as_slice()
}

#[tactic(auto, unfolding(crate::specs::Blocks::opens_config))]
pub(crate) fn opens_config(name: &[u8], what: KeptWhat<'_>) -> bool
    ensures { (entries : List (Bor (List ℕ))) → result ≡ blocks.opens_config name.now (what_kept entries what.entry) }
{
    match what {
        KeptWhat::Source(_) => name == b"config".as_slice(),
        _ => false,
    }
}

/// The producer of a block without fields.
#[tactic(auto, unfolding(crate::specs::Blocks::no_producer))]
pub(crate) fn no_producer<'t>() -> KeptProducer<'t>
    ensures { producer_kept result ≡ blocks.no_producer }
{
    KeptProducer {
        name: &[],
        shm_size_kb: Numeral::Fits(256),
        page_size_kb: Numeral::Fits(4),
    }
}

/// What a block of this name says before its first field, where it is one of the table; its entries
/// begin behind so many.
#[tactic(auto, unfolding(crate::specs::Blocks::kind_of, crate::specs::Blocks::no_buffer, crate::specs::Blocks::no_producer, crate::specs::Blocks::no_source))]
pub(crate) fn kind_of<'t>(name: &[u8], count: usize) -> Option<KeptWhat<'t>>
    ensures kind { (entries : List (Bor (List ℕ))) → option_map (what_kept entries) result ≡ blocks.kind_of name.now }
    ensures newest { IfSome result (IsNewest count) }
{
    if name == b"buffers".as_slice() {
        return Some(KeptWhat::Buffer(BufferSaid {
            size_kb: None,
            policy: FullPolicy::Ring,
        }));
    }
    if name == b"producers".as_slice() {
        return Some(KeptWhat::Producer(no_producer()));
    }
    if name == b"data_sources".as_slice() {
        return Some(KeptWhat::Source(KeptSource {
            name: &[],
            target: Numeral::Fits(0),
            from: count,
            to: count,
        }));
    }
    None
}
