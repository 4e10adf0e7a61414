//! Collecting the blocks of a text from its items, one after another. What is skipped keeps nothing.
ghost use Rattle.std.specs.Prelude.{◌≡◌, ◌+◌, ◌<◌, ◌^◌, ◌≤◌, ℕ, List, option_map, IfOk, IfSome, IfNone, OnOk, vec_len, if◌then◌else◌};
ghost use Rattle.std.specs.Borrow.{Bor};
ghost use Rattle.text_form.specs.Reading.{value_of};
ghost use Rattle.config_text.specs.declared.kept.KeptWhat.TheVariants as kept;
ghost use Rattle.text_form.specs.Reading.{item_of};
ghost use Rattle.config_text.specs.Blocks as blocks;
ghost use Rattle.config_text.specs.Blocks.{Block};
ghost use Rattle.config_text.specs.Collecting.{Level, skipping, item_in};
ghost use Rattle.config_text.specs.Kept.{source_kept, what_kept, block_kept, GrowsBy, IsNewest};

use crate::fields::{
    buffer_with, config_wants_value, config_with, kind_of, opens_config, producer_with, text_in,
    wants_value,
};
use crate::kept::{KeptBlock, KeptLevel, KeptSource, KeptWhat};
use std::alloc::{AllocError, Global};
use text_form::{TextItem, TextValue};

/// What the items so far have said.
#[derive(Drop)]
pub(crate) struct Collector<'t> {
    /// The blocks that have ended.
    pub ended: Vec<KeptBlock<'t>>,
    /// The entries of all filters.
    pub entries: Vec<&'t [u8]>,
    pub level: KeptLevel<'t>,
    /// How many blocks are open that are skipped.
    pub skipped: u32,
}

/// A block says this from now on, or has a field that hasn't its kind.
#[tactic(auto, unfolding(crate::specs::Blocks::saying, crate::specs::Blocks::unfit))]
fn saying<'t>(block: KeptBlock<'t>, what: Option<KeptWhat<'t>>) -> KeptBlock<'t>
    ensures block { (entries : List (Bor (List ℕ))) → block_kept entries result
        ≡ blocks.saying (block_kept entries block.entry) (option_map (what_kept entries) what.entry) }
    ensures some { IfSome what.entry (λ said. result.what ≡ said) }
    ensures none { IfNone what.entry (result.what ≡ block.entry.what) }
{
    match what {
        None => KeptBlock {
            fits: false,
            ..block
        },
        Some(what) => KeptBlock { what, ..block },
    }
}

/// The same block with a field that hasn't its kind, where that is so.
#[tactic(auto, unfolding(crate::specs::Blocks::unfit))]
fn unfit_where<'t>(holds: bool, block: KeptBlock<'t>) -> KeptBlock<'t>
    ensures block { (entries : List (Bor (List ℕ))) → block_kept entries result
        ≡ (if holds then blocks.unfit (block_kept entries block.entry) else block_kept entries block.entry) }
    ensures what { result.what ≡ block.entry.what }
{
    if holds {
        KeptBlock {
            fits: false,
            ..block
        }
    } else {
        block
    }
}

/// A source with one more field. An entry of its filter joins those of all.
#[tactic(auto, unfolding(crate::specs::Blocks::source_with))]
fn source_with<'t>(
    entries: &mut Vec<&'t [u8]>,
    name: &[u8],
    value: TextValue<'t>,
    said: KeptSource<'t>,
) -> Result<Option<KeptSource<'t>>, AllocError>
    requires { IsNewest (vec_len entries.old) (kept.Source said) }
    ensures said { IfOk result (λ found. option_map (source_kept entries.new.items) found
        ≡ blocks.source_with name.now (value_of value.entry) (source_kept entries.old.items said.entry)) }
    ensures newest { IfOk result (λ found. IfSome found (λ source. IsNewest (vec_len entries.new) (kept.Source source))) }
    ensures stays { IfOk result (λ found. IfNone found (entries.new.items ≡ entries.old.items)) }
    ensures more { OnOk result (GrowsBy entries.old.items entries.new.items) }
{
    if name == b"producer_name_filter".as_slice() {
        let Some(entry) = text_in(value) else {
            return Ok(None);
        };
        entries.push(entry)?;
        let to = entries.len();
        return Ok(Some(KeptSource { to, ..said }));
    }
    if name == b"config".as_slice() {
        return Ok(None);
    }
    Ok(Some(said))
}

/// What a block says with one more field.
#[tactic(auto, unfolding(crate::specs::Blocks::what_with))]
fn what_with<'t>(
    entries: &mut Vec<&'t [u8]>,
    name: &[u8],
    value: TextValue<'t>,
    what: KeptWhat<'t>,
) -> Result<Option<KeptWhat<'t>>, AllocError>
    requires { IsNewest (vec_len entries.old) what }
    ensures said { IfOk result (λ found. option_map (what_kept entries.new.items) found
        ≡ blocks.what_with name.now (value_of value.entry) (what_kept entries.old.items what.entry)) }
    ensures newest { IfOk result (λ found. IfSome found (IsNewest (vec_len entries.new))) }
    ensures stays { IfOk result (λ found. IfNone found (entries.new.items ≡ entries.old.items)) }
    ensures more { OnOk result (GrowsBy entries.old.items entries.new.items) }
{
    match what {
        KeptWhat::Buffer(said) => match buffer_with(name, value, said) {
            None => Ok(None),
            Some(said) => Ok(Some(KeptWhat::Buffer(said))),
        },
        KeptWhat::Producer(said) => match producer_with(name, value, said) {
            None => Ok(None),
            Some(said) => Ok(Some(KeptWhat::Producer(said))),
        },
        KeptWhat::Source(said) => match source_with(entries, name, value, said)? {
            None => Ok(None),
            Some(said) => Ok(Some(KeptWhat::Source(said))),
        },
    }
}

/// What a block says with one more field in its `config`.
#[tactic(auto, unfolding(crate::specs::Blocks::what_with_config))]
fn what_with_config<'t>(
    name: &[u8],
    value: TextValue<'t>,
    what: KeptWhat<'t>,
) -> Option<KeptWhat<'t>>
    ensures said { (entries : List (Bor (List ℕ))) → option_map (what_kept entries) result
        ≡ blocks.what_with_config name.now (value_of value.entry) (what_kept entries what.entry) }
    ensures newest { (count : ℕ) → IsNewest count what.entry → IfSome result (IsNewest count) }
{
    match what {
        KeptWhat::Source(said) => config_with(name, value, said).map(KeptWhat::Source),
        other => Some(other),
    }
}

/// A block with one more field.
#[tactic(auto, unfolding(crate::specs::Blocks::with_value))]
fn with_value<'t>(
    entries: &mut Vec<&'t [u8]>,
    name: &[u8],
    value: TextValue<'t>,
    block: KeptBlock<'t>,
) -> Result<KeptBlock<'t>, AllocError>
    requires { IsNewest (vec_len entries.old) block.what }
    ensures block { IfOk result (λ more. block_kept entries.new.items more
        ≡ blocks.with_value name.now (value_of value.entry) (block_kept entries.old.items block.entry)) }
    ensures newest { IfOk result (λ more. IsNewest (vec_len entries.new) more.what) }
    ensures more { OnOk result (GrowsBy entries.old.items entries.new.items) }
{
    let what = what_with(entries, name, value, block.what)?;
    Ok(saying(block, what))
}

/// How many blocks are skipped behind one item more.
#[tactic(auto, using(crate::proofs::CollectingLemmas::skipped_single, crate::proofs::CollectingLemmas::skipped_begin, crate::proofs::CollectingLemmas::skipped_end))]
fn skipped_after(skipped: u32, item: TextItem<'_>) -> u32
    requires some { 0 < skipped }
    requires room { skipped + 1 < 2 ^ 32 }
    ensures seen { (closed : List Block) (level : Level)
        → item_in closed level skipped (item_of item.entry) ≡ skipping closed level result }
    ensures deeper { result ≤ skipped + 1 }
{
    match item {
        TextItem::Single { .. } => skipped,
        TextItem::Begin { .. } => skipped + 1,
        TextItem::End => skipped - 1,
    }
}

impl<'t> Collector<'t> {
    ghost use Rattle.std.specs.Prelude.{◌≡◌, ◌+◌, ◌<◌, ◌≤◌, ◌^◌, OnOk};
    ghost use Rattle.text_form.specs.Reading.{value_of, item_of};
    ghost use Rattle.config_text.specs.Kept.{blocks_kept, level_kept};
    ghost use Rattle.config_text.specs.Collecting.{nothing_collected, single_at, begin_at, end_at, collected_item};
    ghost use Rattle.config_text.specs.Collectors.{collected_of, IsLaid};

    /// Before the first item.
    #[tactic(auto, unfolding(crate::specs::Collecting::nothing_collected))]
    pub fn new(alloc: Global) -> Self
        ensures nothing { collected_of result ≡ nothing_collected }
        ensures laid { IsLaid result }
    {
        Collector {
            ended: Vec::new(alloc),
            entries: Vec::new(alloc),
            level: KeptLevel::Top,
            skipped: 0,
        }
    }

    #[tactic(auto, using(crate::proofs::KeptLemmas::blocks_push, crate::proofs::KeptLemmas::blocks_grown, crate::proofs::KeptLemmas::inside_grown, crate::proofs::KeptLemmas::inside_push), unfolding(crate::specs::Collecting::single_at, crate::specs::Collecting::at_level, crate::specs::Blocks::value_block, crate::specs::Blocks::begun, crate::specs::Blocks::unfit, crate::specs::Blocks::with_config_value))]
    fn take_single(
        &mut self,
        line: u32,
        name: &[u8],
        value: TextValue<'t>,
    ) -> Result<(), AllocError>
        requires laid { IsLaid self.old }
        requires seen { self.old.skipped ≡ 0 }
        ensures laid { OnOk result (IsLaid self.new) }
        ensures collected { OnOk result (collected_of self.new ≡ single_at (blocks_kept self.old.entries.items self.old.ended.items)
            (level_kept self.old.entries.items self.old.level) line name.now (value_of value.entry)) }
        ensures skipped { self.new.skipped ≡ self.old.skipped }
    {
        match self.level {
            KeptLevel::Top => {
                if let Some(what) = kind_of(name, self.entries.len()) {
                    let fits = false;
                    self.ended.push(KeptBlock { line, fits, what })?;
                }
            }
            KeptLevel::Block(block) => {
                let block = with_value(&mut self.entries, name, value, block)?;
                self.level = KeptLevel::Block(block);
            }
            KeptLevel::Config(block) => {
                let what = what_with_config(name, value, block.what);
                self.level = KeptLevel::Config(saying(block, what));
            }
        }
        Ok(())
    }

    #[tactic(auto, unfolding(crate::specs::Collecting::begin_at, crate::specs::Collecting::top_at, crate::specs::Collecting::at_level, crate::specs::Collecting::skipping, crate::specs::Blocks::begun, crate::specs::Blocks::with_block, crate::specs::Blocks::with_config_block))]
    fn take_begin(&mut self, line: u32, name: &[u8])
        requires laid { IsLaid self.old }
        requires seen { self.old.skipped ≡ 0 }
        ensures laid { IsLaid self.new }
        ensures collected { collected_of self.new ≡ begin_at (blocks_kept self.old.entries.items self.old.ended.items)
            (level_kept self.old.entries.items self.old.level) line name.now }
        ensures skipped { self.new.skipped ≤ 1 }
    {
        match self.level {
            KeptLevel::Top => match kind_of(name, self.entries.len()) {
                None => self.skipped = 1,
                Some(what) => {
                    let fits = true;
                    self.level = KeptLevel::Block(KeptBlock { line, fits, what });
                }
            },
            KeptLevel::Block(block) => {
                if opens_config(name, block.what) {
                    self.level = KeptLevel::Config(block);
                } else {
                    let block = unfit_where(wants_value(name, block.what), block);
                    self.level = KeptLevel::Block(block);
                    self.skipped = 1;
                }
            }
            KeptLevel::Config(block) => {
                let block = unfit_where(config_wants_value(name), block);
                self.level = KeptLevel::Config(block);
                self.skipped = 1;
            }
        }
    }

    #[tactic(auto, using(crate::proofs::KeptLemmas::blocks_push, crate::proofs::KeptLemmas::inside_push), unfolding(crate::specs::Collecting::end_at, crate::specs::Collecting::at_level))]
    fn take_end(&mut self) -> Result<(), AllocError>
        requires laid { IsLaid self.old }
        requires seen { self.old.skipped ≡ 0 }
        ensures laid { OnOk result (IsLaid self.new) }
        ensures collected { OnOk result (collected_of self.new ≡ end_at (blocks_kept self.old.entries.items self.old.ended.items)
            (level_kept self.old.entries.items self.old.level)) }
        ensures skipped { self.new.skipped ≡ self.old.skipped }
    {
        match self.level {
            KeptLevel::Top => {}
            KeptLevel::Block(block) => {
                self.ended.push(block)?;
                self.level = KeptLevel::Top;
            }
            KeptLevel::Config(block) => self.level = KeptLevel::Block(block),
        }
        Ok(())
    }

    /// The next item of the text.
    #[tactic(auto, unfolding(crate::specs::Collecting::collected_item, crate::specs::Collecting::item_in, crate::specs::Collecting::item_seen, crate::specs::Collecting::skipping))]
    pub fn take(&mut self, item: TextItem<'t>) -> Result<(), AllocError>
        requires laid { IsLaid self.old }
        requires room { self.old.skipped + 1 < 2 ^ 32 }
        ensures laid { OnOk result (IsLaid self.new) }
        ensures collected { OnOk result (collected_of self.new ≡ collected_item (collected_of self.old) (item_of item.entry)) }
        ensures skipped { self.new.skipped ≤ self.old.skipped + 1 }
    {
        if self.skipped > 0 {
            self.skipped = skipped_after(self.skipped, item);
            return Ok(());
        }
        match item {
            TextItem::Single { line, name, value } => self.take_single(line, name, value),
            TextItem::Begin { line, name } => {
                self.take_begin(line, name);
                Ok(())
            }
            TextItem::End => self.take_end(),
        }
    }
}
