//! The configuration that blocks say of which none is refused.
ghost use Rattle.std.specs.Prelude.{◌≡◌, ℕ, List, [], ◌∷◌, ◌++◌, length, map, IfOk, OnOk};
ghost use Rattle.std.specs.Borrow.{Bor};
ghost use Rattle.config_text.specs.Kept.{texts, producer_kept, source_kept, block_kept, blocks_kept, IsInside, AreInside};
ghost use Rattle.config_text.specs.Narrow as narrowed;
ghost use Rattle.config_text.specs.Narrow.{narrow, narrow_place};
ghost use Rattle.config_text.specs.Reasons.{buffers_said, sources_said};
ghost use Rattle.config_text.specs.declared.kept.KeptWhat.TheVariants as kept;

use crate::config::{Config, ConfigBuffer, ConfigProducer, ConfigSource, Name};
use crate::finding::producer_place;
use crate::kept::{BufferSaid, KeptBlock, KeptProducer, KeptSource, KeptWhat};
use crate::look_ups::LookUps;
use std::alloc::{AllocError, Global};
use trace_base::numeral::Numeral;

/// A number, where it has 32 bits; each that isn't refused has.
#[tactic(auto, unfolding(crate::specs::Narrow::narrow))]
fn narrow(number: Numeral) -> u32
    ensures { result ≡ narrow 4294967296 number }
{
    match number {
        Numeral::Fits(n) if n <= u64::from(u32::MAX) => n as u32,
        _ => 0,
    }
}

/// A place among buffers, where it has 8 bits.
#[tactic(auto, unfolding(crate::specs::Narrow::narrow))]
fn narrow_target(number: Numeral) -> u8
    ensures { result ≡ narrow 256 number }
{
    match number {
        Numeral::Fits(n) if n <= u64::from(u8::MAX) => n as u8,
        _ => 0,
    }
}

/// The number of a producer at a place, where it has 16 bits.
#[tactic(auto, unfolding(crate::specs::Narrow::narrow_place))]
fn narrow_place(place: usize) -> u16
    ensures { result ≡ narrow_place place }
{
    if place < usize::from(u16::MAX) {
        place as u16 + 1
    } else {
        0
    }
}

#[tactic(auto, unfolding(crate::specs::Narrow::buffer_of))]
fn buffer_of(said: BufferSaid) -> ConfigBuffer
    ensures { result ≡ narrowed.buffer_of said }
{
    ConfigBuffer {
        size_kb: narrow(said.size_kb.unwrap_or(Numeral::Fits(0))),
        policy: said.policy,
    }
}

#[tactic(auto, unfolding(crate::specs::Narrow::producer_of))]
fn producer_of(alloc: Global, said: KeptProducer<'_>) -> Result<ConfigProducer, AllocError>
    ensures { IfOk result (λ producer. producer ≡ narrowed.producer_of (producer_kept said.entry)) }
{
    Ok(ConfigProducer {
        name: Name::new(alloc, said.name)?,
        shm_size_kb: narrow(said.shm_size_kb),
        page_size_kb: narrow(said.page_size_kb),
    })
}

#[tactic(auto, unfolding(crate::specs::Narrow::source_of))]
fn source_of(
    alloc: Global,
    producers: &[KeptProducer<'_>],
    said: KeptSource<'_>,
    entries: &[&[u8]],
) -> Result<ConfigSource, AllocError>
    requires { IsInside (length entries.now) (kept.Source said) }
    ensures { IfOk result (λ source. source ≡ narrowed.source_of (map producer_kept producers.now) (source_kept entries.now said.entry)) }
{
    let place = producer_place(alloc, producers, &entries[said.from..said.to])?;
    Ok(ConfigSource {
        name: Name::new(alloc, said.name)?,
        target_buffer: narrow_target(said.target),
        producer: narrow_place(place),
    })
}

/// Adds what a block says, where it is one of a buffer.
#[tactic(auto, unfolding(crate::specs::Reasons::buffer_in))]
fn add_buffer(buffers: &mut Vec<ConfigBuffer>, block: &KeptBlock<'_>) -> Result<(), AllocError>
    ensures { OnOk result ((entries : List (Bor (List ℕ)))
        → buffers.new.items ≡ buffers.old.items ++ map narrowed.buffer_of (buffers_said (block_kept entries block.now ∷ []))) }
{
    if let KeptWhat::Buffer(said) = block.what {
        buffers.push(buffer_of(said))?;
    }
    Ok(())
}

fn buffers_of(alloc: Global, blocks: &[KeptBlock<'_>]) -> Result<Vec<ConfigBuffer>, AllocError>
    ensures { IfOk result (λ buffers. (entries : List (Bor (List ℕ)))
        → buffers.items ≡ map narrowed.buffer_of (buffers_said (blocks_kept entries blocks.now))) }
{
    let mut buffers = Vec::new(alloc);
    for block in blocks {
        add_buffer(&mut buffers, block)?;
    }
    Ok(buffers)
}

fn producers_of(
    alloc: Global,
    producers: &[KeptProducer<'_>],
) -> Result<Vec<ConfigProducer>, AllocError>
    ensures { IfOk result (λ made. made.items ≡ map narrowed.producer_of (map producer_kept producers.now)) }
{
    let mut made = Vec::new(alloc);
    for producer in producers {
        made.push(producer_of(alloc, *producer)?)?;
    }
    Ok(made)
}

/// The same where it is one of a source.
#[tactic(auto, unfolding(crate::specs::Reasons::source_in))]
fn add_source(
    alloc: Global,
    sources: &mut Vec<ConfigSource>,
    producers: &[KeptProducer<'_>],
    block: &KeptBlock<'_>,
    entries: &[&[u8]],
) -> Result<(), AllocError>
    requires { IsInside (length entries.now) block.now.what }
    ensures { OnOk result (sources.new.items ≡ sources.old.items
        ++ map (narrowed.source_of (map producer_kept producers.now)) (sources_said (block_kept entries.now block.now ∷ []))) }
{
    if let KeptWhat::Source(said) = block.what {
        sources.push(source_of(alloc, producers, said, entries)?)?;
    }
    Ok(())
}

fn sources_of(
    alloc: Global,
    producers: &[KeptProducer<'_>],
    blocks: &[KeptBlock<'_>],
    entries: &[&[u8]],
) -> Result<Vec<ConfigSource>, AllocError>
    requires { AreInside (length entries.now) blocks.now }
    ensures { IfOk result (λ sources. sources.items
        ≡ map (narrowed.source_of (map producer_kept producers.now)) (sources_said (blocks_kept entries.now blocks.now))) }
{
    let mut sources = Vec::new(alloc);
    for block in blocks {
        add_source(alloc, &mut sources, producers, block, entries)?;
    }
    Ok(sources)
}

impl LookUps<'_> {
    ghost use Rattle.std.specs.Prelude.{◌≡◌, length, IfOk};
    ghost use Rattle.config_text.specs.Configs.{parts_of};
    ghost use Rattle.config_text.specs.Kept.{blocks_kept, AreInside};
    ghost use Rattle.config_text.specs.Looking.{known_of};
    ghost use Rattle.config_text.specs.Narrow.{config_known};

    /// What the blocks say.
    #[tactic(auto, unfolding(crate::specs::Narrow::config_known))]
    pub fn config(
        &self,
        alloc: Global,
        blocks: &[KeptBlock<'_>],
        entries: &[&[u8]],
    ) -> Result<Config, AllocError>
        requires { AreInside (length entries.now) blocks.now }
        ensures { IfOk result (λ config. parts_of config ≡ config_known (known_of self.now).producers (blocks_kept entries.now blocks.now)) }
    {
        Ok(Config {
            buffers: buffers_of(alloc, blocks)?,
            producers: producers_of(alloc, &self.producers)?,
            sources: sources_of(alloc, &self.producers, blocks, entries)?,
        })
    }
}
