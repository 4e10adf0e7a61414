//! What a text says for the look-ups of its sources.
ghost use Rattle.std.specs.Prelude.{◌≡◌};
ghost use Rattle.config_text.specs.Reasons as reasons;

use crate::fields::no_producer;
use crate::kept::{BufferSaid, KeptBlock, KeptProducer, KeptWhat};
use std::alloc::{AllocError, Global};
use trace_base::numeral::Numeral;

#[derive(Drop)]
pub(crate) struct LookUps<'t> {
    /// The sizes of all `buffers` blocks, where they count.
    pub sizes: Vec<Option<Numeral>>,
    /// What all `producers` blocks have said, or the one producer of a text without any.
    pub producers: Vec<KeptProducer<'t>>,
    /// Whether none of these has a field that hasn't its kind.
    pub fit: bool,
}

#[tactic(auto, unfolding(crate::specs::Reasons::counted_size))]
fn counted_size(fits: bool, said: BufferSaid) -> Option<Numeral>
    ensures { result ≡ reasons.counted_size fits said }
{
    if fits { said.size_kb } else { None }
}

impl<'t> LookUps<'t> {
    ghost use Rattle.std.specs.Prelude.{◌≡◌, ◌&&◌, List, [], ◌∷◌, ◌++◌, ℕ, map, IfOk, OnOk};
    ghost use Rattle.std.specs.Borrow.{Bor};
    ghost use Rattle.config_text.specs.Kept.{producer_kept, what_kept, block_kept, blocks_kept};
    ghost use Rattle.config_text.specs.Reasons.{sizes_in, producers_said, is_fit_producer, or_default, known_in};
    ghost use Rattle.config_text.specs.Looking.{known_of};

    /// One block more.
    #[tactic(auto, unfolding(crate::specs::Reasons::size_in, crate::specs::Reasons::producer_in, crate::specs::Reasons::is_fit_producer))]
    fn add(&mut self, block: KeptBlock<'t>) -> Result<(), AllocError>
        ensures sizes { OnOk result ((entries : List (Bor (List ℕ))) → self.new.sizes.items
            ≡ self.old.sizes.items ++ sizes_in (block_kept entries block.entry ∷ [])) }
        ensures producers { OnOk result ((entries : List (Bor (List ℕ))) → map producer_kept self.new.producers.items
            ≡ map producer_kept self.old.producers.items ++ producers_said (block_kept entries block.entry ∷ [])) }
        ensures fit { OnOk result ((entries : List (Bor (List ℕ))) → self.new.fit
            ≡ (self.old.fit && is_fit_producer block.entry.fits (what_kept entries block.entry.what))) }
    {
        match block.what {
            KeptWhat::Buffer(said) => self.sizes.push(counted_size(block.fits, said))?,
            KeptWhat::Producer(said) => {
                self.producers.push(said)?;
                self.fit = self.fit && block.fits;
            }
            KeptWhat::Source(_) => {}
        }
        Ok(())
    }

    /// A text without `producers` blocks has one producer.
    #[tactic(auto, using(crate::proofs::LookUpLemmas::default_pushed, crate::proofs::LookUpLemmas::default_kept))]
    fn add_default(&mut self) -> Result<(), AllocError>
        ensures producers { OnOk result (map producer_kept self.new.producers.items ≡ or_default (map producer_kept self.old.producers.items)) }
        ensures sizes { self.new.sizes.items ≡ self.old.sizes.items }
        ensures fit { self.new.fit ≡ self.old.fit }
    {
        if self.producers.is_empty() {
            self.producers.push(no_producer())?;
        }
        Ok(())
    }

    pub fn new(alloc: Global, blocks: &[KeptBlock<'t>]) -> Result<LookUps<'t>, AllocError>
        ensures { IfOk result (λ known. (entries : List (Bor (List ℕ))) → known_of known ≡ known_in (blocks_kept entries blocks.now)) }
    {
        let mut known = LookUps {
            sizes: Vec::new(alloc),
            producers: Vec::new(alloc),
            fit: true,
        };
        for block in blocks {
            known.add(*block)?;
        }
        known.add_default()?;
        Ok(known)
    }
}
