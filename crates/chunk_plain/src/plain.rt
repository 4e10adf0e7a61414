//! The table of one thread.
ghost use Rattle.std.specs.Prelude.{◌≡◌, ◌+◌, ◌-◌, ◌<◌, ◌≤◌, All, length, vec_len, IfOk};
ghost use Rattle.trace_base.specs.declared.limits.TheConstants.{MAX_PRODUCERS, MAX_WRITERS, MAX_PAGES};
ghost use Rattle.chunk_plain.specs.Setup.{IsLaid, range_of};
ghost use Rattle.chunk_plain.specs.Plain.{IsKept};
ghost use Rattle.chunk_plain.specs.Made.{HasSeats, IsNewPlain};

use crate::layout::Layout;
use crate::plain_seats::{PlainService, PlainWriter};
use crate::setup::ProducerSpec;
use crate::slots::{Slot, free_slots};
use crate::words::Words;
use crate::worlds::ToldWorld;
use std::alloc::{AllocError, Global};
use trace_base::policy::WriterSpec;

/// A table that one thread has to itself. It tells its whole world.
#[derive(Drop)]
pub struct PlainTable {
    pub(crate) layout: Layout,
    /// The word of each page, and then the header word of each chunk.
    pub(crate) words: Vec<u64>,
    /// The payload words of each chunk, and its body.
    pub(crate) slots: Vec<Slot>,
    /// The world that words and slots show.
    pub(crate) told: ToldWorld,
    ghost laid: { IsLaid layout },
    ghost few_writers: { length layout.writers ≤ MAX_WRITERS },
    ghost word_count: { vec_len words ≡ layout.pages + length layout.spots },
    ghost slot_count: { vec_len slots ≡ length layout.spots },
    pub ghost kept: { ∥ IsKept layout words.items slots.items told.world ∥₁ },
}

impl PlainTable {
    /// A table for these producers and writers, with the seats of the writers in their order.
    /// Nothing is claimed, all words are 0, and each chunk's body lies in the table.
    pub fn make(
        alloc: Global,
        producers: &[ProducerSpec],
        writers: &[WriterSpec],
    ) -> Result<(PlainTable, Vec<PlainWriter>, PlainService), AllocError>
        requires producers { length producers.now ≤ MAX_PRODUCERS }
        requires some_page { All (λ producer. 1 ≤ producer.pages) producers.now }
        requires pages { All (λ producer. producer.pages ≤ MAX_PAGES) producers.now }
        requires writers { length writers.now ≤ MAX_WRITERS }
        ensures { IfOk result (λ made. IsNewPlain ⟦<PlainTable as Words>⟧.means producers.now writers.now
            made.0 made.0.words.items made.0.slots.items made.1.items made.2) }
    {
        let layout = Layout::make(alloc, producers, writers)?;
        let words = vec![in alloc; 0; layout.word_count()]?;
        let slots = free_slots(alloc, layout.spots())?;
        let seats = make_seats(alloc, writers)?;
        let told = ToldWorld::first(&layout);
        let table = PlainTable {
            layout,
            words,
            slots,
            told,
        };
        Ok((table, seats, PlainService {}))
    }

    /// First chunk and number of a producer's chunks. Producers count from 1.
    pub fn chunks_of(&self, producer: u16) -> (u32, u32)
        requires least { 1 ≤ producer }
        requires most { producer ≤ length (⟦<PlainTable as Words>⟧.means.setup self.now).ranges }
        ensures { let range = range_of (⟦<PlainTable as Words>⟧.means.setup self.now) producer in result ≡ (range.first, range.count) }
    {
        self.layout.chunks_of(producer)
    }
}

fn make_seats(alloc: Global, writers: &[WriterSpec]) -> Result<Vec<PlainWriter>, AllocError>
    requires { length writers.now ≤ MAX_WRITERS }
    ensures { IfOk result (λ seats. HasSeats (length writers.now) seats.items) }
{
    let mut seats = Vec::new(alloc);
    for place in 0..writers.len() as u16 {
        seats.push(PlainWriter { place })?;
    }
    Ok(seats)
}
