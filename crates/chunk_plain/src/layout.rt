//! The set-up of a table at run time.
ghost use Rattle.std.specs.Prelude.{◌≡◌, ℕ, [], ◌+◌, ◌-◌, ◌*◌, ◌^◌, ◌<◌, ◌≤◌, ◌++◌, All, length, IfOk, OnOk, vec_len};
ghost use Rattle.trace_base.specs.declared.limits.TheConstants.{MAX_CHUNKS_PER_PAGE, MAX_PRODUCERS, MAX_WRITERS, MAX_PAGES};
ghost use Rattle.chunk_plain.specs.Setup.{spot, range_of, id_at, position_at};
ghost use Rattle.chunk_plain.specs.Laying.{page_spots, pages_spots, spots_of, ranges_of, sizes_of, pages_in, setup_of};

use crate::setup::{ChunkRange, ProducerSpec, Spot};
use page_geometry::Geometry;
use std::alloc::{AllocError, Global};
use std::marker::Model;
use trace_base::ids::{id_of, position_of};
use trace_base::policy::WriterSpec;

/// Where each chunk lies, which chunks each producer has, and who writes.
#[derive(Drop)]
pub struct Layout {
    pages: u32,
    spots: Vec<Spot>,
    ranges: Vec<ChunkRange>,
    sizes: Vec<u32>,
    writers: Vec<WriterSpec>,
}

impl Model for Layout {
    ghost use Rattle.chunk_plain.specs.Setup.{Setup, IsLaid};

    ghost Value = { Setup };

    ghost view = { λ layout. record { pages = layout.pages; spots = layout.spots.items; ranges = layout.ranges.items; sizes = layout.sizes.items; writers = layout.writers.items } };

    ghost invariant = { λ layout. IsLaid (record { pages = layout.pages; spots = layout.spots.items; ranges = layout.ranges.items; sizes = layout.sizes.items; writers = layout.writers.items }) };
}

impl Layout {
    ghost use Rattle.chunk_plain.specs.Setup.{IsLaid};

    /// Where the chunk lies.
    pub fn spot(&self, chunk: u32) -> Spot
        requires { chunk < length self.now.spots }
        ensures spot { result ≡ spot self.now chunk }
        ensures page { result.page < self.now.pages }
        ensures place { result.place < MAX_CHUNKS_PER_PAGE }
        ensures layout { result.layout < 8 }
    {
        self.spots[chunk as usize]
    }

    /// The index of the chunk's header word, behind the page words.
    pub fn header_index(&self, chunk: u32) -> usize
        requires { chunk < length self.now.spots }
        ensures { result ≡ self.now.pages + chunk }
    {
        self.pages as usize + chunk as usize
    }

    /// First chunk and number of a producer's chunks. Producers count from 1.
    pub fn chunks_of(&self, producer: u16) -> (u32, u32)
        requires least { 1 ≤ producer }
        requires most { producer ≤ length self.now.ranges }
        ensures { result ≡ ((range_of self.now producer).first, (range_of self.now producer).count) }
    {
        let range = self.ranges[producer as usize - 1];
        (range.first, range.count)
    }

    /// The id of the chunk at this position of the writer at this place, from 0.
    pub fn id_at(&self, place: u16, position: u32) -> u32
        requires { place < length self.now.writers }
        ensures { result ≡ id_at self.now place position }
    {
        id_of(self.writers[place as usize].from, position)
    }

    /// The position of the chunk with this id.
    pub fn position_at(&self, place: u16, id: u32) -> u32
        requires { place < length self.now.writers }
        ensures { result ≡ position_at self.now place id }
    {
        position_of(self.writers[place as usize].from, id)
    }

    /// Pages and chunks.
    pub fn word_count(&self) -> usize
        ensures { result ≡ self.now.pages + length self.now.spots }
    {
        self.pages as usize + self.spots.len()
    }

    pub fn spots(&self) -> &[Spot]
        ensures { result.now ≡ self.now.spots }
    {
        &self.spots
    }

    /// Lays out the chunks of these producers, for these writers.
    pub fn make(
        alloc: Global,
        producers: &[ProducerSpec],
        writers: &[WriterSpec],
    ) -> Result<Layout, AllocError>
        requires producers { length producers.now ≤ MAX_PRODUCERS }
        requires some_page { All (λ producer. 1 ≤ producer.pages) producers.now }
        requires pages { All (λ producer. producer.pages ≤ MAX_PAGES) producers.now }
        ensures { IfOk result (λ layout. layout ≡ setup_of producers.now writers.now) }
    {
        let mut spots = Vec::new(alloc);
        let mut ranges = Vec::new(alloc);
        let pages = add_producers(&mut spots, &mut ranges, producers)?;
        let sizes = payload_sizes(alloc, producers)?;
        Ok(Layout {
            pages,
            spots,
            ranges,
            sizes,
            writers: writers.to_vec(alloc)?,
        })
    }
}

/// Adds the chunks of all producers; answers how many pages they have.
fn add_producers(
    spots: &mut Vec<Spot>,
    ranges: &mut Vec<ChunkRange>,
    producers: &[ProducerSpec],
) -> Result<u32, AllocError>
    requires producers { length producers.now ≤ MAX_PRODUCERS }
    requires pages { All (λ producer. producer.pages ≤ MAX_PAGES) producers.now }
    requires spots { spots.old.items ≡ [] }
    requires ranges { ranges.old.items ≡ [] }
    ensures spots { OnOk result (spots.new.items ≡ spots_of 0 producers.now) }
    ensures ranges { OnOk result (ranges.new.items ≡ ranges_of 0 producers.now) }
    ensures pages { IfOk result (λ pages. pages ≡ pages_in producers.now) }
{
    let mut pages = 0;
    let mut first = 0;
    for producer in producers {
        let count = u32::from(producer.pages) * u32::from(producer.geometry.chunks());
        add_pages(spots, pages, producer.pages, producer.geometry)?;
        ranges.push(ChunkRange { first, count })?;
        pages += u32::from(producer.pages);
        first += count;
    }
    Ok(pages)
}

/// The payload size of each producer's chunks.
fn payload_sizes(alloc: Global, producers: &[ProducerSpec]) -> Result<Vec<u32>, AllocError>
    ensures { IfOk result (λ sizes. sizes.items ≡ sizes_of producers.now) }
{
    let mut sizes = Vec::new(alloc);
    for producer in producers {
        sizes.push(producer.geometry.payload_size())?;
    }
    Ok(sizes)
}

/// Adds the chunks of so many pages, from this one on.
fn add_pages(
    spots: &mut Vec<Spot>,
    page: u32,
    pages: u8,
    geometry: Geometry,
) -> Result<(), AllocError>
    requires { page + pages < 2 ^ 32 }
    ensures { OnOk result (spots.new.items ≡ spots.old.items ++ pages_spots page geometry pages) }
{
    for k in 0..pages {
        add_page(spots, page + u32::from(k), geometry)?;
    }
    Ok(())
}

/// Adds the chunks of one page.
fn add_page(spots: &mut Vec<Spot>, page: u32, geometry: Geometry) -> Result<(), AllocError>
    ensures { OnOk result (spots.new.items ≡ spots.old.items ++ page_spots page geometry geometry.chunks) }
{
    for place in 0..geometry.chunks() {
        spots.push(Spot {
            page,
            place,
            chunks: geometry.chunks(),
            layout: geometry.layout_number(),
            payload_size: geometry.payload_size(),
        })?;
    }
    Ok(())
}
