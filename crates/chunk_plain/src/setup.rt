//! The set-up of a table: who has which chunks, and where each chunk lies.
use page_geometry::Geometry;

/// A producer's pages, which are all cut alike.
#[derive(Clone, Copy, Debug, PartialEq, Eq)]
pub struct ProducerSpec {
    /// From 1 to 64.
    pub pages: u8,
    pub geometry: Geometry,
}

/// Where a chunk lies, and how long its payload is.
#[derive(Clone, Copy, Debug, PartialEq, Eq)]
pub struct Spot {
    /// The number of its page, over all producers from 0.
    pub page: u32,
    /// Its place in the page.
    pub place: u8,
    /// The chunks of the page.
    pub chunks: u8,
    /// The number of the page's layout.
    pub layout: u8,
    pub payload_size: u32,
}

/// The chunks of one producer: they have the numbers from `first` on.
#[derive(Clone, Copy, Debug, PartialEq, Eq)]
pub struct ChunkRange {
    pub first: u32,
    pub count: u32,
}
