//! What each atomic step does, as a value.

/// A step, with all that its seat keeps of it beside what it finds.
#[derive(Clone, Copy)]
pub enum Move {
    /// A user reads the word of a place before it sets the place's claim bit. Where it finds the bit
    /// set, that is a claim in vain.
    Test {
        page: u8,
        place: u8,
    },
    /// A user sets the claim bit of a place.
    Claim {
        page: u8,
        place: u8,
    },
    /// A user begins a chunk that it has claimed.
    Begin {
        page: u8,
        place: u8,
    },
    /// A user completes a chunk that it holds.
    Complete {
        page: u8,
        place: u8,
    },
    /// A user gives back a chunk that it has claimed.
    Give {
        page: u8,
        place: u8,
    },
    /// A user that has claimed all chunks of a page stores a new word: this layout with so many chunks.
    Retile {
        page: u8,
        layout: u8,
        chunks: u8,
        generation: u32,
    },
    /// The collector of a table with so many users reads the word of a place.
    Look {
        users: u8,
        page: u8,
        place: u8,
    },
    /// The collector takes a chunk that it found complete.
    Take {
        page: u8,
        place: u8,
    },
    /// The collector gives a chunk back that it took.
    Release {
        page: u8,
        place: u8,
    },
}
