//! How far a read has come.
use crate::held::Held;
use crate::spot::Spot;

/// How far a read has come.
#[derive(Clone, Copy, Debug, PartialEq, Eq)]
pub struct Progress {
    pub at: Spot,
    /// A chunk that it holds: mostly that of its spot.
    pub held: Held,
    /// The next packet that is delivered is marked.
    pub marked: bool,
    pub delivered: u64,
}
