//! How large the counts of taken chunks are.
ghost use Rattle.std.specs.Prelude.{ℕ, ◌<◌, ◌^◌, slice_index};

use crate::service::ServiceCore;

/// Does nothing: a caller knows by this contract that the counts are numbers of 32 bits.
fn counts_fit(counts: &[u32])
    ensures { (place : ℕ) → slice_index counts.now place < 2 ^ 32 }
{}

impl<S> ServiceCore<S> {
    /// Does nothing: a caller knows by this contract that the counts of taken chunks are numbers of 32
    /// bits.
    pub fn ids_fit(&self)
        ensures { (place : ℕ) → slice_index self.now.taken.items place < 2 ^ 32 }
    {
        counts_fit(&self.taken);
    }
}
