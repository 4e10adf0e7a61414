//! What plays frames: a service over a table of chunks of which none is used.
ghost use Rattle.std.specs.Prelude.{◌≤◌, vec_capacity};
ghost use Rattle.trace_base.specs.declared.limits.TheConstants.{MAX_PAGE_SIZE};

use arrayvec::ArrayVec;
use commit_body::{MAX_PATCHES, Patch};
use service_core::ServiceCore;

/// A table, the service over it, and what became of the commits so far.
#[derive(Drop)]
pub struct Player<T, S> {
    pub table: T,
    pub service: ServiceCore<S>,
    /// Room for the payload of any chunk.
    pub(crate) payload: Vec<u8>,
    /// And for the patches of any commit.
    pub(crate) patches: ArrayVec<Patch, MAX_PATCHES>,
    pub(crate) commits: u64,
    /// Of these, how many were refused.
    pub(crate) refused: u64,
    ghost room: { MAX_PAGE_SIZE ≤ vec_capacity payload },
}
