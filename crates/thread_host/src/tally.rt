//! The sums of flush requests, by the answers that the service has read.
ghost use Rattle.std.specs.Prelude.{◌≡◌, ◌↔◌, ℕ, ◌<◌, ◌≤◌, List, [], ◌∷◌, ◌++◌, IsTrue, IfOk, vec_len, slice_index};
ghost use Rattle.trace_base.specs.declared.limits.TheConstants.{MAX_WRITERS};
ghost use Rattle.chunk_plain.specs.Views.{Letter, Heard};
ghost use Rattle.thread_host.specs.Tally.{IsTally};

use std::alloc::{AllocError, Global};

/// Of each request the chunks that the first answers to it or to a later one counted, with room for all
/// requests; and of each writer the newest request to which an answer was read.
#[derive(Drop)]
pub struct Tally {
    pub(crate) sums: Vec<u64>,
    pub(crate) answered: Vec<u32>,
}

impl Tally {
    /// Room for so many requests of so many writers, none of whose answers was read. All memory is taken here.
    pub fn make(alloc: Global, requests: usize, writers: usize) -> Result<Tally, AllocError>
        requires { writers ≤ MAX_WRITERS }
        ensures { IfOk result (λ tally. IsTally requests writers [] tally) }
    {
        Ok(Tally {
            sums: vec![in alloc; 0; requests]?,
            answered: vec![in alloc; 0; writers]?,
        })
    }

    /// Whether this request is newer than those to which answers of the writer at this place were read.
    pub fn is_newer(&self, place: usize, flush: u32) -> bool
        requires { place < vec_len self.now.answered }
        ensures { IsTrue result ↔ slice_index self.now.answered.items place < flush }
    {
        self.answered[place] < flush
    }

    /// An answer of the writer at this place to a newer request was read: it is one to each request
    /// since the last one that the writer answered.
    pub fn add(&mut self, place: usize, flush: u32, chunks: u32)
        requires tally { (requests : ℕ) × (writers : ℕ) × (letters : List Letter) × IsTally requests writers letters self.old }
        requires place { place < vec_len self.old.answered }
        requires room { flush ≤ vec_len self.old.sums }
        requires newer { slice_index self.old.answered.items place < flush }
        ensures tally { (requests writers : ℕ) (letters : List Letter) → IsTally requests writers letters self.old
            → IsTally requests writers (letters ++ Heard place flush chunks ∷ []) self.new }
    {
        for index in self.answered[place]..flush {
            self.sums[index as usize] += u64::from(chunks);
        }
        self.answered[place] = flush;
    }

    /// The sums, in the order of the requests.
    pub fn into_sums(self) -> Vec<u64>
        ensures { result ≡ self.sums }
    {
        let Tally { sums, answered: _ } = self;
        sums
    }
}
