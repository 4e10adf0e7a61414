//! What is kept for the report while lines are played: flush requests with what writers answered, and
//! the answers to commits.
ghost use Rattle.std.specs.Prelude.{◌≡◌, ◌↔◌, ℕ, ◌+◌, ◌<◌, ◌≤◌, List, [], ◌∷◌, ◌++◌, IsTrue, IfOk, vec_len, vec_capacity, slice_index, slice_set};
ghost use Rattle.trace_base.specs.declared.limits.TheConstants.{MAX_WRITERS};
ghost use Rattle.replay_model.specs.ActNotes.{ActNote, Requested, Answered, Told};
ghost use Rattle.replay_host.specs.Tally.{IsTally};

use loss_report::RawAnswer;
use std::alloc::{AllocError, Global};

/// The chunks that the answers to each request named so far, with room for all requests; how many
/// requests were made; of each writer how many it has answered; and the answers to commits, with room
/// for all of them.
#[derive(Drop)]
pub struct Flushes {
    pub chunks: Vec<u64>,
    pub made: usize,
    pub answered: Vec<usize>,
    pub answers: Vec<RawAnswer>,
}

impl Flushes {
    /// Room for so many requests, of which none was made, and for the answers to so many commits.
    pub fn make(
        alloc: Global,
        requests: usize,
        commits: usize,
        writers: usize,
    ) -> Result<Flushes, AllocError>
        requires { writers ≤ MAX_WRITERS }
        ensures tally { IfOk result (λ flushes. IsTally [] writers flushes) }
        ensures room { IfOk result (λ flushes. vec_len flushes.chunks ≡ requests) }
        ensures told_room { IfOk result (λ flushes. commits ≤ vec_capacity flushes.answers) }
    {
        Ok(Flushes {
            chunks: vec![in alloc; 0; requests]?,
            made: 0,
            answered: vec![in alloc; 0; writers]?,
            answers: Vec::with_capacity(alloc, commits)?,
        })
    }

    /// A request was made, for which there is room.
    pub fn request(&mut self)
        requires { self.old.made < vec_len self.old.chunks }
        ensures tally { (notes : List ActNote) (writers : ℕ) → IsTally notes writers self.old
            → IsTally (notes ++ Requested ∷ []) writers self.new }
        ensures made { self.new.made ≡ self.old.made + 1 }
        ensures answered { self.new.answered ≡ self.old.answered }
        ensures room { vec_len self.new.chunks ≡ vec_len self.old.chunks }
        ensures told { self.new.answers ≡ self.old.answers }
    {
        self.made += 1;
    }

    /// The writer at this place answered each request that it hadn't answered, with so many chunks.
    pub fn answer(&mut self, place: usize, chunks: u32)
        requires { (notes : List ActNote) × (writers : ℕ) × IsTally notes writers self.old × (place < writers) }
        ensures tally { (notes : List ActNote) (writers : ℕ) → IsTally notes writers self.old
            → IsTally (notes ++ Answered place chunks ∷ []) writers self.new }
        ensures made { self.new.made ≡ self.old.made }
        ensures answered { self.new.answered.items ≡ slice_set self.old.answered.items place self.old.made }
        ensures room { vec_len self.new.chunks ≡ vec_len self.old.chunks }
        ensures told { self.new.answers ≡ self.old.answers }
    {
        for flush in self.answered[place]..self.made {
            self.chunks[flush] += u64::from(chunks);
        }
        self.answered[place] = self.made;
    }

    /// A commit was answered so, for which there is room.
    pub fn tell(&mut self, answer: RawAnswer)
        requires { vec_len self.old.answers < vec_capacity self.old.answers }
        ensures tally { (notes : List ActNote) (writers : ℕ) → IsTally notes writers self.old
            → IsTally (notes ++ Told answer ∷ []) writers self.new }
        ensures made { self.new.made ≡ self.old.made }
        ensures answered { self.new.answered ≡ self.old.answered }
        ensures chunks { self.new.chunks ≡ self.old.chunks }
        ensures more { vec_len self.new.answers ≡ vec_len self.old.answers + 1 }
        ensures room { vec_capacity self.old.answers ≤ vec_capacity self.new.answers }
    {
        match self.answers.push(answer) {
            Ok(()) => {}
            Err(_) => unreachable!(),
        }
    }

    /// Whether the writer at this place has a request to answer.
    pub fn is_due(&self, place: usize) -> bool
        requires { place < vec_len self.now.answered }
        ensures { IsTrue result ↔ slice_index self.now.answered.items place < self.now.made }
    {
        self.answered[place] < self.made
    }
}
