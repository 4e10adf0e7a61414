//! What a user did, turn by turn.
ghost use Rattle.std.specs.Prelude.{◌≡◌, ◌+◌, ◌<◌, ◌^◌};
ghost use Rattle.tune_run.specs.Counts.{counted, counts_sum, no_counts};

/// What came of a turn.
#[derive(Clone, Copy, Debug, PartialEq, Eq)]
pub enum Deed {
    /// A chunk was claimed, begun and completed.
    Completed,
    /// No chunk was free when it was asked for.
    FoundNone,
    /// A page was partitioned anew, and its chunks were given back.
    Partitioned,
    /// A page wasn't partitioned anew.
    Refused,
}

/// How often turns came to what.
#[derive(Clone, Copy, Debug, PartialEq, Eq)]
pub struct UserCounts {
    pub claimed: u64,
    pub none: u64,
    pub retiled: u64,
    pub refused: u64,
}

impl UserCounts {
    /// Of no turn.
    pub fn new() -> UserCounts
        ensures { result ≡ no_counts }
    {
        UserCounts {
            claimed: 0,
            none: 0,
            retiled: 0,
            refused: 0,
        }
    }

    /// Counts a turn.
    pub fn count(&mut self, deed: Deed)
        requires { counts_sum self.old + 1 < 2 ^ 64 }
        ensures { self.new ≡ counted self.old deed }
    {
        match deed {
            Deed::Completed => self.claimed += 1,
            Deed::FoundNone => self.none += 1,
            Deed::Partitioned => self.retiled += 1,
            Deed::Refused => self.refused += 1,
        }
    }
}
