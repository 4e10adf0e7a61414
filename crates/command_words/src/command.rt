//! The commands.

/// What the program is to do.
#[derive(Clone, Copy, Debug, PartialEq, Eq)]
pub enum Command {
    /// Plays a scenario, and writes its trace.
    Replay,
    /// Plays a scenario with each writer on a thread of its own, and writes its trace.
    Run,
    /// Says what a trace has.
    Read,
    /// Says whether a trace tells of a scenario.
    Check,
    /// Writes the scenario of a number, with so many writers from 1 to 64, and so many packets of each from 1 to 100,000.
    Gen {
        number: u64,
        writers: u8,
        packets: u32,
    },
    /// Plays a stream of commits on the buffers that a configuration text asks for, and writes its trace.
    Stream,
    /// Plays a scenario, and writes the clones that its lines make of buffers.
    Clone,
    /// Has so many users, from 1 to 8, partition pages anew beside a collector, in so many turns each, from 1 to 10,000.
    Tune {
        users: u8,
        turns: u32,
    },
}
