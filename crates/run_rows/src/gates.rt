//! Gates that hold one job until another one has come to a line.
use byte_io::traits::Gate;
use std::sync::atomic::{AtomicU64, Ordering};

/// Loads that are more than any other job needs to come to its line.
const PATIENCE: u32 = 1_000_000_000;

/// A job, by its writer's number or 0 for the service's, before this line of its own.
#[derive(Clone, Copy, Drop)]
pub struct Place {
    pub job: u16,
    pub line: u64,
}

/// Holds one job at its place until another one has come to its own.
#[derive(Drop)]
pub struct Hold {
    held: Place,
    until: Place,
    come: AtomicU64,
    pub ran_out: AtomicU64,
}

impl Hold {
    pub fn new(held: Place, until: Place) -> Hold {
        Hold {
            held,
            until,
            come: AtomicU64::new(0),
            ran_out: AtomicU64::new(0),
        }
    }

    /// Loads the flag again and again, until it is set.
    fn wait(&self) {
        for _ in 0..PATIENCE {
            if self.come.load(Ordering::SeqCst) == 1 {
                return;
            }
        }
        self.ran_out.store(1, Ordering::SeqCst);
    }

    fn pass(&self, job: u16, line: u64) {
        if job == self.until.job && line == self.until.line {
            self.come.store(1, Ordering::SeqCst);
        }
        if job == self.held.job && line == self.held.line {
            self.wait();
        }
    }
}

impl Gate for Hold {
    fn pass(&self, writer: u16, line: u64) {
        Hold::pass(self, writer, line);
    }
}

/// Two such gates, one behind the other.
#[derive(Drop)]
pub struct Both {
    pub first: Hold,
    pub second: Hold,
}

impl Gate for Both {
    fn pass(&self, writer: u16, line: u64) {
        self.first.pass(writer, line);
        self.second.pass(writer, line);
    }
}

/// Three of them.
#[derive(Drop)]
pub struct Three {
    pub first: Hold,
    pub second: Hold,
    pub third: Hold,
}

impl Gate for Three {
    fn pass(&self, writer: u16, line: u64) {
        self.first.pass(writer, line);
        self.second.pass(writer, line);
        self.third.pass(writer, line);
    }
}
