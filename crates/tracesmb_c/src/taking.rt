//! What the service of a session takes.
ghost use Rattle.tracesmb_c.specs.Collecting.{TakesOrScrapes, MayCollect};
ghost use Rattle.tracesmb_c.specs.Sessions.{IsSession, KeepsGiven, KeepsWaiting, KeepsWriters};

use crate::session::OwnedSession;

impl OwnedSession {
    /// Takes the complete chunks of a producer's writers, and with `held` the finished fragments of the
    /// chunks that they hold. Answers how many chunks.
    pub fn collect(&mut self, producer: u16, held: bool) -> u64
        requires session { IsSession self.old }
        requires may { MayCollect producer self.old }
        ensures session { IsSession self.new }
        ensures takes { TakesOrScrapes held producer result self.old self.new }
        ensures given { KeepsGiven self.old self.new }
        ensures waits { KeepsWaiting self.old self.new }
        ensures writers { KeepsWriters self.old self.new }
    {
        if held {
            self.service.scrape(&self.table, producer)
        } else {
            self.service.collect(&self.table, producer)
        }
    }
}
