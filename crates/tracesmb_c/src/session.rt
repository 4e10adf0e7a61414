//! A session: the table, its service with the reading pass, and the writers that aren't lent.
ghost use Rattle.std.specs.Prelude.{◌≡◌};

use crate::waiting::Waiting;
use chunk_words::{HostTable, ReadPass, WriterSeat};
use std::sync::Arc;
use thread_service::Service;
use thread_writer::TraceWriter;

/// What a writer counted itself: the packets that it began, and those of them that it dropped then.
#[derive(Clone, Copy)]
pub struct Counted {
    pub(crate) begun: u64,
    pub(crate) dropped: u64,
}

/// What a session has.
pub struct OwnedSession {
    pub(crate) table: Arc<HostTable>,
    pub(crate) service: Service,
    pub(crate) pass: ReadPass,
    /// The writers by place, but for those that are lent. None is there once the session is stopped.
    pub(crate) homes: Vec<Option<TraceWriter>>,
    /// Their seats then, in their order, and what each counted.
    pub(crate) seats: Vec<WriterSeat>,
    pub(crate) counts: Vec<Counted>,
    pub(crate) producers: u16,
    pub(crate) stopped: bool,
    /// A record was taken from the buffer and found no memory to wait in.
    pub(crate) torn: bool,
    pub(crate) waiting: Waiting,
}

/// What is left of a session that has ended.
pub struct Ended {
    pub(crate) table: Arc<HostTable>,
    pub(crate) service: Service,
    pub(crate) pass: ReadPass,
    pub(crate) seats: Vec<WriterSeat>,
    pub(crate) counts: Vec<Counted>,
}

impl OwnedSession {
    /// What is left, without writers that are home and bytes that wait.
    pub fn into_ended(self) -> Ended
        ensures table { result.table ≡ self.table }
        ensures service { result.service ≡ self.service }
        ensures pass { result.pass ≡ self.pass }
        ensures seats { result.seats ≡ self.seats }
        ensures counts { result.counts ≡ self.counts }
    {
        let OwnedSession {
            table,
            service,
            pass,
            homes,
            seats,
            counts,
            producers: _,
            stopped: _,
            torn: _,
            waiting,
        } = self;
        let_go(homes);
        drop(waiting);
        Ended {
            table,
            service,
            pass,
            seats,
            counts,
        }
    }
}

/// What its writers hold is lost then: a program stops and closes its session.
impl Drop for OwnedSession {
    fn drop(self) {
        let Ended {
            table,
            service,
            pass,
            seats,
            counts,
        } = self.into_ended();
        drop(service);
        drop(pass);
        drop(seats);
        drop(counts);
        drop(table);
    }
}

/// Gives up all writers.
fn let_go(homes: Vec<Option<TraceWriter>>) {
    let mut left = homes;
    while let Some(home) = left.pop() {
        match home {
            Some(writer) => drop(writer.give_up()),
            None => {}
        }
    }
    left.destroy_empty();
}
