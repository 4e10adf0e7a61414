//! Closing a producer.
ghost use Rattle.std.specs.Prelude.{◌≡◌, Some, [], ◌∷◌};
ghost use Rattle.chunk_plain.specs.Meaning.{IsServiceStep};
ghost use Rattle.chunk_plain.specs.Setup.{sequence_of};
ghost use Rattle.chunk_plain.specs.Views.{Closed};
ghost use Rattle.chunk_plain.specs.World.{World};
ghost use Rattle.service_core.specs.Agreement.{ServiceAgrees, IsOpen};
ghost use Rattle.service_core.specs.Closing.{ClosesOne, ClosesAll, TakesAndCloses};
ghost use Rattle.service_core.specs.Told.{LeavesNone};
ghost use Rattle.service_core.specs.Calls.{ServesAt, ServesWriter, NotesAlone};

use crate::routing::close_in;
use crate::service::ServiceCore;
use chunk_plain::{ServiceEvent, Words};
use trace_base::limits::FIRST_SEQUENCE;

impl<S> ServiceCore<S> {
    /// Closes the sequence of the writer at this place, counted from 0. No chunk is taken: it is for a
    /// sequence whose chunks all come by commits.
    pub fn close_writer<W: Words<Service = S>>(&mut self, table: &mut W, place: usize)
        requires writer { ServesWriter W.means table.old self.old place }
        ensures agrees { ServiceAgrees (W.means.setup table.old) (W.means.service_view table.new self.new.seat) self.new }
        ensures closes { ClosesOne (W.means.setup table.old) place self.old self.new }
        ensures notes { NotesAlone W.means (Closed (sequence_of place) ∷ []) table.old self.old.seat table.new self.new.seat }
    {
        let sequence = place as u32 + FIRST_SEQUENCE;
        let index = usize::from(self.writers[place].buffer) - 1;
        close_in(&mut self.buffers, index, sequence);
        table.note(&mut self.seat, ServiceEvent::Closed { sequence });
    }
}

impl<S> ServiceCore<S> {
    /// Takes the complete chunks of the producer's writers, as `collect` does, and then closes their
    /// sequences, in rising number. Answers how many chunks it took.
    pub fn close_producer<W: Words<Service = S>>(&mut self, table: &mut W, producer: u16) -> u64
        requires serves { ServesAt W.means table.old self.old }
        requires open { IsOpen (W.means.setup table.old) self.old producer }
        ensures agrees { ServiceAgrees (W.means.setup table.old) (W.means.service_view table.new self.new.seat) self.new }
        ensures closes { ClosesAll (W.means.setup table.old) producer self.old self.new }
        ensures step { IsServiceStep W.means table.old self.old.seat table.new self.new.seat }
        ensures takes { TakesAndCloses (W.means.setup table.old) producer result
            (W.means.service_view table.old self.old.seat) (W.means.service_view table.new self.new.seat) }
        ensures told { (world : World) → W.means.told table.old ≡ Some world
            → LeavesNone (W.means.setup table.old) producer world (W.means.told table.new) (W.means.service_view table.new self.new.seat) }
    {
        let count = self.collect(table, producer);
        for place in 0..self.writers.len() {
            if self.writers[place].producer != producer {
                continue;
            }
            self.close_writer(table, place);
        }
        count
    }
}
