//! What writers tell the service of a table that threads share.
ghost use Rattle.std.specs.Prelude.{◌≡◌};
ghost use Rattle.chunk_plain.specs.Letters.{last_flush};
ghost use Rattle.chunk_words.specs.Knows.{with_tale};
ghost use Rattle.chunk_words.specs.Sits.{Sits, setup_in, known_by};
ghost use Rattle.chunk_words.specs.Told.{ShowsAllTold, IsMarked};
ghost use Rattle.thread_service.specs.Serving.{view_in, desk_in, Serves, KnowsSame};

use crate::service::Service;
use chunk_words::{HostTable, WriterSeat};

impl Service {
    /// The writer tells the service what it has begun and completed. Nothing else changes.
    pub fn learn(&mut self, table: &HostTable, from: &mut WriterSeat)
        requires serves { Serves table.now self.old }
        requires from { Sits table.now from.old }
        ensures serves { Serves table.now self.new }
        ensures from { Sits table.now from.new }
        ensures told { desk_in self.new ≡ with_tale (desk_in self.old) (view_in self.old) from.old.place (known_by from.old).begun
            (last_flush (known_by from.old).letters.answers) }
        ensures same { KnowsSame self.old self.new }
        ensures writer { known_by from.new ≡ known_by from.old }
        ensures place { from.new.place ≡ from.old.place }
    {
        table.tell(from, &mut self.core.seat);
    }

    /// Compares the looks so far with what writers told: each look since at a chunk that was told to
    /// be complete shows it so, as long as it isn't taken. Nothing else changes.
    pub fn recall(&mut self, table: &HostTable)
        requires serves { Serves table.now self.old }
        ensures serves { Serves table.now self.new }
        ensures shown { ShowsAllTold (setup_in table.now) (view_in self.new) (desk_in self.new) }
        ensures same { KnowsSame self.old self.new }
        ensures desk { desk_in self.new ≡ desk_in self.old }
    {
        table.recall(&mut self.core.seat);
    }

    /// Marks the world of the table as it is between two steps. Nothing else changes.
    pub fn mark(&mut self, table: &HostTable)
        requires serves { Serves table.now self.old }
        ensures serves { Serves table.now self.new }
        ensures marked { IsMarked (setup_in table.now) (view_in self.old) (desk_in self.old) (desk_in self.new) }
        ensures same { KnowsSame self.old self.new }
    {
        table.mark(&mut self.core.seat);
    }
}
