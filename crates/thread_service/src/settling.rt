//! Taking all that writers told, once they are done.
ghost use Rattle.std.specs.Prelude.{◌≡◌, ℕ, ◌<◌, ◌≤◌, false, length};
ghost use Rattle.chunk_plain.specs.Setup.{producer_of};
ghost use Rattle.chunk_plain.specs.Views.{At, taken_of};
ghost use Rattle.chunk_words.specs.Knows.{Tale};
ghost use Rattle.chunk_words.specs.Sits.{setup_in};
ghost use Rattle.service_core.specs.Agreement.{KeepsRest, IsOpen, is_closed};
ghost use Rattle.thread_service.specs.Serving.{core_of, view_in, desk_in, Serves, ServesStill};
ghost use Rattle.thread_service.specs.Settling.{AreSeenOut, IsSeenOut, IsWholeTale, TakesOut, TakesAllOut};

use crate::service::Service;
use chunk_words::HostTable;

impl Service {
    /// Takes the complete chunks of the producer's writers, round by round, until a round finds none.
    fn collect_out(&mut self, table: &HostTable, producer: u16)
        requires serves { Serves table.now self.old }
        requires open { IsOpen (setup_in table.now) (core_of self.old) producer }
        ensures stays { ServesStill table.now self.old self.new }
        ensures keeps { KeepsRest (setup_in table.now) (core_of self.old) (core_of self.new) }
        ensures takes { TakesOut (setup_in table.now) producer (view_in self.old) (view_in self.new) }
        ensures seen { (place : ℕ) → place < length (setup_in table.now).writers → producer_of (setup_in table.now) place ≡ producer
            → IsSeenOut (setup_in table.now) (length (view_in self.old).looks) place (view_in self.new) }
    {
        'rounds: while self.collect(table, producer) > 0 {
            self.core.ids_fit();
        }
    }

    /// The same for the producers up to this number, in rising number.
    fn collect_all_out(&mut self, table: &HostTable, producers: u16)
        requires serves { Serves table.now self.old }
        requires open { (place : ℕ) → place < length (setup_in table.now).writers
            → is_closed (setup_in table.now) (core_of self.old) place ≡ false }
        ensures stays { ServesStill table.now self.old self.new }
        ensures keeps { KeepsRest (setup_in table.now) (core_of self.old) (core_of self.new) }
        ensures takes { TakesAllOut (setup_in table.now) producers (view_in self.old) (view_in self.new) }
        ensures seen { AreSeenOut (setup_in table.now) (length (view_in self.old).looks) producers (view_in self.new) }
    {
        'producers: for index in 0..producers {
            self.collect_out(table, index + 1);
        }
    }

    /// Takes all that the writers told of, where they told of all that they had begun, producer by producer
    /// in rising number. What is written meanwhile may be taken too; but taking is all that it does.
    pub fn settle(&mut self, table: &HostTable, producers: u16)
        requires serves { Serves table.now self.old }
        requires producers { producers ≡ length (setup_in table.now).ranges }
        requires open { (place : ℕ) → place < length (setup_in table.now).writers
            → is_closed (setup_in table.now) (core_of self.old) place ≡ false }
        ensures stays { ServesStill table.now self.old self.new }
        ensures keeps { KeepsRest (setup_in table.now) (core_of self.old) (core_of self.new) }
        ensures own { (view_in self.new).commits ≡ (view_in self.old).commits }
        ensures takes { TakesAllOut (setup_in table.now) (length (setup_in table.now).ranges) (view_in self.old) (view_in self.new) }
        ensures taken { (i : ℕ) (tale : Tale) → At (desk_in self.old).told i tale → IsWholeTale (setup_in table.now) (view_in self.old) tale
            → length tale.begun ≤ (taken_of (view_in self.new) tale.place).count }
    {
        self.collect_all_out(table, producers);
        self.recall(table);
    }
}
