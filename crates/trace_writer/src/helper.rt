//! Whom a writer asks where no chunk is free.
ghost use Rattle.std.specs.Prelude.{◌≡◌, ℕ, ◌<◌, Bool, true, false, refl};
ghost use Rattle.trace_model.specs.Counts.{raised, last_count};
ghost use Rattle.chunk_plain.specs.Setup.{HasProducer};
ghost use Rattle.chunk_plain.specs.Meaning.{IsWriterStep};
ghost use Rattle.trace_writer.specs.Helping.{LeavesWriters};

use chunk_plain::Words;

/// One that frees chunks of a table, as the service does that takes the complete ones.
pub trait HelperOn<W: Words> {
    // how often it can still help
    ghost turns: { Self → ℕ };

    // what it needs of the table
    ghost needs: { Self → W → Type 0 };

    // what one help is: the helper and the table, the producer and the answer, and both behind it
    ghost helps: { Self → W → ℕ → Bool → Self → W → Type 0 };

    // how often it was asked, a count that stands at its last value
    ghost asked: { Self → ℕ };

    /// Frees chunks of a producer; true says that it is worth while to claim again.
    fn help(&mut self, table: &mut W, producer: u16) -> bool
        requires needs { needs self.old table.old }
        requires producer { HasProducer (W.means.setup table.old) producer }
        ensures helps { helps self.old table.old producer result self.new table.new }
        ensures needs { needs self.new table.new }
        ensures turns { result ≡ true → turns self.new < turns self.old }
        ensures leaves { LeavesWriters W.means table.old table.new };

    // each help raises the count
    ghost asked_more: { (helper : Self) (table : W) (producer : ℕ) (answer : Bool) (behind : Self) (left : W)
        → helps helper table producer answer behind left → asked behind ≡ raised (asked helper) 1 };

    // a writer's steps leave what it needs
    ghost needs_stay: { (helper : Self) (old new : W) (seat after : W.Writer) → IsWriterStep W.means old seat new after
        → needs helper old → needs helper new };
}

/// Never frees a chunk. A writer that drops asks nobody.
#[derive(Clone, Copy, Debug)]
pub struct NoHelp;

impl<W: Words> HelperOn<W> for NoHelp {
    ghost turns = { λ _. 0 };

    ghost needs = { λ _ _. Unit {0} };

    ghost helps = { λ helper table producer answer after left. (answer ≡ false) × (after ≡ helper) × (left ≡ table) };

    // it counts nothing, so its count stands at its last value
    ghost asked = { λ _. last_count };

    ghost asked_more = { λ _ _ _ _ _ _ _. refl };

    ghost needs_stay = { λ _ _ _ _ _ _ needs. needs };

    fn help(&mut self, _table: &mut W, _producer: u16) -> bool {
        false
    }
}
