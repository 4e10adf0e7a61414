//! Whom a writer asks for chunks of the table that threads share.
ghost use Rattle.std.specs.Prelude.{◌≡◌, ℕ, ◌<◌, Bool, true, false, refl};
ghost use Rattle.atomic_table.specs.Seated.{TableId};
ghost use Rattle.trace_model.specs.Counts.{raised, last_count};
ghost use Rattle.chunk_plain.specs.Setup.{HasProducer};
ghost use Rattle.chunk_words.specs.Sits.{setup_in};
ghost use Rattle.chunk_words.specs.Named.{identity_of};

use chunk_words::{HostTable, Shared};
use trace_writer::{HelperOn, NoHelp};

/// One that frees chunks of a table.
pub trait Helper {
    // how often it can still help
    ghost turns: { Self → ℕ };

    // it helps at the table with this identity
    ghost of_table: { Self → TableId → Type 0 };

    // what one help is: the helper, the producer and the answer, and the helper behind it
    ghost helps: { Self → ℕ → Bool → Self → Type 0 };

    // how often it was asked, a count that stands at its last value
    ghost asked: { Self → ℕ };

    /// Frees chunks of a producer; true says that it is worth while to claim again.
    fn help(&mut self, table: &HostTable, producer: u16) -> bool
        requires table { of_table self.old (identity_of table.now) }
        requires producer { HasProducer (setup_in table.now) producer }
        ensures helps { helps self.old producer result self.new }
        ensures table { (id : TableId) → of_table self.old id → of_table self.new id }
        ensures turns { result ≡ true → turns self.new < turns self.old };

    // each help raises the count
    ghost asked_more: { (helper : Self) (producer : ℕ) (answer : Bool) (behind : Self)
        → helps helper producer answer behind → asked behind ≡ raised (asked helper) 1 };
}

/// Never frees a chunk, and waits for nobody.
impl Helper for NoHelp {
    ghost turns = { λ _. 0 };

    ghost of_table = { λ _ _. Unit {0} };

    ghost helps = { λ helper producer answer after. (answer ≡ false) × (after ≡ helper) };

    // it counts nothing, so its count stands at its last value
    ghost asked = { λ _. last_count };

    ghost asked_more = { λ _ _ _ _ _. refl };

    fn help(&mut self, _table: &HostTable, _producer: u16) -> bool {
        false
    }
}

/// A helper, as a writer over a lent table asks it.
#[derive(Drop)]
pub struct Asks<H> {
    pub help: H,
}

impl<'t, H: Helper> HelperOn<Shared<'t>> for Asks<H> {
    ghost use Rattle.thread_writer.specs.Asking.{MayAsk, IsHelp};
    ghost use Rattle.thread_writer.specs.Standing.{still_asks};

    ghost turns = { λ asks. H.turns asks.help };

    ghost needs = { λ asks shared. MayAsk H.of_table asks shared };

    ghost helps = { λ asks shared producer answer after left. IsHelp H.helps asks shared producer answer after left };

    ghost asked = { λ asks. H.asked asks.help };

    ghost asked_more = { λ asks shared producer answer after left helped. H.asked_more asks.help producer answer after.help helped.1 };

    ghost needs_stay = { λ asks old new seat after step may. still_asks H.of_table asks old new seat after step may };

    fn help(&mut self, table: &mut Shared<'t>, producer: u16) -> bool {
        self.help.help(table.table, producer)
    }
}
