//! Which table a service is one of, and whose chunks are taken, as a type can name them.
use std::marker::Brand;
use std::sync::ledger::Ledger;

/// A table by what its seats know of it, known in proofs alone. Its ledger is the one on which stands how
/// many turns its service's own lines took.
pub trait HostName: Ledger {
    ghost use Rattle.std.specs.Prelude.{ℕ, List};
    ghost use Rattle.atomic_table.specs.Seated.{TableId};
    ghost use Rattle.trace_model.specs.Buffers.{Buffer};
    ghost use Rattle.chunk_plain.specs.Setup.{Setup};
    ghost use Rattle.chunk_plain.specs.Views.{ServiceView};
    ghost use Rattle.scenario_text.specs.declared.scenario.NumberedLine.{NumberedLine};

    ghost table: { TableId };

    ghost setup: { Setup };

    // the buffers of its service as they were made
    ghost first: { List Buffer };

    // what its service knew when it was locked
    ghost start: { ServiceView };

    // the lines that are played beside it
    ghost lines: { List NumberedLine };

    // all parts of its ledger
    ghost all: { ℕ };
}

impl HostName for Brand {
    ghost use Rattle.std.specs.Prelude.{[]};
    ghost use Rattle.chunk_plain.specs.Views.{newcomer_service};
    ghost use Rattle.chunk_words.specs.Named.{no_table};
    ghost use Rattle.thread_host.specs.Keeping.{no_setup};

    ghost table = { no_table };

    ghost setup = { no_setup };

    ghost first = { [] };

    ghost start = { newcomer_service };

    ghost lines = { [] };

    ghost all = { 1 };
}

/// The producer whose chunks helpers have taken, known in proofs alone. Its ledger is the one on which
/// stands how often.
pub trait TakingsName: Ledger {
    ghost use Rattle.std.specs.Prelude.{ℕ};

    ghost producer: { ℕ };
}

impl TakingsName for Brand {
    ghost producer = { 0 };
}
