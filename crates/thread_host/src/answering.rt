//! What each writer answers at the end of a run.
ghost use Rattle.std.specs.Prelude.{◌≡◌, ℕ, ◌≤◌, List, [], ◌∷◌};
ghost use Rattle.trace_model.specs.Calls.{Flushed};
ghost use Rattle.chunk_plain.specs.Letters.{last_flush};
ghost use Rattle.chunk_plain.specs.Views.{asked_in};
ghost use Rattle.chunk_words.specs.Sits.{Passes, known_by_pass};
ghost use Rattle.run_model.specs.Settled.{last_flushes};
ghost use Rattle.scenario_text.specs.declared.scenario.NumberedLine.{NumberedLine};
ghost use Rattle.thread_writer.specs.Writing.{view_in};
ghost use Rattle.thread_host.specs.Hosts.{HasPlayed, HaveAnswered, HavePlayed};

use chunk_words::{HostTable, ReadPass};
use thread_writer::TraceWriter;

/// Each writer hears of all flush requests from the reading pass, flushes, and answers the last one, in
/// rising number. They have done their jobs.
pub(crate) fn answer_all(table: &HostTable, pass: &mut ReadPass, writers: &mut [TraceWriter])
    requires pass { Passes table.now pass.old }
    requires played { (lines : List NumberedLine) × HavePlayed lines (Flushed ∷ []) table.now writers.old }
    ensures pass { Passes table.now pass.new }
    ensures known { known_by_pass pass.new ≡ known_by_pass pass.old }
    ensures played { (lines : List NumberedLine) → HavePlayed lines (Flushed ∷ []) table.now writers.old
        → HavePlayed lines last_flushes table.now writers.new }
    ensures answered { HaveAnswered (asked_in (known_by_pass pass.old).letters) writers.new }
{
    'writers: for place in 0..writers.len() {
        answer_last(table, pass, &mut writers[place]);
    }
}

/// One of them does.
fn answer_last(table: &HostTable, pass: &mut ReadPass, writer: &mut TraceWriter)
    requires pass { Passes table.now pass.old }
    requires played { (lines : List NumberedLine) × (place : ℕ) × HasPlayed lines (Flushed ∷ []) table.now place writer.old }
    ensures pass { Passes table.now pass.new }
    ensures known { known_by_pass pass.new ≡ known_by_pass pass.old }
    ensures played { (lines : List NumberedLine) (place : ℕ) → HasPlayed lines (Flushed ∷ []) table.now place writer.old
        → HasPlayed lines last_flushes table.now place writer.new }
    ensures answered { asked_in (known_by_pass pass.old).letters ≤ last_flush (view_in writer.new).letters.answers }
{
    writer.hear(table, pass);
    writer.flush(table);
    let _answer = writer.poll_flush(table);
}
