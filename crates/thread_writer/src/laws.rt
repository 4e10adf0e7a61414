//! A law on the writers of threads. The function does nothing: a caller's proof has its clause.
ghost use Rattle.thread_writer.specs.Laws.{ThreadWriterIsCut};

use trace_writer::agreeing_is_cut;

/// A writer of a table has cut its packets into its chunks, after any calls.
pub fn thread_writer_is_cut()
    ensures { ThreadWriterIsCut }
{
    agreeing_is_cut();
}
