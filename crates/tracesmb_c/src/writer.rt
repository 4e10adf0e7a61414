//! A writer that is lent to a program.
ghost use Rattle.std.specs.Prelude.{◌≡◌};

use chunk_words::HostTable;
use std::sync::Arc;
use thread_writer::TraceWriter;

/// A writer with the table that it writes to, which it keeps alive. Its number counts from 1.
pub struct OwnedWriter {
    pub(crate) table: Arc<HostTable>,
    pub(crate) writer: TraceWriter,
    pub(crate) number: u32,
}

impl OwnedWriter {
    /// The table and the writer.
    pub fn into_parts(self) -> (Arc<HostTable>, TraceWriter)
        ensures table { result.0 ≡ self.table }
        ensures writer { result.1 ≡ self.writer }
    {
        let OwnedWriter {
            table,
            writer,
            number: _,
        } = self;
        (table, writer)
    }
}

/// What it still holds is lost then: a program gives its writers back.
impl Drop for OwnedWriter {
    fn drop(self) {
        let (table, writer) = self.into_parts();
        let _seat = writer.give_up();
        drop(table);
    }
}
