//! What can be wrong with a trace.

use thiserror::Error;

/// The first fault of a trace, with the offset of its field's first byte. On one field the first of
/// these that holds counts.
#[derive(Clone, Copy, Debug, PartialEq, Eq, Error)]
pub enum TraceFault {
    /// A field begins or ends a group.
    #[error("offset {offset}: group")]
    Group { offset: u64 },
    /// A varint passes 64 bits, there is no such field number or wire type, or a field of a record
    /// passes the record's end.
    #[error("offset {offset}: bad record")]
    BadRecord { offset: u64 },
    /// The trace ends inside a field.
    #[error("offset {offset}: cut short")]
    CutShort { offset: u64 },
}
