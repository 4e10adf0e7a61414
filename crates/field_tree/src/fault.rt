//! Why a text isn't taken.

use thiserror::Error;

/// What is wrong with a text. The first of these that holds counts.
#[derive(Clone, Copy, Debug, PartialEq, Eq, Error)]
pub enum FieldFault {
    /// The text isn't in the grammar. The column counts from 1; it is that of the first byte at
    /// which the text so far begins no fields, of the first digit of a number outside its range,
    /// or the place after the last byte of a text that ends too early.
    #[error("bad field at column {column}")]
    BadField { column: u32 },
    /// The first field at the top level of a packet that is the service's own.
    #[error("reserved field {field}")]
    Reserved { field: u32 },
    /// More nested messages inside one another than a packet may have.
    #[error("too deep")]
    TooDeep,
    /// The encoding is longer than a packet may be.
    #[error("packet too long")]
    PacketTooLong,
}

/// A fault of the text, or want of memory, which says nothing of it.
#[derive(Clone, Copy, Debug, PartialEq, Eq, Error)]
pub enum FieldError {
    #[error("out of memory")]
    OutOfMemory,
    #[error("{0}")]
    Fault(FieldFault),
}
