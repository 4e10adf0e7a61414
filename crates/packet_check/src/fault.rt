//! What can be wrong with a packet.

use thiserror::Error;

/// The first fault of a packet. On one field the first of these that holds counts.
#[derive(Clone, Copy, Debug, PartialEq, Eq, Error)]
pub enum PacketFault {
    /// At this offset no field stands: a group, a varint that passes 64 bits, no such field number or
    /// wire type, or a field that the packet ends in.
    #[error("offset {offset}: malformed")]
    Malformed { offset: u32 },
    /// A field that is the service's own to write.
    #[error("field {number} is reserved")]
    ReservedField { number: u32 },
}
