//! A packet that is begun.

/// Where its `b` stands, how many nested messages are open in it, and how long its encoding is so
/// far.
#[derive(Clone, Copy, Debug, PartialEq, Eq)]
pub struct OpenPacket {
    pub line: u32,
    pub depth: u8,
    pub len: u32,
}
