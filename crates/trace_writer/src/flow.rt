//! How the writing of a packet goes on.
use crate::fragment::OpenFragment;

#[derive(Debug)]
pub(crate) enum Flow {
    Going(OpenFragment),
    /// No chunk was free: one that loses packets has given its own up, and one that stalls has no
    /// chunk to go on in. The next chunk gets this position.
    Stopped { next_position: u32 },
}
