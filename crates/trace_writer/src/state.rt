//! What a writer has between two calls.
ghost use Rattle.std.specs.Prelude.{◌≡◌, true};
ghost use Rattle.trace_writer.specs.Empty.{is_empty, is_stalled as is_stalled_state, empty};

use crate::chunk::HeldChunk;
use crate::fragment::OpenFragment;
use crate::packet::OpenPacket;
use crate::route::Route;
use commit_body::PatchList;
use std::mem;

/// What a writer has of a chunk. Where it has none, the next one gets the position `next_position`.
#[derive(Debug)]
pub(crate) enum State {
    /// Between two packets, without a chunk.
    Idle { next_position: u32 },
    /// Between two packets.
    Between(HeldChunk),
    Writing(OpenFragment),
    /// The packet was dropped, at its begin or later.
    Dropping { next_position: u32 },
    /// No chunk came free for the packet, or for the next one.
    Stalled { next_position: u32 },
}

/// A writer without its seat.
#[derive(Debug)]
pub(crate) struct Writer {
    pub route: Route,
    pub state: State,
    /// The packet that is begun.
    pub packet: Option<OpenPacket>,
    pub pending: PatchList,
    /// The packet before was dropped.
    pub follows_loss: bool,
    /// Packets that were begun, and those of them that were dropped at their begin.
    pub begun: u64,
    pub dropped: u64,
}

/// Whether the writer has stalled: no chunk came, and none will.
pub(crate) fn is_stalled(state: &State) -> bool
    ensures { result ≡ is_stalled_state state.now }
{
    matches!(state, State::Stalled { next_position: _ })
}

/// Takes the state out, and leaves one without a chunk.
pub(crate) fn take_state(state: &mut State) -> State
    ensures taken { result ≡ state.old }
    ensures left { state.new ≡ empty }
{
    mem::replace(state, State::Idle { next_position: 0 })
}

/// Puts a state in the place of one without a chunk.
pub(crate) fn put_state(state: &mut State, new: State)
    requires { is_empty state.old ≡ true }
    ensures { state.new ≡ new }
{
    match mem::replace(state, new) {
        State::Idle { next_position: _ } => {}
        State::Dropping { next_position: _ } => {}
        State::Stalled { next_position: _ } => {}
        State::Between(_chunk) => unreachable!(),
        State::Writing(_fragment) => unreachable!(),
    }
}
