//! The packets that writers emit, as their calls say: encoded, one behind another.
//! A layer above may rely on the bytes of each finished packet being its encoding.
#![tactic(auto)]

mod emitter;

pub use emitter::Emitter;
