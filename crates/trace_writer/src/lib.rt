//! Writers: the packets of one thread, streamed into the chunks of its producer.
//! A layer above may rely on this: after any calls the writer's chunks are a cut of the packets that
//! the calls say, each call joins the calls in the seat's view, a packet is dropped only where each
//! chunk of the producer was just asked for in vain, and a refused call leaves the packet as it was.
//! What the header of a held chunk counts was published, but for its last fragment. It works over any
//! table, takes no memory, and copies each byte once into a payload and once into the table's words.
#![tactic(auto)]

mod begin;
mod bytes;
mod chunk;
mod claim;
mod fault;
mod field;
mod finish;
mod flow;
mod fragment;
mod helper;
mod here;
mod ids;
mod laws;
mod packet;
mod route;
mod state;
mod stream;
mod writer;

pub use fault::{Begun, CallFault};
pub use helper::{HelperOn, NoHelp};
pub use ids::PACKET_IDS;
pub use laws::{
    agreeing_is_cut, agreeing_is_cut_from, drops_never_stall, held_is_published, newest_is_held,
    nothing_is_kept_back,
};
pub use writer::WriterCore;
