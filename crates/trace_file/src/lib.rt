//! Trace files: the records that a trace is made of.
//! A layer above may rely on this: `put_packet` appends one record to its sink, whole where it
//! answers Ok and a front part of it where the sink failed, and answers a fault only where the
//! sink's count of faults rose. A `RecordWriter` does the same of a packet that comes in pieces. No
//! call takes memory. `TraceReader` reads the packets of any trace in their order, and answers the
//! first fault exactly where the trace isn't in its grammar.
#![tactic(auto)]

mod apart;
mod fault;
mod field;
mod laws;
mod packet;
mod parts;
mod reader;
mod record;

pub use apart::take_apart;
pub use fault::TraceFault;
pub use laws::traces_read_once;
pub use packet::Packet;
pub use parts::{RecordWriter, records_are_cut};
pub use reader::TraceReader;
pub use record::put_packet;
