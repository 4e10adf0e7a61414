//! How fast a configuration is read: the input is one text, and the output says how many buffers,
//! producers and sources it has, or its first fault. `bench/config.py` times it.
#![tactic(auto)]

use byte_io::fill::fill_all;
use byte_io::standard::StdSource;
use config_text::{ConfigFault, read_config};
use std::io;
use trace_base::limits::MAX_INPUT;

fn main(rt: HostRuntime) -> io::Result<()> {
    let mut input = StdSource::new(rt.stdin());
    let text = match fill_all(rt.alloc(), &mut input, MAX_INPUT) {
        Ok(text) => text,
        Err(fault) => return println!(rt; "{fault}"),
    };
    match read_config(rt.alloc(), &text) {
        Ok(config) => println!(rt;
            "buffers {} producers {} sources {}",
            config.buffers.len(),
            config.producers.len(),
            config.sources.len()
        ),
        Err(ConfigFault::OutOfMemory) => println!(rt; "out of memory"),
        Err(ConfigFault::BadConfig { line, .. }) => println!(rt; "bad config at line {line}"),
    }
}
