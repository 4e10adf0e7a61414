//! What was written reads back, also in part; blocks as deep as a text is long; many producers.
use byte_io::memory::MemSink;
use byte_io::put::WriteFault;
use config_text::{ConfigFault, ConfigReason, Name, put_config, read_config};
use std::test::Fail;
use trace_base::limits::MAX_INPUT;

const TEXT: &[u8] =
    b"buffers { size_kb: 4 fill_policy: DISCARD }\nbuffers { size_kb: 65536 fill_policy: RING_BUFFER }\nproducers { producer_name: \"\" shm_size_kb: 4 page_size_kb: 4 }\nproducers { producer_name: \"a #{;} b\" shm_size_kb: 4096 page_size_kb: 64 }\ndata_sources { config { name: \"one\" target_buffer: 1 } producer_name_filter: \"a #{;} b\" }\ndata_sources { config { name: \"\" target_buffer: 0 } producer_name_filter: \"\" }\n";

#[test]
fn reads_what_was_written(rt: HostRuntime) -> Result<(), Fail> {
    let read = read_config(rt.alloc(), TEXT).expect(&rt, "what was written is read");
    assert_eq!(rt; read.buffers.len(), 2);
    assert_eq!(rt; read.producers.len(), 2);
    assert_eq!(rt; read.sources.len(), 2);

    let mut sink = MemSink::with_room(rt.alloc(), 1000)?;
    put_config(&mut sink, &read)?;
    assert_eq!(rt; sink.taken(), TEXT);
    for room in [0, 30, 100, 300] {
        let mut short = MemSink::with_room(rt.alloc(), room)?;
        assert_eq!(rt; put_config(&mut short, &read), Err(WriteFault));
        assert_eq!(rt; short.taken(), &TEXT[..room]);
    }
    Ok(())
}

#[test]
fn skips_deep_blocks(rt: HostRuntime) -> Result<(), Fail> {
    let mut text = Vec::new(rt.alloc());
    for _ in 0..200_000 {
        text.extend_from_slice(b"a{")?;
    }
    assert!(rt; text.len() <= MAX_INPUT);
    let open = read_config(rt.alloc(), &text).err();
    let line = 1;
    let reason = ConfigReason::BadText;
    assert_eq!(rt; open, Some(ConfigFault::BadConfig { line, reason }));

    for _ in 0..200_000 {
        text.extend_from_slice(b"}")?;
    }
    assert!(rt; text.len() <= MAX_INPUT);
    let read = read_config(rt.alloc(), &text).expect(&rt, "all blocks are closed");
    assert_eq!(rt; read.producers.len(), 1);
    assert_eq!(rt; read.sources.len(), 0);
    Ok(())
}

/// Four letters for a number below 456,976, others for each.
fn letters(index: u32) -> [u8; 4] {
    [
        b'a' + (index / 17_576 % 26) as u8,
        b'a' + (index / 676 % 26) as u8,
        b'a' + (index / 26 % 26) as u8,
        b'a' + (index % 26) as u8,
    ]
}

// No entry names a producer, and no two are alike.
#[test]
fn looks_up_many_producers(rt: HostRuntime) -> Result<(), Fail> {
    let mut text = Vec::new(rt.alloc());
    text.extend_from_slice(b"buffers { size_kb: 4 }\ndata_sources {\n")?;
    for index in 0..50_000u32 {
        text.extend_from_slice(b"producer_name_filter: \"a")?;
        text.extend_from_slice(&letters(index))?;
        text.extend_from_slice(b"\"\n")?;
    }
    text.extend_from_slice(b"}\n")?;
    for index in 0..50_000u32 {
        text.extend_from_slice(b"producers { producer_name: \"b")?;
        text.extend_from_slice(&letters(index))?;
        text.extend_from_slice(b"\" }\n")?;
    }
    assert!(rt; text.len() <= MAX_INPUT);
    let found = read_config(rt.alloc(), &text).err();
    let line = 50_020;
    let reason = ConfigReason::TooMany;
    assert_eq!(rt; found, Some(ConfigFault::BadConfig { line, reason }));
    Ok(())
}

#[test]
fn copies_names(rt: HostRuntime) -> Result<(), Fail> {
    let name = Name::new(rt.alloc(), b"a name")?;
    assert_eq!(rt; name.as_bytes(), b"a name".as_slice());
    Ok(())
}
