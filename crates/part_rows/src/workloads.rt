//! Worked workloads.
use byte_io::memory::MemSink;
use byte_io::put::WriteFault;
use std::test::Fail;
use workload_gen::generate;

struct Row {
    number: u64,
    writers: u8,
    packets: u32,
    text: &'static [u8],
}

static ROWS: [Row; 2] = [
    Row {
        number: 0,
        writers: 1,
        packets: 1,
        text: b"buffer 65536 ring\nproducer 16 4096 14\nwriter 1 1 stall\np 1 8:7 900{1:\"n\"*24 2:1}\n",
    },
    Row {
        number: 7,
        writers: 2,
        packets: 2,
        text: b"buffer 65536 ring\nproducer 16 4096 14\nwriter 1 1 stall\nwriter 1 1 stall\np 1 8:78 900{1:\"g\"*15 2:1}\np 2 8:131 900{1:\"j\"*24 2:1}\np 1 8:253 900{1:\"t\"*10 2:2}\np 2 8:373 900{1:\"s\"*18 2:2}\n",
    },
];

#[test]
fn writes_workloads(rt: HostRuntime) -> Result<(), Fail> {
    for row in &ROWS {
        let mut sink = MemSink::with_room(rt.alloc(), 400)?;
        generate(row.number, row.writers, row.packets, &mut sink)?;
        assert_eq!(rt; sink.taken(), row.text);

        let mut short = MemSink::with_room(rt.alloc(), 30)?;
        assert_eq!(rt;
            generate(row.number, row.writers, row.packets, &mut short),
            Err(WriteFault)
        );
        assert_eq!(rt; short.taken(), &row.text[..30]);
    }
    Ok(())
}

// Text of more than one batch stands as the text of its packets, in their order.
#[test]
fn writes_more_than_waits(rt: HostRuntime) -> Result<(), Fail> {
    let mut sink = MemSink::with_room(rt.alloc(), 100_000)?;
    generate(7, 1, 1_000, &mut sink)?;
    let lines = sink.taken().iter().filter(|byte| **byte == b'\n').count();
    assert_eq!(rt; lines, 1_003);
    Ok(())
}
