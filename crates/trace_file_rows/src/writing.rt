//! Records by hand, written whole and in pieces, and into a sink that is short.
use byte_io::memory::MemSink;
use byte_io::put::WriteFault;
use byte_io::traits::Sink;
use std::test::Fail;
use trace_file::{RecordWriter, put_packet};

struct Row {
    body: &'static [u8],
    sequence: u32,
    marked: bool,
    record: &'static [u8],
}

static ROWS: [Row; 4] = [
    Row {
        body: b"\x40\x05",
        sequence: 2,
        marked: true,
        record: b"\x0A\x07\x40\x05\x50\x02\xD0\x02\x01",
    },
    Row {
        body: b"",
        sequence: 2,
        marked: true,
        record: b"\x0A\x05\x50\x02\xD0\x02\x01",
    },
    Row {
        body: b"\xD0\x02\x01\x40\x06",
        sequence: 3,
        marked: false,
        record: b"\x0A\x07\xD0\x02\x01\x40\x06\x50\x03",
    },
    Row {
        body: b"\x40\x01",
        sequence: 300,
        marked: false,
        record: b"\x0A\x05\x40\x01\x50\xAC\x02",
    },
];

#[test]
fn writes_records(rt: HostRuntime) -> Result<(), Fail> {
    for row in &ROWS {
        let mut sink = MemSink::with_room(rt.alloc(), 100)?;
        put_packet(&mut sink, row.body, row.sequence, row.marked)?;
        assert_eq!(rt; sink.taken(), row.record);

        let mut short = MemSink::with_room(rt.alloc(), 3)?;
        assert_eq!(rt;
            put_packet(&mut short, row.body, row.sequence, row.marked),
            Err(WriteFault)
        );
        assert_eq!(rt; short.taken(), &row.record[..3]);
    }
    Ok(())
}

#[test]
fn writes_records_in_pieces(rt: HostRuntime) -> Result<(), Fail> {
    for row in &ROWS {
        for cut in 0..row.body.len() + 1 {
            let mut sink = MemSink::with_room(rt.alloc(), 100)?;
            let len = row.body.len() as u64;
            let mut writer = RecordWriter::start_long(&mut sink, len, row.sequence, row.marked)?;
            writer.part(&mut sink, &row.body[..cut])?;
            writer.part(&mut sink, &row.body[cut..])?;
            writer.end(&mut sink)?;
            assert_eq!(rt; sink.taken(), row.record);
        }
    }
    Ok(())
}
