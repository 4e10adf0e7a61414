//! A write that fails, and the read after it.
use crate::play::{SEQUENCE, arrive, small_buffer};
use byte_io::memory::MemSink;
use byte_io::put::WriteFault;
use sequence_reader::{ReadCount, ReadEnd, Why, read_counted, read_sequence};
use std::process::Abort;
use std::test::Fail;
use trace_base::policy::FullPolicy;

#[test]
fn a_failed_record_is_read_again(rt: HostRuntime) -> Result<(), Fail> {
    let mut buffer = small_buffer(rt.alloc(), FullPolicy::Ring)?;
    arrive(&rt, &mut buffer, 0, 0, 2, b"\x02\x40\x01\x02\x40\x02", true);

    let mut short = MemSink::with_room(rt.alloc(), 12)?;
    assert!(rt; buffer.knows(SEQUENCE));
    let failed = read_counted(&mut buffer, SEQUENCE, 5, &mut short);
    assert_eq!(rt;
        failed,
        ReadCount {
            delivered: 1,
            end: Err(WriteFault)
        }
    );
    assert_eq!(rt;
        short.taken(),
        b"\x0A\x07\x40\x01\x50\x02\xD0\x02\x01\x0A\x04\x40".as_slice()
    );
    assert!(rt; buffer.knows(SEQUENCE));
    assert_eq!(rt; buffer.state(SEQUENCE).cursor.passed, 1);

    let mut sink = MemSink::with_room(rt.alloc(), 100)?;
    let end = read_sequence(&mut buffer, SEQUENCE, 5, &mut sink)?;
    assert_eq!(rt;
        end,
        ReadEnd {
            delivered: 1,
            why: Why::Missing { chunk_id: 1 }
        }
    );
    assert_eq!(rt; sink.taken(), b"\x0A\x04\x40\x02\x50\x02".as_slice());
    Ok(())
}
