//! Each reason alone, and each pair of them: in one block where one can have both, else in two.
use config_text::{ConfigFault, ConfigReason, read_config};
use std::test::Fail;
use trace_base::limits::MAX_INPUT;

/// A text is so many times one part, and then another.
struct Row {
    times: usize,
    repeated: &'static [u8],
    last: &'static [u8],
    line: u32,
    reason: ConfigReason,
}

const ROWS: [Row; 28] = [
    // bad text, alone
    Row {
        times: 0,
        repeated: b"",
        last: b"buffers { size_kb: }\n",
        line: 1,
        reason: ConfigReason::BadText,
    },
    // wrong kind, alone
    Row {
        times: 0,
        repeated: b"",
        last: b"buffers { size_kb: 064 }\n",
        line: 1,
        reason: ConfigReason::WrongKind,
    },
    // missing size, alone
    Row {
        times: 0,
        repeated: b"",
        last: b"buffers { }\n",
        line: 1,
        reason: ConfigReason::MissingSize,
    },
    // out of range, alone
    Row {
        times: 0,
        repeated: b"",
        last: b"producers { page_size_kb: 6 }\n",
        line: 1,
        reason: ConfigReason::OutOfRange,
    },
    // too many, alone
    Row {
        times: 8,
        repeated: b"buffers { size_kb: 4 }\n",
        last: b"buffers { size_kb: 4 }\n",
        line: 9,
        reason: ConfigReason::TooMany,
    },
    // no such buffer, alone
    Row {
        times: 0,
        repeated: b"",
        last: b"data_sources { }\n",
        line: 1,
        reason: ConfigReason::NoSuchBuffer,
    },
    // chunk larger, alone
    Row {
        times: 0,
        repeated: b"",
        last: b"buffers { size_kb: 4 }\nproducers { page_size_kb: 64 }\ndata_sources { }\n",
        line: 3,
        reason: ConfigReason::ChunkLargerThanBuffer,
    },
    // bad text before wrong kind
    Row {
        times: 0,
        repeated: b"",
        last: b"buffers { size_kb: 064 }\n}\n",
        line: 2,
        reason: ConfigReason::BadText,
    },
    // bad text before missing size
    Row {
        times: 0,
        repeated: b"",
        last: b"buffers { }\nx\n",
        line: 3,
        reason: ConfigReason::BadText,
    },
    // bad text before out of range
    Row {
        times: 0,
        repeated: b"",
        last: b"producers { page_size_kb: 6 }\n\"\n",
        line: 2,
        reason: ConfigReason::BadText,
    },
    // bad text before too many
    Row {
        times: 9,
        repeated: b"buffers { size_kb: 4 }\n",
        last: b"[]\n",
        line: 10,
        reason: ConfigReason::BadText,
    },
    // bad text before no such buffer
    Row {
        times: 0,
        repeated: b"",
        last: b"data_sources { }\ndata_sources {\n",
        line: 3,
        reason: ConfigReason::BadText,
    },
    // bad text before chunk larger
    Row {
        times: 0,
        repeated: b"",
        last: b"buffers { size_kb: 4 }\nproducers { page_size_kb: 64 }\ndata_sources { }\nname: 'x'\n",
        line: 4,
        reason: ConfigReason::BadText,
    },
    // wrong kind before missing size
    Row {
        times: 0,
        repeated: b"",
        last: b"buffers { fill_policy: RING }\n",
        line: 1,
        reason: ConfigReason::WrongKind,
    },
    // wrong kind before out of range
    Row {
        times: 0,
        repeated: b"",
        last: b"producers { page_size_kb: 6 producer_name: x }\n",
        line: 1,
        reason: ConfigReason::WrongKind,
    },
    // wrong kind before too many
    Row {
        times: 8,
        repeated: b"buffers { size_kb: 4 }\n",
        last: b"buffers { size_kb { } }\n",
        line: 9,
        reason: ConfigReason::WrongKind,
    },
    // wrong kind before no such buffer
    Row {
        times: 0,
        repeated: b"",
        last: b"data_sources { config { name: x } }\n",
        line: 1,
        reason: ConfigReason::WrongKind,
    },
    // wrong kind before chunk larger
    Row {
        times: 0,
        repeated: b"",
        last: b"buffers { size_kb: 4 }\nproducers { page_size_kb: 64 }\ndata_sources { config: 1 }\n",
        line: 3,
        reason: ConfigReason::WrongKind,
    },
    // missing size before out of range
    Row {
        times: 0,
        repeated: b"",
        last: b"buffers { }\nbuffers { size_kb: 3 }\n",
        line: 1,
        reason: ConfigReason::MissingSize,
    },
    // missing size before too many
    Row {
        times: 8,
        repeated: b"buffers { size_kb: 4 }\n",
        last: b"buffers { size: 4 }\n",
        line: 9,
        reason: ConfigReason::MissingSize,
    },
    // no such buffer in an earlier block than a missing size
    Row {
        times: 0,
        repeated: b"",
        last: b"data_sources { config { target_buffer: 1 } }\nbuffers { }\n",
        line: 1,
        reason: ConfigReason::NoSuchBuffer,
    },
    // missing size before chunk larger
    Row {
        times: 0,
        repeated: b"",
        last: b"buffers { size_kb: 4 }\nproducers { page_size_kb: 64 }\nbuffers { }\ndata_sources { }\n",
        line: 3,
        reason: ConfigReason::MissingSize,
    },
    // out of range before too many
    Row {
        times: 8,
        repeated: b"buffers { size_kb: 4 }\n",
        last: b"buffers { size_kb: 65537 }\n",
        line: 9,
        reason: ConfigReason::OutOfRange,
    },
    // no such buffer in an earlier block than out of range
    Row {
        times: 0,
        repeated: b"",
        last: b"data_sources { }\nproducers { shm_size_kb: 6 }\n",
        line: 1,
        reason: ConfigReason::NoSuchBuffer,
    },
    // out of range before chunk larger
    Row {
        times: 0,
        repeated: b"",
        last: b"buffers { size_kb: 3 }\nproducers { page_size_kb: 64 }\ndata_sources { }\n",
        line: 1,
        reason: ConfigReason::OutOfRange,
    },
    // too many before no such buffer
    Row {
        times: 64,
        repeated: b"data_sources { }\n",
        last: b"data_sources { config { target_buffer: 1 } }\nbuffers { size_kb: 4 }\n",
        line: 65,
        reason: ConfigReason::TooMany,
    },
    // too many before chunk larger
    Row {
        times: 64,
        repeated: b"data_sources { }\n",
        last: b"data_sources { producer_name_filter: \"large\" }\nbuffers { size_kb: 4 }\nproducers { }\nproducers { producer_name: \"large\" page_size_kb: 64 }\n",
        line: 65,
        reason: ConfigReason::TooMany,
    },
    // no such buffer before chunk larger
    Row {
        times: 0,
        repeated: b"",
        last: b"buffers { size_kb: 4 }\nproducers { page_size_kb: 64 }\ndata_sources { config { target_buffer: 1 } }\ndata_sources { }\n",
        line: 3,
        reason: ConfigReason::NoSuchBuffer,
    },
];

#[test]
fn refuses_for_the_first_reason(rt: HostRuntime) -> Result<(), Fail> {
    for row in &ROWS {
        let mut text = Vec::new(rt.alloc());
        for _ in 0..row.times {
            text.extend_from_slice(row.repeated)?;
        }
        text.extend_from_slice(row.last)?;
        assert!(rt; text.len() <= MAX_INPUT);
        let answer = read_config(rt.alloc(), &text);
        let line = row.line;
        let reason = row.reason;
        assert_eq!(rt; answer.err(), Some(ConfigFault::BadConfig { line, reason }));
    }
    Ok(())
}
