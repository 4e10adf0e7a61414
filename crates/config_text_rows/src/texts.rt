//! Texts such as Perfetto's documentation shows: read with the fields skipped that say nothing here, or
//! refused where this profile leaves a form out.
use byte_io::memory::MemSink;
use config_text::{ConfigFault, ConfigReason, put_config, read_config};
use std::test::Fail;

/// What is written of a configuration that was read, or the first fault.
#[derive(Clone, Copy)]
enum Answer {
    Read(&'static [u8]),
    Refused(u32, ConfigReason),
}

const TEXTS: [(&[u8], Answer); 12] = [
    // ftrace with categories
    (
        b"# Scheduling and graphics.\nbuffers: {\n    size_kb: 63488\n    fill_policy: DISCARD\n}\ndata_sources: {\n    config {\n        name: \"linux.ftrace\"\n        ftrace_config {\n            ftrace_events: \"sched/sched_switch\"\n            ftrace_events: \"power/suspend_resume\"\n            atrace_categories: \"gfx\"\n            atrace_categories: \"view\"\n            atrace_apps: \"*\"\n        }\n    }\n}\nduration_ms: 10000\n",
        Answer::Read(
            b"buffers { size_kb: 63488 fill_policy: DISCARD }\nproducers { producer_name: \"\" shm_size_kb: 256 page_size_kb: 4 }\ndata_sources { config { name: \"linux.ftrace\" target_buffer: 0 } producer_name_filter: \"\" }\n",
        ),
    ),
    // process stats
    (
        b"buffers { size_kb: 2048 }\ndata_sources {\n  config {\n    name: \"linux.process_stats\"\n    target_buffer: 0\n    process_stats_config {\n      scan_all_processes_on_start: true\n      proc_stats_poll_ms: 1000\n    }\n  }\n}\n",
        Answer::Read(
            b"buffers { size_kb: 2048 fill_policy: RING_BUFFER }\nproducers { producer_name: \"\" shm_size_kb: 256 page_size_kb: 4 }\ndata_sources { config { name: \"linux.process_stats\" target_buffer: 0 } producer_name_filter: \"\" }\n",
        ),
    ),
    // the log
    (
        b"buffers { size_kb: 1024; fill_policy: RING_BUFFER; };\ndata_sources {\n  config {\n    name: \"android.log\"\n    android_log_config {\n      log_ids: LID_DEFAULT\n      log_ids: LID_SYSTEM\n      min_prio: PRIO_INFO\n      filter_tags: \"perfetto\"\n    }\n  }\n}\n",
        Answer::Read(
            b"buffers { size_kb: 1024 fill_policy: RING_BUFFER }\nproducers { producer_name: \"\" shm_size_kb: 256 page_size_kb: 4 }\ndata_sources { config { name: \"android.log\" target_buffer: 0 } producer_name_filter: \"\" }\n",
        ),
    ),
    // a long trace
    (
        b"write_into_file: true\nfile_write_period_ms: 5000\nmax_file_size_bytes: 500000000\nflush_period_ms: 30000\nincremental_state_config { clear_period_ms: 5000 }\nbuffers { size_kb: 4096 }\ndata_sources { config { name: \"linux.ftrace\" ftrace_config { buffer_size_kb: 16384 drain_period_ms: 250 } } }\n",
        Answer::Read(
            b"buffers { size_kb: 4096 fill_policy: RING_BUFFER }\nproducers { producer_name: \"\" shm_size_kb: 256 page_size_kb: 4 }\ndata_sources { config { name: \"linux.ftrace\" target_buffer: 0 } producer_name_filter: \"\" }\n",
        ),
    ),
    // several buffers
    (
        b"buffers: { size_kb: 8192, fill_policy: RING_BUFFER }\nbuffers: { size_kb: 4096, fill_policy: DISCARD }\ndata_sources: { config: { name: \"linux.ftrace\", target_buffer: 0 } }\ndata_sources: { config: { name: \"linux.process_stats\", target_buffer: 1 } }\ndata_sources: { config: { name: \"linux.sys_stats\", target_buffer: 1, sys_stats_config: { stat_period_ms: 1000, stat_counters: STAT_CPU_TIMES } } }\n",
        Answer::Read(
            b"buffers { size_kb: 8192 fill_policy: RING_BUFFER }\nbuffers { size_kb: 4096 fill_policy: DISCARD }\nproducers { producer_name: \"\" shm_size_kb: 256 page_size_kb: 4 }\ndata_sources { config { name: \"linux.ftrace\" target_buffer: 0 } producer_name_filter: \"\" }\ndata_sources { config { name: \"linux.process_stats\" target_buffer: 1 } producer_name_filter: \"\" }\ndata_sources { config { name: \"linux.sys_stats\" target_buffer: 1 } producer_name_filter: \"\" }\n",
        ),
    ),
    // named producers
    (
        b"buffers { size_kb: 512 }\nproducers { producer_name: \"perfetto.traced_probes\" shm_size_kb: 256 page_size_kb: 4 }\nproducers { producer_name: \"com.example\" shm_size_kb: 1024 page_size_kb: 16 }\ndata_sources {\n  config { name: \"track_event\" track_event_config { enabled_categories: \"*\" } }\n  producer_name_filter: \"com.other\"\n  producer_name_filter: \"com.example\"\n}\ndata_sources { config { name: \"linux.ftrace\" } producer_name_filter: \"perfetto.traced_probes\" }\n",
        Answer::Read(
            b"buffers { size_kb: 512 fill_policy: RING_BUFFER }\nproducers { producer_name: \"perfetto.traced_probes\" shm_size_kb: 256 page_size_kb: 4 }\nproducers { producer_name: \"com.example\" shm_size_kb: 1024 page_size_kb: 16 }\ndata_sources { config { name: \"track_event\" target_buffer: 0 } producer_name_filter: \"com.example\" }\ndata_sources { config { name: \"linux.ftrace\" target_buffer: 0 } producer_name_filter: \"perfetto.traced_probes\" }\n",
        ),
    ),
    // heap profiles
    (
        b"buffers { size_kb: 63488 }\ndata_sources {\n  config {\n    name: \"android.heapprofd\"\n    heapprofd_config {\n      sampling_interval_bytes: 4096\n      process_cmdline: \"com.example.app\"\n      continuous_dump_config { dump_phase_ms: 1000 dump_interval_ms: 1000 }\n    }\n  }\n}\nunique_session_name: \"session-1\"\n",
        Answer::Read(
            b"buffers { size_kb: 63488 fill_policy: RING_BUFFER }\nproducers { producer_name: \"\" shm_size_kb: 256 page_size_kb: 4 }\ndata_sources { config { name: \"android.heapprofd\" target_buffer: 0 } producer_name_filter: \"\" }\n",
        ),
    ),
    // a buffer of 128 MB
    (
        b"buffers {\n  size_kb: 131072\n}\n",
        Answer::Refused(1, ConfigReason::OutOfRange),
    ),
    // an escape
    (
        b"buffers { size_kb: 64 }\ndata_sources {\n  config {\n    name: \"linux.ftrace\"\n    ftrace_config { atrace_apps: \"com\\.example\" }\n  }\n}\n",
        Answer::Refused(5, ConfigReason::BadText),
    ),
    // single quotes
    (
        b"buffers { size_kb: 64 }\ndata_sources {\n  config { name: 'linux.ftrace' }\n}\n",
        Answer::Refused(3, ConfigReason::BadText),
    ),
    // a list
    (
        b"buffers { size_kb: 64 }\ndata_sources { config { name: \"linux.ftrace\"\n  ftrace_config { ftrace_events: [\"sched/sched_switch\", \"power/suspend_resume\"] } } }\n",
        Answer::Refused(3, ConfigReason::BadText),
    ),
    // memory of too many pages
    (
        b"buffers { size_kb: 64 }\nproducers { producer_name: \"perfetto.traced_probes\" shm_size_kb: 4096 page_size_kb: 4 }\n",
        Answer::Refused(2, ConfigReason::OutOfRange),
    ),
];

#[test]
fn reads_texts_as_documented(rt: HostRuntime) -> Result<(), Fail> {
    for (text, answer) in TEXTS {
        match answer {
            Answer::Read(written) => {
                let config = read_config(rt.alloc(), text).expect(&rt, "a configuration");
                let mut sink = MemSink::with_room(rt.alloc(), 1000)?;
                put_config(&mut sink, &config)?;
                assert_eq!(rt; sink.taken(), written);
            }
            Answer::Refused(line, reason) => {
                let found = read_config(rt.alloc(), text).err();
                assert_eq!(rt; found, Some(ConfigFault::BadConfig { line, reason }));
            }
        }
    }
    Ok(())
}
