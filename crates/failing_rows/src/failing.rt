//! Each failing end of each command, and of each status that a row has.
use crate::ends::{
    failing_reads, failing_texts, failing_writes, full_texts, full_traces, no_room, too_long,
};
use crate::rows::{PLAYED, REFUSED, STALLED, WRITTEN};
use std::test::Fail;

/// The most bytes of a short read or a short write.
const MOST: [usize; 4] = [1, 2, 3, 4096];

#[test]
fn each_read_of_what_is_played(rt: HostRuntime) -> Result<(), Fail> {
    for row in &PLAYED {
        for most in MOST {
            failing_reads(&rt, row, most)?;
        }
    }
    Ok(())
}

#[test]
fn each_read_of_what_is_written(rt: HostRuntime) -> Result<(), Fail> {
    for row in &WRITTEN {
        for most in MOST {
            failing_reads(&rt, row, most)?;
        }
    }
    Ok(())
}

#[test]
fn each_read_of_what_is_refused(rt: HostRuntime) -> Result<(), Fail> {
    for row in &REFUSED {
        for most in MOST {
            failing_reads(&rt, row, most)?;
        }
    }
    Ok(())
}

#[test]
fn each_read_of_what_is_stalled(rt: HostRuntime) -> Result<(), Fail> {
    for row in &STALLED {
        for most in MOST {
            failing_reads(&rt, row, most)?;
        }
    }
    Ok(())
}

#[test]
fn each_write_of_what_is_played(rt: HostRuntime) -> Result<(), Fail> {
    for row in &PLAYED {
        for most in MOST {
            failing_writes(&rt, row, most)?;
        }
    }
    Ok(())
}

#[test]
fn each_write_of_what_is_written(rt: HostRuntime) -> Result<(), Fail> {
    for row in &WRITTEN {
        for most in MOST {
            failing_writes(&rt, row, most)?;
        }
    }
    Ok(())
}

#[test]
fn each_write_of_what_is_refused(rt: HostRuntime) -> Result<(), Fail> {
    for row in &REFUSED {
        for most in MOST {
            failing_writes(&rt, row, most)?;
        }
    }
    Ok(())
}

#[test]
fn each_write_of_what_is_stalled(rt: HostRuntime) -> Result<(), Fail> {
    for row in &STALLED {
        for most in MOST {
            failing_writes(&rt, row, most)?;
        }
    }
    Ok(())
}

#[test]
fn each_write_of_the_report_of_replay(rt: HostRuntime) -> Result<(), Fail> {
    for row in &PLAYED[..1] {
        for most in MOST {
            failing_texts(&rt, row, most)?;
        }
    }
    Ok(())
}

#[test]
fn each_write_of_the_report_of_run(rt: HostRuntime) -> Result<(), Fail> {
    for row in &PLAYED[1..2] {
        for most in MOST {
            failing_texts(&rt, row, most)?;
        }
    }
    Ok(())
}

#[test]
fn each_write_of_the_report_of_stream(rt: HostRuntime) -> Result<(), Fail> {
    for row in &PLAYED[2..3] {
        for most in MOST {
            failing_texts(&rt, row, most)?;
        }
    }
    Ok(())
}

#[test]
fn each_write_of_the_report_of_clone(rt: HostRuntime) -> Result<(), Fail> {
    for row in &PLAYED[3..] {
        for most in MOST {
            failing_texts(&rt, row, most)?;
        }
    }
    Ok(())
}

#[test]
fn each_write_of_the_line_of_what_is_written(rt: HostRuntime) -> Result<(), Fail> {
    for row in &WRITTEN {
        for most in MOST {
            failing_texts(&rt, row, most)?;
        }
    }
    Ok(())
}

#[test]
fn each_write_of_the_line_of_what_is_refused(rt: HostRuntime) -> Result<(), Fail> {
    for row in &REFUSED {
        for most in MOST {
            failing_texts(&rt, row, most)?;
        }
    }
    Ok(())
}

#[test]
fn each_write_of_the_line_of_what_is_stalled(rt: HostRuntime) -> Result<(), Fail> {
    for row in &STALLED {
        for most in MOST {
            failing_texts(&rt, row, most)?;
        }
    }
    Ok(())
}

#[test]
fn each_room_of_what_is_played(rt: HostRuntime) -> Result<(), Fail> {
    for row in &PLAYED {
        full_traces(&rt, row)?;
        full_texts(&rt, row)?;
        no_room(&rt, row)?;
    }
    Ok(())
}

#[test]
fn each_room_of_what_is_written(rt: HostRuntime) -> Result<(), Fail> {
    for row in &WRITTEN {
        full_traces(&rt, row)?;
        full_texts(&rt, row)?;
        no_room(&rt, row)?;
    }
    Ok(())
}

#[test]
fn each_room_of_what_is_refused(rt: HostRuntime) -> Result<(), Fail> {
    for row in &REFUSED {
        full_traces(&rt, row)?;
        full_texts(&rt, row)?;
        no_room(&rt, row)?;
    }
    Ok(())
}

#[test]
fn each_room_of_what_is_stalled(rt: HostRuntime) -> Result<(), Fail> {
    for row in &STALLED {
        full_traces(&rt, row)?;
        full_texts(&rt, row)?;
        no_room(&rt, row)?;
    }
    Ok(())
}

#[test]
fn one_byte_too_many_of_a_scenario_is_too_long(rt: HostRuntime) -> Result<(), Fail> {
    too_long(&rt, "replay")
}

#[test]
fn one_byte_too_many_of_a_stream_is_too_long(rt: HostRuntime) -> Result<(), Fail> {
    too_long(&rt, "stream")
}
