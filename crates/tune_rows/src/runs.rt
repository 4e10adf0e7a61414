//! Whole runs. What they come to on threads hangs on the schedule, but for a user alone that takes
//! one turn or two.
use byte_io::traits::{Gate, OpenGate};
use layout_tuner::{generation_of, layout_of};
use std::sync::atomic::{AtomicU64, Ordering};
use std::test::Fail;
use tune_run::{UserCounts, run_tune};

#[test]
fn a_user_alone_claims_one_chunk_in_one_turn(rt: HostRuntime) -> Result<(), Fail> {
    let report = run_tune(&rt, &OpenGate, rt.alloc(), 1, 1)?;
    let want = UserCounts {
        claimed: 1,
        none: 0,
        retiled: 0,
        refused: 0,
    };
    assert_eq!(rt; report.users.as_slice(), [want].as_slice());
    assert_eq!(rt; report.taken, 1);
    assert_eq!(rt; report.words.as_slice(), [0x5000_0000; 4].as_slice());
    Ok(())
}

#[test]
fn a_user_alone_partitions_page_3_in_its_second_turn(rt: HostRuntime) -> Result<(), Fail> {
    let report = run_tune(&rt, &OpenGate, rt.alloc(), 1, 2)?;
    let want = UserCounts {
        claimed: 1,
        none: 0,
        retiled: 1,
        refused: 0,
    };
    assert_eq!(rt; report.users.as_slice(), [want].as_slice());
    assert_eq!(rt; report.taken, 1);
    let first = 0x5000_0000;
    let want = [first, first, 0x0000_7f80_4000_0000, first];
    assert_eq!(rt; report.words.as_slice(), want.as_slice());
    Ok(())
}

#[test]
fn eight_users_end_with_counts_that_add_up(rt: HostRuntime) -> Result<(), Fail> {
    let turns = 3000;
    let report = run_tune(&rt, &OpenGate, rt.alloc(), 8, turns)?;
    assert_eq!(rt; report.users.len(), 8);
    // The sums are wrapping ones so that the test needs no proof.
    let mut completed: u64 = 0;
    for user in report.users.iter() {
        assert_eq!(rt; user.claimed.wrapping_add(user.none), 2000);
        assert_eq!(rt; user.retiled.wrapping_add(user.refused), 1000);
        completed = completed.wrapping_add(user.claimed);
    }
    assert_eq!(rt; completed, report.taken);
    for word in report.words.iter() {
        assert!(rt; generation_of(*word) <= 8000);
        assert!(rt; 1 <= layout_of(*word) && layout_of(*word) <= 5);
    }
    Ok(())
}

/// Loads that are more than any other job needs to begin.
const PATIENCE: u32 = 1_000_000_000;

/// Holds each job at its beginning until so many of them have come there.
#[derive(Drop)]
struct AllJobs {
    jobs: u64,
    come: AtomicU64,
    ran_out: AtomicU64,
}

impl Gate for AllJobs {
    fn pass(&self, _job: u16, line: u64) {
        if line != 1 {
            return;
        }
        self.come.fetch_add(1, Ordering::SeqCst);
        for _ in 0..PATIENCE {
            if self.come.load(Ordering::SeqCst) == self.jobs {
                return;
            }
        }
        self.ran_out.store(1, Ordering::SeqCst);
    }
}

#[test]
fn users_and_the_collector_run_beside_each_other(rt: HostRuntime) -> Result<(), Fail> {
    let gate = AllJobs {
        jobs: 3,
        come: AtomicU64::new(0),
        ran_out: AtomicU64::new(0),
    };
    let report = run_tune(&rt, &gate, rt.alloc(), 2, 5)?;
    assert_eq!(rt; gate.ran_out.load(Ordering::SeqCst), 0);
    assert_eq!(rt; report.users.len(), 2);
    Ok(())
}

#[test]
fn eight_users_and_the_collector_are_there_at_once(rt: HostRuntime) -> Result<(), Fail> {
    let gate = AllJobs {
        jobs: 9,
        come: AtomicU64::new(0),
        ran_out: AtomicU64::new(0),
    };
    let report = run_tune(&rt, &gate, rt.alloc(), 8, 9)?;
    assert_eq!(rt; gate.ran_out.load(Ordering::SeqCst), 0);
    assert_eq!(rt; gate.come.load(Ordering::SeqCst), 9);
    assert_eq!(rt; report.users.len(), 8);
    Ok(())
}
