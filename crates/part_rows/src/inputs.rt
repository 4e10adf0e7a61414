//! A text that comes in pieces says what it says at once, wherever it is cut; and a fault behind a refused line counts.
ghost use Rattle.std.specs.Prelude.{◌<◌};

use byte_io::fill::FillFault;
use byte_io::script::ScriptSource;
use scenario_input::take_scenario;
use scenario_text::{Reason, ScenarioFault, read_scenario};
use std::alloc::{AllocError, Global};
use std::process::Abort;
use std::test::Fail;

const GOOD: &[u8] =
    b"buffer 64 ring\nproducer 1 4096 14\nwriter 1 1 stall\n\n# a comment\np 1 1:7 2:\"ab\"\nf 1\n";

const BAD: &[u8] = b"buffer 64 ring\nzzz\nproducer 1 4096 14\nwriter 1 1 stall\n";

const UNFINISHED: &[u8] = b"buffer 64 ring\nproducer 1 4096 14";

// How many lines are played, or the first fault.
fn answer(
    alloc: Global,
    text: &[u8],
    piece: usize,
    failing: &[u64],
) -> Result<Result<Result<usize, ScenarioFault>, FillFault>, AllocError>
    requires { 0 < piece }
{
    let mut source = ScriptSource::new(text.to_vec(alloc)?, piece, failing.to_vec(alloc)?);
    match take_scenario(alloc, &mut source) {
        Ok(Ok(scenario)) => Ok(Ok(Ok(scenario.lines.len()))),
        Ok(Err(fault)) => Ok(Ok(Err(fault))),
        Err(fault) => Ok(Err(fault)),
    }
}

fn bad(line: u32, reason: Reason) -> Result<Result<usize, ScenarioFault>, FillFault> {
    Ok(Err(ScenarioFault::Bad { line, reason }))
}

#[test]
fn says_the_same_wherever_it_is_cut(rt: HostRuntime) -> Result<(), Fail> {
    let Ok(scenario) = read_scenario(rt.alloc(), GOOD) else {
        panic!(rt; "no scenario");
    };
    assert_eq!(rt; scenario.lines.len(), 2);
    for piece in 1..100 {
        assert_eq!(rt; answer(rt.alloc(), GOOD, piece, &[])?, Ok(Ok(2)), "{piece}");
        assert_eq!(rt;
            answer(rt.alloc(), BAD, piece, &[])?,
            bad(2, Reason::BadLine),
            "{piece}"
        );
        assert_eq!(rt;
            answer(rt.alloc(), UNFINISHED, piece, &[])?,
            bad(2, Reason::UnfinishedLine),
            "{piece}"
        );
    }
    Ok(())
}

// The refused line has come by the fourth piece of five bytes.
#[test]
fn a_fault_behind_a_refused_line_counts(rt: HostRuntime) -> Result<(), Fail> {
    for call in 1..12 {
        assert_eq!(rt;
            answer(rt.alloc(), BAD, 5, &[call])?,
            Err(FillFault::ReadFault),
            "at call {call}"
        );
    }
    assert_eq!(rt; answer(rt.alloc(), BAD, 5, &[13])?, bad(2, Reason::BadLine));
    Ok(())
}
