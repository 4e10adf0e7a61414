//! A writer that asks so often and then drops: it asks anew for each chunk, and while it holds one.
ghost use Rattle.std.specs.Prelude.{◌≡◌, ◌<◌};

use crate::calls::{FINISH, FLUSH, PACKET, number, text};
use crate::setting::{Left, NOTHING, left_asking};
use std::alloc::Global;
use std::marker::Brand;
use std::process::Abort;
use std::sync::ledger::{Blank, Ledger};
use std::test::Fail;
use trace_base::policy::WriterPolicy;
use trace_base::steps::Steps;

/// A writer that asks three times. Of two chunks that nobody takes it finds no third: for a text,
/// which it gives up, and for two packets, which it drops. Of one chunk it finds no second while it
/// holds it, though a collector stands by; behind a packet it finds it again, also where it still held
/// it at the next one's begin. Of two chunks that are taken it finds all that it needs.
fn tried<R: Abort, L: Ledger>(rt: &R, alloc: Global, blank: Blank) -> Result<[(Left, u64); 5], Fail>
    requires name { blank.name ≡ L.name }
    requires parts { blank.parts ≡ L.parts }
    requires some_part { 0 < L.parts }
{
    let mut steps = Steps::<L>::new(blank);
    let tries = WriterPolicy::StallsThenDrops { tries: 3 };
    let long = [PACKET, text(1, 5000), text(1, 5000), FINISH];
    let small = [PACKET, number(8, 1), FINISH, FLUSH];
    let full = [PACKET, text(1, 4070), FINISH];
    let longer = [PACKET, text(1, 50_000), FINISH, FLUSH];
    Ok([
        left_asking(
            rt,
            alloc,
            2,
            tries,
            true,
            [&long, &small, &small],
            &mut steps,
        )?,
        left_asking(
            rt,
            alloc,
            1,
            tries,
            false,
            [&long, &small, &small],
            &mut steps,
        )?,
        left_asking(
            rt,
            alloc,
            1,
            tries,
            false,
            [&small, &small, &small],
            &mut steps,
        )?,
        left_asking(rt, alloc, 2, tries, false, [&longer, &[], &[]], &mut steps)?,
        left_asking(rt, alloc, 1, tries, false, [&full, &small, &[]], &mut steps)?,
    ])
}

#[test]
fn drops_behind_so_many_asks(rt: HostRuntime) -> Result<(), Fail> {
    let left = tried::<_, Brand>(&rt, rt.alloc(), Blank::new(1))?;
    let two = Left {
        begun: 3,
        dropped: 2,
        completed: 2,
        ..NOTHING
    };
    assert_eq!(rt;
        left[0],
        (two, 9),
        "three asks for the text, and for each packet"
    );
    let held = Left {
        begun: 3,
        completed: 3,
        ..NOTHING
    };
    assert_eq!(rt;
        left[1],
        (held, 5),
        "three while the chunk is held, and one for each packet"
    );
    assert_eq!(rt;
        left[2],
        (held, 2),
        "none for the first packet, and one for each other"
    );
    let all = Left {
        completed: 25,
        ..NOTHING
    };
    assert_eq!(rt; left[3], (all, 23), "one for each chunk but the first two");
    let both = Left {
        begun: 2,
        completed: 2,
        ..NOTHING
    };
    assert_eq!(rt; left[4], (both, 1), "one behind the completed chunk");
    Ok(())
}
