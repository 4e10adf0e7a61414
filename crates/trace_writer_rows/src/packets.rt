//! What a writer that drops holds behind its packets, and which calls it refuses.
ghost use Rattle.std.specs.Prelude.{◌≡◌, ◌<◌};

use crate::calls::{CLOSE, FINISH, OPEN, PACKET, number, text};
use crate::setting::{Left, NOTHING, left_alone};
use std::alloc::Global;
use std::marker::Brand;
use std::process::Abort;
use std::sync::ledger::{Blank, Ledger};
use std::test::Fail;
use trace_base::policy::WriterPolicy;
use trace_base::steps::Steps;
use trace_writer::CallFault;

/// Packets that run on, and one that is given up.
fn packets<R: Abort, L: Ledger>(rt: &R, alloc: Global, blank: Blank) -> Result<[Left; 4], Fail>
    requires name { blank.name ≡ L.name }
    requires parts { blank.parts ≡ L.parts }
    requires some_part { 0 < L.parts }
{
    let mut steps = Steps::<L>::new(blank);
    let drops = WriterPolicy::Drops;
    let long = [PACKET, text(1, 297), FINISH];
    let crosses = [PACKET, OPEN, text(1, 300), CLOSE, FINISH];
    let ends_early = [PACKET, text(1, 273), OPEN, number(2, 7), CLOSE, FINISH];
    let small = [PACKET, number(8, 1), FINISH];
    let too_much = [PACKET, OPEN, text(1, 5000), CLOSE, FINISH];
    Ok([
        left_alone(rt, alloc, 14, drops, [&long, &[], &[]], &mut steps)?,
        left_alone(rt, alloc, 14, drops, [&crosses, &[], &[]], &mut steps)?,
        left_alone(rt, alloc, 14, drops, [&ends_early, &[], &[]], &mut steps)?,
        left_alone(rt, alloc, 2, drops, [&small, &too_much, &small], &mut steps)?,
    ])
}

#[test]
fn holds_what_was_written(rt: HostRuntime) -> Result<(), Fail> {
    let left = packets::<_, Brand>(&rt, rt.alloc(), Blank::new(1))?;
    let long = [0x94, 0x80, 0x80, 0, b'x', b'x', b'x', b'x', b'x', b'x'];
    assert_eq!(rt;
        left[0],
        Left {
            completed: 1,
            at: 24,
            front: long,
            ..NOTHING
        }
    );
    let crosses = [0x9d, 0x80, 0x80, 0, b'x', b'x', b'x', b'x', b'x', b'x'];
    assert_eq!(rt;
        left[1],
        Left {
            completed: 1,
            at: 33,
            unsent: 1,
            front: crosses,
            ..NOTHING
        }
    );
    let ends_early = [0x86, 0x80, 0x80, 0, 0x82, 0x80, 0x80, 0, 0x10, 7];
    assert_eq!(rt;
        left[2],
        Left {
            completed: 1,
            at: 10,
            front: ends_early,
            ..NOTHING
        }
    );
    assert_eq!(rt;
        left[3],
        Left {
            begun: 3,
            dropped: 1,
            completed: 2,
            ..NOTHING
        }
    );
    Ok(())
}

/// Packets with a call that is refused.
fn refused<R: Abort, L: Ledger>(rt: &R, alloc: Global, blank: Blank) -> Result<[Left; 4], Fail>
    requires name { blank.name ≡ L.name }
    requires parts { blank.parts ≡ L.parts }
    requires some_part { 0 < L.parts }
{
    let mut steps = Steps::<L>::new(blank);
    let drops = WriterPolicy::Drops;
    let too_long = CallFault::PacketTooLong;
    let reserved = CallFault::Reserved { field: 3 };
    let reserved = [PACKET, text(3, 1_048_576).but(reserved), FINISH];
    let longer = [PACKET, text(1, 1_048_573).but(too_long), FINISH];
    let far_longer = [PACKET, text(1, 4_294_967_295).but(too_long), FINISH];
    let mut deep = [OPEN; 18];
    deep[0] = PACKET;
    deep[17] = OPEN.but(CallFault::TooDeep);
    let closes = [CLOSE; 16];
    Ok([
        left_alone(rt, alloc, 14, drops, [&reserved, &[], &[]], &mut steps)?,
        left_alone(rt, alloc, 14, drops, [&longer, &[], &[]], &mut steps)?,
        left_alone(rt, alloc, 14, drops, [&far_longer, &[], &[]], &mut steps)?,
        left_alone(
            rt,
            alloc,
            14,
            drops,
            [&deep, &closes, &[FINISH]],
            &mut steps,
        )?,
    ])
}

#[test]
fn refuses_calls(rt: HostRuntime) -> Result<(), Fail> {
    let left = refused::<_, Brand>(&rt, rt.alloc(), Blank::new(1))?;
    let empty = Left {
        at: 4,
        front: [0x80, 0x80, 0x80, 0, 0, 0, 0, 0, 0, 0],
        ..NOTHING
    };
    assert_eq!(rt; left[0], empty, "reserved");
    assert_eq!(rt; left[1], empty, "too long");
    assert_eq!(rt; left[2], empty, "far too long");
    assert_eq!(rt; (left[3].wrong, left[3].at), (None, 100), "too deep");
    Ok(())
}
