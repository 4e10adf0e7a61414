//! A writer that stalls: for ever where nobody takes its chunks, and as long as it needs where a
//! collector does.
ghost use Rattle.std.specs.Prelude.{◌≡◌, ◌<◌};

use crate::calls::{CLOSE, COLLECT, FINISH, FLUSH, OPEN, PACKET, number, text};
use crate::setting::{Collected, FROM, Left, NOTHING, left_alone, left_collected};
use std::alloc::Global;
use std::marker::Brand;
use std::process::Abort;
use std::sync::ledger::{Blank, Ledger};
use std::test::Fail;
use trace_base::ids::id_of;
use trace_base::policy::WriterPolicy;
use trace_base::steps::Steps;
use trace_writer::CallFault;

/// A writer of two chunks that finds no third: for a text, for a nested length, for a text inside so
/// many messages as there can be, and for a packet. What comes behind is refused, or changes nothing.
fn stalled<R: Abort, L: Ledger>(rt: &R, alloc: Global, blank: Blank) -> Result<[Left; 4], Fail>
    requires name { blank.name ≡ L.name }
    requires parts { blank.parts ≡ L.parts }
    requires some_part { 0 < L.parts }
{
    let mut steps = Steps::<L>::new(blank);
    let stalls = WriterPolicy::Stalls;
    let waits = CallFault::Stalled;
    let long = [PACKET, text(1, 5000).but(waits)];
    let behind = [
        number(8, 1).but(waits),
        text(1, 0).but(waits),
        OPEN.but(waits),
        text(3, 1).but(CallFault::Reserved { field: 3 }),
        text(1, 1_048_576).but(CallFault::PacketTooLong),
        FINISH,
        FLUSH,
        number(8, 1).but(waits),
    ];
    let filled = [PACKET, text(1, 4057), OPEN.but(waits)];
    let inside = [text(3, 1).but(waits), CLOSE, FINISH, text(3, 1).but(waits)];
    let mut deep = [OPEN; 18];
    deep[0] = PACKET;
    deep[17] = text(1, 5000).but(waits);
    let deeper = [
        OPEN.but(CallFault::TooDeep),
        number(8, 1).but(waits),
        CLOSE,
        FINISH,
    ];
    let small = [PACKET, number(8, 1), FINISH, FLUSH];
    let none = [
        PACKET.but(waits),
        FLUSH,
        PACKET.but(waits),
        number(8, 1),
        FINISH,
    ];
    Ok([
        left_alone(rt, alloc, 2, stalls, [&long, &behind, &behind], &mut steps)?,
        left_alone(
            rt,
            alloc,
            2,
            stalls,
            [&filled, &inside, &inside],
            &mut steps,
        )?,
        left_alone(rt, alloc, 2, stalls, [&deep, &deeper, &deeper], &mut steps)?,
        left_alone(rt, alloc, 2, stalls, [&small, &small, &none], &mut steps)?,
    ])
}

#[test]
fn stalls_for_ever(rt: HostRuntime) -> Result<(), Fail> {
    let left = stalled::<_, Brand>(&rt, rt.alloc(), Blank::new(1))?;
    let two = Left {
        completed: 2,
        ..NOTHING
    };
    assert_eq!(rt; left[0], two, "a text");
    assert_eq!(rt; left[1], Left { depth: 1, ..two }, "a nested length");
    assert_eq!(rt; left[2], Left { depth: 16, ..two }, "the innermost message");
    assert_eq!(rt; left[3], Left { begun: 2, ..two }, "a packet");
    Ok(())
}

/// A packet of 25 chunks over two.
fn helped<R: Abort, L: Ledger>(rt: &R, alloc: Global, blank: Blank) -> Result<Collected, Fail>
    requires name { blank.name ≡ L.name }
    requires parts { blank.parts ≡ L.parts }
    requires some_part { 0 < L.parts }
{
    let mut steps = Steps::<L>::new(blank);
    let script = [PACKET, OPEN, text(1, 50_000), CLOSE, FINISH, FLUSH, COLLECT];
    left_collected(
        rt,
        alloc,
        2,
        WriterPolicy::Stalls,
        [&script, &[], &[]],
        &mut steps,
    )
}

#[test]
fn goes_on_where_chunks_are_freed(rt: HostRuntime) -> Result<(), Fail> {
    let Collected {
        left,
        taken,
        images,
    } = helped::<_, Brand>(&rt, rt.alloc(), Blank::new(1))?;
    let all = Left {
        completed: 25,
        ..NOTHING
    };
    assert_eq!(rt; (left, taken), (all, 25));
    let Some(last) = images[0] else {
        panic!(rt; "no last chunk");
    };
    let header = last.header;
    assert_eq!(rt;
        (header.chunk_id, header.count, header.flags),
        (id_of(FROM, 24), 1, 1)
    );
    assert!(rt; last.front.starts_with(b"\xda\x89\x80\x00xxx"));
    let Some(patch) = last.first_patch else {
        panic!(rt; "no patch");
    };
    assert_eq!(rt; (patch.chunk_id, patch.offset, patch.last), (FROM, 6, true));
    assert_eq!(rt; patch.bytes, *b"\xd4\x86\x83\x00");
    Ok(())
}
