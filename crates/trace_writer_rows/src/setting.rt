//! A table with one writer, and what is left of a script that the writer is played.
ghost use Rattle.std.specs.Prelude.{IfOk};
ghost use Rattle.chunk_plain.specs.Setup.{HasProducer};
ghost use Rattle.trace_writer.specs.Core.{CoreAgrees};

use crate::calls::{Call, make_calls, number};
use crate::collector::{Collector, Image};
use chunk_plain::{ChunkRange, PlainTable, PlainWriter, ProducerSpec, Words};
use claim_arbiter::Arbiter;
use page_geometry::Geometry;
use std::alloc::Global;
use std::process::Abort;
use std::sync::ledger::Ledger;
use std::test::Fail;
use trace_base::ids::id_of;
use trace_base::policy::{WriterPolicy, WriterSpec};
use trace_base::steps::Steps;
use trace_writer::{CallFault, HelperOn, WriterCore};

/// What a script leaves: the first call that was answered otherwise than it says, the counts, and of
/// the held chunk the place behind its fragments, the patches that are kept for it, and its first
/// bytes.
#[derive(Clone, Copy, Debug, PartialEq, Eq)]
pub(crate) struct Left {
    pub wrong: Option<usize>,
    pub begun: u64,
    pub dropped: u64,
    pub completed: u32,
    pub depth: u8,
    pub at: usize,
    pub unsent: usize,
    pub front: [u8; 10],
}

pub(crate) const NOTHING: Left = Left {
    wrong: None,
    begun: 1,
    dropped: 0,
    completed: 0,
    depth: 0,
    at: 0,
    unsent: 0,
    front: [0; 10],
};

/// The id of the writer's first chunk is the greatest one, so that its second chunk has the id 0.
pub(crate) const FROM: u32 = 4_294_967_295;

/// A writer on one page of so many chunks, and a collector.
fn set_up(
    alloc: Global,
    chunks: u8,
    policy: WriterPolicy,
) -> Result<(PlainTable, WriterCore<PlainWriter>, Collector), Fail>
    ensures seat { IfOk result (λ made. ⟦<PlainTable as Words>⟧.means.sits made.0 made.1.seat) }
    ensures producer { IfOk result (λ made. HasProducer (⟦<PlainTable as Words>⟧.means.setup made.0) 1) }
    ensures agrees { IfOk result (λ made. CoreAgrees (⟦<PlainTable as Words>⟧.means.setup made.0)
        (⟦<PlainTable as Words>⟧.means.place made.1.seat) (⟦<PlainTable as Words>⟧.means.view made.0 made.1.seat) made.1) }
    ensures needs { IfOk result (λ made. ⟦<Collector as HelperOn<PlainTable>>⟧.needs made.2 made.0) }
{
    let geometry = Geometry::new(4096, chunks)?;
    let producers = [ProducerSpec { pages: 1, geometry }];
    let spec = WriterSpec {
        producer: 1,
        buffer: 1,
        policy,
        from: FROM,
    };
    let (table, _seats, service) = PlainTable::make(alloc, &producers, &[spec])?;
    let (first, count) = table.chunks_of(1);
    let seat = PlainWriter { place: 0 };
    let writer = WriterCore::make(seat, spec, Arbiter::new(first, count), geometry);
    let collector = Collector {
        service,
        range: ChunkRange { first, count },
        taken: 0,
        images: [None; 4],
        waits: false,
        asks: 0,
    };
    Ok((table, writer, collector))
}

/// Ends the writer behind a packet, where it completes its chunk, or inside of one where it is stalled.
fn end<R: Abort, L: Ledger, H: HelperOn<PlainTable>>(
    rt: &R,
    table: &mut PlainTable,
    mut writer: WriterCore<PlainWriter>,
    help: &mut H,
    steps: &mut Steps<L>,
)
    requires seat { ⟦<PlainTable as Words>⟧.means.sits table.old writer.seat }
    requires needs { H.needs help.old table.old }
    requires producer { HasProducer (⟦<PlainTable as Words>⟧.means.setup table.old) 1 }
    requires agrees { CoreAgrees (⟦<PlainTable as Words>⟧.means.setup table.old) (⟦<PlainTable as Words>⟧.means.place writer.seat)
        (⟦<PlainTable as Words>⟧.means.view table.old writer.seat) writer }
    ensures needs { H.needs help.new table.new }
    ensures producer { HasProducer (⟦<PlainTable as Words>⟧.means.setup table.new) 1 }
{
    if !writer.in_packet() {
        writer.flush(table);
        let _seat = writer.into_seat();
        return;
    }
    let waits = [number(8, 1).but(CallFault::Stalled)];
    if make_calls(&mut writer, table, help, &waits, steps).is_some() {
        panic!(rt; "a packet is left");
    }
    let _seat = writer.give_up();
}

/// Plays the scripts one after another, and ends the writer. What the held chunk has is left out.
fn play<R: Abort, L: Ledger, H: HelperOn<PlainTable>>(
    rt: &R,
    table: &mut PlainTable,
    mut writer: WriterCore<PlainWriter>,
    help: &mut H,
    scripts: [&[Call]; 3],
    steps: &mut Steps<L>,
) -> Left
    requires seat { ⟦<PlainTable as Words>⟧.means.sits table.old writer.seat }
    requires needs { H.needs help.old table.old }
    requires producer { HasProducer (⟦<PlainTable as Words>⟧.means.setup table.old) 1 }
    requires agrees { CoreAgrees (⟦<PlainTable as Words>⟧.means.setup table.old) (⟦<PlainTable as Words>⟧.means.place writer.seat)
        (⟦<PlainTable as Words>⟧.means.view table.old writer.seat) writer }
    ensures needs { H.needs help.new table.new }
    ensures producer { HasProducer (⟦<PlainTable as Words>⟧.means.setup table.new) 1 }
{
    let [one, two, three] = scripts;
    let mut wrong = make_calls(&mut writer, table, help, one, steps);
    wrong = wrong.or(make_calls(&mut writer, table, help, two, steps));
    wrong = wrong.or(make_calls(&mut writer, table, help, three, steps));
    let left = Left {
        wrong,
        begun: writer.begun(),
        dropped: writer.dropped_at_begin(),
        completed: writer.completed(),
        depth: writer.depth(),
        at: 0,
        unsent: 0,
        front: [0; 10],
    };
    end(rt, table, writer, help, steps);
    left
}

/// Takes what is complete by now, and adds what the chunk had that was held at the end.
fn add_held(left: Left, table: &mut PlainTable, collector: &mut Collector) -> Left
    requires needs { ⟦<Collector as HelperOn<PlainTable>>⟧.needs collector.old table.old }
    requires producer { HasProducer (⟦<PlainTable as Words>⟧.means.setup table.old) 1 }
{
    collector.waits = false;
    collector.help(table, 1);
    let Some(image) = collector.images[left.completed as usize % 4] else {
        return left;
    };
    if image.header.chunk_id != id_of(FROM, left.completed) {
        return left;
    }
    let mut front = [0; 10];
    for i in 0..10 {
        front[i] = image.front[i];
    }
    Left {
        at: image.at,
        unsent: image.patches,
        front,
        ..left
    }
}

/// What scripts leave where nobody takes a chunk.
pub(crate) fn left_alone<R: Abort, L: Ledger>(
    rt: &R,
    alloc: Global,
    chunks: u8,
    policy: WriterPolicy,
    scripts: [&[Call]; 3],
    steps: &mut Steps<L>,
) -> Result<Left, Fail> {
    let (mut table, writer, mut collector) = set_up(alloc, chunks, policy)?;
    collector.waits = true;
    let left = play(rt, &mut table, writer, &mut collector, scripts, steps);
    Ok(add_held(left, &mut table, &mut collector))
}

/// What scripts leave where the helper is asked, which takes chunks or doesn't, and how often it was.
pub(crate) fn left_asking<R: Abort, L: Ledger>(
    rt: &R,
    alloc: Global,
    chunks: u8,
    policy: WriterPolicy,
    waits: bool,
    scripts: [&[Call]; 3],
    steps: &mut Steps<L>,
) -> Result<(Left, u64), Fail> {
    let (mut table, writer, mut collector) = set_up(alloc, chunks, policy)?;
    collector.waits = waits;
    let left = play(rt, &mut table, writer, &mut collector, scripts, steps);
    Ok((left, collector.asks))
}

/// What scripts leave beside a collector.
#[derive(Clone, Copy)]
pub(crate) struct Collected {
    pub left: Left,
    /// The chunks that it took, and the newest four of them, by the rest of their positions.
    pub taken: u32,
    pub images: [Option<Image>; 4],
}

pub(crate) fn left_collected<R: Abort, L: Ledger>(
    rt: &R,
    alloc: Global,
    chunks: u8,
    policy: WriterPolicy,
    scripts: [&[Call]; 3],
    steps: &mut Steps<L>,
) -> Result<Collected, Fail> {
    let (mut table, writer, mut collector) = set_up(alloc, chunks, policy)?;
    let left = play(rt, &mut table, writer, &mut collector, scripts, steps);
    let taken = collector.taken;
    let images = collector.images;
    let left = add_held(left, &mut table, &mut collector);
    Ok(Collected {
        left,
        taken,
        images,
    })
}
