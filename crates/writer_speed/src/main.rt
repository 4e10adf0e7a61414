//! How fast one writer writes: the input says how many packets, and the output how many of them were
//! dropped and how many chunks were completed. `bench/writer.py` times it.
#![tactic(auto)]

ghost use Rattle.std.specs.Prelude.{◌≡◌, ◌+◌, ◌<◌, ◌≤◌, false, length};
ghost use Rattle.chunk_plain.specs.declared.tokens.TheConstants.{POSITION_LIMIT};
ghost use Rattle.trace_writer.specs.declared.ids.TheConstants.{PACKET_IDS};
ghost use Rattle.trace_writer.specs.Core.{in_packet};
ghost use Rattle.writer_speed.specs.Collecting.{IsCollecting};
ghost use Rattle.writer_speed.specs.Going.{IsReady};

mod collector;
mod packet;

use crate::collector::collect;
use crate::packet::write_packet;
use byte_io::fill::fill_all;
use byte_io::standard::StdSource;
use chunk_plain::{ChunkRange, PlainTable, PlainWriter, ProducerSpec, Words};
use claim_arbiter::Arbiter;
use page_geometry::Geometry;
use std::alloc::Global;
use std::io;
use std::marker::Brand;
use std::sync::ledger::{Blank, Ledger};
use trace_base::policy::{WriterPolicy, WriterSpec};
use trace_base::steps::Steps;
use trace_writer::{PACKET_IDS, WriterCore};

/// The collector runs where so many chunks wait, half of those that there are.
const FULL: u32 = 7;

#[derive(Clone, Copy)]
struct Tally {
    begun: u64,
    dropped: u64,
    chunks: u32,
}

/// Writes a packet, and takes the chunks where enough of them wait. It answers how many were taken.
fn write_round<W: Words, L: Ledger>(
    writer: &mut WriterCore<W::Writer>,
    table: &mut W,
    service: &mut W::Service,
    range: ChunkRange,
    taken: u32,
    steps: &mut Steps<L>,
) -> u32
    requires ready { IsReady W.means table.old writer.old }
    requires outside { in_packet (W.means.view table.old writer.old.seat) ≡ false }
    requires ids { length (W.means.view table.old writer.old.seat).begun + PACKET_IDS ≤ POSITION_LIMIT }
    requires collects { IsCollecting W.means table.old service.old range taken }
    ensures ready { IsReady W.means table.new writer.new }
    ensures outside { in_packet (W.means.view table.new writer.new.seat) ≡ false }
    ensures collects { IsCollecting W.means table.new service.new range result }
{
    write_packet(writer, table, steps);
    let completed = writer.completed();
    if completed.saturating_sub(taken) < FULL {
        return taken;
    }
    collect(table, service, range, taken, completed)
}

fn write_all<W: Words, L: Ledger>(
    writer: &mut WriterCore<W::Writer>,
    table: &mut W,
    service: &mut W::Service,
    range: ChunkRange,
    packets: u32,
    steps: &mut Steps<L>,
)
    requires ready { IsReady W.means table.old writer.old }
    requires outside { in_packet (W.means.view table.old writer.old.seat) ≡ false }
    requires collects { IsCollecting W.means table.old service.old range 0 }
    ensures ready { IsReady W.means table.new writer.new }
    ensures outside { in_packet (W.means.view table.new writer.new.seat) ≡ false }
{
    let mut taken = 0;
    for _ in 0..packets {
        if writer.ids_left() < PACKET_IDS {
            return;
        }
        taken = write_round(writer, table, service, range, taken, steps);
    }
}

/// Completes the writer's last chunk, and lets the writer go.
fn close<W: Words>(mut writer: WriterCore<W::Writer>, table: &mut W) -> (Tally, W::Writer)
    requires ready { IsReady W.means table.old writer }
    requires outside { in_packet (W.means.view table.old writer.seat) ≡ false }
{
    writer.flush(table);
    let tally = Tally {
        begun: writer.begun(),
        dropped: writer.dropped_at_begin(),
        chunks: writer.completed(),
    };
    (tally, writer.into_seat())
}

/// None where no memory is left.
fn measure<L: Ledger>(alloc: Global, packets: u32, blank: Blank) -> Option<Tally>
    requires name { blank.name ≡ L.name }
    requires parts { blank.parts ≡ L.parts }
    requires some_part { 0 < L.parts }
{
    let Ok(geometry) = Geometry::new(4096, 14) else {
        return None;
    };
    let producers = [ProducerSpec { pages: 1, geometry }];
    let spec = WriterSpec {
        producer: 1,
        buffer: 1,
        policy: WriterPolicy::Drops,
        from: 0,
    };
    let Ok((mut table, _seats, mut service)) = PlainTable::make(alloc, &producers, &[spec]) else {
        return None;
    };
    let (first, count) = table.chunks_of(1);
    let range = ChunkRange { first, count };
    let seat = PlainWriter { place: 0 };
    let arbiter = Arbiter::new(first, count);
    let mut writer = WriterCore::make(seat, spec, arbiter, geometry);
    let mut steps = Steps::<L>::new(blank);
    write_all(
        &mut writer,
        &mut table,
        &mut service,
        range,
        packets,
        &mut steps,
    );
    let (tally, _seat) = close(writer, &mut table);
    Some(tally)
}

fn main(rt: HostRuntime) -> io::Result<()> {
    let mut input = StdSource::new(rt.stdin());
    let Ok(text) = fill_all(rt.alloc(), &mut input, 64) else {
        return println!(rt; "no input");
    };
    let Ok(Ok(packets)) = str::from_utf8(&text).map(|line| line.trim().parse::<u32>()) else {
        return println!(rt; "no number");
    };
    match measure::<Brand>(rt.alloc(), packets, Blank::new(1)) {
        None => println!(rt; "out of memory"),
        Some(tally) => println!(rt;
            "packets {} dropped {} chunks {}",
            tally.begun, tally.dropped, tally.chunks
        ),
    }
}
