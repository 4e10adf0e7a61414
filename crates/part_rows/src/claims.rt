//! Five writers of one producer ask in turn for its four chunks, which lie in two pages.
ghost use Rattle.std.specs.Prelude.{◌≡◌, ℕ, ◌+◌, ◌-◌, ◌<◌, length};
ghost use Rattle.chunk_plain.specs.declared.tokens.TheConstants.{MAX_HELD, POSITION_LIMIT};
ghost use Rattle.chunk_plain.specs.Setup.{range_of, producer_of, id_at};
ghost use Rattle.chunk_plain.specs.Owned.{held_count};
ghost use Rattle.chunk_plain.specs.Meaning.{IsWriterStep};
ghost use Rattle.claim_arbiter.specs.Claiming.{range_in};

use chunk_plain::{PlainTable, PlainWriter, ProducerSpec, Words};
use claim_arbiter::{Arbiter, claim_over};
use page_geometry::Geometry;
use std::alloc::Global;
use std::marker::Brand;
use std::sync::ledger::{Blank, Ledger};
use std::test::Fail;
use trace_base::policy::{WriterPolicy, WriterSpec};
use trace_base::steps::Steps;

/// Fills the chunk that the writer gets, and answers which one that was.
fn fill<W: Words, L: Ledger>(
    arbiter: &Arbiter,
    table: &mut W,
    seat: &mut W::Writer,
    id: u32,
    steps: &mut Steps<L>,
) -> Option<u32>
    requires seat { W.means.sits table.old seat.old }
    requires range { range_of (W.means.setup table.old) (producer_of (W.means.setup table.old) (W.means.place seat.old))
        ≡ range_in arbiter.now }
    requires few { held_count (W.means.view table.old seat.old).begun < MAX_HELD }
    requires id { id ≡ id_at (W.means.setup table.old) (W.means.place seat.old) (length (W.means.view table.old seat.old).begun) }
    requires few_begun { length (W.means.view table.old seat.old).begun < POSITION_LIMIT }
    ensures step { IsWriterStep W.means table.old seat.old table.new seat.new }
{
    let mut held = claim_over(arbiter, table, seat, id, steps)?;
    let chunk = held.chunk;
    let size = held.body.payload.len() as u32;
    table.publish(seat, &mut held, 0, size);
    table.complete(seat, held);
    Some(chunk)
}

fn filled_by_five<L: Ledger>(alloc: Global, blank: Blank) -> Result<[Option<u32>; 5], Fail>
    requires name { blank.name ≡ L.name }
    requires parts { blank.parts ≡ L.parts }
    requires some_part { 0 < L.parts }
{
    let geometry = Geometry::new(4096, 2)?;
    let producers = [ProducerSpec { pages: 2, geometry }];
    let spec = WriterSpec {
        producer: 1,
        buffer: 1,
        policy: WriterPolicy::Drops,
        from: 0,
    };
    let (mut table, _seats, _service) = PlainTable::make(alloc, &producers, &[spec; 5])?;
    let (first, chunks) = table.chunks_of(1);
    let arbiter = Arbiter::new(first, chunks);
    let mut steps = Steps::<L>::new(blank);
    let mut filled = [None; 5];
    for place in 0..5 {
        let mut seat = PlainWriter { place };
        filled[place as usize] = fill(&arbiter, &mut table, &mut seat, 0, &mut steps);
    }
    Ok(filled)
}

#[test]
fn claims_in_rising_order(rt: HostRuntime) -> Result<(), Fail> {
    let filled = filled_by_five::<Brand>(rt.alloc(), Blank::new(1))?;
    assert_eq!(rt; filled, [Some(0), Some(1), Some(2), Some(3), None]);
    Ok(())
}
