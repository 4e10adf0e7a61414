//! A round of the service alone: a chunk comes by a commit and is read, a flush request is answered,
//! and the producer is closed.
ghost use Rattle.std.specs.Prelude.{◌≡◌, ℕ, ◌<◌, ◌≤◌, false, length};
ghost use Rattle.trace_base.specs.declared.limits.TheConstants.{MAX_FRAGMENTS, FIRST_SEQUENCE};
ghost use Rattle.page_geometry.specs.declared.chunk_header.TheConstants.{MAX_FLAGS};
ghost use Rattle.chunk_plain.specs.Setup.{size_of, producer_of};
ghost use Rattle.service_core.specs.Agreement.{ServiceAgrees, is_closed};

use byte_io::memory::MemSink;
use byte_io::traits::Sink;
use chunk_image::Image;
use chunk_plain::{PlainTable, ProducerSpec, Words};
use page_geometry::Geometry;
use service_core::ServiceCore;
use std::alloc::Global;
use std::test::Fail;
use trace_base::policy::{FullPolicy, WriterPolicy, WriterSpec};
use trace_buffer::{Arrived, BufferSpec};

/// What a round leaves.
#[derive(Drop)]
struct Round {
    taken: u64,
    arrived: Option<Arrived>,
    delivered: u64,
    answered: [bool; 2],
    closed: bool,
}

/// One chunk comes by a commit and is read; then a flush request is made and answered, and the
/// producer is closed.
fn play<W: Words, O: Sink>(
    service: &mut ServiceCore<W::Service>,
    table: &mut W,
    image: &Image<'_>,
    out: &mut O,
) -> Option<Round>
    requires serves { W.means.serves table.old service.old.seat }
    requires agrees { ServiceAgrees (W.means.setup table.old) (W.means.service_view table.old service.old.seat) service.old }
    requires open { (place : ℕ) → place < length (W.means.setup table.old).writers
        → is_closed (W.means.setup table.old) service.old place ≡ false }
    requires reads { W.means.takes_reads table.old service.old.seat }
    requires writer { 0 < length (W.means.setup table.old).writers }
    requires requests { service.old.session.requests ≡ 0 }
    requires sequence { image.now.sequence ≡ FIRST_SEQUENCE }
    requires size { length image.now.payload.now ≡ size_of (W.means.setup table.old) (producer_of (W.means.setup table.old) 0) }
    requires count { image.now.count ≤ MAX_FRAGMENTS }
    requires flags { image.now.flags ≤ MAX_FLAGS }
    requires may { O.may_write out.old }
{
    let taken = service.collect(table, 1);
    let arrived = service.commit(table, 1, image, &[]).ok();
    let delivered = service.read_buffer(table, 1, 5, out).ok()?;
    let flush = service.request_flush(table).ok()?;
    let before = service.answered(flush);
    service.acknowledge(flush, 1, 0).ok()?;
    let answered = [before, service.answered(flush)];
    service.close_producer(table, 1);
    Some(Round {
        taken,
        arrived,
        delivered,
        answered,
        closed: service.state(2).closed,
    })
}

fn played_round(alloc: Global, payload: &[u8], out: &mut MemSink) -> Result<Option<Round>, Fail>
    requires { length payload.now ≡ 284 }
{
    let geometry = Geometry::new(4096, 14)?;
    let producers = [ProducerSpec { pages: 1, geometry }];
    let writers = [WriterSpec {
        producer: 1,
        buffer: 1,
        policy: WriterPolicy::Drops,
        from: 7,
    }];
    let buffers = [BufferSpec {
        size: 65536,
        policy: FullPolicy::Ring,
    }];
    let (mut table, _seats, seat) = PlainTable::make(alloc, &producers, &writers)?;
    let mut service = ServiceCore::make(alloc, &buffers, &producers, &writers, seat)?;
    let image = Image {
        sequence: 2,
        chunk_id: 7,
        count: 1,
        flags: 0,
        payload,
    };
    Ok(play(&mut service, &mut table, &image, out))
}

#[test]
fn plays_a_round(rt: HostRuntime) -> Result<(), Fail> {
    let mut payload = [0u8; 284];
    payload[..3].copy_from_slice(b"\x02\x40\x01");
    let mut sink = MemSink::with_room(rt.alloc(), 100)?;
    let round = played_round(rt.alloc(), &payload, &mut sink)?.ok_or("a refused call")?;
    assert_eq!(rt; round.taken, 0);
    assert_eq!(rt; round.arrived, Some(Arrived::Kept));
    assert_eq!(rt; round.delivered, 1);
    assert_eq!(rt;
        sink.taken(),
        b"\x0A\x07\x40\x01\x50\x02\xD0\x02\x01".as_slice()
    );
    assert_eq!(rt; round.answered, [false, true]);
    assert!(rt; round.closed);
    Ok(())
}
