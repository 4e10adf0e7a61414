//! Four writers on threads of their own, and the service on another one.
ghost use Rattle.std.specs.Prelude.{◌≡◌, ◌≤◌, length};
ghost use Rattle.page_geometry.specs.Sizes.{payload_size};
ghost use Rattle.chunk_words.specs.Sits.{Attends, setup_in};
ghost use Rattle.table_speed.specs.Taking.{HasTakenNone};
ghost use Rattle.table_speed.specs.Timed.{AreFresh, IsFresh, BeginAtNought};

use crate::places::{Place, Tally, geometry, make, next_place};
use crate::service::take_all;
use crate::writers::write_counted;
use chunk_words::{HostTable, ServiceSeat};
use page_geometry::Geometry;
use std::alloc::Global;
use std::sync::atomic::{AtomicU64, Ordering};
use std::thread::{Threads, join};

fn sum(one: Tally, other: Tally) -> Tally {
    Tally {
        written: one.written.wrapping_add(other.written),
        chunks: one.chunks.wrapping_add(other.chunks),
        taken: one.taken.wrapping_add(other.taken),
    }
}

/// Two writers, each on a thread of its own.
fn write_two<R: Threads>(
    rt: &R,
    host: &HostTable,
    first: Place,
    second: Place,
    geometry: Geometry,
    packets: u32,
) -> Tally
    requires first { IsFresh host.now first }
    requires second { IsFresh host.now second }
    requires size { payload_size geometry.page_size geometry.chunks ≡ 284 }
{
    let (one, other) = join(
        rt,
        || write_counted(host, first, geometry, packets),
        || write_counted(host, second, geometry, packets),
    );
    sum(one, other)
}

/// Four writers, which say when they have ended.
fn write_four<R: Threads + Sync>(
    rt: &R,
    host: &HostTable,
    places: (Place, Place, Place, Place),
    geometry: Geometry,
    packets: u32,
    ended: &AtomicU64,
) -> Tally
    requires places { AreFresh host.now places.0 places.1 places.2 places.3 }
    requires size { payload_size geometry.page_size geometry.chunks ≡ 284 }
{
    let (first, second, third, fourth) = places;
    let (one, other) = join(
        rt,
        || write_two(rt, host, first, second, geometry, packets),
        || write_two(rt, host, third, fourth, geometry, packets),
    );
    ended.store(1, Ordering::SeqCst);
    sum(one, other)
}

/// The writers, and the service beside them.
fn run<R: Threads + Sync>(
    rt: &R,
    host: &HostTable,
    places: (Place, Place, Place, Place),
    service: ServiceSeat,
    geometry: Geometry,
    packets: u32,
) -> Tally
    requires places { AreFresh host.now places.0 places.1 places.2 places.3 }
    requires size { payload_size geometry.page_size geometry.chunks ≡ 284 }
    requires service { Attends host.now service }
    requires taken { HasTakenNone service }
    requires writers { length (setup_in host.now).writers ≡ 4 }
    requires froms { BeginAtNought host.now }
    requires chunks { 224 ≤ length (setup_in host.now).spots }
{
    let (first, second, third, fourth) = places;
    let ended = AtomicU64::new(0);
    let (taken, mut tally) = join(
        rt,
        || take_all(host, service, &ended),
        ||
            requires { AreFresh host.now first second third fourth × (payload_size geometry.page_size geometry.chunks ≡ 284) }
        {
            let places = (first, second, third, fourth);
            write_four(rt, host, places, geometry, packets, &ended)
        },
    );
    tally.taken = taken;
    tally
}

/// None where no memory is left.
pub fn write_on_threads<R: Threads + Sync>(
    rt: &R,
    alloc: Global,
    own: bool,
    packets: u32,
) -> Option<Tally> {
    let geometry = geometry()?;
    let (host, mut seats, service) = make(alloc, geometry, own)?;
    let fourth = next_place(&host, &mut seats, own)?;
    let third = next_place(&host, &mut seats, own)?;
    let second = next_place(&host, &mut seats, own)?;
    let first = next_place(&host, &mut seats, own)?;
    let places = (first, second, third, fourth);
    Some(run(rt, &host, places, service, geometry, packets))
}
