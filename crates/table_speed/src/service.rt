//! The service beside the writers: it takes what is next of each, until they have ended and nothing
//! is left.
ghost use Rattle.std.specs.Prelude.{◌≡◌, ◌-◌, ◌<◌, ◌≤◌, [], length, IfSome, IfNone};
ghost use Rattle.chunk_plain.specs.Words.{AllArrived};
ghost use Rattle.chunk_words.specs.Knows.{service_of};
ghost use Rattle.chunk_words.specs.Sits.{Attends, setup_in};
ghost use Rattle.table_speed.specs.Taking.{HasTakenEach, HasTakenNone, TakesOne, TakesNone, count_of};
ghost use Rattle.table_speed.specs.Timed.{BeginAtNought, BeginsAtNought};

use crate::giving::give_back;
use chunk_words::{HostTable, ServiceSeat};
use page_geometry::ChunkHeader;
use std::sync::atomic::{AtomicU64, Ordering};
use trace_base::ids::id_of;

/// The chunks of all pages.
const CHUNKS: u32 = 224;

/// Takes the chunk, if it is the next one of the writer with this number, notes that it arrived, and
/// lets it go. It answers the chunk's fragments.
pub fn take_one(
    host: &HostTable,
    seat: &mut ServiceSeat,
    chunk: u32,
    writer: u16,
    position: u32,
) -> Option<u16>
    requires seat { Attends host.now seat.old }
    requires chunk { chunk < length (setup_in host.now).spots }
    requires writer { BeginsAtNought host.now writer }
    requires position { position ≡ count_of seat.old (writer - 1) }
    requires none_out { (service_of seat.old.seat.me.0).reading ≡ [] }
    requires arrived { AllArrived (service_of seat.old.seat.me.0) }
    ensures seat { Attends host.now seat.new }
    ensures taken { IfSome result (λ _. TakesOne (writer - 1) seat.old seat.new) }
    ensures other { IfNone result (TakesNone seat.old seat.new) }
{
    match host.take(seat, chunk, writer, id_of(0, position)) {
        Ok(taken) => {
            let count = taken.header.count;
            give_back(host, seat, taken, writer, position);
            Some(count)
        }
        Err(_) => None,
    }
}

/// The header that stands in the chunk.
fn find(host: &HostTable, seat: &mut ServiceSeat, chunk: u32) -> ChunkHeader
    requires seat { Attends host.now seat.old }
    requires chunk { chunk < length (setup_in host.now).spots }
    requires none_out { (service_of seat.old.seat.me.0).reading ≡ [] }
    requires arrived { AllArrived (service_of seat.old.seat.me.0) }
    ensures seat { Attends host.now seat.new }
    ensures none { TakesNone seat.old seat.new }
{
    host.look(seat, chunk).header
}

/// Looks at the chunk, and takes it where it is the next one of its writer. True says that it was.
fn take_next(host: &HostTable, seat: &mut ServiceSeat, chunk: u32, counts: &mut [u32; 4]) -> bool
    requires writers { length (setup_in host.now).writers ≡ 4 }
    requires froms { BeginAtNought host.now }
    requires seat { Attends host.now seat.old }
    requires chunk { chunk < length (setup_in host.now).spots }
    requires taken { HasTakenEach counts.old seat.old }
    ensures seat { Attends host.now seat.new }
    ensures taken { HasTakenEach counts.new seat.new }
{
    let header = find(host, seat, chunk);
    let writer = header.writer_id;
    if writer == 0 || writer > 4 {
        return false;
    }
    let place = usize::from(writer - 1);
    let position = counts[place];
    let Some(more) = position.checked_add(1) else {
        return false;
    };
    let id = id_of(0, position);
    if header.chunk_id != id || take_one(host, seat, chunk, writer, position).is_none() {
        return false;
    }
    counts[place] = more;
    true
}

/// Goes through all chunks once. True says that some chunk was taken.
fn take_each(host: &HostTable, seat: &mut ServiceSeat, counts: &mut [u32; 4]) -> bool
    requires writers { length (setup_in host.now).writers ≡ 4 }
    requires froms { BeginAtNought host.now }
    requires chunks { CHUNKS ≤ length (setup_in host.now).spots }
    requires seat { Attends host.now seat.old }
    requires taken { HasTakenEach counts.old seat.old }
    ensures seat { Attends host.now seat.new }
    ensures taken { HasTakenEach counts.new seat.new }
{
    let mut some = false;
    for chunk in 0..CHUNKS {
        if take_next(host, seat, chunk, counts) {
            some = true;
        }
    }
    some
}

/// Takes chunks until the writers say that they have ended, and what is left then. It answers how
/// many were taken of all.
pub fn take_all(host: &HostTable, mut seat: ServiceSeat, ended: &AtomicU64) -> u32
    requires writers { length (setup_in host.now).writers ≡ 4 }
    requires froms { BeginAtNought host.now }
    requires chunks { CHUNKS ≤ length (setup_in host.now).spots }
    requires seat { Attends host.now seat }
    requires none { HasTakenNone seat }
{
    let mut counts = [0; 4];
    for _ in 0..u32::MAX {
        let last = ended.load(Ordering::SeqCst) == 1;
        let some = take_each(host, &mut seat, &mut counts);
        if last && !some {
            break;
        }
    }
    let [first, second, third, fourth] = counts;
    first
        .wrapping_add(second)
        .wrapping_add(third)
        .wrapping_add(fourth)
}
