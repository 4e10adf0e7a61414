//! The collector of one writer's chunks. It counts what it took, and the next chunk has that position.
ghost use Rattle.std.specs.Prelude.{◌≡◌, ◌+◌, ◌<◌, length, vec_len};
ghost use Rattle.chunk_plain.specs.Setup.{spot};
ghost use Rattle.chunk_plain.specs.Views.{Arrive};
ghost use Rattle.chunk_plain.specs.Owned.{times};
ghost use Rattle.chunk_plain.specs.Steps.{lets_go, notes};
ghost use Rattle.chunk_plain.specs.Words.{AllArrived, LacksArrival};
ghost use Rattle.chunk_plain.specs.Meaning.{IsServiceStep};
ghost use Rattle.writer_speed.specs.Collecting.{IsCollecting};

use chunk_plain::{ChunkRange, ServiceEvent, Taken, Words};
use trace_base::ids::id_of;

/// Notes that a chunk of the first writer arrived, as the service does, and gives it back.
fn give_back<W: Words>(table: &mut W, seat: &mut W::Service, token: Taken, position: u32)
    requires seat { W.means.serves table.old seat.old }
    requires lacks { LacksArrival (W.means.service_view table.old seat.old) 0 position }
    requires reading { 0 < times token.chunk (W.means.service_view table.old seat.old).reading }
    requires size { vec_len token.body.payload ≡ (spot (W.means.setup table.old) token.chunk).payload_size }
    ensures view { W.means.service_view table.new seat.new ≡ lets_go (notes (W.means.service_view table.old seat.old) (Arrive 2 position)) token.chunk }
    ensures arrived { AllArrived (W.means.service_view table.new seat.new) }
    ensures step { IsServiceStep W.means table.old seat.old table.new seat.new }
{
    let arrival = ServiceEvent::Arrive {
        sequence: 2,
        chunk_id: position,
    };
    table.note(seat, arrival);
    table.release(seat, token);
}

/// Takes the chunk where it is the next one, notes that it arrived, and lets it go.
fn try_one<W: Words>(
    table: &mut W,
    seat: &mut W::Service,
    range: ChunkRange,
    chunk: u32,
    taken: u32,
) -> u32
    requires collects { IsCollecting W.means table.old seat.old range taken }
    requires chunk { chunk < range.first + range.count }
    ensures collects { IsCollecting W.means table.new seat.new range result }
    ensures step { IsServiceStep W.means table.old seat.old table.new seat.new }
{
    let Some(more) = taken.checked_add(1) else {
        return taken;
    };
    match table.take(seat, chunk, 1, id_of(0, taken)) {
        Err(_) => taken,
        Ok(token) => {
            give_back(table, seat, token, taken);
            more
        }
    }
}

/// Tries each chunk once, in rising order.
fn try_each<W: Words>(table: &mut W, seat: &mut W::Service, range: ChunkRange, taken: u32) -> u32
    requires collects { IsCollecting W.means table.old seat.old range taken }
    ensures collects { IsCollecting W.means table.new seat.new range result }
    ensures step { IsServiceStep W.means table.old seat.old table.new seat.new }
{
    let mut next = taken;
    for chunk in range.first..range.first + range.count {
        next = try_one(table, seat, range, chunk, next);
    }
    next
}

/// Takes so many, where they are complete. A chunk may have been begun behind one with a higher
/// number.
pub fn collect<W: Words>(
    table: &mut W,
    seat: &mut W::Service,
    range: ChunkRange,
    taken: u32,
    completed: u32,
) -> u32
    requires collects { IsCollecting W.means table.old seat.old range taken }
    ensures collects { IsCollecting W.means table.new seat.new range result }
    ensures step { IsServiceStep W.means table.old seat.old table.new seat.new }
{
    let mut next = taken;
    for _ in 0..range.count {
        if next == completed {
            break;
        }
        next = try_each(table, seat, range, next);
    }
    next
}
