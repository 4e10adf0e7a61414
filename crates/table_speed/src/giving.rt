//! A chunk that was taken arrives and goes back into the table.
ghost use Rattle.std.specs.Prelude.{◌≡◌, ◌+◌, ◌-◌, ◌<◌, ◌≤◌, vec_len};
ghost use Rattle.chunk_plain.specs.Setup.{spot};
ghost use Rattle.chunk_plain.specs.Views.{Arrive};
ghost use Rattle.chunk_plain.specs.Owned.{times};
ghost use Rattle.chunk_plain.specs.Steps.{lets_go, notes};
ghost use Rattle.chunk_plain.specs.Words.{AllArrived, LacksArrival};
ghost use Rattle.chunk_words.specs.Knows.{service_of};
ghost use Rattle.chunk_words.specs.Sits.{Attends, setup_in};

use chunk_plain::{ServiceEvent, Taken};
use chunk_words::{HostTable, ServiceSeat};

/// Notes that the chunk of the writer with this number arrived, as the service does, and gives it back.
pub fn give_back(host: &HostTable, seat: &mut ServiceSeat, taken: Taken, writer: u16, position: u32)
    requires seat { Attends host.now seat.old }
    requires least { 1 ≤ writer }
    requires lacks { LacksArrival (service_of seat.old.seat.me.0) (writer - 1) position }
    requires reading { 0 < times taken.chunk (service_of seat.old.seat.me.0).reading }
    requires size { vec_len taken.body.payload ≡ (spot (setup_in host.now) taken.chunk).payload_size }
    ensures seat { Attends host.now seat.new }
    ensures view { service_of seat.new.seat.me.0 ≡ lets_go (notes (service_of seat.old.seat.me.0) (Arrive (writer + 1) position)) taken.chunk }
    ensures arrived { AllArrived (service_of seat.new.seat.me.0) }
{
    let sequence = u32::from(writer) + 1;
    let arrival = ServiceEvent::Arrive {
        sequence,
        chunk_id: position,
    };
    host.note(seat, arrival);
    host.release(seat, taken);
}
