//! Reading the answers of writers to flush requests.
ghost use Rattle.std.specs.Prelude.{ℕ, ◌<◌, length};
ghost use Rattle.chunk_words.specs.Sits.{setup_in};
ghost use Rattle.thread_service.specs.Serving.{view_in, desk_in, Serves};
ghost use Rattle.thread_host.specs.Growing.{HearsLast, IsHearing};
ghost use Rattle.thread_host.specs.Tally.{HearsOf};
ghost use Rattle.thread_host.specs.Terms.{HasTally, LeavesTally};

use crate::tally::Tally;
use chunk_words::HostTable;
use thread_service::Service;

/// Reads the last answer of each writer, in rising number. Each that is newer than those read before
/// goes to the session, which keeps it, and into the tally.
pub(crate) fn read_answers(service: &mut Service, table: &HostTable, tally: &mut Tally)
    requires serves { Serves table.now service.old }
    requires tally { HasTally table.now service.old tally.old }
    ensures serves { Serves table.now service.new }
    ensures hears { IsHearing (length (setup_in table.now).writers) (view_in service.old) (view_in service.new) }
    ensures leaves { LeavesTally table.now service.old service.new tally.old tally.new }
    ensures heard { (place : ℕ) → place < length (setup_in table.now).writers → HearsOf (view_in service.new) (desk_in service.new) place }
{
    'writers: for place in 0..tally.answered.len() {
        read_answer(service, table, tally, place);
    }
}

/// Reads that of the writer at this place.
fn read_answer(service: &mut Service, table: &HostTable, tally: &mut Tally, place: usize)
    requires serves { Serves table.now service.old }
    requires tally { HasTally table.now service.old tally.old }
    requires place { place < length (setup_in table.now).writers }
    ensures serves { Serves table.now service.new }
    ensures hears { HearsLast place (view_in service.old) (view_in service.new) }
    ensures leaves { LeavesTally table.now service.old service.new tally.old tally.new }
    ensures heard { HearsOf (view_in service.new) (desk_in service.new) place }
{
    let writer = place as u16 + 1;
    let (flush, chunks) = service.answer_of(table, writer);
    if tally.is_newer(place, flush) {
        match service.acknowledge(flush, writer, chunks) {
            Ok(()) => tally.add(place, flush, chunks),
            Err(_) => unreachable!(),
        }
    }
}
