//! The reading pass of a table that threads share. It takes to the next call what one call knew of
//! the reads that were noted. A read is noted while the pass is joined to the service's seat, so no
//! step is between the read in the service's view and the same read in the pass's.
ghost use Rattle.std.specs.Prelude.{◌≡◌, ◌<◌, []};
ghost use Rattle.chunk_plain.specs.Steps.{notes};
ghost use Rattle.chunk_plain.specs.Words.{IsReadEvent, event_of};
ghost use Rattle.chunk_words.specs.Knows.{Service, Pass, Here, Away, Unmade, made_of, desk_of, watch_of, service_of, stage_of, passed_of, with_stage, staged};
ghost use Rattle.chunk_words.specs.Moves.{NotesRead};
ghost use Rattle.chunk_words.specs.Seats.{IsPass};
ghost use Rattle.chunk_words.specs.Sits.{Attends, Passes, CanServe, ServiceLeaves, JoinsPass};

use crate::host::HostTable;
use crate::moves::Move;
use crate::seats::{ReadPass, ServiceSeat};
use crate::steps::{ChunkSeat, Knowledge, make_load};
use atomic_table::{Join, Split};
use chunk_plain::ServiceEvent;

/// The service makes the reading pass.
pub struct MakesPass {}

impl Split<Knowledge> for MakesPass {
    ghost use Rattle.chunk_words.specs.Knows.{without_pass, new_pass};

    ghost left = { without_pass };

    ghost right = { new_pass };
}

/// A seat leaves all that it knows to a new one.
pub struct HandsOn {}

impl Split<Knowledge> for HandsOn {
    ghost use Rattle.chunk_words.specs.Knows.{left_over, handed_on};

    ghost left = { left_over };

    ghost right = { handed_on };
}

/// The service takes in the reading pass.
pub struct TakesPass {}

impl Join<Knowledge> for TakesPass {
    ghost use Rattle.chunk_words.specs.Knows.{Spent, takes_pass};

    ghost both = { takes_pass };

    ghost spent = { Spent };
}

/// The service gives the reading pass back.
pub struct GivesPass {}

impl Split<Knowledge> for GivesPass {
    ghost use Rattle.chunk_words.specs.Knows.{without_pass, own_pass};

    ghost left = { without_pass };

    ghost right = { own_pass };
}

impl HostTable {
    /// Makes the reading pass, before anything is noted.
    pub fn pass(&self, seat: &mut ServiceSeat) -> ReadPass
        requires seat { Attends self.now seat.old }
        requires none_made { stage_of seat.old.seat.me.0 ≡ Unmade }
        requires none_noted { (service_of seat.old.seat.me.0).events ≡ [] }
        ensures pass { Passes self.now result }
        ensures known { passed_of result.seat.me.0 ≡ service_of seat.old.seat.me.0 }
        ensures view { service_of seat.new.seat.me.0 ≡ service_of seat.old.seat.me.0 }
        ensures desk { desk_of seat.new.seat.me.0 ≡ with_stage (desk_of seat.old.seat.me.0) Away }
        ensures seat { Attends self.now seat.new }
    {
        let table = &self.table;
        ReadPass {
            seat: table.shared.split_seat::<MakesPass>(&mut seat.seat),
        }
    }

    /// All that the pass knows goes on to a new one, which is the table's pass from now on.
    pub fn hand_on(&self, pass: &mut ReadPass) -> ReadPass
        requires { Passes self.now pass.old }
        ensures pass { Passes self.now result }
        ensures known { passed_of result.seat.me.0 ≡ passed_of pass.old.seat.me.0 }
    {
        let table = &self.table;
        let inner = table.shared.split_seat::<HandsOn>(&mut pass.seat);
        ReadPass { seat: inner }
    }

    /// The read joins the view of the service, and then that of the pass is the same. What the
    /// service noted since the read before it is no read.
    pub fn note_read(&self, seat: &mut ServiceSeat, pass: &mut ReadPass, event: ServiceEvent)
        requires seat { Attends self.now seat.old }
        requires pass { Passes self.now pass.old }
        requires read { IsReadEvent event }
        ensures joins { JoinsPass self.now pass.old pass.new seat.old seat.new }
        ensures seat { Attends self.now seat.new }
        ensures view { service_of seat.new.seat.me.0 ≡ notes (service_of seat.old.seat.me.0) (event_of event) }
        ensures known { passed_of pass.new.seat.me.0 ≡ service_of seat.new.seat.me.0 }
    {
        let table = &self.table;
        let inner = table.shared.split_seat::<HandsOn>(&mut pass.seat);
        self.take_pass(seat, inner);
        self.step_read(seat, event);
        pass.seat = self.give_pass(seat);
    }

    /// The service takes in the reading pass.
    pub(crate) fn take_pass(&self, seat: &mut ServiceSeat, pass: ChunkSeat)
        requires seat { CanServe self.now seat.old }
        requires joined { pass.table_id ≡ self.now.table.shared.table_id }
        requires pass { IsPass pass.me }
        ensures seat { seat.new.seat.table_id ≡ seat.old.seat.table_id }
        ensures me { seat.new.seat.me
            ≡ (
              Service 0 (made_of seat.old.seat.me.0) (with_stage (desk_of seat.old.seat.me.0) (Here (passed_of pass.me.0)))
                  (watch_of seat.old.seat.me.0) (service_of seat.old.seat.me.0),
              [],
            ) }
    {
        let table = &self.table;
        table.shared.join_seat::<TakesPass>(&mut seat.seat, pass);
    }

    /// Notes a read, while the reading pass is with the service.
    fn step_read(&self, seat: &mut ServiceSeat, event: ServiceEvent)
        requires seat { CanServe self.now seat.old }
        requires read { IsReadEvent event }
        requires here { stage_of seat.old.seat.me.0 ≡ Here (staged (stage_of seat.old.seat.me.0)) }
        ensures { ServiceLeaves seat.old seat.new (NotesRead (event_of event)) }
    {
        let table = &self.table;
        make_load(
            &table.shared,
            &mut seat.seat,
            self.spare,
            &Move::NoteRead { event },
        );
    }

    /// The service gives the reading pass back, which it has.
    pub(crate) fn give_pass(&self, seat: &mut ServiceSeat) -> ChunkSeat
        requires seat { CanServe self.now seat.old }
        requires here { stage_of seat.old.seat.me.0 ≡ Here (staged (stage_of seat.old.seat.me.0)) }
        ensures seat { seat.new.seat.table_id ≡ seat.old.seat.table_id }
        ensures me { seat.new.seat.me
            ≡ (
              Service 0 (made_of seat.old.seat.me.0) (with_stage (desk_of seat.old.seat.me.0) Away)
                  (watch_of seat.old.seat.me.0) (service_of seat.old.seat.me.0),
              [],
            ) }
        ensures joined { result.table_id ≡ seat.old.seat.table_id }
        ensures pass { result.me ≡ (Pass (staged (stage_of seat.old.seat.me.0)), []) }
    {
        let table = &self.table;
        table.shared.split_seat::<GivesPass>(&mut seat.seat)
    }
}
