//! The laws: contracts of functions with nothing to do.
ghost use Rattle.schedule_laws.specs.Laws.{SchedulesAreAccounts, EveryScheduleIsFaithful};
ghost use Rattle.schedule_laws.specs.Laws.{EverySequenceIsTold, ServingIsInOrder, EveryServedScheduleIsFaithful};
ghost use Rattle.schedule_laws.specs.ReportLaws.{SequencesHaveAccounts, EveryPacketIsCounted};
ghost use Rattle.schedule_laws.specs.EnoughLaws.{SetupsAreApart, EnoughChunksLoseNothing, EnoughMissesNothing};

/// What a schedule leads to is an account, where each writer is between two calls and the service noted
/// in order what didn't come by commits.
pub fn schedules_are_accounts()
    ensures { SchedulesAreAccounts }
{}

/// So the records that are written are faithful to the emitted packets, of each sequence of which
/// nothing came by a commit.
pub fn every_schedule_is_faithful()
    ensures { EveryScheduleIsFaithful }
{}

/// The same of one sequence, whatever the other writers are in the middle of.
pub fn every_sequence_is_told()
    ensures { EverySequenceIsTold }
{}

/// A service that agrees with its view noted in order, but for what came by commits.
pub fn serving_is_in_order<S>()
    ensures { ServingIsInOrder S }
{}

/// So the records are faithful where the service is between two calls too, of each writer's sequence of
/// which no move commits an image.
pub fn every_served_schedule_is_faithful<S>()
    ensures { EveryServedScheduleIsFaithful S }
{}

/// The history is an account of each sequence whose writer is between two calls.
pub fn sequences_have_accounts()
    ensures { SequencesHaveAccounts }
{}

/// So the report counts each packet that its writer began once.
pub fn every_packet_is_counted()
    ensures { EveryPacketIsCounted }
{}

/// No chunk is of two producers in a set-up that is laid out for producers.
pub fn setups_are_apart()
    ensures { SetupsAreApart }
{}

/// Where chunks are enough no writer has lost a packet.
pub fn enough_chunks_lose_nothing()
    ensures { EnoughChunksLoseNothing }
{}

/// And where bytes are enough too, all has come and was read, and the packet check accepts each
/// packet, none is missing.
pub fn enough_misses_nothing()
    ensures { EnoughMissesNothing }
{}
