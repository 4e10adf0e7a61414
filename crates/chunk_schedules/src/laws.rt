//! The laws: contracts of functions with nothing to do.
ghost use Rattle.chunk_schedules.specs.Laws.{SchedulesJoin, SchedulesKeepOwnership, ClaimsInVainFindHad};
ghost use Rattle.chunk_schedules.specs.Laws.{AtMostOneIsRead, FreedHaveArrived, ArrivedWereTaken, RequestsAreMadeInTurn, AnswersAreGivenInTurn};
ghost use Rattle.chunk_schedules.specs.Laws.{FirstWinsFollowArrivals};

/// Schedules go on one behind another, and each front of a schedule is one.
pub fn schedules_join()
    ensures { SchedulesJoin }
{}

/// Each chunk is owned by exactly one in each world that a schedule leads to.
pub fn schedules_keep_ownership()
    ensures { SchedulesKeepOwnership }
{}

/// Each claim in vain was made where somebody had the chunk.
pub fn claims_in_vain_find_had()
    ensures { ClaimsInVainFindHad }
{}

/// The service reads one chunk at most.
pub fn at_most_one_is_read()
    ensures { AtMostOneIsRead }
{}

/// What was taken and is read no longer has arrived.
pub fn freed_have_arrived()
    ensures { FreedHaveArrived }
{}

/// What has arrived was taken.
pub fn arrived_were_taken()
    ensures { ArrivedWereTaken }
{}

/// Each request was made behind as many events as it says, while no chunk was read.
pub fn requests_are_made_in_turn()
    ensures { RequestsAreMadeInTurn }
{}

/// Each answer was given behind as many calls as it says, and behind no claim that was made behind as
/// many.
pub fn answers_are_given_in_turn()
    ensures { AnswersAreGivenInTurn }
{}

/// Whom a writer has waited for has its chunk arrive before any of the writer's own.
pub fn first_wins_follow_arrivals()
    ensures { FirstWinsFollowArrivals }
{}
