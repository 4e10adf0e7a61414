//! The laws: contracts of functions with nothing to do.
ghost use Rattle.run_model.specs.Laws.{EveryRunIsFaithful, EveryStoppedRunIsFaithful, EveryRunIsBalanced, EveryRunCountsPackets, EveryEnoughRunIsComplete, LinesTakeAtMost, LeftChunksAreApart, UncollectedChunksAreUsedOnce, NothingIsBegunBehindLosses, LostClaimsFindHad};
ghost use Rattle.run_model.specs.FlushLaws.{EveryRunFlushIsSettled};
ghost use Rattle.run_model.specs.Worked.{OneChunkHoldsOnePacket, OneCollectFreesOneChunk, ChunksArriveInTurn};
ghost use Rattle.run_model.specs.WorkedAnswers.{WorkedAnswers};

/// The records of a run are faithful to the packets that the lines have writers emit.
pub fn every_run_is_faithful()
    ensures { EveryRunIsFaithful }
{}

/// The records of a run up to a write that failed are faithful to them too.
pub fn every_stopped_run_is_faithful()
    ensures { EveryStoppedRunIsFaithful }
{}

/// The report of a run counts every packet once.
pub fn every_run_is_balanced()
    ensures { EveryRunIsBalanced }
{}

/// Its counts are those of the packets' outcomes.
pub fn every_run_counts_packets()
    ensures { EveryRunCountsPackets }
{}

/// Where chunks and bytes are enough, no packet is missing.
pub fn every_enough_run_is_complete()
    ensures { EveryEnoughRunIsComplete }
{}

/// Once the chunks that an answer to a flush request counts have come and are read, each packet is settled
/// that its writer had emitted when it answered.
pub fn every_run_flush_is_settled()
    ensures { EveryRunFlushIsSettled }
{}

/// The numbers of a report's flush requests, and the flushes of answers among a writer's calls, computed.
pub fn worked_answers()
    ensures { WorkedAnswers }
{}

/// While the threads run no more chunks are taken than lines allow, where no writer asks for help.
pub fn lines_take_at_most()
    ensures { LinesTakeAtMost }
{}

/// What writers completed and nobody took until the threads were done is in chunks of its own.
pub fn left_chunks_are_apart()
    ensures { LeftChunksAreApart }
{}

/// Of a producer that nobody has collected each chunk is used once at most.
pub fn uncollected_chunks_are_used_once()
    ensures { UncollectedChunksAreUsedOnce }
{}

/// Of a producer that nobody has collected no chunk is begun behind a loss.
pub fn nothing_is_begun_behind_losses()
    ensures { NothingIsBegunBehindLosses }
{}

/// A schedule leads to what was done in a run, by way of the world in which the threads were done, and
/// each claim in vain of it was made where somebody had the chunk, each request and answer where it
/// says.
pub fn lost_claims_find_had()
    ensures { LostClaimsFindHad }
{}

/// Over one chunk that nobody has collected two packets aren't both delivered: three scenarios,
/// computed.
pub fn one_chunk_holds_one_packet()
    ensures { OneChunkHoldsOnePacket }
{}

/// Over one chunk with one line that collects it three packets aren't all delivered: a scenario, computed.
pub fn one_collect_frees_one_chunk()
    ensures { OneCollectFreesOneChunk }
{}

/// A chunk that was filled again arrives behind the one whose freeing made room for it: a scenario,
/// computed.
pub fn chunks_arrive_in_turn()
    ensures { ChunksArriveInTurn }
{}
