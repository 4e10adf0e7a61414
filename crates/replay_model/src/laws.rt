//! Laws on what acts make of a world, and on what a scenario's acts lead to: contracts of functions with
//! nothing to do.
ghost use Rattle.replay_model.specs.Laws.{NothingPlaysNothing, WritersWrote, WritersLose, ReplaysAreAccounts, EveryReplayIsFaithful, EveryFrontIsFaithful};
ghost use Rattle.replay_model.specs.Clones.{NoCloneAsks, ClonesChangeNoReplay, EveryCloneTells};
ghost use Rattle.replay_model.specs.FlushLaws.{EveryFlushStaysCut, EveryFlushIsSettled, EveryRequestIsSettled, EveryLateAnswerIsSettled};
ghost use Rattle.replay_model.specs.Laws.{EveryReportIsBalanced, EveryReportCountsPackets, EnoughLosesNothing, EveryEnoughReplayIsComplete};

/// No acts lead from a world to itself.
pub fn nothing_plays_nothing()
    ensures { NothingPlaysNothing }
{}

/// Behind a scenario's acts each writer has cut its packets into its chunks, and kept nothing back of
/// the newest one, unless that is lost.
pub fn writers_wrote()
    ensures { WritersWrote }
{}

/// Behind a scenario's acts each writer has noted what the lines ask of it, with packets lost and
/// flushes between packets.
pub fn writers_lose()
    ensures { WritersLose }
{}

/// What a scenario's acts lead to is an account.
pub fn replays_are_accounts()
    ensures { ReplaysAreAccounts }
{}

/// The records that are written are faithful to the packets that the lines have writers emit, of each
/// writer in whose name no line commits a chunk.
pub fn every_replay_is_faithful()
    ensures { EveryReplayIsFaithful }
{}

/// So are those that are written behind any front of a scenario's acts, to what all of its lines have
/// writers emit.
pub fn every_front_is_faithful()
    ensures { EveryFrontIsFaithful }
{}

/// The report of what the lines lead to counts every packet of these writers once.
pub fn every_report_is_balanced()
    ensures { EveryReportIsBalanced }
{}

/// Where chunks are enough, no writer drops or gives up a packet.
pub fn enough_loses_nothing()
    ensures { EnoughLosesNothing }
{}

/// Where chunks and bytes are enough, no packet that the lines have writers emit is missing.
pub fn every_enough_replay_is_complete()
    ensures { EveryEnoughReplayIsComplete }
{}

/// The report's counts of these writers are those of their packets' outcomes.
pub fn every_report_counts_packets()
    ensures { EveryReportCountsPackets }
{}

/// What a writer had cut when it flushed stays cut so, whatever is done later: the first of its pages,
/// as many as it had completed then, are a cut of the packets that it had emitted by then.
pub fn every_flush_stays_cut()
    ensures { EveryFlushStaysCut }
{}

/// Once as many chunks of a writer are taken as it had completed when it flushed, the next read of its
/// buffer without limit fixes the outcome of each packet that it had emitted by then, where no chunk was
/// committed in its name.
pub fn every_flush_is_settled()
    ensures { EveryFlushIsSettled }
{}

/// So behind a line that makes a flush request, and later one that reads a buffer without limit, each
/// packet is settled that a writer of an open producer into that buffer had emitted at the request, if
/// none of it was begun.
pub fn every_request_is_settled()
    ensures { EveryRequestIsSettled }
{}

/// And behind a line that ends a packet in which a request came, then a line that collects its producer,
/// whatever its writer was asked for between, and later one that reads its buffer without limit.
pub fn every_late_answer_is_settled()
    ensures { EveryLateAnswerIsSettled }
{}

/// Lines that make clones of buffers change neither what is played nor what is emitted.
pub fn no_clone_asks()
    ensures { NoCloneAsks }
{}

/// So they change no replay.
pub fn clones_change_no_replay()
    ensures { ClonesChangeNoReplay }
{}

/// A clone that is made between any two lines tells of the packets that its writers had emitted by
/// then, of each in whose name no line before it commits a chunk.
pub fn every_clone_tells()
    ensures { EveryCloneTells }
{}
