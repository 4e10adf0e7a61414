//! Laws about what commits deliver that come in any order: each is the contract of a function with
//! nothing to do.
ghost use Rattle.commit_laws.specs.CommitHistories.{EveryCommitHistoryTells};
ghost use Rattle.commit_laws.specs.CompleteLaws.{EveryStreamIsComplete, StreamsAreComplete};
ghost use Rattle.commit_laws.specs.StreamLaws.{EveryStreamIsTold, StreamsAreTold, WritersLeaveStreams};
ghost use Rattle.commit_laws.specs.WorkedStreams.{WorkedEarly, WorkedHeld, WorkedStream};

/// In whatever order the chunks of a sequence come by commits, what its reads deliver are packets that
/// were written whole, in order, each once, and marked exactly where one is missing.
pub fn every_commit_history_tells()
    ensures { EveryCommitHistoryTells }
{}

/// Of each stream of commits to a buffer the records of its sequence tell of the packets that its
/// writer emitted.
pub fn every_stream_is_told()
    ensures { EveryStreamIsTold }
{}

/// The same of the records that all buffers of a service write.
pub fn streams_are_told()
    ensures { StreamsAreTold }
{}

/// What a writer completed that holds no chunk is what a stream commits.
pub fn writers_leave_streams()
    ensures { WritersLeaveStreams }
{}

/// Where a buffer has the bytes for each commit, and is read at the end, and the packet check accepts
/// each packet that was emitted and never dropped, each of these is in a record.
pub fn every_stream_is_complete()
    ensures { EveryStreamIsComplete }
{}

/// The same of the records that all buffers of a service write.
pub fn streams_are_complete()
    ensures { StreamsAreComplete }
{}

/// There is a stream in another order than its writer's that meets all that the laws ask for, with a
/// late patch and a packet that was given up.
pub fn worked_stream()
    ensures { WorkedStream }
{}

/// Where the image of a chunk is committed that is still held, a packet is delivered that was not
/// emitted.
pub fn worked_held()
    ensures { WorkedHeld }
{}

/// Where a patch comes before its image, a packet is absent though the bytes suffice.
pub fn worked_early()
    ensures { WorkedEarly }
{}
