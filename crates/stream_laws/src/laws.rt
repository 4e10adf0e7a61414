//! Laws about what a stream of frames delivers: each is the contract of a function with nothing to do.
ghost use Rattle.stream_laws.specs.Laws.{StreamsDeliver, StreamsDeliverAll};
ghost use Rattle.stream_laws.specs.Sent.{SentStreamsCome};
ghost use Rattle.stream_laws.specs.Worked.{WorkedDelivery};

/// Of each source whose images a stream commits, the records of its sequence tell of the packets that
/// its writer emitted.
pub fn every_stream_delivers()
    ensures { StreamsDeliver }
{}

/// Where the source's buffer has the bytes for each commit, and the packet check accepts each packet
/// that was emitted and never dropped, each of these is in a record.
pub fn every_stream_delivers_all()
    ensures { StreamsDeliverAll }
{}

/// What the frames of a stream commit in the name of a source comes so, where the answer to none of
/// its commits is a refusal.
pub fn sent_streams_come()
    ensures { SentStreamsCome }
{}

/// There is a stream that meets all that the laws ask for.
pub fn worked_delivery()
    ensures { WorkedDelivery }
{}
