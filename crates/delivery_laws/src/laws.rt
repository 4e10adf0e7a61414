//! Laws about what histories deliver: each is the contract of a function with nothing to do.
ghost use Rattle.delivery_laws.specs.DeliveryLaws.{AccountsAreHistories, EveryHistoryTells, EveryWriterIsTold};
ghost use Rattle.delivery_laws.specs.EnoughLaws.{EveryAskIsCounted, EveryPacketIsDelivered};
ghost use Rattle.delivery_laws.specs.FlushLaws.{EveryFlushIsSettled, EveryOutcomeStays};
ghost use Rattle.delivery_laws.specs.WorkedAccounts.{WorkedAccount, WorkedEnough};

/// Whatever a history does with the chunks of a writer, what its reads deliver are packets that the
/// writer wrote whole, in order, each once, and marked exactly where one is missing.
pub fn every_history_tells()
    ensures { EveryHistoryTells }
{}

/// In every history in which a writer's chunks come in order, the records of its sequence tell of the
/// packets that it emitted.
pub fn every_writer_is_told()
    ensures { EveryWriterIsTold }
{}

/// Each account is a history of which the report is balanced, packet by packet.
pub fn accounts_are_histories()
    ensures { AccountsAreHistories }
{}

/// Where all is finished and the buffer has the bytes that are asked for, each packet is delivered.
pub fn every_packet_is_delivered()
    ensures { EveryPacketIsDelivered }
{}

/// A history asks for no more bytes than a record for each chunk takes.
pub fn every_ask_is_counted()
    ensures { EveryAskIsCounted }
{}

/// Once the chunks of a flush have come, a read of all that is due fixes what became of each packet
/// that was emitted before it.
pub fn every_flush_is_settled()
    ensures { EveryFlushIsSettled }
{}

/// What is fixed then are the outcomes of the writer's first packets in the end.
pub fn every_outcome_stays()
    ensures { EveryOutcomeStays }
{}

/// There is an account that meets all that the law asks for, with a part of a chunk, a patch and a
/// packet that was given up.
pub fn worked_account()
    ensures { WorkedAccount }
{}

/// There is an account of which nothing is absent, with a buffer of just the bytes that it asks for.
pub fn worked_enough()
    ensures { WorkedEnough }
{}
