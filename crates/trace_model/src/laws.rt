//! Laws about the definitions: each is the contract of a function with nothing to do.
ghost use Rattle.trace_model.specs.CauseLaws.{CountsAreOutcomes, PacketsHaveOneOutcome};
ghost use Rattle.trace_model.specs.EncodingLaws.{EncodingsAreAsLong};
ghost use Rattle.trace_model.specs.Fading.{RowsFade};
ghost use Rattle.trace_model.specs.Laws.{AllRecordsTell};
ghost use Rattle.trace_model.specs.PacketLaws.{CallsGiveEncodings, PacketsAreFronted};
ghost use Rattle.trace_model.specs.PlaceLaws.{LiveAreUnmet};
ghost use Rattle.trace_model.specs.ReadingLaws.{PagesReadAsWritten, ReadingIsExact};
ghost use Rattle.trace_model.specs.RowLaws.{RowsContinue, RowsRise};
ghost use Rattle.trace_model.specs.TellsLaws.{TellsByPlaces};
ghost use Rattle.trace_model.specs.WorkedRounds.{WorkedRounds};
ghost use Rattle.trace_model.specs.WorkedRows.{WorkedRows};

/// The length of an encoding is the sum of the lengths of its parts.
pub fn encodings_are_as_long()
    ensures { EncodingsAreAsLong }
{}

/// Where every emitted packet has its record, in order, and the first record alone is marked, the
/// records tell of the emitted packets.
pub fn all_records_tell()
    ensures { AllRecordsTell }
{}

/// The records of a sequence tell of the emitted packets exactly where they are theirs at strictly
/// rising places, each marked where it is the first or its place isn't the next one.
pub fn tells_by_places()
    ensures { TellsByPlaces }
{}

/// After any history a record of a buffer is live exactly where no later record and no padding meets
/// its interval.
pub fn live_are_unmet()
    ensures { LiveAreUnmet }
{}

/// Of any list of a writer's calls, the body of each packet is its front mark, where it has one, and
/// then its encoding.
pub fn packets_are_fronted()
    ensures { PacketsAreFronted }
{}

/// The calls by which packets are written whole give their encodings as emissions, and as bodies the
/// encodings of those that were kept, with the mark in front of each that follows a dropped one.
pub fn calls_give_encodings()
    ensures { CallsGiveEncodings }
{}

/// The definitions give what the worked examples say: how packets are cut, the bytes of the trace,
/// and the report.
pub fn worked_rows()
    ensures { WorkedRows }
{}

/// So they do for two writers who share one chunk or wait for each other, for a chunk with as many
/// fragments as it may have, and for packets that the packet check refuses.
pub fn worked_rounds()
    ensures { WorkedRounds }
{}

/// Each packet is delivered once or absent under one cause: whatever a history does whose arrivals
/// of a sequence come before its close, it fixes the outcome of no packet of that sequence twice.
pub fn packets_have_one_outcome()
    ensures { PacketsHaveOneOutcome }
{}

/// What a buffer counts of a sequence is how many of its packets a history has fixed as delivered, and
/// as absent under each cause.
pub fn counts_are_outcomes()
    ensures { CountsAreOutcomes }
{}

/// The row of whole chunks goes on where more come: the chain that stands open at its end is joined to
/// the row of what comes, and nothing before it changes.
pub fn rows_continue()
    ensures { RowsContinue }
{}

/// What is read of a payload step by step is what the payload reads as, with so many fragments, and
/// whatever the payload reads as is read.
pub fn reading_is_exact()
    ensures { ReadingIsExact }
{}

/// A writer's image, of whatever size below the drop mark's, reads as the fragments that it wrote.
pub fn pages_read_as_written()
    ensures { PagesReadAsWritten }
{}

/// What a reader sees is what was written, faded: in the row of chunks that are there whole, in part,
/// or awaiting patches, with others missing, each chain in which nothing is missing is the chain that
/// was written at its place, byte for byte.
pub fn rows_fade()
    ensures { RowsFade }
{}

/// The links of a row stand in rising places: each begins at the place behind the one before or
/// further on, and ends behind its own.
pub fn rows_rise()
    ensures { RowsRise }
{}
