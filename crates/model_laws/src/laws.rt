//! Laws about the definitions: each is the contract of a function with nothing to do.
ghost use Rattle.model_laws.specs.ChunkCounts.{ChunkCountsAreReached, EveryImageIsCounted, EveryPageIsCounted, MoreCallsTakeMore};
ghost use Rattle.model_laws.specs.Losses.{LossesChangeNoShape};
ghost use Rattle.model_laws.specs.MarkLaws.{MarksTellWhatIsMissing};
ghost use Rattle.model_laws.specs.OutcomeLaws.{CountsAreBalanced, CountsAreOfOutcomes, FixedPlacesAreStarts};
ghost use Rattle.model_laws.specs.OutcomeLaws.{DeliveriesAreCounted, ReportsCountDeliveries};
ghost use Rattle.model_laws.specs.RisingLaws.{RisingListsAreSets, SecondCloseChangesNothing};
ghost use Rattle.model_laws.specs.SpoiltCuts.{SpoiltCutsAreRefused};
ghost use Rattle.model_laws.specs.StopLaws.{StopPlacesAreFirst};
ghost use Rattle.model_laws.specs.UnreadableLaws.{UnreadableIsFirst};
ghost use Rattle.model_laws.specs.WorkedReports.{WorkedReport};

/// Whatever a history fixes of a sequence, it fixes where a packet of its writer begins.
pub fn fixed_places_are_starts()
    ensures { FixedPlacesAreStarts }
{}

/// As many packets of a sequence are fixed as delivered, and counted as delivered, as its reads
/// delivered.
pub fn deliveries_are_counted()
    ensures { DeliveriesAreCounted }
{}

/// The counts of the report are those of the packets' outcomes.
pub fn counts_are_of_outcomes()
    ensures { CountsAreOfOutcomes }
{}

/// Each packet that was begun is delivered, or absent under one cause, and the report's sum says so.
pub fn counts_are_balanced()
    ensures { CountsAreBalanced }
{}

/// What the report says of delivered packets is how many the reads delivered.
pub fn reports_count_deliveries()
    ensures { ReportsCountDeliveries }
{}

/// Losses change no shape: calls of which packets were dropped or given up emit what was asked, begin
/// as many packets, and leave the newest as long and as deep.
pub fn losses_change_no_shape()
    ensures { LossesChangeNoShape }
{}

/// A chunk that can't be read is answered with the number of its first fragment that can't be.
pub fn unreadable_is_first()
    ensures { UnreadableIsFirst }
{}

/// A reader of an open sequence stops at the first chunk that stops it, of one that is closed at its
/// end.
pub fn stop_places_are_first()
    ensures { StopPlacesAreFirst }
{}

/// A record of a sequence is unmarked exactly where what was passed right before it was delivered too.
pub fn marks_tell_what_is_missing()
    ensures { MarksTellWhatIsMissing }
{}

/// The positions that a buffer knows of a sequence are rising lists, which are the same where their members
/// are.
pub fn rising_lists_are_sets()
    ensures { RisingListsAreSets }
{}

/// A second close of a sequence changes nothing.
pub fn second_close_changes_nothing()
    ensures { SecondCloseChangesNothing }
{}

/// Pages with the right bytes are no cut where a packet runs on to nothing, or an open length stands
/// in two chunks.
pub fn spoilt_cuts_are_refused()
    ensures { SpoiltCutsAreRefused }
{}

/// There is a history that meets all that the laws on reports ask for.
pub fn worked_report()
    ensures { WorkedReport }
{}

/// A writer's pages and lost packets are no more than the chunks that its packets take at most, as
/// long as none is being written.
pub fn every_page_is_counted()
    ensures { EveryPageIsCounted }
{}

/// A writer between two packets has begun at most as many chunks as what it was asked to write takes
/// at most, whatever of it was lost.
pub fn every_image_is_counted()
    ensures { EveryImageIsCounted }
{}

/// What a writer's calls take at most doesn't get less by later ones.
pub fn more_calls_take_more()
    ensures { MoreCallsTakeMore }
{}

/// There are packets that take as many chunks, and a packet that isn't finished takes a chunk that
/// nothing emitted accounts for.
pub fn chunk_counts_are_reached()
    ensures { ChunkCountsAreReached }
{}
