//! Laws on writers. The functions do nothing: a caller's proof has their clauses.
ghost use Rattle.trace_writer.specs.Laws.{AgreeingIsCut, AgreeingIsCutFrom, DropsNeverStall, NewestIsHeld, NothingIsKeptBack, HeldIsPublished};

/// A writer that agrees with its view has cut its packets into its chunks; where it holds none, the
/// last one runs on exactly where its newest packet goes on.
pub fn agreeing_is_cut()
    ensures { AgreeingIsCut }
{}

/// What stands in its chunks and goes out with them is this cut under the ids of the writer's chunks.
pub fn agreeing_is_cut_from()
    ensures { AgreeingIsCutFrom }
{}

/// A writer that loses packets never stalls.
pub fn drops_never_stall()
    ensures { DropsNeverStall }
{}

/// A writer that isn't stalled holds the chunk that it began last exactly where its newest packet
/// isn't lost and no flush came behind it.
pub fn newest_is_held()
    ensures { NewestIsHeld }
{}

/// A writer that isn't stalled has put all that it was asked to write of its newest packet, unless
/// that is lost, into its chunks, which are a cut of its packets.
pub fn nothing_is_kept_back()
    ensures { NothingIsKeptBack }
{}

/// The header of the held chunk counts the fragments that the chunk has so far, and the bytes of all
/// but the last of them were published.
pub fn held_is_published()
    ensures { HeldIsPublished }
{}
