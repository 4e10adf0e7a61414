//! The run of a scenario on threads, as definitions and laws alone: what its writers and its service did,
//! in whatever order the threads came, and what comes of it.
//! A layer above may rely on this: a schedule of steps leads to what was done, by way of the world in which
//! the threads were done; the records are faithful to what the lines have the writers emit, also up to a
//! write that failed, the report counts every packet once, and where chunks and bytes are enough none is
//! missing. Of the service it is said what each of its own lines made of what it knew, in their order. What a
//! writer had emitted when it answered a flush request is settled once the chunks that the answer counts have
//! come and are read.
#![tactic(auto)]

mod laws;

pub use laws::{
    chunks_arrive_in_turn, every_enough_run_is_complete, every_run_counts_packets,
    every_run_flush_is_settled, every_run_is_balanced, every_run_is_faithful,
    every_stopped_run_is_faithful, left_chunks_are_apart, lines_take_at_most, lost_claims_find_had,
    nothing_is_begun_behind_losses, one_chunk_holds_one_packet, one_collect_frees_one_chunk,
    uncollected_chunks_are_used_once, worked_answers,
};
