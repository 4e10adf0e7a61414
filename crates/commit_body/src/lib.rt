//! Commit bodies and patches: what a writer sends beside a chunk's header.
//! The length of a nested message that goes on after its chunk is a hole in that chunk, and a patch
//! gives it later, in the body of one of the writer's next chunks. A layer above may rely on this:
//! each hole that is closed after its chunk is one patch, patches are sent in the order of closing,
//! at most 16 in a body, and `last` stands on the patch behind which none is for its chunk. Chunks are
//! named by their positions until a patch is sent, and by their ids from then on.
#![tactic(auto)]

mod body;
mod closed;
mod hole;
mod patch_list;

pub use body::{CommitBody, MAX_PATCHES, Patch};
pub use closed::Closed;
pub use hole::Hole;
pub use patch_list::PatchList;
