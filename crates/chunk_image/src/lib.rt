//! Images of chunks, and the fragments that their payloads hold.
//! A layer above may rely on this: `fragments` answers the fragments of exactly those payloads that
//! read as `count` of them, in order, and where none do, the number of the first fragment that
//! can't be read. Fragments are parts of the payload that is lent; nothing is copied.
#![tactic(auto)]

mod image;
mod iterate;
mod read;

pub use image::{Image, ImageFault};
pub use iterate::FragmentIter;
pub use read::{DROP_SIZE, Fragment, MAX_SIZE_WIDTH, read_fragment};
