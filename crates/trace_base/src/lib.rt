//! The words that every crate shares: the limits of a scenario, the policies of buffers and
//! writers, the ids of chunks and their positions, decimal numbers, the field numbers that are the
//! service's own, and a counter of steps.
//! A layer above may rely on the constants as they stand, on `id_of` and `position_of` undoing each
//! other, on `is_reserved` answering exactly for the reserved fields, and on `Steps` rising by one at
//! each `tick` and at nothing else.
#![tactic(auto)]

pub mod ids;
pub mod limits;
pub mod number;
pub mod numeral;
pub mod policy;
pub mod reserved;
pub mod steps;
