//! The grammar of a scenario: `read_scenario` reads a text into set-up lines and played lines, or
//! answers its first faulty line with the first reason that holds there.
//! A layer above may rely on a text being accepted exactly where the grammar gives a scenario, on
//! the lines being what the grammar gives, and on a refusal being the first one, printed exactly.
//! Who asks something of a line that the scenario doesn't keep reads it by the public modules.
#![tactic(auto)]

mod effects;
mod fields;
pub mod form;
mod hex;
mod items;
mod laws;
mod line_fault;
mod line_list;
pub mod lines;
mod lines_reader;
mod open_packet;
mod own_lines;
mod packet_line;
pub mod pieces;
mod playing;
mod printing;
mod raw_chunk;
mod raw_form;
mod reader;
pub mod reading;
mod reason;
mod refusals;
mod scenario;
mod scenario_reader;

pub use laws::{
    lines_spell_trees, scenarios_are_accepted, scenarios_are_in_reach, scenarios_are_set_up,
    scenarios_are_short, scenarios_give_trees, scenarios_spell_trees,
};
pub use line_list::{LineList, LineWalk};
pub use lines::read_scenario;
pub use own_lines::{LinesByWriter, OwnWalk};
pub use printing::refusal_line;
pub use raw_chunk::{RawChunk, RawHeader, RawPatch};
pub use reason::{Reason, ScenarioFault};
pub use scenario::{BufferLine, LineKind, NumberedLine, ProducerLine, Scenario};
pub use scenario_reader::ScenarioReader;
