//! The text form of a trace configuration: `read_config` reads a text into buffers, producers and
//! data sources, or answers its first fault; `put_config` writes such a text.
//! A layer above may rely on a configuration being the one that the text spells by the grammar, on a
//! fault being the text's first one, on what was written reading back, and on what was read being
//! such as can be written. Nothing is kept of what is skipped, and no call calls itself.
#![tactic(auto)]

mod building;
mod collector;
mod config;
mod fields;
mod finding;
mod judging;
mod kept;
mod laws;
mod look_ups;
mod putting;
mod ranges;
mod reading;
mod reason;

pub use config::{Config, ConfigBuffer, ConfigProducer, ConfigSource, Name};
pub use laws::{answers_are_one, written_is_read};
pub use putting::put_config;
pub use reading::read_config;
pub use reason::{ConfigFault, ConfigReason};
