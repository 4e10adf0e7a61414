//! The text form of a configuration: fields with a value or with fields of their own, blocks at any depth,
//! comments to the line's end. A `TextReader` walks a text once and lends its items one by one.
//! A layer above may rely on the items being those of the one tree of fields that the text says by the
//! grammar, and on the line of a text that is of this form no more. A reader takes no memory and calls
//! nothing again: the depth of blocks is a number. The laws are functions with empty bodies.
#![tactic(auto)]

mod field;
mod gap;
mod item;
mod kinds;
mod laws;
mod reader;

pub use item::{BadText, TextItem, TextValue};
pub use laws::{bad_lines_are_found, fields_are_read, items_tell_the_fields, texts_are_read};
pub use reader::TextReader;
