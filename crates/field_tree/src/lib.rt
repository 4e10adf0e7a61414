//! The fields of a packet as a scenario's line spells them: a `FieldParser` reads one text after
//! another into a list of nodes, which it lends, and refuses a text for the first reason that it
//! gives; `parse_fields` reads one text, and gives its nodes away as a `FieldTree`.
//! A layer above may rely on a text being accepted exactly where the grammar spells a tree of
//! fields so, on the nodes being those of this one tree, on the column of a fault, and on the length
//! of the tree's encoding. Nodes are kept as few bytes. The laws are functions with empty bodies.
#![tactic(auto)]

mod act;
mod adding;
mod fault;
mod fields;
mod judge;
mod laws;
mod mode;
mod node;
mod parse;
mod parser;
mod scan;
mod survey;
mod tree;
mod whole;
mod written;

pub use fault::{FieldError, FieldFault};
pub use fields::Fields;
pub use laws::{
    faults_have_no_tree, fields_begin_before_faults, no_other_is_right, nodes_are_as_long,
    nodes_tell_the_tree, one_fault_of_a_text, one_tree_of_a_text, outcomes_are_right,
};
pub use node::FieldNode;
pub use parse::{FieldParser, Found, parse_fields};
pub use tree::FieldTree;
