//! Reading the fields of a line.
ghost use Rattle.std.specs.Prelude.{◌≡◌, ℕ, ◌≤◌, length, IfOk};
ghost use Rattle.field_tree.specs.Answers.{Parses, Gives, outcome};
ghost use Rattle.field_tree.specs.Found.{nodes_found};
ghost use Rattle.field_tree.specs.Judged.{nodes_len};
ghost use Rattle.field_tree.specs.Views.{GivesCode};

use crate::fault::FieldError;
use crate::fields::Fields;
use crate::judge::judge;
use crate::parser::{Parser, read};
use crate::tree::FieldTree;
use std::alloc::Global;
use trace_base::limits::{MAX_INPUT, MAX_NESTING, MAX_PACKET_LEN};

/// Reads fields that stand inside `depth` nested messages of a packet; at 0 they are the packet's
/// own. The text may nest deeper than a packet may, and is then refused as `TooDeep` in its turn.
pub fn parse_fields(alloc: Global, text: &[u8], depth: u8) -> Result<FieldTree, FieldError>
    requires text { length text.now ≤ MAX_INPUT }
    requires depth { depth ≤ MAX_NESTING }
    ensures means { Parses depth text.now result }
    ensures exact { Gives result (outcome depth text.now) }
{
    let mut parser = Parser::new(alloc);
    let encoded = read_packet(&mut parser, text, depth)?;
    Ok(FieldTree::from_parts(parser.code, encoded))
}

/// Reads the nodes that a packet may have, and answers the length of their encoding.
#[tactic(auto, using(crate::proofs::AnswerLemmas::given_taken, crate::proofs::AnswerLemmas::given_refused, crate::proofs::AnswerLemmas::given_column))]
fn read_packet(parser: &mut Parser, text: &[u8], depth: u8) -> Result<u32, FieldError>
    requires text { length text.now ≤ MAX_INPUT }
    requires depth { depth ≤ MAX_NESTING }
    ensures { GivesCode result parser.new.code.items (outcome depth text.now) }
{
    if parser.make_code_room(text.len()).is_err() {
        return Err(FieldError::OutOfMemory);
    }
    read(parser, text)?;
    match judge(parser.found, depth) {
        Ok(encoded) => Ok(encoded),
        Err(fault) => Err(FieldError::Fault(fault)),
    }
}

/// Fields that were read, and the length of their encoding.
#[derive(Drop)]
pub struct Found<'c> {
    pub fields: Fields<'c>,
    pub encoded: u32,
}

/// Reads the fields of one line after another. It keeps the memory that it has taken.
#[derive(Drop)]
pub struct FieldParser {
    parser: Parser,
}

impl FieldParser {
    pub fn new(alloc: Global) -> Self {
        FieldParser {
            parser: Parser::new(alloc),
        }
    }

    /// Reads the fields of a line, as `parse_fields` does.
    pub fn parse(&mut self, text: &[u8], depth: u8) -> Result<Found<'_>, FieldError>
        requires text { length text.now ≤ MAX_INPUT }
        requires depth { depth ≤ MAX_NESTING }
        ensures means { Parses depth text.now (nodes_found result) }
        ensures exact { Gives (nodes_found result) (outcome depth text.now) }
        ensures len { IfOk result (λ found. found.encoded ≡ nodes_len found.fields) }
        ensures most { IfOk result (λ found. found.encoded ≤ MAX_PACKET_LEN) }
    {
        let encoded = read_packet(&mut self.parser, text, depth)?;
        Ok(Found {
            fields: Fields::new(&self.parser.code),
            encoded,
        })
    }
}
