//! What a line gives a packet: the nodes of its FIELDS, and how many bytes they are.
ghost use Rattle.std.specs.Prelude.{◌≡◌, ◌+◌, ◌^◌, ◌<◌, ◌≤◌, length, true, IfOk};
ghost use Rattle.wire_varint.specs.Varint.{tag};
ghost use Rattle.field_tree.specs.Answers.{outcome};
ghost use Rattle.field_tree.specs.Judged.{nodes_len};
ghost use Rattle.scenario_text.specs.Pieces.{fields_part};
ghost use Rattle.scenario_text.specs.Ranges.{is_within, value};
ghost use Rattle.scenario_text.specs.declared.form.WriterStep.TheVariants.{Add, Nest, Packet};
ghost use Rattle.scenario_text.specs.Reasons.{before_fields, given_by, nested, step_len};
ghost use Rattle.scenario_text.specs.Answers.{fault_reason, FaultFits};
ghost use Rattle.scenario_text.specs.Additions.{GivesAddition};

use crate::form::WriterStep;
use crate::line_fault::LineFault;
use crate::reason::Reason;
use field_tree::{FieldError, FieldFault, FieldParser, Fields};
use trace_base::limits::{MAX_FIELD, MAX_INPUT, MAX_NESTING, MAX_PACKET_LEN};
use trace_base::numeral::Numeral;
use trace_base::reserved::is_reserved;
use wire_varint::put_tag;

/// A fault of FIELDS that begin behind so many bytes of their line.
#[tactic(auto, unfolding(crate::specs::Answers::fault_reason))]
fn reason(before: u32, fault: FieldFault) -> Reason
    requires { FaultFits before fault }
    ensures { result ≡ fault_reason before fault }
{
    match fault {
        FieldFault::BadField { column } => Reason::BadField {
            column: before + column,
        },
        FieldFault::Reserved { field } => Reason::ReservedField { field },
        FieldFault::TooDeep => Reason::TooDeep,
        FieldFault::PacketTooLong => Reason::PacketTooLong,
    }
}

/// What a line gives its packet: nodes, and how many bytes their encoding is.
#[derive(Drop)]
pub struct Addition<'c> {
    pub fields: Fields<'c>,
    pub len: u32,
}

/// A nested message that begins where so many are open, in a line with so many bytes before its
/// FIELD.
#[tactic(auto, unfolding(crate::specs::Reasons::nested, crate::specs::Reasons::step_len, crate::specs::Answers::reason_given, crate::specs::Answers::fault_reason, crate::specs::Ranges::is_within, crate::specs::Ranges::value))]
fn nested(before: u32, depth: u8, field: Numeral) -> Result<Addition<'static>, LineFault>
    requires { before + 1 < 2 ^ 32 }
    ensures { GivesAddition before (Nest field) result (nested depth field) }
{
    let Numeral::Fits(number) = field else {
        return Err(LineFault::Refused(Reason::BadField { column: before + 1 }));
    };
    if number < 1 || u64::from(MAX_FIELD) < number {
        return Err(LineFault::Refused(Reason::BadField { column: before + 1 }));
    }
    let number = number as u32;
    if depth == 0 && is_reserved(number) {
        return Err(LineFault::Refused(Reason::ReservedField { field: number }));
    }
    if MAX_NESTING <= depth {
        return Err(LineFault::Refused(Reason::TooDeep));
    }
    let mut tag = [0u8; 5];
    let len = put_tag(number, 2, &mut tag) as u32 + 4;
    Ok(Addition {
        fields: Fields::none(),
        len,
    })
}

/// What FIELDS that begin behind so many bytes of their line give its packet, where so many messages
/// are open.
#[inline(always)]
#[tactic(auto, using(crate::proofs::FieldLemmas::fault_fits, crate::proofs::FieldLemmas::reason_from), unfolding(crate::specs::Reasons::step_len))]
pub fn given_fields<'c>(
    parser: &'c mut FieldParser,
    before: u32,
    fields: &[u8],
    depth: u8,
) -> Result<Addition<'c>, LineFault>
    requires line { before + length fields.now ≤ MAX_INPUT }
    requires depth { depth ≤ MAX_NESTING }
    ensures packet { GivesAddition before (Packet true) result (outcome depth fields.now) }
    ensures add { GivesAddition before Add result (outcome depth fields.now) }
    ensures most { IfOk result (λ given. given.len ≤ MAX_PACKET_LEN) }
{
    match parser.parse(fields, depth) {
        Ok(found) => Ok(Addition {
            fields: found.fields,
            len: found.encoded,
        }),
        Err(FieldError::OutOfMemory) => Err(LineFault::OutOfMemory),
        Err(FieldError::Fault(fault)) => Err(LineFault::Refused(reason(before, fault))),
    }
}

/// What a line with these FIELDS gives its packet, where so many messages are open.
#[inline(always)]
#[tactic(auto, using(crate::proofs::PieceLemmas::fields_inside), unfolding(crate::specs::Reasons::given_by, crate::specs::Reasons::step_len))]
pub fn read_addition<'c>(
    parser: &'c mut FieldParser,
    line: &[u8],
    fields: &[u8],
    depth: u8,
    step: WriterStep,
) -> Result<Addition<'c>, LineFault>
    requires line { length line.now ≤ MAX_INPUT }
    requires fields { fields.now ≡ fields_part line.now }
    requires depth { depth ≤ MAX_NESTING }
    ensures { GivesAddition (before_fields line.now) step result (given_by depth line.now step) }
{
    let before = (line.len() - fields.len()) as u32;
    match step {
        WriterStep::Packet { has_fields: true } | WriterStep::Add => {
            return given_fields(parser, before, fields, depth);
        }
        WriterStep::Nest { field } => return nested(before, depth, field),
        _ => {}
    }
    Ok(Addition {
        fields: Fields::none(),
        len: 0,
    })
}
