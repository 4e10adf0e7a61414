//! What a line has its writer write.
ghost use Rattle.std.specs.Prelude.{[], ◌∷◌, ◌++◌, true, map, OnOk};
ghost use Rattle.trace_model.specs.Calls as call;
ghost use Rattle.emitted_packets.specs.declared.emitter.Emitter.{Emitter};
ghost use Rattle.field_tree.specs.Judged.{node_len, nodes_len};
ghost use Rattle.scenario_text.specs.Accepted.{node_call, named_calls};
ghost use Rattle.scenario_text.specs.Lengths.{line_len};
ghost use Rattle.scenario_check.specs.Progress.{MayTake, Takes};

use emitted_packets::Emitter;
use field_tree::{FieldNode, Fields};
use scenario_text::LineKind;
use std::alloc::AllocError;

/// Writes a node of a packet's FIELDS.
#[inline(always)]
fn emit_node(emitter: &mut Emitter, node: FieldNode, text: &[u8]) -> Result<(), AllocError>
    requires { MayTake (node_call (node, text.now) ∷ []) (node_len (node, text.now)) emitter.old }
    ensures { OnOk result (Takes (node_call (node, text.now) ∷ []) (node_len (node, text.now)) 0 emitter.old emitter.new) }
{
    match node {
        FieldNode::Number { field, value } => emitter.number(field, value),
        FieldNode::Bytes { field, times } => emitter.bytes(field, text, times),
        FieldNode::Begin { field } => emitter.nested(field),
        FieldNode::End => {
            emitter.ended();
            Ok(())
        }
    }
}

/// Writes all of them.
fn emit_fields(emitter: &mut Emitter, fields: &Fields<'_>) -> Result<(), AllocError>
    requires { MayTake (map node_call fields.now) (nodes_len fields.now) emitter.old }
    ensures { OnOk result (Takes (map node_call fields.now) (nodes_len fields.now) 0 emitter.old emitter.new) }
{
    let mut coming = fields.fields();
    'nodes: while let Some((node, text)) = coming.next() {
        emit_node(emitter, node, text)?;
    }
    Ok(())
}

/// Ends a packet.
fn emit_end(emitter: &mut Emitter) -> Result<(), AllocError>
    requires { MayTake (call.Finished ∷ []) 0 emitter.old }
    ensures { OnOk result (Takes (call.Finished ∷ []) 0 1 emitter.old emitter.new) }
{
    emitter.finished()
}

/// Writes a whole packet.
fn emit_packet(emitter: &mut Emitter, fields: &Fields<'_>) -> Result<(), AllocError>
    requires { MayTake (call.Begun true ∷ map node_call fields.now ++ call.Finished ∷ []) (nodes_len fields.now) emitter.old }
    ensures { OnOk result (Takes (call.Begun true ∷ map node_call fields.now ++ call.Finished ∷ []) (nodes_len fields.now) 1 emitter.old
        emitter.new) }
{
    emit_fields(emitter, fields)?;
    emit_end(emitter)
}

/// Does what a line asks of the writer that it names.
pub(crate) fn emit_line(emitter: &mut Emitter, what: &LineKind<'_>) -> Result<(), AllocError>
    requires { MayTake (named_calls what.now) (line_len what.now) emitter.old }
    ensures { OnOk result (Takes (named_calls what.now) (line_len what.now) 1 emitter.old emitter.new) }
{
    match what {
        LineKind::Packet { writer: _, fields } => emit_packet(emitter, fields),
        LineKind::Add { writer: _, fields } => emit_fields(emitter, fields),
        LineKind::Nest { writer: _, field } => {
            emit_node(emitter, FieldNode::Begin { field: *field }, &[])
        }
        LineKind::Unnest { writer: _ } => emit_node(emitter, FieldNode::End, &[]),
        LineKind::End { writer: _ } => emit_end(emitter),
        _ => Ok(()),
    }
}
