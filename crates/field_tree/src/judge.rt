//! What a list of nodes may have as part of a packet.
ghost use Rattle.std.specs.Prelude.{◌≡◌, ◌≤◌, List};
ghost use Rattle.field_tree.specs.Nodes.{Shown};
ghost use Rattle.field_tree.specs.Judged.{nodes_len, nodes_refusal, Judges};
ghost use Rattle.field_tree.specs.Refusals as refusals;
ghost use Rattle.field_tree.specs.Surveys.{IsSurvey};

use crate::fault::FieldFault;
use crate::survey::Survey;
use trace_base::limits::{MAX_NESTING, MAX_PACKET_LEN};

/// The first reserved field, where no message is around the nodes.
fn reserved_fault(found: Option<u32>, depth: u8) -> Option<FieldFault>
    ensures { result ≡ refusals.reserved_fault depth found }
{
    if depth > 0 {
        return None;
    }
    match found {
        Some(field) => Some(FieldFault::Reserved { field }),
        None => None,
    }
}

/// The length of the encoding of the nodes of which this was found, or the first reason for which
/// they aren't taken inside `depth` messages.
#[tactic(auto, unfolding(crate::specs::Judged::nodes_refusal))]
pub(crate) fn judge(found: Survey, depth: u8) -> Result<u32, FieldFault>
    requires { depth ≤ MAX_NESTING }
    ensures { (nodes : List Shown) → IsSurvey found nodes → Judges (nodes_len nodes) result (nodes_refusal depth nodes) }
{
    if let Some(fault) = reserved_fault(found.reserved, depth) {
        return Err(fault);
    }
    if found.deepest > usize::from(MAX_NESTING - depth) {
        return Err(FieldFault::TooDeep);
    }
    if found.len > u64::from(MAX_PACKET_LEN) {
        return Err(FieldFault::PacketTooLong);
    }
    Ok(found.len as u32)
}
