//! The fields of a packet, node by node.
ghost use Rattle.std.specs.Prelude.{◌≡◌, ℕ, ◌<◌, true, List, [], ◌∷◌, ◌++◌, length, map, OnOk, IfErr};
ghost use Rattle.byte_io.specs.Bytes.{Intake};
ghost use Rattle.trace_model.specs.Calls as calls;
ghost use Rattle.trace_model.specs.Calls.{Call};
ghost use Rattle.scenario_text.specs.Accepted.{node_call};
ghost use Rattle.chunk_plain.specs.Words.{call_of};
ghost use Rattle.replay_model.specs.Acts.{asks};
ghost use Rattle.replay_host.specs.Replaying.{IsStall};

use crate::fault::HostFault;
use crate::host::Host;
use chunk_plain::{Words, WriterCall};
use field_tree::{FieldNode, Fields};
use std::sync::ledger::Ledger;
use trace_base::steps::Steps;

/// What a writer is called for a node, with its text.
#[tactic(auto, unfolding(scenario_text::specs::Accepted::node_call))]
pub fn call_of_node(node: FieldNode, text: &[u8]) -> WriterCall<'_>
    ensures { call_of result ≡ node_call (node, text.now) }
{
    match node {
        FieldNode::Number { field, value } => WriterCall::Number { field, value },
        FieldNode::Bytes { field, times } => WriterCall::Bytes {
            field,
            value: text,
            times,
        },
        FieldNode::Begin { field } => WriterCall::Nested { field },
        FieldNode::End => WriterCall::Ended,
    }
}

impl<W: Words> Host<W, W::Writer, W::Service> {
    ghost use Rattle.replay_host.specs.Asking.{AreReady};
    ghost use Rattle.replay_host.specs.Playing.{IsHost, IsOpenAt, asked_all, HasAsked};
    ghost use Rattle.replay_host.specs.Stopping.{StopsIn};

    /// The writer at this place is asked for these fields.
    pub fn ask_fields<L: Ledger>(
        &mut self,
        steps: &mut Steps<L>,
        place: usize,
        fields: &Fields<'_>,
    ) -> Result<(), HostFault>
        requires host { IsHost W.means self.old }
        requires place { place < length (W.means.setup self.old.table).writers }
        requires open { IsOpenAt W.means self.old place }
        requires ready { (coming : ℕ → List Call)
            × AreReady W.means self.old.table self.old.writers.items (asked_all place (map node_call fields.now) coming) }
        ensures host { OnOk result (IsHost W.means self.new) }
        ensures asked { OnOk result (HasAsked W.means place (map node_call fields.now) self.old self.new) }
        ensures stops { (taken : Intake)
            → IfErr result (λ fault. StopsIn W.means (asks place (map node_call fields.now)) self.old taken fault taken) }
        ensures fault { IfErr result IsStall }
    {
        let mut left = fields.fields();
        'nodes: while let Some((node, text)) = left.next() {
            let call = call_of_node(node, text);
            self.ask(steps, place, call)?;
        }
        Ok(())
    }

    /// The writer at this place is asked for a whole packet.
    pub fn ask_packet<L: Ledger>(
        &mut self,
        steps: &mut Steps<L>,
        place: usize,
        fields: &Fields<'_>,
    ) -> Result<(), HostFault>
        requires host { IsHost W.means self.old }
        requires place { place < length (W.means.setup self.old.table).writers }
        requires open { IsOpenAt W.means self.old place }
        requires ready { (coming : ℕ → List Call) × AreReady W.means self.old.table self.old.writers.items
            (asked_all place (calls.Begun true ∷ map node_call fields.now ++ calls.Finished ∷ []) coming) }
        ensures host { OnOk result (IsHost W.means self.new) }
        ensures asked { OnOk result (HasAsked W.means place (calls.Begun true ∷ map node_call fields.now ++ calls.Finished ∷ []) self.old
            self.new) }
        ensures stops { (taken : Intake)
            → IfErr result (λ fault. StopsIn W.means (asks place (calls.Begun true ∷ map node_call fields.now ++ calls.Finished ∷ []))
            self.old taken fault taken) }
        ensures fault { IfErr result IsStall }
    {
        self.ask(steps, place, WriterCall::Begun { kept: true })?;
        self.ask_fields(steps, place, fields)?;
        self.ask(steps, place, WriterCall::Finished)
    }
}
