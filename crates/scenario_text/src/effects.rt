//! What an accepted line adds to the scenario, and how it changes the packet of its writer.
ghost use Rattle.std.specs.Prelude.{◌≡◌, ◌+◌, ◌^◌, ◌<◌, ◌≤◌};
ghost use Rattle.scenario_text.specs.Ranges.{value};
ghost use Rattle.scenario_text.specs.State.{nesting_of, len_of};
ghost use Rattle.scenario_text.specs.Effects.{limit_of, packet_after, policy_of, producer_kind, writer_kind, FieldFits, TriesFit, first_id, IdFits};

use crate::form::{NamedPolicy, ProducerStep, WriterStep};
use crate::open_packet::OpenPacket;
use crate::scenario::LineKind;
use field_tree::Fields;
use trace_base::limits::{MAX_NESTING, MAX_PACKET_LEN};
use trace_base::numeral::Numeral;
use trace_base::policy::WriterPolicy;

/// A number that is known to be small.
#[tactic(auto, unfolding(crate::specs::Ranges::value))]
pub fn small(number: Numeral) -> u32
    requires { value number < 2 ^ 32 }
    ensures { result ≡ value number }
{
    match number {
        Numeral::Fits(n) => n as u32,
        Numeral::TooLarge => 0,
    }
}

#[tactic(auto, unfolding(crate::specs::Effects::limit_of, crate::specs::Ranges::value))]
pub fn limit(limit: Option<Numeral>) -> u64
    ensures { result ≡ limit_of limit }
{
    match limit {
        None => u64::MAX,
        Some(Numeral::Fits(n)) => n,
        Some(Numeral::TooLarge) => 0,
    }
}

#[tactic(auto, unfolding(crate::specs::Effects::policy_of))]
pub fn policy_of(policy: NamedPolicy) -> WriterPolicy
    requires { TriesFit policy }
    ensures { result ≡ policy_of policy }
{
    match policy {
        NamedPolicy::Drops => WriterPolicy::Drops,
        NamedPolicy::Stalls => WriterPolicy::Stalls,
        NamedPolicy::StallsThenDrops { tries } => WriterPolicy::StallsThenDrops {
            tries: small(tries),
        },
    }
}

/// The id of a writer's first chunk.
#[tactic(auto, unfolding(crate::specs::Effects::first_id))]
pub fn first_id(from: Option<Numeral>) -> u32
    requires { IdFits from }
    ensures { result ≡ first_id from }
{
    match from {
        None => 0,
        Some(from) => small(from),
    }
}

/// The packet that its writer has begun after a line that makes it so many bytes longer.
#[tactic(auto, unfolding(crate::specs::Effects::packet_after, crate::specs::State::nesting_of, crate::specs::State::len_of))]
pub fn packet_after(
    line: u32,
    packet: Option<OpenPacket>,
    step: WriterStep,
    added: u32,
) -> Option<OpenPacket>
    requires len { len_of packet + added ≤ MAX_PACKET_LEN }
    requires depth { nesting_of packet ≤ MAX_NESTING }
    ensures { result ≡ packet_after line packet step added }
{
    match step {
        WriterStep::Begin => {
            return Some(OpenPacket {
                line,
                depth: 0,
                len: 0,
            });
        }
        WriterStep::End => return None,
        _ => {}
    }
    let mut packet = packet?;
    match step {
        WriterStep::Add => packet.len += added,
        WriterStep::Nest { .. } => {
            packet.depth += 1;
            packet.len += added;
        }
        WriterStep::Unnest => packet.depth = packet.depth.saturating_sub(1),
        _ => {}
    }
    Some(packet)
}

#[tactic(auto, unfolding(crate::specs::Effects::writer_kind))]
pub fn writer_kind(writer: u16, step: WriterStep, fields: Fields<'_>) -> LineKind<'_>
    requires { FieldFits step }
    ensures { result ≡ writer_kind writer step fields.entry }
{
    match step {
        WriterStep::Packet { .. } => LineKind::Packet { writer, fields },
        WriterStep::Begin => LineKind::Begin { writer },
        WriterStep::Add => LineKind::Add { writer, fields },
        WriterStep::Nest { field } => LineKind::Nest {
            writer,
            field: small(field),
        },
        WriterStep::Unnest => LineKind::Unnest { writer },
        WriterStep::End => LineKind::End { writer },
        WriterStep::Flush => LineKind::Flush { writer },
    }
}

#[tactic(auto, unfolding(crate::specs::Effects::producer_kind))]
pub fn producer_kind(producer: u16, step: ProducerStep) -> LineKind<'static>
    ensures { result ≡ producer_kind producer step }
{
    match step {
        ProducerStep::Collect => LineKind::Collect { producer },
        ProducerStep::Scrape => LineKind::Scrape { producer },
        ProducerStep::Close => LineKind::Close { producer },
    }
}
