//! The packets of a trace, one after another.
ghost use Rattle.std.specs.Prelude.{◌≡◌, ℕ, ◌+◌, ◌-◌, ◌++◌, ◌^◌, List, None, Some, ◌<◌, ◌≤◌, length, take, drop, IfOk, IfErr, IfSome, IfNone, OnErr};
ghost use Rattle.trace_model.specs.Fields.{Spells, number_at};
ghost use Rattle.trace_file.specs.Traces.{record_field, inner_fault, top_fault, EndsBehind, HasInnerFault, IsNext, IsOther, IsPacketAt, SaysNumbers, StopsInside};
ghost use Rattle.trace_file.specs.Values.{packet_of, value_of};

use crate::fault::TraceFault;
use crate::field::{Field, FieldFault, Value, field_at};
use crate::packet::Packet;
use std::marker::Model;

/// Field 1 of a trace is a packet.
const PACKET_FIELD: u64 = 1;

/// Field 10 of a packet, `trusted_packet_sequence_id`, and field 42, `previous_packet_dropped`.
const SEQUENCE_FIELD: u64 = 10;

const DROPPED_FIELD: u64 = 42;

/// What two of a packet's fields say.
#[derive(Clone, Copy)]
struct Numbers {
    sequence: u64,
    mark: u64,
}

impl Numbers {
    ghost use Rattle.std.specs.Prelude.{◌≡◌};
    ghost use Rattle.trace_model.specs.Fields.{number_at};
    ghost use Rattle.trace_file.specs.Values.{value_of};

    /// What they say with one field more.
    #[inline(always)]
    fn with_field(self, number: u64, value: Value<'_>) -> Numbers
        ensures sequence { result.sequence ≡ number_at 10 self.sequence number (value_of value.entry) }
        ensures mark { result.mark ≡ number_at 42 self.mark number (value_of value.entry) }
    {
        let Value::Number(found) = value else {
            return self;
        };
        match number {
            SEQUENCE_FIELD => Numbers {
                sequence: found,
                mark: self.mark,
            },
            DROPPED_FIELD => Numbers {
                sequence: self.sequence,
                mark: found,
            },
            _ => self,
        }
    }
}

/// Where a packet's content can't be read on.
#[derive(Clone, Copy)]
struct Stop {
    reason: FieldFault,
    at: usize,
}

/// Reads the fields of a packet's content.
#[tactic(auto, using(crate::proofs::ReadLemmas::read_start, crate::proofs::ReadLemmas::read_more, crate::proofs::ReadLemmas::read_all, crate::proofs::ReadLemmas::read_stops))]
fn read_numbers(content: &[u8]) -> Result<Numbers, Stop>
    ensures says { IfOk result (λ numbers. SaysNumbers content.now numbers.sequence numbers.mark) }
    ensures stops { IfErr result (λ stop. StopsInside content.now stop.reason stop.at) }
    ensures within { IfErr result (λ stop. stop.at ≤ length content.now) }
{
    let mut numbers = Numbers {
        sequence: 0,
        mark: 0,
    };
    let mut at = 0;
    'fields: while at < content.len() {
        match field_at(content, at) {
            Ok(field) => {
                numbers = numbers.with_field(field.number, field.value);
                at += field.len;
            }
            Err(reason) => return Err(Stop { reason, at }),
        }
    }
    Ok(numbers)
}

/// The reason of a field at the top level of a trace.
fn top_fault(reason: FieldFault, offset: u64) -> TraceFault
    ensures { result ≡ top_fault reason offset }
{
    match reason {
        FieldFault::Group => TraceFault::Group { offset },
        FieldFault::Malformed => TraceFault::BadRecord { offset },
        FieldFault::CutShort => TraceFault::CutShort { offset },
    }
}

/// The reason of a field of a record, which is cut short by the record's end.
fn inner_fault(reason: FieldFault, offset: u64) -> TraceFault
    ensures { result ≡ inner_fault reason offset }
{
    match reason {
        FieldFault::Group => TraceFault::Group { offset },
        FieldFault::Malformed | FieldFault::CutShort => TraceFault::BadRecord { offset },
    }
}

/// The packet whose record has these bytes and this content.
#[tactic(auto, using(crate::proofs::ReadLemmas::packet_is, crate::proofs::ReadLemmas::inner_is, crate::proofs::ReadLemmas::content_within))]
fn packet_at<'a>(at: usize, bytes: &'a [u8], content: &'a [u8]) -> Result<Packet<'a>, TraceFault>
    requires spells { Spells (record_field content.now) bytes.now }
    requires within { at + length bytes.now < 2 ^ 64 }
    ensures packet { IfOk result (λ packet. IsPacketAt at (packet_of packet)) }
    ensures bytes { IfOk result (λ packet. packet.bytes.now ≡ bytes.now) }
    ensures at { IfOk result (λ packet. packet.at ≡ at) }
    ensures shorter { IfOk result (λ packet. length packet.content.now + 2 ≤ length bytes.now) }
    ensures spells { IfOk result (λ packet. Spells (record_field packet.content.now) packet.bytes.now) }
    ensures fault { IfErr result (λ fault. (behind : List ℕ) → HasInnerFault at (bytes.now ++ behind) fault) }
{
    match read_numbers(content) {
        Ok(numbers) => Ok(Packet {
            at: at as u64,
            bytes,
            content,
            sequence: numbers.sequence,
            marked: numbers.mark != 0,
        }),
        Err(stop) => {
            let start = at + (bytes.len() - content.len());
            Err(inner_fault(stop.reason, (start + stop.at) as u64))
        }
    }
}

/// The content of a field of a trace, where it is a packet's record.
#[inline(always)]
fn record_content(number: u64, value: Value<'_>) -> Option<&[u8]>
    ensures found { IfSome result (λ content. record { number = number; value = value_of value.entry } ≡ record_field content.now) }
    ensures other { IfNone result (IsOther (record { number = number; value = value_of value.entry })) }
{
    match value {
        Value::Content(content) => {
            if number == PACKET_FIELD {
                Some(content)
            } else {
                None
            }
        }
        _ => None,
    }
}

/// The first packet from a place on.
#[tactic(auto, using(crate::proofs::ReadLemmas::pass_start, crate::proofs::ReadLemmas::pass_more, crate::proofs::ReadLemmas::next_is, crate::proofs::ReadLemmas::ends_whole, crate::proofs::ReadLemmas::ends_top, crate::proofs::ReadLemmas::ends_inner))]
fn first_packet(bytes: &[u8], from: usize) -> Result<Option<Packet<'_>>, TraceFault>
    requires { from ≤ length bytes.now }
    ensures packet { IfOk result (λ found. IfSome found (λ packet. IsNext from (drop from bytes.now) (packet_of packet))) }
    ensures onward { IfOk result (λ found. IfSome found
        (λ packet. from + length packet.content.now + 2 ≤ packet.at + length packet.bytes.now)) }
    ensures within { IfOk result (λ found. IfSome found (λ packet. packet.at + length packet.bytes.now ≤ length bytes.now)) }
    ensures spells { IfOk result (λ found. IfSome found (λ packet. Spells (record_field packet.content.now) packet.bytes.now)) }
    ensures none { IfOk result (λ found. IfNone found (EndsBehind from (drop from bytes.now) None)) }
    ensures fault { IfErr result (λ fault. EndsBehind from (drop from bytes.now) (Some fault)) }
{
    let mut at = from;
    'fields: while at < bytes.len() {
        match field_at(bytes, at) {
            Err(reason) => return Err(top_fault(reason, at as u64)),
            Ok(field) => {
                let end = at + field.len;
                if let Some(content) = record_content(field.number, field.value) {
                    return match packet_at(at, &bytes[at..end], content) {
                        Ok(packet) => Ok(Some(packet)),
                        Err(fault) => Err(fault),
                    };
                }
                at = end;
            }
        }
    }
    Ok(None)
}

/// Reads the packets of a trace in their order, up to its first fault. Contracts see it as the place
/// where it stands, the bytes that are left, and the fault that it has met.
#[derive(Debug, Drop)]
pub struct TraceReader<'a> {
    bytes: &'a [u8],
    at: usize,
    fault: Option<TraceFault>,
}

impl<'a> Model for TraceReader<'a> {
    ghost use Rattle.std.specs.Prelude.{◌≤◌, length, drop};
    ghost use Rattle.trace_file.specs.Readers.{ReaderView};

    ghost Value = { ReaderView };

    ghost view = { λ reader. record { at = reader.at; rest = drop reader.at reader.bytes.now; fault = reader.fault } };

    ghost invariant = { λ reader. reader.at ≤ length reader.bytes.now };
}

impl<'a> TraceReader<'a> {
    ghost use Rattle.std.specs.Prelude.{◌≡◌, ℕ, ◌<◌, List, [], ◌∷◌, length, Option, Some, None, IfOk, IfErr, IfSome, IfNone};
    ghost use Rattle.trace_file.specs.declared.fault.TraceFault.{TraceFault};
    ghost use Rattle.trace_model.specs.Fields.{Spells};
    ghost use Rattle.trace_file.specs.Readers.{StillReads};
    ghost use Rattle.trace_file.specs.Traces.{record_field, TracePacket};
    ghost use Rattle.trace_file.specs.Values.{packet_of};

    /// A reader at the beginning of a trace.
    pub fn new(bytes: &'a [u8]) -> TraceReader<'a>
        ensures { result ≡ record { at = 0; rest = bytes.now; fault = None } }
    {
        TraceReader {
            bytes,
            at: 0,
            fault: None,
        }
    }

    /// The next packet, if there is one. After a fault it answers that fault.
    pub fn next(&mut self) -> Result<Option<Packet<'a>>, TraceFault>
        // What was left reads as the packet, and then as what is left now.
        ensures packet { IfOk result (λ found. IfSome found (λ packet. (packets : List TracePacket) (ending : Option TraceFault)
            → StillReads self.new packets ending → StillReads self.old (packet_of packet ∷ packets) ending)) }
        ensures shorter { IfOk result (λ found. IfSome found
            (λ packet. length self.new.rest + length packet.content.now + 2 ≤ length self.old.rest)) }
        ensures spells { IfOk result (λ found. IfSome found (λ packet. Spells (record_field packet.content.now) packet.bytes.now)) }

        // None comes where the trace ends, and nothing changes.
        ensures none { IfOk result (λ found. IfNone found (StillReads self.old [] None)) }
        ensures stays { IfOk result (λ found. IfNone found (self.new ≡ self.old)) }

        // The first fault, and from then on the same one.
        ensures fault { IfErr result (λ fault. StillReads self.old [] (Some fault)) }
        ensures kept { IfErr result (λ fault. self.new.fault ≡ Some fault) }
    {
        match self.fault {
            None => {}
            Some(fault) => return Err(fault),
        }
        match first_packet(self.bytes, self.at) {
            Ok(Some(packet)) => {
                self.at = packet.at as usize + packet.bytes.len();
                Ok(Some(packet))
            }
            Ok(None) => Ok(None),
            Err(fault) => {
                self.fault = Some(fault);
                Err(fault)
            }
        }
    }
}
