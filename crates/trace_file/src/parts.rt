//! One record, of a packet that comes in pieces.
ghost use Rattle.std.specs.Prelude.{◌≡◌, ◌+◌, ◌-◌, ◌≤◌, [], ◌∷◌, ◌++◌, length, OnOk, OnErr, IfOk};
ghost use Rattle.byte_io.specs.Bytes.{after_told, CountsFaults, TakesPart};
ghost use Rattle.wire_varint.specs.Varint.{varint};
ghost use Rattle.trace_file.specs.Parts.{record_head, record_tail, RecordsAreCut};

use arrayvec::ArrayVec;
use byte_io::put::{WriteFault, put_all};
use byte_io::traits::Sink;
use std::marker::Model;
use wire_varint::push_varint;

/// The tag of field 1 of a trace, a packet, and the tag of field 10 of a packet, its sequence.
pub(crate) const PACKET_TAG: u8 = 0x0A;

pub(crate) const SEQUENCE_TAG: u8 = 0x50;

/// Field 42 of a packet with the value 1: the packet before it is missing.
pub(crate) const DROPPED_MARK: [u8; 3] = [0xD0, 0x02, 0x01];

/// The longest packet of which the length of a record can be written, in bytes.
pub const MAX_BODY: u64 = 1 << 63;

/// A record of which the head is written. It is to be given the packet's bytes, and then ended.
#[derive(Drop)]
pub struct RecordWriter {
    /// How many bytes of the packet are still to be given.
    left: u64,
    sequence: u32,
    marked: bool,
}

impl Model for RecordWriter {
    ghost use Rattle.trace_file.specs.Parts.{Writing};

    ghost Value = { Writing };

    ghost view = { λ writer. record { left = writer.left; sequence = writer.sequence; marked = writer.marked } };
}

/// The record's tag, and the length of its content.
pub(crate) fn head(len: u64) -> ArrayVec<u8, 11>
    ensures { result.items ≡ 0x0A ∷ varint len }
{
    let mut head = ArrayVec::new();
    head.push(PACKET_TAG);
    push_varint(&mut head, len);
    head
}

/// What stands behind the packet's bytes.
#[tactic(auto, using(wire_varint::proofs::Lengths::varint_lengths))]
pub(crate) fn tail(sequence: u32, marked: bool) -> ArrayVec<u8, 14>
    ensures { result.items ≡ record_tail sequence marked }
{
    let mut tail = ArrayVec::new();
    tail.push(SEQUENCE_TAG);
    push_varint(&mut tail, u64::from(sequence));
    if marked {
        let _ = tail.try_extend_from_slice(&DROPPED_MARK);
    }
    tail
}

/// Two bytes as one number has them: they are stored at once, and so are loaded again at once. Of bytes
/// that are stored one by one a load of both has to wait until they are in memory.
fn two(first: u8, second: u8) -> [u8; 2]
    ensures { result ≡ first ∷ second ∷ [] }
{
    u16::from_le_bytes([first, second]).to_le_bytes()
}

/// Writes the head of a record. Most are of two bytes, which go to the sink at once.
#[inline(always)]
fn put_head<O: Sink>(out: &mut O, len: u64) -> Result<(), WriteFault>
    requires { O.may_write out.old }
    ensures all { OnOk result (O.taken out.new ≡ after_told (O.taken out.old) (0x0A ∷ varint len)) }
    ensures part { OnErr result (TakesPart (O.taken out.old) (O.taken out.new) (0x0A ∷ varint len)) }
    ensures count { CountsFaults (O.faults out.old) (O.faults out.new) result }
    ensures goes_on { OnOk result (O.may_write out.new) }
{
    if len < 128 {
        return put_all(out, &two(PACKET_TAG, len as u8));
    }
    put_long_head(out, len)
}

/// The same of any length. It stays a call, since few packets are that long.
#[inline(never)]
fn put_long_head<O: Sink>(out: &mut O, len: u64) -> Result<(), WriteFault>
    requires { O.may_write out.old }
    ensures all { OnOk result (O.taken out.new ≡ after_told (O.taken out.old) (0x0A ∷ varint len)) }
    ensures part { OnErr result (TakesPart (O.taken out.old) (O.taken out.new) (0x0A ∷ varint len)) }
    ensures count { CountsFaults (O.faults out.old) (O.faults out.new) result }
    ensures goes_on { OnOk result (O.may_write out.new) }
{
    put_all(out, &head(len))
}

/// Writes what stands behind a packet's bytes, which mostly are two bytes.
#[inline(always)]
fn put_tail<O: Sink>(out: &mut O, sequence: u32, marked: bool) -> Result<(), WriteFault>
    requires { O.may_write out.old }
    ensures all { OnOk result (O.taken out.new ≡ after_told (O.taken out.old) (record_tail sequence marked)) }
    ensures part { OnErr result (TakesPart (O.taken out.old) (O.taken out.new) (record_tail sequence marked)) }
    ensures count { CountsFaults (O.faults out.old) (O.faults out.new) result }
    ensures goes_on { OnOk result (O.may_write out.new) }
{
    if sequence < 128 && !marked {
        return put_all(out, &two(SEQUENCE_TAG, sequence as u8));
    }
    put_all(out, &tail(sequence, marked))
}

impl RecordWriter {
    /// Begins the record of a packet of `len` bytes. `sequence` is the number of its writer's
    /// sequence, and `marked` says that the service marks it, since the packet before it is missing.
    pub fn start<O: Sink>(
        out: &mut O,
        len: u32,
        sequence: u32,
        marked: bool,
    ) -> Result<RecordWriter, WriteFault>
        requires { O.may_write out.old }
        ensures writer { IfOk result (λ writer. writer ≡ record { left = len; sequence = sequence; marked = marked }) }
        ensures all { OnOk result (O.taken out.new ≡ after_told (O.taken out.old) (record_head len sequence marked)) }
        ensures part { OnErr result (TakesPart (O.taken out.old) (O.taken out.new) (record_head len sequence marked)) }
        ensures count { CountsFaults (O.faults out.old) (O.faults out.new) result }
        ensures goes_on { OnOk result (O.may_write out.new) }
    {
        RecordWriter::start_long(out, u64::from(len), sequence, marked)
    }

    /// The same of a packet of any length that a record can have.
    #[inline(always)]
    pub fn start_long<O: Sink>(
        out: &mut O,
        len: u64,
        sequence: u32,
        marked: bool,
    ) -> Result<RecordWriter, WriteFault>
        requires short { len ≤ MAX_BODY }
        requires may { O.may_write out.old }
        ensures writer { IfOk result (λ writer. writer ≡ record { left = len; sequence = sequence; marked = marked }) }
        ensures all { OnOk result (O.taken out.new ≡ after_told (O.taken out.old) (record_head len sequence marked)) }
        ensures part { OnErr result (TakesPart (O.taken out.old) (O.taken out.new) (record_head len sequence marked)) }
        ensures count { CountsFaults (O.faults out.old) (O.faults out.new) result }
        ensures goes_on { OnOk result (O.may_write out.new) }
    {
        let behind = tail(sequence, marked).len() as u64;
        put_head(out, len + behind)?;
        Ok(RecordWriter {
            left: len,
            sequence,
            marked,
        })
    }

    /// Writes the next bytes of the packet.
    #[inline(always)]
    pub fn part<O: Sink>(&mut self, out: &mut O, piece: &[u8]) -> Result<(), WriteFault>
        requires within { length piece.now ≤ self.old.left }
        requires may { O.may_write out.old }
        ensures left { self.new ≡ record self.old { left = self.old.left - length piece.now } }
        ensures all { OnOk result (O.taken out.new ≡ after_told (O.taken out.old) piece.now) }
        ensures part { OnErr result (TakesPart (O.taken out.old) (O.taken out.new) piece.now) }
        ensures count { CountsFaults (O.faults out.old) (O.faults out.new) result }
        ensures goes_on { OnOk result (O.may_write out.new) }
    {
        self.left -= piece.len() as u64;
        put_all(out, piece)
    }

    /// Ends the record, once all bytes of the packet were given.
    #[inline(always)]
    pub fn end<O: Sink>(self, out: &mut O) -> Result<(), WriteFault>
        requires whole { self.left ≡ 0 }
        requires may { O.may_write out.old }
        ensures all { OnOk result (O.taken out.new ≡ after_told (O.taken out.old) (record_tail self.sequence self.marked)) }
        ensures part { OnErr result (TakesPart (O.taken out.old) (O.taken out.new) (record_tail self.sequence self.marked)) }
        ensures count { CountsFaults (O.faults out.old) (O.faults out.new) result }
        ensures goes_on { OnOk result (O.may_write out.new) }
    {
        put_tail(out, self.sequence, self.marked)
    }
}

/// The three calls write the definition's record, however the packet is cut into pieces.
pub fn records_are_cut()
    ensures { RecordsAreCut }
{}
