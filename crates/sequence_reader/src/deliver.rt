//! The record of a packet, from the fragments as they lie in the buffer.
ghost use Rattle.std.specs.Prelude.{◌≡◌, ◌≤◌, ◌^◌, OnOk, OnErr};
ghost use Rattle.byte_io.specs.Bytes.{after_told, CountsFaults, TakesPart};
ghost use Rattle.trace_model.specs.Record.{record_of};
ghost use Rattle.trace_model.specs.Walks.{is_accepted};
ghost use Rattle.sequence_reader.specs.Spots.{AreBounds, IsSpot, rows_of, cursor_of};
ghost use Rattle.sequence_reader.specs.Steps.{IsPieceAt, Shows};
ghost use Rattle.sequence_reader.specs.Links.{first_bytes};
ghost use Rattle.sequence_reader.specs.Turns.{IsWholeAt, IsCountable};

use crate::spot::{Bounds, Spot};
use crate::step::{Piece, Step, look_at};
use byte_io::put::WriteFault;
use byte_io::traits::Sink;
use packet_check::AcceptCheck;
use trace_buffer::TraceBuffer;
use trace_file::RecordWriter;

/// Writes the record of the packet that begins at a spot, with this fragment.
pub fn put_packet_at<O: Sink>(
    buffer: &TraceBuffer,
    bounds: Bounds,
    spot: Spot,
    first: Piece<'_>,
    len: u64,
    marked: bool,
    out: &mut O,
) -> Result<(), WriteFault>
    requires bounds { AreBounds buffer.now bounds }
    requires first { IsPieceAt buffer.now bounds spot first }
    requires packet { IsWholeAt (rows_of buffer.now bounds.sequence (cursor_of spot)) len }
    requires few { len ≤ 2 ^ 59 }
    requires may { O.may_write out.old }
    ensures all { OnOk result (O.taken out.new ≡ after_told (O.taken out.old)
        (record_of (first_bytes (rows_of buffer.now bounds.sequence (cursor_of spot))) bounds.sequence marked)) }
    ensures part { OnErr result (TakesPart (O.taken out.old) (O.taken out.new)
        (record_of (first_bytes (rows_of buffer.now bounds.sequence (cursor_of spot))) bounds.sequence marked)) }
    ensures count { CountsFaults (O.faults out.old) (O.faults out.new) result }
    ensures goes_on { OnOk result (O.may_write out.new) }
{
    let mut writer = RecordWriter::start_long(out, len, bounds.sequence, marked)?;
    put_pieces(buffer, bounds, spot, first, &mut writer, out)?;
    writer.end(out)
}

/// Writes the bytes of the packet that begins at a spot.
fn put_pieces<O: Sink>(
    buffer: &TraceBuffer,
    bounds: Bounds,
    spot: Spot,
    first: Piece<'_>,
    writer: &mut RecordWriter,
    out: &mut O,
) -> Result<(), WriteFault>
    requires bounds { AreBounds buffer.now bounds }
    requires first { IsPieceAt buffer.now bounds spot first }
    requires packet { IsWholeAt (rows_of buffer.now bounds.sequence (cursor_of spot)) writer.old.left }
    requires may { O.may_write out.old }
    ensures ended { OnOk result (writer.new ≡ record writer.old { left = 0 }) }
    ensures all { OnOk result (O.taken out.new
        ≡ after_told (O.taken out.old) (first_bytes (rows_of buffer.now bounds.sequence (cursor_of spot)))) }
    ensures part { OnErr result (TakesPart (O.taken out.old) (O.taken out.new)
        (first_bytes (rows_of buffer.now bounds.sequence (cursor_of spot)))) }
    ensures count { CountsFaults (O.faults out.old) (O.faults out.new) result }
    ensures goes_on { OnOk result (O.may_write out.new) }
{
    let mut piece = first;
    loop {
        writer.part(out, piece.bytes)?;
        if !piece.runs_on {
            return Ok(());
        }
        let Step::Fragment { piece: next } = look_behind(buffer, bounds, piece.behind) else {
            unreachable!()
        };
        piece = next;
    }
}

/// Whether the packet check accepts the packet that begins at a spot.
#[tactic(auto, using(crate::proofs::CheckingLemmas::checking_steps))]
pub fn accepts_pieces(buffer: &TraceBuffer, bounds: Bounds, spot: Spot, first: Piece<'_>) -> bool
    requires bounds { AreBounds buffer.now bounds }
    requires first { IsPieceAt buffer.now bounds spot first }
    requires packet { IsCountable (rows_of buffer.now bounds.sequence (cursor_of spot)) }
    ensures { result ≡ is_accepted (first_bytes (rows_of buffer.now bounds.sequence (cursor_of spot))) }
{
    let mut check = AcceptCheck::new();
    let mut piece = first;
    loop {
        check.feed(piece.bytes);
        if !piece.runs_on {
            return check.accepts();
        }
        let Step::Fragment { piece: next } = look_behind(buffer, bounds, piece.behind) else {
            unreachable!()
        };
        piece = next;
    }
}

/// What stands behind a fragment whose packet runs on. It stays a call, since few packets do.
#[inline(never)]
fn look_behind(buffer: &TraceBuffer, bounds: Bounds, spot: Spot) -> Step<'_>
    requires bounds { AreBounds buffer.now bounds }
    requires spot { IsSpot buffer.now bounds spot }
    ensures shows { Shows buffer.now bounds spot result }
{
    look_at(buffer, bounds, spot)
}
