//! Printing a summary.
ghost use Rattle.std.specs.Prelude.{◌≡◌, ◌++◌, ◌+◌, ◌≤◌, length, OnOk, OnErr};
ghost use Rattle.byte_io.specs.Bytes.{after_told, CountsFaults, TakesPart};
ghost use Rattle.trace_summary.specs.Counts as counts;

use crate::summary::{Summary, Totals};
use arrayvec::ArrayVec;
use byte_io::put::{WriteFault, put_all};
use byte_io::traits::Sink;

/// A label and a number at the end of a line.
#[tactic(auto, unfolding(crate::specs::Counts::labelled))]
fn push_number(line: &mut ArrayVec<u8, 128>, label: &[u8], number: u64)
    requires { length line.old.items + length label.now + 20 ≤ 128 }
    ensures number { line.new.items ≡ line.old.items ++ counts.labelled label.now number }
    ensures short { length line.new.items ≤ length line.old.items + length label.now + 20 }
{
    let mut digits = itoa::Buffer::new();
    let _ = line.try_extend_from_slice(label);
    let _ = line.try_extend_from_slice(digits.format(number).as_bytes());
}

/// `sequence Q packets N marked N bytes N`, with its line feed.
#[tactic(auto, unfolding(crate::specs::Counts::sequence_line))]
fn sequence_line(sequence: u64, totals: Totals) -> ArrayVec<u8, 128>
    ensures { result.items ≡ counts.sequence_line sequence totals }
{
    let mut line = ArrayVec::new();
    push_number(&mut line, b"sequence ", sequence);
    push_number(&mut line, b" packets ", totals.packets);
    push_number(&mut line, b" marked ", totals.marked);
    push_number(&mut line, b" bytes ", totals.bytes);
    let _ = line.try_extend_from_slice(b"\n");
    line
}

/// `packets N bytes N`, with its line feed.
#[tactic(auto, unfolding(crate::specs::Counts::last_line))]
fn last_line(packets: u64, bytes: u64) -> ArrayVec<u8, 128>
    ensures { result.items ≡ counts.last_line packets bytes }
{
    let mut line = ArrayVec::new();
    push_number(&mut line, b"packets ", packets);
    push_number(&mut line, b" bytes ", bytes);
    let _ = line.try_extend_from_slice(b"\n");
    line
}

/// Writes the lines of a summary: those of its sequences in rising order, and then the one of all.
#[tactic(auto, using(crate::proofs::LineLemmas::lines_start, crate::proofs::LineLemmas::lines_more, crate::proofs::LineLemmas::lines_part, crate::proofs::LineLemmas::lines_end, crate::proofs::LineLemmas::lines_last))]
pub fn put_summary<O: Sink>(out: &mut O, summary: &Summary) -> Result<(), WriteFault>
    requires { O.may_write out.old }
    ensures all { OnOk result (O.taken out.new ≡ after_told (O.taken out.old) (counts.summary_text summary.now)) }
    ensures part { OnErr result (TakesPart (O.taken out.old) (O.taken out.new) (counts.summary_text summary.now)) }
    ensures count { CountsFaults (O.faults out.old) (O.faults out.new) result }
    ensures goes_on { OnOk result (O.may_write out.new) }
{
    'lines: for (sequence, totals) in &summary.sequences {
        match put_all(out, &sequence_line(*sequence, *totals)) {
            Ok(()) => {}
            Err(WriteFault) => return Err(WriteFault),
        }
    }
    put_all(out, &last_line(summary.packets, summary.bytes))
}
