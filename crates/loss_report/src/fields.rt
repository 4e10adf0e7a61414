//! A line of the report: names with their numbers.
ghost use Rattle.std.specs.Prelude.{◌≡◌, ◌≤◌, ◌++◌, length, map, codes, OnOk, OnErr};
ghost use Rattle.std.specs.List.{All};
ghost use Rattle.byte_io.specs.Bytes.{after_told, CountsFaults, TakesPart};
ghost use Rattle.loss_report.specs.Lines.{entry_text, others_text, line_text};
ghost use Rattle.loss_report.specs.Fields.{entry_of, HasShortName};

use arrayvec::ArrayVec;
use byte_io::put::{WriteFault, put_all};
use byte_io::traits::Sink;

/// The most bytes of a name.
pub(crate) const MAX_NAME: usize = 16;

/// A name, and the number behind it.
#[derive(Clone, Copy, Debug)]
pub(crate) struct Field {
    pub name: &'static [u8],
    pub value: u64,
}

/// Writes a name and its number, with this byte before them or none.
#[tactic(auto, unfolding(crate::specs::Lines::entry_text))]
fn field_bytes(before: &[u8], field: &Field) -> ArrayVec<u8, 40>
    requires name { HasShortName field.now }
    requires before { length before.now ≤ 1 }
    ensures { result.items ≡ before.now ++ entry_text (entry_of field.now) }
{
    let mut digits = itoa::Buffer::new();
    let mut bytes = ArrayVec::new();
    let _ = bytes.try_extend_from_slice(before);
    let _ = bytes.try_extend_from_slice(field.name);
    let _ = bytes.try_extend_from_slice(b" ");
    let _ = bytes.try_extend_from_slice(digits.format(field.value).as_bytes());
    bytes
}

/// Writes the fields behind the first one of a line.
fn put_others<O: Sink>(out: &mut O, others: &[Field]) -> Result<(), WriteFault>
    requires names { All HasShortName others.now }
    requires may { O.may_write out.old }
    ensures all { OnOk result (O.taken out.new ≡ after_told (O.taken out.old) (others_text (map entry_of others.now))) }
    ensures part { OnErr result (TakesPart (O.taken out.old) (O.taken out.new) (others_text (map entry_of others.now))) }
    ensures count { CountsFaults (O.faults out.old) (O.faults out.new) result }
    ensures goes_on { OnOk result (O.may_write out.new) }
{
    for field in others {
        let bytes = field_bytes(b" ", field);
        put_all(out, &bytes)?;
    }
    Ok(())
}

/// Writes a line: its first field, the others with a space before each, and a line feed.
#[tactic(auto, using(byte_io::proofs::Told::part_first, byte_io::proofs::Told::part_second, byte_io::proofs::Told::after_told_again))]
pub(crate) fn put_line<O: Sink>(
    out: &mut O,
    first: &Field,
    others: &[Field],
) -> Result<(), WriteFault>
    requires name { HasShortName first.now }
    requires names { All HasShortName others.now }
    requires may { O.may_write out.old }
    ensures all { OnOk result (O.taken out.new ≡ after_told (O.taken out.old) (line_text (entry_of first.now) (map entry_of others.now))) }
    ensures part { OnErr result (TakesPart (O.taken out.old) (O.taken out.new) (line_text (entry_of first.now) (map entry_of others.now))) }
    ensures count { CountsFaults (O.faults out.old) (O.faults out.new) result }
    ensures goes_on { OnOk result (O.may_write out.new) }
{
    let bytes = field_bytes(b"", first);
    put_all(out, &bytes)?;
    put_others(out, others)?;
    put_all(out, b"\n")
}
