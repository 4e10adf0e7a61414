//! A line: names with their numbers, each behind a space but the first name.
ghost use Rattle.std.specs.Prelude.{◌≡◌, ◌+◌, ◌<◌, ◌≤◌, ◌++◌, length, codes};
ghost use Rattle.tune_lines.specs.Lines.{field_text};

use arrayvec::ArrayVec;

/// The most bytes of a line.
pub(crate) const LINE_ROOM: usize = 192;

/// The most bytes of a name with the spaces around it.
pub(crate) const NAME_ROOM: usize = 12;

/// Writes a name and its number behind what there is of a line.
pub(crate) fn push_field(line: &mut ArrayVec<u8, LINE_ROOM>, name: &[u8], value: u64)
    requires name { length name.now ≤ NAME_ROOM }
    requires room { length line.old.items + 32 ≤ LINE_ROOM }
    ensures items { line.new.items ≡ line.old.items ++ field_text name.now value }
    ensures room { length line.new.items ≤ length line.old.items + 32 }
{
    let mut digits = itoa::Buffer::new();
    let _ = line.try_extend_from_slice(name);
    let _ = line.try_extend_from_slice(digits.format(value).as_bytes());
}

/// Ends a line.
pub(crate) fn push_end(line: &mut ArrayVec<u8, LINE_ROOM>)
    requires { length line.old.items < LINE_ROOM }
    ensures { line.new.items ≡ line.old.items ++ codes "\n" }
{
    let _ = line.try_extend_from_slice(b"\n");
}
