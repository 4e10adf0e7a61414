//! The lines of each writer by themselves. Where each writer has a thread, none looks at the lines of
//! the others, as long as it writes whole packets alone, as most do.
ghost use Rattle.std.specs.Prelude.{◌≡◌, ℕ, ◌+◌, ◌==◌, false, ◌∷◌, [], IfSome, IfNone, IfOk, OnOk};
ghost use Rattle.scenario_text.specs.declared.line_list.KeptKind.TheVariants as kinds;
ghost use Rattle.scenario_text.specs.KeptLines as kept;
ghost use Rattle.scenario_text.specs.KeptLines.{lines_of, AreLaid};
ghost use Rattle.scenario_text.specs.Accepted.{is_of, own_kinds};
ghost use Rattle.scenario_text.specs.OwnLines.{AreEmpty, AreNoted, IsWholeRow, NotesLine};

use crate::line_list::{KeptKind, KeptLine, LineWalk, own_len};
use crate::scenario::LineKind;
use field_tree::Fields;
use std::alloc::{AllocError, Global};
use std::marker::Model;

/// Where the bytes of a line stand among those of all: so many, behind so many others.
#[derive(Clone, Copy)]
pub(crate) struct Span {
    bytes: u32,
    len: u32,
}

/// The packets of a writer, and whether these are all that it has.
#[derive(Drop)]
pub(crate) struct Row {
    spans: Vec<Span>,
    whole: bool,
}

/// How many bytes are in front of the next line, where they can be counted.
#[inline(always)]
fn bytes_behind(bytes: u32, what: KeptKind) -> Option<u32>
    ensures { IfSome result (λ behind. behind ≡ bytes + kept.own_len what) }
{
    bytes.checked_add(u32::try_from(own_len(what)).ok()?)
}

/// Notes a packet of the writer with this number.
#[inline(always)]
fn note_packet(rows: &mut Vec<Row>, writer: u16, bytes: u32, len: u32) -> Result<(), AllocError>
    ensures { OnOk result (NotesLine (kinds.Packet writer len) bytes rows.old.items rows.new.items) }
{
    let index = usize::from(writer);
    if index < rows.len() {
        rows[index].spans.push(Span { bytes, len })?;
    }
    Ok(())
}

/// The number of the writer of a line, where it is one of a writer.
fn writer_of(what: KeptKind) -> Option<u16>
    ensures some { IfSome result (λ writer. (number : ℕ) → is_of number (kept.kind_of what []) ≡ (number == writer)) }
    ensures none { IfNone result ((number : ℕ) → is_of number (kept.kind_of what []) ≡ false) }
{
    match what {
        KeptKind::Packet { writer, len: _ }
        | KeptKind::Begin { writer }
        | KeptKind::Add { writer, len: _ }
        | KeptKind::Nest { writer, field: _ }
        | KeptKind::Unnest { writer }
        | KeptKind::End { writer }
        | KeptKind::Flush { writer } => Some(writer),
        _ => None,
    }
}

/// Notes that the writer of a line has others than whole packets.
fn note_other(rows: &mut Vec<Row>, what: KeptKind)
    ensures { (bytes : ℕ) → NotesLine what bytes rows.old.items rows.new.items }
{
    let Some(writer) = writer_of(what) else {
        return;
    };
    let index = usize::from(writer);
    if index < rows.len() {
        rows[index].whole = false;
    }
}

/// Notes a line.
#[inline(always)]
fn note_line(rows: &mut Vec<Row>, what: KeptKind, bytes: u32) -> Result<(), AllocError>
    ensures { OnOk result (NotesLine what bytes rows.old.items rows.new.items) }
{
    match what {
        KeptKind::Packet { writer, len } => note_packet(rows, writer, bytes, len),
        _ => {
            note_other(rows, what);
            Ok(())
        }
    }
}

/// The spans of the row with this number, where it has all lines of its writer.
fn whole_row(rows: &[Row], number: u16) -> Option<&[Span]>
    ensures { IfSome result (λ spans. IsWholeRow rows.now number spans.now) }
{
    let index = usize::from(number);
    if index < rows.len() {
        let row = &rows[index];
        if row.whole {
            return Some(&row.spans);
        }
    }
    None
}

/// Notes all lines.
fn note_lines(rows: &mut Vec<Row>, heads: &[KeptLine]) -> Result<(), AllocError>
    requires { AreEmpty rows.old.items }
    ensures { OnOk result ((bytes : ℕ) × AreNoted heads.now [] bytes rows.new.items) }
{
    let mut bytes: u32 = 0;
    'lines: for head in heads {
        note_line(rows, head.what, bytes)?;
        let Some(behind) = bytes_behind(bytes, head.what) else {
            return Err(AllocError);
        };
        bytes = behind;
    }
    Ok(())
}

/// Rows for so many writers, and for the number 0, which is nobody's.
fn empty_rows(alloc: Global, writers: u16) -> Result<Vec<Row>, AllocError>
    ensures { IfOk result (λ rows. AreEmpty rows.items) }
{
    let mut rows = Vec::new(alloc);
    for _ in 0..usize::from(writers) + 1 {
        rows.push(Row {
            spans: Vec::new(alloc),
            whole: true,
        })?;
    }
    Ok(rows)
}

/// The rows of the lines of so many writers.
fn rows_of(alloc: Global, heads: &[KeptLine], writers: u16) -> Result<Vec<Row>, AllocError>
    ensures { IfOk result (λ rows. (bytes : ℕ) × AreNoted heads.now [] bytes rows.items) }
{
    let mut rows = empty_rows(alloc, writers)?;
    note_lines(&mut rows, heads)?;
    Ok(rows)
}

/// The lines of a list, and where those of each writer stand. Contracts see the list of all.
#[derive(Drop)]
pub struct LinesByWriter<'c> {
    heads: &'c [KeptLine],
    code: &'c [u8],
    /// By the writers' numbers. One that isn't there looks for its lines among all.
    rows: Vec<Row>,
}

impl<'c> Model for LinesByWriter<'c> {
    ghost use Rattle.std.specs.Prelude.{List};
    ghost use Rattle.scenario_text.specs.declared.scenario.NumberedLine.{NumberedLine};
    ghost use Rattle.scenario_text.specs.KeptLines.{lines_of, AreLaid};
    ghost use Rattle.scenario_text.specs.OwnLines.{AreRows};

    ghost Value = { List NumberedLine };

    ghost view = { λ lines. lines_of lines.heads.now lines.code.now };

    ghost invariant = { λ lines. AreLaid lines.heads.now lines.code.now × AreRows lines.heads.now lines.code.now lines.rows.items };
}

impl<'c> LinesByWriter<'c> {
    pub(crate) fn new(
        alloc: Global,
        heads: &'c [KeptLine],
        code: &'c [u8],
        writers: u16,
    ) -> LinesByWriter<'c>
        requires { AreLaid heads.now code.now }
        ensures { result ≡ lines_of heads.now code.now }
    {
        match rows_of(alloc, heads, writers) {
            Ok(rows) => LinesByWriter { heads, code, rows },
            Err(_) => LinesByWriter {
                heads,
                code,
                rows: Vec::new(alloc),
            },
        }
    }

    /// The packets of the writer with this number, where that is all that it has.
    fn packets_of(&self, number: u16) -> Option<PacketWalk<'_>>
        ensures { IfSome result (λ own. own ≡ own_kinds number self.now) }
    {
        let Some(spans) = whole_row(&self.rows, number) else {
            return None;
        };
        Some(PacketWalk {
            number,
            code: self.code,
            spans,
        })
    }

    /// What the lines of the writer with this number have done, one after another.
    pub fn walk_of(&self, number: u16) -> OwnWalk<'_>
        ensures { result ≡ own_kinds number self.now }
    {
        OwnWalk {
            number,
            all: LineWalk::over(self.heads, self.code),
            packets: self.packets_of(number),
        }
    }
}

/// The packets of a writer that are still to come. Contracts see the list of them.
#[derive(Drop)]
struct PacketWalk<'c> {
    number: u16,
    code: &'c [u8],
    spans: &'c [Span],
}

impl<'c> Model for PacketWalk<'c> {
    ghost use Rattle.std.specs.Prelude.{All, List};
    ghost use Rattle.scenario_text.specs.declared.scenario.LineKind.{LineKind};
    ghost use Rattle.scenario_text.specs.OwnLines.{packets_at, IsSpan};

    ghost Value = { List LineKind };

    ghost view = { λ walk. packets_at walk.number walk.code.now walk.spans.now };

    ghost invariant = { λ walk. All (IsSpan walk.code.now) walk.spans.now };
}

impl<'c> PacketWalk<'c> {
    /// The next packet.
    #[inline(always)]
    fn next(&mut self) -> Option<LineKind<'c>>
        ensures first { IfSome result (λ kind. self.old ≡ kind ∷ self.new) }
        ensures none { IfNone result ((self.old ≡ []) × (self.new ≡ [])) }
    {
        let [span, spans @ ..] = self.spans else {
            return None;
        };
        self.spans = spans;
        let (_before, behind) = self.code.split_at(span.bytes as usize);
        let (own, _other) = behind.split_at(span.len as usize);
        Some(LineKind::Packet {
            writer: self.number,
            fields: Fields::new(own),
        })
    }
}

/// What the lines of a writer have done that are still to come. Contracts see the list of that.
#[derive(Drop)]
pub struct OwnWalk<'c> {
    number: u16,
    all: LineWalk<'c>,
    packets: Option<PacketWalk<'c>>,
}

impl<'c> Model for OwnWalk<'c> {
    ghost use Rattle.std.specs.Prelude.{List, ⊤};
    ghost use Rattle.scenario_text.specs.declared.scenario.LineKind.{LineKind};
    ghost use Rattle.scenario_text.specs.OwnLines.{own_left};

    ghost Value = { List LineKind };

    ghost view = { λ walk. own_left walk.number walk.all walk.packets };

    ghost invariant = { λ _. ⊤ };
}

impl<'c> OwnWalk<'c> {
    /// What the next line has done.
    pub fn next(&mut self) -> Option<LineKind<'c>>
        ensures first { IfSome result (λ kind. self.old ≡ kind ∷ self.new) }
        ensures none { IfNone result ((self.old ≡ []) × (self.new ≡ [])) }
    {
        match &mut self.packets {
            Some(packets) => packets.next(),
            None => self.all.next_kind_of(self.number),
        }
    }
}
