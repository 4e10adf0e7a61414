//! The lines of a scenario, of which a large one has millions: the nodes of all stand behind one
//! another in one list of bytes, so that memory isn't taken anew for each line.
ghost use Rattle.std.specs.Prelude.{◌≡◌, ℕ, ◌==◌, true, false, List, ◌∷◌, ◌++◌, [], length, IfSome, IfNone, OnOk, OnErr};
ghost use Rattle.scenario_text.specs.KeptLines as kept;
ghost use Rattle.scenario_text.specs.KeptLines.{kind_of, lines_of, AreLaid, HasOwn};
ghost use Rattle.scenario_text.specs.declared.scenario.LineKind.TheVariants as kinds;
ghost use Rattle.scenario_text.specs.Accepted.{is_of, own_kinds, PassesOver};
ghost use Rattle.scenario_text.specs.declared.scenario.NumberedLine.{NumberedLine};

use crate::own_lines::LinesByWriter;
use crate::raw_chunk::RawChunk;
use crate::scenario::{LineKind, NumberedLine};
use field_tree::Fields;
use std::alloc::{AllocError, Global};
use std::marker::Model;

/// The halves of a limit are counts of this many and of one.
const HALF: u64 = 1 << 32;

/// What a line has done, where its nodes or its text are the next `len` bytes. A limit stands there in halves, so
/// that no head is larger for it.
#[derive(Clone, Copy)]
pub(crate) enum KeptKind {
    Packet { writer: u16, len: u32 },
    Begin { writer: u16 },
    Add { writer: u16, len: u32 },
    Nest { writer: u16, field: u32 },
    Unnest { writer: u16 },
    End { writer: u16 },
    Flush { writer: u16 },
    Collect { producer: u16 },
    Scrape { producer: u16 },
    Close { producer: u16 },
    Read { buffer: u8, high: u32, low: u32 },
    Request,
    CloneBuffer { buffer: u8 },
    Raw { writer: u16, len: u32 },
}

#[derive(Clone, Copy)]
pub(crate) struct KeptLine {
    pub line: u32,
    pub what: KeptKind,
}

/// How many bytes are the line's own.
pub(crate) fn own_len(what: KeptKind) -> usize
    ensures { result ≡ kept.own_len what }
{
    match what {
        KeptKind::Packet { writer: _, len } => len as usize,
        KeptKind::Add { writer: _, len } => len as usize,
        KeptKind::Raw { writer: _, len } => len as usize,
        _ => 0,
    }
}

/// Whether the line is one of the writer with this number.
fn is_of(number: u16, what: KeptKind) -> bool
    ensures { (own : List ℕ) → result ≡ is_of number (kind_of what own) }
{
    match what {
        KeptKind::Packet { writer, len: _ }
        | KeptKind::Begin { writer }
        | KeptKind::Add { writer, len: _ }
        | KeptKind::Nest { writer, field: _ }
        | KeptKind::Unnest { writer }
        | KeptKind::End { writer }
        | KeptKind::Flush { writer } => number == writer,
        _ => false,
    }
}

/// A line that is kept, and the bytes that are its own.
#[derive(Clone, Copy)]
struct Parted<'c> {
    what: KeptKind,
    own: &'c [u8],
}

/// A line, to be kept. One with more bytes of its own than can be counted isn't.
fn part_line<'c>(what: &LineKind<'c>) -> Option<Parted<'c>>
    ensures kind { IfSome result (λ parted. kind_of parted.what parted.own.now ≡ what.now) }
    ensures own { IfSome result (λ parted. HasOwn parted.what parted.own.now) }
    ensures len { IfSome result (λ parted. kept.own_len parted.what ≡ length parted.own.now) }
{
    let own = match what {
        LineKind::Packet { writer: _, fields } => fields.code(),
        LineKind::Add { writer: _, fields } => fields.code(),
        LineKind::Raw { writer: _, chunk } => chunk.line(),
        _ => &[],
    };
    let len = u32::try_from(own.len()).ok()?;
    let what = match *what {
        LineKind::Packet { writer, fields: _ } => KeptKind::Packet { writer, len },
        LineKind::Begin { writer } => KeptKind::Begin { writer },
        LineKind::Add { writer, fields: _ } => KeptKind::Add { writer, len },
        LineKind::Nest { writer, field } => KeptKind::Nest { writer, field },
        LineKind::Unnest { writer } => KeptKind::Unnest { writer },
        LineKind::End { writer } => KeptKind::End { writer },
        LineKind::Flush { writer } => KeptKind::Flush { writer },
        LineKind::Collect { producer } => KeptKind::Collect { producer },
        LineKind::Scrape { producer } => KeptKind::Scrape { producer },
        LineKind::Close { producer } => KeptKind::Close { producer },
        LineKind::Read { buffer, limit } => KeptKind::Read {
            buffer,
            high: (limit / HALF) as u32,
            low: (limit % HALF) as u32,
        },
        LineKind::Request => KeptKind::Request,
        LineKind::CloneBuffer { buffer } => KeptKind::CloneBuffer { buffer },
        LineKind::Raw { writer, chunk: _ } => KeptKind::Raw { writer, len },
    };
    Some(Parted { what, own })
}

/// What a line that is kept has done, with the bytes that are its own.
fn join_line(what: KeptKind, own: &[u8]) -> LineKind<'_>
    requires { HasOwn what own.now }
    ensures { result ≡ kind_of what own.now }
{
    match what {
        KeptKind::Packet { writer, len: _ } => LineKind::Packet {
            writer,
            fields: Fields::new(own),
        },
        KeptKind::Begin { writer } => LineKind::Begin { writer },
        KeptKind::Add { writer, len: _ } => LineKind::Add {
            writer,
            fields: Fields::new(own),
        },
        KeptKind::Nest { writer, field } => LineKind::Nest { writer, field },
        KeptKind::Unnest { writer } => LineKind::Unnest { writer },
        KeptKind::End { writer } => LineKind::End { writer },
        KeptKind::Flush { writer } => LineKind::Flush { writer },
        KeptKind::Collect { producer } => LineKind::Collect { producer },
        KeptKind::Scrape { producer } => LineKind::Scrape { producer },
        KeptKind::Close { producer } => LineKind::Close { producer },
        KeptKind::Read { buffer, high, low } => LineKind::Read {
            buffer,
            limit: u64::from(high) * HALF + u64::from(low),
        },
        KeptKind::Request => LineKind::Request,
        KeptKind::CloneBuffer { buffer } => LineKind::CloneBuffer { buffer },
        KeptKind::Raw { writer, len: _ } => LineKind::Raw {
            writer,
            chunk: RawChunk::new(own),
        },
    }
}

/// Lines, one after another. Contracts see the list of them.
#[derive(Drop)]
pub struct LineList {
    heads: Vec<KeptLine>,
    code: Vec<u8>,
}

impl Model for LineList {
    ghost use Rattle.std.specs.Prelude.{List};
    ghost use Rattle.scenario_text.specs.declared.scenario.NumberedLine.{NumberedLine};
    ghost use Rattle.scenario_text.specs.KeptLines.{lines_of, AreLaid};

    ghost Value = { List NumberedLine };

    ghost view = { λ list. lines_of list.heads.items list.code.items };

    ghost invariant = { λ list. AreLaid list.heads.items list.code.items };
}

impl LineList {
    pub fn new(alloc: Global) -> Self
        ensures { result ≡ [] }
    {
        LineList {
            heads: Vec::new(alloc),
            code: Vec::new(alloc),
        }
    }

    #[tactic(auto, using(crate::proofs::KeptLemmas::as_many))]
    pub fn len(&self) -> usize
        ensures { result ≡ length self.now }
    {
        self.heads.len()
    }

    #[tactic(auto, using(crate::proofs::KeptLemmas::as_many))]
    pub fn is_empty(&self) -> bool
        ensures { result ≡ (length self.now == 0) }
    {
        self.heads.is_empty()
    }

    /// Adds a line behind the others, with the bytes that are its own.
    #[inline(always)]
    fn push_head(&mut self, head: KeptLine, own: &[u8]) -> Result<(), AllocError>
        requires own { HasOwn head.what own.now }
        requires len { kept.own_len head.what ≡ length own.now }
        ensures pushed { OnOk result (self.new ≡ self.old ++ (record { line = head.line; what = kind_of head.what own.now }) ∷ []) }
        ensures kept { OnErr result (self.new ≡ self.old) }
    {
        let len = self.heads.len();
        self.heads.push(head)?;
        match self.code.extend_from_slice(own) {
            Ok(()) => Ok(()),
            Err(_) => {
                self.heads.truncate(len);
                Err(AllocError)
            }
        }
    }

    /// Adds a line behind the others. Where memory runs out, there is none more.
    pub fn push(&mut self, line: u32, what: LineKind<'_>) -> Result<(), AllocError>
        ensures pushed { OnOk result (self.new ≡ self.old ++ (record { line = line; what = what.entry }) ∷ []) }
        ensures kept { OnErr result (self.new ≡ self.old) }
    {
        let Some(Parted { what, own }) = part_line(&what) else {
            return Err(AllocError);
        };
        self.push_head(KeptLine { line, what }, own)
    }

    /// The same for the line of a whole packet, as most lines are.
    #[inline(always)]
    pub(crate) fn push_packet(
        &mut self,
        line: u32,
        writer: u16,
        fields: Fields<'_>,
    ) -> Result<(), AllocError>
        ensures pushed { OnOk result (self.new ≡ self.old ++ (record { line = line; what = kinds.Packet writer fields.entry }) ∷ []) }
        ensures kept { OnErr result (self.new ≡ self.old) }
    {
        let own = fields.code();
        let Ok(len) = u32::try_from(own.len()) else {
            return Err(AllocError);
        };
        let what = KeptKind::Packet { writer, len };
        self.push_head(KeptLine { line, what }, own)
    }

    /// The lines by their writers, of which there are so many. Where memory runs out, each writer's stand
    /// among all lines.
    pub fn by_writers(&self, alloc: Global, writers: u16) -> LinesByWriter<'_>
        ensures { result ≡ self.now }
    {
        LinesByWriter::new(alloc, &self.heads, &self.code, writers)
    }

    /// The lines, one after another.
    pub fn walk(&self) -> LineWalk<'_>
        ensures { result ≡ self.now }
    {
        LineWalk {
            heads: &self.heads,
            code: &self.code,
        }
    }
}

/// The lines that are still to come. Contracts see the list of them.
#[derive(Drop)]
pub struct LineWalk<'c> {
    heads: &'c [KeptLine],
    code: &'c [u8],
}

impl<'c> Model for LineWalk<'c> {
    ghost use Rattle.std.specs.Prelude.{List};
    ghost use Rattle.scenario_text.specs.declared.scenario.NumberedLine.{NumberedLine};
    ghost use Rattle.scenario_text.specs.KeptLines.{lines_of, AreLaid};

    ghost Value = { List NumberedLine };

    ghost view = { λ walk. lines_of walk.heads.now walk.code.now };

    ghost invariant = { λ walk. AreLaid walk.heads.now walk.code.now };
}

impl<'c> LineWalk<'c> {
    /// The lines of these heads, whose bytes these are.
    pub(crate) fn over(heads: &'c [KeptLine], code: &'c [u8]) -> LineWalk<'c>
        requires { AreLaid heads.now code.now }
        ensures { result ≡ lines_of heads.now code.now }
    {
        LineWalk { heads, code }
    }

    /// The next line.
    pub fn next(&mut self) -> Option<NumberedLine<'c>>
        ensures first { IfSome result (λ line. self.old ≡ line ∷ self.new) }
        ensures none { IfNone result ((self.old ≡ []) × (self.new ≡ [])) }
    {
        let [head, heads @ ..] = self.heads else {
            return None;
        };
        let (own, code) = self.code.split_at(own_len(head.what));
        self.heads = heads;
        self.code = code;
        Some(NumberedLine {
            line: head.line,
            what: join_line(head.what, own),
        })
    }

    /// Passes over the next line where there is one, and it isn't one of the writer with this number. Little
    /// is done for it: where each writer has a thread, all lines are walked once for each.
    #[inline(always)]
    fn pass_other(&mut self, number: u16) -> bool
        ensures passed { result ≡ true → (line : NumberedLine) × (self.old ≡ line ∷ self.new) × (is_of number line.what ≡ false) }
        ensures stays { result ≡ false → self.new ≡ self.old }
        ensures own { result ≡ false → (line : NumberedLine) (behind : List NumberedLine) → self.old ≡ line ∷ behind
            → is_of number line.what ≡ true }
    {
        let [head, heads @ ..] = self.heads else {
            return false;
        };
        if is_of(number, head.what) {
            return false;
        }
        let (_own, code) = self.code.split_at(own_len(head.what));
        self.heads = heads;
        self.code = code;
        true
    }

    /// The next line of the writer with this number. The lines in front of it are passed over.
    pub fn next_of(&mut self, number: u16) -> Option<NumberedLine<'c>>
        ensures found { IfSome result (λ line. (is_of number line.what ≡ true) × PassesOver number self.old (line ∷ self.new)) }
        ensures none { IfNone result (PassesOver number self.old [] × (self.new ≡ [])) }
    {
        while self.pass_other(number) {}
        self.next()
    }

    /// What that line has done. The lines in front of it are passed over.
    pub(crate) fn next_kind_of(&mut self, number: u16) -> Option<LineKind<'c>>
        ensures first { IfSome result (λ kind. own_kinds number self.old ≡ kind ∷ own_kinds number self.new) }
        ensures none { IfNone result ((own_kinds number self.old ≡ []) × (own_kinds number self.new ≡ [])) }
    {
        match self.next_of(number) {
            Some(line) => Some(line.what),
            None => None,
        }
    }
}
