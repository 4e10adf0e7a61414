//! Reading a text without recursion: what is read whole at once, and all else byte by byte.
ghost use Rattle.std.specs.Prelude.{◌≡◌, ℕ, ◌+◌, ◌-◌, ◌/◌, ◌<◌, ◌≤◌, vec_len, vec_capacity, ◌==◌, ◌||◌, length, IfOk, OnOk, Some, false};
ghost use Rattle.field_tree.specs.Machine.{IsValid, IsBetween, settled, before_byte, applied, next, finish, nodes_or_column, beginning};
ghost use Rattle.field_tree.specs.declared.mode.Mode.TheVariants.{Pairs};
ghost use Rattle.field_tree.specs.Scanning.{RunsOver, ReadsPairs};
ghost use Rattle.field_tree.specs.Views.{reading, text_read, AddsByte, AddsText, Takes, Keeps, Ends, GivesNodes, nodes_read};
ghost use Rattle.field_tree.specs.Surveys.{IsSurvey};

use crate::act::{act, may_end, taken_back};
use crate::adding::NUMBERS_ROOM;
use crate::fault::{FieldError, FieldFault};
use crate::mode::{Action, Mode};
use crate::scan::{first_byte, first_four_pairs, first_pair};
use crate::survey::Survey;
use std::alloc::{AllocError, Global};
use std::mem;
use trace_base::limits::MAX_INPUT;

/// Room for what most packets are written in is taken at once, and so is room for a text with its
/// first byte.
const FIRST_CODE: usize = 256;

const FIRST_BYTES: usize = 64;

/// What was read so far of a text: the nodes as they are written, how many messages are open behind
/// them, what is found of them, and the text that is being read.
#[derive(Drop)]
pub(crate) struct Parser {
    pub code: Vec<u8>,
    pub depth: usize,
    pub found: Survey,
    pub text: Vec<u8>,
}

/// Whether a field ends before this byte.
#[inline(always)]
fn ends_field(byte: u8) -> bool
    ensures { result ≡ (byte == 32 || byte == 125) }
{
    byte == b' ' || byte == b'}'
}

/// Takes room for some bytes where there is none yet.
#[inline(always)]
fn make_room(bytes: &mut Vec<u8>) -> Result<(), AllocError>
    ensures { OnOk result (bytes.new.items ≡ bytes.old.items) }
{
    if bytes.is_empty() {
        bytes.reserve(FIRST_BYTES)?;
    }
    Ok(())
}

/// Appends what the digits in front say, four bytes at a time while so many pairs stand there, and
/// answers what stands behind these. There is room for all pairs that may stand there.
#[inline(always)]
fn take_four_pairs<'t>(text: &mut Vec<u8>, bytes: &'t [u8]) -> &'t [u8]
    requires { vec_len text.old + length bytes.now / 2 ≤ vec_capacity text.old }
    ensures taken { ReadsPairs text.old.items bytes.now text.new.items result.now }
    ensures room { vec_len text.new + length result.now / 2 ≤ vec_capacity text.new }
{
    let mut rest = bytes;
    'pairs: while let Some(four) = first_four_pairs(rest) {
        text.push_reserved(four.first);
        text.push_reserved(four.second);
        text.push_reserved(four.third);
        text.push_reserved(four.fourth);
        rest = four.behind;
    }
    rest
}

/// Appends what the digits in front say, a byte at a time, and answers what stands behind them. There is
/// room for all pairs that may stand there.
#[inline(always)]
fn take_pairs<'t>(text: &mut Vec<u8>, bytes: &'t [u8]) -> &'t [u8]
    requires { vec_len text.old + length bytes.now / 2 ≤ vec_capacity text.old }
    ensures { ReadsPairs text.old.items bytes.now text.new.items result.now }
{
    let mut rest = bytes;
    'pairs: while let Some((byte, behind)) = first_pair(rest) {
        text.push_reserved(byte);
        rest = behind;
    }
    rest
}

impl Parser {
    pub fn new(alloc: Global) -> Self
        ensures { Keeps result }
    {
        Parser {
            code: Vec::new(alloc),
            depth: 0,
            found: Survey::new(),
            text: Vec::new(alloc),
        }
    }

    /// Takes room for the nodes of a text of this length, which mostly are written in no more bytes
    /// than it has, where none is taken yet.
    pub fn make_code_room(&mut self, len: usize) -> Result<(), AllocError>
        ensures { self.new.code.items ≡ self.old.code.items }
    {
        if self.code.capacity() == 0 {
            self.code.reserve_exact(len.min(FIRST_CODE) + NUMBERS_ROOM)?;
        }
        Ok(())
    }

    /// Begins a text. What memory the texts before took is kept.
    #[tactic(auto, unfolding(crate::specs::Machine::beginning))]
    fn start(&mut self)
        ensures reading { reading self.new (Mode.Start false) ≡ beginning }
        ensures kept { Keeps self.new }
    {
        self.code.clear();
        self.depth = 0;
        self.found = Survey::new();
        self.text.clear();
    }

    /// Adds a byte to the text that is being read.
    #[inline(always)]
    fn push_byte(&mut self, byte: u8) -> Result<(), AllocError>
        requires { Keeps self.old }
        ensures pushed { OnOk result (AddsByte byte self.old self.new) }
        ensures kept { OnOk result (Keeps self.new) }
    {
        make_room(&mut self.text)?;
        self.text.push(byte)?;
        Ok(())
    }

    /// Adds some bytes to it.
    #[inline(always)]
    pub fn push_bytes(&mut self, text: &[u8]) -> Result<(), AllocError>
        requires { Keeps self.old }
        ensures pushed { OnOk result (AddsText text.now self.old self.new) }
        ensures kept { OnOk result (Keeps self.new) }
    {
        if text.is_empty() {
            return Ok(());
        }
        make_room(&mut self.text)?;
        self.text.extend_from_slice(text)
    }

    /// Reads on over pairs of hexadecimal digits, and answers the bytes behind them. Room is taken once
    /// for all pairs that may stand there.
    pub fn scan_pairs<'t>(&mut self, bytes: &'t [u8]) -> Result<&'t [u8], AllocError>
        requires { Keeps self.old }
        ensures over { (field : ℕ) → IfOk result (λ behind. RunsOver (reading self.old (Pairs field)) bytes.now
            (reading self.new (Pairs field)) behind.now) }
        ensures depth { OnOk result (self.new.depth ≡ self.old.depth) }
        ensures kept { OnOk result (Keeps self.new) }
    {
        let none = Vec::new(*self.text.allocator());
        let mut text = mem::replace(&mut self.text, none);
        text.reserve(bytes.len() / 2)?;
        let rest = take_four_pairs(&mut text, bytes);
        let left = take_pairs(&mut text, rest);
        self.text = text;
        Ok(left)
    }

    /// Ends the field that may end here, if one may.
    #[tactic(auto, unfolding(crate::specs::Machine::settled, crate::specs::Judged::level))]
    #[inline(always)]
    fn settle(&mut self, mode: &mut Mode) -> Result<(), AllocError>
        requires kept { Keeps self.old }
        requires valid { IsValid mode.old (text_read self.old) }
        requires depth { self.old.depth < usize.MAX }
        ensures valid { OnOk result (IsValid mode.new (text_read self.new)) }
        ensures settled { OnOk result (reading self.new mode.new ≡ settled (reading self.old mode.old)) }
        ensures kept { OnOk result (Keeps self.new) }
    {
        match *mode {
            Mode::Zero { field } => self.push_number(field, 0)?,
            Mode::Digits { field, value } => self.push_number(field, value)?,
            Mode::Quoted { field } => self.push_once(field)?,
            Mode::Packed { field } => self.push_once(field)?,
            Mode::Times { field, times } => self.push_times(field, times)?,
            _ => return Ok(()),
        }
        *mode = Mode::After;
        Ok(())
    }

    /// Does what is to be done at a byte, and answers whether the byte is taken.
    #[tactic(auto, unfolding(crate::specs::Machine::applied, crate::specs::Judged::level))]
    #[inline(always)]
    fn perform(&mut self, mode: &mut Mode, action: Action) -> Result<bool, AllocError>
        requires kept { Keeps self.old }
        requires between { IsBetween action (text_read self.old) }
        requires depth { self.old.depth < usize.MAX }
        ensures taken { IfOk result (λ taken. Takes taken (applied action (reading self.old mode.old)) (reading self.new mode.new)) }
        ensures kept { OnOk result (Keeps self.new) }
    {
        match action {
            Action::Refuse => return Ok(false),
            Action::Go(next) => *mode = next,
            Action::Keep(next, byte) => {
                self.push_byte(byte)?;
                *mode = next;
            }
            Action::Open(field) => {
                self.push_begin(field)?;
                *mode = Mode::Start { opened: true };
            }
            Action::Close => {
                self.push_end()?;
                *mode = Mode::After;
            }
        }
        Ok(true)
    }

    #[inline(always)]
    fn before(&mut self, mode: &mut Mode, byte: u8) -> Result<(), AllocError>
        requires kept { Keeps self.old }
        requires valid { IsValid mode.old (text_read self.old) }
        requires depth { self.old.depth < usize.MAX }
        ensures valid { OnOk result (IsValid mode.new (text_read self.new)) }
        ensures before { OnOk result (reading self.new mode.new ≡ before_byte byte (reading self.old mode.old)) }
        ensures kept { OnOk result (Keeps self.new) }
    {
        if ends_field(byte) {
            self.settle(mode)?;
        }
        Ok(())
    }

    /// Reads one byte, and answers whether the text so far begins some fields.
    #[tactic(auto, unfolding(crate::specs::Machine::next, crate::specs::Machine::settled), using(crate::proofs::ParserLemmas::acts_between, crate::proofs::ParserLemmas::half_fits))]
    #[inline(never)]
    fn step(&mut self, mode: &mut Mode, byte: u8) -> Result<bool, AllocError>
        requires kept { Keeps self.old }
        requires depth { self.old.depth < usize.MAX }
        requires valid { IsValid mode.old (text_read self.old) }
        ensures taken { IfOk result (λ taken. Takes taken (next (reading self.old mode.old) byte) (reading self.new mode.new)) }
        ensures kept { OnOk result (Keeps self.new) }
    {
        self.before(mode, byte)?;
        self.perform(mode, act(*mode, self.depth > 0, byte))
    }

    /// Ends the last field, and answers whether the text may end here.
    #[tactic(auto, unfolding(crate::specs::Machine::finish))]
    #[inline(never)]
    fn end_last(&mut self, mode: Mode) -> Result<bool, AllocError>
        requires kept { Keeps self.old }
        requires valid { IsValid mode (text_read self.old) }
        requires depth { self.old.depth < usize.MAX }
        ensures ended { IfOk result (λ ended. Ends ended (finish (reading self.old mode)) self.new) }
        ensures kept { OnOk result (Keeps self.new) }
    {
        let mut last = mode;
        self.settle(&mut last)?;
        Ok(may_end(last, self.depth))
    }

    /// The same, where most texts end behind a field that has ended.
    #[inline(always)]
    fn end(&mut self, mode: Mode) -> Result<bool, AllocError>
        requires kept { Keeps self.old }
        requires valid { IsValid mode (text_read self.old) }
        requires depth { self.old.depth < usize.MAX }
        ensures ended { IfOk result (λ ended. Ends ended (finish (reading self.old mode)) self.new) }
        ensures kept { OnOk result (Keeps self.new) }
    {
        match mode {
            Mode::After => Ok(self.depth == 0),
            _ => self.end_last(mode),
        }
    }
}

fn bad_field(column: usize) -> FieldError
    requires { column ≤ MAX_INPUT + 1 }
    ensures { result ≡ FieldError.Fault (FieldFault.BadField column) }
{
    FieldError::Fault(FieldFault::BadField {
        column: column as u32,
    })
}

/// Reads the nodes of a text, or the column of its fault.
#[inline(never)]
pub(crate) fn read(parser: &mut Parser, text: &[u8]) -> Result<(), FieldError>
    requires { length text.now ≤ MAX_INPUT }
    ensures nodes { GivesNodes result parser.new.code.items (nodes_or_column text.now) }
    ensures found { OnOk result (IsSurvey parser.new.found (nodes_read parser.new)) }
{
    parser.start();
    let mut mode = Mode::Start { opened: false };
    let mut rest = text;
    'bytes: loop {
        let Ok((to, left)) = parser.read_on(mode, rest) else {
            return Err(FieldError::OutOfMemory);
        };
        mode = to;
        let Some((byte, behind)) = first_byte(left) else {
            return match parser.end(mode) {
                Ok(true) => Ok(()),
                Ok(false) => Err(bad_field(text.len() + 1)),
                Err(_) => Err(FieldError::OutOfMemory),
            };
        };
        if left.len() < rest.len() {
            rest = left;
            continue 'bytes;
        }
        let mut now = mode;
        match parser.step(&mut now, byte) {
            Ok(true) => rest = behind,
            Ok(false) => {
                let column = text.len() - behind.len() - taken_back(mode, byte);
                return Err(bad_field(column));
            }
            Err(_) => return Err(FieldError::OutOfMemory),
        }
        mode = now;
    }
}
