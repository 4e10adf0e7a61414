//! Reading whole fields, each with the byte that ends it. What isn't read so is read byte by byte.
ghost use Rattle.std.specs.Prelude.{◌≡◌, ◌<◌, [], IfOk, OnOk, Some, true};
ghost use Rattle.field_tree.specs.Machine.{IsValid, pending, ends_here, with_text, next};
ghost use Rattle.field_tree.specs.declared.node.FieldNode.TheVariants.{Bytes};
ghost use Rattle.field_tree.specs.declared.mode.Mode.TheVariants.{Start, Field, Digits, Pairs, Packed, After};
ghost use Rattle.field_tree.specs.Scanning.{RunsOver};
ghost use Rattle.field_tree.specs.Views.{reading, text_read, Keeps};

use crate::mode::Mode;
use crate::parser::Parser;
use crate::scan::{Scanned, first_byte, scan};
use std::alloc::AllocError;

impl Parser {
    /// Whether a field ends before this byte, and the byte is taken.
    #[inline(always)]
    fn ends_here(&self, byte: u8) -> bool
        ensures { result ≡ ends_here self.now.depth byte }
    {
        byte == b' ' || self.depth > 0 && byte == b'}'
    }

    /// Takes the byte before which a field has ended.
    #[tactic(auto, unfolding(crate::specs::Judged::level))]
    #[inline(always)]
    fn end_field(&mut self, byte: u8) -> Result<Mode, AllocError>
        requires kept { Keeps self.old }
        requires between { text_read self.old ≡ [] }
        requires depth { self.old.depth < usize.MAX }
        requires here { ends_here self.old.depth byte ≡ true }
        ensures next { IfOk result (λ mode. next (reading self.old After) byte ≡ Some (reading self.new mode)) }
        ensures kept { OnOk result (Keeps self.new) }
    {
        if byte == b' ' {
            return Ok(Mode::Start { opened: false });
        }
        self.push_end()?;
        Ok(Mode::After)
    }

    /// Reads on behind a field that has ended.
    #[inline(always)]
    fn read_behind<'t>(&mut self, bytes: &'t [u8]) -> Result<(Mode, &'t [u8]), AllocError>
        requires kept { Keeps self.old }
        requires between { text_read self.old ≡ [] }
        requires depth { self.old.depth < usize.MAX }
        ensures over { IfOk result (λ to. RunsOver (reading self.old After) bytes.now (reading self.new to.0) to.1.now) }
        ensures kept { OnOk result (Keeps self.new) }
    {
        match first_byte(bytes) {
            Some((byte, behind)) if self.ends_here(byte) => Ok((self.end_field(byte)?, behind)),
            _ => Ok((Mode::After, bytes)),
        }
    }

    /// Reads on behind the number of a field.
    #[tactic(auto, unfolding(crate::specs::Judged::level))]
    #[inline(always)]
    fn read_begin<'t>(
        &mut self,
        field: u32,
        bytes: &'t [u8],
    ) -> Result<(Mode, &'t [u8]), AllocError>
        requires kept { Keeps self.old }
        requires between { text_read self.old ≡ [] }
        requires depth { self.old.depth < usize.MAX }
        ensures over { IfOk result (λ to. RunsOver (reading self.old (Field field)) bytes.now (reading self.new to.0) to.1.now) }
        ensures kept { OnOk result (Keeps self.new) }
    {
        match first_byte(bytes) {
            Some((b'{', behind)) => {
                self.push_begin(field)?;
                Ok((Mode::Start { opened: true }, behind))
            }
            _ => Ok((Mode::Field { field }, bytes)),
        }
    }

    /// Reads on behind a number.
    #[tactic(auto, unfolding(crate::specs::Judged::level))]
    #[inline(always)]
    fn read_number<'t>(
        &mut self,
        field: u32,
        value: u64,
        bytes: &'t [u8],
    ) -> Result<(Mode, &'t [u8]), AllocError>
        requires kept { Keeps self.old }
        requires between { text_read self.old ≡ [] }
        requires depth { self.old.depth < usize.MAX }
        ensures over { IfOk result (λ to. RunsOver (reading self.old (Digits field value)) bytes.now (reading self.new to.0) to.1.now) }
        ensures kept { OnOk result (Keeps self.new) }
    {
        match first_byte(bytes) {
            Some((byte, behind)) if self.ends_here(byte) => {
                self.push_number(field, value)?;
                Ok((self.end_field(byte)?, behind))
            }
            _ => Ok((Mode::Digits { field, value }, bytes)),
        }
    }

    /// Reads on behind a text that may end here, and stands so many times over then.
    #[tactic(auto, unfolding(crate::specs::Judged::level))]
    #[inline(always)]
    fn read_text<'t>(
        &mut self,
        field: u32,
        times: u32,
        scanned: Scanned<'t>,
    ) -> Result<(Mode, &'t [u8]), AllocError>
        requires kept { Keeps self.old }
        requires between { text_read self.old ≡ [] }
        requires depth { self.old.depth < usize.MAX }
        requires pending { pending scanned.mode ≡ Some (Bytes field times) }
        ensures over { IfOk result (λ to. RunsOver (with_text scanned.entry.text.now (reading self.old scanned.entry.mode))
            scanned.entry.behind.now (reading self.new to.0) to.1.now) }
        ensures kept { OnOk result (Keeps self.new) }
    {
        match first_byte(scanned.behind) {
            Some((byte, behind)) if self.ends_here(byte) => {
                self.push_text(field, times, scanned.text)?;
                Ok((self.end_field(byte)?, behind))
            }
            _ => self.keep(scanned),
        }
    }

    /// Reads on behind the tick that ends a text of pairs.
    #[tactic(auto, unfolding(crate::specs::Judged::level))]
    #[inline(always)]
    fn read_packed<'t>(
        &mut self,
        field: u32,
        bytes: &'t [u8],
    ) -> Result<(Mode, &'t [u8]), AllocError>
        requires kept { Keeps self.old }
        requires depth { self.old.depth < usize.MAX }
        ensures over { IfOk result (λ to. RunsOver (reading self.old (Packed field)) bytes.now (reading self.new to.0) to.1.now) }
        ensures kept { OnOk result (Keeps self.new) }
    {
        match first_byte(bytes) {
            Some((byte, behind)) if self.ends_here(byte) => {
                self.push_once(field)?;
                Ok((self.end_field(byte)?, behind))
            }
            _ => Ok((Mode::Packed { field }, bytes)),
        }
    }

    /// Reads on over pairs of hexadecimal digits. It is apart so that what most fields are read by stays
    /// small.
    #[inline(never)]
    fn read_pairs<'t>(
        &mut self,
        field: u32,
        bytes: &'t [u8],
    ) -> Result<(Mode, &'t [u8]), AllocError>
        requires kept { Keeps self.old }
        requires depth { self.old.depth < usize.MAX }
        ensures over { IfOk result (λ to. RunsOver (reading self.old (Pairs field)) bytes.now (reading self.new to.0) to.1.now) }
        ensures kept { OnOk result (Keeps self.new) }
    {
        let left = self.scan_pairs(bytes)?;
        match first_byte(left) {
            Some((b'\'', behind)) => self.read_packed(field, behind),
            _ => Ok((Mode::Pairs { field }, left)),
        }
    }

    /// Keeps the text that was read so far. Behind the tick of a text of pairs it reads on over them.
    #[inline(always)]
    fn keep<'t>(&mut self, scanned: Scanned<'t>) -> Result<(Mode, &'t [u8]), AllocError>
        requires kept { Keeps self.old }
        requires between { text_read self.old ≡ [] }
        requires depth { self.old.depth < usize.MAX }
        ensures over { IfOk result (λ to. RunsOver (with_text scanned.entry.text.now (reading self.old scanned.entry.mode))
            scanned.entry.behind.now (reading self.new to.0) to.1.now) }
        ensures kept { OnOk result (Keeps self.new) }
    {
        self.push_bytes(scanned.text)?;
        match scanned.mode {
            Mode::Pairs { field } => self.read_pairs(field, scanned.behind),
            _ => Ok((scanned.mode, scanned.behind)),
        }
    }

    /// Reads on where a field begins.
    #[inline(always)]
    fn read_field<'t>(
        &mut self,
        opened: bool,
        bytes: &'t [u8],
    ) -> Result<(Mode, &'t [u8]), AllocError>
        requires kept { Keeps self.old }
        requires between { text_read self.old ≡ [] }
        requires depth { self.old.depth < usize.MAX }
        ensures over { IfOk result (λ to. RunsOver (reading self.old (Start opened)) bytes.now (reading self.new to.0) to.1.now) }
        ensures kept { OnOk result (Keeps self.new) }
    {
        let scanned = scan(opened, bytes);
        match scanned.mode {
            Mode::Field { field } => self.read_begin(field, scanned.behind),
            Mode::Digits { field, value } => self.read_number(field, value, scanned.behind),
            Mode::Quoted { field } => self.read_text(field, 1, scanned),
            Mode::Times { field, times } => self.read_text(field, times, scanned),
            _ => self.keep(scanned),
        }
    }

    /// Reads on over the bytes in front that are read at once, and answers where the reading stands
    /// then and the bytes behind them.
    #[inline(always)]
    pub fn read_on<'t>(
        &mut self,
        mode: Mode,
        bytes: &'t [u8],
    ) -> Result<(Mode, &'t [u8]), AllocError>
        requires kept { Keeps self.old }
        requires valid { IsValid mode (text_read self.old) }
        requires depth { self.old.depth < usize.MAX }
        ensures over { IfOk result (λ to. RunsOver (reading self.old mode) bytes.now (reading self.new to.0) to.1.now) }
        ensures kept { OnOk result (Keeps self.new) }
    {
        match mode {
            Mode::Start { opened } => self.read_field(opened, bytes),
            Mode::After => self.read_behind(bytes),
            _ => Ok((mode, bytes)),
        }
    }
}
