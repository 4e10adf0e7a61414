//! One field: its name, and its value or the brace that opens its block.
ghost use Rattle.std.specs.Prelude.{◌≡◌, ℕ, ◌+◌, ◌^◌, ◌<◌, ◌∷◌, Err, length, IfOk, IfErr};
ghost use Rattle.std.specs.Option.{option_map};
ghost use Rattle.text_form.specs.Bytes.{is_name_start};
ghost use Rattle.text_form.specs.Grammar.{EndsRun};
ghost use Rattle.text_form.specs.Machine.{Start, Valued, Between, items_from};
ghost use Rattle.text_form.specs.Reading.{value_of, item_of};
ghost use Rattle.text_form.specs.Walking.{begins_no_value, begins_no_word, BeginsWith, ReadsValue, ReadsItem};

use crate::gap::{Spot, behind_gap};
use crate::item::{BadText, TextItem, TextValue};
use crate::kinds::{first_byte, name_run, text_run, word_run};

/// An item, and where it ends.
#[derive(Clone, Copy)]
pub(crate) struct Found<'a> {
    pub item: TextItem<'a>,
    pub there: Spot<'a>,
}

/// A field's name, with the line on which it stands.
#[derive(Clone, Copy)]
struct FieldName<'a> {
    line: u32,
    name: &'a [u8],
}

impl<'a> FieldName<'a> {
    ghost use Rattle.std.specs.Prelude.{◌≡◌};
    ghost use Rattle.text_form.specs.Entries.{Begin};
    ghost use Rattle.text_form.specs.Reading.{item_of};

    /// The field's block begins with the byte before these.
    #[inline(always)]
    fn begin(self, line: u32, behind: &'a [u8]) -> Found<'a>
        ensures item { item_of result.item ≡ Begin self.entry.line self.entry.name.now }
        ensures there { (result.there.line ≡ line) × (result.there.rest.now ≡ behind.now) }
    {
        Found {
            item: TextItem::Begin {
                line: self.line,
                name: self.name,
            },
            there: Spot { line, rest: behind },
        }
    }
}

/// A value, and what is left behind it.
#[derive(Clone, Copy)]
struct FoundValue<'a> {
    value: TextValue<'a>,
    left: &'a [u8],
}

/// The text that ends with the next quotes.
#[inline(always)]
fn quoted_text(behind: &[u8]) -> Option<FoundValue<'_>>
    ensures { (line : ℕ) → ReadsValue line (34 ∷ behind.now) (option_map (λ found. (value_of found.value, found.left.now)) result) }
{
    let run = text_run(behind);
    let (byte, left) = first_byte(run.left)?;
    if byte != b'"' {
        return None;
    }
    Some(FoundValue {
        value: TextValue::Quoted(run.front),
        left,
    })
}

/// The word that stands in front.
#[inline(always)]
fn word(rest: &[u8]) -> Option<FoundValue<'_>>
    requires { EndsRun begins_no_word rest.now }
    ensures { (line : ℕ) → ReadsValue line rest.now (option_map (λ found. (value_of found.value, found.left.now)) result) }
{
    let run = word_run(rest);
    if run.front.is_empty() {
        return None;
    }
    Some(FoundValue {
        value: TextValue::Word(run.front),
        left: run.left,
    })
}

/// The value that stands in front.
#[inline(always)]
fn first_value(rest: &[u8]) -> Option<FoundValue<'_>>
    requires { EndsRun begins_no_value rest.now }
    ensures { (line : ℕ) → ReadsValue line rest.now (option_map (λ found. (value_of found.value, found.left.now)) result) }
{
    let (byte, behind) = first_byte(rest)?;
    if byte == b'"' {
        quoted_text(behind)
    } else {
        word(rest)
    }
}

/// The rest of a field behind its colon.
#[inline(always)]
fn behind_colon<'a>(field: FieldName<'a>, here: Spot<'a>) -> Result<Found<'a>, BadText>
    requires { here.line + length here.rest.now < 2 ^ 32 }
    ensures read { IfOk result (λ found. (depth : ℕ) → ReadsItem depth here.entry.line (Valued field.entry.line field.entry.name.now) here.entry.rest.now
        (item_of found.item) found.there.line found.there.rest.now) }
    ensures refused { IfErr result (λ bad. (depth : ℕ) → items_from depth here.entry.line (Between (Valued field.entry.line field.entry.name.now)) here.entry.rest.now ≡ Err bad.line) }
{
    let there = behind_gap(here)?;
    let line = there.line;
    let Some((byte, behind)) = first_byte(there.rest) else {
        return Err(BadText { line });
    };
    if byte == b'{' {
        return Ok(field.begin(line, behind));
    }
    let Some(found) = first_value(there.rest) else {
        return Err(BadText { line });
    };
    Ok(Found {
        item: TextItem::Single {
            line: field.line,
            name: field.name,
            value: found.value,
        },
        there: Spot {
            line,
            rest: found.left,
        },
    })
}

/// The field or the beginning of a block whose name stands here.
#[inline(always)]
pub(crate) fn field(here: Spot<'_>) -> Result<Found<'_>, BadText>
    requires fits { here.line + length here.rest.now < 2 ^ 32 }
    requires name { BeginsWith is_name_start here.rest.now }
    ensures read { IfOk result (λ found. (depth : ℕ) → ReadsItem depth here.entry.line Start here.entry.rest.now
        (item_of found.item) found.there.line found.there.rest.now) }
    ensures refused { IfErr result (λ bad. (depth : ℕ) → items_from depth here.entry.line (Between Start) here.entry.rest.now ≡ Err bad.line) }
{
    let run = name_run(here.rest);
    let field = FieldName {
        line: here.line,
        name: run.front,
    };
    let there = behind_gap(Spot {
        line: here.line,
        rest: run.left,
    })?;
    let line = there.line;
    let Some((byte, behind)) = first_byte(there.rest) else {
        return Err(BadText { line });
    };
    if byte == b':' {
        return behind_colon(field, Spot { line, rest: behind });
    }
    if byte == b'{' {
        return Ok(field.begin(line, behind));
    }
    Err(BadText { line })
}
