//! Reading a text item by item.
ghost use Rattle.std.specs.Prelude.{◌≡◌, ◌+◌, ◌^◌, ◌<◌, [], Ok, Err, length, IfOk, IfErr, IfSome, IfNone};
ghost use Rattle.text_form.specs.Entries.{End};
ghost use Rattle.text_form.specs.Machine.{Between, items_from};
ghost use Rattle.text_form.specs.Reading.{item_of};
ghost use Rattle.text_form.specs.Walking as walking;
ghost use Rattle.text_form.specs.Walking.{place_before, place_behind, ReadsItem};

use crate::field::{Found, field};
use crate::gap::{Spot, behind_lead};
use crate::item::{BadText, TextItem};
use crate::kinds::{first_byte, is_name_start};
use std::marker::Model;

/// How many blocks are open behind an item.
#[inline(always)]
fn depth_behind(depth: u32, item: TextItem<'_>) -> u32
    requires fits { depth + 1 < 2 ^ 32 }
    requires closes { item_of item ≡ End → 0 < depth }
    ensures { result ≡ walking.depth_behind (item_of item.entry) depth }
{
    match item {
        TextItem::Single { .. } => depth,
        TextItem::Begin { .. } => depth + 1,
        TextItem::End => depth - 1,
    }
}

/// Whether a field ends with an item.
#[inline(always)]
fn ends_field(item: TextItem<'_>) -> bool
    ensures { place_before result ≡ place_behind (item_of item.entry) }
{
    match item {
        TextItem::Begin { .. } => false,
        _ => true,
    }
}

/// The first item of the part of a text, inside so many blocks.
#[inline(always)]
fn first_item<'a>(depth: u32, after: bool, here: Spot<'a>) -> Result<Option<Found<'a>>, BadText>
    requires { here.line + length here.rest.now < 2 ^ 32 }
    ensures read { IfOk result (λ found. IfSome found (λ found. ReadsItem depth here.entry.line (place_before after) here.entry.rest.now
        (item_of found.item) found.there.line found.there.rest.now)) }
    ensures end { IfOk result (λ found. IfNone found (items_from depth here.entry.line (Between (place_before after)) here.entry.rest.now ≡ Ok [])) }
    ensures refused { IfErr result (λ bad. items_from depth here.entry.line (Between (place_before after)) here.entry.rest.now ≡ Err bad.line) }
{
    let there = behind_lead(after, here)?;
    let line = there.line;
    let Some((byte, behind)) = first_byte(there.rest) else {
        return if depth == 0 {
            Ok(None)
        } else {
            Err(BadText { line })
        };
    };
    if is_name_start(byte) {
        return Ok(Some(field(there)?));
    }
    if byte != b'}' || depth == 0 {
        return Err(BadText { line });
    }
    Ok(Some(Found {
        item: TextItem::End,
        there: Spot { line, rest: behind },
    }))
}

/// The part of a text that wasn't read, with its line and how many blocks are open; `after` says whether
/// a field of the same block was read just before. Contracts see what is to come of it.
#[derive(Drop)]
pub struct TextReader<'a> {
    rest: &'a [u8],
    line: u32,
    depth: u32,
    after: bool,
}

impl<'a> Model for TextReader<'a> {
    ghost use Rattle.std.specs.Prelude.{◌+◌, ◌^◌, ◌<◌, length};
    ghost use Rattle.text_form.specs.Machine.{Between, items_from};
    ghost use Rattle.text_form.specs.Reading.{Unread};
    ghost use Rattle.text_form.specs.Walking.{place_before};

    ghost Value = { Unread };

    ghost view = { λ reader. record {
      coming = items_from reader.depth reader.line (Between (place_before reader.after)) reader.rest.now;
      left = length reader.rest.now;
    } };

    ghost invariant = { λ reader. (reader.line + length reader.rest.now < 2 ^ 32) × (reader.depth + length reader.rest.now < 2 ^ 32) };
}

impl<'a> TextReader<'a> {
    ghost use Rattle.std.specs.Prelude.{◌≡◌, ◌<◌, [], Ok, Err, length, IfOk, IfErr, IfSome, IfNone};
    ghost use Rattle.text_form.specs.Machine.{items_or_line, with_item};
    ghost use Rattle.text_form.specs.Reading.{item_of};

    /// A reader before the first item of a text.
    #[tactic(auto, unfolding(crate::specs::Machine::items_or_line))]
    pub fn new(text: &'a [u8]) -> TextReader<'a>
        requires { length text.now < u32.MAX }
        ensures coming { result.coming ≡ items_or_line text.now }
        ensures left { result.left ≡ length text.now }
    {
        TextReader {
            rest: text,
            line: 1,
            depth: 0,
            after: false,
        }
    }

    /// The next item, if there is one.
    pub fn next(&mut self) -> Result<Option<TextItem<'a>>, BadText>
        // The item comes first, and then what comes now.
        ensures item { IfOk result (λ found. IfSome found (λ item. self.old.coming ≡ with_item (item_of item) self.new.coming)) }
        ensures shorter { IfOk result (λ found. IfSome found (λ item. self.new.left < self.old.left)) }

        // None comes where the text ends, and an error where it is of this form no more; nothing changes, and
        // the same comes again.
        ensures end { IfOk result (λ found. IfNone found (self.old.coming ≡ Ok [])) }
        ensures stays { IfOk result (λ found. IfNone found (self.new ≡ self.old)) }
        ensures bad { IfErr result (λ bad. self.old.coming ≡ Err bad.line) }
        ensures kept { IfErr result (λ bad. self.new ≡ self.old) }
    {
        let here = Spot {
            line: self.line,
            rest: self.rest,
        };
        let Some(found) = first_item(self.depth, self.after, here)? else {
            return Ok(None);
        };
        self.line = found.there.line;
        self.rest = found.there.rest;
        self.depth = depth_behind(self.depth, found.item);
        self.after = ends_field(found.item);
        Ok(Some(found.item))
    }
}
