//! What stands between two tokens.
ghost use Rattle.std.specs.Prelude.{◌≡◌, ℕ, ◌+◌, ◌^◌, ◌<◌, ◌≤◌, List, length, IfOk, IfErr};
ghost use Rattle.std.specs.Option.{option_map};
ghost use Rattle.text_form.specs.Grammar.{EndsRun};
ghost use Rattle.text_form.specs.Walking.{begins_gap, PassesComment, PassesGap, RefusesGap, PassesLead, RefusesLead};

use crate::item::BadText;
use crate::kinds::{comment_run, first_byte, is_blank, is_separator};

/// The part of a text that is still to be read, and the line on which it begins.
#[derive(Clone, Copy)]
pub(crate) struct Spot<'a> {
    pub line: u32,
    pub rest: &'a [u8],
}

/// What is left behind the bytes of a comment: nothing, or its line feed.
#[inline(always)]
fn behind_comment(rest: &[u8]) -> Option<&[u8]>
    ensures { PassesComment rest.now (option_map (λ left. left.now) result) }
{
    let left = comment_run(rest).left;
    let Some((byte, _)) = first_byte(left) else {
        return Some(left);
    };
    if byte == b'\n' { Some(left) } else { None }
}

/// Behind the blanks and comments that stand here.
#[inline(always)]
pub(crate) fn behind_gap(here: Spot<'_>) -> Result<Spot<'_>, BadText>
    requires { here.line + length here.rest.now < 2 ^ 32 }
    ensures passes { IfOk result (λ there. PassesGap here.entry.line here.entry.rest.now there.line there.rest.now) }
    ensures ends { IfOk result (λ there. EndsRun begins_gap there.rest.now) }
    ensures refuses { IfErr result (λ bad. RefusesGap here.entry.line here.entry.rest.now bad.line) }
{
    let mut line = here.line;
    let mut rest = here.rest;
    'bytes: while let Some((byte, behind)) = first_byte(rest) {
        if byte == b'\n' {
            line += 1;
            rest = behind;
        } else if is_blank(byte) {
            rest = behind;
        } else if byte == b'#' {
            let Some(left) = behind_comment(behind) else {
                return Err(BadText { line });
            };
            rest = left;
        } else {
            return Ok(Spot { line, rest });
        }
    }
    Ok(Spot { line, rest })
}

/// Behind what stands before a field: a gap, and behind another field one separator.
#[inline(always)]
pub(crate) fn behind_lead(after: bool, here: Spot<'_>) -> Result<Spot<'_>, BadText>
    requires { here.line + length here.rest.now < 2 ^ 32 }
    ensures passes { IfOk result (λ there. PassesLead after here.entry.line here.entry.rest.now there.line there.rest.now) }
    ensures refuses { IfErr result (λ bad. RefusesLead after here.entry.line here.entry.rest.now bad.line) }
{
    let there = behind_gap(here)?;
    let Some((byte, behind)) = first_byte(there.rest) else {
        return Ok(there);
    };
    if !after || !is_separator(byte) {
        return Ok(there);
    }
    behind_gap(Spot {
        line: there.line,
        rest: behind,
    })
}
