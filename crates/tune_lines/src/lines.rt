//! The lines.
ghost use Rattle.std.specs.Prelude.{◌≡◌, ℕ, ◌+◌, ◌<◌, ◌≤◌, ◌++◌, length, slice_index_or, OnOk, OnErr};
ghost use Rattle.byte_io.specs.Bytes.{after_told, CountsFaults, TakesPart};
ghost use Rattle.layout_tuner.specs.PageWords.{layout_in};
ghost use Rattle.loss_report.specs.Report.{lines_of};
ghost use Rattle.tune_lines.specs.declared.fields.TheConstants.{LINE_ROOM};
ghost use Rattle.tune_lines.specs.Lines as text;
ghost use Rattle.tune_lines.specs.Lines.{tune_text};
ghost use Rattle.tune_lines.specs.Pages.{HasLayouts, IsLaidOut};

use crate::fields::{LINE_ROOM, push_end, push_field};
use arrayvec::ArrayVec;
use byte_io::put::{WriteFault, put_all};
use byte_io::traits::Sink;
use layout_tuner::{chunk_count, generation_of, layout_of};
use tune_run::{TuneReport, UserCounts};

#[tactic(auto, unfolding(crate::specs::Lines::user_line))]
fn user_line(user: u64, counts: &UserCounts) -> ArrayVec<u8, LINE_ROOM>
    ensures { result.items ≡ text.user_line user counts.now }
{
    let mut line = ArrayVec::new();
    push_field(&mut line, b"user ", user);
    push_field(&mut line, b" claimed ", counts.claimed);
    push_field(&mut line, b" none ", counts.none);
    push_field(&mut line, b" retiled ", counts.retiled);
    push_field(&mut line, b" refused ", counts.refused);
    push_end(&mut line);
    line
}

#[tactic(auto, unfolding(crate::specs::Lines::taken_line))]
fn taken_line(taken: u64) -> ArrayVec<u8, LINE_ROOM>
    ensures { result.items ≡ text.taken_line taken }
{
    let mut line = ArrayVec::new();
    push_field(&mut line, b"taken ", taken);
    push_end(&mut line);
    line
}

#[tactic(auto, unfolding(crate::specs::Lines::page_line))]
fn page_line(page: u64, word: u64) -> ArrayVec<u8, LINE_ROOM>
    requires { IsLaidOut word }
    ensures { result.items ≡ text.page_line page word }
{
    let mut line = ArrayVec::new();
    push_field(&mut line, b"page ", page);
    push_field(&mut line, b" generation ", u64::from(generation_of(word)));
    let chunks = chunk_count(layout_of(word));
    push_field(&mut line, b" chunks ", u64::from(chunks));
    push_end(&mut line);
    line
}

/// The lines of the users, which count from 1.
fn put_users<O: Sink>(out: &mut O, users: &[UserCounts]) -> Result<(), WriteFault>
    requires { O.may_write out.old }
    ensures all { OnOk result (O.taken out.new ≡ after_told (O.taken out.old) (lines_of text.user_line 1 users.now)) }
    ensures part { OnErr result (TakesPart (O.taken out.old) (O.taken out.new) (lines_of text.user_line 1 users.now)) }
    ensures count { CountsFaults (O.faults out.old) (O.faults out.new) result }
    ensures goes_on { OnOk result (O.may_write out.new) }
{
    for (i, counts) in users.iter().enumerate() {
        put_all(out, &user_line(i as u64 + 1, counts))?;
    }
    Ok(())
}

/// The lines of the pages, which count from 1.
fn put_pages<O: Sink>(out: &mut O, words: &[u64]) -> Result<(), WriteFault>
    requires laid_out { HasLayouts words.now }
    requires may { O.may_write out.old }
    ensures all { OnOk result (O.taken out.new ≡ after_told (O.taken out.old) (lines_of text.page_line 1 words.now)) }
    ensures part { OnErr result (TakesPart (O.taken out.old) (O.taken out.new) (lines_of text.page_line 1 words.now)) }
    ensures count { CountsFaults (O.faults out.old) (O.faults out.new) result }
    ensures goes_on { OnOk result (O.may_write out.new) }
{
    for (i, word) in words.iter().enumerate() {
        put_all(out, &page_line(i as u64 + 1, *word))?;
    }
    Ok(())
}

/// Writes the lines of a run.
#[tactic(auto, using(byte_io::proofs::Told::part_first, byte_io::proofs::Told::part_second, byte_io::proofs::Told::after_told_again))]
pub fn put_lines<O: Sink>(out: &mut O, report: &TuneReport) -> Result<(), WriteFault>
    requires laid_out { HasLayouts report.now.words.items }
    requires may { O.may_write out.old }
    ensures all { OnOk result (O.taken out.new ≡ after_told (O.taken out.old) (tune_text report.now)) }
    ensures part { OnErr result (TakesPart (O.taken out.old) (O.taken out.new) (tune_text report.now)) }
    ensures count { CountsFaults (O.faults out.old) (O.faults out.new) result }
    ensures goes_on { OnOk result (O.may_write out.new) }
{
    put_users(out, &report.users)?;
    put_all(out, &taken_line(report.taken))?;
    put_pages(out, &report.words)
}
