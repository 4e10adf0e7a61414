//! The top call.
ghost use Rattle.std.specs.Prelude.{◌≡◌, ◌≢◌, ℕ, ◌+◌, ◌<◌, ◌≤◌, ◌⊎◌, List, [], length, map, IfSome};
ghost use Rattle.std.specs.String.{string_bytes};
ghost use Rattle.byte_io.specs.Bytes.{after_told, Faulted, GivesAtMost, NoFault};
ghost use Rattle.command_words.specs.declared.command.Command.{Command};
ghost use Rattle.tracesmb_top.specs.Words.{Ask, AskForNothing, AskForNoInput, LeavesReport, PlaysByLine, ReadsInput};
ghost use Rattle.tracesmb_top.specs.Commands.{Accepts, HasStalled, IsGiven, Refuses, Wrote, WrotePart};
ghost use Rattle.tracesmb_top.specs.Answers.{Says, SaysBehind, usage_line, memory_line, read_line, write_line, stalled_line, long_line};

use crate::commands::{CommandFault, perform};
use crate::input::take_input;
use crate::say::{
    say_out_of_memory, say_read_fault, say_refusal, say_report, say_stalled, say_too_long,
    say_usage, say_write_fault,
};
use crate::words::asked_command;
use byte_io::fill::FillFault;
use byte_io::traits::{Gate, Sink, Source};
use command_words::WordsFault;
use std::alloc::Global;
use std::sync::Wait;
use std::thread::Threads;
use trace_base::limits::MAX_INPUT;

/// Does what the command words ask for, with the input, and answers the status of the process.
///
/// | status | comes | on `text` |
/// |---|---|---|
/// | 0 | the trace has taken what the command writes | the report for `replay`, `run`, `stream` and `clone`, else nothing |
/// | 1 | memory ran out, before anything was written | `out of memory` |
/// | 2 | the words ask for no command | the usage |
/// | 3 | the input is refused, by its first fault | `line L: REASON`, `offset N: REASON` |
/// | 4 | the input failed | `read fault` |
/// | 5 | the trace failed, and holds a front part of what it would have; or the text failed in the report | `write fault`, maybe behind a front part of the report |
/// | 6 | a writer of the replay stalled; under `replay` the trace holds the records of the reads before, under `clone` nothing | `stalled: writer W` |
/// | 7 | the input has more than 67,108,864 bytes | `input too long` |
#[tactic(auto, using(crate::proofs::WordLemmas::same_reads, crate::proofs::CommandLemmas::refused_reads, crate::proofs::CommandLemmas::report_reads, crate::proofs::CommandLemmas::played_reports, crate::proofs::CommandLemmas::stalled_by_line))]
pub fn trace_top<R: Threads + Wait + Sync, S: Source, T: Sink + Send, O: Sink, G: Gate + Sync>(
    rt: &R,
    alloc: Global,
    words: &[String],
    input: &mut S,
    trace: &mut T,
    text: &mut O,
    gate: &G,
) -> u8
    // The input may be asked; behind its end, or a read that failed, it isn't asked again. Trace and text may be written to;
    // behind a write that failed, neither is written to again, but for the text of a command that leaves a report: it bears
    // that the line of a failed write is tried behind a report whose writing failed.
    requires input { S.may_ask input.old }
    requires trace { T.may_write trace.old }
    requires text { O.may_write text.old }
    requires report { (command : Command) → Ask (map string_bytes words.now) command → LeavesReport command → (sink : O) → O.may_write sink }

    ensures known { result ≤ 7 }

    // Status 0: the trace took what the command writes for what it was given, and the text its report; the input was read
    // whole, and nothing failed. No command but `replay`, `run`, `stream` and `clone` has
    // a report.
    ensures writes { result ≡ 0 → (command : Command) × (given report : List ℕ) × Ask (map string_bytes words.now) command
        × IsGiven command (S.left input.old) given × Wrote command given (T.taken trace.old) (T.taken trace.new) report
        × (O.taken text.new ≡ after_told (O.taken text.old) report) }
    ensures read { (result ≡ 0) ⊎ (result ≡ 3) ⊎ (result ≡ 6) → (command : Command) → Ask (map string_bytes words.now) command
        → ReadsInput command → IfSome (S.left input.new) (λ left. left ≡ []) }
    ensures quiet { result ≡ 0 → (command : Command) → Ask (map string_bytes words.now) command → (LeavesReport command → ⊥)
        → O.taken text.new ≡ O.taken text.old }
    ensures steady_input { result ≡ 0 → S.faults input.new ≡ S.faults input.old }
    ensures steady_trace { result ≡ 0 → T.faults trace.new ≡ T.faults trace.old }
    ensures steady_text { result ≡ 0 → O.faults text.new ≡ O.faults text.old }

    // Status 1: memory is free to run out.
    ensures says_memory { result ≡ 1 → Says (O.taken text.old) (O.taken text.new) (O.faults text.old) (O.faults text.new) memory_line }

    // Status 2: only where the words ask for no command, and always there, or else memory ran out.
    ensures unknown { result ≡ 2 → AskForNothing (map string_bytes words.now) }
    ensures words { AskForNothing (map string_bytes words.now) → (result ≡ 2) ⊎ (result ≡ 1) }
    ensures says_usage { result ≡ 2 → Says (O.taken text.old) (O.taken text.new) (O.faults text.old) (O.faults text.new) usage_line }

    // Where the words ask for no command that reads the input, so too under status 2, it is left as it was, and no status
    // speaks of it.
    ensures unread { AskForNoInput (map string_bytes words.now) → input.new ≡ input.old }
    ensures unasked { AskForNoInput (map string_bytes words.now) → (result ≤ 2) ⊎ (result ≡ 5) }

    // Status 3: the command refuses what it was given, and says why, by the first fault there.
    ensures refused { result ≡ 3 → (command : Command) × (given line : List ℕ) × Ask (map string_bytes words.now) command
        × IsGiven command (S.left input.old) given × Refuses command given line
        × Says (O.taken text.old) (O.taken text.new) (O.faults text.old) (O.faults text.new) line }
    ensures refuses { (command : Command) → Ask (map string_bytes words.now) command → NoFault (S.faults input.old) (S.faults input.new)
        → IfSome (S.left input.old) (λ told. length told ≤ MAX_INPUT → (line : List ℕ) → Refuses command told line
        → (result ≡ 3) ⊎ (result ≡ 1)) }

    // Status 4: only where the input's faults rose, and always where they rose.
    ensures read_fault { result ≡ 4 → Faulted (S.faults input.old) (S.faults input.new) }
    ensures input_fault { S.faults input.old < S.faults input.new → result ≡ 4 }
    ensures read_within { result ≡ 4 → GivesAtMost MAX_INPUT (S.left input.old) (S.left input.new) }
    ensures says_read { result ≡ 4 → Says (O.taken text.old) (O.taken text.new) (O.faults text.old) (O.faults text.new) read_line }

    // Status 5: only where the trace's faults rose, and always where they rose; or where the text's rose in the report. The trace
    // holds a front part then, or else all that the command writes, and the text a front part of the report.
    ensures write_fault { result ≡ 5 → Faulted (T.faults trace.old) (T.faults trace.new) ⊎ Faulted (O.faults text.old) (O.faults text.new) }
    ensures write_alone { result ≡ 5 → (command : Command) → Ask (map string_bytes words.now) command → (LeavesReport command → ⊥)
        → Faulted (T.faults trace.old) (T.faults trace.new) }
    ensures trace_fault { T.faults trace.old < T.faults trace.new → result ≡ 5 }
    ensures part { result ≡ 5 → (command : Command) × (given : List ℕ) × Ask (map string_bytes words.now) command
        × IsGiven command (S.left input.old) given
        × ((WrotePart command given (T.taken trace.old) (T.taken trace.new) × Faulted (T.faults trace.old) (T.faults trace.new)
        × Says (O.taken text.old) (O.taken text.new) (O.faults text.old) (O.faults text.new) write_line)
        ⊎ (LeavesReport command × (report : List ℕ) × Wrote command given (T.taken trace.old) (T.taken trace.new) report
        × SaysBehind (O.taken text.old) (O.taken text.new) (O.faults text.old) (O.faults text.new) report write_line)) }

    // Status 6: a writer stalled in `replay` or `clone`. The trace has the records of the reads before, or nothing.
    ensures stalled { result ≡ 6 → (command : Command) × (given : List ℕ) × (writer : ℕ) × Ask (map string_bytes words.now) command
        × IsGiven command (S.left input.old) given × HasStalled command given writer (T.taken trace.old) (T.taken trace.new)
        × Says (O.taken text.old) (O.taken text.new) (O.faults text.old) (O.faults text.new) (stalled_line writer) }

    // Status 7: exactly where more bytes came than an input may have.
    ensures too_long { result ≡ 7 → IfSome (S.left input.old) (λ told. MAX_INPUT < length told) }
    ensures long { (command : Command) → Ask (map string_bytes words.now) command → ReadsInput command
        → NoFault (S.faults input.old) (S.faults input.new)
        → IfSome (S.left input.old) (λ told. MAX_INPUT < length told → (result ≡ 7) ⊎ (result ≡ 1)) }
    ensures says_long { result ≡ 7 → Says (O.taken text.old) (O.taken text.new) (O.faults text.old) (O.faults text.new) long_line }

    // At most one byte more than an input may have is read. The trace is as it was, but under 0, 5 and 6; no count falls; and
    // what can be done is done.
    ensures taken { GivesAtMost (MAX_INPUT + 1) (S.left input.old) (S.left input.new) }
    ensures untouched { result ≢ 0 → result ≢ 5 → result ≢ 6 → T.taken trace.new ≡ T.taken trace.old }
    ensures later_input { S.faults input.old ≤ S.faults input.new }
    ensures later_trace { T.faults trace.old ≤ T.faults trace.new }
    ensures later_text { O.faults text.old ≤ O.faults text.new }
    ensures complete { (command : Command) → Ask (map string_bytes words.now) command
        → NoFault (S.faults input.old) (S.faults input.new) → NoFault (T.faults trace.old) (T.faults trace.new)
        → (LeavesReport command → NoFault (O.faults text.old) (O.faults text.new))
        → (ReadsInput command → Accepts command (S.left input.old)) → (result ≡ 0) ⊎ (result ≡ 1) ⊎ (PlaysByLine command × (result ≡ 6)) }
{
    let command = match asked_command(alloc, words) {
        Ok(command) => command,
        Err(WordsFault::OutOfMemory) => return say_out_of_memory(text),
        Err(WordsFault::Unknown) => return say_usage(text),
    };
    let given = match take_input(alloc, command, input) {
        Ok(given) => given,
        Err(FillFault::OutOfMemory) => return say_out_of_memory(text),
        Err(FillFault::ReadFault) => return say_read_fault(text),
        Err(FillFault::TooLong) => return say_too_long(text),
    };
    match perform(rt, alloc, command, given, trace, gate) {
        Ok(None) => 0,
        Ok(Some(report)) => say_report(alloc, text, &report),
        Err(CommandFault::OutOfMemory) => say_out_of_memory(text),
        Err(CommandFault::Refused { refusal }) => say_refusal(text, &refusal),
        Err(CommandFault::WriteFault) => say_write_fault(text),
        Err(CommandFault::Stalled { writer }) => say_stalled(text, writer),
    }
}
