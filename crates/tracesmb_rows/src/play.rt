//! One call of the top call over objects in memory.
ghost use Rattle.std.specs.Prelude.{◌≡◌, ◌≢◌, ◌⊎◌, ◌<◌, ◌≤◌, ℕ, List, [], length, map, Some, IfSome, IfOk};
ghost use Rattle.std.specs.String.{string_bytes};
ghost use Rattle.byte_io.specs.Bytes.{told, after_told, Faulted};
ghost use Rattle.byte_io.specs.Memory.{mem_sink_taken, mem_sink_faults};
ghost use Rattle.command_words.specs.declared.command.Command.{Command};
ghost use Rattle.tracesmb_top.specs.Words.{Ask, AskForNothing, LeavesReport, PlaysByLine, ReadsInput};
ghost use Rattle.tracesmb_top.specs.Commands.{Accepts, HasStalled, IsGiven, Refuses, Wrote, WrotePart};
ghost use Rattle.tracesmb_top.specs.Answers.{Says, SaysBehind, usage_line, memory_line, write_line, stalled_line, long_line};

use byte_io::memory::{MemSink, MemSource};
use byte_io::traits::{OpenGate, Sink, Source};
use std::alloc::{AllocError, Global};
use std::sync::Wait;
use std::thread::Threads;
use trace_base::limits::MAX_INPUT;
use tracesmb_top::trace_top;

/// Room for everything that a test writes.
pub const AMPLE: usize = 100_000;

/// A status, with what was written.
#[derive(Drop)]
pub struct Played {
    pub status: u8,
    pub trace: MemSink,
    pub text: MemSink,
}

/// The words as owned texts.
pub fn owned_words(alloc: Global, words: &[&str]) -> Result<Vec<String>, AllocError>
    ensures { IfOk result (λ owned. map string_bytes owned.items ≡ map (λ word. word.now) words.now) }
{
    let mut owned = Vec::new(alloc);
    for word in words {
        owned.push(String::from_str(alloc, word)?)?;
    }
    Ok(owned)
}

/// Calls the top call, and answers its status.
pub fn status_of<R: Threads + Wait + Sync + AllocGlobal, S: Source, T: Sink + Send, O: Sink>(
    rt: &R,
    words: &[&str],
    input: &mut S,
    trace: &mut T,
    text: &mut O,
) -> Result<u8, AllocError>
    requires input { S.may_ask input.old }
    requires trace { T.may_write trace.old }
    requires text { (sink : O) → O.may_write sink }
    ensures unknown { IfOk result (λ status. status ≡ 2 → AskForNothing (map (λ word. word.now) words.now)) }
    ensures writes { IfOk result (λ status. status ≡ 0 → (command : Command) × (given report : List ℕ)
        × Ask (map (λ word. word.now) words.now) command × IsGiven command (S.left input.old) given
        × Wrote command given (T.taken trace.old) (T.taken trace.new) report
        × (O.taken text.new ≡ after_told (O.taken text.old) report)) }
    ensures read_fault { IfOk result (λ status. (status ≡ 4 → Faulted (S.faults input.old) (S.faults input.new))
        × (S.faults input.old < S.faults input.new → status ≡ 4)) }
    ensures write_fault { IfOk result (λ status. (status ≡ 5 → Faulted (T.faults trace.old) (T.faults trace.new)
        ⊎ Faulted (O.faults text.old) (O.faults text.new))
        × (T.faults trace.old < T.faults trace.new → status ≡ 5)) }
    ensures untouched { IfOk result (λ status. status ≢ 0 → status ≢ 5 → status ≢ 6 → T.taken trace.new ≡ T.taken trace.old) }
{
    let words = owned_words(rt.alloc(), words)?;
    Ok(trace_top(rt, rt.alloc(), &words, input, trace, text, &OpenGate))
}

/// Calls the top call with an input in memory and ample room.
pub fn play<R: Threads + Wait + Sync + AllocGlobal>(
    rt: &R,
    words: &[&str],
    input: &[u8],
) -> Result<Played, AllocError>
    ensures known { IfOk result (λ played. (played.status ≤ 3) ⊎ ((5 ≤ played.status) × (played.status ≤ 7))) }
    ensures unknown { IfOk result (λ played. played.status ≡ 2 → AskForNothing (map (λ word. word.now) words.now)) }
    ensures words { IfOk result (λ played. AskForNothing (map (λ word. word.now) words.now) → (played.status ≡ 2) ⊎ (played.status ≡ 1)) }
    ensures writes { IfOk result (λ played. played.status ≡ 0 → (command : Command) × (given report : List ℕ)
        × Ask (map (λ word. word.now) words.now) command × IsGiven command (Some input.now) given
        × Wrote command given (told [] []) (told (mem_sink_taken played.trace) []) report
        × (told (mem_sink_taken played.text) [] ≡ after_told (told [] []) report)) }
    ensures complete { IfOk result (λ played. (command : Command) → Ask (map (λ word. word.now) words.now) command
        → mem_sink_faults played.trace ≡ 0 → (LeavesReport command → mem_sink_faults played.text ≡ 0)
        → (ReadsInput command → Accepts command (Some input.now))
        → (played.status ≡ 0) ⊎ (played.status ≡ 1) ⊎ (PlaysByLine command × (played.status ≡ 6))) }
    ensures refused { IfOk result (λ played. played.status ≡ 3 → (command : Command) × (given line : List ℕ)
        × Ask (map (λ word. word.now) words.now) command × IsGiven command (Some input.now) given × Refuses command given line
        × Says (told [] []) (told (mem_sink_taken played.text) []) 0 (mem_sink_faults played.text) line) }
    ensures refuses { IfOk result (λ played. (command : Command) → Ask (map (λ word. word.now) words.now) command
        → length input.now ≤ MAX_INPUT → (line : List ℕ) → Refuses command input.now line
        → (played.status ≡ 3) ⊎ (played.status ≡ 1)) }
    ensures part { IfOk result (λ played. played.status ≡ 5 → (command : Command) × (given : List ℕ)
        × Ask (map (λ word. word.now) words.now) command × IsGiven command (Some input.now) given
        × ((WrotePart command given (told [] []) (told (mem_sink_taken played.trace) []) × Faulted 0 (mem_sink_faults played.trace)
        × Says (told [] []) (told (mem_sink_taken played.text) []) 0 (mem_sink_faults played.text) write_line)
        ⊎ (LeavesReport command × (report : List ℕ) × Wrote command given (told [] []) (told (mem_sink_taken played.trace) []) report
        × SaysBehind (told [] []) (told (mem_sink_taken played.text) []) 0 (mem_sink_faults played.text) report write_line))) }
    ensures stalled { IfOk result (λ played. played.status ≡ 6 → (command : Command) × (given : List ℕ) × (writer : ℕ)
        × Ask (map (λ word. word.now) words.now) command × IsGiven command (Some input.now) given
        × HasStalled command given writer (told [] []) (told (mem_sink_taken played.trace) [])
        × Says (told [] []) (told (mem_sink_taken played.text) []) 0 (mem_sink_faults played.text) (stalled_line writer)) }
    ensures says_memory { IfOk result (λ played. played.status ≡ 1
        → Says (told [] []) (told (mem_sink_taken played.text) []) 0 (mem_sink_faults played.text) memory_line) }
    ensures says_usage { IfOk result (λ played. played.status ≡ 2
        → Says (told [] []) (told (mem_sink_taken played.text) []) 0 (mem_sink_faults played.text) usage_line) }
    ensures says_long { IfOk result (λ played. played.status ≡ 7
        → Says (told [] []) (told (mem_sink_taken played.text) []) 0 (mem_sink_faults played.text) long_line) }
    ensures quiet { IfOk result (λ played. played.status ≡ 0 → (command : Command) → Ask (map (λ word. word.now) words.now) command
        → (LeavesReport command → ⊥) → mem_sink_taken played.text ≡ []) }
    ensures too_long { IfOk result (λ played. played.status ≡ 7 → MAX_INPUT < length input.now) }
    ensures untouched { IfOk result (λ played. played.status ≢ 0 → played.status ≢ 5 → played.status ≢ 6
        → mem_sink_taken played.trace ≡ []) }
{
    let words = owned_words(rt.alloc(), words)?;
    let mut source = MemSource::new(input.to_vec(rt.alloc())?);
    let mut trace = MemSink::with_room(rt.alloc(), AMPLE)?;
    let mut text = MemSink::with_room(rt.alloc(), AMPLE)?;
    let status = trace_top(
        rt,
        rt.alloc(),
        &words,
        &mut source,
        &mut trace,
        &mut text,
        &OpenGate,
    );
    Ok(Played {
        status,
        trace,
        text,
    })
}
