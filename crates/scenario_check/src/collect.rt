//! The packets that the writers of a scenario emit.
ghost use Rattle.std.specs.Prelude.{◌≡◌, ◌+◌, ◌≤◌, [], ◌∷◌, ◌++◌, List, length, map, filter, reverse, IfOk, OnOk};
ghost use Rattle.trace_model.specs.Packets.{Account, emissions_in};
ghost use Rattle.emitted_packets.specs.declared.emitter.Emitter.{Emitter};
ghost use Rattle.scenario_text.specs.declared.scenario.NumberedLine.{NumberedLine};
ghost use Rattle.scenario_text.specs.Scenario.{IsScenario, parts_of};
ghost use Rattle.scenario_text.specs.Emissions.{emitted_in};
ghost use Rattle.gap_check.specs.Taken.{AreFew};
ghost use Rattle.gap_check.specs.Verdicts.{AreUnmarked};
ghost use Rattle.scenario_check.specs.Emissions.{AreAsked};
ghost use Rattle.scenario_check.specs.Progress as progress;
ghost use Rattle.scenario_check.specs.Progress.{Holds, HaveTaken, MayCome};

use crate::emit::emit_line;
use emitted_packets::Emitter;
use packet_runs::Packets;
use scenario_text::{LineKind, LineList, NumberedLine, Scenario};
use std::alloc::{AllocError, Global};
use trace_base::limits::{MAX_INPUT, MAX_WRITERS};

/// The writer that a line names, and 0 for a line that names none.
fn named_writer(what: &LineKind<'_>) -> u16
    ensures { result ≡ progress.named_writer what.now }
{
    match what {
        LineKind::Packet { writer, fields: _ } => *writer,
        LineKind::Begin { writer } => *writer,
        LineKind::Add { writer, fields: _ } => *writer,
        LineKind::Nest { writer, field: _ } => *writer,
        LineKind::Unnest { writer } => *writer,
        LineKind::End { writer } => *writer,
        LineKind::Flush { writer } => *writer,
        _ => 0,
    }
}

/// Goes on with a line, which asks something of the writer that it names alone.
fn take_line(emitters: &mut [Emitter], line: &NumberedLine<'_>) -> Result<(), AllocError>
    requires { (lines : List NumberedLine) × HaveTaken lines emitters.old × MayCome (length emitters.old) (lines ++ line.now ∷ []) }
    ensures { OnOk result ((lines : List NumberedLine) → HaveTaken lines emitters.old
        → MayCome (length emitters.old) (lines ++ line.now ∷ []) → HaveTaken (lines ++ line.now ∷ []) emitters.new) }
{
    let writer = named_writer(&line.what) as usize;
    if writer == 0 || writer > emitters.len() {
        return Ok(());
    }
    emit_line(&mut emitters[writer - 1], &line.what)
}

/// Goes through all lines.
fn take_lines(emitters: &mut [Emitter], lines: &LineList) -> Result<(), AllocError>
    requires may { MayCome (length emitters.old) lines.now }
    requires none { HaveTaken [] emitters.old }
    ensures { OnOk result (HaveTaken lines.now emitters.new) }
{
    let mut walk = lines.walk();
    'lines: while let Some(line) = walk.next() {
        take_line(emitters, &line)?;
    }
    Ok(())
}

/// An emitter for each of so many writers.
fn make_emitters(alloc: Global, count: usize) -> Result<Vec<Emitter>, AllocError>
    ensures many { IfOk result (λ emitters. length emitters.items ≡ count) }
    ensures none { IfOk result (λ emitters. HaveTaken [] emitters.items) }
{
    let mut emitters = Vec::with_capacity(alloc, count)?;
    for _writer in 0..count {
        emitters.push(Emitter::new(alloc))?;
    }
    Ok(emitters)
}

/// The packets that an emitter has finished.
fn finish(emitter: Emitter) -> Packets
    requires { (account : Account) × Holds account emitter }
    ensures packets { (account : Account) → Holds account emitter
        → result ≡ emissions_in account.packets }
    ensures many { length result ≡ length emitter.ends.items }
{
    let Emitter {
        bytes,
        ends,
        opens: _,
    } = emitter;
    Packets::new(bytes, ends)
}

/// Those of all emitters.
fn finish_all(alloc: Global, emitters: Vec<Emitter>) -> Result<Vec<Packets>, AllocError>
    requires { (lines : List NumberedLine) × HaveTaken lines emitters.items }
    ensures { IfOk result (λ packets. (lines : List NumberedLine) → HaveTaken lines emitters.items
        → AreAsked lines (length emitters.items) packets.items) }
{
    let mut packets = Vec::with_capacity(alloc, emitters.len())?;
    for emitter in emitters {
        packets.push(finish(emitter))?;
    }
    Ok(packets)
}

/// The emitters of all writers of a scenario, once they have taken its lines.
fn emit_all(alloc: Global, scenario: &Scenario) -> Result<Vec<Emitter>, AllocError>
    requires { IsScenario scenario.now }
    ensures taken { IfOk result (λ emitters. HaveTaken scenario.now.lines emitters.items) }
    ensures many { IfOk result (λ emitters. length emitters.items ≡ length scenario.now.writers.items) }
{
    let mut emitters = make_emitters(alloc, scenario.writers.len())?;
    take_lines(&mut emitters, &scenario.lines)?;
    Ok(emitters)
}

/// The packets of each writer of a scenario.
pub(crate) fn scenario_packets(
    alloc: Global,
    scenario: &Scenario,
) -> Result<Vec<Packets>, AllocError>
    requires { IsScenario scenario.now }
    ensures packets { IfOk result (λ packets. packets.items ≡ emitted_in (parts_of scenario.now)) }
    ensures writers { IfOk result (λ packets. length packets.items ≤ MAX_WRITERS) }
    ensures few { IfOk result (λ packets. AreFew packets.items) }
    ensures clean { IfOk result (λ packets. AreUnmarked packets.items) }
{
    let emitters = emit_all(alloc, scenario)?;
    finish_all(alloc, emitters)
}
