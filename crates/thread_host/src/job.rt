//! The service's own job of a run.
ghost use Rattle.std.specs.Prelude.{◌≡◌, ℕ, suc, ◌+◌, length, MatchResult, OnOk, if◌then◌else◌};
ghost use Rattle.chunk_words.specs.Sits.{known_by_pass};
ghost use Rattle.run_model.specs.Lines as own;
ghost use Rattle.run_model.specs.Lines.{service_lines};
ghost use Rattle.thread_host.specs.Keeping.{IsNamed};
ghost use Rattle.thread_host.specs.Jobs.{FailsLine, TellsLine};
ghost use Rattle.thread_host.specs.Terms.{KnowsWhole, LeavesSink, MayPlay, MayPlayLine, PlaysJob};

use crate::locked::{Locked, Readings, Turns};
use crate::name::HostName;
use byte_io::put::WriteFault;
use byte_io::traits::{Gate, Sink};
use chunk_words::{HostTable, ReadPass};
use scenario_text::{LineKind, LineList};
use std::sync::ledger::Ledger;
use std::sync::{Mutex, Wait};

/// Plays the service's lines, in their order: it collects, scrapes, reads and makes flush requests, each
/// with the lock taken once. Before each it passes the gate and then reads its writers' answers; and it
/// passes the gate once behind the last. A write that fails ends it.
pub fn service_job<N: HostName, R: Wait, G: Gate, O: Sink, K: Ledger>(
    rt: &R,
    gate: &G,
    table: &HostTable,
    service: &Mutex<Locked<N>>,
    lines: &LineList,
    pass: &mut ReadPass,
    out: &mut O,
    turns: &mut Turns<N>,
    readings: &mut Readings<K>,
) -> Result<(), WriteFault>
    requires plays { MayPlay N.parts N.all N.table N.setup N.lines table.now lines.now pass.old }
    requires first { turns.old ≡ 0 }
    requires may { O.may_write out.old }
    ensures job { PlaysJob N.setup N.first lines.now table.now
        (record { pass = pass.old; taken = O.taken out.old; faults = O.faults out.old })
        (record { pass = pass.new; taken = O.taken out.new; faults = O.faults out.new }) (O.may_write out.new) result }
    ensures turns { MatchResult result (λ _. turns.new ≡ length (service_lines lines.now) + length (service_lines lines.now))
        (λ _. (done : ℕ) × (turns.new ≡ suc (done + done))) }
    ensures reads { OnOk result (readings.new ≡ readings.old + length (service_lines lines.now)) }
{
    // There are never so many lines that the number stands still.
    let mut number: u64 = 1;
    let mut walk = lines.walk();
    'lines: while let Some(line) = walk.next() {
        number = begin_line(rt, gate, table, service, &line.what, number, readings);
        play_line(rt, table, service, &line.what, pass, out, turns)?;
    }
    gate.pass(0, number);
    Ok(())
}

/// Before a line of the service's own it passes the gate, and then reads its writers' answers. Answers the
/// number under which the gate is to be passed next.
fn begin_line<N: HostName, R: Wait, G: Gate, K: Ledger>(
    rt: &R,
    gate: &G,
    table: &HostTable,
    service: &Mutex<Locked<N>>,
    line: &LineKind<'_>,
    number: u64,
    readings: &mut Readings<K>,
) -> u64
    requires table { IsNamed N.table N.setup table.now }
    ensures reads { readings.new ≡ readings.old + (if own.is_service_line line.now then 1 else 0) }
{
    if is_service_line(line) {
        gate.pass(0, number);
        service.lock(rt).read_answers(table, readings);
        number.saturating_add(1)
    } else {
        number
    }
}

/// Whether the line is the service's own.
fn is_service_line(line: &LineKind<'_>) -> bool
    ensures { result ≡ own.is_service_line line.now }
{
    match line {
        LineKind::Collect { producer: _ } => true,
        LineKind::Scrape { producer: _ } => true,
        LineKind::Read {
            buffer: _,
            limit: _,
        } => true,
        LineKind::Request => true,
        _ => false,
    }
}

/// Plays a line, where it is one of the service's.
fn play_line<N: HostName, R: Wait, O: Sink>(
    rt: &R,
    table: &HostTable,
    service: &Mutex<Locked<N>>,
    line: &LineKind<'_>,
    pass: &mut ReadPass,
    out: &mut O,
    turns: &mut Turns<N>,
) -> Result<(), WriteFault>
    requires line { MayPlayLine N.parts N.all N.setup N.lines turns.old line.now pass.old }
    requires table { IsNamed N.table N.setup table.now }
    requires pass { KnowsWhole table.now pass.old }
    requires may { O.may_write out.old }
    ensures pass { KnowsWhole table.now pass.new }
    ensures told { MatchResult result
        (λ _. TellsLine N.setup N.first line.now (known_by_pass pass.old) (known_by_pass pass.new) (O.taken out.old) (O.taken out.new))
        (λ _. FailsLine N.setup N.first line.now (known_by_pass pass.old) (known_by_pass pass.new) (O.taken out.old) (O.taken out.new)) }
    ensures sink { LeavesSink (O.taken out.old) (O.taken out.new) (O.faults out.old) (O.faults out.new) (O.may_write out.new) result }
    ensures turns { MatchResult result (λ _. turns.new ≡ turns.old + (if own.is_service_line line.now then 2 else 0))
        (λ _. turns.new ≡ turns.old + 1) }
{
    match line {
        LineKind::Collect { producer } => {
            let _taken = service.lock(rt).collect_for_line(table, *producer, turns);
            Ok(())
        }
        LineKind::Scrape { producer } => {
            let _taken = service.lock(rt).scrape(table, *producer, turns);
            Ok(())
        }
        LineKind::Read { buffer, limit } => {
            match service
                .lock(rt)
                .read_passing(table, pass, *buffer, *limit, out, turns)
            {
                Ok(_) => Ok(()),
                Err(fault) => Err(fault),
            }
        }
        LineKind::Request => {
            service.lock(rt).request_passing(table, pass, turns);
            Ok(())
        }
        _ => Ok(()),
    }
}
