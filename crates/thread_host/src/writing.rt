//! A writer's job of a run.
ghost use Rattle.std.specs.Prelude.{◌≡◌, suc, ◌+◌, ◌*◌, ◌≤◌, true, [], ◌∷◌};
ghost use Rattle.trace_model.specs.Calls.{Flushed};
ghost use Rattle.chunk_plain.specs.Setup.{producer_of};
ghost use Rattle.replay_model.specs.Does.{asks_for};
ghost use Rattle.service_core.specs.Agreement.{spec_at};
ghost use Rattle.run_model.specs.Collected as collected;
ghost use Rattle.run_model.specs.Collected.{may_ask};
ghost use Rattle.thread_host.specs.Hosts.{IsReady, HasPlayed};
ghost use Rattle.thread_host.specs.Playing.{lost_in};
ghost use Rattle.thread_host.specs.Terms.{AreNamed, IsBlankOf};

use crate::help::{IdleHelp, LockHelp};
use crate::locked::{Locked, Takings};
use crate::name::{HostName, TakingsName};
use crate::playing::play_all;
use byte_io::traits::Gate;
use chunk_words::HostTable;
use scenario_text::{LineKind, LinesByWriter};
use std::marker::Brand;
use std::sync::ledger::{Blank, Ledger};
use std::sync::{Mutex, Wait};
use thread_writer::{Asks, TraceWriter};
use trace_base::policy::{WriterPolicy, WriterSpec};
use trace_writer::NoHelp;

/// Plays the writer's lines, in their order, and then a flush, and passes the gate before each. Behind the
/// gate, and before a line, it answers the newest flush request where no packet is begun. A writer that
/// drops takes no lock, nor does one that begins no packet; another one that stalls, for ever or so often,
/// takes it where it asks for chunks. For each packet that it lost, the service was asked behind that lock
/// to take chunks of the writer's own producer as often, at least, as its policy lets it ask for one chunk.
pub fn writer_job<N: HostName, R: Wait, G: Gate, K: TakingsName>(
    rt: &R,
    gate: &G,
    table: &HostTable,
    service: &Mutex<Locked<N>>,
    specs: &[WriterSpec],
    lines: &LinesByWriter<'_>,
    place: usize,
    writer: &mut TraceWriter,
    takings: Takings<K>,
) -> Takings<K>
    requires named { AreNamed N.table N.setup N.lines table.now specs.now lines.now }
    requires ready { IsReady lines.now table.now place writer.old }
    requires own { K.producer ≡ producer_of N.setup place }
    ensures played { HasPlayed lines.now (Flushed ∷ []) table.now place writer.new }
    ensures asks { takings + asks_for (spec_at N.setup.writers place).policy * lost_in writer.new ≤ result }
{
    let number = place as u16 + 1;
    if !asks_help(writer.policy()) {
        let mut help = Asks { help: NoHelp };
        play_all::<G, NoHelp, Brand>(gate, table, &mut help, Blank::new(1), lines, number, writer);
        return takings;
    }
    if !begins_packets(lines, number) {
        let mut help = Asks {
            help: IdleHelp { rt },
        };
        play_all::<G, IdleHelp<'_, R>, Brand>(
            gate,
            table,
            &mut help,
            Blank::new(1),
            lines,
            number,
            writer,
        );
        return takings;
    }
    play_helped::<N, R, G, Brand, K>(
        rt,
        gate,
        table,
        service,
        specs,
        Blank::new(1),
        lines,
        place,
        number,
        writer,
        takings,
    )
}

/// Whether a writer with this policy asks for help where it needs a chunk and finds none free.
fn asks_help(policy: WriterPolicy) -> bool
    ensures { result ≡ collected.asks_help policy }
{
    match policy {
        WriterPolicy::Drops => false,
        WriterPolicy::Stalls => true,
        WriterPolicy::StallsThenDrops { tries: _ } => true,
    }
}

/// Whether one of the writer's lines begins a packet.
fn begins_packets(lines: &LinesByWriter<'_>, number: u16) -> bool
    ensures { result ≡ collected.begins_packets number lines.now }
{
    let mut walk = lines.walk_of(number);
    'lines: while let Some(line) = walk.next() {
        if begins_packet(&line) {
            return true;
        }
    }
    false
}

/// Whether the line has its writer begin a packet.
fn begins_packet(line: &LineKind<'_>) -> bool
    ensures { result ≡ collected.begins_packet line.now }
{
    match line {
        LineKind::Packet {
            writer: _,
            fields: _,
        } => true,
        LineKind::Begin { writer: _ } => true,
        _ => false,
    }
}

/// Plays them with a helper that takes the lock, and counts how often it has chunks of the writer's
/// producer taken.
fn play_helped<N: HostName, R: Wait, G: Gate, L: Ledger, K: TakingsName>(
    rt: &R,
    gate: &G,
    table: &HostTable,
    service: &Mutex<Locked<N>>,
    specs: &[WriterSpec],
    steps: Blank,
    lines: &LinesByWriter<'_>,
    place: usize,
    number: u16,
    writer: &mut TraceWriter,
    takings: Takings<K>,
) -> Takings<K>
    requires named { AreNamed N.table N.setup N.lines table.now specs.now lines.now }
    requires asks { may_ask N.setup N.lines place ≡ true }
    requires number { number ≡ suc place }
    requires ready { IsReady lines.now table.now place writer.old }
    requires own { K.producer ≡ producer_of N.setup place }
    requires steps { IsBlankOf L.name L.parts steps }
    ensures played { HasPlayed lines.now (Flushed ∷ []) table.now place writer.new }
    ensures asks { takings + asks_for (spec_at N.setup.writers place).policy * lost_in writer.new ≤ result }
{
    let mut help = Asks {
        help: LockHelp::new(rt, table, service, specs[place].producer, takings),
    };
    play_all::<G, LockHelp<'_, N, R, K>, L>(gate, table, &mut help, steps, lines, number, writer);
    let Asks { help } = help;
    help.into_takings()
}
