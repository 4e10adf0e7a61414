//! The jobs of a run, beside each other.
ghost use Rattle.std.specs.Prelude.{◌≡◌, ◌<◌, [], ◌∷◌, length};
ghost use Rattle.trace_model.specs.Calls.{Flushed};
ghost use Rattle.chunk_plain.specs.Setup.{producer_of};
ghost use Rattle.thread_host.specs.Hosts.{HasPlayed, HavePlayedFrom, IsReady};
ghost use Rattle.thread_host.specs.Terms.{AreNamed, AreReadyNamed, Begins, ComesBack, IsBlankOf, MayPlay, PlaysJob};

use crate::job::service_job;
use crate::locked::{Locked, Readings, Takings, Turns};
use crate::name::{HostName, TakingsName};
use crate::tally::Tally;
use crate::writing::writer_job;
use byte_io::put::WriteFault;
use byte_io::traits::{Gate, Sink};
use chunk_words::{HostTable, ReadPass};
use scenario_text::{LineList, LinesByWriter};
use std::marker::Brand;
use std::sync::ledger::{Blank, Ledger};
use std::sync::{Mutex, Wait};
use std::thread::{Threads, join_mut};
use thread_service::Service;
use thread_writer::TraceWriter;
use trace_base::policy::WriterSpec;

/// How many writers a thread starts one after the other. More of them are halved first, so that the
/// stack doesn't grow with their number.
const MOST_STARTS: usize = 64;

/// The writers from a place on play their lines, each on a thread of its own, where one can be made. They
/// are started from the first to the last and by one thread, since threads that start others at the same
/// time wait for one another, and the last of a long chain begins late.
#[cycle(starting)]
fn writers_from<N: HostName + Send + Sync, R: Threads + Wait + Sync, G: Gate + Sync>(
    rt: &R,
    gate: &G,
    table: &HostTable,
    service: &Mutex<Locked<N>>,
    specs: &[WriterSpec],
    lines: &LinesByWriter<'_>,
    from: usize,
    writers: &mut [TraceWriter],
)
    requires ready { AreReadyNamed N.table N.setup N.lines table.now specs.now lines.now from writers.old }
    ensures played { HavePlayedFrom lines.now table.now from writers.old writers.new }
{
    match writers.len() {
        0 => {}
        1 => counted_job(
            rt,
            gate,
            table,
            service,
            specs,
            lines,
            from,
            &mut writers[0],
        ),
        many => {
            let front = if many > MOST_STARTS { many / 2 } else { 1 };
            let (first, rest) = writers.split_at_mut(front);
            start_both(
                rt,
                gate,
                table,
                service,
                specs,
                lines,
                from,
                first,
                from + front,
                rest,
            );
        }
    }
}

/// The first writers begin on a thread of their own, where one can be made, and the rest are started by
/// this one. It is apart, so that what its closures require is what it is given.
#[cycle(starting)]
fn start_both<N: HostName + Send + Sync, R: Threads + Wait + Sync, G: Gate + Sync>(
    rt: &R,
    gate: &G,
    table: &HostTable,
    service: &Mutex<Locked<N>>,
    specs: &[WriterSpec],
    lines: &LinesByWriter<'_>,
    from: usize,
    first: &mut [TraceWriter],
    behind: usize,
    rest: &mut [TraceWriter],
)
    requires some { (0 < length first.old) × (0 < length rest.old) }
    requires first { AreReadyNamed N.table N.setup N.lines table.now specs.now lines.now from first.old }
    requires rest { AreReadyNamed N.table N.setup N.lines table.now specs.now lines.now behind rest.old }
    ensures { HavePlayedFrom lines.now table.now from first.old first.new × HavePlayedFrom lines.now table.now behind rest.old rest.new }
{
    let mut play_first = ||
        requires { AreReadyNamed N.table N.setup N.lines table.now specs.now lines.now from first.now }
        ensures { HavePlayedFrom lines.entry.now table.entry.now from first.entry.now first.exit.now }
    { writers_from(rt, gate, table, service, specs, lines, from, first) };
    let mut start_rest = ||
        requires { AreReadyNamed N.table N.setup N.lines table.now specs.now lines.now behind rest.now }
        ensures { HavePlayedFrom lines.entry.now table.entry.now behind rest.entry.now rest.exit.now }
    { writers_from(rt, gate, table, service, specs, lines, behind, rest) };
    join_mut(rt, &mut play_first, &mut start_rest);
}

/// A writer's job, with a count of its own of how often it has chunks of its producer taken.
fn counted_job<N: HostName, R: Wait, G: Gate>(
    rt: &R,
    gate: &G,
    table: &HostTable,
    service: &Mutex<Locked<N>>,
    specs: &[WriterSpec],
    lines: &LinesByWriter<'_>,
    place: usize,
    writer: &mut TraceWriter,
)
    requires named { AreNamed N.table N.setup N.lines table.now specs.now lines.now }
    requires ready { IsReady lines.now table.now place writer.old }
    ensures played { HasPlayed lines.now (Flushed ∷ []) table.now place writer.new }
{
    job_on::<N, R, G, Brand>(
        rt,
        gate,
        table,
        service,
        specs,
        lines,
        place,
        writer,
        Blank::new(1),
    );
}

/// The job, with that count on the ledger of a blank.
fn job_on<N: HostName, R: Wait, G: Gate, K: TakingsName>(
    rt: &R,
    gate: &G,
    table: &HostTable,
    service: &Mutex<Locked<N>>,
    specs: &[WriterSpec],
    lines: &LinesByWriter<'_>,
    place: usize,
    writer: &mut TraceWriter,
    takings: Blank,
)
    requires named { AreNamed N.table N.setup N.lines table.now specs.now lines.now }
    requires ready { IsReady lines.now table.now place writer.old }
    requires takings { IsBlankOf K.name K.parts takings }
    requires own { K.producer ≡ producer_of N.setup place }
    ensures played { HasPlayed lines.now (Flushed ∷ []) table.now place writer.new }
{
    let takings = Takings::<K>::new(takings);
    let _asked = writer_job(
        rt, gate, table, service, specs, lines, place, writer, takings,
    );
}

/// The service plays its lines beside the writers, each of which plays its own. The service comes back
/// as one of the same table, with the tally of the answers that it has read. How many turns its lines took
/// stands on the ledger of the first blank, which the table's name has, and how often it had answers read on
/// that of the second.
pub fn run_named<
    N: HostName + Send + Sync,
    R: Threads + Wait + Sync,
    G: Gate + Sync,
    O: Sink + Send,
    K: Ledger + Send,
>(
    rt: &R,
    gate: &G,
    table: &HostTable,
    service: Service,
    tally: Tally,
    specs: &[WriterSpec],
    lines: &LineList,
    own: &LinesByWriter<'_>,
    pass: &mut ReadPass,
    out: &mut O,
    writers: &mut [TraceWriter],
    turns: Blank,
    readings: Blank,
) -> (Service, Tally, Result<(), WriteFault>)
    requires plays { MayPlay N.parts N.all N.table N.setup N.lines table.now lines.now pass.old × O.may_write out.old }
    requires service { Begins N.table N.setup N.first N.lines N.start service tally }
    requires ready { AreReadyNamed N.table N.setup N.lines table.now specs.now own.now 0 writers.old }
    requires ledgers { IsBlankOf N.name N.parts turns × IsBlankOf K.name K.parts readings }
    ensures service { ComesBack N.table N.setup N.first N.lines N.start result.0 result.1 result.2 }
    ensures job { PlaysJob N.setup N.first lines.now table.now
        (record { pass = pass.old; taken = O.taken out.old; faults = O.faults out.old })
        (record { pass = pass.new; taken = O.taken out.new; faults = O.faults out.new }) (O.may_write out.new) result.2 }
    ensures played { HavePlayedFrom own.now table.now 0 writers.old writers.new }
{
    let (book, share) = turns.open::<N>();
    let locked = Mutex::new(Locked::<N>::new(service, tally, book));
    let mut turns = Turns::<N>::new(share);
    let mut readings = Readings::<K>::new(readings);
    let (told, ()) = join_mut(
        rt,
        &mut || {
            service_job(
                rt,
                gate,
                table,
                &locked,
                lines,
                pass,
                out,
                &mut turns,
                &mut readings,
            )
        },
        &mut ||
            requires { AreReadyNamed N.table N.setup N.lines table.now specs.now own.now 0 writers.now }
        { writers_from(rt, gate, table, &locked, specs, own, 0, writers) },
    );
    let (service, tally) = locked.into_inner().into_parts(turns);
    (service, tally, told)
}
