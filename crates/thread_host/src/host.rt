//! What runs a scenario on threads.
ghost use Rattle.std.specs.Prelude.{◌≡◌, [], ◌∷◌, IsSomeAnd, IfOk};
ghost use Rattle.trace_model.specs.Calls.{Flushed};
ghost use Rattle.chunk_plain.specs.Plain.{first_world};
ghost use Rattle.chunk_plain.specs.Views.{asked_in};
ghost use Rattle.chunk_words.specs.Sits.{setup_in, known_by_pass};
ghost use Rattle.scenario_text.specs.Raws.{RawsNone};
ghost use Rattle.scenario_text.specs.Scenario.{IsScenario, parts_of};
ghost use Rattle.replay_model.specs.Played.{buffers_of};
ghost use Rattle.thread_service.specs.Serving.{view_in};
ghost use Rattle.thread_host.specs.Hosts.{IsHost, AreReady, HavePlayed, ClosesNone};
ghost use Rattle.thread_host.specs.Terms.{HaveRun, PlaysJob, ServiceRuns, StaysHost};

use crate::answering::answer_all;
use crate::making::fill_writers;
use crate::running::run_named;
use crate::tally::Tally;
use byte_io::put::WriteFault;
use byte_io::traits::{Gate, Sink};
use chunk_words::{HostTable, ReadPass, WriterSeat};
use loss_report::Done;
use replay_host::{buffer_specs, count_requests, make_done, producer_specs};
use scenario_text::Scenario;
use std::alloc::{AllocError, Global};
use std::marker::Brand;
use std::sync::Wait;
use std::sync::ledger::Blank;
use std::thread::Threads;
use thread_service::Service;
use thread_writer::TraceWriter;
use trace_base::policy::WriterSpec;

/// A table of chunks that threads share, its service with the reading pass, and room for what comes
/// behind a run. The service and the tally of its writers' answers are away only while a run goes on.
pub struct Host {
    pub(crate) alloc: Global,
    pub(crate) table: HostTable,
    pub(crate) service: Option<Service>,
    pub(crate) tally: Option<Tally>,
    pub(crate) pass: ReadPass,
    pub(crate) specs: Vec<WriterSpec>,
    /// How many producers there are.
    pub(crate) producers: u16,
    pub(crate) seats: Vec<WriterSeat>,
    pub(crate) counts: Done,
}

impl Host {
    /// What runs the scenario, whose service knows nothing yet, with its writers, of which nothing was
    /// asked. All memory that a run ever needs is taken here; what it takes more only lets it find each
    /// writer's lines sooner.
    pub fn make(alloc: Global, scenario: &Scenario) -> Result<(Host, Vec<TraceWriter>), AllocError>
        requires scenario { IsScenario scenario.now }
        requires closes { ClosesNone scenario.now.lines }
        requires raws { RawsNone scenario.now.lines }
        ensures host { IfOk result (λ made. IsHost (parts_of scenario.now) made.0) }
        ensures fresh { IfOk result (λ made. IsSomeAnd made.0.service (λ service.
            view_in service ≡ (first_world (setup_in made.0.table)).service)) }
        ensures writers { IfOk result (λ made. AreReady scenario.now.lines made.0.table made.1.items) }
        ensures unread { IfOk result (λ made. (known_by_pass made.0.pass).events ≡ []) }
        ensures unasked { IfOk result (λ made. asked_in (known_by_pass made.0.pass).letters ≡ 0) }
    {
        let producers = producer_specs(alloc, &scenario.producers)?;
        let buffers = buffer_specs(alloc, &scenario.buffers)?;
        let (table, given, mut seat) = HostTable::make(alloc, &producers, &scenario.writers)?;
        let pass = table.pass(&mut seat);
        let service = Service::make(alloc, &buffers, &producers, &scenario.writers, seat)?;
        let counts = make_done(alloc, scenario.buffers.len(), scenario.writers.len())?;
        let tally = Tally::make(
            alloc,
            count_requests(&scenario.lines),
            scenario.writers.len(),
        )?;
        let specs = scenario.writers.as_slice().to_vec(alloc)?;
        let seats = Vec::with_capacity(alloc, specs.len())?;
        // A writer has to be ended, so it is made once nothing can fail any more.
        let mut writers = Vec::with_capacity(alloc, specs.len())?;
        fill_writers(&mut writers, &table, given, &specs, &producers);
        let host = Host {
            alloc,
            table,
            service: Some(service),
            tally: Some(tally),
            pass,
            specs,
            producers: scenario.producers.len() as u16,
            seats,
            counts,
        };
        Ok((host, writers))
    }

    /// Runs the scenario: each writer plays its lines on a thread of its own, beside the service's own
    /// lines. The sink takes the records of the reads. The service plays its lines in their order, and after a
    /// write fault no more of them; nothing comes between them but chunks taken for writers that may ask for
    /// help, and answers that are read. What the
    /// service knows grows by what is collected, scraped and read, by flush requests and the answers to
    /// them, and by nothing else. A line scrapes each producer that is scraped; and one collects or scrapes
    /// each that is collected, or a writer of the producer asks for help. Once all jobs are done each writer
    /// has answered the last flush request.
    pub fn run<R: Threads + Wait + Sync, T: Sink + Send, G: Gate + Sync>(
        &mut self,
        rt: &R,
        scenario: &Scenario,
        writers: &mut Vec<TraceWriter>,
        out: &mut T,
        gate: &G,
    ) -> Result<(), WriteFault>
        requires host { IsHost (parts_of scenario.now) self.old }
        requires writers { AreReady scenario.now.lines self.old.table writers.old.items }
        requires unasked { asked_in (known_by_pass self.old.pass).letters ≡ 0 }
        requires may { T.may_write out.old }
        ensures host { StaysHost (parts_of scenario.now) self.old self.new }
        ensures service { ServiceRuns (setup_in self.old.table)
            (buffers_of (parts_of scenario.now) (setup_in self.old.table)) scenario.now.lines
            self.old.service self.new.service result }
        ensures writers { HaveRun scenario.now.lines self.new.table (asked_in (known_by_pass self.new.pass).letters) writers.new.items }
        ensures job { PlaysJob (setup_in self.old.table)
            (buffers_of (parts_of scenario.now) (setup_in self.old.table)) scenario.now.lines self.old.table
            (record { pass = self.old.pass; taken = T.taken out.old; faults = T.faults out.old })
            (record { pass = self.new.pass; taken = T.taken out.new; faults = T.faults out.new }) (T.may_write out.new) result }
    {
        let told = self.run_jobs(rt, scenario, writers, out, gate);
        answer_all(&self.table, &mut self.pass, writers.as_mut_slice());
        told
    }

    /// The jobs of a run: the service's, and one for each writer.
    fn run_jobs<R: Threads + Wait + Sync, T: Sink + Send, G: Gate + Sync>(
        &mut self,
        rt: &R,
        scenario: &Scenario,
        writers: &mut Vec<TraceWriter>,
        out: &mut T,
        gate: &G,
    ) -> Result<(), WriteFault>
        requires host { IsHost (parts_of scenario.now) self.old }
        requires writers { AreReady scenario.now.lines self.old.table writers.old.items }
        requires unasked { asked_in (known_by_pass self.old.pass).letters ≡ 0 }
        requires may { T.may_write out.old }
        ensures host { StaysHost (parts_of scenario.now) self.old self.new }
        ensures service { ServiceRuns (setup_in self.old.table)
            (buffers_of (parts_of scenario.now) (setup_in self.old.table)) scenario.now.lines
            self.old.service self.new.service result }
        ensures played { HavePlayed scenario.now.lines (Flushed ∷ []) self.new.table writers.new.items }
        ensures job { PlaysJob (setup_in self.old.table)
            (buffers_of (parts_of scenario.now) (setup_in self.old.table)) scenario.now.lines self.old.table
            (record { pass = self.old.pass; taken = T.taken out.old; faults = T.faults out.old })
            (record { pass = self.new.pass; taken = T.taken out.new; faults = T.faults out.new }) (T.may_write out.new) result }
    {
        let Some(service) = self.service.take() else {
            unreachable!()
        };
        let Some(tally) = self.tally.take() else {
            unreachable!()
        };
        let many = u16::try_from(self.specs.len()).unwrap_or(u16::MAX);
        let own = scenario.lines.by_writers(self.alloc, many);
        let (service, tally, told) = run_named::<Brand, R, G, T, Brand>(
            rt,
            gate,
            &self.table,
            service,
            tally,
            &self.specs,
            &scenario.lines,
            &own,
            &mut self.pass,
            out,
            writers.as_mut_slice(),
            Blank::new(1),
            Blank::new(1),
        );
        self.service = Some(service);
        self.tally = Some(tally);
        told
    }
}
