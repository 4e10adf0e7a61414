//! The service behind a lock, the turns of its own lines, and how often it was asked there to take chunks and
//! to read answers.
ghost use Rattle.std.specs.Prelude.{◌≡◌, ◌+◌, ◌≤◌, true, length, MatchResult};
ghost use Rattle.chunk_plain.specs.Views.{asked_in};
ghost use Rattle.chunk_words.specs.Sits.{known_by_pass};
ghost use Rattle.scenario_text.specs.declared.scenario.LineKind.TheVariants as line;
ghost use Rattle.replay_model.specs.Flushes.{requests_in};
ghost use Rattle.service_core.specs.Agreement.{KeepsRest, KeepsTaking};
ghost use Rattle.service_core.specs.Reading.{ReadsAll, FailsAmong, read_moment};
ghost use Rattle.service_core.specs.Scraping.{TakesAndScrapes};
ghost use Rattle.service_core.specs.Taking.{Takes, places_of};
ghost use Rattle.run_model.specs.Collected.{has_asker, may_be_collected};
ghost use Rattle.run_model.specs.Scraped.{is_scraped_by};
ghost use Rattle.thread_service.specs.Serving.{core_of, view_in, desk_in};
ghost use Rattle.thread_host.specs.Growing.{Grows, IsHearing};
ghost use Rattle.thread_host.specs.Jobs.{FailsLine, TellsLine};
ghost use Rattle.thread_host.specs.Keeping.{IsNamed, IsWhole, ServesNamed, AllOpen, BeganWith, IsStarted, HasOwn};
ghost use Rattle.thread_host.specs.Keeping.{serves_named_prop, began_prop, started_prop, own_prop};
ghost use Rattle.thread_host.specs.Tally.{IsTally, KeepsAnswers, KeepsSession, answers_prop, tally_prop};
ghost use Rattle.thread_host.specs.Terms.{EndsTurn, HasRequested, HasTurn, IsBlankOf, IsKept, KnowsWhole, MayRequest, ReadsWith};
ghost use Rattle.thread_host.specs.Turns.{PlaysTurns};

use crate::name::{HostName, TakingsName};
use crate::reading::read_answers;
use crate::tally::Tally;
use byte_io::put::WriteFault;
use byte_io::traits::Sink;
use chunk_words::{HostTable, ReadPass};
use std::marker::{Model, PhantomData};
use std::sync::ledger::{Blank, Book, Ledger, Share};
use thread_service::Service;
use trace_base::steps::Steps;

/// How often helpers asked the service to take the chunks of the producer that the type names. Contracts
/// see a number; it takes no bytes when the program runs. Nothing raises it but the call of `Locked` by
/// which they ask: a body that says that it asked for them so often did so, on this service or on another
/// one of the same name.
#[derive(Drop)]
pub struct Takings<L: TakingsName> {
    steps: Steps<L>,
}

impl<L: TakingsName> Model for Takings<L> {
    ghost use Rattle.std.specs.Prelude.{ℕ};

    ghost Value = { ℕ };

    ghost view = { λ takings. takings.steps };
}

impl<L: TakingsName> Takings<L> {
    /// None yet, on a ledger of its own.
    pub fn new(blank: Blank) -> Self
        requires { IsBlankOf L.name L.parts blank }
        ensures { result ≡ 0 }
    {
        let steps = Steps::new(blank);
        Takings { steps }
    }

    /// One more.
    fn count(&mut self)
        ensures { self.new ≡ self.old + 1 }
    {
        self.steps.tick();
    }
}

/// How many turns the service's own lines took, in the hands of whoever plays them: one as a line begins,
/// and one once it's done. Contracts see a number; it takes no bytes when the program runs. It is the whole
/// share of a ledger whose book lies under the lock, so that both say the same number.
#[derive(Drop)]
pub struct Turns<N: HostName> {
    share: Share<N>,
}

impl<N: HostName> Model for Turns<N> {
    ghost use Rattle.std.specs.Prelude.{◌≡◌, ℕ};

    ghost Value = { ℕ };

    ghost view = { λ turns. turns.share.amount };

    ghost invariant = { λ turns. turns.share.parts ≡ N.all };
}

impl<N: HostName> Turns<N> {
    /// By a whole share.
    pub fn new(share: Share<N>) -> Self
        requires { share.parts ≡ N.all }
        ensures { result ≡ share.amount }
    {
        Turns { share }
    }
}

/// How often the service read its writers' answers. Contracts see a number; it takes no bytes when the
/// program runs. Nothing raises it but the call of `Locked` that reads them.
#[derive(Drop)]
pub struct Readings<L: Ledger> {
    steps: Steps<L>,
}

impl<L: Ledger> Model for Readings<L> {
    ghost use Rattle.std.specs.Prelude.{ℕ};

    ghost Value = { ℕ };

    ghost view = { λ readings. readings.steps };
}

impl<L: Ledger> Readings<L> {
    /// None yet, on a ledger of its own.
    pub fn new(blank: Blank) -> Self
        requires { IsBlankOf L.name L.parts blank }
        ensures { result ≡ 0 }
    {
        let steps = Steps::new(blank);
        Readings { steps }
    }

    /// One more.
    fn count(&mut self)
        ensures { self.new ≡ self.old + 1 }
    {
        self.steps.tick();
    }
}

/// The service of the table that its type names, none of whose sequences is closed. No image came by a
/// commit. What it knows is what the type says that it knew, and what was collected, scraped and read
/// since, with the flush requests that were made and the answers that were read. Of the lines that the type
/// names, one scrapes each producer that was scraped; and one collects or scrapes each that was collected,
/// or a writer of the producer asks for help. The book counts the turns of the service's own lines: they were
/// played in their order, and nothing came between them but chunks of producers one of whose writers asks for
/// help, and answers that were read. The tally is of the answers that the service has read, and has room for
/// as many requests as these lines make; and its session keeps of each writer just the newest of them.
#[derive(Drop)]
pub struct Locked<N: HostName> {
    pub(crate) service: Service,
    tally: Tally,
    book: Book<N>,
    of: PhantomData<N>,
    ghost serves: { ServesNamed N.table N.setup service } by { serves_named_prop N.table N.setup service },
    ghost open: { AllOpen N.setup service },
    ghost began: { BeganWith N.setup N.first service } by { began_prop N.setup N.first service },
    ghost own: { HasOwn service } by { own_prop service },
    ghost grows: { Grows N.setup N.lines N.start (view_in service) },
    ghost played: { PlaysTurns N.setup N.first N.lines book.total N.start (view_in service) },
    ghost started: { IsStarted service } by { started_prop service },
    ghost few: { asked_in (view_in service).letters ≤ requests_in N.lines },
    ghost tallied: { IsTally (requests_in N.lines) (length N.setup.writers) (view_in service).letters tally } by { tally_prop (requests_in N.lines) (length N.setup.writers) (view_in service).letters tally },
    ghost kept: { KeepsAnswers (length N.setup.writers) (view_in service).letters (core_of service).session } by { answers_prop (length N.setup.writers) (view_in service).letters (core_of service).session },
}

impl<N: HostName> Locked<N> {
    pub fn new(service: Service, tally: Tally, book: Book<N>) -> Locked<N>
        requires service { IsKept N.table N.setup N.first N.lines N.start service tally }
        requires played { PlaysTurns N.setup N.first N.lines book.total N.start (view_in service) }
        ensures service { result.service ≡ service }
    {
        Locked {
            service,
            tally,
            book,
            of: PhantomData,
        }
    }

    /// The service and the tally, once nobody plays a line any more.
    pub fn into_parts(self, turns: Turns<N>) -> (Service, Tally)
        requires ledger { IsWhole N.parts N.all }
        ensures service { result.0 ≡ self.service }
        ensures kept { IsKept N.table N.setup N.first N.lines N.start result.0 result.1 }
        ensures played { PlaysTurns N.setup N.first N.lines turns N.start (view_in result.0) }
    {
        let mut turns = turns;
        let Locked {
            service,
            tally,
            mut book,
            of: _,
        } = self;
        book.audit(&mut turns.share);
        (service, tally)
    }

    /// Takes the complete chunks of the producer's writers. Answers how many. A writer of the producer asks
    /// for it, by its helper, and it is the one whose takings are counted.
    pub fn collect<L: TakingsName>(
        &mut self,
        table: &HostTable,
        producer: u16,
        takings: &mut Takings<L>,
    ) -> u64
        requires table { IsNamed N.table N.setup table.now }
        requires asked { has_asker N.setup N.lines L.producer ≡ true }
        requires own { producer ≡ L.producer }
        ensures keeps { KeepsRest N.setup (core_of self.old.service) (core_of self.new.service) }
        ensures takes { Takes N.setup (places_of producer 0 N.setup.writers) result
            (view_in self.old.service) (view_in self.new.service) }
        ensures desk { desk_in self.new.service ≡ desk_in self.old.service }
        ensures counts { takings.new ≡ takings.old + 1 }
    {
        takings.count();
        self.service.collect(table, producer)
    }

    /// Takes them for the next one of the service's lines, which collects the producer.
    pub fn collect_for_line(
        &mut self,
        table: &HostTable,
        producer: u16,
        turns: &mut Turns<N>,
    ) -> u64
        requires turn { HasTurn N.parts N.all N.lines turns.old (line.Collect producer) }
        requires table { IsNamed N.table N.setup table.now }
        requires asked { may_be_collected N.setup N.lines producer ≡ true }
        ensures keeps { KeepsRest N.setup (core_of self.old.service) (core_of self.new.service) }
        ensures takes { Takes N.setup (places_of producer 0 N.setup.writers) result
            (view_in self.old.service) (view_in self.new.service) }
        ensures desk { desk_in self.new.service ≡ desk_in self.old.service }
        ensures turns { turns.new ≡ turns.old + 2 }
    {
        self.book.audit(&mut turns.share);
        self.book.add(&mut turns.share, 2);
        self.service.collect(table, producer)
    }

    /// Takes them, and then the finished fragments of the chunks that the writers hold. The next one of the
    /// service's lines scrapes the producer.
    pub fn scrape(&mut self, table: &HostTable, producer: u16, turns: &mut Turns<N>) -> u64
        requires turn { HasTurn N.parts N.all N.lines turns.old (line.Scrape producer) }
        requires table { IsNamed N.table N.setup table.now }
        requires line { is_scraped_by N.lines producer ≡ true }
        ensures keeps { KeepsRest N.setup (core_of self.old.service) (core_of self.new.service) }
        ensures scrapes { TakesAndScrapes N.setup producer result (view_in self.old.service) (view_in self.new.service) }
        ensures desk { desk_in self.new.service ≡ desk_in self.old.service }
        ensures turns { turns.new ≡ turns.old + 2 }
    {
        self.book.audit(&mut turns.share);
        self.book.add(&mut turns.share, 2);
        self.service.scrape(table, producer)
    }

    /// Reads the last answer of each writer to flush requests, in rising number. Those that are newer than
    /// what was read before go to the session, and into the sums of their requests.
    pub fn read_answers<L: Ledger>(&mut self, table: &HostTable, readings: &mut Readings<L>)
        requires table { IsNamed N.table N.setup table.now }
        ensures hears { IsHearing (length N.setup.writers) (view_in self.old.service) (view_in self.new.service) }
        ensures desk { desk_in self.new.service ≡ desk_in self.old.service }
        ensures keeps { KeepsTaking (record (core_of self.old.service) { seat = (core_of self.new.service).seat })
            (core_of self.new.service) }
        ensures session { KeepsSession (core_of self.old.service).session (core_of self.new.service).session }
        ensures counts { readings.new ≡ readings.old + 1 }
    {
        readings.count();
        read_answers(&mut self.service, table, &mut self.tally);
    }

    /// Makes a flush request with the reading pass, which knows of it then. It is one of those for which
    /// there is room: the next one of the service's lines asks for it.
    pub fn request_passing(&mut self, table: &HostTable, pass: &mut ReadPass, turns: &mut Turns<N>)
        requires turn { HasTurn N.parts N.all N.lines turns.old line.Request }
        requires table { IsNamed N.table N.setup table.now }
        requires pass { KnowsWhole table.now pass.old }
        requires room { MayRequest N.lines pass.old }
        ensures pass { KnowsWhole table.now pass.new }
        ensures requested { HasRequested N.setup N.first self.old.service self.new.service pass.old pass.new }
        ensures turns { turns.new ≡ turns.old + 2 }
    {
        self.book.audit(&mut turns.share);
        self.book.add(&mut turns.share, 2);
        match self.service.request_passing(table, pass) {
            Ok(_) => {}
            Err(_) => unreachable!(),
        }
    }

    /// Reads a buffer with the reading pass, for the next one of the service's lines. Where a write fails, no
    /// line is next any more.
    pub fn read_passing<O: Sink>(
        &mut self,
        table: &HostTable,
        pass: &mut ReadPass,
        buffer: u8,
        limit: u64,
        out: &mut O,
        turns: &mut Turns<N>,
    ) -> Result<u64, WriteFault>
        requires turn { HasTurn N.parts N.all N.lines turns.old (line.Read buffer limit) }
        requires table { IsNamed N.table N.setup table.now }
        requires pass { KnowsWhole table.now pass.old }
        requires may { O.may_write out.old }
        ensures pass { ReadsWith N.setup table.now self.old.service self.new.service pass.old pass.new }
        ensures told { MatchResult result
            (λ _. TellsLine N.setup N.first (line.Read buffer limit)
            (known_by_pass pass.old) (known_by_pass pass.new) (O.taken out.old) (O.taken out.new))
            (λ _. FailsLine N.setup N.first (line.Read buffer limit)
            (known_by_pass pass.old) (known_by_pass pass.new) (O.taken out.old) (O.taken out.new)) }
        ensures reads { MatchResult result
            (λ delivered. ReadsAll N.setup (core_of self.old.service) buffer limit delivered
            (read_moment (view_in self.old.service) (O.taken out.old)) (read_moment (view_in self.new.service) (O.taken out.new)))
            (λ _. FailsAmong N.setup (core_of self.old.service) buffer limit
            (read_moment (view_in self.old.service) (O.taken out.old)) (read_moment (view_in self.new.service) (O.taken out.new))) }
        ensures ends { EndsTurn 2 turns.old turns.new (O.faults out.old) (O.faults out.new) (O.may_write out.new) result }
    {
        self.book.audit(&mut turns.share);
        self.book.add(&mut turns.share, 1);
        match self.service.read_passing(table, pass, buffer, limit, out) {
            Ok(delivered) => {
                self.book.add(&mut turns.share, 1);
                Ok(delivered)
            }
            Err(fault) => Err(fault),
        }
    }
}
