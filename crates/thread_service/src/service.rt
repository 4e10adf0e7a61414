//! The service of a table that threads share, and what it takes from there.
ghost use Rattle.std.specs.Prelude.{◌≡◌, ◌≤◌, All, length, IfOk};
ghost use Rattle.trace_base.specs.declared.limits.TheConstants.{MAX_BUFFERS, MAX_PRODUCERS, MAX_PAGES};
ghost use Rattle.chunk_plain.specs.Laying.{setup_of};
ghost use Rattle.chunk_words.specs.Sits.{setup_in};
ghost use Rattle.service_core.specs.Agreement.{IsRouted, IsOpen, KeepsRest};
ghost use Rattle.service_core.specs.Closing.{ClosesAll, TakesAndCloses};
ghost use Rattle.service_core.specs.Making.{HaveSizes, RecordsFit};
ghost use Rattle.service_core.specs.Scraping.{TakesAndScrapes};
ghost use Rattle.service_core.specs.Taking.{Takes, places_of};
ghost use Rattle.thread_service.specs.Serving.{core_of, view_in, Serves, ServesStill, HasMemory, IsNewFor};

use chunk_plain::ProducerSpec;
use chunk_words::{HostTable, Memory, Remembering, ServiceSeat};
use service_core::ServiceCore;
use session_core::Session;
use std::alloc::{AllocError, Global};
use std::marker::{Brand, PhantomData};
use trace_base::policy::WriterSpec;
use trace_buffer::{BufferSpec, TraceBuffer};

/// The service of a table that threads share.
#[derive(Drop)]
pub struct Service {
    pub(crate) core: ServiceCore<ServiceSeat>,
}

impl Service {
    /// A service for a seat with which nothing was taken, noted or asked for. Its session is started. All memory
    /// that it ever needs is taken here.
    pub fn make(
        alloc: Global,
        buffers: &[BufferSpec],
        producers: &[ProducerSpec],
        writers: &[WriterSpec],
        seat: ServiceSeat,
    ) -> Result<Service, AllocError>
        requires buffers { length buffers.now ≤ MAX_BUFFERS }
        requires sizes { HaveSizes buffers.now }
        requires producers { length producers.now ≤ MAX_PRODUCERS }
        requires some_page { All (λ producer. 1 ≤ producer.pages) producers.now }
        requires pages { All (λ producer. producer.pages ≤ MAX_PAGES) producers.now }
        requires routed { IsRouted (setup_of producers.now writers.now) (length buffers.now) }
        requires fits { RecordsFit (setup_of producers.now writers.now) buffers.now }
        ensures { IfOk result (IsNewFor (setup_of producers.now writers.now) buffers.now seat) }
    {
        let core = ServiceCore::make(alloc, buffers, producers, writers, seat)?;
        Ok(Service { core })
    }

    /// Takes the complete chunks of the producer's writers, in rising number. Answers how many.
    pub fn collect(&mut self, table: &HostTable, producer: u16) -> u64
        requires serves { Serves table.now self.old }
        requires open { IsOpen (setup_in table.now) (core_of self.old) producer }
        ensures stays { ServesStill table.now self.old self.new }
        ensures keeps { KeepsRest (setup_in table.now) (core_of self.old) (core_of self.new) }
        ensures takes { Takes (setup_in table.now) (places_of producer 0 (setup_in table.now).writers) result
            (view_in self.old) (view_in self.new) }
    {
        self.collect_at::<Brand>(table, producer)
    }

    /// Takes the complete chunks of the producer's writers, and then of each of them, in rising
    /// number, the finished fragments of the chunk that it holds. Answers how many chunks it took.
    pub fn scrape(&mut self, table: &HostTable, producer: u16) -> u64
        requires serves { Serves table.now self.old }
        requires open { IsOpen (setup_in table.now) (core_of self.old) producer }
        ensures stays { ServesStill table.now self.old self.new }
        ensures keeps { KeepsRest (setup_in table.now) (core_of self.old) (core_of self.new) }
        ensures scrapes { TakesAndScrapes (setup_in table.now) producer result (view_in self.old) (view_in self.new) }
    {
        self.scrape_at::<Brand>(table, producer)
    }

    /// Takes the complete chunks of the producer's writers, and then closes their sequences, in rising
    /// number. Answers how many chunks it took.
    pub fn close_producer(&mut self, table: &HostTable, producer: u16) -> u64
        requires serves { Serves table.now self.old }
        requires open { IsOpen (setup_in table.now) (core_of self.old) producer }
        ensures stays { ServesStill table.now self.old self.new }
        ensures closes { ClosesAll (setup_in table.now) producer (core_of self.old) (core_of self.new) }
        ensures takes { TakesAndCloses (setup_in table.now) producer result (view_in self.old) (view_in self.new) }
    {
        self.close_at::<Brand>(table, producer)
    }

    /// Its seat, its buffers in rising number and its session, all as they stand.
    pub fn into_parts(self) -> (ServiceSeat, Vec<TraceBuffer>, Session)
        ensures seat { result.0 ≡ (core_of self).seat }
        ensures buffers { result.1.items ≡ (core_of self).buffers.items }
        ensures session { result.2 ≡ (core_of self).session }
    {
        self.core.into_parts()
    }
}

/// The calls at a table and with a desk that their type names.
impl Service {
    fn collect_at<N: Memory>(&mut self, table: &HostTable, producer: u16) -> u64
        requires memory { HasMemory N.table N.desk table.now self.old }
        requires serves { Serves table.now self.old }
        requires open { IsOpen (setup_in table.now) (core_of self.old) producer }
        ensures stays { ServesStill table.now self.old self.new }
        ensures keeps { KeepsRest (setup_in table.now) (core_of self.old) (core_of self.new) }
        ensures takes { Takes (setup_in table.now) (places_of producer 0 (setup_in table.now).writers) result
            (view_in self.old) (view_in self.new) }
    {
        let mut lent = Remembering::<N> {
            table,
            of: PhantomData,
        };
        self.core.collect(&mut lent, producer)
    }

    fn scrape_at<N: Memory>(&mut self, table: &HostTable, producer: u16) -> u64
        requires memory { HasMemory N.table N.desk table.now self.old }
        requires serves { Serves table.now self.old }
        requires open { IsOpen (setup_in table.now) (core_of self.old) producer }
        ensures stays { ServesStill table.now self.old self.new }
        ensures keeps { KeepsRest (setup_in table.now) (core_of self.old) (core_of self.new) }
        ensures scrapes { TakesAndScrapes (setup_in table.now) producer result (view_in self.old) (view_in self.new) }
    {
        let mut lent = Remembering::<N> {
            table,
            of: PhantomData,
        };
        self.core.scrape(&mut lent, producer)
    }

    fn close_at<N: Memory>(&mut self, table: &HostTable, producer: u16) -> u64
        requires memory { HasMemory N.table N.desk table.now self.old }
        requires serves { Serves table.now self.old }
        requires open { IsOpen (setup_in table.now) (core_of self.old) producer }
        ensures stays { ServesStill table.now self.old self.new }
        ensures closes { ClosesAll (setup_in table.now) producer (core_of self.old) (core_of self.new) }
        ensures takes { TakesAndCloses (setup_in table.now) producer result (view_in self.old) (view_in self.new) }
    {
        let mut lent = Remembering::<N> {
            table,
            of: PhantomData,
        };
        self.core.close_producer(&mut lent, producer)
    }
}
