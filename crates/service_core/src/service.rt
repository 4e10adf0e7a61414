//! The service over any table of chunks.
ghost use Rattle.std.specs.Prelude.{◌≡◌, ◌≤◌, All, length, IfOk};
ghost use Rattle.trace_base.specs.declared.limits.TheConstants.{MAX_BUFFERS, MAX_PRODUCERS, MAX_PAGES};
ghost use Rattle.chunk_plain.specs.Laying.{setup_of};
ghost use Rattle.service_core.specs.Agreement.{IsRouted};
ghost use Rattle.service_core.specs.Making.{HaveSizes, RecordsFit, IsNewService};

use crate::making::make_buffers;
use crate::room::Room;
use chunk_plain::{Layout, ProducerSpec};
use session_core::Session;
use std::alloc::{AllocError, Global};
use trace_base::policy::WriterSpec;
use trace_buffer::{BufferSpec, TraceBuffer};

/// A service with the seat that it was made with.
#[derive(Drop)]
pub struct ServiceCore<S> {
    /// Open to the table's own calls on its seat, beside those of `Words`.
    pub seat: S,
    /// Where the chunks of the producers lie.
    pub(crate) layout: Layout,
    /// What its buffers were made from.
    pub(crate) specs: Vec<BufferSpec>,
    pub(crate) buffers: Vec<TraceBuffer>,
    pub(crate) writers: Vec<WriterSpec>,
    /// How many chunks were taken of each writer.
    pub(crate) taken: Vec<u32>,
    pub(crate) session: Session,
    /// Where the payload of a chunk is loaded that its writer holds.
    pub(crate) room: Room,
}

impl<S: Drop> ServiceCore<S> {
    /// A service for a seat with which nothing was taken or noted. Its session is started. All memory
    /// that it ever needs is taken here.
    pub fn make(
        alloc: Global,
        buffers: &[BufferSpec],
        producers: &[ProducerSpec],
        writers: &[WriterSpec],
        seat: S,
    ) -> Result<ServiceCore<S>, AllocError>
        requires buffers { length buffers.now ≤ MAX_BUFFERS }
        requires sizes { HaveSizes buffers.now }
        requires producers { length producers.now ≤ MAX_PRODUCERS }
        requires some_page { All (λ producer. 1 ≤ producer.pages) producers.now }
        requires pages { All (λ producer. producer.pages ≤ MAX_PAGES) producers.now }
        requires routed { IsRouted (setup_of producers.now writers.now) (length buffers.now) }
        requires fits { RecordsFit (setup_of producers.now writers.now) buffers.now }
        ensures { IfOk result (IsNewService (setup_of producers.now writers.now) buffers.now seat) }
    {
        let layout = Layout::make(alloc, producers, writers)?;
        let made = make_buffers(alloc, buffers, producers, writers)?;
        let mut session = Session::new();
        let _ = session.configure(writers);
        let _ = session.start();
        Ok(ServiceCore {
            seat,
            layout,
            specs: buffers.to_vec(alloc)?,
            buffers: made,
            writers: writers.to_vec(alloc)?,
            taken: vec![in alloc; 0; writers.len()]?,
            session,
            room: Room::make(alloc)?,
        })
    }
}

impl<S> ServiceCore<S> {
    /// Its seat, its buffers in rising number and its session, all as they stand.
    pub fn into_parts(self) -> (S, Vec<TraceBuffer>, Session)
        ensures seat { result.0 ≡ self.seat }
        ensures buffers { result.1.items ≡ self.buffers.items }
        ensures session { result.2 ≡ self.session }
    {
        let ServiceCore {
            seat,
            layout: _,
            specs: _,
            buffers,
            writers: _,
            taken: _,
            session,
            room: _,
        } = self;
        (seat, buffers, session)
    }
}
