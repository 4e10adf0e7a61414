//! What plays a scenario, and how it asks one of its writers for a call.
ghost use Rattle.std.specs.Prelude.{◌≡◌, ◌↔◌, ℕ, suc, ◌+◌, ◌-◌, ◌<◌, ◌≤◌, List, [], ◌∷◌, length, slice_index_or, true, false, OnOk, IfErr, IsTrue};
ghost use Rattle.trace_base.specs.declared.limits.TheConstants.{MAX_WRITERS};
ghost use Rattle.chunk_plain.specs.Words.{call_of};
ghost use Rattle.trace_model.specs.Calls as calls;
ghost use Rattle.trace_model.specs.Calls.{Call};
ghost use Rattle.replay_host.specs.declared.fault.HostFault.TheVariants as faults;

use crate::asking::{ask_flushed, ask_one};
use crate::fault::HostFault;
use crate::flushes::Flushes;
use crate::helper::Collecting;
use crate::ids::ids_fit;
use chunk_plain::{Words, WriterCall};
use std::sync::ledger::Ledger;
use trace_base::policy::WriterSpec;
use trace_base::steps::Steps;
use trace_writer::{CallFault, WriterCore};

/// A table of chunks, its writers in their order, the service, and what became of flush requests.
pub struct Host<T, W, S> {
    pub table: T,
    pub writers: Vec<WriterCore<W>>,
    pub helper: Collecting<S>,
    pub flushes: Flushes,
    /// What the writers were made from.
    pub specs: Vec<WriterSpec>,
    /// By producer, whether no line has closed it.
    pub open_producers: Vec<bool>,
}

/// The fault of a writer whose call was refused: its calls are those of a scenario, so it has stalled.
fn stalled(place: usize) -> HostFault
    requires { place < MAX_WRITERS }
    ensures { result ≡ faults.Stalled (suc place) }
{
    HostFault::Stalled {
        writer: place as u16 + 1,
    }
}

impl<W: Words> Host<W, W::Writer, W::Service> {
    ghost use Rattle.replay_host.specs.Asking.{AreReady, IsShortCall};
    ghost use Rattle.replay_host.specs.Playing.{IsHost, IsOpenAt, asked_all, HasAsked};
    ghost use Rattle.replay_host.specs.Stopping.{Stalls};

    /// The writer at this place is asked for a call.
    #[inline(always)]
    pub fn ask<L: Ledger>(
        &mut self,
        steps: &mut Steps<L>,
        place: usize,
        call: WriterCall<'_>,
    ) -> Result<(), HostFault>
        requires host { IsHost W.means self.old }
        requires place { place < length (W.means.setup self.old.table).writers }
        requires open { IsOpenAt W.means self.old place }
        requires ready { (coming : ℕ → List Call)
            × AreReady W.means self.old.table self.old.writers.items (asked_all place (call_of call ∷ []) coming) }
        requires short { IsShortCall (call_of call) }
        ensures host { OnOk result (IsHost W.means self.new) }
        ensures asked { OnOk result (HasAsked W.means place (call_of call.entry ∷ []) self.old self.new) }
        ensures stalls { IfErr result (λ fault. Stalls W.means place (call_of call.entry) self.old self.new fault) }
    {
        self.helper.producer = self.specs[place].producer;
        let core = &mut self.writers[place];
        match ask_one(core, &mut self.table, &mut self.helper, steps, call) {
            Ok(()) => Ok(()),
            Err(_) => {
                ids_fit(&self.writers);
                Err(stalled(place))
            }
        }
    }

    /// The writer at this place completes what it holds.
    pub fn flush(&mut self, place: usize)
        requires host { IsHost W.means self.old }
        requires place { place < length (W.means.setup self.old.table).writers }
        requires open { IsOpenAt W.means self.old place }
        requires ready { (coming : ℕ → List Call)
            × AreReady W.means self.old.table self.old.writers.items (asked_all place (calls.Flushed ∷ []) coming) }
        ensures host { IsHost W.means self.new }
        ensures asked { HasAsked W.means place (calls.Flushed ∷ []) self.old self.new }
    {
        self.helper.producer = self.specs[place].producer;
        let core = &mut self.writers[place];
        ask_flushed(core, &mut self.table, &mut self.helper);
    }

    /// Whether the producer of the writer at this place is open.
    pub fn is_open(&self, place: usize) -> bool
        requires host { IsHost W.means self.now }
        requires place { place < length (W.means.setup self.now.table).writers }
        ensures { IsTrue result ↔ IsOpenAt W.means self.now place }
    {
        self.open_producers[usize::from(self.specs[place].producer) - 1]
    }
}
