//! A held chunk behind its last fragment.
ghost use Rattle.std.specs.Prelude.{◌≡◌, ◌+◌, ◌-◌, ◌<◌, ◌≤◌, ◌&&◌, nat_le, nat_lt, [], if◌then◌else◌, vec_len};
ghost use Rattle.chunk_plain.specs.declared.tokens.TheConstants.{POSITION_LIMIT};
ghost use Rattle.trace_base.specs.declared.limits.TheConstants.{MAX_FRAGMENTS, MAX_PAGE_SIZE};
ghost use Rattle.trace_model.specs.Sequences.{is_among};
ghost use Rattle.commit_body.specs.Patches.{hole_chunks, with_lasts};
ghost use Rattle.chunk_plain.specs.Setup.{from_of};
ghost use Rattle.chunk_plain.specs.Drafts.{MayFollow, head_at};
ghost use Rattle.chunk_plain.specs.Steps.{completes};
ghost use Rattle.trace_writer.specs.Headers.{flags_value, held_head, completed_chunk};
ghost use Rattle.trace_writer.specs.OwnSteps.{IsQuiet};

use crate::fragment::OpenFragment;
use chunk_plain::{Held, Words};
use commit_body::PatchList;
use trace_base::limits::MAX_FRAGMENTS;
use trace_base::policy::WriterSpec;

/// A packet is begun in a held chunk where so many bytes are left: its size, a front mark and a tag
/// fit.
const ROOM_TO_BEGIN: u32 = 12;

/// Flag 1 of a chunk header: the first fragment continues a packet of the chunk before.
const CONTINUES: u8 = 1;

/// Flag 2: the last fragment continues on the next chunk.
const RUNS_ON: u8 = 2;

/// Flag 4: patches for the chunk are to come.
const AWAITS: u8 = 4;

fn flag_where(set: bool, flag: u8) -> u8
    ensures { result ≡ (if set then flag else 0) }
{
    if set { flag } else { 0 }
}

pub(crate) fn flags_of(continues: bool, runs_on: bool, awaits: bool) -> u8
    ensures value { result ≡ flags_value continues runs_on awaits }
    ensures few { result ≤ 7 }
{
    flag_where(continues, CONTINUES) + flag_where(runs_on, RUNS_ON) + flag_where(awaits, AWAITS)
}

/// Whether patches for the chunk are to come once the packet has run on.
fn is_awaiting(runs_on: bool, pending: &PatchList, position: u32) -> bool
    ensures { result ≡ (runs_on && is_among position (hole_chunks pending.now.holes)) }
{
    runs_on && pending.is_open_in(position)
}

/// A chunk that its writer holds, whose payload is filled up to `at` by so many fragments. What is
/// below `sealed` was published: all but the last of them.
#[derive(Debug)]
pub(crate) struct HeldChunk {
    pub held: Held,
    pub sealed: u32,
    pub at: u32,
    pub count: u16,
    pub continues: bool,
    ghost order: { sealed ≤ at },
    ghost within: { at ≤ vec_len held.body.payload },
    ghost small: { vec_len held.body.payload ≤ MAX_PAGE_SIZE },
    ghost few: { count ≤ MAX_FRAGMENTS },
    ghost empty: { held.body.patches.value.items ≡ [] },
    ghost position_fits: { held.position < POSITION_LIMIT },
}

impl HeldChunk {
    ghost use Rattle.trace_writer.specs.Drafted.{IsFit, CountsNext};
    ghost use Rattle.trace_writer.specs.Placing.{IsStarted};

    /// A chunk that was just begun.
    pub fn new(held: Held, continues: bool) -> HeldChunk
        requires small { vec_len held.body.payload ≤ MAX_PAGE_SIZE }
        requires empty { held.body.patches.value.items ≡ [] }
        requires position_fits { held.position < POSITION_LIMIT }
        ensures held { result.held ≡ held }
        ensures sealed { result.sealed ≡ 0 }
        ensures at { result.at ≡ 0 }
        ensures count { result.count ≡ 0 }
        ensures continues { result.continues ≡ continues }
    {
        HeldChunk {
            held,
            sealed: 0,
            at: 0,
            count: 0,
            continues,
        }
    }

    /// Whether a packet can begin in it.
    pub fn has_room(&self) -> bool
        ensures { result ≡ (nat_le (self.now.at + 12) (vec_len self.now.held.body.payload) && nat_lt self.now.count MAX_FRAGMENTS) }
    {
        let left = self.held.body.payload.len() - self.at as usize;
        left >= ROOM_TO_BEGIN as usize && self.count < MAX_FRAGMENTS
    }

    /// Starts a fragment: the ones before are published, the header counts it, and four bytes are set
    /// aside for its size.
    #[inline(always)]
    pub fn start_fragment<W: Words>(self, table: &mut W, seat: &mut W::Writer) -> OpenFragment
        requires seat { W.means.sits table.old seat.old }
        requires fit { IsFit (W.means.setup table.old) (W.means.view table.old seat.old) self self.count self.at }
        requires head { MayFollow (head_at (W.means.view table.old seat.old) self.held.position) (held_head (self.count + 1) self.continues) }
        requires room { self.at + 4 ≤ vec_len self.held.body.payload }
        requires few { self.count < MAX_FRAGMENTS }
        ensures started { IsStarted self result }
        ensures view { CountsNext self (W.means.view table.old seat.old) (W.means.view table.new seat.new) }
        ensures quiet { IsQuiet W.means table.old seat.old table.new seat.new }
    {
        let HeldChunk {
            mut held,
            sealed,
            at,
            count,
            continues,
        } = self;
        table.publish(seat, &mut held, sealed, at);
        table.set_header(
            seat,
            &mut held,
            count + 1,
            flags_of(continues, false, false),
        );
        OpenFragment {
            held,
            start: at,
            at: at + 4,
            count: count + 1,
            continues,
        }
    }

    /// Completes the chunk, all of which is published first, with the patches that are to be sent. They
    /// name the writer's chunks by ids, of which the specification has the first.
    pub fn complete<W: Words>(
        self,
        table: &mut W,
        seat: &mut W::Writer,
        pending: &mut PatchList,
        spec: WriterSpec,
        runs_on: bool,
    )
        requires seat { W.means.sits table.old seat.old }
        requires fit { IsFit (W.means.setup table.old) (W.means.view table.old seat.old) self (self.count - 1)
            (vec_len self.held.body.payload) }
        requires head { head_at (W.means.view table.old seat.old) self.held.position ≡ held_head self.count self.continues }
        requires from { spec.from ≡ from_of (W.means.setup table.old) (W.means.place seat.old) }
        ensures pending { pending.new ≡ record pending.old { unsent = [] } }
        ensures view { W.means.view table.new seat.new ≡ completes (W.means.view table.old seat.old) self.held.chunk self.held.position
            (completed_chunk (W.means.place seat.old) self.held.position self.count
            (flags_value self.continues runs_on (runs_on && is_among self.held.position (hole_chunks pending.old.holes)))
            self.held.body.payload.items (with_lasts (hole_chunks pending.old.holes) pending.old.unsent) spec.buffer) }
        ensures quiet { IsQuiet W.means table.old seat.old table.new seat.new }
    {
        let HeldChunk {
            mut held,
            sealed,
            at: _,
            count,
            continues,
        } = self;
        let size = held.body.payload.len() as u32;
        table.publish(seat, &mut held, sealed, size);
        let flags = flags_of(
            continues,
            runs_on,
            is_awaiting(runs_on, pending, held.position),
        );
        pending.drain_into(&mut held.body, spec.from);
        held.body.target = spec.buffer;
        table.set_header(seat, &mut held, count, flags);
        table.complete(seat, held);
    }

    /// Lets go of the chunk, which is never completed then.
    pub fn drop_chunk(self) {
        let HeldChunk {
            held,
            sealed: _,
            at: _,
            count: _,
            continues: _,
        } = self;
        let Held {
            chunk: _,
            position: _,
            body: _,
        } = held;
    }
}
