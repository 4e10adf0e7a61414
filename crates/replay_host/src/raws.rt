//! Chunks that lines commit in the names of writers, and what is answered.
ghost use Rattle.std.specs.Prelude.{◌≡◌, ◌-◌, ◌<◌, ◌≤◌, [], ◌∷◌, ◌++◌, length, replicate, take, IfOk, vec_len, vec_capacity, slice_index, MatchOption};
ghost use Rattle.byte_io.specs.Bytes.{Intake};
ghost use Rattle.commit_body.specs.Patches.{patch_value};
ghost use Rattle.chunk_plain.specs.Laying.{sizes_of};
ghost use Rattle.chunk_plain.specs.Setup.{Setup};
ghost use Rattle.replay_model.specs.Acts.{CommitRaw};
ghost use Rattle.replay_model.specs.ActNotes.{Told};
ghost use Rattle.replay_model.specs.Played.{IsSetupOf};
ghost use Rattle.replay_model.specs.Raws.{raw_lines, raw_patches};
ghost use Rattle.scenario_text.specs.Raws.{raw_numbers};
ghost use Rattle.scenario_text.specs.Scenario.{IsScenario, parts_of};
ghost use Rattle.replay_host.specs.Raws.{HasRoom, AreMarked, raws_in};

use crate::host::Host;
use crate::making::producer_specs;
use chunk_image::Image;
use chunk_plain::{ProducerSpec, Words};
use commit_body::Patch;
use loss_report::{RawAnswer, RawLine};
use scenario_text::{LineKind, LineList, RawChunk, RawPatch, Scenario};
use service_core::WrongTarget;
use std::alloc::{AllocError, Global};
use trace_base::limits::FIRST_SEQUENCE;

/// Puts the payload of a chunk into a room that is large enough: zeros stand behind what the line gives.
fn put_padded(chunk: &RawChunk<'_>, room: &mut [u8])
    requires { length chunk.now.payload ≤ length room.old }
    ensures { room.new ≡ chunk.now.payload ++ replicate (length room.old - length chunk.now.payload) 0 }
{
    room.fill(0);
    chunk.put_payload(room);
}

/// Room for the payload of one chunk, whatever its producer.
#[derive(Drop)]
pub(crate) struct PayloadRoom {
    /// The payload size of each producer's chunks.
    pub sizes: Vec<u32>,
    /// As many bytes as the largest of these.
    pub bytes: Vec<u8>,
}

impl PayloadRoom {
    /// Room for the chunks of these producers.
    pub(crate) fn make(alloc: Global, producers: &[ProducerSpec]) -> Result<PayloadRoom, AllocError>
        ensures { IfOk result (λ room. HasRoom (sizes_of producers.now) room) }
    {
        let mut sizes = Vec::with_capacity(alloc, producers.len())?;
        let mut most = 0;
        for producer in producers {
            let size = producer.geometry.payload_size();
            if most < size {
                most = size;
            }
            sizes.push(size)?;
        }
        Ok(PayloadRoom {
            sizes,
            bytes: vec![in alloc; 0; most as usize]?,
        })
    }

    /// The payload of a chunk is put into the first bytes, as many as a chunk of this producer has.
    /// Producers count from 1. Answers how many.
    fn put(&mut self, producer: u16, chunk: &RawChunk<'_>) -> usize
        requires least { 1 ≤ producer }
        requires most { producer ≤ length self.old.sizes.items }
        requires room { HasRoom self.old.sizes.items self.old }
        requires fits { length chunk.now.payload ≤ slice_index self.old.sizes.items (producer - 1) }
        ensures size { result ≡ slice_index self.old.sizes.items (producer - 1) }
        ensures payload { take result self.new.bytes.items ≡ chunk.now.payload ++ replicate (result - length chunk.now.payload) 0 }
        ensures sizes { self.new.sizes ≡ self.old.sizes }
        ensures bytes { vec_len self.new.bytes ≡ vec_len self.old.bytes }
    {
        let size = self.sizes[usize::from(producer) - 1] as usize;
        put_padded(chunk, &mut self.bytes);
        size
    }
}

/// Room for the payloads of what a scenario's lines commit.
pub(crate) fn make_room(alloc: Global, scenario: &Scenario) -> Result<PayloadRoom, AllocError>
    requires { IsScenario scenario.now }
    ensures { IfOk result (λ room. (setup : Setup) → IsSetupOf (parts_of scenario.now) setup → HasRoom setup.sizes room) }
{
    let producers = producer_specs(alloc, &scenario.producers)?;
    PayloadRoom::make(alloc, &producers)
}

/// The patch that comes with a chunk.
fn patch_given(patch: Option<RawPatch>) -> Option<Patch>
    ensures { MatchOption result (raw_patches patch ≡ []) (λ given. raw_patches patch ≡ patch_value given ∷ []) }
{
    match patch {
        None => None,
        Some(patch) => {
            let bytes = patch.bytes;
            Some(Patch {
                chunk_id: patch.chunk_id,
                offset: patch.offset,
                bytes,
                last: patch.last,
            })
        }
    }
}

/// How many lines commit chunks.
pub(crate) fn count_raws(lines: &LineList) -> usize
    ensures { result ≡ raws_in lines.now }
{
    // There are no more than can be counted.
    let _many = lines.len();
    let mut count = 0;
    let mut walk = lines.walk();
    'lines: while let Some(line) = walk.next() {
        if let LineKind::Raw {
            writer: _,
            chunk: _,
        } = line.what
        {
            count += 1;
        }
    }
    count
}

/// By writer, whether a line commits a chunk in its name.
pub(crate) fn mark_raws(alloc: Global, scenario: &Scenario) -> Result<Vec<bool>, AllocError>
    requires { IsScenario scenario.now }
    ensures { IfOk result (λ marks. AreMarked scenario.now.lines (length scenario.now.writers.items) marks.items) }
{
    let mut marks = vec![in alloc; false; scenario.writers.len()]?;
    let mut walk = scenario.lines.walk();
    'lines: while let Some(line) = walk.next() {
        if let LineKind::Raw { writer, chunk: _ } = line.what {
            marks[usize::from(writer) - 1] = true;
        }
    }
    Ok(marks)
}

/// Puts each line that commits a chunk with its answer, in order. There is room for all.
pub(crate) fn fill_raws(lines: &LineList, answers: &[RawAnswer], raws: &mut Vec<RawLine>)
    requires none { raws.old.items ≡ [] }
    requires room { raws_in lines.now ≤ vec_capacity raws.old }
    ensures { raws.new.items ≡ raw_lines (raw_numbers lines.now) answers.now }
{
    if answers.is_empty() {
        return;
    }
    let mut told = 0;
    let mut walk = lines.walk();
    'lines: while let Some(line) = walk.next() {
        if let LineKind::Raw {
            writer: _,
            chunk: _,
        } = line.what
        {
            if told == answers.len() {
                return;
            }
            match raws.push(RawLine {
                line: u64::from(line.line),
                answer: answers[told],
            }) {
                Ok(()) => told += 1,
                Err(_) => unreachable!(),
            }
        }
    }
}

impl<W: Words> Host<W, W::Writer, W::Service> {
    ghost use Rattle.replay_host.specs.Playing.{IsHost, IsOpenAt, HasDone, LeavesHost};
    ghost use Rattle.replay_host.specs.Raws.{MayCommit};

    /// A chunk is committed in the name of the writer at this place, whose producer is open. Answers what
    /// became of it.
    pub(crate) fn commit(
        &mut self,
        place: usize,
        chunk: &RawChunk<'_>,
        payloads: &mut PayloadRoom,
    ) -> RawAnswer
        requires host { IsHost W.means self.old }
        requires may { MayCommit (W.means.setup self.old.table) place chunk.now }
        requires open { IsOpenAt W.means self.old place }
        requires room { HasRoom (W.means.setup self.old.table).sizes payloads.old }
        ensures leaves { LeavesHost W.means self.old self.new }
        ensures done { (taken : Intake)
            → HasDone W.means (CommitRaw place chunk.now ∷ []) (Told result ∷ []) self.old taken self.new taken }
        ensures room { HasRoom (W.means.setup self.old.table).sizes payloads.new }
    {
        let header = chunk.header();
        let size = payloads.put(self.specs[place].producer, chunk);
        let image = Image {
            sequence: place as u32 + FIRST_SEQUENCE,
            chunk_id: header.chunk_id,
            count: header.count,
            flags: header.flags,
            payload: &payloads.bytes[..size],
        };
        let patch = patch_given(header.patch);
        match self
            .helper
            .service
            .commit(&mut self.table, header.buffer, &image, patch.as_slice())
        {
            Ok(arrived) => RawAnswer::from(arrived),
            Err(WrongTarget { buffer }) => RawAnswer::WrongTarget { buffer },
        }
    }
}
