//! The tests of a line that don't rest on its FIELDS, and the first reason among them.
ghost use Rattle.std.specs.Prelude.{◌≡◌, true};
ghost use Rattle.std.specs.Option.{ForSome};
ghost use Rattle.page_geometry.specs.Sizes.{payload_size, record_size};
ghost use Rattle.scenario_text.specs.Ranges.{fits, is_within, is_page_size, is_chunk_count};
ghost use Rattle.scenario_text.specs.Sound.{is_cut};
ghost use Rattle.scenario_text.specs.State.{nesting_of, len_of};
ghost use Rattle.scenario_text.specs.Reasons.{are_tries, is_limit, is_out_of_range, is_producer_in_range, is_set_up, wants_none, is_larger, is_id, is_longer};
ghost use Rattle.scenario_text.specs.RawRanges.{are_patch_numbers, are_raw_numbers};

use crate::form::{
    Form, MAX_CHUNK_ID, MAX_CLONES, MAX_TRIES, NamedPatch, NamedPolicy, NamedRaw, WriterStep,
};
use crate::items::item;
use crate::open_packet::OpenPacket;
use crate::reader::Reader;
use crate::reason::Reason;
use crate::scenario::{BufferLine, ProducerLine};
use page_geometry::{CHUNK_COUNTS, Geometry, MAX_FLAGS};
use trace_base::limits::{
    BYTES_PER_KB, MAX_BUFFER_KB, MAX_BUFFERS, MAX_FRAGMENTS, MAX_NESTING, MAX_PAGE_SIZE, MAX_PAGES,
    MAX_PRODUCERS, MAX_WRITERS, MIN_BUFFER_KB, PAGE_SIZE_UNIT,
};
use trace_base::numeral::Numeral;
use trace_base::policy::WriterSpec;

#[tactic(auto, unfolding(crate::specs::Ranges::fits))]
fn fits(number: Numeral) -> bool
    ensures { result ≡ fits number }
{
    match number {
        Numeral::Fits(_) => true,
        Numeral::TooLarge => false,
    }
}

#[tactic(auto, unfolding(crate::specs::Ranges::is_within))]
fn is_within(low: u64, high: u64, number: Numeral) -> bool
    ensures { result ≡ is_within low high number }
{
    match number {
        Numeral::Fits(n) => low <= n && n <= high,
        Numeral::TooLarge => false,
    }
}

#[tactic(auto, unfolding(crate::specs::Ranges::is_page_size))]
fn is_page_size(n: u64) -> bool
    ensures { result ≡ is_page_size n }
{
    n % u64::from(PAGE_SIZE_UNIT) == 0
        && u64::from(PAGE_SIZE_UNIT) <= n
        && n <= u64::from(MAX_PAGE_SIZE)
}

#[tactic(auto, unfolding(crate::specs::Ranges::is_chunk_count))]
fn is_chunk_count(n: u64) -> bool
    ensures { result ≡ is_chunk_count n }
{
    CHUNK_COUNTS.iter().any(|count| n == u64::from(*count))
}

#[tactic(auto, unfolding(crate::specs::Reasons::is_producer_in_range))]
fn is_producer_in_range(pages: Numeral, page_size: Numeral, chunks: Numeral) -> bool
    ensures { result ≡ is_producer_in_range pages page_size chunks }
{
    let Numeral::Fits(page_size) = page_size else {
        return false;
    };
    let Numeral::Fits(chunks) = chunks else {
        return false;
    };
    is_within(1, u64::from(MAX_PAGES), pages) && is_page_size(page_size) && is_chunk_count(chunks)
}

#[tactic(auto, unfolding(crate::specs::Reasons::is_limit))]
fn is_limit(limit: Option<Numeral>) -> bool
    ensures { result ≡ is_limit limit }
{
    match limit {
        None => true,
        Some(limit) => is_within(1, u64::MAX, limit),
    }
}

#[tactic(auto, unfolding(crate::specs::Reasons::are_tries))]
fn are_tries(policy: NamedPolicy) -> bool
    ensures { result ≡ are_tries policy }
{
    match policy {
        NamedPolicy::StallsThenDrops { tries } => is_within(1, u64::from(MAX_TRIES), tries),
        _ => true,
    }
}

#[tactic(auto, unfolding(crate::specs::Reasons::is_id))]
fn is_id(from: Option<Numeral>) -> bool
    ensures { result ≡ is_id from }
{
    match from {
        None => true,
        Some(from) => is_within(0, u64::from(MAX_CHUNK_ID), from),
    }
}

#[tactic(auto, unfolding(crate::specs::RawRanges::are_patch_numbers))]
fn are_patch_numbers(patch: Option<NamedPatch>) -> bool
    ensures { result ≡ are_patch_numbers patch }
{
    match patch {
        None => true,
        Some(patch) => {
            is_within(0, u64::from(MAX_CHUNK_ID), patch.chunk_id)
                && is_within(0, u64::from(MAX_CHUNK_ID), patch.offset)
        }
    }
}

#[tactic(auto, unfolding(crate::specs::RawRanges::are_raw_numbers))]
fn are_raw_numbers(raw: NamedRaw) -> bool
    ensures { result ≡ are_raw_numbers raw }
{
    fits(raw.writer)
        && fits(raw.buffer)
        && is_within(0, u64::from(MAX_CHUNK_ID), raw.chunk_id)
        && is_within(0, u64::from(MAX_FRAGMENTS), raw.count)
        && is_within(0, u64::from(MAX_FLAGS), raw.flags)
        && are_patch_numbers(raw.patch)
}

#[tactic(auto, unfolding(crate::specs::Reasons::is_out_of_range))]
fn is_out_of_range(form: Form) -> bool
    ensures { result ≡ is_out_of_range form }
{
    match form {
        Form::Buffer { kb, policy: _ } => {
            !is_within(u64::from(MIN_BUFFER_KB), u64::from(MAX_BUFFER_KB), kb)
        }
        Form::Producer {
            pages,
            page_size,
            chunks,
        } => !is_producer_in_range(pages, page_size, chunks),
        Form::Writer {
            producer,
            buffer,
            policy,
            from,
        } => !(fits(producer) && fits(buffer) && are_tries(policy) && is_id(from)),
        Form::OfWriter { writer, step: _ } => !fits(writer),
        Form::OfProducer { producer, step: _ } => !fits(producer),
        Form::Read { buffer, limit } => !(fits(buffer) && is_limit(limit)),
        Form::Request => false,
        Form::CloneBuffer { buffer } => !fits(buffer),
        Form::Raw { raw } => !are_raw_numbers(raw),
    }
}

#[tactic(auto, unfolding(crate::specs::Reasons::is_set_up))]
fn is_set_up(form: Form) -> bool
    ensures { result ≡ is_set_up form }
{
    matches!(
        form,
        Form::Buffer { .. } | Form::Producer { .. } | Form::Writer { .. }
    )
}

/// The size of a record with one chunk's payload.
#[tactic(auto, using(crate::proofs::SoundLemmas::cut_pages, crate::proofs::SoundLemmas::cut_chunks))]
fn record_size(producer: ProducerLine) -> u32
    requires { is_cut producer ≡ true }
    ensures { result ≡ record_size (payload_size producer.page_size producer.chunks) }
{
    match Geometry::new(producer.page_size, producer.chunks) {
        Ok(geometry) => geometry.record_size(),
        Err(_) => unreachable!(),
    }
}

/// Whether so many bytes are more than the payload of one of the producer's chunks.
#[tactic(auto, using(crate::proofs::SoundLemmas::cut_pages, crate::proofs::SoundLemmas::cut_chunks), unfolding(crate::specs::Reasons::is_longer))]
fn is_longer(len: usize, producer: Option<ProducerLine>) -> bool
    requires { ForSome producer (λ line. is_cut line ≡ true) }
    ensures { result ≡ is_longer len producer }
{
    let Some(producer) = producer else {
        return false;
    };
    match Geometry::new(producer.page_size, producer.chunks) {
        Ok(geometry) => (geometry.payload_size() as usize) < len,
        Err(_) => unreachable!(),
    }
}

#[tactic(auto, unfolding(crate::specs::Reasons::wants_none))]
fn wants_none(step: WriterStep) -> bool
    ensures { result ≡ wants_none step }
{
    matches!(
        step,
        WriterStep::Packet { .. } | WriterStep::Begin | WriterStep::Flush
    )
}

#[tactic(auto, unfolding(crate::specs::Reasons::is_larger))]
fn is_larger(producer: Option<ProducerLine>, buffer: Option<BufferLine>) -> bool
    requires { ForSome producer (λ line. is_cut line ≡ true) }
    ensures { result ≡ is_larger producer buffer }
{
    let (Some(producer), Some(buffer)) = (producer, buffer) else {
        return false;
    };
    u64::from(buffer.kb) * u64::from(BYTES_PER_KB) < u64::from(record_size(producer))
}

/// How many nested messages are open in a packet.
#[tactic(auto, unfolding(crate::specs::State::nesting_of))]
pub fn nesting_of(packet: Option<OpenPacket>) -> u8
    ensures { result ≡ nesting_of packet }
{
    match packet {
        None => 0,
        Some(packet) => packet.depth,
    }
}

/// How long it is so far.
#[tactic(auto, unfolding(crate::specs::State::len_of))]
pub fn len_of(packet: Option<OpenPacket>) -> u32
    ensures { result ≡ len_of packet }
{
    match packet {
        None => 0,
        Some(packet) => packet.len,
    }
}

impl Reader {
    ghost use Rattle.std.specs.Prelude.{◌≡◌, ◌<◌, ◌≤◌, IfSome, true};
    ghost use Rattle.std.specs.Option.{ForSome};
    ghost use Rattle.scenario_text.specs.Items.{item};
    ghost use Rattle.scenario_text.specs.Sound.{is_cut};
    ghost use Rattle.scenario_text.specs.State.{is_closed, packet_of, nesting_of};
    ghost use Rattle.scenario_text.specs.View.{state_of};
    ghost use Rattle.scenario_text.specs.Reasons.{first, front_reasons, has_closed_producer, has_larger_chunks, has_long_payload, is_closed_for, is_late, is_too_many, lacks_buffer, lacks_nesting, lacks_packet, lacks_producer, lacks_writer, leaves_nesting, meets_packet, packet_reasons, producer_of};

    #[tactic(auto, unfolding(crate::specs::Reasons::is_late))]
    fn is_late(&self, form: Form) -> bool
        ensures { result ≡ is_late (state_of self.now) form }
    {
        !self.scenario.lines.is_empty() && is_set_up(form)
    }

    #[tactic(auto, unfolding(crate::specs::Reasons::is_too_many))]
    fn is_too_many(&self, form: Form) -> bool
        ensures { result ≡ is_too_many (state_of self.now) form }
    {
        match form {
            Form::Buffer { .. } => MAX_BUFFERS <= self.scenario.buffers.len(),
            Form::Producer { .. } => MAX_PRODUCERS <= self.scenario.producers.len(),
            Form::Writer { .. } => MAX_WRITERS <= self.scenario.writers.len(),
            Form::CloneBuffer { .. } => MAX_CLONES <= self.clones,
            _ => false,
        }
    }

    #[tactic(auto, using(crate::proofs::SoundLemmas::item_cut))]
    fn producer(&self, number: Numeral) -> Option<ProducerLine>
        ensures value { result ≡ item self.now.scenario.producers.items number }
        ensures cut { IfSome result (λ producer. is_cut producer ≡ true) }
    {
        item(&self.scenario.producers, number)
    }

    fn buffer(&self, number: Numeral) -> Option<BufferLine>
        ensures { result ≡ item self.now.scenario.buffers.items number }
    {
        item(&self.scenario.buffers, number)
    }

    pub fn writer(&self, number: Numeral) -> Option<WriterSpec>
        ensures { result ≡ item self.now.scenario.writers.items number }
    {
        item(&self.scenario.writers, number)
    }

    #[tactic(auto, unfolding(crate::specs::State::is_closed))]
    pub fn is_closed(&self, producer: Numeral) -> bool
        ensures { result ≡ is_closed (state_of self.now) producer }
    {
        item(&self.closed, producer).unwrap_or(false)
    }

    /// The packet that a writer has begun.
    #[tactic(auto, unfolding(crate::specs::State::packet_of), using(crate::proofs::SoundLemmas::packet_shallow))]
    pub fn packet(&self, writer: Numeral) -> Option<OpenPacket>
        ensures value { result ≡ packet_of (state_of self.now) writer }
        ensures shallow { nesting_of result ≤ MAX_NESTING }
    {
        item(&self.packets, writer).unwrap_or(None)
    }

    #[tactic(auto, unfolding(crate::specs::Reasons::lacks_producer))]
    fn lacks_producer(&self, form: Form) -> bool
        ensures { result ≡ lacks_producer (state_of self.now) form }
    {
        match form {
            Form::Writer { producer, .. } | Form::OfProducer { producer, .. } => {
                self.producer(producer).is_none()
            }
            _ => false,
        }
    }

    #[tactic(auto, unfolding(crate::specs::Reasons::lacks_buffer))]
    fn lacks_buffer(&self, form: Form) -> bool
        ensures { result ≡ lacks_buffer (state_of self.now) form }
    {
        match form {
            Form::Writer { buffer, .. }
            | Form::Read { buffer, .. }
            | Form::CloneBuffer { buffer } => self.buffer(buffer).is_none(),
            Form::Raw { raw } => self.buffer(raw.buffer).is_none(),
            _ => false,
        }
    }

    #[tactic(auto, unfolding(crate::specs::Reasons::lacks_writer))]
    fn lacks_writer(&self, form: Form) -> bool
        ensures { result ≡ lacks_writer (state_of self.now) form }
    {
        match form {
            Form::OfWriter { writer, .. } => self.writer(writer).is_none(),
            Form::Raw { raw } => self.writer(raw.writer).is_none(),
            _ => false,
        }
    }

    #[tactic(auto, unfolding(crate::specs::Reasons::has_larger_chunks))]
    fn has_larger_chunks(&self, form: Form) -> bool
        ensures { result ≡ has_larger_chunks (state_of self.now) form }
    {
        match form {
            Form::Writer {
                producer,
                buffer,
                ..
            } => is_larger(self.producer(producer), self.buffer(buffer)),
            _ => false,
        }
    }

    #[tactic(auto, unfolding(crate::specs::Reasons::is_closed_for))]
    fn is_closed_for(&self, writer: Option<WriterSpec>) -> bool
        ensures { result ≡ is_closed_for (state_of self.now) writer }
    {
        match writer {
            None => false,
            Some(writer) => self.is_closed(Numeral::Fits(u64::from(writer.producer))),
        }
    }

    #[tactic(auto, unfolding(crate::specs::Reasons::has_closed_producer))]
    fn has_closed_producer(&self, form: Form) -> bool
        ensures { result ≡ has_closed_producer (state_of self.now) form }
    {
        match form {
            Form::OfWriter { writer, .. } => self.is_closed_for(self.writer(writer)),
            Form::OfProducer { producer, .. } => self.is_closed(producer),
            Form::Raw { raw } => self.is_closed_for(self.writer(raw.writer)),
            _ => false,
        }
    }

    /// The producer of a writer.
    #[tactic(auto, unfolding(crate::specs::Reasons::producer_of))]
    fn producer_of(&self, writer: Option<WriterSpec>) -> Option<ProducerLine>
        ensures value { result ≡ producer_of (state_of self.now) writer }
        ensures cut { IfSome result (λ producer. is_cut producer ≡ true) }
    {
        match writer {
            None => None,
            Some(writer) => self.producer(Numeral::Fits(u64::from(writer.producer))),
        }
    }

    #[tactic(auto, unfolding(crate::specs::Reasons::has_long_payload))]
    fn has_long_payload(&self, form: Form) -> bool
        ensures { result ≡ has_long_payload (state_of self.now) form }
    {
        match form {
            Form::Raw { raw } => is_longer(raw.len, self.producer_of(self.writer(raw.writer))),
            _ => false,
        }
    }

    #[tactic(auto, unfolding(crate::specs::Reasons::meets_packet))]
    fn meets_packet(&self, form: Form) -> bool
        ensures { result ≡ meets_packet (state_of self.now) form }
    {
        match form {
            Form::OfWriter { writer, step } => wants_none(step) && self.packet(writer).is_some(),
            _ => false,
        }
    }

    #[tactic(auto, unfolding(crate::specs::Reasons::lacks_packet))]
    fn lacks_packet(&self, form: Form) -> bool
        ensures { result ≡ lacks_packet (state_of self.now) form }
    {
        match form {
            Form::OfWriter { writer, step } => !wants_none(step) && self.packet(writer).is_none(),
            _ => false,
        }
    }

    #[tactic(auto, unfolding(crate::specs::Reasons::lacks_nesting))]
    fn lacks_nesting(&self, form: Form) -> bool
        ensures { result ≡ lacks_nesting (state_of self.now) form }
    {
        match form {
            Form::OfWriter {
                writer,
                step: WriterStep::Unnest,
            } => nesting_of(self.packet(writer)) == 0,
            _ => false,
        }
    }

    #[tactic(auto, unfolding(crate::specs::Reasons::leaves_nesting))]
    fn leaves_nesting(&self, form: Form) -> bool
        ensures { result ≡ leaves_nesting (state_of self.now) form }
    {
        match form {
            Form::OfWriter {
                writer,
                step: WriterStep::End,
            } => 0 < nesting_of(self.packet(writer)),
            _ => false,
        }
    }

    /// The first reason of what the line's writer has begun.
    fn packet_reason(&self, form: Form) -> Option<Reason>
        ensures { result ≡ first (packet_reasons (state_of self.now) form) }
    {
        if self.meets_packet(form) {
            return Some(Reason::PacketBegun);
        }
        if self.lacks_packet(form) {
            return Some(Reason::NoPacket);
        }
        if self.lacks_nesting(form) {
            return Some(Reason::NoNesting);
        }
        if self.leaves_nesting(form) {
            return Some(Reason::NestingLeft);
        }
        None
    }

    /// The first reason that doesn't rest on a line's FIELDS.
    #[tactic(auto, unfolding(crate::specs::Reasons::front_reasons))]
    pub fn front_reason(&self, form: Form) -> Option<Reason>
        ensures { result ≡ first (front_reasons (state_of self.now) form) }
    {
        if is_out_of_range(form) {
            return Some(Reason::NumberOutOfRange);
        }
        if self.is_late(form) {
            return Some(Reason::LateSetUp);
        }
        if self.is_too_many(form) {
            return Some(Reason::TooMany);
        }
        if self.lacks_producer(form) {
            return Some(Reason::NoSuchProducer);
        }
        if self.lacks_buffer(form) {
            return Some(Reason::NoSuchBuffer);
        }
        if self.lacks_writer(form) {
            return Some(Reason::NoSuchWriter);
        }
        if self.has_larger_chunks(form) {
            return Some(Reason::ChunkLargerThanBuffer);
        }
        if self.has_closed_producer(form) {
            return Some(Reason::ProducerClosed);
        }
        if self.has_long_payload(form) {
            return Some(Reason::RawTooLong);
        }
        self.packet_reason(form)
    }
}
