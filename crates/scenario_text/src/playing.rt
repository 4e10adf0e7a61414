//! Lines of each form, once no reason of the front holds.

use crate::effects::{first_id, limit, packet_after, policy_of, producer_kind, small, writer_kind};
use crate::fields::{Addition, read_addition};
use crate::form::{Form, NamedPolicy, NamedRaw, ProducerStep, WriterStep};
use crate::items::put_item;
use crate::line_fault::LineFault;
use crate::open_packet::OpenPacket;
use crate::raw_chunk::RawChunk;
use crate::reader::Reader;
use crate::reason::Reason;
use crate::refusals::{len_of, nesting_of};
use crate::scenario::{BufferLine, LineKind, ProducerLine};
use field_tree::FieldParser;
use trace_base::limits::{MAX_INPUT, MAX_NESTING, MAX_PACKET_LEN, MAX_SCENARIO_PACKET_BYTES};
use trace_base::numeral::Numeral;
use trace_base::policy::{FullPolicy, WriterSpec};

impl Reader {
    ghost use Rattle.std.specs.Prelude.{◌≡◌, ◌+◌, ◌^◌, ◌<◌, ◌≤◌, None, Some, Ok, Err, true, [], length, OnOk, IsOkUnless};
    ghost use Rattle.scenario_text.specs.declared.form.Form.TheVariants.{Buffer, Producer, Writer, OfWriter, OfProducer, Read, Request, CloneBuffer, Raw};
    ghost use Rattle.scenario_text.specs.declared.line_fault.LineFault.TheVariants.{OutOfMemory};
    ghost use Rattle.scenario_text.specs.declared.scenario.LineKind.TheVariants as kinds;
    ghost use Rattle.scenario_text.specs.Sound.{is_shallow};
    ghost use Rattle.scenario_text.specs.State.{nesting_of, len_of, packet_of};
    ghost use Rattle.scenario_text.specs.Reasons.{first, front_reasons};
    ghost use Rattle.scenario_text.specs.Effects.{limit_of, moved, packet_after, producer_kind, served, with_clone, with_closed, with_line, with_packet, written, FieldFits};
    ghost use Rattle.scenario_text.specs.Pieces.{fields_part};
    ghost use Rattle.scenario_text.specs.Ranges.{value};
    ghost use Rattle.scenario_text.specs.Forms.{form_of};
    ghost use Rattle.scenario_text.specs.RawForms.{payload_part};
    ghost use Rattle.scenario_text.specs.RawChunks.{chunk_by};
    ghost use Rattle.scenario_text.specs.Grammar.{after_form};
    ghost use Rattle.scenario_text.specs.Answers.{LeadsTo};
    ghost use Rattle.scenario_text.specs.View.{state_of};

    #[tactic(auto, using(crate::proofs::FrontLemmas::kb_small, crate::proofs::FrontLemmas::room_for_buffer), unfolding(crate::specs::Effects::moved))]
    fn add_buffer(&mut self, kb: Numeral, policy: FullPolicy) -> Result<(), LineFault>
        requires { first (front_reasons (state_of self.old) (Buffer kb policy)) ≡ None }
        ensures ok { OnOk result (state_of self.new ≡ moved (state_of self.old) 0 [] (Buffer kb policy) []) }
        ensures memory { IsOkUnless result OutOfMemory }
    {
        let kb = small(kb);
        self.scenario.buffers.push(BufferLine { kb, policy })?;
        Ok(())
    }

    #[tactic(auto, using(crate::proofs::FrontLemmas::pages_small, crate::proofs::FrontLemmas::size_small, crate::proofs::FrontLemmas::chunks_small, crate::proofs::FrontLemmas::room_for_producer, crate::proofs::FrontLemmas::producer_cut, crate::proofs::SoundLemmas::all_push), unfolding(crate::specs::Effects::moved))]
    fn add_producer(
        &mut self,
        pages: Numeral,
        page_size: Numeral,
        chunks: Numeral,
    ) -> Result<(), LineFault>
        requires { first (front_reasons (state_of self.old) (Producer pages page_size chunks)) ≡ None }
        ensures ok { OnOk result (state_of self.new ≡ moved (state_of self.old) 0 [] (Producer pages page_size chunks) []) }
        ensures memory { IsOkUnless result OutOfMemory }
    {
        let line = ProducerLine {
            pages: small(pages) as u8,
            page_size: small(page_size),
            chunks: small(chunks) as u8,
        };
        self.scenario.producers.push(line)?;
        self.closed.push(false)?;
        Ok(())
    }

    #[tactic(auto, using(crate::proofs::FrontLemmas::room_for_writer, crate::proofs::FrontLemmas::producer_of_writer, crate::proofs::FrontLemmas::buffer_of_writer, crate::proofs::FrontLemmas::tries_of_writer, crate::proofs::FrontLemmas::id_of_writer, crate::proofs::SoundLemmas::all_push), unfolding(crate::specs::Effects::moved, crate::specs::Sound::is_shallow))]
    fn add_writer(
        &mut self,
        producer: Numeral,
        buffer: Numeral,
        policy: NamedPolicy,
        from: Option<Numeral>,
    ) -> Result<(), LineFault>
        requires { first (front_reasons (state_of self.old) (Writer producer buffer policy from)) ≡ None }
        ensures ok { OnOk result (state_of self.new ≡ moved (state_of self.old) 0 [] (Writer producer buffer policy from) []) }
        ensures memory { IsOkUnless result OutOfMemory }
    {
        let spec = WriterSpec {
            producer: small(producer) as u16,
            buffer: small(buffer) as u8,
            policy: policy_of(policy),
            from: first_id(from),
        };
        self.scenario.writers.push(spec)?;
        self.packets.push(None)?;
        Ok(())
    }

    #[tactic(auto, unfolding(crate::specs::Effects::with_line))]
    fn add_line(&mut self, line: u32, what: LineKind<'_>) -> Result<(), LineFault>
        ensures ok { OnOk result (state_of self.new ≡ with_line (state_of self.old) line what.entry) }
        ensures memory { IsOkUnless result OutOfMemory }
        ensures bytes { self.new.bytes ≡ self.old.bytes }
        ensures clones { self.new.clones ≡ self.old.clones }
    {
        match self.scenario.lines.push(line, what) {
            Ok(()) => Ok(()),
            Err(_) => Err(LineFault::OutOfMemory),
        }
    }

    #[tactic(auto, using(crate::proofs::SoundLemmas::all_with_item), unfolding(crate::specs::Effects::with_packet))]
    fn set_packet(&mut self, writer: Numeral, packet: Option<OpenPacket>)
        requires { is_shallow packet ≡ true }
        ensures state { state_of self.new ≡ with_packet (state_of self.old) writer packet }
        ensures bytes { self.new.bytes ≡ self.old.bytes }
    {
        put_item(&mut self.packets, writer, packet);
    }

    #[tactic(auto, using(crate::proofs::FrontLemmas::writer_named, crate::proofs::WriteLemmas::field_fits, crate::proofs::WriteLemmas::still_shallow), unfolding(crate::specs::Effects::written, crate::specs::Effects::with_bytes))]
    fn add_written(
        &mut self,
        line: u32,
        writer: Numeral,
        step: WriterStep,
        packet: Option<OpenPacket>,
        addition: Addition<'_>,
    ) -> Result<(), LineFault>
        requires front { first (front_reasons (state_of self.old) (OfWriter writer step)) ≡ None }
        requires field { FieldFits step }
        requires packet { packet ≡ packet_of (state_of self.old) writer }
        requires depth { nesting_of packet ≤ MAX_NESTING }
        requires shallow { is_shallow (packet_after line packet step addition.len) ≡ true }
        requires len { len_of packet + addition.len ≤ MAX_PACKET_LEN }
        requires bytes { self.old.bytes + addition.len ≤ MAX_SCENARIO_PACKET_BYTES }
        ensures ok { OnOk result (state_of self.new
            ≡ written (state_of self.old) line writer step addition.entry.fields addition.entry.len) }
        ensures memory { IsOkUnless result OutOfMemory }
    {
        let Addition { fields, len } = addition;
        let packet = packet_after(line, packet, step, len);
        let what = writer_kind(small(writer) as u16, step, fields);
        self.add_line(line, what)?;
        self.set_packet(writer, packet);
        self.bytes += len;
        Ok(())
    }

    /// A line that a writer is given.
    #[tactic(auto, using(crate::proofs::WriteLemmas::refused_by_fields, crate::proofs::WriteLemmas::refused_as_too_long, crate::proofs::WriteLemmas::refused_as_too_many, crate::proofs::WriteLemmas::taken, crate::proofs::WriteLemmas::field_fits, crate::proofs::WriteLemmas::still_shallow))]
    fn write(
        &mut self,
        parser: &mut FieldParser,
        number: u32,
        line: &[u8],
        fields: &[u8],
        writer: Numeral,
        step: WriterStep,
    ) -> Result<(), LineFault>
        requires line { length line.now ≤ MAX_INPUT }
        requires fields { fields.now ≡ fields_part line.now }
        requires front { first (front_reasons (state_of self.old) (OfWriter writer step)) ≡ None }
        ensures { LeadsTo (state_of self.new) result (after_form (state_of self.old) number line.now (Some (OfWriter writer step))) }
    {
        let packet = self.packet(writer);
        let addition = read_addition(parser, line, fields, nesting_of(packet), step)?;
        if u64::from(len_of(packet)) + u64::from(addition.len) > u64::from(MAX_PACKET_LEN) {
            return Err(LineFault::Refused(Reason::PacketTooLong));
        }
        if u64::from(self.bytes) + u64::from(addition.len) > u64::from(MAX_SCENARIO_PACKET_BYTES) {
            return Err(LineFault::Refused(Reason::TooManyBytes));
        }
        self.add_written(number, writer, step, packet, addition)
    }

    #[tactic(auto, unfolding(crate::specs::Effects::with_closed))]
    fn close(&mut self, producer: Numeral)
        ensures { state_of self.new ≡ with_closed (state_of self.old) producer }
    {
        put_item(&mut self.closed, producer, true);
    }

    /// A line for the service about a producer.
    #[tactic(auto, using(crate::proofs::FrontLemmas::producer_named), unfolding(crate::specs::Effects::served))]
    fn serve(&mut self, number: u32, producer: Numeral, step: ProducerStep) -> Result<(), LineFault>
        requires { first (front_reasons (state_of self.old) (OfProducer producer step)) ≡ None }
        ensures ok { OnOk result (state_of self.new
            ≡ served (with_line (state_of self.old) number (producer_kind (value producer) step)) producer step) }
        ensures memory { IsOkUnless result OutOfMemory }
    {
        self.add_line(number, producer_kind(small(producer) as u16, step))?;
        match step {
            ProducerStep::Collect | ProducerStep::Scrape => {}
            ProducerStep::Close => self.close(producer),
        }
        Ok(())
    }

    #[tactic(auto, using(crate::proofs::FrontLemmas::buffer_named))]
    fn read(&mut self, number: u32, buffer: Numeral, most: Option<Numeral>) -> Result<(), LineFault>
        requires { first (front_reasons (state_of self.old) (Read buffer most)) ≡ None }
        ensures ok { OnOk result (state_of self.new ≡ with_line (state_of self.old) number (kinds.Read (value buffer) (limit_of most))) }
        ensures memory { IsOkUnless result OutOfMemory }
    {
        let buffer = small(buffer) as u8;
        let limit = limit(most);
        self.add_line(number, LineKind::Read { buffer, limit })
    }

    /// A line that asks for a clone of a buffer.
    #[tactic(auto, using(crate::proofs::FrontLemmas::cloned_named, crate::proofs::FrontLemmas::room_for_clone), unfolding(crate::specs::Effects::with_clone))]
    fn clone_buffer(&mut self, number: u32, buffer: Numeral) -> Result<(), LineFault>
        requires { first (front_reasons (state_of self.old) (CloneBuffer buffer)) ≡ None }
        ensures ok { OnOk result (state_of self.new ≡ with_clone (with_line (state_of self.old) number (kinds.CloneBuffer (value buffer)))) }
        ensures memory { IsOkUnless result OutOfMemory }
    {
        let buffer = small(buffer) as u8;
        self.add_line(number, LineKind::CloneBuffer { buffer })?;
        self.clones += 1;
        Ok(())
    }

    /// A line that asks for a chunk to be committed.
    #[tactic(auto, using(crate::proofs::FrontLemmas::raw_line, crate::proofs::FrontLemmas::raw_named, crate::proofs::RawLemmas::chunk_is))]
    fn commit_raw(&mut self, number: u32, line: &[u8], raw: NamedRaw) -> Result<(), LineFault>
        requires form { form_of line.now ≡ Some (Raw raw) }
        requires front { first (front_reasons (state_of self.old) (Raw raw)) ≡ None }
        ensures ok { OnOk result (state_of self.new
            ≡ with_line (state_of self.old) number (kinds.Raw (value raw.writer) (chunk_by raw (payload_part line.now)))) }
        ensures memory { IsOkUnless result OutOfMemory }
    {
        let writer = small(raw.writer) as u16;
        let chunk = RawChunk::new(line);
        self.add_line(number, LineKind::Raw { writer, chunk })
    }

    /// A line of this form.
    #[inline(never)]
    #[tactic(auto, using(crate::proofs::PlayLemmas::refused_in_front, crate::proofs::PlayLemmas::taken_buffer, crate::proofs::PlayLemmas::taken_producer, crate::proofs::PlayLemmas::taken_writer, crate::proofs::PlayLemmas::taken_step, crate::proofs::PlayLemmas::taken_read, crate::proofs::PlayLemmas::taken_request, crate::proofs::PlayLemmas::taken_clone, crate::proofs::PlayLemmas::taken_raw))]
    pub fn play(
        &mut self,
        parser: &mut FieldParser,
        number: u32,
        line: &[u8],
        fields: &[u8],
        form: Form,
    ) -> Result<(), LineFault>
        requires line { length line.now ≤ MAX_INPUT }
        requires fields { fields.now ≡ fields_part line.now }
        requires form { form_of line.now ≡ Some form }
        ensures { LeadsTo (state_of self.new) result (after_form (state_of self.old) number line.now (Some form)) }
    {
        if let Some(reason) = self.front_reason(form) {
            return Err(LineFault::Refused(reason));
        }
        match form {
            Form::Buffer { kb, policy } => self.add_buffer(kb, policy),
            Form::Producer {
                pages,
                page_size,
                chunks,
            } => self.add_producer(pages, page_size, chunks),
            Form::Writer {
                producer,
                buffer,
                policy,
                from,
            } => self.add_writer(producer, buffer, policy, from),
            Form::OfWriter { writer, step } => {
                self.write(parser, number, line, fields, writer, step)
            }
            Form::OfProducer { producer, step } => self.serve(number, producer, step),
            Form::Read { buffer, limit } => self.read(number, buffer, limit),
            Form::Request => self.add_line(number, LineKind::Request),
            Form::CloneBuffer { buffer } => self.clone_buffer(number, buffer),
            Form::Raw { raw } => self.commit_raw(number, line, raw),
        }
    }
}
