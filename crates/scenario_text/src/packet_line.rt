//! Lines `p W FIELDS`, as nearly all lines of a long scenario are, on a short way of their own. What
//! refuses such a line, but for its FIELDS, and every other spelling of one is left to the way of
//! all lines.

ghost use Rattle.std.specs.Prelude.{IfSome};
ghost use Rattle.scenario_text.specs.PacketLines.{IsPacketLine};

use crate::fields::{Addition, given_fields};
use crate::form::{Form, WriterStep};
use crate::line_fault::LineFault;
use crate::reader::Reader;
use crate::reason::Reason;
use field_tree::FieldParser;
use trace_base::limits::{MAX_INPUT, MAX_SCENARIO_PACKET_BYTES};
use trace_base::numeral::Numeral;

/// The writer that such a line names, and its FIELDS.
#[derive(Clone, Copy)]
pub struct PacketLine<'c> {
    pub writer: u8,
    pub fields: &'c [u8],
}

/// The parts of a line `p W FIELDS` whose W has one digit or two, as the numbers of all writers
/// have.
#[inline(always)]
pub fn packet_line(line: &[u8]) -> Option<PacketLine<'_>>
    ensures { IfSome result (λ found. IsPacketLine line.now found.writer found.fields.now) }
{
    let [b'p', b' ', first @ b'1'..=b'9', rest @ ..] = line else {
        return None;
    };
    if let [b' ', fields @ ..] = rest {
        let writer = *first - b'0';
        return Some(PacketLine { writer, fields });
    }
    let [second @ b'0'..=b'9', b' ', fields @ ..] = rest else {
        return None;
    };
    let writer = (*first - b'0') * 10 + (*second - b'0');
    Some(PacketLine { writer, fields })
}

impl Reader {
    ghost use Rattle.std.specs.Prelude.{◌≡◌, ◌+◌, ◌≤◌, Some, None, true, length, OnOk, IsOkUnless};
    ghost use Rattle.std.specs.Bool.{OnTrue};
    ghost use Rattle.scenario_text.specs.declared.form.Form.TheVariants.{OfWriter};
    ghost use Rattle.scenario_text.specs.declared.form.WriterStep.TheVariants.{Packet};
    ghost use Rattle.scenario_text.specs.declared.line_fault.LineFault.TheVariants.{OutOfMemory};
    ghost use Rattle.trace_base.specs.declared.numeral.Numeral.TheVariants.{Fits};
    ghost use Rattle.scenario_text.specs.Answers.{LeadsTo};
    ghost use Rattle.scenario_text.specs.Effects.{written};
    ghost use Rattle.scenario_text.specs.Forms.{form_of};
    ghost use Rattle.scenario_text.specs.Grammar.{after_form};
    ghost use Rattle.scenario_text.specs.Pieces.{fields_part};
    ghost use Rattle.scenario_text.specs.Reasons.{first, front_reasons};
    ghost use Rattle.scenario_text.specs.State.{packet_of};
    ghost use Rattle.scenario_text.specs.View.{state_of};

    /// Whether no reason but one of its FIELDS is left to refuse this writer a packet.
    #[inline(always)]
    #[tactic(auto, using(crate::proofs::PacketLemmas::front_passed))]
    fn takes_packet(&self, writer: u8) -> bool
        ensures front { OnTrue result (first (front_reasons (state_of self.now) (OfWriter (Fits writer) (Packet true))) ≡ None) }
        ensures none { OnTrue result (packet_of (state_of self.now) (Fits writer) ≡ None) }
    {
        let number = Numeral::Fits(u64::from(writer));
        let Some(spec) = self.writer(number) else {
            return false;
        };
        let producer = Numeral::Fits(u64::from(spec.producer));
        if self.is_closed(producer) {
            return false;
        }
        match self.packet(number) {
            None => true,
            Some(_begun) => false,
        }
    }

    /// Keeps a packet that is begun and ended by one line, so that its writer has none begun as
    /// before.
    #[inline(always)]
    #[tactic(auto, using(crate::proofs::PacketLemmas::written_packet))]
    fn add_packet(&mut self, line: u32, writer: u8, addition: Addition<'_>) -> Result<(), LineFault>
        requires none { packet_of (state_of self.old) (Fits writer) ≡ None }
        requires bytes { self.old.bytes + addition.len ≤ MAX_SCENARIO_PACKET_BYTES }
        ensures ok { OnOk result (state_of self.new
            ≡ written (state_of self.old) line (Fits writer) (Packet true) addition.entry.fields addition.entry.len) }
        ensures memory { IsOkUnless result OutOfMemory }
    {
        let Addition { fields, len } = addition;
        if self
            .scenario
            .lines
            .push_packet(line, u16::from(writer), fields)
            .is_err()
        {
            return Err(LineFault::OutOfMemory);
        }
        self.bytes += len;
        Ok(())
    }

    /// A line `p W FIELDS`.
    #[inline(always)]
    #[tactic(auto, using(crate::proofs::PieceLemmas::fields_inside, crate::proofs::PacketLemmas::packet_refused, crate::proofs::PacketLemmas::packet_too_many, crate::proofs::PacketLemmas::packet_taken))]
    pub fn play_packet(
        &mut self,
        parser: &mut FieldParser,
        number: u32,
        line: &[u8],
        found: PacketLine<'_>,
    ) -> Result<(), LineFault>
        requires line { length line.now ≤ MAX_INPUT }
        requires fields { found.fields.now ≡ fields_part line.now }
        requires form { form_of line.now ≡ Some (OfWriter (Fits found.writer) (Packet true)) }
        ensures { LeadsTo (state_of self.new) result (after_form (state_of self.old) number line.now
            (Some (OfWriter (Fits found.entry.writer) (Packet true)))) }
    {
        let PacketLine { writer, fields } = found;
        if !self.takes_packet(writer) {
            let form = Form::OfWriter {
                writer: Numeral::Fits(u64::from(writer)),
                step: WriterStep::Packet { has_fields: true },
            };
            return self.play(parser, number, line, fields, form);
        }
        let before = (line.len() - fields.len()) as u32;
        let addition = given_fields(parser, before, fields, 0)?;
        if u64::from(self.bytes) + u64::from(addition.len) > u64::from(MAX_SCENARIO_PACKET_BYTES) {
            return Err(LineFault::Refused(Reason::TooManyBytes));
        }
        self.add_packet(number, writer, addition)
    }
}
