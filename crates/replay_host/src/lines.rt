//! The lines of a scenario, in their order.
ghost use Rattle.std.specs.Prelude.{◌≡◌, ℕ, suc, ◌-◌, ◌≤◌, true, List, [], ◌∷◌, ◌++◌, map, OnOk, IfErr};
ghost use Rattle.byte_io.specs.Bytes.{Intake};
ghost use Rattle.trace_model.specs.Calls as calls;
ghost use Rattle.scenario_text.specs.Accepted.{node_call};
ghost use Rattle.scenario_text.specs.declared.scenario.LineKind.TheVariants as line;
ghost use Rattle.chunk_plain.specs.Words.{call_of};
ghost use Rattle.scenario_text.specs.Reach.{NamesProducer};
ghost use Rattle.replay_model.specs.Acts.{Collect, Scrape, ReadAll};
ghost use Rattle.replay_model.specs.Schedule.{acts_of};
ghost use Rattle.replay_host.specs.Replaying.{IsStall, CountsStop};

use crate::fault::HostFault;
use crate::host::Host;
use crate::raws::PayloadRoom;
use byte_io::traits::Sink;
use chunk_plain::{Words, WriterCall};
use field_tree::Fields;
use scenario_text::{LineKind, RawChunk};
use std::sync::ledger::Ledger;
use trace_base::steps::Steps;

/// The place of a writer, by its number.
fn place_of(writer: u16) -> usize
    requires { 1 ≤ writer }
    ensures { result ≡ writer - 1 }
{
    usize::from(writer) - 1
}

impl<W: Words> Host<W, W::Writer, W::Service> {
    ghost use Rattle.replay_host.specs.Asking.{IsShortCall};
    ghost use Rattle.replay_host.specs.Asks.{ComesAsking};
    ghost use Rattle.replay_host.specs.Lines.{Moment, ComesNext, IsLinePlayed};
    ghost use Rattle.replay_host.specs.Stopping.{StopsIn};

    /// Plays a line that asks its writer for one call.
    fn play_call<L: Ledger>(
        &mut self,
        steps: &mut Steps<L>,
        place: usize,
        call: WriterCall<'_>,
    ) -> Result<(), HostFault>
        requires next { (moment : Moment) × ComesAsking W.means moment place (call_of call ∷ []) self.old }
        requires short { IsShortCall (call_of call) }
        ensures played { OnOk result ((moment : Moment) → ComesAsking W.means moment place (call_of call.entry ∷ []) self.old
            → (taken : Intake) → IsLinePlayed W.means moment self.old taken self.new taken) }
        ensures stops { IfErr result (λ fault. (moment : Moment) → ComesAsking W.means moment place (call_of call.entry ∷ []) self.old
            → (taken : Intake) → StopsIn W.means (acts_of moment.scenario moment.before moment.line.what) self.old taken fault taken) }
        ensures fault { IfErr result IsStall }
    {
        self.ask(steps, place, call)
    }

    /// Plays a line that asks its writer for fields.
    fn play_fields<L: Ledger>(
        &mut self,
        steps: &mut Steps<L>,
        place: usize,
        fields: &Fields<'_>,
    ) -> Result<(), HostFault>
        requires next { (moment : Moment) × ComesAsking W.means moment place (map node_call fields.now) self.old }
        ensures played { OnOk result ((moment : Moment) → ComesAsking W.means moment place (map node_call fields.now) self.old
            → (taken : Intake) → IsLinePlayed W.means moment self.old taken self.new taken) }
        ensures stops { IfErr result (λ fault. (moment : Moment) → ComesAsking W.means moment place (map node_call fields.now) self.old
            → (taken : Intake) → StopsIn W.means (acts_of moment.scenario moment.before moment.line.what) self.old taken fault taken) }
        ensures fault { IfErr result IsStall }
    {
        self.ask_fields(steps, place, fields)
    }

    /// Plays a line that asks its writer for a whole packet.
    fn play_packet<L: Ledger>(
        &mut self,
        steps: &mut Steps<L>,
        place: usize,
        fields: &Fields<'_>,
    ) -> Result<(), HostFault>
        requires next { (moment : Moment)
            × ComesAsking W.means moment place (calls.Begun true ∷ map node_call fields.now ++ calls.Finished ∷ []) self.old }
        ensures played { OnOk result ((moment : Moment)
            → ComesAsking W.means moment place (calls.Begun true ∷ map node_call fields.now ++ calls.Finished ∷ []) self.old
            → (taken : Intake) → IsLinePlayed W.means moment self.old taken self.new taken) }
        ensures stops { IfErr result (λ fault. (moment : Moment)
            → ComesAsking W.means moment place (calls.Begun true ∷ map node_call fields.now ++ calls.Finished ∷ []) self.old
            → (taken : Intake) → StopsIn W.means (acts_of moment.scenario moment.before moment.line.what) self.old taken fault taken) }
        ensures fault { IfErr result IsStall }
    {
        self.ask_packet(steps, place, fields)
    }

    /// Plays a line in which a writer flushes.
    fn play_flush(&mut self, place: usize)
        requires next { (moment : Moment) × ComesAsking W.means moment place (calls.Flushed ∷ []) self.old }
        ensures played { (moment : Moment) → ComesAsking W.means moment place (calls.Flushed ∷ []) self.old
            → (taken : Intake) → IsLinePlayed W.means moment self.old taken self.new taken }
    {
        self.flush(place);
    }

    /// Plays the end of a packet: its writer answers a request that came since its begin.
    fn play_finish<L: Ledger>(
        &mut self,
        steps: &mut Steps<L>,
        place: usize,
    ) -> Result<(), HostFault>
        requires next { (moment : Moment) × (moment.line.what ≡ line.End (suc place)) × ComesNext W.means moment self.old }
        ensures played { OnOk result ((moment : Moment) → moment.line.what ≡ line.End (suc place) → ComesNext W.means moment self.old
            → (taken : Intake) → IsLinePlayed W.means moment self.old taken self.new taken) }
        ensures stops { IfErr result (λ fault. (moment : Moment) → moment.line.what ≡ line.End (suc place)
            → ComesNext W.means moment self.old
            → (taken : Intake) → StopsIn W.means (acts_of moment.scenario moment.before moment.line.what) self.old taken fault taken) }
        ensures fault { IfErr result IsStall }
    {
        self.ask(steps, place, WriterCall::Finished)?;
        if self.flushes.is_due(place) {
            self.answer(place);
        }
        Ok(())
    }
}

impl<W: Words> Host<W, W::Writer, W::Service> {
    ghost use Rattle.replay_host.specs.Lines.{Moment, ComesNext, IsLinePlayed};
    ghost use Rattle.replay_host.specs.Raws.{HasRoom};
    ghost use Rattle.replay_host.specs.Serving.{ComesServing};
    ghost use Rattle.replay_host.specs.Stopping.{StopsIn};

    /// Plays a line in which a producer's complete chunks are taken.
    fn play_collect(&mut self, producer: u16)
        requires next { (moment : Moment) × ComesServing W.means moment (Collect producer ∷ []) self.old
            × NamesProducer moment.scenario.producers moment.before producer }
        ensures played { (moment : Moment) → ComesServing W.means moment (Collect producer ∷ []) self.old
            → (taken : Intake) → IsLinePlayed W.means moment self.old taken self.new taken }
    {
        self.collect(producer);
    }

    /// Plays a line in which a producer is scraped.
    fn play_scrape(&mut self, producer: u16)
        requires next { (moment : Moment) × ComesServing W.means moment (Scrape producer ∷ []) self.old
            × NamesProducer moment.scenario.producers moment.before producer }
        ensures played { (moment : Moment) → ComesServing W.means moment (Scrape producer ∷ []) self.old
            → (taken : Intake) → IsLinePlayed W.means moment self.old taken self.new taken }
    {
        self.scrape(producer);
    }

    /// Plays a line in which a producer is closed.
    fn play_close(&mut self, producer: u16)
        requires next { (moment : Moment) × (moment.line.what ≡ line.Close producer) × ComesNext W.means moment self.old }
        ensures played { (moment : Moment) → moment.line.what ≡ line.Close producer → ComesNext W.means moment self.old
            → (taken : Intake) → IsLinePlayed W.means moment self.old taken self.new taken }
    {
        self.close(producer);
    }

    /// Plays a line in which a buffer is read.
    fn play_read<O: Sink>(&mut self, buffer: u8, limit: u64, out: &mut O) -> Result<(), HostFault>
        requires next { (moment : Moment) × ComesServing W.means moment (ReadAll buffer limit ∷ []) self.old }
        requires may { O.may_write out.old }
        ensures played { OnOk result ((moment : Moment) → ComesServing W.means moment (ReadAll buffer limit ∷ []) self.old
            → IsLinePlayed W.means moment self.old (O.taken out.old) self.new (O.taken out.new)) }
        ensures stops { IfErr result (λ fault. (moment : Moment) → ComesServing W.means moment (ReadAll buffer limit ∷ []) self.old
            → StopsIn W.means (acts_of moment.scenario moment.before moment.line.what) self.old (O.taken out.old) fault (O.taken out.new)) }
        ensures count { CountsStop (O.faults out.old) (O.faults out.new) result }
        ensures goes_on { OnOk result (O.may_write out.new) }
        ensures stalled { IfErr result (λ fault. IsStall fault → O.may_write out.new) }
    {
        self.read(buffer, limit, out)
    }

    /// Plays a line that commits a chunk: what it is answered is kept.
    fn play_raw(&mut self, place: usize, chunk: &RawChunk<'_>, payloads: &mut PayloadRoom)
        requires next { (moment : Moment) × (moment.line.what ≡ line.Raw (suc place) chunk.now) × ComesNext W.means moment self.old }
        requires room { HasRoom (W.means.setup self.old.table).sizes payloads.old }
        ensures played { (moment : Moment) → moment.line.what ≡ line.Raw (suc place) chunk.now → ComesNext W.means moment self.old
            → (taken : Intake) → IsLinePlayed W.means moment self.old taken self.new taken }
        ensures room { HasRoom (W.means.setup self.old.table).sizes payloads.new }
    {
        let answer = self.commit(place, chunk, payloads);
        self.flushes.tell(answer);
    }

    /// Plays a line.
    pub(crate) fn play_line<O: Sink, L: Ledger>(
        &mut self,
        steps: &mut Steps<L>,
        line: &LineKind<'_>,
        payloads: &mut PayloadRoom,
        out: &mut O,
    ) -> Result<(), HostFault>
        requires next { (moment : Moment) × (moment.line.what ≡ line.now) × ComesNext W.means moment self.old }
        requires room { HasRoom (W.means.setup self.old.table).sizes payloads.old }
        requires may { O.may_write out.old }
        ensures played { OnOk result ((moment : Moment) → moment.line.what ≡ line.now → ComesNext W.means moment self.old
            → IsLinePlayed W.means moment self.old (O.taken out.old) self.new (O.taken out.new)) }
        ensures room { HasRoom (W.means.setup self.old.table).sizes payloads.new }
        ensures stops { IfErr result (λ fault. (moment : Moment) → moment.line.what ≡ line.now → ComesNext W.means moment self.old
            → StopsIn W.means (acts_of moment.scenario moment.before moment.line.what) self.old (O.taken out.old) fault (O.taken out.new)) }
        ensures count { CountsStop (O.faults out.old) (O.faults out.new) result }
        ensures goes_on { OnOk result (O.may_write out.new) }
        ensures stalled { IfErr result (λ fault. IsStall fault → O.may_write out.new) }
    {
        match line {
            LineKind::Packet { writer, fields } => {
                self.play_packet(steps, place_of(*writer), fields)
            }
            LineKind::Begin { writer } => {
                self.play_call(steps, place_of(*writer), WriterCall::Begun { kept: true })
            }
            LineKind::Add { writer, fields } => {
                self.play_fields(steps, place_of(*writer), fields)
            }
            LineKind::Nest { writer, field } => {
                self.play_call(
                    steps,
                    place_of(*writer),
                    WriterCall::Nested { field: *field },
                )
            }
            LineKind::Unnest { writer } => {
                self.play_call(steps, place_of(*writer), WriterCall::Ended)
            }
            LineKind::End { writer } => self.play_finish(steps, place_of(*writer)),
            LineKind::Flush { writer } => {
                self.play_flush(place_of(*writer));
                Ok(())
            }
            LineKind::Collect { producer } => {
                self.play_collect(*producer);
                Ok(())
            }
            LineKind::Scrape { producer } => {
                self.play_scrape(*producer);
                Ok(())
            }
            LineKind::Close { producer } => {
                self.play_close(*producer);
                Ok(())
            }
            LineKind::Read { buffer, limit } => self.play_read(*buffer, *limit, out),
            LineKind::Request => {
                self.play_request();
                Ok(())
            }
            // Who plays the lines fills the clone behind it.
            LineKind::CloneBuffer { buffer: _ } => Ok(()),
            LineKind::Raw { writer, chunk } => {
                self.play_raw(place_of(*writer), chunk, payloads);
                Ok(())
            }
        }
    }
}
