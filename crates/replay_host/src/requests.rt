//! A flush request, and how writers answer it.
ghost use Rattle.std.specs.Prelude.{◌≡◌, ℕ, suc, ◌+◌, ◌<◌, false, map, vec_len};
ghost use Rattle.byte_io.specs.Bytes.{Intake};
ghost use Rattle.trace_model.specs.Packets.{packets_of, is_writing};
ghost use Rattle.session_core.specs.declared.answers.SessionState.TheVariants.{Started};
ghost use Rattle.scenario_text.specs.Accepted.{calls_asked};
ghost use Rattle.scenario_text.specs.declared.scenario.LineKind.TheVariants as line;
ghost use Rattle.replay_model.specs.Acts.{Collect};
ghost use Rattle.replay_model.specs.Schedule.{open_producers};

use crate::host::Host;
use chunk_plain::Words;

impl<W: Words> Host<W, W::Writer, W::Service> {
    ghost use Rattle.replay_host.specs.Answering.{IsAmid, MayAnswer, HasAnswered, HasAnsweredBetween, HaveAnswered, HasRequested};
    ghost use Rattle.replay_host.specs.Lines.{Moment, ComesNext, IsLinePlayed};
    ghost use Rattle.replay_host.specs.Playing.{IsHost};
    ghost use Rattle.replay_host.specs.Serving.{HasFlags, HasServed};

    /// The writer at this place, which has no packet begun, answers the newest request and those
    /// before it: it flushes, and names the chunks that it has completed.
    pub(crate) fn answer(&mut self, place: usize)
        requires may { (may : MayAnswer W.means place self.old)
            × (is_writing (packets_of (calls_asked (suc place) may.amid.before)) ≡ false) }
        ensures answered { HasAnswered W.means place self.old self.new }
    {
        self.flush(place);
        let chunks = self.writers[place].completed();
        let newest = self.flushes.made as u32;
        let _ = self
            .helper
            .service
            .acknowledge(newest, place as u16 + 1, chunks);
        self.flushes.answer(place, chunks);
    }

    /// The writer at this place answers, unless it has a packet begun.
    fn answer_between(&mut self, place: usize)
        requires may { MayAnswer W.means place self.old }
        ensures answered { HasAnsweredBetween W.means place self.old self.new }
    {
        if !self.writers[place].in_packet() {
            self.answer(place);
        }
    }

    /// Each writer of an open producer that has no packet begun answers.
    fn answer_all(&mut self)
        requires amid { IsAmid W.means self.old }
        ensures answered { (amid : IsAmid W.means self.old) → HaveAnswered W.means amid.scenario amid.before self.old self.new }
    {
        for place in 0..self.writers.len() {
            if self.is_open(place) {
                self.answer_between(place);
            }
        }
    }

    /// A request is made, for which there is room.
    fn request(&mut self)
        requires host { IsHost W.means self.old }
        requires room { self.old.flushes.made < vec_len self.old.flushes.chunks }
        requires few { vec_len self.old.flushes.chunks < u32.MAX }
        requires started { self.old.helper.service.session.state ≡ Started }
        requires requests { self.old.helper.service.session.requests ≡ self.old.flushes.made }
        ensures requested { HasRequested W.means self.old self.new }
    {
        let _ = self.helper.service.request_flush(&mut self.table);
        self.flushes.request();
    }

    /// The complete chunks of each open producer are taken.
    pub(crate) fn collect_all(&mut self)
        requires flags { HasFlags W.means self.old }
        ensures served { (flags : HasFlags W.means self.old)
            → HasServed W.means (map Collect (open_producers flags.before 1 flags.scenario.producers)) self.old self.new }
    {
        for index in 0..self.open_producers.len() {
            if self.open_producers[index] {
                self.collect(index as u16 + 1);
            }
        }
    }

    /// A line that makes a flush request: each writer of an open producer that has no packet begun
    /// answers, and then each open producer's complete chunks are taken.
    pub(crate) fn play_request(&mut self)
        requires next { (moment : Moment) × (moment.line.what ≡ line.Request) × ComesNext W.means moment self.old }
        ensures played { (moment : Moment) → moment.line.what ≡ line.Request → ComesNext W.means moment self.old
            → (taken : Intake) → IsLinePlayed W.means moment self.old taken self.new taken }
    {
        self.request();
        self.answer_all();
        self.collect_all();
    }
}
