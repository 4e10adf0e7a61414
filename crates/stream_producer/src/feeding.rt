//! A piece of a stream that is played.
ghost use Rattle.std.specs.Prelude.{◌≡◌, ℕ, ◌+◌, ◌^◌, ◌<◌, List, length, IfOk, OnOk, IfErr};
ghost use Rattle.config_text.specs.Configs.{ConfigOf};
ghost use Rattle.stream_frames.specs.Framing.{fed, by_front, front_of};
ghost use Rattle.stream_frames.specs.Values.{limits_of, feeding_of};
ghost use Rattle.stream_producer.specs.Faults.{LeavesSink};

use crate::fault::StreamFault;
use crate::producer::StreamCore;
use byte_io::traits::Sink;
use chunk_plain::Words;
use stream_frames::{Front, front_of};

impl<W: Words> StreamCore<W, W::Service> {
    ghost use Rattle.stream_producer.specs.Feeding.{IsFeeding, HasAtMostOneFrame, Feeds, FeedsSome, Stops, HasTaken, FeedsStream, at_feed};

    /// Plays the frame that stands whole in the reader, if there is one. It is apart, as most frames stand
    /// whole in their pieces.
    #[inline(never)]
    fn play_front<O: Sink>(&mut self, out: &mut O) -> Result<(), StreamFault>
        requires feeding { HasAtMostOneFrame W.means self.old }
        requires may { O.may_write out.old }
        ensures feeds { OnOk result (Feeds W.means
            (by_front (feeding_of self.old.reader).at (feeding_of self.old.reader).have
            (front_of (limits_of self.old.reader) (feeding_of self.old.reader).have))
            self.old self.new (O.taken out.old) (O.taken out.new)) }
        ensures stops { IfErr result (Stops W.means
            (by_front (feeding_of self.old.reader).at (feeding_of self.old.reader).have
            (front_of (limits_of self.old.reader) (feeding_of self.old.reader).have))
            self.old self.new (O.taken out.old) (O.taken out.new)) }
        ensures sink { LeavesSink (O.faults out.old) result (O.faults out.new) (O.may_write out.new) }
    {
        match self.reader.front() {
            Front::Short => Ok(()),
            Front::Bad => Err(StreamFault::BadFrame {
                offset: self.reader.offset(),
            }),
            Front::Whole { frame, size: _ } => {
                let closes = frame.closes();
                self.player.play(self.reader.limits(), frame, out)?;
                self.reader.advance(closes);
                Ok(())
            }
        }
    }

    /// Takes bytes of the piece, at most up to a frame's end, and plays that frame. Says how many. A frame that
    /// stands whole in the piece is played where it stands, without a copy.
    fn feed_some<O: Sink>(&mut self, piece: &[u8], out: &mut O) -> Result<usize, StreamFault>
        requires feeding { IsFeeding W.means self.old }
        requires length { (feeding_of self.old.reader).at + length (feeding_of self.old.reader).have + length piece.now < 2 ^ 64 }
        requires some { 0 < length piece.now }
        requires may { O.may_write out.old }
        ensures feeds { IfOk result (λ count. FeedsSome W.means piece.now count self.old self.new (O.taken out.old) (O.taken out.new)) }
        ensures stops { IfErr result (Stops W.means (fed (limits_of self.old.reader) (feeding_of self.old.reader) piece.now)
            self.old self.new (O.taken out.old) (O.taken out.new)) }
        ensures sink { LeavesSink (O.faults out.old) result (O.faults out.new) (O.may_write out.new) }
    {
        if self.reader.is_closed() {
            let offset = self.reader.offset();
            return Err(StreamFault::BadFrame { offset });
        }
        if self.reader.is_between() {
            if let Front::Whole { frame, size } = front_of(self.reader.limits(), piece) {
                let closes = frame.closes();
                self.player.play(self.reader.limits(), frame, out)?;
                self.reader.pass(size, closes);
                return Ok(size);
            }
        }
        let count = self.reader.take(piece);
        self.play_front(out)?;
        Ok(count)
    }

    /// Plays the next piece of the stream: each frame that ends in it. Behind an Err there is no call.
    pub fn feed<O: Sink>(&mut self, piece: &[u8], out: &mut O) -> Result<(), StreamFault>
        requires feeding { IsFeeding W.means self.old }
        requires length { (feeding_of self.old.reader).at + length (feeding_of self.old.reader).have + length piece.now < 2 ^ 64 }
        requires may { O.may_write out.old }

        // What comes of the stream with this piece, and what was played of it.
        ensures feeds { OnOk result (Feeds W.means (fed (limits_of self.old.reader) (feeding_of self.old.reader) piece.now)
            self.old self.new (O.taken out.old) (O.taken out.new)) }
        ensures stops { IfErr result (Stops W.means (fed (limits_of self.old.reader) (feeding_of self.old.reader) piece.now)
            self.old self.new (O.taken out.old) (O.taken out.new)) }

        // Whatever pieces came before, this is the stream of them all with the piece.
        ensures stream { (config : ConfigOf) (stream : List ℕ) → HasTaken W.means config stream self.old
            → FeedsStream W.means config stream piece.now (at_feed self.old (O.taken out.old)) result (at_feed self.new (O.taken out.new)) }
        ensures counted { OnOk result ((feeding_of self.new.reader).at + length (feeding_of self.new.reader).have
            ≡ (feeding_of self.old.reader).at + length (feeding_of self.old.reader).have + length piece.now) }
        ensures sink { LeavesSink (O.faults out.old) result (O.faults out.new) (O.may_write out.new) }
    {
        let mut at = 0;
        while at < piece.len() {
            at += self.feed_some(&piece[at..], out)?;
        }
        Ok(())
    }
}
