//! A whole stream that is played at once.
ghost use Rattle.std.specs.Prelude.{OnOk};
ghost use Rattle.byte_io.specs.Bytes.{CountsFaults};
ghost use Rattle.config_text.specs.Configs.{ConfigOf};

use crate::fault::StreamFault;
use crate::producer::{StreamCore, StreamDone};
use byte_io::put::WriteFault;
use byte_io::traits::Sink;
use chunk_plain::Words;

impl<W: Words + Drop> StreamCore<W, W::Service>
where
    W::Service: Drop,
{
    ghost use Rattle.stream_producer.specs.Feeding.{IsMadeFor};
    ghost use Rattle.stream_producer.specs.Whole.{MayPlayWhole, PlaysWhole, TakesBytes};

    /// Plays a whole stream that has no fault, as `check_stream` says: its frames, and then its end.
    pub fn play_stream<O: Sink>(
        mut self,
        stream: &[u8],
        out: &mut O,
    ) -> Result<StreamDone, WriteFault>
        requires whole { MayPlayWhole W.means self stream.now }
        requires may { O.may_write out.old }
        ensures plays { (config : ConfigOf) → IsMadeFor W.means config self
            → PlaysWhole config (W.means.setup self.player.table) stream.now (O.taken out.old) result (O.taken out.new) }
        ensures took { TakesBytes (O.taken out.old) (O.taken out.new) }
        ensures count { CountsFaults (O.faults out.old) (O.faults out.new) result }
        ensures goes_on { OnOk result (O.may_write out.new) }
    {
        match self.feed(stream, out) {
            Ok(()) => {}
            Err(StreamFault::WriteFault) => return Err(WriteFault),
            Err(_) => unreachable!(),
        }
        match self.finish(out) {
            Ok(done) => Ok(done),
            Err(StreamFault::WriteFault) => Err(WriteFault),
            Err(_) => unreachable!(),
        }
    }
}
