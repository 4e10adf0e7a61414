//! A stream that is finished.
ghost use Rattle.std.specs.Prelude.{List, ℕ, IfOk, IfErr};
ghost use Rattle.config_text.specs.Configs.{ConfigOf};
ghost use Rattle.byte_io.specs.Bytes.{Intake};
ghost use Rattle.stream_producer.specs.Faults.{LeavesSink};

use crate::fault::StreamFault;
use crate::producer::{StreamCore, StreamDone};
use byte_io::traits::Sink;
use chunk_plain::Words;

impl<W: Words + Drop> StreamCore<W, W::Service>
where
    W::Service: Drop,
{
    ghost use Rattle.stream_producer.specs.Feeding.{IsFeeding, HasTaken, IsTraceOf};
    ghost use Rattle.stream_producer.specs.Ending.{Finishes, StopsFinishing, FinishesStream, IsAtLength};

    /// Finishes a stream that is closed: all its sequences are closed, all buffers read, and what became of
    /// chunks, packets and commits is answered.
    pub fn finish<O: Sink>(self, out: &mut O) -> Result<StreamDone, StreamFault>
        requires feeding { IsFeeding W.means self }
        requires may { O.may_write out.old }
        ensures finishes { IfOk result (Finishes W.means self (O.taken out.old) (O.taken out.new)) }
        ensures stops { IfErr result (StopsFinishing W.means self (O.taken out.old) (O.taken out.new)) }

        // Whatever pieces the stream came in, the sink has taken the records of its history.
        ensures stream { (config : ConfigOf) (stream : List ℕ) (start : Intake) → HasTaken W.means config stream self
            → IsTraceOf W.means config stream self start (O.taken out.old)
            → IfOk result (λ done. FinishesStream W.means config stream self start (O.taken out.new) done) }
        ensures no_end { (config : ConfigOf) (stream : List ℕ) → HasTaken W.means config stream self → IfErr result (IsAtLength stream) }
        ensures sink { LeavesSink (O.faults out.old) result (O.faults out.new) (O.may_write out.new) }
    {
        let StreamCore {
            reader,
            mut player,
            mut done,
        } = self;
        if !reader.is_closed() {
            let offset = reader.stream_len();
            return Err(StreamFault::NoEnd { offset });
        }
        player.close_all(done.sequences.len());
        player.read_all(done.buffers.len(), out)?;
        player.count_buffers(&mut done.buffers);
        player.count_sequences(&mut done.sequences);
        done.commits = player.commits;
        done.refused = player.refused;
        Ok(done)
    }
}
