//! Counting the packets of a trace.
ghost use Rattle.std.specs.Prelude.{IfOk, IfErr};
ghost use Rattle.trace_summary.specs.Counts.{summary_text, IsSummaryOf};
ghost use Rattle.trace_summary.specs.Faults.{IsFaultOf};

use crate::summary::Summary;
use crate::tally::{NONE, Tally, with_packet};
use std::alloc::{AllocError, Global};
use thiserror::Error;
use trace_file::{TraceFault, TraceReader};

/// Why there is no summary.
#[derive(Clone, Copy, Debug, PartialEq, Eq, Error)]
pub enum SummaryFault {
    #[error("out of memory")]
    OutOfMemory,
    /// The trace isn't in its grammar.
    #[error("{0}")]
    Trace(TraceFault),
}

/// What the packets of a trace come to, of each sequence and in all; or the trace's first fault.
pub fn summarize(alloc: Global, trace: &[u8]) -> Result<Summary, SummaryFault>
    ensures summary { IfOk result (λ summary. IsSummaryOf trace.now (summary_text summary)) }
    ensures fault { IfErr result (λ fault. IsFaultOf trace.now fault) }
{
    let mut tally = Tally::new(alloc);
    let mut all = NONE;
    let mut reader = TraceReader::new(trace);
    'packets: loop {
        match reader.next() {
            Err(fault) => return Err(SummaryFault::Trace(fault)),
            Ok(None) => match tally.into_sequences() {
                Ok(sequences) => {
                    return Ok(Summary {
                        sequences,
                        packets: all.packets,
                        bytes: all.bytes,
                    });
                }
                Err(AllocError) => return Err(SummaryFault::OutOfMemory),
            },
            Ok(Some(packet)) => match tally.count(&packet) {
                Ok(()) => all = with_packet(all, &packet),
                Err(AllocError) => return Err(SummaryFault::OutOfMemory),
            },
        }
    }
}
