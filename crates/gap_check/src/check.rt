//! Going over a trace.
ghost use Rattle.std.specs.Prelude.{◌≡◌, ◌≤◌, ◌<◌, ◌+◌, ◌^◌, ℕ, List, [], None, Some, length, IfOk, IfErr, OnOk};
ghost use Rattle.trace_file.specs.Readers.{StillReads};
ghost use Rattle.trace_file.specs.Traces.{TracePacket, IsFaultIn};
ghost use Rattle.gap_check.specs.Taken.{AllTaken, AreFew};
ghost use Rattle.gap_check.specs.Verdicts.{AreUnmarked, IsFaultOf, IsVerdictOn};

use crate::tell::tell_packet;
use crate::tellers::make_tellers;
use crate::verdict::{CheckFault, Verdict};
use packet_runs::{Packets, Teller};
use std::alloc::Global;
use trace_base::limits::MAX_WRITERS;
use trace_file::{TraceFault, TraceReader};

/// Reads a trace to its end.
fn read_rest(reader: &mut TraceReader<'_>) -> Result<(), TraceFault>
    ensures ends { OnOk result ((packets : List TracePacket) × StillReads reader.old packets None) }
    ensures fault { IfErr result (λ fault. (packets : List TracePacket) × StillReads reader.old packets (Some fault)) }
{
    'packets: loop {
        match reader.next() {
            Err(fault) => return Err(fault),
            Ok(None) => return Ok(()),
            Ok(Some(_packet)) => {}
        }
    }
}

/// The verdict of tellers that have taken no record yet.
fn tell_trace(
    tellers: &mut [Teller],
    emitted: &[Packets],
    trace: &[u8],
) -> Result<Verdict, TraceFault>
    requires writers { length emitted.now ≤ MAX_WRITERS }
    requires few { AreFew emitted.now }
    requires clean { AreUnmarked emitted.now }
    requires taken { AllTaken emitted.now [] tellers.old }
    ensures verdict { IfOk result (IsVerdictOn emitted.now trace.now) }
    ensures fault { IfErr result (IsFaultIn trace.now) }
{
    let mut reader = TraceReader::new(trace);
    let mut count: u64 = 0;
    'packets: loop {
        match reader.next() {
            Err(fault) => return Err(fault),
            Ok(None) => return Ok(Verdict::Agrees { packets: count }),
            Ok(Some(packet)) => {
                count += 1;
                if !tell_packet(tellers, emitted, &packet) {
                    return match read_rest(&mut reader) {
                        Ok(()) => Ok(Verdict::Differs {
                            packet: count,
                            sequence: packet.sequence,
                        }),
                        Err(fault) => Err(fault),
                    };
                }
            }
        }
    }
}

/// Whether the records of a trace tell of the packets that the writers emitted; or the trace's first
/// fault, which counts wherever it stands.
pub fn check_packets(
    alloc: Global,
    emitted: &[Packets],
    trace: &[u8],
) -> Result<Verdict, CheckFault>
    requires writers { length emitted.now ≤ MAX_WRITERS }
    requires few { AreFew emitted.now }
    requires clean { AreUnmarked emitted.now }
    ensures verdict { IfOk result (IsVerdictOn emitted.now trace.now) }
    ensures fault { IfErr result (IsFaultOf trace.now) }
{
    let mut tellers = match make_tellers(alloc, emitted) {
        Ok(tellers) => tellers,
        Err(_) => return Err(CheckFault::OutOfMemory),
    };
    match tell_trace(&mut tellers, emitted, trace) {
        Ok(verdict) => Ok(verdict),
        Err(fault) => Err(CheckFault::Trace(fault)),
    }
}
