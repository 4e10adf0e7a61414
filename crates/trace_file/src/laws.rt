//! Laws about the definitions: each is the contract of a function with nothing to do.
ghost use Rattle.trace_file.specs.Traces.{TracesReadOnce};

/// No trace reads in two ways: not as other packets, nor with a fault and without one.
#[tactic(auto, using(crate::proofs::WholeLemmas::traces_read_once))]
pub fn traces_read_once()
    ensures { TracesReadOnce }
{}
