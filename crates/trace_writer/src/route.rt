//! Where a writer's packets go: its producer's chunks, its buffer, and what it does where no chunk is
//! free.
use claim_arbiter::Arbiter;
use trace_base::policy::WriterSpec;

#[derive(Clone, Copy, Debug)]
pub(crate) struct Route {
    pub spec: WriterSpec,
    pub arbiter: Arbiter,
    pub payload_size: u32,
}
