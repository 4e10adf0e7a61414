//! Whom a writer asks for chunks: the service, which takes the complete ones.
use chunk_plain::Words;
use service_core::ServiceCore;
use trace_writer::HelperOn;

/// The service, which frees chunks by taking them, for the writers of one producer.
#[derive(Drop)]
pub struct Collecting<S> {
    pub service: ServiceCore<S>,
    /// The producer whose writers may ask.
    pub producer: u16,
    /// How often it was asked, up to the last value.
    pub asks: u64,
}

impl<W: Words> HelperOn<W> for Collecting<W::Service> {
    ghost use Rattle.std.proofs.Common.{refl, sym, subst};
    ghost use Rattle.chunk_plain.specs.Setup.{Setup};
    ghost use Rattle.chunk_plain.specs.Views.{ServiceView};
    ghost use Rattle.service_core.specs.Agreement.{ServiceAgrees, IsOpen, ids_left};
    ghost use Rattle.replay_host.specs.Helping.{MayHelp, Helps};

    ghost turns = { λ helper. ids_left helper.service };

    ghost needs = { λ helper table. MayHelp W.means helper table };

    ghost helps = { λ helper table producer answer after left. Helps W.means helper table producer answer after left };

    ghost asked = { λ helper. helper.asks };

    ghost asked_more = { λ helper table producer answer after left helps. helps.asked };

    ghost needs_stay = { λ helper old new seat after step may.
        let stays = step.service_stays helper.service.seat may.served.serves in
        record {
          served = record {
            serves = stays.0;
            agrees = subst (λ (v : ServiceView). ServiceAgrees (W.means.setup new) v helper.service) (sym stays.1)
                (subst (λ (s : Setup). ServiceAgrees s (W.means.service_view old helper.service.seat) helper.service)
                (sym step.setup_stays) may.served.agrees);
            reads = step.reads_stay helper.service.seat may.served.reads;
          };
          opened = subst (λ (s : Setup). IsOpen s helper.service helper.producer) (sym step.setup_stays) may.opened;
        } };

    /// Nothing is done for the writers of other producers.
    fn help(&mut self, table: &mut W, producer: u16) -> bool {
        self.asks = self.asks.saturating_add(1);
        if producer != self.producer {
            return false;
        }
        let count = self.service.collect(table, producer);
        self.service.ids_fit();
        count > 0
    }
}
