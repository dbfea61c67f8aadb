// The end of an endpoint: a disconnect that its owner asks for.
ghost use Rattle.endpoint_rules.specs.Call.{Call};
ghost use Rattle.endpoint_rules.specs.Step.{step};
ghost use Rattle.endpoint.specs.Endpoint.{seen, DoneAs};

use crate::{Ended, Endpoint};
use answer::Refusal;
use endpoint_rules::Phase;

// How long a disconnected endpoint goes on answering.
const UDP_SHUTDOWN_TIMER: u64 = 5000;

impl Endpoint {
    // Each time the wait begins again, except in Shutdown.
    #[tactic(auto, using(crate::proofs::Laws::Disconnecting::disconnect_clock, crate::proofs::Laws::Disconnecting::disconnect_done, crate::proofs::Laws::Disconnecting::disconnect_ignored, crate::proofs::Laws::Disconnecting::low, crate::proofs::Laws::Phases::not_shutdown))]
    pub fn disconnect(mut self, now: u64) -> Ended
        ensures { DoneAs self (step (Call.disconnect now) (seen self)) result }
    {
        if timers::is_bad(now) {
            return Ended {
                endpoint: self,
                answer: Err(Refusal::BadClock),
            };
        }
        if !matches!(self.sync.phase, Phase::Shutdown) {
            self.sync.phase = Phase::Disconnected;
            self.clocks = self.clocks.shutting_down(now + UDP_SHUTDOWN_TIMER);
        }
        Ended {
            endpoint: self,
            answer: Ok(()),
        }
    }
}
