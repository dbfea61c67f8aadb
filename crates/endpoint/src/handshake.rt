// The handshake: requests, and replies that count by their nonce.
ghost use Rattle.std.specs.Prelude.{◌≡◌, length};
ghost use Rattle.events.specs.Events.{without_input};
ghost use Rattle.endpoint_rules.specs.Call.{Call};
ghost use Rattle.endpoint_rules.specs.Step.{step};
ghost use Rattle.endpoint.specs.Endpoint.{seen, DidAs};
ghost use Rattle.endpoint.specs.Inside.Handshake.{RequestedAs, progress_of};

use crate::{Ended, Endpoint, NUM_SYNC_PACKETS};
use answer::{Answer, Refusal};
use codec::MessageBody;
use endpoint_rules::Phase;
use events::{Entry, Event, NO_INPUT, SYNCHRONIZED};

// How far the handshake is, as it is announced; with no reply to come it is over.
pub(crate) fn progress(remaining: u32) -> Entry
    ensures { result ≡ without_input (progress_of remaining) }
{
    if 0 < remaining {
        return Entry {
            event: Event::Synchronizing {
                total: NUM_SYNC_PACKETS,
                count: NUM_SYNC_PACKETS.saturating_sub(remaining),
            },
            input: NO_INPUT,
        };
    }
    SYNCHRONIZED
}

impl Endpoint {
    // A request: written where it fits, and then the times are noted. Its nonce is the caller's to note. (Inlined, so that `self` is not lent for it.)
    #[inline(always)]
    pub(crate) fn request(&mut self, now: u64, nonce: u32, out: &mut [u8]) -> Answer
        ensures { RequestedAs self.old now nonce out.old result self.new out.new }
    {
        self.queued = outbox::body_only(
            out,
            self.queued,
            self.setup.magic,
            MessageBody::SyncRequest {
                random_request: nonce,
            },
        )?;
        self.clocks = self.clocks.requested(now).sent(now);
        Ok(())
    }

    // The handshake begins: all replies are to come, and the network's statistics count from this epoch.
    #[tactic(auto, using(crate::proofs::Laws::Handshake::synchronize_clocks, crate::proofs::Laws::Handshake::synchronize_state, crate::proofs::Laws::Phases::not_initializing))]
    pub fn synchronize(mut self, now: u64, epoch: u64, nonce: u32, out: &mut [u8]) -> Ended
        ensures { DidAs self (step (Call.synchronize now epoch nonce (length out.old)) (seen self)) out.old result out.new }
    {
        if timers::is_bad(now) || timers::is_bad(epoch) {
            return Ended {
                endpoint: self,
                answer: Err(Refusal::BadClock),
            };
        }
        let Phase::Initializing = self.sync.phase else {
            return Ended {
                endpoint: self,
                answer: Err(Refusal::WrongState),
            };
        };
        // A way out by `return`: what a `match` gives is a copy of what its arm gives.
        if let Err(refusal) = self.request(now, nonce, out) {
            return Ended {
                endpoint: self,
                answer: Err(refusal),
            };
        }
        // A copy of the nonces alone, as in `last_recv_frame`.
        let mut nonces = self.nonces;
        nonces.issue(nonce);
        self.nonces = nonces;
        self.sync.phase = Phase::Synchronizing;
        self.sync.remaining = NUM_SYNC_PACKETS;
        self.quality = self.quality.started(epoch);
        Ended {
            endpoint: self,
            answer: Ok(()),
        }
    }
}
