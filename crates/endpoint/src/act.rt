// Act: what the clocks bring, by phase.
mod batch;
mod due;

ghost use Rattle.std.specs.Prelude.{length};
ghost use Rattle.status.specs.Statuses.{held_statuses};
ghost use Rattle.endpoint_rules.specs.Call.{Call};
ghost use Rattle.endpoint_rules.specs.Step.{step};
ghost use Rattle.endpoint.specs.Endpoint.{seen, DidAs};

use crate::{Ended, Endpoint, room};
use answer::Refusal;
use ceilings::MOST_EVENTS;
use endpoint_rules::Phase;
use status::Statuses;

const SYNC_RETRY_INTERVAL: u64 = 200;

impl Endpoint {
    // What the clocks bring is done, or where it does not all fit, nothing.
    #[tactic(auto, using(crate::proofs::Laws::Act::Ways::act_clocks, crate::proofs::Laws::Act::Ways::act_count, base::proofs::Arrays::view_le), unfolding(events::specs::Events::held_events, fixed_vec::specs::FixedVec::held))]
    pub fn act(
        mut self,
        statuses: Statuses,
        now: u64,
        epoch: u64,
        nonce: u32,
        out: &mut [u8],
    ) -> Ended
        ensures { DidAs self (step (Call.act statuses.count (held_statuses statuses) now epoch nonce (length out.old)) (seen self)) out.old result out.new }
    {
        if timers::is_bad(now) || timers::is_bad(epoch) {
            return Ended {
                endpoint: self,
                answer: Err(Refusal::BadClock),
            };
        }
        if statuses.count != self.setup.num_players as usize {
            return Ended {
                endpoint: self,
                answer: Err(Refusal::BadLength),
            };
        }
        match self.sync.phase {
            // Another request, where none was made for a while.
            Phase::Synchronizing => {
                if timers::passed(self.clocks.last_sync_request_time, SYNC_RETRY_INTERVAL, now) {
                    match self.request(now, nonce, out) {
                        Ok(()) => self.nonces.issue(nonce),
                        Err(refusal) => {
                            return Ended {
                                endpoint: self,
                                answer: Err(refusal),
                            };
                        }
                    }
                }
            }
            // All that is due fits, or nothing is done.
            Phase::Running => {
                let timeout = self.setup.disconnect_timeout;
                let notify_start = self.setup.disconnect_notify_start;
                let pending = self.pending.count();
                let due = due::due_at(now, self.clocks, self.flags, pending, notify_start, timeout);
                let announced = due::event_count(due);
                if MOST_EVENTS < self.events.count() + announced {
                    return Ended {
                        endpoint: self,
                        answer: Err(Refusal::Full),
                    };
                }
                if due::sends(due) {
                    let width = self.setup.sending_width();
                    let size = batch::size(due, statuses, &self.pending, width);
                    if room::buffer_full(out.len(), self.queued, size) {
                        return Ended {
                            endpoint: self,
                            answer: Err(Refusal::Full),
                        };
                    }
                    if due.input {
                        self.queued = outbox::pending_input(
                            out,
                            self.queued,
                            self.setup.magic,
                            self.history.newest(),
                            statuses,
                            &self.pending,
                            width,
                            self.acked,
                        )
                        .unwrap_or(self.queued);
                    }
                    self.queued = batch::write_reports(
                        due,
                        out,
                        self.queued,
                        self.setup.magic,
                        self.quality.local_frame_advantage,
                        epoch,
                    );
                }
                // There is room for all of them, as was asked above.
                let _ = due::announce(&mut self.events, due, timeout, notify_start);
                self.clocks = due::clocks_after(due, now, self.clocks);
                self.flags = due::flags_after(due, self.flags);
            }
            // The wait after a disconnect comes to its end.
            Phase::Disconnected => {
                if self.clocks.shutdown_timeout < now {
                    self.sync.phase = Phase::Shutdown;
                }
            }
            Phase::Initializing | Phase::Shutdown => {}
        }
        Ended {
            endpoint: self,
            answer: Ok(()),
        }
    }
}
