// What an endpoint reports of itself: the checksums of its frames, and its frame advantage.
ghost use Rattle.std.specs.Prelude.{length};
ghost use Rattle.endpoint_rules.specs.Call.{Call};
ghost use Rattle.endpoint_rules.specs.Step.{step};
ghost use Rattle.endpoint.specs.Endpoint.{seen, DidAs, DoneAs};

use crate::{Ended, Endpoint};
use answer::Refusal;
use codec::{MessageBody, Wide};
use frame::NULL_FRAME;

impl Endpoint {
    // The own checksum of a frame is sent to the other end.
    #[tactic(auto, using(crate::proofs::Laws::Reports::send_checksum_clock))]
    pub fn send_checksum_report(
        mut self,
        frame: u32,
        checksum: Wide,
        now: u64,
        out: &mut [u8],
    ) -> Ended
        ensures { DidAs self (step (Call.send_checksum_report frame checksum now (length out.old)) (seen self)) out.old result out.new }
    {
        if timers::is_bad(now) {
            return Ended {
                endpoint: self,
                answer: Err(Refusal::BadClock),
            };
        }
        let body = MessageBody::ChecksumReport { checksum, frame };
        match outbox::body_only(out, self.queued, self.setup.magic, body) {
            Ok(end) => {
                self.clocks = self.clocks.sent(now);
                self.queued = end;
                Ended {
                    endpoint: self,
                    answer: Ok(()),
                }
            }
            Err(refusal) => Ended {
                endpoint: self,
                answer: Err(refusal),
            },
        }
    }

    // Both frames must be known (E-41).
    #[tactic(auto, using(crate::proofs::Laws::Reports::local_unknown, crate::proofs::Laws::Reports::newest_unknown))]
    pub fn update_local_frame_advantage(mut self, local_frame: u32) -> Ended
        ensures { DoneAs self (step (Call.update_local_frame_advantage local_frame) (seen self)) result }
    {
        // A copy of the history alone, as in `last_recv_frame`.
        let history = self.history;
        let newest = history.newest();
        if local_frame == NULL_FRAME || newest == NULL_FRAME {
            return Ended {
                endpoint: self,
                answer: Ok(()),
            };
        }
        let advantage = quality::local_advantage(
            newest,
            self.quality.round_trip_time,
            self.setup.fps,
            local_frame,
        );
        // A way out by `return`: what a `match` gives is a copy of what its arm gives.
        let frames = match advantage {
            Ok(frames) => frames,
            Err(refusal) => {
                return Ended {
                    endpoint: self,
                    answer: Err(refusal),
                };
            }
        };
        self.quality = self.quality.local(frames);
        Ended {
            endpoint: self,
            answer: Ok(()),
        }
    }
}
