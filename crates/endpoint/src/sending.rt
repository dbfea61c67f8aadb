// Inputs sent: each pends until it is acknowledged, and all that pend go out as one Input.
ghost use Rattle.std.specs.Prelude.{◌≡◌, length};
ghost use Rattle.ceilings.specs.Ceilings.{most_events};
ghost use Rattle.status.specs.Statuses.{held_statuses};
ghost use Rattle.endpoint_rules.specs.Call.{Call};
ghost use Rattle.endpoint_rules.specs.Step.{step};
ghost use Rattle.endpoint.specs.Endpoint.{seen, DidAs};
ghost use Rattle.endpoint_rules.specs.Sending.{bad_after};

use crate::{Ended, Endpoint, room};
use answer::{Answer, Refusal};
use ceilings::{MOST_PENDING, MOST_WIDTH};
use endpoint_rules::Phase;
use events::DISCONNECTED;
use frame::BIAS32;
use packing::InputBytes;
use status::Statuses;

// A negative frame is none: no frame to send, and no last one to follow.
fn is_bad_frame(frame: u32, last: u32) -> bool
    ensures { result ≡ bad_after last frame }
{
    if frame < BIAS32 {
        return true;
    }
    BIAS32 <= last && frame - 1 != last
}

impl Endpoint {
    // The array's length is required as in `handle_message`. Outside Running nothing is sent (E-56). The 129th pending input announces a disconnect, which is not marked as announced (E-59).
    #[tactic(auto, using(crate::proofs::Laws::Phases::not_running, crate::proofs::Laws::Sending::send_clock, crate::proofs::Laws::Sending::send_frame, crate::proofs::Laws::Sending::send_ignored, crate::proofs::Laws::Sending::send_length))]
    fn send(
        &mut self,
        frame: u32,
        bytes: &[u8],
        statuses: Statuses,
        now: u64,
        out: &mut [u8],
    ) -> Answer
        requires { length self.old.events.entries.list ≡ most_events }
        ensures { DidAs self.old (step (Call.send_input frame bytes.now statuses.count (held_statuses statuses) now (length out.old)) (seen self.old)) out.old (record { endpoint = self.new; answer = result }) out.new }
    {
        if timers::is_bad(now) {
            return Err(Refusal::BadClock);
        }
        let width = self.setup.sending_width();
        if statuses.count != self.setup.num_players as usize || bytes.len() != width {
            return Err(Refusal::BadLength);
        }
        let Phase::Running = self.sync.phase else {
            return Ok(());
        };
        // XOR zeros is the input itself, with zeros after it.
        let input = InputBytes {
            frame,
            bytes: packing::frame_at(bytes, 0, width, &[0u8; MOST_WIDTH]),
        };
        if is_bad_frame(frame, self.pending.last_frame(self.acked.frame)) {
            return Err(Refusal::BadFrame);
        }
        // A copy, since the Input that is packed from it may be refused yet.
        let mut pending = self.pending;
        pending.push(input)?;
        let announces = MOST_PENDING <= pending.count();
        if room::events_full(announces, self.events.count()) {
            return Err(Refusal::Full);
        }
        let end = outbox::pending_input(
            out,
            self.queued,
            self.setup.magic,
            self.history.newest(),
            statuses,
            &pending,
            width,
            self.acked,
        )?;
        // It has room, as was asked before the Input was queued.
        if announces {
            let _ = self.events.push(DISCONNECTED);
        }
        self.pending = pending;
        self.clocks = self.clocks.sent(now);
        self.queued = end;
        Ok(())
    }

    pub fn send_input(
        mut self,
        frame: u32,
        bytes: &[u8],
        statuses: Statuses,
        now: u64,
        out: &mut [u8],
    ) -> Ended
        ensures { DidAs self (step (Call.send_input frame bytes.now statuses.count (held_statuses statuses) now (length out.old)) (seen self)) out.old result out.new }
    {
        let answer = self.send(frame, bytes, statuses, now, out);
        Ended {
            endpoint: self,
            answer,
        }
    }
}
