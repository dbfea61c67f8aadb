// The calls that are the host's alone: what it refuses, the session refuses.
ghost use Rattle.std.specs.Prelude.{◌≡◌, length, take};
ghost use Rattle.codec.specs.Message.{meant};
ghost use Rattle.endpoint_rules.specs.Value.{handed_back};
ghost use Rattle.spectator_rules.specs.Call.{Call};
ghost use Rattle.spectator_rules.specs.Step.{step};
ghost use Rattle.spectator.specs.Session.{seen, hosted, DidAs, DoneAs};
ghost use Rattle.spectator.specs.Answers.{shown, shown_stats, TakenIntoAs};

use crate::{Ended, SpectatorSession};
use answer::Refusal;
use codec::Message;
use endpoint::{Ended as HostEnded, NetworkStats};

// The session without its messages, and how many bytes of them were copied.
#[derive(Clone, Copy)]
pub struct TakenMessages {
    pub session: SpectatorSession,
    pub answer: Result<usize, Refusal>,
}

impl SpectatorSession {
    fn by_host(self, ended: HostEnded) -> Ended
        ensures { (result.answer ≡ ended.answer) × (result.session ≡ hosted self ended.endpoint) }
    {
        Ended {
            session: SpectatorSession {
                host: ended.endpoint,
                ..self
            },
            answer: ended.answer,
        }
    }

    // The handshake with the host begins.
    pub fn synchronize(self, now: u64, epoch: u64, nonce: u32, out: &mut [u8]) -> Ended
        ensures { DidAs self (step (Call.synchronize now epoch nonce (length out.old)) (seen self)) out.old result out.new }
    {
        let ended = self.host.synchronize(now, epoch, nonce, out);
        self.by_host(ended)
    }

    // Another peer's message is ignored.
    pub fn message(
        self,
        from: u32,
        message: Message,
        payload: &[u8],
        now: u64,
        epoch: u64,
        nonce: u32,
        out: &mut [u8],
    ) -> Ended
        ensures { DidAs self (step (Call.message from message.reports.count (meant message payload.now) now epoch nonce (length out.old)) (seen self)) out.old result out.new }
    {
        let ended = self
            .host
            .message(from, message, payload, now, epoch, nonce, out);
        self.by_host(ended)
    }

    // The reader's refusal comes first.
    pub fn datagram(
        self,
        from: u32,
        datagram: &[u8],
        now: u64,
        epoch: u64,
        nonce: u32,
        out: &mut [u8],
    ) -> Ended
        ensures { DidAs self (step (Call.datagram from datagram.now now epoch nonce (length out.old)) (seen self)) out.old result out.new }
    {
        let ended = self.host.datagram(from, datagram, now, epoch, nonce, out);
        self.by_host(ended)
    }

    // The queue is emptied, where the buffer holds what is queued. Whoever wants the messages asks `messages` before.
    #[tactic(auto, using(crate::proofs::Laws::Hosting::host_done), unfolding(endpoint_rules::specs::Step::step, crate::specs::Session::seen, spectator_rules::specs::Step::step))]
    pub fn take_messages(self, out: &[u8]) -> Ended
        ensures { DoneAs self (step (Call.take_messages (length out.now)) (seen self)) result }
    {
        let ended = self.host.take_messages(out);
        self.by_host(ended)
    }

    // The filled part of the buffer, to be asked for before `take_messages` empties the queue: empty where that refuses, and in Shutdown.
    #[tactic(auto, unfolding(crate::specs::Session::seen))]
    pub fn messages(self, out: &[u8]) -> &[u8]
        ensures { result.now ≡ take (handed_back (length out.now) (seen self).host) out.now }
    {
        self.host.messages(out)
    }

    // `messages` and `take_messages` in one: the filled part of `out` is copied to the front of `into`. Refused where either is shorter than what is queued.
    pub fn take_messages_into(self, out: &[u8], into: &mut [u8]) -> TakenMessages
        ensures { TakenIntoAs self out.now into.old result into.new }
    {
        let taken = self.host.take_messages_into(out, into);
        TakenMessages {
            session: SpectatorSession {
                host: taken.endpoint,
                ..self
            },
            answer: taken.answer,
        }
    }

    #[tactic(auto, using(crate::proofs::Laws::Getters::shows_stats))]
    pub fn network_stats(self, epoch: u64) -> Result<NetworkStats, Refusal>
        ensures { shown_stats result ≡ shown (Call.network_stats epoch) (seen self) }
    {
        self.host.network_stats(epoch)
    }
}
