// Polling: the host acts, all its events are handled, its messages are taken.
ghost use Rattle.std.specs.Prelude.{◌≡◌, length};
ghost use Rattle.events.specs.Events.{held_events};
ghost use Rattle.spectator_rules.specs.Call.{Call};
ghost use Rattle.spectator_rules.specs.Step.{step};
ghost use Rattle.spectator.specs.Session.{seen, Counted};
ghost use Rattle.spectator.specs.Answers.{polled_part, PolledAs, TakenInAs};

use crate::SpectatorSession;
use answer::Refusal;
use endpoint::Endpoint;
use events::Events;

// What a poll answers, with the session after it: how many bytes from the buffer's start are handed back.
#[derive(Clone, Copy)]
pub struct Polled {
    pub session: SpectatorSession,
    pub answer: Result<usize, Refusal>,
}

impl SpectatorSession {
    // Each count becomes the number of what its store holds.
    #[tactic(auto, using(crate::proofs::Laws::Polling::settles))]
    fn settle(&mut self)
        ensures { (seen self.new ≡ seen self.old) × Counted self.new × (self.new.host ≡ self.old.host) }
    {
        self.inputs.entries.count = self.inputs.count();
        self.statuses = self.statuses.lent();
        self.events.entries.count = self.events.count();
    }

    // What is left of a poll once the host has acted: its messages are taken, and its events, old and new, handled.
    fn take_in(&mut self, old: &Events, acted: Endpoint, out: &[u8]) -> Result<usize, Refusal>
        ensures { TakenInAs self.old (held_events old.now) acted (length out.now) (record { session = self.new; answer = result }) }
    {
        let new = acted.take_events();
        let filled = new.endpoint.messages(out).len();
        let taken = new.endpoint.take_messages(out);
        taken.answer?;
        self.host = taken.endpoint;
        self.settle();
        self.handle_all(old);
        self.handle_all(&new.events);
        Ok(filled)
    }

    // The host's old events are put aside while it acts, so that there is room for its new ones.
    fn poll(&mut self, now: u64, epoch: u64, nonce: u32, out: &mut [u8]) -> Result<usize, Refusal>
        ensures { PolledAs self.old (step (Call.poll_remote_clients now epoch nonce (length out.old)) (seen self.old)) (polled_part now epoch nonce (length out.old) (seen self.old)) out.old (record { session = self.new; answer = result }) out.new }
    {
        let old = self.host.take_events();
        let acted = old
            .endpoint
            .act(self.statuses.lent(), now, epoch, nonce, out);
        acted.answer?;
        self.take_in(&old.events, acted.endpoint, out)
    }

    pub fn poll_remote_clients(mut self, now: u64, epoch: u64, nonce: u32, out: &mut [u8]) -> Polled
        ensures { PolledAs self (step (Call.poll_remote_clients now epoch nonce (length out.old)) (seen self)) (polled_part now epoch nonce (length out.old) (seen self)) out.old result out.new }
    {
        let answer = self.poll(now, epoch, nonce, out);
        Polled {
            session: self,
            answer,
        }
    }
}
