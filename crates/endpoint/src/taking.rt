// Taking what waits: the events, and the messages in the lent buffer. `messages` shows the filled part of the buffer and leaves the queue; `take_messages`
// empties the queue and shows nothing, so it comes second. `take_messages_into` does both, with a copy.
ghost use Rattle.std.specs.Prelude.{◌≡◌, ltb, length, take};
ghost use Rattle.base.specs.Pick.{pick};
ghost use Rattle.endpoint_rules.specs.Seen.{is_shutdown};
ghost use Rattle.endpoint_rules.specs.Call.{Call};
ghost use Rattle.endpoint_rules.specs.Step.{step, short_by};
ghost use Rattle.endpoint_rules.specs.Value.{handed_back};
ghost use Rattle.endpoint.specs.Endpoint.{seen, DoneAs};
ghost use Rattle.endpoint.specs.Taken.{TakenAs, TakenIntoAs};

use crate::{Ended, Endpoint};
use answer::Refusal;
use endpoint_rules::Phase;
use events::Events;
use fixed_vec::FixedVec;

#[derive(Clone, Copy)]
pub struct TakenEvents {
    pub endpoint: Endpoint,
    pub events: Events,
}

// The endpoint without its messages, and how many bytes of them were copied.
#[derive(Clone, Copy)]
pub struct TakenMessages {
    pub endpoint: Endpoint,
    pub answer: Result<usize, Refusal>,
}

// In Shutdown no buffer is too short.
fn is_short(phase: Phase, queued: usize, room: usize) -> bool
    ensures { result ≡ short_by phase queued room }
{
    !matches!(phase, Phase::Shutdown) && room < queued
}

// How many bytes are handed back.
fn filled(phase: Phase, queued: usize, room: usize) -> usize
    ensures { result ≡ pick (is_shutdown phase) 0 (pick (ltb room queued) 0 queued) }
{
    if matches!(phase, Phase::Shutdown) || room < queued {
        return 0;
    }
    queued
}

impl Endpoint {
    // The events held, with a count that is their number, and the endpoint without them. (A session's are taken in the same way: names and fields of both are
    // in docs/API.md.)
    pub fn take_events(mut self) -> TakenEvents
        ensures { TakenAs self result }
    {
        let events = Events {
            entries: FixedVec {
                count: self.events.count(),
                ..self.events.entries
            },
        };
        self.events.entries.count = 0;
        TakenEvents {
            endpoint: self,
            events,
        }
    }

    // The queue is emptied, where the buffer holds what is queued. Whoever wants the messages asks `messages` before.
    #[tactic(auto, using(crate::proofs::Laws::Taking::take_done, crate::proofs::Laws::Taking::take_short))]
    pub fn take_messages(mut self, out: &[u8]) -> Ended
        ensures { DoneAs self (step (Call.take_messages (length out.now)) (seen self)) result }
    {
        if is_short(self.sync.phase, self.queued, out.len()) {
            return Ended {
                endpoint: self,
                answer: Err(Refusal::Full),
            };
        }
        self.queued = 0;
        Ended {
            endpoint: self,
            answer: Ok(()),
        }
    }

    // The filled part of the buffer, to be asked for before `take_messages` empties the queue: empty where that refuses, and in Shutdown.
    #[tactic(auto, using(crate::proofs::Laws::Taking::filled_part_lem, crate::proofs::Laws::Taking::handed_is))]
    pub fn messages(self, out: &[u8]) -> &[u8]
        ensures { result.now ≡ take (handed_back (length out.now) (seen self)) out.now }
    {
        &out[..filled(self.sync.phase, self.queued, out.len())]
    }

    // `messages` and `take_messages` in one: the filled part of `out` is copied to the front of `into`. Refused where either is shorter than what is queued.
    pub fn take_messages_into(mut self, out: &[u8], into: &mut [u8]) -> TakenMessages
        ensures { TakenIntoAs self out.now into.old result into.new }
    {
        let room = out.len().min(into.len());
        if is_short(self.sync.phase, self.queued, room) {
            return TakenMessages {
                endpoint: self,
                answer: Err(Refusal::Full),
            };
        }
        let count = filled(self.sync.phase, self.queued, room);
        into[..count].copy_from_slice(&out[..count]);
        self.queued = 0;
        TakenMessages {
            endpoint: self,
            answer: Ok(count),
        }
    }
}
