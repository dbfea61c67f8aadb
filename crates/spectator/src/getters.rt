// What is asked of a session, and its events, taken.
ghost use Rattle.std.specs.Prelude.{◌≡◌};
ghost use Rattle.spectator_rules.specs.Call.{Call};
ghost use Rattle.spectator_rules.specs.Value.{Value, value_of};
ghost use Rattle.spectator.specs.Session.{seen};
ghost use Rattle.spectator.specs.Answers.{shown, shown_behind, TakenAs};

use crate::advancing::behind_overflows;
use crate::{SessionEvents, SpectatorSession};
use answer::Refusal;
use fixed_vec::FixedVec;
use spectator_rules::SessionState;

#[derive(Clone, Copy)]
pub struct TakenEvents {
    pub session: SpectatorSession,
    pub events: SessionEvents,
}

impl SpectatorSession {
    #[tactic(auto, using(crate::proofs::Laws::Getters::shows_state))]
    pub fn current_state(self) -> SessionState
        ensures { Value.state result ≡ value_of Call.current_state (seen self) }
    {
        self.state
    }

    // How many frames are received and not advanced yet.
    #[tactic(auto, using(crate::proofs::Laws::Getters::behind_overflow))]
    pub fn frames_behind_host(self) -> Result<u32, Refusal>
        ensures { shown_behind result ≡ shown Call.frames_behind_host (seen self) }
    {
        if behind_overflows(self.last_recv_frame, self.current_frame) {
            return Err(Refusal::Overflow);
        }
        Ok(self.last_recv_frame.saturating_sub(self.current_frame))
    }

    // The events held, with a count that is their number, and the session without them.
    pub fn take_events(mut self) -> TakenEvents
        ensures { TakenAs self result }
    {
        let events = SessionEvents {
            entries: FixedVec {
                count: self.events.count(),
                ..self.events.entries
            },
        };
        // The clause `left` of TakenAs names the count, which `clear` leaves open.
        self.events.entries.count = 0;
        TakenEvents {
            session: self,
            events,
        }
    }

    #[tactic(auto, using(crate::proofs::Laws::Getters::shows_frame))]
    pub fn current_frame(self) -> u32
        ensures { Value.frame result ≡ value_of Call.current_frame (seen self) }
    {
        self.current_frame
    }

    #[tactic(auto, using(crate::proofs::Laws::Getters::shows_players))]
    pub fn num_players(self) -> u32
        ensures { Value.count result ≡ value_of Call.num_players (seen self) }
    {
        self.host.setup.num_players
    }
}
