// Advancing: one frame, or, too far behind, several. It does not poll by itself.
ghost use Rattle.std.specs.Prelude.{◌≡◌};
ghost use Rattle.base.specs.First.{first_of};
ghost use Rattle.answer.specs.Number.{number_of};
ghost use Rattle.quality.specs.Advantage.{difference_overflows};
ghost use Rattle.spectator_rules.specs.Advance.{frames_by, advance_tests};
ghost use Rattle.spectator.specs.Session.{seen};
ghost use Rattle.spectator.specs.Answers.{AdvancedAs};

use crate::{Requests, SpectatorSession};
use answer::{Answer, Refusal};
use spectator_rules::{Limits, SessionState};

// The session that stands at the last of the frames advanced, and these frames, to be played one after the other.
#[derive(Clone, Copy)]
pub struct Advanced {
    pub session: SpectatorSession,
    pub answer: Result<Requests, Refusal>,
}

// The ceilings, in the width of frames and of the host's setup.
const MOST_ADVANCED: u32 = ceilings::MOST_ADVANCED as u32;

const MOST_PLAYERS: u32 = ceilings::MOST_PLAYERS as u32;

// Whether newest less current leaves i32.
pub(crate) fn behind_overflows(newest: u32, current: u32) -> bool
    ensures { result ≡ difference_overflows newest current }
{
    let raised = u64::from(newest) + u64::from(frame::BIAS32);
    raised < u64::from(current) || numbers::WORD <= raised - u64::from(current)
}

// One, or, too far behind, as many as the catch-up speed says, but no more than there are, and fewer than the slots.
#[tactic(auto, unfolding(spectator_rules::specs::Advance::frames_by))]
fn frames_to_advance(limits: Limits, behind: u32) -> u32
    ensures { result ≡ frames_by limits behind }
{
    if behind <= limits.max_frames_behind {
        return 1;
    }
    let most = limits.slots.saturating_sub(1).min(MOST_ADVANCED);
    limits.catchup_speed.min(behind).min(most)
}

impl SpectatorSession {
    // 14, then 6.
    #[tactic(auto, unfolding(crate::specs::Session::seen))]
    fn advance_refusal(&self) -> Answer
        ensures { number_of result ≡ first_of (advance_tests (seen self.now)) }
    {
        if !matches!(self.state, SessionState::Running) {
            return Err(Refusal::NotSynchronized);
        }
        if behind_overflows(self.last_recv_frame, self.current_frame) {
            return Err(Refusal::Overflow);
        }
        if self.current_frame == frame::GREATEST_FRAME {
            return Err(Refusal::Overflow);
        }
        Ok(())
    }

    #[tactic(auto, using(crate::proofs::Laws::Advancing::advances, crate::proofs::Laws::Advancing::counted_as, crate::proofs::Laws::Advancing::frames_most, crate::proofs::Laws::Advancing::frames_within, crate::proofs::Laws::Advancing::given_as, crate::proofs::Laws::Advancing::next_fits, crate::proofs::Laws::Advancing::refused_as, crate::proofs::Laws::Advancing::refused_early, crate::proofs::Laws::Advancing::refused_late))]
    fn advance(&mut self) -> Result<Requests, Refusal>
        ensures { AdvancedAs self.old (record { session = self.new; answer = result }) }
    {
        self.advance_refusal()?;
        let behind = self.last_recv_frame.saturating_sub(self.current_frame);
        let n = frames_to_advance(self.limits, behind);
        let slots = self.limits.slots;
        let frame = self.current_frame + 1;
        self.inputs.frames_refusal(slots, frame, n)?;
        let players = self.host.setup.num_players.min(MOST_PLAYERS) as usize;
        let requests = self
            .inputs
            .requests_from(&self.statuses, slots, players, frame, n);
        self.current_frame += n;
        Ok(requests)
    }

    pub fn advance_frame(mut self) -> Advanced
        ensures { AdvancedAs self result }
    {
        let answer = self.advance();
        Advanced {
            session: self,
            answer,
        }
    }
}
