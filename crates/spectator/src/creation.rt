// Making a session. It is made whatever the setup says; beside a refusal it is of no use.
ghost use Rattle.std.specs.Prelude.{◌≡◌, eqb};
ghost use Rattle.base.specs.Pick.{pick};
ghost use Rattle.answer.specs.Number.{number_of};
ghost use Rattle.spectator_rules.specs.Setup.{host_setup, bad_limits};
ghost use Rattle.spectator.specs.Answers.{MadeAs};

use crate::{Ended, Inputs, SessionEvents, SpectatorSession};
use answer::{Answer, Refusal};
use endpoint::Endpoint;
use frame::NULL_FRAME;
use setup::{Handles, Setup};
use spectator_rules::{Limits, SessionSetup, SessionState};
use status::Statuses;

// The ceilings of the limits, in the width of their fields.
const MOST_SLOTS: u32 = ceilings::MOST_SLOTS as u32;

const MOST_SESSION_EVENTS: u32 = ceilings::MOST_SESSION_EVENTS as u32;

// Of `max_frames_behind` and of `catchup_speed`.
const MOST_FRAMES: u32 = 65535;

// The setup of the host's endpoint: a handle for each player, and one local player, who never sends.
#[tactic(auto, unfolding(spectator_rules::specs::Setup::host_setup))]
fn host_setup(setup: SessionSetup) -> Setup
    ensures { result ≡ host_setup setup }
{
    Setup {
        num_players: setup.num_players,
        handles: Handles {
            list: [0, 1, 2, 3],
            count: setup.num_players as usize,
        },
        local_players: 1,
        input_size: setup.input_size,
        max_prediction: setup.max_prediction,
        disconnect_timeout: setup.disconnect_timeout,
        disconnect_notify_start: setup.disconnect_notify_start,
        fps: setup.fps,
        magic: setup.magic,
        peer_addr: setup.peer_addr,
        choices: setup.choices,
    }
}

#[tactic(auto, using(setup::proofs::Tests::or_any), unfolding(spectator_rules::specs::Setup::bad_limits))]
fn is_bad(limits: Limits) -> bool
    ensures { result ≡ bad_limits limits }
{
    !(2..=MOST_SLOTS).contains(&limits.slots)
        || !(1..=MOST_SESSION_EVENTS).contains(&limits.session_events)
        || MOST_FRAMES < limits.max_frames_behind
        || MOST_FRAMES < limits.catchup_speed
}

fn refusal(setup: SessionSetup, host: Answer) -> Answer
    ensures { number_of result ≡ pick (eqb (number_of host) 0) (pick (bad_limits setup.limits) 1 0) (number_of host) }
{
    host?;
    if is_bad(setup.limits) {
        return Err(Refusal::BadSetup);
    }
    Ok(())
}

impl SpectatorSession {
    pub fn new(setup: SessionSetup, now: u64) -> Ended
        ensures { MadeAs setup now result }
    {
        let made = Endpoint::new(host_setup(setup), now);
        Ended {
            session: SpectatorSession {
                host: made.endpoint,
                limits: setup.limits,
                state: SessionState::Synchronizing,
                inputs: Inputs::new(setup.limits.slots),
                statuses: Statuses::new(setup.num_players as usize),
                events: SessionEvents::new(),
                current_frame: NULL_FRAME,
                last_recv_frame: NULL_FRAME,
            },
            answer: refusal(setup, made.answer),
        }
    }
}
