// Making an endpoint. It is made whatever the setup says; beside a refusal it is of no use.
ghost use Rattle.std.specs.Prelude.{◌≡◌, min};
ghost use Rattle.answer.specs.Number.{number_of};
ghost use Rattle.ceilings.specs.Ceilings.{most_players};
ghost use Rattle.endpoint_rules.specs.Seen.{made};
ghost use Rattle.endpoint_rules.specs.Step.{fresh};
ghost use Rattle.endpoint.specs.Endpoint.{seen};
ghost use Rattle.endpoint.specs.Made.{MadeAs};

use crate::{Ended, Endpoint, NUM_SYNC_PACKETS, Sync};
use answer::{Answer, Refusal};
use checksums::Checksums;
use endpoint_rules::{Flags, Phase};
use events::Events;
use history::{BLANK, History};
use nonces::Nonces;
use pending::Pending;
use quality::Quality;
use setup::Setup;
use status::Statuses;
use timers::Clocks;

#[tactic(auto, using(crate::proofs::Laws::Creation::not_refused, crate::proofs::Laws::Creation::refused_clock, crate::proofs::Laws::Creation::refused_setup))]
fn refusal(setup: Setup, now: u64) -> Answer
    ensures { number_of result ≡ (fresh setup now).0 }
{
    if timers::is_bad(now) {
        return Err(Refusal::BadClock);
    }
    if setup.is_bad() {
        return Err(Refusal::BadSetup);
    }
    Ok(())
}

impl Endpoint {
    #[tactic(auto, using(crate::proofs::Laws::Creation::makes))]
    fn made(setup: Setup, now: u64) -> Endpoint
        ensures { (seen result ≡ made setup now) × (result.setup.handles.count ≡ setup.handles.count) × (result.statuses.count ≡ min setup.num_players most_players) }
    {
        Endpoint {
            setup: setup.sorted(),
            pending: Pending::new(),
            acked: BLANK,
            history: History::new(),
            sync: Sync {
                phase: Phase::Initializing,
                remaining: NUM_SYNC_PACKETS,
                remote_magic: 0,
            },
            nonces: Nonces::new(),
            clocks: Clocks::new(now),
            flags: Flags {
                disconnect_notify_sent: false,
                disconnect_event_sent: false,
            },
            quality: Quality::new(),
            statuses: Statuses::new(setup.num_players as usize),
            checksums: Checksums::new(),
            events: Events::new(),
            queued: 0,
        }
    }

    #[tactic(auto, using(crate::proofs::Laws::Creation::made_as))]
    pub fn new(setup: Setup, now: u64) -> Ended
        ensures { MadeAs setup now result }
    {
        Ended {
            endpoint: Endpoint::made(setup, now),
            answer: refusal(setup, now),
        }
    }
}
