// What a session does with the events of its host: a poll handles them one after the other.
ghost use Rattle.std.specs.Prelude.{◌≡◌};
ghost use Rattle.events.specs.Events.{held_events};
ghost use Rattle.endpoint_rules.specs.Sending.{newest as newest_of};
ghost use Rattle.spectator_rules.specs.Handling.{announce, input_handled, handled, handled_all};
ghost use Rattle.spectator.specs.Session.{seen, Counted};
ghost use Rattle.spectator.specs.Inside.Handling.{quality_after, ChangedAs};

use crate::SpectatorSession;
use ceilings::MOST_INPUT_SIZE;
use events::{Entry, Event, Events};
use frame::NULL_FRAME;
use quality::Quality;
use spectator_rules::{SessionEntry, SessionEvent, SessionState};

// The local advantage with the frame of an Input; as it was where it leaves its range, or while nothing is received. The endpoint's
// `update_local_frame_advantage` tests the same, but over a whole endpoint, whose newest frame it searches at each call, and it answers 6 where this one
// goes on: called here it would copy the host for each Input.
#[tactic(auto, using(crate::proofs::Laws::Handling::frame_unknown, crate::proofs::Laws::Handling::newest_unknown, crate::proofs::Laws::Handling::quality_kept, crate::proofs::Laws::Handling::quality_set))]
fn quality_after(quality: Quality, newest: u32, fps: u32, frame: u32) -> Quality
    ensures { result ≡ quality_after newest fps frame quality }
{
    if frame == NULL_FRAME || newest == NULL_FRAME {
        return quality;
    }
    match quality::local_advantage(newest, quality.round_trip_time, fps, frame) {
        Ok(frames) => quality.local(frames),
        Err(_) => quality,
    }
}

impl SpectatorSession {
    #[tactic(auto, using(crate::proofs::Laws::Handling::announce_changes))]
    fn announce(&mut self, event: SessionEvent)
        ensures { ChangedAs (announce event) self.old self.new }
    {
        let entry = SessionEntry {
            addr: self.host.setup.peer_addr,
            event,
        };
        self.events.announce(entry, self.limits.session_events);
    }

    // `newest` is the host's newest frame, which no event changes: a poll looks for it once.
    #[tactic(auto, using(crate::proofs::Laws::Handling::store_changes))]
    fn store(&mut self, newest: u32, frame: u32, player: u32, input: [u8; MOST_INPUT_SIZE])
        requires { newest ≡ newest_of (seen self.old).host }
        ensures { ChangedAs (input_handled frame player input) self.old self.new }
    {
        self.inputs.store(self.limits.slots, frame, player, input);
        self.host.quality = quality_after(self.host.quality, newest, self.host.setup.fps, frame);
        self.statuses = self.host.statuses.lent();
        self.last_recv_frame = frame;
    }

    // An Input is stored; every other event is announced, and Synchronized sets the session running.
    #[tactic(auto, using(crate::proofs::Laws::Handling::by_kind, crate::proofs::Laws::Handling::by_running))]
    fn handle(&mut self, newest: u32, entry: Entry)
        requires { newest ≡ newest_of (seen self.old).host }
        ensures { ChangedAs (handled entry) self.old self.new }
    {
        match entry.event {
            Event::Synchronizing { total, count } => {
                self.announce(SessionEvent::Synchronizing { total, count })
            }
            Event::Synchronized => {
                self.state = SessionState::Running;
                self.announce(SessionEvent::Synchronized)
            }
            Event::Input { frame, player } => self.store(newest, frame, player, entry.input),
            Event::Disconnected => self.announce(SessionEvent::Disconnected),
            Event::NetworkInterrupted { disconnect_timeout } => {
                self.announce(SessionEvent::NetworkInterrupted { disconnect_timeout })
            }
            Event::NetworkResumed => self.announce(SessionEvent::NetworkResumed),
        }
    }

    // Oldest first.
    #[tactic(auto, using(crate::proofs::Laws::Handling::handled_end, crate::proofs::Laws::Handling::handled_turn, crate::proofs::Laws::Handling::newest_shown))]
    pub(crate) fn handle_all(&mut self, events: &Events)
        ensures { ChangedAs (handled_all (held_events events.now)) self.old self.new }
    {
        let newest = self.host.last_recv_frame();
        for i in 0..events.count() {
            self.handle(newest, events.entry(i));
        }
    }
}
