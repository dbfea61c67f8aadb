// The session's events that wait to be taken, oldest first: at most so many, the oldest dropped beyond them.
ghost use Rattle.std.specs.Prelude.{◌≡◌, [], ◌∷◌, ◌++◌, ◌<◌, length, drop, get_or};
ghost use Rattle.ceilings.specs.Ceilings.{most_session_events};
ghost use Rattle.spectator_rules.specs.Handling.{event_added};
ghost use Rattle.spectator.specs.Stores.{events_of, EventsAs, blank_session_entry};

use ceilings::MOST_SESSION_EVENTS;
use fixed_vec::FixedVec;
use spectator_rules::{SessionEntry, SessionEvent};

#[derive(Clone, Copy)]
pub struct SessionEvents {
    pub entries: FixedVec<SessionEntry, MOST_SESSION_EVENTS>,
}

// What stands in a place that holds no event.
const BLANK_ENTRY: SessionEntry = SessionEntry {
    addr: 0,
    event: SessionEvent::Synchronized,
};

impl SessionEvents {
    #[tactic(auto, unfolding(crate::specs::Stores::events_of, fixed_vec::specs::FixedVec::held))]
    pub(crate) fn new() -> SessionEvents
        ensures { EventsAs [] result }
    {
        SessionEvents {
            entries: FixedVec {
                list: [BLANK_ENTRY; MOST_SESSION_EVENTS],
                count: 0,
            },
        }
    }

    #[tactic(auto, using(base::proofs::Arrays::unmap), unfolding(crate::specs::Stores::events_of, fixed_vec::specs::FixedVec::held))]
    pub fn count(&self) -> usize
        ensures { result ≡ length (events_of self.now) }
    {
        self.entries.len()
    }

    // The i-th, oldest first; past the last, Synchronized of peer 0.
    #[tactic(auto, using(base::proofs::Orders::get_or_within, base::proofs::Arrays::unmap, base::proofs::Arrays::view_at, base::proofs::Arrays::view_le), unfolding(crate::specs::Stores::blank_session_entry, crate::specs::Stores::events_of, fixed_vec::specs::FixedVec::held))]
    pub fn entry(&self, i: usize) -> SessionEntry
        ensures { result ≡ get_or (events_of self.now) i blank_session_entry }
    {
        self.entries.get(i).unwrap_or(BLANK_ENTRY)
    }

    // One more at the end; the oldest are dropped beyond `most`.
    #[tactic(auto, using(crate::proofs::Laws::SessionEvents::announced_none), unfolding(crate::specs::Stores::events_of, fixed_vec::specs::FixedVec::held))]
    pub(crate) fn announce(&mut self, entry: SessionEntry, most: u32)
        ensures { EventsAs (event_added most entry (events_of self.old)) self.new }
    {
        let most = (most as usize).min(MOST_SESSION_EVENTS);
        // The clause EventsAs names the count, which the list's methods leave open; so it is set, here and at the end.
        if most == 0 {
            self.entries.count = 0;
            return;
        }
        let over = (self.entries.len() + 1).saturating_sub(most);
        self.entries.remove_front(over);
        let _ = self.entries.push(entry);
        self.entries.count = self.entries.len();
    }
}
