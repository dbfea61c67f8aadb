// The status records of all players of a game, in the order of their handles.
ghost use Rattle.std.specs.Prelude.{◌≡◌, min, length, get_or};
ghost use Rattle.ceilings.specs.Ceilings.{most_players};
ghost use Rattle.status.specs.Status.{default_status, reported};
ghost use Rattle.status.specs.Statuses.{held_statuses, HeldAs, default_statuses, merged_at, merged_all};

use crate::ConnectionStatus;
use ceilings::MOST_PLAYERS;

// No FixedVec: its functions are methods, which an alias of another crate's type can't have, and around one callers would read each field by two names.
#[derive(Clone, Copy)]
pub struct Statuses {
    pub list: [ConnectionStatus; MOST_PLAYERS],
    pub count: usize,
}

impl Statuses {
    // One for each player, at most 4.
    #[tactic(auto, unfolding(crate::specs::Statuses::default_statuses, crate::specs::Statuses::held_statuses))]
    pub fn new(players: usize) -> Statuses
        ensures { HeldAs (default_statuses players) (min players most_players) result }
    {
        Statuses {
            list: [ConnectionStatus::default(); MOST_PLAYERS],
            count: players.min(MOST_PLAYERS),
        }
    }

    #[tactic(auto, unfolding(crate::specs::Statuses::held_statuses))]
    pub fn count(self) -> usize
        ensures { result ≡ length (held_statuses self) }
    {
        self.count.min(MOST_PLAYERS)
    }

    // The status at a place, or the default where there is none.
    #[tactic(auto, unfolding(crate::specs::Statuses::held_statuses))]
    pub fn get(self, at: usize) -> ConnectionStatus
        ensures { result ≡ get_or (held_statuses self) at default_status }
    {
        self.list[..self.count()]
            .get(at)
            .copied()
            .unwrap_or_default()
    }

    // One place merged with a status; nothing changes where there is no such place. The count stays, beyond the array too.
    #[tactic(auto, unfolding(crate::specs::Statuses::held_statuses, crate::specs::Statuses::merged_at))]
    pub fn merge_at(mut self, at: usize, other: ConnectionStatus) -> Statuses
        ensures { HeldAs (merged_at at other (held_statuses self)) self.count result }
    {
        if at < self.count() {
            self.list[at] = self.get(at).merge(other);
        }
        self
    }

    // The same for a report as it travels.
    pub fn merge_report(self, at: usize, disconnected: bool, last_frame: u32) -> Statuses
        ensures { HeldAs (merged_at at (reported disconnected last_frame) (held_statuses self)) self.count result }
    {
        self.merge_at(at, ConnectionStatus::reported(disconnected, last_frame))
    }

    // Each place merged with the same place of the other, where it has one.
    #[tactic(auto, using(crate::proofs::MergeAll::all_none), unfolding(crate::specs::Statuses::held_statuses))]
    pub fn merge(self, other: Statuses) -> Statuses
        ensures { HeldAs (merged_all (held_statuses self) (held_statuses other)) self.count result }
    {
        let theirs = &other.list[..other.count()];
        let mut next = self;
        for (i, status) in theirs.iter().enumerate() {
            next = next.merge_at(i, *status);
        }
        next
    }
}
