// The lent list of status records: the copy of one, and the list that a store lends.
ghost use Rattle.std.specs.Prelude.{◌≡◌, length};
ghost use Rattle.status.specs.Statuses.{held_statuses, HeldAs, CopiedAs};

use crate::{ConnectionStatus, Statuses};
use ceilings::MOST_PLAYERS;

// The first four in their order; a shorter list whole.
#[tactic(auto, unfolding(crate::specs::Statuses::held_statuses))]
pub fn copied(list: &[ConnectionStatus]) -> Statuses
    ensures { CopiedAs list.now result }
{
    let n = list.len().min(MOST_PLAYERS);
    let mut records = [ConnectionStatus::default(); MOST_PLAYERS];
    records[..n].copy_from_slice(&list[..n]);
    Statuses {
        list: records,
        count: n,
    }
}

impl Statuses {
    // The copy of the list of those held, one record per player, which is lent for it.
    #[tactic(auto, unfolding(crate::specs::Statuses::held_statuses))]
    pub fn lent(self) -> Statuses
        ensures { HeldAs (held_statuses self) (length (held_statuses self)) result }
    {
        copied(&self.list[..self.count()])
    }
}
