// Whether what a call would add has room: tested before anything is changed, so that a refusal changes nothing.
ghost use Rattle.std.specs.Prelude.{◌≡◌, ◌&&◌, leb};
ghost use Rattle.ceilings.specs.Ceilings.{most_events};
ghost use Rattle.endpoint_rules.specs.Room.{buffer_full};

use ceilings::MOST_EVENTS;

// One event, announced or not.
pub(crate) fn events_full(announces: bool, count: usize) -> bool
    ensures { result ≡ (announces && leb most_events count) }
{
    announces && MOST_EVENTS <= count
}

// No bytes need no room.
#[tactic(auto, using(base::proofs::Orders::same_test), unfolding(endpoint_rules::specs::Room::buffer_full))]
pub(crate) fn buffer_full(len: usize, queued: usize, size: usize) -> bool
    ensures { result ≡ buffer_full len queued size }
{
    size != 0 && (len < queued || len - queued < size)
}
