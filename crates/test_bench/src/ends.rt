// Endpoints as the items have them: made, as a handshake leaves them, and with empty queues.
use codec::{Message, MessageBody};
use endpoint::Endpoint;
use setup::{Handles, Setup};

pub const PEER: u32 = 7;

pub const MAGIC: u16 = 4660;

// The other end's magic.
pub const OTHER: u16 = 4661;

pub const START: u64 = 1000;

// Two players, one at each end, S = 1.
pub(crate) fn small() -> Setup {
    demo_ends::two_players(MAGIC, PEER, 1)
}

// Four players, whose inputs all come from the other end, S = 16.
pub(crate) fn large() -> Setup {
    Setup {
        num_players: 4,
        handles: Handles {
            list: [0, 1, 2, 3],
            count: 4,
        },
        local_players: 4,
        input_size: 16,
        ..small()
    }
}

// A message without statuses and payload.
pub(crate) fn body_only(magic: u16, body: MessageBody) -> Message {
    Message {
        magic,
        body,
        reports: codec::no_reports(),
    }
}

pub(crate) fn ready(setup: Setup, other: u16) -> Endpoint {
    demo_ends::synchronized(Endpoint::new(setup, START).endpoint, other)
}

// Both queues emptied in place: a store each, and no call that is timed.
pub(crate) fn emptied(mut end: Endpoint) -> Endpoint {
    end.queued = 0;
    end.events.entries.count = 0;
    end
}
