// An endpoint that runs already, for programs that do not show the handshake: a plain setup of a bout between two players, and what the
// handshake leaves of an endpoint that was made. And a queue's datagrams, for programs that carry them.
#![tactic(auto)]

ghost use Rattle.std.specs.Prelude.{◌≡◌};
ghost use Rattle.endpoint_rules.specs.Seen.{made};
ghost use Rattle.endpoint.specs.Endpoint.{seen};
ghost use Rattle.demo_ends.specs.Running.{two_players, synchronized_with};

mod queue;

use endpoint::{Choices, DesyncDetection, Endpoint, Handles, Phase, Setup, Sync};
pub use queue::Datagrams;

// Two players, one at each end, whose inputs are a byte; `player` is the one at the other end.
#[tactic(auto, unfolding(crate::specs::Running::two_players))]
pub fn two_players(magic: u16, peer: u32, player: u32) -> Setup
    ensures { result ≡ two_players magic peer player }
{
    Setup {
        num_players: 2,
        handles: Handles {
            list: [player, 0, 0, 0],
            count: 1,
        },
        local_players: 1,
        input_size: 1,
        max_prediction: 8,
        disconnect_timeout: 2000,
        disconnect_notify_start: 500,
        fps: 60,
        magic,
        peer_addr: peer,
        choices: Choices::new(DesyncDetection::On { interval: 1 }),
    }
}

// The endpoint in Running: no reply is to come, and only messages of the other end's magic are heard.
#[tactic(auto, unfolding(endpoint::specs::Endpoint::seen, crate::specs::Running::synchronized_with))]
pub fn synchronized(endpoint: Endpoint, magic: u16) -> Endpoint
    ensures { seen result ≡ synchronized_with magic (seen endpoint) }
{
    Endpoint {
        sync: Sync {
            phase: Phase::Running,
            remaining: 0,
            remote_magic: magic,
        },
        ..endpoint
    }
}

// An end of such a bout, running. The other end's number as a peer is its magic.
#[tactic(auto, unfolding(endpoint_rules::specs::Step::fresh))]
pub fn end(own: u16, other: u16, player: u32, now: u64) -> Endpoint
    ensures { seen result ≡ synchronized_with other (made (two_players own other player) now) }
{
    let made = Endpoint::new(two_players(own, other.into(), player), now);
    synchronized(made.endpoint, other)
}
