// What an endpoint knows of a player's connection, from its own side and from the other end's reports.
#![tactic(auto)]

ghost use Rattle.std.specs.Prelude.{◌≡◌};
ghost use Rattle.status.specs.Status.{default_status, reported, merged};

mod lent;
mod list;

pub use lent::copied;
pub use list::Statuses;

// No Option of a frame: the last frame counts of a disconnected player too.
#[derive(Clone, Copy, Debug, PartialEq, Eq)]
pub struct ConnectionStatus {
    pub disconnected: bool,
    pub last_frame: u32,
}

impl Default for ConnectionStatus {
    ghost is_default = { λ status. status ≡ default_status };

    #[tactic(auto, unfolding(crate::specs::Status::default_status))]
    fn default() -> ConnectionStatus {
        ConnectionStatus {
            disconnected: false,
            last_frame: frame::NULL_FRAME,
        }
    }
}

impl ConnectionStatus {
    // The one way by which a report, as it travels, becomes a record.
    #[tactic(auto, unfolding(crate::specs::Status::reported))]
    pub fn reported(disconnected: bool, last_frame: u32) -> ConnectionStatus
        ensures { result ≡ reported disconnected last_frame }
    {
        ConnectionStatus {
            disconnected,
            last_frame,
        }
    }

    // A later report never clears `disconnected`, and never takes `last_frame` back.
    #[tactic(auto, unfolding(crate::specs::Status::merged))]
    pub fn merge(self, other: ConnectionStatus) -> ConnectionStatus
        ensures { result ≡ merged self other }
    {
        ConnectionStatus {
            disconnected: self.disconnected || other.disconnected,
            last_frame: self.last_frame.max(other.last_frame),
        }
    }
}
