// The messages of ggrs (messages.rs) as values and as bincode 1's bytes: fixed-width little-endian
// integers, fields in declared order, a list as a u64 count and its elements. Frames and advantages
// are biased numbers (crate `frame`); a u128 is two u64 halves.
#![tactic(auto)]

mod reader;
mod writer;

ghost use Rattle.std.specs.Prelude.{◌≡◌, ◌+◌, ◌*◌, ◌^◌};
ghost use Rattle.codec.specs.Message.{kind_of, is_input};

use ceilings::MOST_PLAYERS;
use fixed_vec::FixedVec;
pub use reader::{message_end, no_reports, payload_of, read};
pub use writer::{size_of, write, write_head};

// Fixed sizes by kind, one table (F-4). An Input adds STATUS_SIZE per status and 1 per payload byte.
pub const FIXED_SIZES: [usize; 8] = [10, 10, 31, 10, 24, 22, 26, 6];

pub const STATUS_SIZE: usize = 5;

// The wire's two fields of a player's status.
#[derive(Clone, Copy, Debug, PartialEq, Eq)]
pub struct StatusReport {
    pub disconnected: bool,
    pub last_frame: u32,
}

// An Input's status list, with the count as given: a writer refuses one above MOST_PLAYERS.
pub type StatusReports = FixedVec<StatusReport, MOST_PLAYERS>;

// A u128 of the wire.
#[derive(Clone, Copy, Debug, PartialEq, Eq)]
pub struct Wide {
    pub low: u64,
    pub high: u64,
}

// The number that the two words are.
impl From<Wide> for u128 {
    ghost from_gives = { λ wide n. n ≡ wide.low + 2 ^ 64 * wide.high };

    fn from(wide: Wide) -> u128 {
        u128::from(wide.high) << 64 | u128::from(wide.low)
    }
}

// The eight bodies. An Input's reports and payload stand beside it, so that the enum holds no bytes.
#[derive(Clone, Copy, Debug, PartialEq, Eq)]
pub enum MessageBody {
    SyncRequest {
        random_request: u32,
    },
    SyncReply {
        random_reply: u32,
    },
    Input {
        disconnect_requested: bool,
        start_frame: u32,
        ack_frame: u32,
    },
    InputAck {
        ack_frame: u32,
    },
    QualityReport {
        frame_advantage: u16,
        ping: Wide,
    },
    QualityReply {
        pong: Wide,
    },
    ChecksumReport {
        checksum: Wide,
        frame: u32,
    },
    KeepAlive,
}

impl MessageBody {
    // Whether a status list and a payload stand beside it.
    #[tactic(auto, unfolding(crate::specs::Message::is_input))]
    fn is_input(self) -> bool
        ensures { result ≡ is_input self }
    {
        matches!(self, MessageBody::Input { .. })
    }
}

// A message without an Input's payload, which is a slice of its own.
#[derive(Clone, Copy)]
pub struct Message {
    pub magic: u16,
    pub body: MessageBody,
    pub reports: StatusReports,
}

// The number of a body's kind, which stands before it on the wire.
// A function and no `From`: docs/LEAVES.md names it.
#[tactic(auto, unfolding(crate::specs::Message::kind_of))]
pub fn kind_of(body: MessageBody) -> u32
    ensures { result ≡ kind_of body }
{
    match body {
        MessageBody::SyncRequest { .. } => 0,
        MessageBody::SyncReply { .. } => 1,
        MessageBody::Input { .. } => 2,
        MessageBody::InputAck { .. } => 3,
        MessageBody::QualityReport { .. } => 4,
        MessageBody::QualityReply { .. } => 5,
        MessageBody::ChecksumReport { .. } => 6,
        MessageBody::KeepAlive => 7,
    }
}
