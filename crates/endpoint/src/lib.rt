// The peer endpoint of ggrs (protocol.rs): a state by value, clocks and nonces as arguments, the send queue in a lent buffer. Each call gives its
// answer and the endpoint after it; on a refusal that is the very endpoint it was called on. What a call does is `step` of the crate `endpoint_rules`.
// The calls take and give the state by value, since a state is a value (docs/API.md). The two largest are written over `&mut self`, so that `?` ends them; the others end
// with an `Ended` at each way out, since the length of the events' array, which their proofs need, is known of a value and not behind `&mut`.
#![tactic(auto)]

mod act;
mod creation;
mod disconnecting;
mod getters;
mod handshake;
mod message;
mod reports;
mod room;
mod sending;
mod taking;

// What a caller meets, so that `use endpoint::Setup` is enough.
pub use answer::{Answer, Refusal};
pub use checksums::{Checksum, Checksums};
pub use codec::{Message, MessageBody, StatusReport, StatusReports, Wide};
use endpoint_rules::Flags;
pub use endpoint_rules::Phase;
pub use events::{Entry, Event, Events};
use history::History;
use nonces::Nonces;
use packing::InputBytes;
use pending::Pending;
pub use quality::NetworkStats;
use quality::Quality;
pub use setup::{Choices, DesyncDetection, Handles, Setup};
pub use status::{ConnectionStatus, Statuses};
pub use taking::{TakenEvents, TakenMessages};
use timers::Clocks;

// How many replies complete a handshake.
const NUM_SYNC_PACKETS: u32 = 5;

// The phase; of the handshake the replies still to come, and the other end's magic, 0 while the filter is off.
#[derive(Clone, Copy)]
pub struct Sync {
    pub phase: Phase,
    pub remaining: u32,
    pub remote_magic: u16,
}

// The setup, its handles ascending; what carries inputs: those sent and not acknowledged, the last acknowledged one, against which they are packed,
// and those received; what the handshake and the clocks stand at, with the nonces outstanding; what was announced and reported; the events that wait to be
// taken, and how many bytes of the lent buffer are queued.
#[derive(Clone, Copy)]
pub struct Endpoint {
    pub setup: Setup,
    pub pending: Pending,
    pub acked: InputBytes,
    pub history: History,
    pub sync: Sync,
    pub nonces: Nonces,
    pub clocks: Clocks,
    pub flags: Flags,
    pub quality: Quality,
    pub statuses: Statuses,
    pub checksums: Checksums,
    pub events: Events,
    pub queued: usize,
}

// What a call answers, with the endpoint after it. The endpoint comes first: with a byte and a gap in front of it each call would copy it once more.
#[derive(Clone, Copy)]
pub struct Ended {
    pub endpoint: Endpoint,
    pub answer: Answer,
}
