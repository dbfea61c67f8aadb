// The spectator session of ggrs (p2p_spectator_session.rs): it replays the inputs that a host's endpoint receives. A state by value; what a call
// does is `step` of the crate `spectator_rules`. On a refusal the session is the very one that the call was made on.
#![tactic(auto)]

mod advancing;
mod creation;
mod getters;
mod handling;
mod hosting;
mod inputs;
mod polling;
mod requests;
mod session_events;

// What a caller meets, so that `use spectator::SessionSetup` is enough.
pub use advancing::Advanced;
pub use answer::{Answer, Refusal};
use endpoint::Endpoint;
pub use endpoint::{Choices, DesyncDetection, Message, NetworkStats};
pub use getters::TakenEvents;
pub use hosting::TakenMessages;
pub use inputs::Inputs;
pub use polling::Polled;
pub use requests::{Request, Requests};
pub use session_events::SessionEvents;
pub use spectator_rules::{
    InputStatus, Limits, SessionEntry, SessionEvent, SessionSetup, SessionState, SyncedInput,
};
use status::Statuses;

// Its endpoint, which speaks with the host; the limits; whether it is synchronized; the inputs received; the session's copy of the statuses that the host
// reported; the events that wait to be taken; the last frame advanced and the last one received.
#[derive(Clone, Copy)]
pub struct SpectatorSession {
    pub host: Endpoint,
    pub limits: Limits,
    pub state: SessionState,
    pub inputs: Inputs,
    pub statuses: Statuses,
    pub events: SessionEvents,
    pub current_frame: u32,
    pub last_recv_frame: u32,
}

// What a call answers, with the session after it. The session comes first: with a byte and a gap in front of it each call would copy it once more.
// A struct of both and no `Result`: a refusal gives the session back too, and docs/API.md names the fields.
#[derive(Clone, Copy)]
pub struct Ended {
    pub session: SpectatorSession,
    pub answer: Answer,
}
