// What a spectator session is and what each of its calls does (ggrs, p2p_spectator_session.rs), as definitions: specs/ holds them, and worked
// examples computed from them. The calls themselves are the crate `spectator`.
#![tactic(auto)]

use ceilings::MOST_INPUT_SIZE;
use setup::Choices;

// The crate's SessionState.
#[derive(Clone, Copy, Debug, PartialEq, Eq)]
pub enum SessionState {
    Synchronizing,
    Running,
}

// The crate's InputStatus; a spectator never predicts.
#[derive(Clone, Copy, Debug, PartialEq, Eq)]
pub enum InputStatus {
    Confirmed,
    Disconnected,
}

// The crate's GgrsEvent, as far as a spectator announces it, but for the address.
#[derive(Clone, Copy, Debug, PartialEq, Eq)]
pub enum SessionEvent {
    Synchronizing { total: u32, count: u32 },
    Synchronized,
    Disconnected,
    NetworkInterrupted { disconnect_timeout: u64 },
    NetworkResumed,
}

// An event with its address, the host's peer number.
#[derive(Clone, Copy, Debug, PartialEq, Eq)]
pub struct SessionEntry {
    pub addr: u32,
    pub event: SessionEvent,
}

// One player's input of a frame, zeros past its size.
#[derive(Clone, Copy, Debug, PartialEq, Eq)]
pub struct PlayerInput {
    pub frame: u32,
    pub input: [u8; MOST_INPUT_SIZE],
}

// One player's input as a frame is advanced, with what is known of the player then.
#[derive(Clone, Copy, Debug, PartialEq, Eq)]
pub struct SyncedInput {
    pub input: [u8; MOST_INPUT_SIZE],
    pub status: InputStatus,
}

// The session's own limits.
#[derive(Clone, Copy, Debug, PartialEq, Eq)]
pub struct Limits {
    // B: so many frames are kept for playing, each in the slot of its number mod B. A frame that comes B later takes the slot, played or not.
    // 2 to 64. The crate's SPECTATOR_BUFFER_SIZE.
    pub slots: u32,
    // M: so many events wait to be taken; beyond them the oldest are dropped. 1 to 128. The crate's MAX_EVENT_QUEUE_SIZE.
    pub session_events: u32,
    // With more frames than this received and not played yet, an advance catches up. 0 to 65,535. The crate's name is the same.
    pub max_frames_behind: u32,
    // So many frames an advance then goes on by, at most: never more than there are, nor B or more. At 0 it stands still. 0 to 65,535. The
    // crate's name is the same.
    pub catchup_speed: u32,
}

// What is given to `new`, any numbers; those outside their ranges are refused by 1. But for the limits it is the setup of the endpoint to the
// host, which the session holds. The endpoint's handles are 0 up to players - 1, and it sends no inputs, so neither they nor its local players are
// the caller's to choose.
#[derive(Clone, Copy, Debug, PartialEq, Eq)]
pub struct SessionSetup {
    // The players of the game. 1 to 4. The crate's name is the same.
    pub num_players: u32,
    // Bytes of one player's input in a frame. 1 to 16. In the crate the size of the type Config::Input.
    pub input_size: u32,
    // How many frames the players' own endpoints predict ahead: inputs received are kept twice as far back. 0 to 16. The crate's name is the same.
    pub max_prediction: u32,
    // Milliseconds without a message from the host until Disconnected is announced. At most 2^31. The crate's name is the same, a Duration.
    pub disconnect_timeout: u64,
    // The same until NetworkInterrupted is announced. At most 2^31. The crate's name is the same, a Duration.
    pub disconnect_notify_start: u64,
    // Frames the game plays in a second. 1 to 240. The crate's name is the same.
    pub fps: u32,
    // The number that marks this end's messages, drawn at random. Not 0. The crate's name is the same, and it draws it itself.
    pub magic: u16,
    // The host's number as a peer: messages from another number are ignored. Any. The crate's name is the same, an address.
    pub peer_addr: u32,
    // Off, or on with an interval of 1 to 10,000 frames; a session has no call for checksums, so off. The crate's DesyncDetection.
    pub choices: Choices,
    // How many frames and events the session keeps, and how it catches up: each in its range, above.
    pub limits: Limits,
}
