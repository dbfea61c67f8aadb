// The sizes of the stores and the ceilings that several crates share, each named once for the code. specs/Ceilings.antt has the same numbers under the same
// names for the definitions; a contract that speaks of the one over code that tests the other is proved only while the two agree.
#![tactic(auto)]

// Players of a bout, handles of an endpoint, statuses of an Input.
pub const MOST_PLAYERS: usize = 4;

// Bytes of one player's input.
pub const MOST_INPUT_SIZE: usize = 16;

// Bytes of one frame: the inputs of all players.
pub const MOST_WIDTH: usize = 64;

// Pending inputs: accepted and not acknowledged yet.
pub const MOST_PENDING: usize = 129;

// Payload bytes of an Input: every pending input at the greatest width.
pub const MOST_PAYLOAD: usize = 8256;

// Frames that are predicted ahead.
pub const MOST_PREDICTION: usize = 16;

// Inputs received that are kept: the newest, and 2 max_prediction before it.
pub const MOST_RECEIVED: usize = 33;

// Nonces outstanding.
pub const MOST_NONCES: usize = 256;

// Checksums stored, and how many of them bring the clean-up.
pub const MOST_CHECKSUMS: usize = 64;

pub const CLEAN_CHECKSUMS: usize = 32;

// The most checksums stored in firm mode.
pub const MOST_FIRM_CHECKSUMS: usize = 32;

// Events that wait to be taken.
pub const MOST_EVENTS: usize = 640;

// Slots of a spectator session: frames that are kept for playing.
pub const MOST_SLOTS: usize = 64;

// Places of a session's inputs: one for each player in each slot.
pub const MOST_PLACES: usize = 256;

// Frames that one advance of a session may bring: fewer than there are slots.
pub const MOST_ADVANCED: usize = 63;

// Events of a session that wait to be taken.
pub const MOST_SESSION_EVENTS: usize = 128;
