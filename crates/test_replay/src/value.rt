// The values in a record's payload part: a setup, and a message that is handed over as a value.
use crate::little::{frame_at, u16_at, u32_at, u64_at};
use codec::{Message, MessageBody, StatusReport, StatusReports, Wide};
use setup::{Choices, DesyncDetection, Handles, Setup};
use spectator_rules::{Limits, SessionSetup};

const SETUP_SIZE: usize = 88;

// A message's fixed fields; an Input's payload follows.
const VALUE_SIZE: usize = 80;

const CHECKSUM_SIZE: usize = 16;

pub(crate) fn is_setup(bytes: &[u8]) -> bool {
    bytes.len() == SETUP_SIZE
}

pub(crate) fn is_checksum(bytes: &[u8]) -> bool {
    CHECKSUM_SIZE <= bytes.len()
}

pub(crate) fn is_message(bytes: &[u8]) -> bool {
    VALUE_SIZE <= bytes.len() && u32_at(bytes, 4) < 8
}

fn desync_of(bytes: &[u8]) -> DesyncDetection {
    if u16_at(bytes, 62) == 0 {
        return DesyncDetection::Off;
    }
    DesyncDetection::On {
        interval: u32_at(bytes, 64),
    }
}

pub(crate) fn setup_of(bytes: &[u8]) -> Setup {
    let mut choices = Choices::new(desync_of(bytes));
    choices.firm_checksums = u16_at(bytes, 68) != 0;
    Setup {
        num_players: u32_at(bytes, 0),
        handles: Handles {
            list: [8, 12, 16, 20].map(|at| u32_at(bytes, at)),
            count: u32_at(bytes, 4) as usize,
        },
        local_players: u32_at(bytes, 24),
        input_size: u32_at(bytes, 28),
        max_prediction: u32_at(bytes, 32),
        disconnect_timeout: u64_at(bytes, 40),
        disconnect_notify_start: u64_at(bytes, 48),
        fps: u32_at(bytes, 36),
        magic: u16_at(bytes, 60),
        peer_addr: u32_at(bytes, 56),
        choices,
    }
}

fn limits_of(bytes: &[u8]) -> Limits {
    Limits {
        slots: u32_at(bytes, 72),
        session_events: u32_at(bytes, 76),
        max_frames_behind: u32_at(bytes, 80),
        catchup_speed: u32_at(bytes, 84),
    }
}

// A setup without its handles and its local players, and with the limits.
pub(crate) fn session_setup_of(bytes: &[u8]) -> SessionSetup {
    let setup = setup_of(bytes);
    SessionSetup {
        num_players: setup.num_players,
        input_size: setup.input_size,
        max_prediction: setup.max_prediction,
        disconnect_timeout: setup.disconnect_timeout,
        disconnect_notify_start: setup.disconnect_notify_start,
        fps: setup.fps,
        magic: setup.magic,
        peer_addr: setup.peer_addr,
        choices: setup.choices,
        limits: limits_of(bytes),
    }
}

pub(crate) fn wide_at(bytes: &[u8], at: usize) -> Wide {
    Wide {
        low: u64_at(bytes, at),
        high: u64_at(bytes, at.saturating_add(8)),
    }
}

fn report_at(bytes: &[u8], at: usize) -> StatusReport {
    StatusReport {
        disconnected: u32_at(bytes, at) != 0,
        last_frame: frame_at(bytes, at.saturating_add(4)),
    }
}

// The count as given: one above four has no more than four entries to show.
fn reports_of(bytes: &[u8]) -> StatusReports {
    StatusReports {
        list: [48, 56, 64, 72].map(|at| report_at(bytes, at)),
        count: u32_at(bytes, 8) as usize,
    }
}

// A kind above 7 is no message (`is_message`).
fn body_of(bytes: &[u8]) -> MessageBody {
    match u32_at(bytes, 4) {
        0 => MessageBody::SyncRequest {
            random_request: u32_at(bytes, 8),
        },
        1 => MessageBody::SyncReply {
            random_reply: u32_at(bytes, 8),
        },
        2 => MessageBody::Input {
            disconnect_requested: u32_at(bytes, 12) != 0,
            start_frame: frame_at(bytes, 16),
            ack_frame: frame_at(bytes, 20),
        },
        3 => MessageBody::InputAck {
            ack_frame: frame_at(bytes, 20),
        },
        4 => MessageBody::QualityReport {
            frame_advantage: frame::advantage_bits_of(u16_at(bytes, 24)),
            ping: wide_at(bytes, 32),
        },
        5 => MessageBody::QualityReply {
            pong: wide_at(bytes, 32),
        },
        6 => MessageBody::ChecksumReport {
            checksum: wide_at(bytes, 32),
            frame: frame_at(bytes, 16),
        },
        _ => MessageBody::KeepAlive,
    }
}

pub(crate) fn message_of(bytes: &[u8]) -> Message {
    Message {
        magic: u16_at(bytes, 0),
        body: body_of(bytes),
        reports: reports_of(bytes),
    }
}

pub(crate) fn payload_of(bytes: &[u8]) -> &[u8] {
    bytes.get(VALUE_SIZE..).unwrap_or(bytes)
}
