// One call of an endpoint in Running, over and over.
use crate::ends;
use crate::ends::{OTHER, PEER, START};
use codec::{Message, MessageBody};
use endpoint::Endpoint;
use frame::BIAS32;
use setup::Setup;
use status::Statuses;

// How many inputs wait for their acknowledgement while another is sent.
const WAITING: u32 = 3;

fn frame_of(i: u32) -> u32 {
    BIAS32.wrapping_add(i)
}

// The events that wait and the bytes queued, added up. (By value: an item's endpoint is copied once more where it is lent.)
fn waiting(end: Endpoint) -> u64 {
    (end.events.entries.count as u64).wrapping_add(end.queued as u64)
}

// The Input of one frame after the other, each packed against the one before.
pub(crate) fn input(setup: Setup, payload: &[u8], count: u32) -> u64 {
    let mut out = [0; 64];
    let mut end = ends::ready(setup, OTHER);
    let mut sum = 0u64;
    for i in 0..count {
        let message = one_frame(setup.num_players, i);
        let now = START + u64::from(i);
        let ended = end.message(PEER, message, payload, now, START, 0, &mut out);
        end = ended.endpoint;
        sum = sum.wrapping_add(waiting(end));
        end.queued = 0;
        end.events.entries.count = 0;
    }
    sum
}

fn one_frame(players: u32, i: u32) -> Message {
    let mut reports = codec::no_reports();
    reports.count = players as usize;
    Message {
        magic: OTHER,
        body: MessageBody::Input {
            disconnect_requested: false,
            start_frame: frame_of(i),
            ack_frame: BIAS32 - 1,
        },
        reports,
    }
}

// An endpoint with three inputs that wait.
fn waited() -> Endpoint {
    let mut out = [0; 256];
    let mut end = ends::ready(ends::small(), OTHER);
    for i in 0..WAITING {
        let input = [i as u8];
        let ended = end.send_input(frame_of(i), &input, Statuses::new(2), START, &mut out);
        end = ended.endpoint;
    }
    ends::emptied(end)
}

// A frame is sent while three wait; then it is forgotten and sent again.
pub(crate) fn send_input(count: u32) -> u64 {
    let mut out = [0; 64];
    let mut end = waited();
    let statuses = Statuses::new(2);
    let mut sum = 0u64;
    for i in 0..count {
        let now = START + u64::from(i);
        let ended = end.send_input(frame_of(WAITING), &[3], statuses, now, &mut out);
        end = ended.endpoint;
        sum = sum.wrapping_add(waiting(end));
        end.queued = 0;
        end.pending.inputs.count = 3;
    }
    sum
}

// A frame is sent while three wait, then the oldest is acknowledged.
pub(crate) fn input_ack(count: u32) -> u64 {
    let mut out = [0; 64];
    let mut end = waited();
    let statuses = Statuses::new(2);
    let mut sum = 0u64;
    for i in 0..count {
        let now = START + u64::from(i);
        let input = [(i % 256) as u8];
        let frame = frame_of(i.wrapping_add(WAITING));
        let sent = end.send_input(frame, &input, statuses, now, &mut out);
        let body = MessageBody::InputAck {
            ack_frame: frame_of(i),
        };
        let ack = ends::body_only(OTHER, body);
        let ended = sent
            .endpoint
            .message(PEER, ack, b"", now, START, 0, &mut out);
        end = ended.endpoint;
        sum = sum.wrapping_add(waiting(end));
        end.queued = 0;
    }
    sum
}

pub(crate) fn keep_alive(count: u32) -> u64 {
    let mut out = [0; 64];
    let mut end = ends::ready(ends::small(), OTHER);
    for i in 0..count {
        let message = ends::body_only(OTHER, MessageBody::KeepAlive);
        let now = START + u64::from(i);
        let ended = end.message(PEER, message, b"", now, START, 0, &mut out);
        end = ended.endpoint;
    }
    waiting(end)
}

// At a time when no timer is due.
pub(crate) fn act(count: u32) -> u64 {
    let mut out = [0; 64];
    let mut end = ends::ready(ends::small(), OTHER);
    let statuses = Statuses::new(2);
    for _ in 0..count {
        let ended = end.act(statuses, START + 1, START + 1, 0, &mut out);
        end = ended.endpoint;
    }
    waiting(end)
}
