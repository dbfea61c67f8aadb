// The codec on an Input that comes from standard input, so that nothing of it is known beforehand.
use crate::ends;
use codec::{Message, MessageBody, StatusReports};
use frame::BIAS32;

// Where the first frame's number stands, after magic, kind, count, statuses and flag.
fn frame_at(datagram: &[u8]) -> usize {
    match datagram.get(6) {
        Some(statuses) => 15 + 5 * usize::from(*statuses),
        None => 0,
    }
}

// Each repetition reads other bytes: the lowest one of the first frame is the repetition's number.
pub(crate) fn read(count: u32, datagram: &mut [u8]) -> u64 {
    let at = frame_at(datagram);
    if datagram.len() <= at {
        return 0;
    }
    let mut sum = 0u64;
    for i in 0..count {
        datagram[at] = (i % 256) as u8;
        sum = sum.wrapping_add(fields(datagram));
    }
    sum
}

// Every field is looked at.
fn fields(datagram: &[u8]) -> u64 {
    let Ok(message) = codec::read(datagram) else {
        return 0;
    };
    let payload = codec::payload_of(datagram);
    let MessageBody::Input {
        disconnect_requested,
        start_frame,
        ack_frame,
    } = message.body
    else {
        return 0;
    };
    let (Some(first), Some(last)) = (payload.first(), payload.last()) else {
        return 0;
    };
    u64::from(message.magic)
        .wrapping_add(reported(&message.reports))
        .wrapping_add(frame_sum(disconnect_requested, start_frame))
        .wrapping_add(frame_sum(false, ack_frame))
        .wrapping_add(payload.len() as u64)
        .wrapping_add(u64::from(*first))
        .wrapping_add(u64::from(*last))
}

fn frame_sum(flag: bool, frame: u32) -> u64 {
    u64::from(frame.wrapping_sub(BIAS32)) + u64::from(flag)
}

fn reported(reports: &StatusReports) -> u64 {
    reports.as_slice().iter().fold(0u64, |sum, report| {
        sum.wrapping_add(frame_sum(report.disconnected, report.last_frame))
    })
}

// Each repetition writes another first frame.
pub(crate) fn write(count: u32, datagram: &[u8]) -> u64 {
    let at = frame_at(datagram);
    // What cannot be read counts as a KeepAlive.
    let message = codec::read(datagram).unwrap_or(ends::body_only(0, MessageBody::KeepAlive));
    let payload = codec::payload_of(datagram);
    let mut out = [0; 128];
    let mut sum = 0u64;
    for i in 0..count {
        if let Ok(end) = codec::write(&mut out, 0, with_start(message, i), payload) {
            sum = sum.wrapping_add(seen(&out, at, end));
        }
    }
    sum
}

fn with_start(mut message: Message, i: u32) -> Message {
    if let MessageBody::Input { start_frame, .. } = &mut message.body {
        *start_frame = BIAS32 + 1000 + i % 256;
    }
    message
}

// The end, a byte of the first frame and the last one.
fn seen(out: &[u8], at: usize, end: usize) -> u64 {
    let Some(written) = out.get(at..end) else {
        return 0;
    };
    let (Some(first), Some(last)) = (written.first(), written.last()) else {
        return 0;
    };
    (end as u64)
        .wrapping_add(u64::from(*first))
        .wrapping_add(u64::from(*last))
}
