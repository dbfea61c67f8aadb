// The reader: any bytes, field by field, the first fault wins. Fields are read by their place: one test by the table of
// sizes (F-4) says that all of a body's are there, where a reader that moves on would test each again.
ghost use Rattle.std.specs.Prelude.{◌≡◌, ◌+◌, ◌*◌, ◌≤◌, ◌<◌, length, take, drop};
ghost use Rattle.ceilings.specs.Ceilings.{most_players};
ghost use Rattle.frame.specs.Bias.{bias32, bits_of};
ghost use Rattle.codec.specs.Sizes.{fixed_size};
ghost use Rattle.codec.specs.Message.{report_list};
ghost use Rattle.codec.specs.Read.{message, datagram, flag, report};
ghost use Rattle.codec.specs.Calls.{ReadAs, PayloadAs, message_end};
ghost use Rattle.codec.specs.Front.{number_at, wide_at, body_at, after_reports, FieldAs, FrontAs, ReportsAs};

use crate::{FIXED_SIZES, Message, MessageBody, STATUS_SIZE, StatusReport, StatusReports, Wide};
use answer::Refusal;
use ceilings::{MOST_PAYLOAD, MOST_PLAYERS};
use frame::NULL_FRAME;

// Where an Input's reports start: after magic, kind and count.
const STATUSES_AT: usize = 14;

// The first message of a slice: where its payload starts and where it ends.
#[derive(Clone, Copy)]
struct Front {
    message: Message,
    payload: usize,
    end: usize,
}

// The message of a datagram, less an Input's payload (`payload_of`).
pub fn read(datagram: &[u8]) -> Result<Message, Refusal>
    ensures { ReadAs datagram.now result }
{
    Ok(whole(datagram)?.message)
}

// An Input's payload, a part of the datagram; empty where the datagram does not read or is no Input.
#[tactic(auto, using(crate::proofs::Fronts::payload_front, crate::proofs::Fronts::payload_none))]
pub fn payload_of(datagram: &[u8]) -> &[u8]
    ensures { PayloadAs datagram.now result.now }
{
    match whole(datagram) {
        Ok(front) => &datagram[front.payload..front.end],
        Err(_) => &[],
    }
}

// Where the message ends that begins at a place of a queue: `queue[at..end]` is one datagram. Bytes that cannot
// be read are one message up to the queue's end, so that a loop over a queue always ends and whoever gets that
// datagram refuses it. From the queue's end on the answer is the queue's end.
#[tactic(auto, using(crate::proofs::Queue::message_end_past))]
pub fn message_end(queue: &[u8], at: usize) -> usize
    ensures { result ≡ message_end queue.now at }
{
    if queue.len() <= at {
        return queue.len();
    }
    match front_of(&queue[at..]) {
        Ok(front) => at + front.end,
        Err(_) => queue.len(),
    }
}

// A message with nothing after it.
#[tactic(auto, using(crate::proofs::Fronts::extra, crate::proofs::Fronts::still_refused))]
fn whole(d: &[u8]) -> Result<Front, Refusal>
    ensures { FrontAs d.now (datagram d.now) result }
{
    let front = front_of(d)?;
    if front.end < d.len() {
        return Err(Refusal::Extra);
    }
    Ok(front)
}

// By the number of the kind: F-6.
#[tactic(auto, using(crate::proofs::Takes::bad_kind, crate::proofs::Takes::head_short))]
fn front_of(d: &[u8]) -> Result<Front, Refusal>
    ensures { FrontAs d.now (message d.now) result }
{
    if d.len() < 6 {
        return Err(Refusal::Short);
    }
    let kind = u32_at(d, 2);
    match kind {
        0 | 1 | 3 | 4 | 5 | 6 | 7 => fixed(d, kind),
        2 => input(d),
        _ => Err(Refusal::BadKind),
    }
}

// A message of a fixed size, by the table.
#[tactic(auto, using(crate::proofs::Takes::fixed_short))]
fn fixed(d: &[u8], kind: u32) -> Result<Front, Refusal>
    requires { (6 ≤ length d.now) × (kind ≡ number_at 4 2 d.now) × (kind < 8) × (kind ≡ 2 → ⊥) }
    ensures { FrontAs d.now (message d.now) result }
{
    let size = FIXED_SIZES[kind as usize];
    if d.len() < size {
        return Err(Refusal::Short);
    }
    Ok(Front {
        message: Message {
            magic: u16_at(d, 0),
            body: body_at(d, kind),
            reports: no_reports(),
        },
        payload: size,
        end: size,
    })
}

// The body of a kind that has no lists, whose bytes are there. By the number of the kind: F-6.
#[tactic(auto, using(crate::proofs::Takes::last_kind), unfolding(crate::specs::Front::body_at))]
fn body_at(d: &[u8], kind: u32) -> MessageBody
    requires { (fixed_size kind ≤ length d.now) × (kind < 8) × (kind ≡ 2 → ⊥) }
    ensures { result ≡ body_at kind d.now }
{
    match kind {
        0 => MessageBody::SyncRequest {
            random_request: u32_at(d, 6),
        },
        1 => MessageBody::SyncReply {
            random_reply: u32_at(d, 6),
        },
        3 => MessageBody::InputAck {
            ack_frame: frame_at(d, 6),
        },
        4 => MessageBody::QualityReport {
            frame_advantage: frame::advantage_bits_of(u16_at(d, 6)),
            ping: wide_at(d, 8),
        },
        5 => MessageBody::QualityReply {
            pong: wide_at(d, 6),
        },
        6 => MessageBody::ChecksumReport {
            checksum: wide_at(d, 6),
            frame: frame_at(d, 22),
        },
        _ => MessageBody::KeepAlive,
    }
}

// An Input: both counts are tested as soon as they are read, as u64.
#[tactic(auto, using(crate::proofs::Inputs::many_statuses, crate::proofs::Inputs::no_count, crate::proofs::Inputs::with_statuses_lem))]
fn input(d: &[u8]) -> Result<Front, Refusal>
    requires { (6 ≤ length d.now) × (number_at 4 2 d.now ≡ 2) }
    ensures { FrontAs d.now (message d.now) result }
{
    if d.len() < STATUSES_AT {
        return Err(Refusal::Short);
    }
    let n = u64_at(d, 6);
    if (MOST_PLAYERS as u64) < n {
        return Err(Refusal::TooLong);
    }
    let reports = reports_of(d, n as usize)?;
    after_reports(d, reports)
}

// The reports from their place on.
#[tactic(auto, using(crate::proofs::Statuses::reports_fault))]
fn reports_of(d: &[u8], count: usize) -> Result<StatusReports, Refusal>
    requires { (14 ≤ length d.now) × (count ≤ most_players) }
    ensures { ReportsAs d.now count result }
{
    let mut found = no_reports();
    for i in 0..count {
        found.list[i] = report_at(d, STATUSES_AT + STATUS_SIZE * i)?;
    }
    found.count = count;
    Ok(found)
}

// The report at a place: its flag is looked at before its frame.
#[tactic(auto, using(crate::proofs::Flags::report_fault, crate::proofs::Flags::report_short, crate::proofs::Flags::report_good))]
fn report_at(d: &[u8], at: usize) -> Result<StatusReport, Refusal>
    requires { at ≤ length d.now }
    ensures { FieldAs report at 5 d.now result }
{
    let disconnected = flag_at(d, at)?;
    if d.len() - at < STATUS_SIZE {
        return Err(Refusal::Short);
    }
    Ok(StatusReport {
        disconnected,
        last_frame: frame_at(d, at + 1),
    })
}

#[tactic(auto, using(crate::proofs::Flags::flag_none, crate::proofs::Flags::flag_bad, crate::proofs::Flags::flag_no, crate::proofs::Flags::flag_yes))]
fn flag_at(d: &[u8], at: usize) -> Result<bool, Refusal>
    requires { at ≤ length d.now }
    ensures { FieldAs flag at 1 d.now result }
{
    if d.len() == at {
        return Err(Refusal::Short);
    }
    match d[at] {
        0 => Ok(false),
        1 => Ok(true),
        _ => Err(Refusal::BadBool),
    }
}

// The rest of an Input, whose reports stand up to the flag.
#[tactic(auto, using(crate::proofs::Inputs::flag_fault, crate::proofs::Inputs::few_bytes, crate::proofs::Inputs::long_payload, crate::proofs::Inputs::short_payload))]
fn after_reports(d: &[u8], reports: StatusReports) -> Result<Front, Refusal>
    requires { (reports.count ≤ most_players) × (14 + 5 * reports.count ≤ length d.now) }
    ensures { FrontAs d.now (after_reports (number_at 2 0 d.now) (report_list reports) (drop (14 + 5 * reports.count) d.now)) result }
{
    let at = STATUSES_AT + STATUS_SIZE * reports.count;
    let disconnect_requested = flag_at(d, at)?;
    let payload = FIXED_SIZES[2] + STATUS_SIZE * reports.count;
    if d.len() < payload {
        return Err(Refusal::Short);
    }
    let b = u64_at(d, at + 9);
    if (MOST_PAYLOAD as u64) < b {
        return Err(Refusal::TooLong);
    }
    let length = b as usize;
    if d.len() - payload < length {
        return Err(Refusal::Short);
    }
    Ok(Front {
        message: Message {
            magic: u16_at(d, 0),
            body: MessageBody::Input {
                disconnect_requested,
                start_frame: frame_at(d, at + 1),
                ack_frame: frame_at(d, at + 5),
            },
            reports,
        },
        payload,
        end: payload + length,
    })
}

// An empty status list.
pub fn no_reports() -> StatusReports
    ensures { result.count ≡ 0 }
{
    StatusReports {
        list: [StatusReport {
            disconnected: false,
            last_frame: NULL_FRAME,
        }; MOST_PLAYERS],
        count: 0,
    }
}

#[tactic(auto, unfolding(crate::specs::Front::wide_at))]
fn wide_at(d: &[u8], at: usize) -> Wide
    requires { at + 16 ≤ length d.now }
    ensures { result ≡ wide_at at d.now }
{
    Wide {
        low: u64_at(d, at),
        high: u64_at(d, at + 8),
    }
}

fn frame_at(d: &[u8], at: usize) -> u32
    requires { at + 4 ≤ length d.now }
    ensures { result ≡ bits_of bias32 (number_at 4 at d.now) }
{
    frame::bits_of(u32_at(d, at))
}

// One for each width: a trait over the widths would be no plainer, since each impl would hold this line.
#[tactic(auto, using(crate::proofs::Numbers::number_8))]
fn u64_at(d: &[u8], at: usize) -> u64
    requires { at + 8 ≤ length d.now }
    ensures { result ≡ number_at 8 at d.now }
{
    u64::from_le_bytes(bytes_at(d, at))
}

#[tactic(auto, using(crate::proofs::Numbers::number_4))]
fn u32_at(d: &[u8], at: usize) -> u32
    requires { at + 4 ≤ length d.now }
    ensures { result ≡ number_at 4 at d.now }
{
    u32::from_le_bytes(bytes_at(d, at))
}

#[tactic(auto, using(crate::proofs::Numbers::number_2))]
fn u16_at(d: &[u8], at: usize) -> u16
    requires { at + 2 ≤ length d.now }
    ensures { result ≡ number_at 2 at d.now }
{
    u16::from_le_bytes(bytes_at(d, at))
}

fn bytes_at<const N: usize>(d: &[u8], at: usize) -> [u8; N]
    requires { at + N ≤ length d.now }
    ensures { result ≡ take N (drop at d.now) }
{
    let mut bytes = [0; N];
    bytes.copy_from_slice(&d[at..at + N]);
    bytes
}
