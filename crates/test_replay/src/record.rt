// A record of a script: the fields of its 64 bytes.
use crate::little::{frame_at, u8_at, u32_at, u64_at};
use crate::stop::RecordFault;
use status::{ConnectionStatus, Statuses};

// Longest payload part, and longest lent send buffer.
const PAYLOAD_MAX: usize = 16384;

pub const BUFFER_MAX: usize = 65536;

// The calls, in the order of their numbers. The session's `Act` is a poll.
#[derive(Clone, Copy, Debug, PartialEq, Eq)]
pub enum Call {
    New,
    Synchronize,
    Datagram,
    Carry,
    Message,
    Act,
    SendInput,
    Disconnect,
    SendChecksumReport,
    UpdateLocalFrameAdvantage,
    NetworkStats,
    PeerConnectStatus,
    TakeEvents,
    TakeMessages,
    Getters,
    Buffer,
    Advance,
    FramesBehind,
}

impl TryFrom<u8> for Call {
    type Error = RecordFault;

    fn try_from(number: u8) -> Result<Call, RecordFault> {
        match number {
            0 => Ok(Call::New),
            1 => Ok(Call::Synchronize),
            2 => Ok(Call::Datagram),
            3 => Ok(Call::Carry),
            4 => Ok(Call::Message),
            5 => Ok(Call::Act),
            6 => Ok(Call::SendInput),
            7 => Ok(Call::Disconnect),
            8 => Ok(Call::SendChecksumReport),
            9 => Ok(Call::UpdateLocalFrameAdvantage),
            10 => Ok(Call::NetworkStats),
            11 => Ok(Call::PeerConnectStatus),
            12 => Ok(Call::TakeEvents),
            13 => Ok(Call::TakeMessages),
            14 => Ok(Call::Getters),
            15 => Ok(Call::Buffer),
            16 => Ok(Call::Advance),
            17 => Ok(Call::FramesBehind),
            _ => Err(RecordFault::Call),
        }
    }
}

// The objects, in the order of their numbers.
#[derive(Clone, Copy, Debug, PartialEq, Eq)]
pub enum Object {
    First,
    Second,
    Session,
}

impl TryFrom<u32> for Object {
    type Error = RecordFault;

    fn try_from(number: u32) -> Result<Object, RecordFault> {
        match number {
            0 => Ok(Object::First),
            1 => Ok(Object::Second),
            2 => Ok(Object::Session),
            _ => Err(RecordFault::Object),
        }
    }
}

impl Object {
    fn has(self, call: Call) -> bool {
        match call {
            Call::SendInput
            | Call::Disconnect
            | Call::SendChecksumReport
            | Call::UpdateLocalFrameAdvantage
            | Call::PeerConnectStatus => self != Object::Session,
            Call::Advance | Call::FramesBehind => self == Object::Session,
            _ => true,
        }
    }
}

#[derive(Clone, Copy)]
pub struct Record {
    pub call: Call,
    pub object: Object,
    // Of the payload part.
    pub length: usize,
    pub now: u64,
    pub epoch: u64,
    pub nonce: u32,
    pub buffer: usize,
    pub frame: u32,
    pub number: u32,
    pub statuses: Statuses,
}

fn status_at(head: &[u8], at: usize) -> ConnectionStatus {
    ConnectionStatus {
        disconnected: u8_at(head, at) != 0,
        last_frame: frame_at(head, at.saturating_add(1)),
    }
}

// The count as given: it may be any.
fn statuses_of(head: &[u8]) -> Statuses {
    Statuses {
        list: [40, 45, 50, 55].map(|at| status_at(head, at)),
        count: u8_at(head, 2).into(),
    }
}

impl TryFrom<&[u8; 64]> for Record {
    type Error = RecordFault;

    fn try_from(head: &[u8; 64]) -> Result<Record, RecordFault> {
        let call = Call::try_from(u8_at(head, 0))?;
        let object = Object::try_from(u32::from(u8_at(head, 1)))?;
        let length = u32_at(head, 4) as usize;
        let buffer = u32_at(head, 28) as usize;
        if !object.has(call) {
            return Err(RecordFault::Absent);
        }
        if PAYLOAD_MAX < length {
            return Err(RecordFault::Length);
        }
        if BUFFER_MAX < buffer {
            return Err(RecordFault::Buffer);
        }
        Ok(Record {
            call,
            object,
            length,
            now: u64_at(head, 8),
            epoch: u64_at(head, 16),
            nonce: u32_at(head, 24),
            buffer,
            frame: frame_at(head, 32),
            number: u32_at(head, 36),
            statuses: statuses_of(head),
        })
    }
}
