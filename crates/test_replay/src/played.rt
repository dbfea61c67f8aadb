// The objects of a script: what a record leaves of the one that it is about, and what is written for it. Both kinds, endpoint and session, take their
// records and answer them in the same way.
use crate::crc::crc32;
use crate::out::{Mode, Out};
use crate::record::{BUFFER_MAX, Call, Object, Record};
use crate::stop::Stop;
use answer::Refusal;
use std::io::Stdout;

// What tells an endpoint from a session.
pub trait Played: Copy {
    // Made by the payload part of a `new`.
    fn made(part: &[u8], now: u64) -> Result<Self, Refusal>;

    // One call, lent the first bytes of the object's array.
    fn called(self, record: &Record, part: &[u8], out: &mut [u8]) -> Called<Self>;

    // What the call hands back, by its number in docs/REPLAY.md. It is made once more from the object before the call, which is a value and gives the same
    // again, but for the messages of a poll: these stand in the array, `filled` bytes of it.
    fn put_given(self, out: Out, record: &Record, array: &[u8], filled: usize) -> Result<Out, Stop>;

    fn put_state(self, out: Out, array: &[u8]) -> Result<Out, Stop>;
}

// An object after a call, and what the call answers: where it is done, how much of the array a poll hands back.
#[derive(Clone, Copy)]
pub struct Called<T> {
    pub object: T,
    pub answer: Result<usize, Refusal>,
}

// Why a record is not done, beside the refusals: no `new` has made the object; the payload part is not what the call takes, where the judge panics.
#[derive(Clone, Copy, Debug)]
enum Undone {
    Refused(Refusal),
    Panicked,
    Absent,
}

impl Undone {
    fn number(self) -> u32 {
        match self {
            Undone::Refused(refusal) => refusal.number(),
            Undone::Panicked => 254,
            Undone::Absent => 255,
        }
    }
}

// What a record leaves of its object, none where it is not there; of a record that is done how much of the array a poll hands back.
#[derive(Clone, Copy)]
struct Outcome<T> {
    object: Option<T>,
    answer: Result<usize, Undone>,
}

// Behind each object stands an array, the send buffer that it is lent.
#[derive(Clone, Copy)]
pub struct Arrays {
    pub first: [u8; BUFFER_MAX],
    pub second: [u8; BUFFER_MAX],
    pub session: [u8; BUFFER_MAX],
}

impl Arrays {
    pub(crate) fn new() -> Arrays {
        Arrays {
            first: [0; BUFFER_MAX],
            second: [0; BUFFER_MAX],
            session: [0; BUFFER_MAX],
        }
    }

    pub(crate) fn of(&self, object: Object) -> &[u8] {
        match object {
            Object::First => &self.first,
            Object::Second => &self.second,
            Object::Session => &self.session,
        }
    }
}

// A record is done, and its answer is written. `part` is the payload part, or none where the call takes no such one.
pub(crate) fn answered<T: Played>(
    to: Stdout,
    mode: Mode,
    before: Option<T>,
    record: &Record,
    part: Option<&[u8]>,
    array: &mut [u8],
) -> Result<Option<T>, Stop> {
    let after = turn(before, record, part, array);
    let number = match after.answer {
        Ok(_) => 0,
        Err(undone) => undone.number(),
    };
    let head = [
        record.call as u8,
        record.object as u8,
        (number % 0x100) as u8,
        0,
    ];
    let out = Out::begin(to, mode, head)?;
    let out = match (record.call, before, after.answer) {
        (Call::Buffer, _, _) => out.u32(crc32(array))?,
        (_, Some(object), Ok(filled)) => object.put_given(out, record, array, filled)?,
        _ => out,
    };
    let out = match after.object {
        Some(object) => object.put_state(out, array)?,
        None => out.u8(0)?,
    };
    out.end()?;
    Ok(after.object)
}

fn turn<T: Played>(
    before: Option<T>,
    record: &Record,
    part: Option<&[u8]>,
    array: &mut [u8],
) -> Outcome<T> {
    match (record.call, before, part) {
        (Call::Buffer, _, _) => Outcome {
            object: before,
            answer: Ok(0),
        },
        // A refused `new` leaves what was there.
        (Call::New, _, Some(part)) => match T::made(part, record.now) {
            Ok(object) => Outcome {
                object: Some(object),
                answer: Ok(0),
            },
            Err(refusal) => not_done(before, Undone::Refused(refusal)),
        },
        (Call::New, _, None) => not_done(None, Undone::Panicked),
        (_, None, _) => not_done(None, Undone::Absent),
        (_, Some(object), Some(part)) => call(object, record, part, array),
        (_, Some(_), None) => not_done(None, Undone::Panicked),
    }
}

fn not_done<T>(object: Option<T>, undone: Undone) -> Outcome<T> {
    Outcome {
        object,
        answer: Err(undone),
    }
}

fn call<T: Played>(object: T, record: &Record, part: &[u8], array: &mut [u8]) -> Outcome<T> {
    // A record with a longer buffer was refused.
    let Some(out) = array.get_mut(..record.buffer) else {
        return not_done(None, Undone::Panicked);
    };
    let called = object.called(record, part, out);
    Outcome {
        object: Some(called.object),
        answer: called.answer.map_err(Undone::Refused),
    }
}
