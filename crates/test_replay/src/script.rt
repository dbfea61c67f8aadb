// Reading a script: its header, and one record after the other with its payload part.
ghost use Rattle.std.specs.Prelude.{◌≤◌, length, IfOk};

use crate::little::{u8_at, u32_at};
use crate::out::Mode;
use crate::played::Arrays;
use crate::record::{Call, Object, Record};
use crate::stop::{HeaderFault, RecordFault, Stop};
use crate::value::{is_checksum, is_message, is_setup};
use std::io::{Read, Stdin};

// What names the bytes that are carried: an object, a place and a length.
const CARRY_SIZE: usize = 12;

// `GGSC`, version 1, the mode, and two zeros.
pub(crate) fn read_mode(input: &mut Stdin) -> Result<Mode, Stop> {
    let mut header = [0; 8];
    if read_full(input, &mut header)? < 8 {
        return Err(Stop::NoHeader);
    }
    mode_of(&header).map_err(Stop::Header)
}

fn mode_of(header: &[u8; 8]) -> Result<Mode, HeaderFault> {
    if !header.starts_with(b"GGSC") {
        return Err(HeaderFault::Name);
    }
    if u8_at(header, 4) != 1 {
        return Err(HeaderFault::Version);
    }
    match u32_at(header, 4) {
        0x0001 => Ok(Mode::Whole),
        0x0101 => Ok(Mode::Digest),
        _ => Err(HeaderFault::Mode),
    }
}

// The next record, or none where the script ends before it. Its payload part stands at the start of `payload`.
pub(crate) fn next_record(
    input: &mut Stdin,
    at: usize,
    payload: &mut [u8],
) -> Result<Option<Record>, Stop> {
    let mut head = [0; 64];
    match read_full(input, &mut head)? {
        0 => return Ok(None),
        64 => {}
        _ => return Err(Stop::Record(at, RecordFault::NoHead)),
    }
    let record = Record::try_from(&head).map_err(|fault| Stop::Record(at, fault))?;
    let part = payload
        .get_mut(..record.length)
        .ok_or(Stop::Record(at, RecordFault::Length))?;
    if read_full(input, part)? < record.length {
        return Err(Stop::Record(at, RecordFault::NoPayload));
    }
    Ok(Some(record))
}

// Reads until the slice is full or the script ends. How many bytes it put at the slice's start.
// No index is counted: how far a read comes is what the stream says.
fn read_full(input: &mut Stdin, buf: &mut [u8]) -> Result<usize, Stop>
    ensures { IfOk result (λ n. n ≤ length buf.new) }
{
    let mut done = 0;
    while done < buf.len() {
        let n = input.read(&mut buf[done..]).map_err(|_| Stop::Input)?;
        if n == 0 {
            break;
        }
        done += n;
    }
    Ok(done)
}

// How much of `payload` is the payload part that a record's call takes; none where it takes no such part. A datagram that is carried comes there first.
pub(crate) fn part_of(record: &Record, payload: &mut [u8], arrays: &Arrays) -> Option<usize> {
    if record.call == Call::Carry {
        return if record.length == CARRY_SIZE {
            carry(payload, arrays)
        } else {
            None
        };
    }
    let part = text::filled(payload, record.length);
    let is_taken = match record.call {
        Call::New => is_setup(part),
        Call::Message => is_message(part),
        Call::SendChecksumReport => is_checksum(part),
        _ => true,
    };
    is_taken.then_some(record.length)
}

// The bytes at a place of an object's array, in the place of those that name them.
fn carry(payload: &mut [u8], arrays: &Arrays) -> Option<usize> {
    let object = Object::try_from(u32_at(payload, 0)).ok()?;
    let at = u32_at(payload, 4) as usize;
    let count = u32_at(payload, 8) as usize;
    let part = arrays.of(object).get(at..)?.get(..count)?;
    payload.get_mut(..count)?.copy_from_slice(part);
    Some(count)
}
