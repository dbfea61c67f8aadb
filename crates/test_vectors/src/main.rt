// Runs the codec on datagrams from standard input, each after its length as a little-endian u16,
// and writes a line for each: the datagram's line and, where it reads, whether writing the message
// gives the datagram back.
#![tactic(auto)]

use codec::Message;
use std::fmt;
use std::io::{ErrorKind, Read};
use std::process::ExitCode;

// A proved loop has to end, and nothing says that the input does.
const MOST: usize = 1000000;

// The stream that failed.
#[derive(Clone, Copy, Debug, PartialEq, Eq)]
enum Fault {
    Input,
    Output,
}

impl fmt::Display for Fault {
    fn fmt<W: fmt::Write>(&self, f: &mut fmt::Formatter<W>) -> fmt::Result {
        f.write_str(match self {
            Fault::Input => "test_vectors: standard input cannot be read",
            Fault::Output => "test_vectors: standard output cannot be written",
        })
    }
}

fn main(rt: HostRuntime) -> ExitCode {
    match run(&mut rt.stdin(), &rt) {
        Ok(()) => ExitCode::SUCCESS,
        Err(fault) => {
            // One line on standard error; where that fails too, nobody is left to be told.
            let _ = rt.eprintln(fault);
            ExitCode::FAILURE
        }
    }
}

fn run(input: &mut impl Read, rt: &impl Print) -> Result<(), Fault> {
    for _ in 0..MOST {
        if !one(input, rt)? {
            break;
        }
    }
    Ok(())
}

// False where the input ends before a datagram does.
fn one(input: &mut impl Read, rt: &impl Print) -> Result<bool, Fault> {
    let mut prefix = [0u8; 2];
    if !is_read(input, &mut prefix)? {
        return Ok(false);
    }
    let mut room = [0u8; 65536];
    let datagram = &mut room[..usize::from(u16::from_le_bytes(prefix))];
    if !is_read(input, datagram)? {
        return Ok(false);
    }
    print(rt, datagram)?;
    Ok(true)
}

fn print(rt: &impl Print, datagram: &[u8]) -> Result<(), Fault> {
    // More than 256 bytes and two for each byte of the longest payload: every line fits.
    let mut out = [0u8; 16896];
    let end = message_line::line(&mut out, 0, datagram).unwrap_or(0);
    put(rt, text::filled(&out, end))?;
    if let Ok(message) = codec::read(datagram) {
        if same_again(datagram, message) {
            put(rt, b" same")?;
        } else {
            put(rt, b" differs")?;
        }
    }
    put(rt, b"\n")
}

// Whether writing the message gives the datagram that it was read from.
fn same_again(datagram: &[u8], message: Message) -> bool {
    // As long as the longest message.
    let mut again = [0u8; 8307];
    match codec::write(&mut again, 0, message, codec::payload_of(datagram)) {
        Ok(end) => text::filled(&again, end) == datagram,
        Err(_) => false,
    }
}

// Whether all of the slice was read. Where it was not, the input ended.
fn is_read(input: &mut impl Read, buf: &mut [u8]) -> Result<bool, Fault> {
    match input.read_exact(buf) {
        Ok(()) => Ok(true),
        Err(e) if e.kind() == ErrorKind::UnexpectedEof => Ok(false),
        Err(_) => Err(Fault::Input),
    }
}

fn put(rt: &impl Print, bytes: &[u8]) -> Result<(), Fault> {
    rt.write_all(bytes).map_err(|_| Fault::Output)
}
