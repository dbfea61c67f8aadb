// Repeats a call of the endpoint or of the codec, to be timed from outside: a run of N repetitions and one of 2N differ by the time of N.
// Standard input has records: the item, the repetitions as a little-endian u32, and a datagram after its length in one byte. Each writes a line with a
// sum over what came out, so that it shows what was done.
#![tactic(auto)]

mod calls;
mod ends;
mod exchange;
mod wire;

use std::fmt;
use std::io::{ErrorKind, Read};
use std::process::ExitCode;

// A proved loop has to end, and nothing says that the input does.
const MOST: usize = 1000;

// The stream that failed.
#[derive(Clone, Copy, Debug)]
enum Fault {
    Input,
    Output,
}

impl fmt::Display for Fault {
    fn fmt<W: fmt::Write>(&self, f: &mut fmt::Formatter<W>) -> fmt::Result {
        f.write_str(match self {
            Fault::Input => "standard input cannot be read",
            Fault::Output => "standard output cannot be written",
        })
    }
}

fn main(rt: HostRuntime) -> ExitCode {
    match run(&mut rt.stdin(), &rt) {
        Ok(()) => ExitCode::SUCCESS,
        Err(fault) => {
            // Where this line fails too, nobody is left to be told.
            let _ = eprintln!(rt; "test_bench: {fault}");
            ExitCode::FAILURE
        }
    }
}

// A record that the input ends inside is not done.
fn run(input: &mut impl Read, rt: &impl Print) -> Result<(), Fault> {
    for _ in 0..MOST {
        let mut head = [0; 6];
        if !is_read(input, &mut head)? {
            break;
        }
        let [item, c0, c1, c2, c3, length] = head;
        let mut room = [0; 255];
        let datagram = &mut room[..usize::from(length)];
        if !is_read(input, datagram)? {
            break;
        }
        let sum = sum_of(item, u32::from_le_bytes([c0, c1, c2, c3]), datagram);
        rt.println(sum).map_err(|_| Fault::Output)?;
    }
    Ok(())
}

// An item's number stands here alone: an enum of the items would say each twice more, where it is read and here.
fn sum_of(item: u8, count: u32, datagram: &mut [u8]) -> u64 {
    match item {
        0 => wire::read(count, datagram),
        1 => wire::write(count, datagram),
        2 => calls::input(ends::small(), &[7; 1], count),
        3 => calls::input(ends::large(), &[7; 64], count),
        4 => calls::send_input(count),
        5 => calls::input_ack(count),
        6 => calls::keep_alive(count),
        7 => calls::act(count),
        8 => exchange::run(count),
        _ => 0,
    }
}

// Whether all of the slice was read. Where it was not, the input ended. (It stands in test_vectors too, as `Fault` does: a public function of a library
// states a contract, and what reads has none.)
fn is_read(input: &mut impl Read, buf: &mut [u8]) -> Result<bool, Fault> {
    match input.read_exact(buf) {
        Ok(()) => Ok(true),
        Err(e) if e.kind() == ErrorKind::UnexpectedEof => Ok(false),
        Err(_) => Err(Fault::Input),
    }
}
