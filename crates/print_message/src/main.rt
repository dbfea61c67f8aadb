// Prints the line of the datagram on standard input (W-14).
#![tactic(auto)]

ghost use Rattle.std.specs.Prelude.{◌≤◌, length, IfOk};

use std::io;
use std::io::Read;
use std::process::ExitCode;

fn main(rt: HostRuntime) -> ExitCode {
    // One byte more than the largest message: what stands after that is not read, since the answer is known by then.
    let mut datagram = [0u8; 8308];
    let Ok(n) = read_full(&mut rt.stdin(), &mut datagram) else {
        return tell(&rt, "print_message: standard input cannot be read");
    };
    if print(&rt, &datagram[..n]).is_err() {
        return tell(&rt, "print_message: standard output cannot be written");
    }
    ExitCode::SUCCESS
}

// Reads until the slice is full or the input ends. How many bytes it put at the slice's start.
// A loop of its own, since std's `read_to_end` needs a heap, and `read_exact` does not say how much was read.
fn read_full(input: &mut impl Read, buf: &mut [u8]) -> io::Result<usize>
    ensures { IfOk result (λ n. n ≤ length buf.new) }
{
    let mut done = 0;
    while done < buf.len() {
        let n = input.read(&mut buf[done..])?;
        if n == 0 {
            break;
        }
        done += n;
    }
    Ok(done)
}

// One line on standard error, with which the program ends; where that fails too, nobody is left to be told.
fn tell(rt: &impl Eprint, line: &str) -> ExitCode {
    let _ = rt.eprintln(line);
    ExitCode::FAILURE
}

fn print(rt: &impl Print, datagram: &[u8]) -> io::Result<()> {
    // More than 256 bytes and two for each byte of the longest payload: every line fits.
    let mut out = [0u8; 16896];
    let end = message_line::line_after(&mut out, 0, b"", datagram);
    rt.write_all(text::filled(&out, end))
}
