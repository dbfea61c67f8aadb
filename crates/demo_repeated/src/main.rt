// A datagram that arrives more than once is announced once. docs/FAILURES.md goes through it.
#![tactic(auto)]

use endpoint::{Endpoint, Statuses};
use frame::BIAS32;
use std::io;
use std::process::ExitCode;

// The ends' magics, and their numbers as peers.
const A: u16 = 65;

const B: u16 = 66;

// It reads as in the other demos: a public function of a library states a contract, and what prints has none.
fn main(rt: HostRuntime) -> ExitCode {
    if play(&rt).is_ok() {
        return ExitCode::SUCCESS;
    }
    // Where this line fails too, nobody is left to be told.
    let _ = eprintln!(rt; "demo_repeated: standard output cannot be written");
    ExitCode::FAILURE
}

fn play(rt: &impl Print) -> io::Result<()> {
    let mut queue = [0; 128];
    let statuses = Statuses::new(2);
    let a = demo_ends::end(A, B, 1, 0);
    let mut b = demo_ends::end(B, A, 0, 0);
    // The datagram with frame 0, of which the network keeps a copy, arrives twice.
    let sent = a.send_input(BIAS32, b"\x05", statuses, 100, &mut queue);
    let mut copy = [0; 128];
    let taken = sent.endpoint.take_messages_into(&queue, &mut copy);
    let first = text::filled(&copy, taken.answer.unwrap_or(0));
    arrive(rt, &mut b, first, 110)?;
    arrive(rt, &mut b, first, 120)?;
    // The datagram with frames 0 and 1 arrives, and then the first once more.
    let a = taken.endpoint;
    let sent = a.send_input(BIAS32 + 1, b"\x07", statuses, 130, &mut queue);
    arrive(rt, &mut b, sent.endpoint.messages(&queue), 140)?;
    arrive(rt, &mut b, first, 150)
}

// A's datagram arrives at B: what it is, what B announces, and what B answers.
fn arrive(rt: &impl Print, b: &mut Endpoint, datagram: &[u8], now: u64) -> io::Result<()> {
    let mut queue = [0; 64];
    let ended = b.datagram(A.into(), datagram, now, now, 0, &mut queue);
    let taken = ended.endpoint.take_events();
    let mut page = [0; 512];
    let at = message_line::line_after(&mut page, 0, b"A: sends ", datagram);
    let at = event_line::lines(&mut page, at, b'B', taken.events, 1);
    let answer = taken.endpoint.messages(&queue);
    let at = message_line::line_after(&mut page, at, b"B: sends ", answer);
    *b = taken.endpoint.take_messages(&queue).endpoint;
    rt.write_all(text::filled(&page, at))
}
