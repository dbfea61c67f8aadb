// Packets are lost both ways, and every input arrives once, under its own frame. docs/FAILURES.md goes through it.
#![tactic(auto)]

use endpoint::{Endpoint, Statuses};
use frame::BIAS32;
use std::io;
use std::process::ExitCode;

// The ends' magics, and their numbers as peers.
const A: u16 = 65;

const B: u16 = 66;

// It reads as in the other demos: a public function of a library states a contract, and what prints has none.
fn main(rt: HostRuntime) -> ExitCode {
    if play(&rt).is_ok() {
        return ExitCode::SUCCESS;
    }
    // Where this line fails too, nobody is left to be told.
    let _ = eprintln!(rt; "demo_lost: standard output cannot be written");
    ExitCode::FAILURE
}

// An end, and the buffer that it is lent.
#[derive(Clone, Copy)]
struct End {
    endpoint: Endpoint,
    queue: [u8; 128],
}

fn play(rt: &impl Print) -> io::Result<()> {
    let mut a = End::new(A, B, 1);
    let mut b = End::new(B, A, 0);
    a.send(rt, b"A: loses ", BIAS32, 0x05)?;
    a.send(rt, b"A: sends ", BIAS32 + 1, 0x07)?;
    // B's answer is lost too, so that A sends frames 0 and 1 again with frame 2.
    b.receive(rt, b"B: loses ", &a)?;
    a.send(rt, b"A: sends ", BIAS32 + 2, 0x02)?;
    b.receive(rt, b"B: sends ", &a)?;
    // This answer arrives: from here on A packs against frame 2.
    a.receive_answer(&b);
    a.send(rt, b"A: loses ", BIAS32 + 3, 0x02)?;
    a.send(rt, b"A: sends ", BIAS32 + 4, 0x01)?;
    b.receive(rt, b"B: sends ", &a)
}

impl End {
    fn new(own: u16, other: u16, player: u32) -> End {
        End {
            endpoint: demo_ends::end(own, other, player, 0),
            queue: [0; 128],
        }
    }

    // A's player moves. What A had queued before is gone by then; the packet is shown after the words for what becomes of it.
    fn send(&mut self, rt: &impl Print, words: &[u8], frame: u32, input: u8) -> io::Result<()> {
        let taken = self.endpoint.take_messages(&self.queue);
        let statuses = Statuses::new(2);
        let sent = taken
            .endpoint
            .send_input(frame, &[input], statuses, 100, &mut self.queue);
        self.endpoint = sent.endpoint;
        let mut page = [0; 256];
        let packet = self.endpoint.messages(&self.queue);
        let end = message_line::line_after(&mut page, 0, words, packet);
        rt.write_all(text::filled(&page, end))
    }

    // What A has queued arrives at B, which announces it and answers.
    fn receive(&mut self, rt: &impl Print, words: &[u8], a: &End) -> io::Result<()> {
        let packet = a.endpoint.messages(&a.queue);
        let taken = self.endpoint.take_messages(&self.queue);
        let heard = taken
            .endpoint
            .datagram(A.into(), packet, 120, 120, 0, &mut self.queue);
        let announced = heard.endpoint.take_events();
        self.endpoint = announced.endpoint;
        let mut page = [0; 256];
        let end = event_line::lines(&mut page, 0, b'B', announced.events, 1);
        let answer = self.endpoint.messages(&self.queue);
        let end = message_line::line_after(&mut page, end, words, answer);
        rt.write_all(text::filled(&page, end))
    }

    // B's answer arrives at A.
    fn receive_answer(&mut self, b: &End) {
        let answer = b.endpoint.messages(&b.queue);
        let heard = self
            .endpoint
            .datagram(B.into(), answer, 140, 140, 0, &mut self.queue);
        self.endpoint = heard.endpoint;
    }
}
