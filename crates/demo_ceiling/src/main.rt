// Checksum reports in falling frame order: none is so old that it could go, so the store fills up, and the report that finds no room is refused.
// docs/FAILURES.md goes through it.
#![tactic(auto)]

use endpoint::{Checksums, Ended, Endpoint, Message, MessageBody, Wide};
use frame::BIAS32;
use std::io;
use std::process::ExitCode;

// The ends' magics, and their numbers as peers.
const A: u16 = 65;

const B: u16 = 66;

// It reads as in the other demos: a public function of a library states a contract, and what prints has none.
fn main(rt: HostRuntime) -> ExitCode {
    if play(&rt).is_ok() {
        return ExitCode::SUCCESS;
    }
    // Where this line fails too, nobody is left to be told.
    let _ = eprintln!(rt; "demo_ceiling: standard output cannot be written");
    ExitCode::FAILURE
}

fn play(rt: &impl Print) -> io::Result<()> {
    let full = show(rt, BIAS32 + 100, report(falling(), BIAS32 + 100, 110))?;
    let refused = show(rt, BIAS32 + 99, report(full, BIAS32 + 99, 120))?;
    if same(full.checksums(), refused.checksums()) {
        println!(rt; "All 64 are as they were")?;
    }
    if unheard(full, refused) {
        println!(rt; "And nothing was heard, announced or queued")?;
    }
    let later = show(rt, BIAS32 + 164, report(refused, BIAS32 + 164, 130))?;
    show(rt, BIAS32 + 99, report(later, BIAS32 + 99, 140))?;
    Ok(())
}

// B after A's reports of frames 163 down to 101.
fn falling() -> Endpoint {
    let mut b = demo_ends::end(B, A, 0, 0);
    for frame in (BIAS32 + 101..BIAS32 + 164).rev() {
        b = report(b, frame, 100).endpoint;
    }
    b
}

// A's report of a frame arrives at B. The frame's number serves as its checksum.
fn report(b: Endpoint, frame: u32, now: u64) -> Ended {
    let checksum = Wide {
        low: frame.into(),
        high: 0,
    };
    let message = Message {
        magic: A,
        body: MessageBody::ChecksumReport { checksum, frame },
        reports: codec::no_reports(),
    };
    let mut queue = [0; 64];
    b.message(A.into(), message, b"", now, now, 0, &mut queue)
}

// What a report was answered, and the checksums then held, which stand in the order of their coming.
fn show(rt: &impl Print, frame: u32, ended: Ended) -> io::Result<Endpoint> {
    let held = ended.endpoint.checksums();
    let count = held.count();
    println!(rt;
        "Report of frame {}: answer {}, checksums {count}, first frame {}, last frame {}",
        frame::to_signed(frame),
        answer::number_of(ended.answer),
        frame::to_signed(held.entry(0).frame),
        frame::to_signed(held.entry(count.wrapping_sub(1)).frame),
    )?;
    Ok(ended.endpoint)
}

// As many, and place by place the same.
fn same(before: Checksums, after: Checksums) -> bool {
    before.entries.as_slice() == after.entries.as_slice()
}

// What any other message would have changed, the receive time first of all.
fn unheard(before: Endpoint, after: Endpoint) -> bool {
    before.clocks.last_recv_time == after.clocks.last_recv_time
        && before.events.count() == after.events.count()
        && before.queued == after.queued
        && before.last_recv_frame() == after.last_recv_frame()
}
