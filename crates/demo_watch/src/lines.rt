// What is printed: a line begins with the letter of the end that it is about. (`refusal` and `stats` read as in demo_bout: a public function of a library
// states a contract, and what prints has none.)
use crate::ends::{BOX, HOST};
use demo_ends::Datagrams;
use endpoint::Events;
use spectator::{
    InputStatus, NetworkStats, Refusal, Request, Requests, SessionEvent, SessionEvents,
};
use std::io;

// A call that is done is not shown.
pub(crate) fn refusal(rt: &impl Print, name: u8, refusal: Option<Refusal>) -> io::Result<()> {
    match refusal {
        Some(refusal) => println!(rt; "{}: refused {}", char::from(name), refusal.number()),
        None => Ok(()),
    }
}

// A queue, message by message, as the printing program shows each, after the word for what becomes of it.
pub(crate) fn messages(rt: &impl Print, name: u8, fate: &[u8], queue: &[u8]) -> io::Result<()> {
    for datagram in Datagrams(queue) {
        let mut page = [0; 256];
        let end = message_line::line_after(&mut page, 0, fate, datagram);
        print!(rt; "{}: ", char::from(name))?;
        rt.write_all(text::filled(&page, end))?;
    }
    Ok(())
}

// The endpoint's events have no inputs here: a box sends none.
pub(crate) fn host_events(rt: &impl Print, events: Events) -> io::Result<()> {
    // The lines are shorter; one that did not fit would not show.
    let mut page = [0; 1024];
    let end = event_line::lines(&mut page, 0, HOST, events, 0);
    rt.write_all(text::filled(&page, end))
}

pub(crate) fn box_events(rt: &impl Print, events: SessionEvents) -> io::Result<()> {
    for entry in events.entries.as_slice() {
        begin(rt)?;
        match entry.event {
            SessionEvent::Synchronizing { total, count } => {
                println!(rt; "Synchronizing {count} of {total}")
            }
            SessionEvent::Synchronized => println!(rt; "Synchronized"),
            SessionEvent::Disconnected => println!(rt; "Disconnected"),
            SessionEvent::NetworkInterrupted { disconnect_timeout } => {
                println!(rt; "NetworkInterrupted {disconnect_timeout}")
            }
            SessionEvent::NetworkResumed => println!(rt; "NetworkResumed"),
        }?;
    }
    Ok(())
}

fn begin(rt: &impl Print) -> io::Result<()> {
    print!(rt; "{}: ", char::from(BOX))
}

// The frames that an advance gives are those after the current one. No frame comes after the last.
pub(crate) fn frames(rt: &impl Print, current: u32, requests: Requests) -> io::Result<()> {
    let mut frame = current;
    for request in requests.frames.as_slice() {
        frame = frame.saturating_add(1);
        inputs(rt, frame, request)?;
    }
    Ok(())
}

// An input is one byte.
fn inputs(rt: &impl Print, frame: u32, request: &Request) -> io::Result<()> {
    begin(rt)?;
    print!(rt; "frame {}:", frame::to_signed(frame))?;
    for synced in request.inputs.as_slice() {
        print!(rt; " {:02x}", synced.input[0])?;
        if let InputStatus::Disconnected = synced.status {
            print!(rt; " Disconnected")?;
        }
    }
    println!(rt)
}

pub(crate) fn place(rt: &impl Print, current: u32, behind: Result<u32, Refusal>) -> io::Result<()> {
    begin(rt)?;
    print!(rt; "at frame {}, ", frame::to_signed(current))?;
    match behind {
        Ok(n) => println!(rt; "{n} behind"),
        Err(_) => println!(rt; "out of range"),
    }
}

// Advantages are read as signed numbers.
pub(crate) fn stats(rt: &impl Print, stats: Result<NetworkStats, Refusal>) -> io::Result<()> {
    let stats = match stats {
        Ok(stats) => stats,
        Err(refused) => return refusal(rt, BOX, Some(refused)),
    };
    begin(rt)?;
    println!(rt;
        "ping {}, {} inputs pending, frames behind {}, the other end {}",
        stats.ping,
        stats.send_queue_len,
        frame::to_signed(stats.local_frames_behind),
        frame::to_signed(stats.remote_frames_behind),
    )
}
