// What the bout prints: a line begins with the letter of the end that it is about.
use endpoint::{Events, NetworkStats, Phase, Refusal};
use std::io;

// A call that is done prints nothing.
pub(crate) fn refusal(rt: &impl Print, name: u8, refusal: Option<Refusal>) -> io::Result<()> {
    match refusal {
        Some(refusal) => println!(rt; "{}: refused {}", char::from(name), refusal.number()),
        None => Ok(()),
    }
}

// An input is one byte.
pub(crate) fn events(rt: &impl Print, name: u8, events: Events) -> io::Result<()> {
    // The lines of this bout are shorter; one that did not fit would not show.
    let mut page = [0; 1024];
    let end = event_line::lines(&mut page, 0, name, events, 1);
    rt.write_all(text::filled(&page, end))
}

// A message as the printing program shows it, after the word for what becomes of it.
pub(crate) fn message(rt: &impl Print, name: u8, fate: &[u8], datagram: &[u8]) -> io::Result<()> {
    let mut page = [0; 256];
    let end = message_line::line_after(&mut page, 0, fate, datagram);
    print!(rt; "{}: ", char::from(name))?;
    rt.write_all(text::filled(&page, end))
}

// Advantages are read as signed numbers.
pub(crate) fn stats(
    rt: &impl Print,
    name: u8,
    stats: Result<NetworkStats, Refusal>,
) -> io::Result<()> {
    let stats = match stats {
        Ok(stats) => stats,
        Err(refused) => return refusal(rt, name, Some(refused)),
    };
    println!(rt;
        "{}: ping {}, {} inputs pending, frames behind {}, the other end {}",
        char::from(name),
        stats.ping,
        stats.send_queue_len,
        frame::to_signed(stats.local_frames_behind),
        frame::to_signed(stats.remote_frames_behind),
    )
}

pub(crate) fn state(rt: &impl Print, name: u8, phase: Phase) -> io::Result<()> {
    let state = match phase {
        Phase::Initializing => "Initializing",
        Phase::Synchronizing => "Synchronizing",
        Phase::Running => "Running",
        Phase::Disconnected => "Disconnected",
        Phase::Shutdown => "Shutdown",
    };
    println!(rt; "{}: state {state}", char::from(name))
}
