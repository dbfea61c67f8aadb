// The viewing box: a spectator session, the buffer that this is lent, and how much of the buffer the last poll handed back to be sent. (Some calls read as
// the host's; a trait over endpoint and session would have to name each of them twice more.)
use crate::ends::{BOX, HOST, epoch};
use crate::lines;
use demo_ends::Datagrams;
use spectator::{Choices, DesyncDetection, Ended, Limits, SessionSetup, SpectatorSession};
use std::io;

#[derive(Clone, Copy)]
pub(crate) struct Viewer {
    pub session: SpectatorSession,
    pub queue: [u8; 1024],
    pub filled: usize,
}

// The game's numbers are the host's; the limits are the box's own.
fn setup() -> SessionSetup {
    SessionSetup {
        num_players: 2,
        input_size: 1,
        max_prediction: 8,
        disconnect_timeout: 2000,
        disconnect_notify_start: 500,
        fps: 60,
        magic: BOX.into(),
        peer_addr: HOST.into(),
        choices: Choices::new(DesyncDetection::Off),
        limits: Limits {
            slots: 60,
            session_events: 100,
            max_frames_behind: 2,
            catchup_speed: 3,
        },
    }
}

impl Viewer {
    pub(crate) fn new(rt: &impl Print, now: u32) -> io::Result<Viewer> {
        let made = SpectatorSession::new(setup(), now.into());
        lines::refusal(rt, BOX, made.answer.err())?;
        Ok(Viewer {
            session: made.session,
            queue: [0; 1024],
            filled: 0,
        })
    }

    // What a call leaves. A refusal is shown; session and queue are then as they were.
    fn after(&mut self, rt: &impl Print, ended: Ended) -> io::Result<()> {
        self.session = ended.session;
        lines::refusal(rt, BOX, ended.answer.err())
    }

    pub(crate) fn synchronize(&mut self, rt: &impl Print, now: u32) -> io::Result<()> {
        let ended = self
            .session
            .synchronize(now.into(), epoch(now), now, &mut self.queue);
        self.after(rt, ended)
    }

    fn datagram(&mut self, rt: &impl Print, datagram: &[u8], now: u32) -> io::Result<()> {
        let ended = self.session.datagram(
            HOST.into(),
            datagram,
            now.into(),
            epoch(now),
            now,
            &mut self.queue,
        );
        self.after(rt, ended)
    }

    // What the host has sent arrives, a message in each datagram.
    pub(crate) fn receive(&mut self, rt: &impl Print, sent: &[u8], now: u32) -> io::Result<()> {
        for datagram in Datagrams(sent) {
            self.datagram(rt, datagram, now)?;
        }
        Ok(())
    }

    // What arrived is handled. The filled part of the buffer is to be sent before the next call.
    pub(crate) fn poll(&mut self, rt: &impl Print, now: u32) -> io::Result<()> {
        let polled = self
            .session
            .poll_remote_clients(now.into(), epoch(now), now, &mut self.queue);
        self.session = polled.session;
        self.filled = polled.answer.unwrap_or(0);
        lines::refusal(rt, BOX, polled.answer.err())
    }

    // The next frame, or, too far behind, the next few: each is shown.
    pub(crate) fn advance(&mut self, rt: &impl Print) -> io::Result<()> {
        let current = self.session.current_frame();
        let advanced = self.session.advance_frame();
        self.session = advanced.session;
        match advanced.answer {
            Ok(requests) => lines::frames(rt, current, requests),
            Err(refusal) => lines::refusal(rt, BOX, Some(refusal)),
        }
    }

    pub(crate) fn show_events(&mut self, rt: &impl Print) -> io::Result<()> {
        let taken = self.session.take_events();
        self.session = taken.session;
        lines::box_events(rt, taken.events)
    }

    pub(crate) fn show_place(&self, rt: &impl Print) -> io::Result<()> {
        lines::place(
            rt,
            self.session.current_frame(),
            self.session.frames_behind_host(),
        )
    }

    // What the last poll handed back.
    pub(crate) fn sent(&self) -> &[u8] {
        text::filled(&self.queue, self.filled)
    }

    pub(crate) fn show_messages(&self, rt: &impl Print) -> io::Result<()> {
        lines::messages(rt, BOX, b"sends ", self.sent())
    }

    pub(crate) fn show_stats(&self, rt: &impl Print, now: u32) -> io::Result<()> {
        lines::stats(rt, self.session.network_stats(epoch(now)))
    }
}
