// The host: the machine of a player that feeds the box. It has an endpoint for the box, the buffer that this is lent, and the players' statuses.
use crate::ends::{BOX, HOST, epoch};
use crate::lines;
use demo_ends::Datagrams;
use endpoint::{Choices, DesyncDetection, Ended, Endpoint, Handles, Setup, Statuses};
use std::io;

#[derive(Clone, Copy)]
pub(crate) struct Host {
    pub endpoint: Endpoint,
    pub queue: [u8; 1024],
    pub statuses: Statuses,
}

// Towards a box every player is local: the endpoint sends the inputs of all of them. A box sends no inputs; its handle is the first number that no player has.
fn setup() -> Setup {
    Setup {
        num_players: 2,
        handles: Handles {
            list: [2, 0, 0, 0],
            count: 1,
        },
        local_players: 2,
        input_size: 1,
        max_prediction: 8,
        disconnect_timeout: 2000,
        disconnect_notify_start: 500,
        fps: 60,
        magic: HOST.into(),
        peer_addr: BOX.into(),
        choices: Choices::new(DesyncDetection::Off),
    }
}

impl Host {
    pub(crate) fn new(rt: &impl Print, now: u32) -> io::Result<Host> {
        let made = Endpoint::new(setup(), now.into());
        lines::refusal(rt, HOST, made.answer.err())?;
        Ok(Host {
            endpoint: made.endpoint,
            queue: [0; 1024],
            statuses: Statuses::new(2),
        })
    }

    // What a call leaves. A refusal is shown; endpoint and queue are then as they were.
    fn after(&mut self, rt: &impl Print, ended: Ended) -> io::Result<()> {
        self.endpoint = ended.endpoint;
        lines::refusal(rt, HOST, ended.answer.err())
    }

    // The time serves as the nonce, where a game draws one at random: no end makes two requests at one time.
    pub(crate) fn synchronize(&mut self, rt: &impl Print, now: u32) -> io::Result<()> {
        let ended = self
            .endpoint
            .synchronize(now.into(), epoch(now), now, &mut self.queue);
        self.after(rt, ended)
    }

    // A frame of the game: both players' inputs, end to end.
    pub(crate) fn send_input(
        &mut self,
        rt: &impl Print,
        frame: i32,
        inputs: [u8; 2],
        now: u32,
    ) -> io::Result<()> {
        let frame = frame::from_signed(frame);
        for player in 0..inputs.len() {
            self.play(player, frame);
        }
        let ended = self
            .endpoint
            .send_input(frame, &inputs, self.statuses, now.into(), &mut self.queue);
        self.after(rt, ended)
    }

    // A player has played up to a frame; one that has left stays at its last.
    fn play(&mut self, player: usize, frame: u32) {
        if !self.statuses.get(player).disconnected {
            self.statuses = self.statuses.merge_report(player, false, frame);
        }
    }

    // Player 1 leaves: of the frames above this one its inputs are no longer its own.
    pub(crate) fn lose_player(&mut self, frame: i32) {
        self.statuses = self
            .statuses
            .merge_report(1, true, frame::from_signed(frame));
    }

    pub(crate) fn act(&mut self, rt: &impl Print, now: u32) -> io::Result<()> {
        let ended = self.endpoint.act(self.statuses, now.into(), epoch(now), now, &mut self.queue);
        self.after(rt, ended)
    }

    fn datagram(&mut self, rt: &impl Print, datagram: &[u8], now: u32) -> io::Result<()> {
        let ended = self.endpoint.datagram(
            BOX.into(),
            datagram,
            now.into(),
            epoch(now),
            now,
            &mut self.queue,
        );
        self.after(rt, ended)
    }

    // What the box has sent arrives, a message in each datagram.
    pub(crate) fn receive(&mut self, rt: &impl Print, sent: &[u8], now: u32) -> io::Result<()> {
        for datagram in Datagrams(sent) {
            self.datagram(rt, datagram, now)?;
        }
        Ok(())
    }

    // The queue is emptied: what was in it is sent, or lost.
    pub(crate) fn take_messages(&mut self, rt: &impl Print) -> io::Result<()> {
        let ended = self.endpoint.take_messages(&self.queue);
        self.after(rt, ended)
    }

    pub(crate) fn show_messages(&self, rt: &impl Print, fate: &[u8]) -> io::Result<()> {
        lines::messages(rt, HOST, fate, self.endpoint.messages(&self.queue))
    }

    pub(crate) fn show_events(&mut self, rt: &impl Print) -> io::Result<()> {
        let taken = self.endpoint.take_events();
        self.endpoint = taken.endpoint;
        lines::host_events(rt, taken.events)
    }
}
